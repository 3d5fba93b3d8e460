//! The lists below the entries.
use crate::counts::is_refused;
use crate::heading::{label, quiet};
use crate::layout::{LEFT, LINE_HEIGHT, LIST_GAP, at};
use crate::limits::{MOST_ACTIVES, MOST_FIRED, MOST_REFUSED};
use crate::sheet::Sheet;
use report_read::{Active, Answer, Fired, Report, SubmitResult, Summary};
use std::alloc::AllocError;
use svg_text::{Font, Mark};

/// Letters that have room in a line of a list.
const LINE_LETTERS: u32 = 120;

/// How far the lines of a list stand to the right of its title.
const INDENT: u32 = 24;

/// Lists the first 500 refused submissions, and says where there are more. `count` is how many the report has; where it is 0, nothing is drawn.
pub fn draw_refused(
    sheet: &mut Sheet,
    report: &Report<'_>,
    count: usize,
) -> Result<(), AllocError> {
    if count == 0 {
        return Ok(());
    }
    draw_title(sheet, "Refused submissions, of which nothing was sent")?;
    let results = report.results.as_slice().iter();
    for answered in results
        .filter(|answered| is_refused(answered))
        .take(MOST_REFUSED)
    {
        draw_refusal(sheet, report, answered)?;
    }
    draw_rest(sheet, "refused submissions", count, MOST_REFUSED)
}

fn draw_refusal(
    sheet: &mut Sheet,
    report: &Report<'_>,
    answered: &SubmitResult<'_>,
) -> Result<(), AllocError> {
    let name = report.hosts.name(answered.participant).unwrap_or("");
    let SubmitResult { round, command, .. } = answered;
    let fault = match answered.answer {
        Answer::Refused(fault) => fault,
        Answer::Sent(_) => "",
    };
    let y = sheet.y.saturating_sub(5);
    sheet.svg.mark(at(LEFT + 7, y), Mark::Rejected)?;
    let words = format!(in sheet.alloc; "round {round}: {name} {command} refused, {fault}")?;
    draw_line(sheet, words.as_str(), Font::Plain)
}

/// Lists the first 500 rules that fired, each with its round, its contract and its command, and says where there are more. Where none fired, nothing is
/// drawn.
pub fn draw_fired(sheet: &mut Sheet, report: &Report<'_>) -> Result<(), AllocError> {
    if report.fired.is_empty() {
        return Ok(());
    }
    draw_title(sheet, "Rules that fired, each on a contract, as a command")?;
    for fired in report.fired.as_slice().iter().take(MOST_FIRED) {
        draw_one_fired(sheet, fired)?;
    }
    draw_rest(sheet, "rules that fired", report.fired.len(), MOST_FIRED)
}

fn draw_one_fired(sheet: &mut Sheet, fired: &Fired<'_>) -> Result<(), AllocError> {
    let Fired { round, rule, words } = fired;
    let told = format!(in sheet.alloc; "round {round}: {rule} on {words}")?;
    draw_line(sheet, told.as_str(), Font::Code)
}

/// Lists what each participant knows at the end of the run, with its active contracts below it. Only the first 500 active contracts of the report are
/// listed, and a line says where there are more.
pub fn draw_summaries(sheet: &mut Sheet, report: &Report<'_>) -> Result<(), AllocError> {
    draw_title(sheet, "What each participant knows at the end")?;
    for summary in report.summaries.as_slice() {
        draw_summary(sheet, report, summary)?;
        let actives = report.actives.as_slice().iter().take(MOST_ACTIVES);
        for active in actives.filter(|active| active.participant == summary.participant) {
            draw_active(sheet, active)?;
        }
    }
    draw_rest(
        sheet,
        "active contracts",
        report.actives.len(),
        MOST_ACTIVES,
    )
}

/// Writes the line of one participant, without its active contracts.
fn draw_summary(
    sheet: &mut Sheet,
    report: &Report<'_>,
    summary: &Summary,
) -> Result<(), AllocError> {
    let name = report.hosts.name(summary.participant).unwrap_or("");
    let Summary { clean, time, .. } = summary;
    let known = format!(in sheet.alloc; "{name}: clean to place {clean}, time {time}")?;
    let Summary {
        pruned,
        withheld,
        commits,
        actions,
        actives,
        ..
    } = summary;
    let mut words = format!(in sheet.alloc;
        "{known}; commits {commits}, actions {actions}, active contracts {actives}"
    )?;
    if let Some(base) = pruned {
        write!(words, ", restarted and pruned to place {base}")?;
    }
    if *withheld > 0 {
        write!(words, ", withheld requests {withheld}")?;
    }
    let place = at(LEFT, sheet.y);
    sheet.words(&label(place, Font::Plain), words.as_str(), LINE_LETTERS)?;
    sheet.skip(LINE_HEIGHT);
    Ok(())
}

fn draw_active(sheet: &mut Sheet, active: &Active<'_>) -> Result<(), AllocError> {
    let Active {
        place,
        instance,
        ..
    } = active;
    let words = format!(in sheet.alloc; "{place} {instance}")?;
    draw_line(sheet, words.as_str(), Font::Code)
}

fn draw_title(sheet: &mut Sheet, title: &str) -> Result<(), AllocError> {
    let place = at(LEFT, sheet.y);
    sheet.svg.text(&label(place, Font::Strong), title)?;
    sheet.skip(LINE_HEIGHT);
    Ok(())
}

fn draw_line(sheet: &mut Sheet, words: &str, font: Font) -> Result<(), AllocError> {
    let place = at(LEFT + INDENT, sheet.y);
    sheet.words(&label(place, font), words, LINE_LETTERS)?;
    sheet.skip(LINE_HEIGHT);
    Ok(())
}

/// Says how many of a list aren't drawn, if there are such, and leaves a gap.
fn draw_rest(sheet: &mut Sheet, what: &str, count: usize, most: usize) -> Result<(), AllocError> {
    if count > most {
        let words = format!(in sheet.alloc;
            "The report has {count} {what}, of which {most} are drawn."
        )?;
        let place = at(LEFT, sheet.y);
        sheet.svg.text(&quiet(place, Font::Plain), words.as_str())?;
        sheet.skip(LINE_HEIGHT);
    }
    sheet.skip(LIST_GAP);
    Ok(())
}
