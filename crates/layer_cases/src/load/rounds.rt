//! Rounds and their submissions.
use crate::answer::Answer;
use crate::load::commands::put_command;
use ledger_terms::{Submission, Topology, What};
use script_read::Round;

/// How many submissions are all shown.
const FEW: usize = 10;

/// How many are shown of more than a few.
const LAST: usize = 4;

/// Puts a line for a round at the end, and one for each submission that is shown.
pub(crate) fn put_round(topology: &Topology, round: &Round, out: &mut Answer) {
    out.put("round advance ");
    out.number(round.advance);
    out.put(" paused ");
    out.number(round.paused.len() as u64);
    out.put(if round.hold_verdicts {
        " verdicts held"
    } else {
        " verdicts given"
    });
    out.put(" submits ");
    out.number(round.submits.len() as u64);
    out.put(" raws ");
    out.number(round.raws.len() as u64);
    out.put("\n");
    for submission in shown(round.submits.as_slice()) {
        put_submission(topology, submission, out);
    }
}

/// All of a few submissions, or the last of many.
fn shown(submits: &[Submission]) -> &[Submission] {
    if submits.len() > FEW {
        &submits[submits.len() - LAST..]
    } else {
        submits
    }
}

/// Puts a submission at the end: its participant, its command id, its requesters, whether it has a ledger time of its own, and
/// what it asks for.
fn put_submission(topology: &Topology, submission: &Submission, out: &mut Answer) {
    out.host(topology, submission.participant);
    out.put(" ");
    out.put(submission.command.as_str());
    out.put(" as ");
    out.names(submission.act_as.as_slice());
    put_time(submission.ledger_time, out);
    put_what(&submission.what, out);
    out.put("\n");
}

fn put_time(time: Option<u64>, out: &mut Answer) {
    match time {
        Some(time) => {
            out.put(" at ");
            out.number(time);
        }
        None => out.put(" now"),
    }
}

fn put_what(what: &What, out: &mut Answer) {
    match what {
        What::Commands(commands) => {
            for command in commands.as_slice() {
                out.put(" ");
                put_command(command, out);
            }
        }
        What::Prepared { .. } => out.put(" prepared"),
    }
}
