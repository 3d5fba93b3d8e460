//! Views that are shown.
use crate::audience::Audience;
use crate::chips::put_chips;
use crate::line::LineKind;
use crate::sheet::Sheet;
use crate::span::Span;
use crate::spot::Spot;
use crate::steps::{StepList, steps_of};
use crate::view_box::BoxKind;
use crate::words::view_text;
use ledger_terms::{PartySet, Path};
use std::alloc::AllocError;
use view_split::View;

/// Puts the box of an opened view with its actions, and the boxes of all views below it, each in the place of its hole.
pub(crate) fn put_view(
    sheet: &mut Sheet,
    audience: &Audience<'_>,
    spot: &Spot,
    view: &View,
) -> Result<(), AllocError> {
    let top = sheet.begin_box();
    let inside = spot.span.inside();
    let told = spot.told.union(&view.root.informees)?;
    put_roles(
        sheet,
        audience,
        spot,
        &view.root.informees,
        &view.root.confirmers,
    )?;
    let steps = steps_of(sheet.alloc, &view.root)?;
    let mut next = 0;
    let mut at: u16 = 0;
    for below in view.below.as_slice() {
        let hole = put_core(sheet, inside, &steps, next)?;
        let spot_below = spot.below(at, inside.at_level(hole.level), &told)?;
        put_view(sheet, audience, &spot_below, below)?;
        next = hole.next;
        at = at.saturating_add(1);
    }
    put_core(sheet, inside, &steps, next)?;
    sheet.end_box(spot.span, top, kind_at(&spot.path))
}

/// How the box of a shown view looks, so that it can be told from the one around it.
fn kind_at(path: &Path) -> BoxKind {
    if path.len() % 2 == 1 {
        BoxKind::Tinted
    } else {
        BoxKind::Plain
    }
}

/// Puts the line that says which view it is, with its informees and confirmers, and a chip for each participant that sees it.
pub(crate) fn put_roles(
    sheet: &mut Sheet,
    audience: &Audience<'_>,
    spot: &Spot,
    informees: &PartySet,
    confirmers: &PartySet,
) -> Result<(), AllocError> {
    let inside = spot.span.inside();
    let told = spot.told.union(informees)?;
    let text = view_text(sheet.alloc, &spot.path, informees, confirmers)?;
    sheet.put_line(LineKind::View, inside, text)?;
    put_chips(sheet, audience, inside, &told, confirmers)
}

/// Where a walk through a core stopped: the level of the hole, and the number of the step behind it.
#[derive(Clone, Copy)]
struct Hole {
    level: u32,
    next: usize,
}

/// Puts the actions of a core from the step `from` on, up to the next hole. Where there is no hole any more, the result has level 0 and the number of
/// all steps.
fn put_core(
    sheet: &mut Sheet,
    span: Span,
    steps: &StepList,
    from: usize,
) -> Result<Hole, AllocError> {
    for (at, step) in steps.as_slice().iter().enumerate().skip(from) {
        let level = step.level;
        match &step.action {
            Some(action) => {
                sheet.put_line(LineKind::Action, span.at_level(level), action.clone()?)?;
            }
            None => {
                let next = at.saturating_add(1);
                return Ok(Hole { level, next });
            }
        }
    }
    let next = steps.len();
    Ok(Hole { level: 0, next })
}
