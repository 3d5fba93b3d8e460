//! Who sees a view, who confirms it, and who only observes.
use crate::audience::Audience;
use crate::part::Part;
use crate::sheet::Sheet;
use crate::span::Span;
use ledger_terms::{ParticipantId, PartySet, Topology};
use std::alloc::AllocError;

/// What a participant does with a view: `told` are the informees of the view and of those above it. None: it hosts none of these.
fn part_of(
    topology: &Topology,
    at: ParticipantId,
    told: &PartySet,
    confirmers: &PartySet,
) -> Option<Part> {
    if !topology.hosts_any(at, told) {
        None
    } else if topology.confirms_any(at, confirmers) {
        Some(Part::Confirms)
    } else if topology.confirms_any(at, told) {
        Some(Part::Sees)
    } else {
        Some(Part::Observes)
    }
}

/// Puts a chip for each participant that hosts one of the parties `told`, which are the informees of a view and of those above it; `confirmers` are
/// those of the view.
pub(crate) fn put_chips(
    sheet: &mut Sheet,
    audience: &Audience<'_>,
    span: Span,
    told: &PartySet,
    confirmers: &PartySet,
) -> Result<(), AllocError> {
    let mut left = span.left;
    for (at, host) in (0..=255u8).zip(audience.topology.hosts.as_slice()) {
        let at = ParticipantId(at);
        if let Some(part) = part_of(audience.topology, at, told, confirmers) {
            left = sheet.put_chip(span, left, host.name, part, audience.lacks(at))?;
        }
    }
    sheet.end_chips();
    Ok(())
}
