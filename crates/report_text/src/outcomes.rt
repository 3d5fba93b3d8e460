//! What became of the requests of a whole log.
ghost use Rattle.std.specs.Prelude.{◌≡◌, ◌+◌, ℕ, IfOk, OnOk, max, nat_eq, nat_lt, option_copied, slice_get};
ghost use Rattle.canton_model.specs.Log.{verdict_of, time_of, decision_time_of};
ghost use Rattle.canton_model.specs.Timeline.{decision_on, or_else, verdict_on, is_past, timeline_of};
ghost use Rattle.indexmap.specs.IndexMap.{get};

use canton_model::{Decision, EntryList, Message};
use indexmap::IndexMap;
use ledger_terms::Params;
use std::alloc::{AllocError, Global};
use std::marker::Model;

/// A log that was read once, with what decides its requests: the first verdict on each, and the greatest time of an entry.
#[derive(Drop)]
pub struct Outcomes<'l> {
    log: &'l EntryList,
    verdicts: IndexMap<u64, &'l Decision>,
    latest: u64,
}

impl<'l> Model for Outcomes<'l> {
    ghost use Rattle.std.specs.Prelude.{List, nat_eq};
    ghost use Rattle.canton_model.specs.declared.entry.Entry.{Entry};
    ghost use Rattle.indexmap.specs.IndexMap.{get};
    ghost use Rattle.report_text.specs.Decided.{Decides};

    ghost Value = { List Entry };

    ghost view = { λ s. s.log.now };

    ghost invariant = { λ s. Decides (λ request. get nat_eq s.verdicts request) s.latest s.log.now };
}

/// Keeps the decision of a verdict, unless its request has one.
fn keep_first<'l>(
    verdicts: &mut IndexMap<u64, &'l Decision>,
    message: &'l Message,
) -> Result<(), AllocError>
    ensures { OnOk result ((request : ℕ) → option_copied (get nat_eq verdicts.new request)
        ≡ or_else (option_copied (get nat_eq verdicts.old request)) (decision_on request (verdict_of message.now))) }
{
    if let Message::Verdict(verdict) = message {
        if !verdicts.contains_key(&verdict.request) {
            verdicts.insert(verdict.request, &verdict.decision)?;
        }
    }
    Ok(())
}

// The later of two times.
fn later(time: u64, other: u64) -> u64
    ensures { result ≡ max time other }
{
    if time < other { other } else { time }
}

/// The time of the entry at a place, or 0 where none stands there.
fn time_at(log: &EntryList, place: usize) -> u64
    ensures { result ≡ time_of (slice_get log.now place) }
{
    match log.get(place) {
        Some(entry) => entry.time,
        None => 0,
    }
}

/// Whether a time is later than the decision time of a request that was sequenced at the time `sent`. The sum of a time and the timeouts may be past
/// every u64.
fn is_later(time: u64, sent: u64, params: &Params) -> bool
    ensures { result ≡ nat_lt (sent + params.now.response_timeout + params.now.reaction_timeout) time }
{
    let waited = time
        .saturating_sub(sent)
        .saturating_sub(params.response_timeout);
    params.reaction_timeout < waited
}

impl<'l> Outcomes<'l> {
    /// Reads a log once, so that what became of its requests can be asked.
    pub fn of(alloc: Global, log: &'l EntryList) -> Result<Outcomes<'l>, AllocError>
        ensures { IfOk result (λ outcomes. outcomes ≡ log.now) }
    {
        let mut verdicts = IndexMap::new(alloc);
        let mut latest = 0;
        'entries: for entry in log.as_slice() {
            latest = later(latest, entry.time);
            keep_first(&mut verdicts, &entry.message)?;
        }
        Ok(Outcomes {
            log,
            verdicts,
            latest,
        })
    }

    /// The decision of the first verdict on the request at the place `request`; None where the log has no verdict on it.
    pub fn verdict(&self, request: u64) -> Option<&'l Decision>
        ensures { option_copied result ≡ verdict_on request (timeline_of self.now) }
    {
        self.verdicts.get(&request).copied()
    }

    /// Whether some entry of the log is later than the decision time of the request at the place, by the timeouts of `params`. So without a verdict the
    /// request is expired where this is true, and undecided where it is false.
    pub fn has_passed(&self, place: usize, params: &Params) -> bool
        ensures { result ≡ is_past (decision_time_of params.now self.now place) (timeline_of self.now) }
    {
        is_later(self.latest, time_at(self.log, place), params)
    }
}
