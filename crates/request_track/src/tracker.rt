//! The requests of which a participant is a recipient.
ghost use Rattle.std.specs.Prelude.{◌≡◌, ◌+◌, ◌<◌, ◌≤◌, ◌^◌, ℕ, Some, None, [], ◌∷◌, ◌++◌, List, length, option_map, if◌then◌else◌, OnOk, OnErr};
ghost use Rattle.std.specs.Prelude.{vec_len, vec_capacity};
ghost use Rattle.request_track.specs.Expiring.{Expiring};
ghost use Rattle.indexmap.specs.IndexMap.{spare};
ghost use Rattle.canton_model.specs.declared.outcome.Outcome.TheVariants.{Undecided, Expired};
ghost use Rattle.request_track.specs.Pairs.{Pair, Apart, tracked_at, outcome_at, settled, expired, clean_of, undecided_of, late_tracked, is_late};
ghost use Rattle.request_track.specs.Pairs.{late_first, first_late};

use crate::pairs::{push_pair, settle_pair, tracked};
use crate::places::{first_or, insert_if, remove_if};
use crate::tracked::{Tracked, is_undecided};
use canton_model::Outcome;
use indexmap::IndexMap;
use std::alloc::{AllocError, Global};
use std::marker::Model;

/// Requests with what became of them, and how far the participant has read.
#[derive(Drop)]
pub struct Tracker {
    pairs: IndexMap<u64, Tracked>,
    undecided: Vec<u64>,
    cursor: u64,
    clean: u64,
}

impl Model for Tracker {
    ghost use Rattle.std.specs.Prelude.{◌≡◌, ◌+◌, ◌<◌, ◌≤◌, length, vec_capacity};
    ghost use Rattle.request_track.specs.Pairs.{Apart, clean_of, undecided_of};
    ghost use Rattle.request_track.specs.Tracking.{Tracking};

    ghost Value = { Tracking };

    ghost view = { λ t. record { pairs = t.pairs.entries; cursor = t.cursor } };

    ghost invariant = { λ t. (t.undecided.items ≡ undecided_of t.pairs.entries) × (t.clean ≡ clean_of t.pairs.entries t.cursor)
        × Apart t.pairs.entries × (0 < length t.pairs.entries → length t.pairs.entries + 1 ≤ vec_capacity t.undecided) };
}

// Gives the request at a place that is tracked, as `old` says, this outcome.
fn settle_at(
    pairs: &mut IndexMap<u64, Tracked>,
    undecided: &mut Vec<u64>,
    place: u64,
    old: Tracked,
    outcome: Outcome,
)
    requires there { tracked_at pairs.old.entries place ≡ Some old }
    requires undecided { undecided.old.items ≡ undecided_of pairs.old.entries }
    requires room { length pairs.old.entries + 1 ≤ vec_capacity undecided.old }
    ensures pairs { pairs.new.entries ≡ settled place outcome pairs.old.entries }
    ensures undecided { undecided.new.items ≡ undecided_of pairs.new.entries }
    ensures room { vec_capacity undecided.old ≤ vec_capacity undecided.new }
{
    settle_pair(pairs, place, old.decision, outcome);
    remove_if(undecided, is_undecided(old.outcome), place);
    insert_if(undecided, is_undecided(outcome), place);
}

// Whether a request, where one is tracked, is undecided and its decision time is before `time`.
fn is_late(tracked: &Option<Tracked>, time: u64) -> bool
    ensures { result ≡ late_tracked time tracked.now }
{
    match tracked {
        Some(found) => is_undecided(found.outcome) && found.decision < time,
        None => false,
    }
}

// The first of the undecided places, where the request there is late at `time`; else None.
fn late_first(pairs: &IndexMap<u64, Tracked>, undecided: &Vec<u64>, time: u64) -> Option<u64>
    ensures { result ≡ late_first time pairs.now.entries undecided.now.items }
{
    match undecided.first() {
        Some(place) => {
            if is_late(&tracked(pairs, *place), time) {
                Some(*place)
            } else {
                None
            }
        }
        None => None,
    }
}

// Lets the request at an undecided place expire if it is late at `time`, and says whether it was.
fn expire_at(
    pairs: &mut IndexMap<u64, Tracked>,
    undecided: &mut Vec<u64>,
    place: u64,
    time: u64,
) -> bool
    requires undecided { undecided.old.items ≡ undecided_of pairs.old.entries }
    requires room { length pairs.old.entries + 1 ≤ vec_capacity undecided.old }
    ensures pairs { pairs.new.entries ≡ (if result then settled place Expired pairs.old.entries else pairs.old.entries) }
    ensures undecided { undecided.new.items ≡ undecided_of pairs.new.entries }
    ensures room { vec_capacity undecided.old ≤ vec_capacity undecided.new }
    ensures late { result ≡ is_late time pairs.old.entries place }
    ensures len { (if result then 1 else 0) + vec_len undecided.new ≤ vec_len undecided.old }
{
    let found = tracked(pairs, place);
    if !is_late(&found, time) {
        return false;
    }
    let Some(old) = found else {
        return false;
    };
    settle_at(pairs, undecided, place, old, Outcome::Expired);
    true
}

// Lets the request at the undecided place of this index expire if it is late, by which its place leaves the list. The result is the index from which
// to go on.
fn expire_next(
    pairs: &mut IndexMap<u64, Tracked>,
    undecided: &mut Vec<u64>,
    at: usize,
    time: u64,
) -> usize
    requires within { at < vec_len undecided.old }
    requires undecided { undecided.old.items ≡ undecided_of pairs.old.entries }
    requires room { length pairs.old.entries + 1 ≤ vec_capacity undecided.old }
    ensures step { (start : List Pair) → Expiring time start pairs.old.entries undecided.old.items at
        → Expiring time start pairs.new.entries undecided.new.items result }
    ensures len { vec_len undecided.new + at + 1 ≤ vec_len undecided.old + result }
    ensures room { vec_capacity undecided.old ≤ vec_capacity undecided.new }
{
    let place = undecided[at];
    if expire_at(pairs, undecided, place, time) {
        at
    } else {
        at + 1
    }
}

// Each undecided request whose decision time is below the time expires.
fn expire_all(pairs: &mut IndexMap<u64, Tracked>, undecided: &mut Vec<u64>, time: u64)
    requires undecided { undecided.old.items ≡ undecided_of pairs.old.entries }
    requires apart { Apart pairs.old.entries }
    requires room { 0 < length pairs.old.entries → length pairs.old.entries + 1 ≤ vec_capacity undecided.old }
    ensures pairs { pairs.new.entries ≡ expired time pairs.old.entries }
    ensures undecided { undecided.new.items ≡ undecided_of pairs.new.entries }
    ensures apart { Apart pairs.new.entries }
    ensures many { length pairs.new.entries ≡ length pairs.old.entries }
    ensures room { vec_capacity undecided.old ≤ vec_capacity undecided.new }
{
    let mut at = 0;
    'forth: while at < undecided.len() {
        at = expire_next(pairs, undecided, at, time);
    }
}

// Makes room for one more request.
fn room_for_one(
    pairs: &mut IndexMap<u64, Tracked>,
    undecided: &mut Vec<u64>,
) -> Result<(), AllocError>
    requires { length undecided.old.items ≤ length pairs.old.entries }
    ensures pairs { pairs.new.entries ≡ pairs.old.entries }
    ensures undecided { undecided.new.items ≡ undecided.old.items }
    ensures capacity { vec_capacity undecided.old ≤ vec_capacity undecided.new }
    ensures room { OnOk result ((0 < spare pairs.new) × (length pairs.new.entries + 2 ≤ vec_capacity undecided.new)) }
{
    let more = pairs.len() + 2 - undecided.len();
    pairs.reserve(1)?;
    undecided.reserve(more)?;
    Ok(())
}

impl Tracker {
    /// A tracker without requests, of a participant that has read nothing.
    pub fn new(alloc: Global) -> Tracker
        ensures pairs { result.pairs ≡ [] }
        ensures cursor { result.cursor ≡ 0 }
    {
        Tracker::at(alloc, 0)
    }

    /// A tracker without requests, of a participant that has read `cursor` entries.
    pub fn at(alloc: Global, cursor: u64) -> Tracker
        ensures pairs { result.pairs ≡ [] }
        ensures cursor { result.cursor ≡ cursor }
    {
        Tracker {
            pairs: IndexMap::new(alloc),
            undecided: Vec::new(alloc),
            cursor,
            clean: cursor,
        }
    }

    /// How many entries the participant has read: the place of the next one.
    pub fn cursor(&self) -> u64
        ensures { result ≡ self.now.cursor }
    {
        self.cursor
    }

    /// The clean place: the least place of an undecided request, and the cursor where there is none, or where the cursor is less.
    pub fn clean(&self) -> u64
        ensures { result ≡ clean_of self.now.pairs self.now.cursor }
    {
        self.clean
    }

    /// What became of the request at a place, Undecided as long as nothing did. None exactly where none is tracked there.
    pub fn outcome(&self, place: u64) -> Option<Outcome>
        ensures { result ≡ outcome_at self.now.pairs place }
    {
        match tracked(&self.pairs, place) {
            Some(found) => Some(found.outcome),
            None => None,
        }
    }

    /// The least place of an undecided request, where its decision time, in microseconds, is before `time`. None where it isn't, though a later one may
    /// be, or where no request is undecided.
    pub fn first_late(&self, time: u64) -> Option<u64>
        ensures { result ≡ first_late time self.now.pairs }
    {
        late_first(&self.pairs, &self.undecided, time)
    }

    /// Notes that one entry more is read.
    pub fn advance(&mut self)
        requires { self.old.cursor + 1 < 2 ^ 64 }
        ensures cursor { self.new.cursor ≡ self.old.cursor + 1 }
        ensures pairs { self.new.pairs ≡ self.old.pairs }
    {
        self.cursor += 1;
        self.clean = first_or(&self.undecided, self.cursor);
    }

    /// Tracks one more request, undecided, which stands at `place`, where none is tracked yet, and has the decision time `decision`, in microseconds.
    /// After want of memory all is as before.
    pub fn begin(&mut self, place: u64, decision: u64) -> Result<(), AllocError>
        requires { tracked_at self.old.pairs place ≡ None }
        ensures ok { OnOk result (self.new.pairs ≡ self.old.pairs ++ (place, record { decision = decision; outcome = Undecided }) ∷ []) }
        ensures err { OnErr result (self.new.pairs ≡ self.old.pairs) }
        ensures cursor { self.new.cursor ≡ self.old.cursor }
    {
        room_for_one(&mut self.pairs, &mut self.undecided)?;
        push_pair(
            &mut self.pairs,
            place,
            Tracked {
                decision,
                outcome: Outcome::Undecided,
            },
        );
        insert_if(&mut self.undecided, true, place);
        self.clean = first_or(&self.undecided, self.cursor);
        Ok(())
    }

    /// Gives the request at a place this outcome. Nothing changes where none is tracked there.
    pub fn settle(&mut self, place: u64, outcome: Outcome)
        ensures pairs { self.new.pairs ≡ settled place outcome self.old.pairs }
        ensures cursor { self.new.cursor ≡ self.old.cursor }
    {
        if let Some(old) = tracked(&self.pairs, place) {
            settle_at(&mut self.pairs, &mut self.undecided, place, old, outcome);
            self.clean = first_or(&self.undecided, self.cursor);
        }
    }

    /// Lets each undecided request expire whose decision time is before `time`, in microseconds.
    pub fn expire(&mut self, time: u64)
        ensures pairs { self.new.pairs ≡ expired time self.old.pairs }
        ensures cursor { self.new.cursor ≡ self.old.cursor }
    {
        expire_all(&mut self.pairs, &mut self.undecided, time);
        self.clean = first_or(&self.undecided, self.cursor);
    }
}
