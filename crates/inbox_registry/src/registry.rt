//! Where contracts and requests stand.
ghost use Rattle.std.specs.Prelude.{◌≡◌, ◌++◌, ◌+◌, ◌∷◌, ◌<◌, ◌≤◌, ◌^◌, [], true, None, All, length, map, OnOk, OnErr};
ghost use Rattle.canton_model.specs.declared.outcome.Outcome.TheVariants.{Undecided};
ghost use Rattle.contract_store.specs.Holds.{released};
ghost use Rattle.contract_store.specs.Stored.{is_ready};
ghost use Rattle.request_track.specs.Pairs.{clean_of, expired, outcome_at, settled, tracked_at};
ghost use Rattle.inbox_registry.specs.ChangeLists.{hold_on, write_changes};
ghost use Rattle.pruned_inbox.specs.Start.{no_start};
ghost use Rattle.inbox_registry.specs.Room.{HasRoom};
ghost use Rattle.inbox_registry.specs.Registry.{known_status};
ghost use Rattle.inbox_registry.specs.Steps.{HoldsFollow, InStep};

use crate::change::Change;
use crate::kept_start::KeptStart;
use crate::passing::pass_time;
use crate::writing::{hold_all, make_room, write_all};
use contract_store::{HashList, Store};
use ledger_model::Status;
use ledger_terms::{Hash, KnownList};
use request_track::{Outcome, Tracker};
use std::alloc::{AllocError, Global};
use std::marker::Model;

/// What a participant knows of contracts, and of the requests that it received.
#[derive(Drop)]
pub struct Registry {
    store: Store,
    tracker: Tracker,
    start: KeptStart,
}

impl Model for Registry {
    ghost use Rattle.inbox_registry.specs.Registry.{Registered};

    ghost Value = { Registered };

    ghost view = { λ s. record { store = s.store; tracking = s.tracker; start = s.start } };
}

impl Registry {
    /// The registry of an inbox that has no items, and has forgotten nothing.
    pub fn new(alloc: Global) -> Registry
        ensures rows { result.store.rows ≡ [] }
        ensures holds { result.store.holds ≡ [] }
        ensures pairs { result.tracking.pairs ≡ [] }
        ensures cursor { result.tracking.cursor ≡ 0 }
        ensures start { result.start ≡ no_start }
    {
        Registry::at(alloc, 0, KeptStart::new(alloc))
    }

    /// The registry of an inbox that begins at its base: `cursor` entries were read, and left this start. The start's active contracts aren't in the
    /// store yet; `write` puts them there.
    pub fn at(alloc: Global, cursor: u64, start: KeptStart) -> Registry
        ensures rows { result.store.rows ≡ [] }
        ensures holds { result.store.holds ≡ [] }
        ensures pairs { result.tracking.pairs ≡ [] }
        ensures cursor { result.tracking.cursor ≡ cursor }
        ensures start { result.start ≡ start }
    {
        Registry {
            store: Store::new(alloc),
            tracker: Tracker::at(alloc, cursor),
            start,
        }
    }

    /// What the inbox left at its base.
    pub fn start(&self) -> &KeptStart
        ensures { result.now ≡ self.now.start }
    {
        &self.start
    }

    /// The status of the contract with this id. One that is gone counts as consumed.
    pub fn status(&self, id: &Hash) -> Status
        ensures { result ≡ known_status self.now.start self.now.store.rows id.now }
    {
        if self.start.is_gone(id) {
            Status::Consumed
        } else {
            self.store.status(id)
        }
    }

    /// Writes into the store what the request at a place did. By it the contracts that a start left active come into the store, before any entry since
    /// the base is read. Room was made for it, so it takes no memory.
    pub fn write(&mut self, place: u64, changes: Vec<Change>)
        requires { HasRoom self.old.store.ready self.old.store.spare changes.items }
        ensures rows { self.new.store.rows ≡ write_changes place changes.items self.old.store.rows }
        ensures holds { self.new.store.holds ≡ self.old.store.holds }
        ensures tracking { self.new.tracking ≡ self.old.tracking }
        ensures start { self.new.start ≡ self.old.start }
    {
        write_all(&mut self.store, place, changes);
    }

    /// The store, which has the contracts with their status and the holds on them.
    pub fn store(&self) -> &Store
        ensures { result.now ≡ self.now.store }
    {
        &self.store
    }

    /// What became of the request at a place, Undecided as long as nothing did. None exactly where none is tracked there.
    pub fn outcome(&self, place: u64) -> Option<Outcome>
        ensures { result ≡ outcome_at self.now.tracking.pairs place }
    {
        self.tracker.outcome(place)
    }

    /// How many entries were read.
    pub fn cursor(&self) -> u64
        ensures { result ≡ self.now.tracking.cursor }
    {
        self.tracker.cursor()
    }

    /// The clean place: the least place of an undecided request, and the cursor where there is none, or where the cursor is less.
    pub fn clean(&self) -> u64
        ensures { result ≡ clean_of self.now.tracking.pairs self.now.tracking.cursor }
    {
        self.tracker.clean()
    }

    /// Tracks the request that comes at the cursor, where none is tracked yet, with its decision time `decision`, in microseconds, and makes room for
    /// its holds on the contracts with these ids. After want of memory the request isn't tracked.
    pub fn begin(&mut self, decision: u64, ids: &HashList) -> Result<(), AllocError>
        requires { tracked_at self.old.tracking.pairs self.old.tracking.cursor ≡ None }
        ensures rows { self.new.store.rows ≡ self.old.store.rows }
        ensures holds { self.new.store.holds ≡ self.old.store.holds }
        ensures cursor { self.new.tracking.cursor ≡ self.old.tracking.cursor }
        ensures ok { OnOk result (self.new.tracking.pairs
            ≡ self.old.tracking.pairs ++ (self.old.tracking.cursor, record { decision = decision; outcome = Undecided }) ∷ []) }
        ensures err { OnErr result (self.new.tracking.pairs ≡ self.old.tracking.pairs) }
        ensures room { OnOk result (length ids.now ≤ self.new.store.spare) }
        ensures ready { OnOk result (All (λ c. is_ready self.new.store.ready c ≡ true) ids.now) }
        ensures start { self.new.start ≡ self.old.start }
    {
        self.store.reserve(&KnownList::new(*ids.allocator()), ids)?;
        let place = self.tracker.cursor();
        self.tracker.begin(place, decision)
    }

    /// Makes room for these changes, so that they can be written without memory. After want of memory rows, holds and tracked requests are as before.
    pub fn make_room(&mut self, changes: &Vec<Change>) -> Result<(), AllocError>
        ensures rows { self.new.store.rows ≡ self.old.store.rows }
        ensures holds { self.new.store.holds ≡ self.old.store.holds }
        ensures tracking { self.new.tracking ≡ self.old.tracking }
        ensures room { OnOk result (HasRoom self.new.store.ready self.new.store.spare changes.now.items) }
        ensures start { self.new.start ≡ self.old.start }
    {
        make_room(&mut self.store, changes)
    }

    /// Lets each undecided request expire whose decision time is before `time`, in microseconds, and releases its holds. The tracked requests' places
    /// and decision times have to rise (`InStep`).
    pub fn pass(&mut self, time: u64)
        requires { InStep self.old.tracking.pairs }
        ensures pairs { self.new.tracking.pairs ≡ expired time self.old.tracking.pairs }
        ensures holds { HoldsFollow self.old.tracking.pairs self.new.tracking.pairs self.old.store.holds self.new.store.holds }
        ensures rows { self.new.store.rows ≡ self.old.store.rows }
        ensures ready { self.new.store.ready ≡ self.old.store.ready }
        ensures spare { self.new.store.spare ≡ self.old.store.spare }
        ensures cursor { self.new.tracking.cursor ≡ self.old.tracking.cursor }
        ensures start { self.new.start ≡ self.old.start }
    {
        pass_time(&mut self.store, &mut self.tracker, time);
    }

    /// Notes that the request at a place holds the contracts with these ids. Room was made for it, so it takes no memory.
    pub fn hold(&mut self, place: u64, ids: &HashList)
        requires spare { length ids.now ≤ self.old.store.spare }
        requires ready { All (λ c. is_ready self.old.store.ready c ≡ true) ids.now }
        ensures rows { self.new.store.rows ≡ self.old.store.rows }
        ensures holds { self.new.store.holds ≡ self.old.store.holds ++ map (hold_on place) ids.now }
        ensures tracking { self.new.tracking ≡ self.old.tracking }
        ensures start { self.new.start ≡ self.old.start }
    {
        hold_all(&mut self.store, place, ids);
    }

    /// Gives the request at a place this outcome, if it is tracked, releases its holds and writes these changes. The caller hands in those of the
    /// request where it is approved, and else none. Room was made for them, so it takes no memory.
    pub fn settle(&mut self, place: u64, outcome: Outcome, changes: Vec<Change>)
        requires { HasRoom self.old.store.ready self.old.store.spare changes.items }
        ensures rows { self.new.store.rows ≡ write_changes place changes.items self.old.store.rows }
        ensures holds { self.new.store.holds ≡ released place self.old.store.holds }
        ensures pairs { self.new.tracking.pairs ≡ settled place outcome self.old.tracking.pairs }
        ensures cursor { self.new.tracking.cursor ≡ self.old.tracking.cursor }
        ensures start { self.new.start ≡ self.old.start }
    {
        self.tracker.settle(place, outcome);
        self.store.release(place);
        write_all(&mut self.store, place, changes);
    }

    /// Notes that one entry more is read.
    pub fn advance(&mut self)
        requires { self.old.tracking.cursor + 1 < 2 ^ 64 }
        ensures store { self.new.store ≡ self.old.store }
        ensures pairs { self.new.tracking.pairs ≡ self.old.tracking.pairs }
        ensures cursor { self.new.tracking.cursor ≡ self.old.tracking.cursor + 1 }
        ensures start { self.new.start ≡ self.old.start }
    {
        self.tracker.advance();
    }
}
