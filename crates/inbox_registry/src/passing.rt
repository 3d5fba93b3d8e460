//! Time passes, and requests expire.
ghost use Rattle.std.specs.Prelude.{◌≡◌, true, suc, length, List};
ghost use Rattle.contract_store.specs.declared.hold.Hold.{Hold};
ghost use Rattle.request_track.specs.Pairs.{Pair, expired, is_late, undecided_of};
ghost use Rattle.inbox_registry.specs.Steps.{HoldsFollow, InStep, Passing};

use contract_store::Store;
use request_track::{Outcome, Tracker};

// Lets the request at a place, which is late, expire and hold nothing any more.
fn expire_one(store: &mut Store, tracker: &mut Tracker, place: u64, time: u64)
    requires { is_late time tracker.old.pairs place ≡ true }
    ensures step { (start : List Pair) (held : List Hold) → Passing time start tracker.old.pairs held store.old.holds
        → Passing time start tracker.new.pairs held store.new.holds }
    ensures less { suc (length (undecided_of tracker.new.pairs)) ≡ length (undecided_of tracker.old.pairs) }
    ensures rows { store.new.rows ≡ store.old.rows }
    ensures ready { store.new.ready ≡ store.old.ready }
    ensures spare { store.new.spare ≡ store.old.spare }
    ensures cursor { tracker.new.cursor ≡ tracker.old.cursor }
{
    store.release(place);
    tracker.settle(place, Outcome::Expired);
}

/// Lets each undecided request expire whose decision time is before `time`, in microseconds, and releases its holds. The places of the requests have to
/// rise and their decision times mustn't fall (`InStep`), since the walk ends at the first undecided request that isn't late.
pub fn pass_time(store: &mut Store, tracker: &mut Tracker, time: u64)
    requires { InStep tracker.old.pairs }
    ensures pairs { tracker.new.pairs ≡ expired time tracker.old.pairs }
    ensures holds { HoldsFollow tracker.old.pairs tracker.new.pairs store.old.holds store.new.holds }
    ensures rows { store.new.rows ≡ store.old.rows }
    ensures ready { store.new.ready ≡ store.old.ready }
    ensures spare { store.new.spare ≡ store.old.spare }
    ensures cursor { tracker.new.cursor ≡ tracker.old.cursor }
{
    'late: while let Some(place) = tracker.first_late(time) {
        expire_one(store, tracker, place, time);
    }
}
