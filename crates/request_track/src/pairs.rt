//! The pairs, in a map.
ghost use Rattle.std.specs.Prelude.{◌≡◌, ◌≢◌, ◌+◌, ◌<◌, ◌≤◌, ℕ, Some, None, [], ◌∷◌, ◌++◌, length, nat_eq, option_map, IsSome, OnOk, OnErr};
ghost use Rattle.indexmap.specs.IndexMap.{spare};
ghost use Rattle.request_track.specs.Pairs.{tracked_at, settled};

use crate::tracked::Tracked;
use canton_model::Outcome;
use indexmap::IndexMap;
use std::alloc::AllocError;

/// The decision time and the outcome of the request at a place, and None where none is tracked there.
pub fn tracked(pairs: &IndexMap<u64, Tracked>, place: u64) -> Option<Tracked>
    ensures { result ≡ tracked_at pairs.now.entries place }
{
    pairs.get(&place).copied()
}

/// Gives the request at a place this outcome. `decision` is the decision time with which it is tracked, and stays. Takes no memory, since the request
/// is there.
pub fn settle_pair(pairs: &mut IndexMap<u64, Tracked>, place: u64, decision: u64, outcome: Outcome)
    requires { option_map (λ t. t.decision) (tracked_at pairs.old.entries place) ≡ Some decision }
    ensures { pairs.new.entries ≡ settled place outcome pairs.old.entries }
{
    let _ = pairs.insert(place, Tracked { decision, outcome }).unwrap();
}

/// Puts one more request behind the others; none is tracked at its place yet. Room was made for it, so it takes no memory.
pub fn push_pair(pairs: &mut IndexMap<u64, Tracked>, place: u64, tracked: Tracked)
    requires room { 0 < spare pairs.old }
    requires absent { tracked_at pairs.old.entries place ≡ None }
    ensures { pairs.new.entries ≡ pairs.old.entries ++ (place, tracked) ∷ [] }
{
    let _ = pairs.insert(place, tracked).unwrap();
}
