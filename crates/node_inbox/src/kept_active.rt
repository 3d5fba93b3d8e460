//! The active contracts at an earlier place.
ghost use Rattle.std.specs.Prelude.{◌≡◌, option_copied};
ghost use Rattle.node_inbox.specs.KeptActive.{IsKeptIf, are_at_most, not_behind};

use ledger_terms::ActiveRowList;

// How many entries are gone through sooner than one contract is copied.
const FAR: u64 = 4;

/// The active contracts with a hosted stakeholder at a place, in order of creation.
#[derive(Drop)]
pub struct KeptActive {
    pub place: u64,
    pub rows: ActiveRowList,
}

impl KeptActive {
    /// Whether a place comes so long after that of these contracts that to go through the entries between takes longer than to copy the contracts. An
    /// inbox that has decided all up to there then keeps the active contracts at that place instead of these.
    pub fn is_far(&self, place: u64) -> bool {
        is_far(self.place, self.rows.len(), place)
    }
}

/// Whether `place` comes so long after the place `earlier` that to go through the entries between takes longer than to copy `count` contracts. It is
/// false where `place` comes before.
pub fn is_far(earlier: u64, count: usize, place: u64) -> bool {
    place.saturating_sub(earlier) / FAR > count as u64
}

/// Forgets the kept active contracts unless `kept` is true. Takes no memory.
pub fn keep_active_if(active: &mut Option<KeptActive>, kept: bool)
    ensures { IsKeptIf kept active.old active.new }
{
    if !kept {
        *active = None;
    }
}

/// Whether no active contracts are kept, or those of a place that is at most this one.
pub fn are_at_most(active: &Option<KeptActive>, place: u64) -> bool
    ensures { result ≡ are_at_most active.now place }
{
    match active {
        Some(active) => active.place <= place,
        None => true,
    }
}

/// The kept active contracts, and none where there are none or their place is behind `end`.
pub fn not_behind(active: &Option<KeptActive>, end: u64) -> Option<&KeptActive>
    ensures { option_copied result ≡ not_behind active.now end }
{
    match active {
        Some(active) => {
            if active.place <= end {
                Some(active)
            } else {
                None
            }
        }
        None => None,
    }
}
