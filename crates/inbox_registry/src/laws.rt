//! Laws of what is kept beside an inbox.
ghost use Rattle.inbox_registry.specs.Offered.{OfferedIsActive, OfferedIsNodeActive, OfferedOfGenuineLog};
ghost use Rattle.inbox_registry.specs.Requests.{WithheldIsTracked};

/// Where an inbox has forgotten nothing, is in order and creates no contract twice, what its participant offers to submissions are the model's active
/// contracts, in the model's order: those with a hosted stakeholder in a store written with its approved requests in the order in which verdicts were
/// read.
pub fn offered_is_node_active()
    ensures { OfferedIsNodeActive }
{}

/// What a participant offers to its submissions are the active contracts at its inbox's end also where the inbox, which is in order, begins at a base,
/// and the store with what the start left active, if no contract is created twice, those of the start counted, and none that is gone is created.
pub fn offered_is_active()
    ensures { OfferedIsActive }
{}

/// What a participant offers after any number of entries of a genuine log without collisions are the model's active contracts there, since in such a
/// log no contract is created twice.
pub fn offered_of_genuine_log()
    ensures { OfferedOfGenuineLog }
{}

/// Which places are withheld from a participant can be told by what became of the requests that it tracks and what it learnt of each: those of approved
/// requests of which it sees a view and has no complete envelope.
pub fn withheld_is_tracked()
    ensures { WithheldIsTracked }
{}
