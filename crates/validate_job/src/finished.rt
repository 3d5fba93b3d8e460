//! Checks that are done.
use canton_model::ViewVerdictList;

/// The place of a request with a participant's verdicts on the views that it checked, in their order.
#[derive(Drop)]
pub struct Finished {
    pub place: u64,
    pub verdicts: ViewVerdictList,
}
