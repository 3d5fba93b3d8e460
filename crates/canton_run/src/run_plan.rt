//! What a run is of.
use confirm_reply::Setup;
use script_read::RoundList;

/// What a run is of: a script's participants and packages, its rounds, and how many places of the log its requests may need in all.
#[derive(Drop)]
pub struct RunPlan<'r> {
    pub setup: &'r Setup,
    pub rounds: &'r RoundList,
    pub capacity: u64,
}
