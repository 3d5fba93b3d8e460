//! The submissions of a run.
use node_core::SubmitResultList;
use script_read::RoundList;

/// The submissions of a run's rounds, and the results in script order: behind those of a round stand those of what rules caused in it.
#[derive(Drop)]
pub struct Submissions<'a> {
    pub rounds: &'a RoundList,
    pub results: &'a SubmitResultList,
}
