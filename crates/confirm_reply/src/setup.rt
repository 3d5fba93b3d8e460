//! What a participant is set up with.
use lang_eval::Checked;
use ledger_terms::Topology;

/// The topology, with the participants and the times, and the packages.
#[derive(Drop)]
pub struct Setup {
    pub topology: Topology,
    pub checked: Checked,
}
