//! Scripts.
use crate::round::RoundList;
use lang_eval::Checked;
use ledger_terms::Topology;
use trigger_rules::RuleList;

/// A script that was read: who takes part, the packages with what is built in, the rules of participants, and the rounds in order.
#[derive(Drop)]
pub struct Script {
    pub topology: Topology,
    pub checked: Checked,
    pub triggers: RuleList,
    pub rounds: RoundList,
}
