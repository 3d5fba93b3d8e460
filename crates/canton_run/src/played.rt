//! What a run leaves behind.
ghost use Rattle.std.specs.Prelude.{◌≡◌};

use canton_model::EntryList;
use ledger_terms::U64List;
use node_core::SubmitResultList;
use trigger_rules::CausedList;
use world_play::NodeList;

/// The record of a run: the sequencer's log, the results of the submissions in script order, the length of the log at the end of both parts of each
/// round, and what rules caused. The results of what was caused in a round stand behind those of its submissions.
#[derive(Drop)]
pub struct RunRecord {
    pub log: EntryList,
    pub results: SubmitResultList,
    pub ends: U64List,
    pub caused: CausedList,
}

/// The record of a run, and its participants, each of which has read the whole log.
#[derive(Drop)]
pub struct Played<'r> {
    pub record: RunRecord,
    pub nodes: NodeList<'r>,
}

impl Played<'_> {
    /// The log of the run's record alone, for a caller that wants nothing else of the run. All else is dropped, and the caller needn't prove how.
    pub fn into_log(self) -> EntryList
        ensures { result ≡ (self.entry.record).log }
    {
        self.record.log
    }
}
