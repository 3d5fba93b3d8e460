//! How a run ended.
ghost use Rattle.std.specs.Prelude.{◌≡◌, [], None};

use crate::played::RunRecord;
use crate::run_remains::RunRemains;
use canton_model::EntryList;
use ledger_terms::U64List;
use node_core::SubmitResultList;
use script_read::ScriptFault;
use std::alloc::Global;
use std::mem;
use trigger_rules::CausedList;

/// How a run ended: its status, the script's fault at status 3, and, at statuses 0 and 5, where the script was run, the log, the
/// results of the submissions in script order, the length of the log at the end of both parts of each round, and what rules caused. `left` is
/// what nobody asks for any more.
#[derive(Drop)]
pub struct Finish {
    pub status: u8,
    pub fault: Option<ScriptFault>,
    pub log: EntryList,
    pub results: SubmitResultList,
    pub ends: U64List,
    pub caused: CausedList,
    pub left: Option<RunRemains>,
}

impl Finish {
    /// Lets the end go without giving its memory back, for a program that ends. A caller needn't prove how the many types in it are dropped.
    pub fn forget(self) {
        mem::forget(self);
    }
}

/// The end, with this status, of a run that took place: with the run's record, and with its remains, of which nobody asks anything.
pub fn finished(status: u8, run_record: RunRecord, left: RunRemains) -> Finish
    ensures status { result.status ≡ status }
    ensures fault { result.fault ≡ None }
    ensures log { result.log ≡ run_record.log }
    ensures results { result.results ≡ run_record.results }
    ensures ends { result.ends ≡ run_record.ends }
    ensures caused { result.caused ≡ run_record.caused }
{
    Finish {
        status,
        fault: None,
        log: run_record.log,
        results: run_record.results,
        ends: run_record.ends,
        caused: run_record.caused,
        left: Some(left),
    }
}

/// The end, with this status, where nothing was run, and with the script's fault where there is one. Its log and its other lists are empty.
pub fn ended(alloc: Global, status: u8, fault: Option<ScriptFault>) -> Finish
    ensures { (result.status ≡ status) × (result.fault ≡ fault) × (result.log ≡ []) × (result.results ≡ []) × (result.ends ≡ [])
        × (result.caused ≡ []) }
{
    Finish {
        status,
        fault,
        log: EntryList::new(alloc),
        results: SubmitResultList::new(alloc),
        ends: U64List::new(alloc),
        caused: CausedList::new(alloc),
        left: None,
    }
}
