//! The audit of a dump.
ghost use Rattle.std.specs.Prelude.{◌≡◌, ◌↔◌, ◌<◌, ◌≤◌, ◌^◌, length, map, IfOk};
ghost use Rattle.framed_form.specs.FramedReading.{framed_reading};
ghost use Rattle.log_audit.specs.Audits.{IsAudit, IsYes, SpellsProperLog, audit_of};
ghost use Rattle.log_audit.specs.Scripts.{most_of, script_of, standard_of};
ghost use Rattle.log_judge.specs.Judgements.{IsJudgement};
ghost use Rattle.log_judge.specs.Known.{standard_for};
ghost use Rattle.log_judge.specs.RuleUses.{rule_of};
ghost use Rattle.script_read.specs.Kept.{IsAccepted};

use crate::answer::Audit;
use crate::dump::{Dump, read_dump};
use crate::inboxes::Inboxes;
use crate::reading::new_inboxes;
use canton_model::EntryList;
use confirm_reply::Setup;
use log_judge::{Auditor, Judgement, judge_log};
use script_read::Script;
use std::alloc::{AllocError, Global};
use trigger_rules::RuleList;
use wire_form::ReaderFault;

// Judges a log by participants that are made for it.
fn judge_for(
    alloc: Global,
    setup: &Setup,
    rules: &RuleList,
    log: EntryList,
) -> Result<Judgement, AllocError>
    requires hosts { length setup.now.topology.hosts ≤ 256 }
    requires few { length log < 2 ^ 63 }
    ensures { IfOk result (IsJudgement
        (standard_for (framed_reading setup.now.topology setup.now.checked) setup.now.topology.params (map rule_of rules.now)) log) }
{
    let inboxes = new_inboxes(alloc, setup)?;
    let participants = Inboxes { setup, inboxes };
    let mut auditor = Auditor::new(alloc, &setup.topology, rules, participants)?;
    judge_log(&mut auditor, alloc, log)
}

fn judge_dump(alloc: Global, dump: Dump) -> Result<Judgement, AllocError>
    requires accepted { IsAccepted dump.script }
    requires few { length dump.log < 2 ^ 63 }
    ensures { IfOk result (IsJudgement (standard_of dump.script) dump.log) }
{
    let Dump { script, log } = dump;
    let Script {
        topology,
        checked,
        triggers,
        ..
    } = script;
    let setup = Setup { topology, checked };
    judge_for(alloc, &setup, &triggers, log)
}

fn told(judgement: Judgement) -> Audit
    ensures { result ≡ audit_of judgement }
{
    match judgement {
        Judgement::Yes { entries, approved } => Audit::Yes { entries, approved },
        Judgement::No { place, why } => Audit::No { place, why },
    }
}

fn audited(alloc: Global, bytes: &[u8]) -> Result<Audit, AllocError>
    ensures { IfOk result (IsAudit script_of most_of standard_of bytes.now) }
{
    match read_dump(alloc, bytes) {
        Ok(dump) => Ok(told(judge_dump(alloc, dump)?)),
        Err(ReaderFault::Left(left)) => Ok(Audit::Bad {
            at: bytes.len().saturating_sub(left) as u64,
        }),
        Err(ReaderFault::Memory) => Err(AllocError),
    }
}

/// Audits a dump: whether its log is one that a synchroniser over its script's participants and packages may have written, whoever wrote it. The
/// audit makes its own participants and mediator of the script, and trusts nobody else's. It vouches for no submitter: whether anybody asked for what
/// a request says isn't in a log. An error is want of memory alone.
pub fn audit(alloc: Global, bytes: &[u8]) -> Result<Audit, AllocError>
    ensures exact { IfOk result (IsAudit script_of most_of standard_of bytes.now) }
    ensures yes { IfOk result (λ a. IsYes a ↔ SpellsProperLog script_of most_of standard_of bytes.now) }
{
    audited(alloc, bytes)
}
