//! Generated scripts. `alloc` gives the memory, and the only error is want of it.
ghost use Rattle.std.specs.Prelude.{◌≡◌, IfOk};
ghost use Rattle.load_gen.specs.Generated.{round_of, generated};

use crate::packages::generated_packages;
use crate::submissions::{generated_debts, generated_transfers};
use crate::topology::generated_topology;
use ledger_terms::{ParticipantIdList, RawRequestList, SubmissionList};
use script_read::{Round, RoundList, Script};
use std::alloc::{AllocError, Global};
use trigger_rules::RuleList;

/// A round in which nobody restarts or is paused, no verdict is held back, the time isn't moved, and no raw request is handed in.
fn round_of(alloc: Global, submits: SubmissionList) -> Round
    ensures { result ≡ round_of submits }
{
    Round {
        advance: 0,
        paused: ParticipantIdList::new(alloc),
        hold_verdicts: false,
        submits,
        raws: RawRequestList::new(alloc),
        restarts: ParticipantIdList::new(alloc),
    }
}

/// The generated script of `count` debts, which one round creates and the next one transfers; their amounts come from `seed`. It has no rules.
pub fn generate(alloc: Global, count: u32, seed: u64) -> Result<Script, AllocError>
    ensures { IfOk result (λ script. script ≡ generated seed count) }
{
    let topology = generated_topology(alloc)?;
    let checked = generated_packages(alloc)?;
    let mut rounds = RoundList::new(alloc);
    rounds.push(round_of(alloc, generated_debts(alloc, count, seed)?))?;
    rounds.push(round_of(alloc, generated_transfers(alloc, count)?))?;
    Ok(Script {
        topology,
        checked,
        triggers: RuleList::new(alloc),
        rounds,
    })
}
