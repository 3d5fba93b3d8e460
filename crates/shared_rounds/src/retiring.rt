//! How clients go out of use.
ghost use Rattle.std.specs.Prelude.{◌≡◌, ◌+◌, All, IfOk, OnOk, map, sum_by, vec_len};
ghost use Rattle.sync_shared.specs.Slips.{read_to, InRow};
ghost use Rattle.shared_rounds.specs.Retired.{list_seen, results_left, list_left, results_brought, tickets_brought, IsLeftIn};
ghost use mathlib.Core.List.{IsPrefix};

use crate::retired::Retired;
use client_threads::{ResultQueue, Served};
use log_row::Slip;
use seq_log::Sequencer;
use shared_world::Synchroniser;
use std::alloc::{AllocError, Global};
use sync_shared::Session;

// Retires one client.
fn retire<'r, S: Session>(shared: &mut Synchroniser<'r, S>, served: Served<'r, S>) -> Retired<'r>
    requires ledger { S.parts ≡ 1025 }
    ensures out { shared.new.out + 1 ≡ shared.old.out }
    ensures counted { shared.new.counted ≡ shared.old.counted + served.entry.client.tickets }
    ensures round { shared.new.round ≡ shared.old.round }
    ensures results { result.results ≡ served.entry.results }
    ensures last { InRow S.history result.last × (read_to result.last ≡ (served.entry.client).list) }
{
    let Served { client, results } = served;
    Retired {
        last: shared.retire(client),
        results,
    }
}

/// Retires the clients, in their order: the synchroniser takes their shares back. The result has for each, in the same order, the slip of the last
/// entry that it had seen and the results of its submissions. An Err is want of memory for the list.
pub fn retire_each<'r, S: Session>(
    alloc: Global,
    shared: &mut Synchroniser<'r, S>,
    all: Vec<Served<'r, S>>,
) -> Result<Vec<Retired<'r>>, AllocError>
    requires ledger { S.parts ≡ 1025 }
    ensures out { OnOk result (shared.new.out + vec_len all.entry ≡ shared.old.out) }
    ensures counted { OnOk result (shared.new.counted ≡ shared.old.counted + sum_by tickets_brought all.entry.items) }
    ensures round { OnOk result (shared.new.round ≡ shared.old.round) }
    ensures results { IfOk result (λ retired. map results_left retired.items ≡ map results_brought all.entry.items) }
    ensures lists { IfOk result (λ retired. map list_left retired.items ≡ map list_seen all.entry.items) }
    ensures row { IfOk result (λ retired. All (IsLeftIn S.history) retired.items) }
{
    let mut retired = Vec::new(alloc);
    'all: for served in all {
        retired.push(retire(shared, served))?;
    }
    Ok(retired)
}

// Changes nothing. The prover learns from it that the entries as far as the slip begin the log.
fn reaches<'r>(sequencer: &mut Sequencer<'r>, last: Option<Slip<'r>>)
    requires { InRow sequencer.old.row last }
    ensures same { sequencer.new ≡ sequencer.old }
    ensures begins { IsPrefix (read_to last.entry) sequencer.old.list }
{
    if let Some(mut slip) = last {
        sequencer.reaches(&mut slip);
    }
}

/// The results of each retired client, in the same order; an Err is want of memory for the list. The sequencer stays as it is: the prover learns from
/// it that what each client had seen begins the log.
pub fn results_of_each<'r>(
    alloc: Global,
    sequencer: &mut Sequencer<'r>,
    retired: Vec<Retired<'r>>,
) -> Result<Vec<ResultQueue>, AllocError>
    requires { All (IsLeftIn sequencer.old.row) retired.items }
    ensures same { sequencer.new ≡ sequencer.old }
    ensures results { IfOk result (λ queues. queues.items ≡ map results_left retired.entry.items) }
    ensures begins { OnOk result (All (λ list. IsPrefix list sequencer.old.list) (map list_left retired.entry.items)) }
{
    let mut queues = Vec::new(alloc);
    'retired: for one in retired {
        let Retired { last, results } = one;
        reaches(sequencer, last);
        queues.push(results)?;
    }
    Ok(queues)
}
