//! Sharings, one after another.
ghost use Rattle.std.specs.Prelude.{◌≡◌, ℕ, IfOk, IfSome};
ghost use Rattle.lang_eval.specs.Named.{AreKnown};
ghost use Rattle.sealed_form.specs.Within.{is_hosted};
ghost use Rattle.prepare_request.specs.Within.{parties_in_what};
ghost use Rattle.sync_shared.specs.SetUp.{IsSetUp};
ghost use Rattle.layer_cases.specs.Sharings.{CanBeShared, NameHosted};

use crate::answer::Answer;
use crate::sharing::client::{ask_by, submit_and_ask};
use crate::sharing::kept::{Kept, begun, keep};
use crate::sharing::script::first_of;
use crate::world::put_report;
use confirm_reply::Setup;
use ledger_terms::Submission;
use log_row::LogRow;
use node_core::NodeViewList;
use script_read::RoundList;
use shared_world::{LEDGER_PARTS, Synchroniser};
use std::alloc::{AllocError, AllocGlobal};
use std::marker::Brand;
use std::random::RandomSource;
use std::sync::Wait;
use std::sync::ledger::Blank;
use sync_shared::Session;

/// Puts what is told of the first submissions of two rounds at the end, each in a sharing of its own, and the log that they leave.
pub(crate) fn put_sharings<R: Wait + RandomSource + AllocGlobal>(
    rt: &R,
    setup: &Setup,
    rounds: &RoundList,
    out: &mut Answer,
) -> Result<(), AllocError>
    requires { NameHosted setup.now rounds.now }
{
    let (Some(before), Some(what)) = (first_of(rounds, 0), first_of(rounds, 1)) else {
        out.line(&["no submissions"]);
        return Ok(());
    };
    let mut row = LogRow::new(rt.alloc())?;
    let first = begun(rt.alloc(), setup, &mut row)?;
    let blank = Blank::new(LEDGER_PARTS);
    let second = share::<Brand, _>(rt, setup, first, blank, before, out)?;
    let blank = Blank::new(LEDGER_PARTS);
    let mut last = share::<Brand, _>(rt, setup, second, blank, what, out)?;
    let nobody = NodeViewList::new(rt.alloc());
    put_report(
        rt.alloc(),
        &setup.topology,
        &mut last.world.sequencer,
        &nobody,
        out,
    )
}

// Shares a synchroniser once. A new client asks by the ticket of the last client, where there is one, and another one submits; then the synchroniser
// is taken back.
fn share<'r, S: Session, R: Wait + RandomSource + AllocGlobal>(
    rt: &R,
    setup: &Setup,
    last: Kept<'r>,
    blank: Blank,
    what: &Submission,
    out: &mut Answer,
) -> Result<Kept<'r>, AllocError>
    requires topology { setup.now.topology ≡ S.topology }
    requires set_up { IsSetUp S.topology S.packages S.machine S.why }
    requires bases { (p : ℕ) → S.bases p ≡ 0 }
    requires world { CanBeShared S.topology S.packages S.machine last.world.value }
    requires log { ((last.world.value.sequencer).row ≡ S.history) × ((last.world.value.sequencer).list ≡ S.start) }
    requires ticket { IfSome last.ticket (λ t. t.row ≡ S.history) }
    requires ledger { (blank.name ≡ S.name) × (blank.parts ≡ S.parts) × (S.parts ≡ 1025) }
    requires named { AreKnown (is_hosted S.topology) (parties_in_what what.now.what) }
    ensures world { IfOk result (λ k. CanBeShared S.topology S.packages S.machine k.world.value) }
    ensures row { IfOk result (λ k. (k.world.value.sequencer).row ≡ S.history) }
    ensures ticket { IfOk result (λ k. IfSome k.ticket (λ t. t.row ≡ S.history)) }
{
    let Kept { world, ticket } = last;
    let mut shared = Synchroniser::<'r, S>::of(rt.alloc(), Box::into_inner(world), blank);
    ask_by(rt, setup, &mut shared, ticket, out);
    let left = submit_and_ask(rt, setup, &mut shared, what, out);
    let world = shared.into_parts();
    let next = keep(rt.alloc(), world, left, out)?;
    Ok(next)
}
