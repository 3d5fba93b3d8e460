//! What a submission wants, and its request.
ghost use Rattle.std.specs.Prelude.{◌≡◌, ◌≢◌, ◌<◌, List, true, None, Some, length, IfOk, IfErr, MatchResult};
ghost use Rattle.ledger_terms.specs.Answers.{Follows};
ghost use Rattle.ledger_terms.specs.Topologies.{IsValid};
ghost use Rattle.canton_model.specs.Inbox.{Item};
ghost use Rattle.sealed_form.specs.SealedForm.{IsSealedForm};
ghost use Rattle.framed_form.specs.Framed.{is_framed};
ghost use Rattle.interpret.specs.Filled.{filling};
ghost use Rattle.interpret.specs.Plain.{IsPlain};
ghost use Rattle.prepare_request.specs.Causes.{HoldsNoMemory};
ghost use Rattle.prepare_request.specs.Machine.{Offered, prepare_over, why_over};
ghost use Rattle.prepare_request.specs.Opens.{OpensByRules};
ghost use Rattle.prepare_request.specs.Prepared.{actions_of, first_unconfirmed, name_at, prepared, seed_for, time_or, views_for, wanted_tx};
ghost use Rattle.prepare_request.specs.Within.{IsWithin};

use crate::submit_fault::SubmitFault;
use canton_model::Request;
use confirm_reply::Setup;
use hash_id::root_seed;
use interpret::{CommandFault, fill, interpret};
use lang_eval::{Checked, NativeList};
use ledger_terms::{
    ActionNodeList, DraftList, Hash, KnownContracts, Name, ParticipantId, PartySet, Path,
    Submission, Topology, Tx, What,
};
use proto_model::seal;
use sealed_form::is_sealable;
use std::alloc::Global;
use view_split::{SplitFault, Views, split};

/// The first of the parties for which the participant doesn't confirm.
fn first_unconfirmed(topology: &Topology, me: ParticipantId, act_as: &PartySet) -> Option<Name>
    ensures { result ≡ first_unconfirmed topology.now me act_as.now }
{
    for party in act_as.as_slice() {
        if !topology.confirms(me, *party) {
            return Some(*party);
        }
    }
    None
}

fn time_or(time: Option<u64>, now: u64) -> u64
    ensures { result ≡ time_or time now }
{
    match time {
        Some(time) => time,
        None => now,
    }
}

/// The participant's name.
fn name_at(topology: &Topology, me: ParticipantId) -> Name
    requires { me < length topology.now.hosts }
    ensures { result ≡ name_at topology.now me }
{
    topology.hosts.as_slice()[me.0 as usize].name
}

/// The seed of the transaction that the submission asks for.
#[tactic(auto, unfolding(interpret::specs::Ids::root_seed))]
fn seed_for(topology: &Topology, me: ParticipantId, what: &Submission) -> Hash
    requires { me < length topology.now.hosts }
    ensures { result ≡ seed_for topology.now me what.now }
{
    match &what.what {
        What::Prepared {
            seed_of: Some(other),
            ..
        } => root_seed(other.participant, other.command),
        _ => root_seed(name_at(topology, me), what.command),
    }
}

/// The actions of a prepared tree.
fn fill_drafts<K: KnownContracts>(
    alloc: Global,
    known: &K,
    seed: &Hash,
    drafts: &DraftList,
) -> Result<ActionNodeList, CommandFault>
    ensures exact { Follows CommandFault.Memory result (filling (K.rows known.now) seed.now drafts.now) }
    ensures plain { IfErr result (λ fault. fault ≢ CommandFault.Memory → IsPlain fault) }
{
    fill(alloc, known, seed, drafts)
}

/// The root actions that the submission wants.
fn actions_of<K: KnownContracts>(
    setup: &Setup,
    natives: &NativeList,
    known: &K,
    seed: &Hash,
    what: &Submission,
) -> Result<ActionNodeList, CommandFault>
    ensures exact { Follows CommandFault.Memory result (actions_of setup.now.checked (K.rows known.now) seed.now what.now.act_as what.now.what) }
    ensures plain { IfErr result (λ fault. fault ≢ CommandFault.Memory → IsPlain fault) }
{
    match &what.what {
        What::Commands(commands) => interpret(
            &setup.checked,
            natives,
            known,
            seed,
            &what.act_as,
            commands,
        ),
        What::Prepared { roots, .. } => fill_drafts(*roots.allocator(), known, seed, roots),
    }
}

/// The transaction that the submission wants.
fn wanted_tx<K: KnownContracts>(
    setup: &Setup,
    natives: &NativeList,
    me: ParticipantId,
    known: &K,
    what: &Submission,
    now: u64,
) -> Result<Tx, SubmitFault>
    requires { me < length setup.now.topology.hosts }
    ensures exact { Follows SubmitFault.Memory result (wanted_tx setup.now.topology setup.now.checked me (K.rows known.now) what.now now) }
    ensures plain { IfErr result HoldsNoMemory }
{
    let seed = seed_for(&setup.topology, me, what);
    let roots = actions_of(setup, natives, known, &seed, what)?;
    Ok(Tx {
        act_as: what.act_as.clone()?,
        ledger_time: time_or(what.ledger_time, now),
        seed,
        roots,
    })
}

/// The views of the transaction, of which there is at least one.
#[tactic(auto, using(crate::proofs::Roots::rootless, crate::proofs::Roots::rooted))]
fn views_for(alloc: Global, checked: &Checked, tx: &Tx) -> Result<Views, SplitFault>
    ensures { Follows SplitFault.Memory result (views_for checked.now tx.now) }
{
    if tx.roots.as_slice().is_empty() {
        let path = Path::new(alloc);
        return Err(SplitFault::NoRoles { path });
    }
    split(alloc, checked, tx)
}

/// The transaction that a submission of the participant `me` asks for, as a request in the sealed form: its commands are interpreted, or its prepared
/// tree is filled, over the contracts that are known. An Err is the first fault. `now` is the ledger time of a submission that has none. A choice
/// that `natives` has is asked of them in place of the contract language. Memory is taken from the submission's allocator.
pub fn prepare<K: KnownContracts>(
    setup: &Setup,
    natives: &NativeList,
    me: ParticipantId,
    known: &K,
    what: &Submission,
    now: u64,
) -> Result<Request, SubmitFault>
    requires valid { IsValid setup.now.topology }
    requires within { IsWithin setup.now.topology setup.now.checked me (K.rows known.now) what.now }
    ensures exact { Follows SubmitFault.Memory result (prepared setup.now.topology setup.now.checked me (K.rows known.now) what.now now) }
    ensures sealed { IfOk result (λ request. IsSealedForm setup.now.topology setup.now.checked request) }
    ensures opens { IfOk result (λ request. OpensByRules setup.now.topology setup.now.checked request) }
    ensures framed { IfOk result (λ request. is_framed setup.now.topology request ≡ true) }
    ensures sender { IfOk result (λ request. request.sender ≡ me) }
    ensures command { IfOk result (λ request. request.command ≡ what.now.command) }
    ensures machine { (offered : Offered) (items : List Item) → what.now.participant ≡ me → offered me items ≡ K.rows known.now
        → MatchResult result (λ request. prepare_over setup.now.topology setup.now.checked offered what.now items now ≡ Some request)
        (λ fault. fault ≢ SubmitFault.Memory → (prepare_over setup.now.topology setup.now.checked offered what.now items now ≡ None)
        × (why_over setup.now.topology setup.now.checked offered what.now items now ≡ fault)) }
    ensures plain { IfErr result HoldsNoMemory }
{
    if let Some(party) = first_unconfirmed(&setup.topology, me, &what.act_as) {
        return Err(SubmitFault::NotHosted { party });
    }
    let tx = wanted_tx(setup, natives, me, known, what, now)?;
    let alloc = *tx.roots.allocator();
    let views = views_for(alloc, &setup.checked, &tx)?;
    // the prover learns from this call what the types keep of the views, and that the formats have room
    let _sealable = is_sealable(&views);
    Ok(seal(alloc, &setup.topology, me, what.command, &views)?)
}
