//! What a participant hosts and has vetted.
ghost use Rattle.std.specs.Prelude.{◌≡◌, IfOk, slice_get};
ghost use Rattle.std.specs.List.{list_any};
ghost use Rattle.ledger_terms.specs.Parties.{has_party};
ghost use Rattle.ledger_terms.specs.Vetting.{vets};
ghost use Rattle.canton_model.specs.Inbox.{is_stakeholder_hosted};
ghost use Rattle.confirm_reply.specs.LocalReading.{local_reading};

use crate::opened_input::OpenedInput;
use crate::setup::Setup;
use lang_eval::{EvalFault, has_kinds, parties_of_contract};
use ledger_terms::{Instance, Name, ParticipantId};
use std::alloc::{AllocError, Global};

fn lists_name(names: &[Name], name: Name) -> bool
    ensures { result ≡ has_party names.now name }
{
    names.iter().any(|other| *other == name)
}

/// Whether the participant that checks has vetted the package of this name.
pub(crate) fn has_vetted(input: &OpenedInput<'_>, required: Name) -> bool
    ensures { result ≡ vets (slice_get input.now.setup.now.topology.hosts input.now.me) required }
{
    match input.setup.topology.host(input.me) {
        Some(host) => lists_name(host.vetted.as_slice(), required),
        None => false,
    }
}

/// Whether participant `me` hosts a stakeholder of the contract with this instance, to confirm for it or only to observe. Where the fields haven't the
/// declared kinds, or signatories or observers have no value, nobody is a stakeholder.
#[tactic(auto, using(crate::proofs::Stakeholders::any_of_both))]
pub fn has_hosted_stakeholder(
    alloc: Global,
    setup: &Setup,
    me: ParticipantId,
    instance: &Instance,
) -> Result<bool, AllocError>
    ensures { IfOk result (λ b. b ≡ is_stakeholder_hosted (local_reading setup.now.topology setup.now.checked) me instance.now) }
{
    if !has_kinds(&setup.checked, instance) {
        return Ok(false);
    }
    match parties_of_contract(alloc, &setup.checked, instance) {
        Ok(parties) => Ok(
            setup.topology.hosts_any(me, &parties.signatories)
                || setup.topology.hosts_any(me, &parties.observers),
        ),
        Err(EvalFault::Memory) => Err(AllocError),
        Err(_) => Ok(false),
    }
}
