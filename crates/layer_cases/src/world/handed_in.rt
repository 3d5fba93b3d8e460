//! What is handed in in a script's first round.
ghost use Rattle.std.specs.Prelude.{List, All, IfOk};
ghost use Rattle.ledger_terms.specs.declared.host.Host.{Host};
ghost use Rattle.script_read.specs.Kept.{IsRound, IsSubmission};
ghost use Rattle.trigger_rules.specs.declared.rule.Rule.{Rule};

use canton_model::Request;
use fixtures::request_of;
use ledger_terms::{RawRequestList, Submission};
use script_read::{Round, RoundList};
use std::alloc::{AllocError, Global};

/// The submissions and the raw requests of a script's first round that events haven't taken yet.
#[derive(Drop)]
pub(crate) struct HandedIn {
    pub(crate) submits: Vec<Submission>,
    pub(crate) raws: Vec<Request>,
}

/// All submissions and raw requests of the first round; nothing where there is no round.
#[tactic(auto, using(crate::proofs::Fronts::nothing, crate::proofs::Fronts::submissions_hold))]
pub(crate) fn handed_in(alloc: Global, rounds: RoundList) -> Result<HandedIn, AllocError>
    ensures { IfOk result (λ left. (hosts : List Host) (rules : List Rule) → All (IsRound hosts rules) rounds
        → All (IsSubmission hosts rules) left.submits.items) }
{
    let mut rounds = rounds.into_vec();
    if rounds.is_empty() {
        return Ok(HandedIn {
            submits: Vec::new(alloc),
            raws: Vec::new(alloc),
        });
    }
    let Round { submits, raws, .. } = rounds.remove(0);
    Ok(HandedIn {
        submits: submits.into_vec(),
        raws: requests_of(alloc, &raws)?,
    })
}

fn requests_of(alloc: Global, raws: &RawRequestList) -> Result<Vec<Request>, AllocError> {
    let mut requests = Vec::new(alloc);
    for raw in raws.as_slice() {
        requests.push(request_of(alloc, raw)?)?;
    }
    Ok(requests)
}
