//! The scripts whose synchronisers are shared.
ghost use Rattle.std.specs.Prelude.{IfSome};
ghost use Rattle.lang_eval.specs.Named.{AreKnown};
ghost use Rattle.sealed_form.specs.Within.{is_hosted};
ghost use Rattle.prepare_request.specs.Within.{parties_in_what};
ghost use Rattle.script_read.specs.Kept.{IsAccepted};
ghost use Rattle.confirm_reply.specs.declared.setup.Setup.{Setup as SetupValue};
ghost use Rattle.layer_cases.specs.Sharings.{NameHosted};

use confirm_reply::Setup;
use ledger_terms::Submission;
use script_read::{RoundList, Script};

/// What participants are set up with, and the rounds.
#[tactic(auto, using(crate::proofs::Hosted::names_hosted))]
pub(crate) fn parts_of(script: Script) -> (Setup, RoundList)
    requires { IsAccepted script }
    ensures { NameHosted result.0 result.1 }
{
    let Script {
        topology,
        checked,
        rounds,
        ..
    } = script;
    (Setup { topology, checked }, rounds)
}

/// The first submission of the round with this number. None: there is no such round, or it has none.
pub(crate) fn first_of(rounds: &RoundList, round: usize) -> Option<&Submission>
    ensures { IfSome result (λ what. (setup : SetupValue) → NameHosted setup rounds.now
        → AreKnown (is_hosted setup.topology) (parties_in_what what.now.what)) }
{
    let round = rounds.get(round)?;
    round.submits.get(0)
}
