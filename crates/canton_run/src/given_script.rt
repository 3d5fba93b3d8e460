//! Scripts with their bytes.
ghost use Rattle.std.specs.Prelude.{◌≡◌};
ghost use Rattle.canton_run.specs.Run.{script_with};

use confirm_reply::Setup;
use ledger_terms::Bytes;
use script_read::{RoundList, Script};
use trigger_rules::RuleList;

/// A script with the bytes that it was read from. A generated one has none.
#[derive(Drop)]
pub struct GivenScript {
    pub script: Script,
    pub bytes: Bytes,
}

/// What a run is made of: a script's participants and packages, its rules and its rounds; and its bytes.
#[derive(Drop)]
pub struct ScriptParts {
    pub setup: Setup,
    pub triggers: RuleList,
    pub rounds: RoundList,
    pub bytes: Bytes,
}

/// A script taken apart into setup, rules and rounds, beside the bytes that it was read from.
pub fn parts_of(given: GivenScript) -> ScriptParts
    ensures script { script_with result.setup result.triggers result.rounds ≡ given.script }
    ensures bytes { result.bytes ≡ given.bytes }
{
    let GivenScript { script, bytes } = given;
    let Script {
        topology,
        checked,
        triggers,
        rounds,
    } = script;
    ScriptParts {
        setup: Setup { topology, checked },
        triggers,
        rounds,
        bytes,
    }
}
