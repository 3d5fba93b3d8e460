//! The times of a script. `alloc` gives the memory for the place in a fault; where it is wanting, the fault is Memory.
ghost use Rattle.std.specs.Prelude.{◌≡◌};
ghost use Rattle.serde_json.specs.View.{view};
ghost use Rattle.ledger_terms.specs.Answers.{Follows};
ghost use Rattle.script_read.specs.Hosts.{wait_in, response_in, reaction_in, skew_in, params_of};

use json_walk::{Place, TIMEOUT, WalkFault, read_integer};
use ledger_terms::Params;
use serde_json::Value;
use std::alloc::Global;

/// The times of a script that doesn't give them, in microseconds.
const RESPONSE_TIMEOUT: u64 = 30_000_000;

const REACTION_TIMEOUT: u64 = 30_000_000;

const SKEW: u64 = 60_000_000;

#[tactic(auto, unfolding(crate::specs::Hosts::wait_in))]
fn wait_in(alloc: Global, value: &Value, name: &str, default: u64) -> Result<u64, WalkFault>
    ensures { Follows WalkFault.Memory result (wait_in name.now default (view value.now)) }
{
    match value.get(name) {
        Some(found) => {
            let root = Place::root(alloc);
            read_integer(found, &root.member(name), TIMEOUT)
        }
        None => Ok(default),
    }
}

#[tactic(auto, unfolding(crate::specs::Hosts::response_in))]
fn response_in(alloc: Global, value: &Value) -> Result<u64, WalkFault>
    ensures { Follows WalkFault.Memory result (response_in (view value.now)) }
{
    wait_in(alloc, value, "response_timeout", RESPONSE_TIMEOUT)
}

#[tactic(auto, unfolding(crate::specs::Hosts::reaction_in))]
fn reaction_in(alloc: Global, value: &Value) -> Result<u64, WalkFault>
    ensures { Follows WalkFault.Memory result (reaction_in (view value.now)) }
{
    wait_in(alloc, value, "reaction_timeout", REACTION_TIMEOUT)
}

#[tactic(auto, unfolding(crate::specs::Hosts::skew_in))]
fn skew_in(alloc: Global, value: &Value) -> Result<u64, WalkFault>
    ensures { Follows WalkFault.Memory result (skew_in (view value.now)) }
{
    wait_in(alloc, value, "skew", SKEW)
}

/// The three times of the script that is `value`, in microseconds, a time that is absent with its default (30 seconds for responses and for verdicts,
/// 60 of skew): Shape where one is no number, NotInteger where it isn't whole, Limit where it is outside the limit.
#[tactic(auto, unfolding(crate::specs::Hosts::params_of))]
pub fn read_params(alloc: Global, value: &Value) -> Result<Params, WalkFault>
    ensures { Follows WalkFault.Memory result (params_of (view value.now)) }
{
    let response_timeout = response_in(alloc, value)?;
    let reaction_timeout = reaction_in(alloc, value)?;
    let skew = skew_in(alloc, value)?;
    Ok(Params {
        response_timeout,
        reaction_timeout,
        skew,
    })
}
