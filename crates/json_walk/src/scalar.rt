//! The smallest readers: a name, an integer in a range, a truth value. Where memory is wanting, also for the place in a fault, the fault is Memory.
ghost use Rattle.std.specs.Prelude.{◌≡◌, ◌≢◌, ◌≤◌, MatchResult, OnOk};
ghost use Rattle.ledger_terms.specs.Answers.{Follows};
ghost use Rattle.serde_json.specs.View.{view};
ghost use Rattle.json_walk.specs.Walk.{name_of, integer_of, truth_of, within_limit};

use crate::limit::Limit;
use crate::place::Place;
use crate::walk_fault::WalkFault;
use ledger_terms::Name;
use serde_json::Value;

/// Err with the fault Shape at this place, as a result of any type: readers return it where a value has another form than they want.
pub fn shape<T>(at: &Place) -> Result<T, WalkFault>
    ensures { MatchResult result (λ _. ⊥) (λ e. e ≢ WalkFault.Memory → e ≡ WalkFault.Shape at.now) }
{
    Err(WalkFault::Shape {
        path: at.pointer()?,
    })
}

/// Ok where `found`, a count, a length or a depth, is within the limit, and else the fault Limit with that number; `at` is the place of what is
/// counted.
#[tactic(auto, unfolding(crate::specs::Walk::within_limit))]
pub fn check_limit(at: &Place, limit: Limit, found: u64) -> Result<(), WalkFault>
    ensures exact { Follows WalkFault.Memory result (within_limit at.now limit found) }
    ensures least { OnOk result (limit.least ≤ found) }
    ensures most { OnOk result (found ≤ limit.most) }
{
    if found < limit.least || limit.most < found {
        return Err(WalkFault::Limit {
            path: at.pointer()?,
            which: limit.number,
            found,
        });
    }
    Ok(())
}

/// The name that the value at the place `at` spells: 1 to 32 bytes, a letter first, then letters, digits, `_` or `-`. Shape where it is no text, or
/// another one.
#[tactic(auto, unfolding(crate::specs::Walk::name_of))]
pub fn read_name(value: &Value, at: &Place) -> Result<Name, WalkFault>
    ensures { Follows WalkFault.Memory result (name_of at.now (view value.now)) }
{
    let Some(text) = value.as_str() else {
        return shape(at);
    };
    let Some(name) = Name::read(text) else {
        return shape(at);
    };
    Ok(name)
}

/// The whole number that the value at the place `at` spells. It is Shape where the value is no number, NotInteger where that is not whole or has no
/// room in 64 bits with a sign, and Limit where it is outside the limit, as a negative one always is.
#[tactic(auto, unfolding(crate::specs::Walk::integer_of))]
pub fn read_integer(value: &Value, at: &Place, limit: Limit) -> Result<u64, WalkFault>
    ensures { Follows WalkFault.Memory result (integer_of at.now limit (view value.now)) }
{
    let Some(number) = value.as_number() else {
        return shape(at);
    };
    let Some(signed) = number.as_i64() else {
        return Err(WalkFault::NotInteger {
            path: at.pointer()?,
        });
    };
    let found = u64::try_from(signed).unwrap_or(0);
    if signed < 0 || found < limit.least || limit.most < found {
        return Err(WalkFault::Limit {
            path: at.pointer()?,
            which: limit.number,
            found,
        });
    }
    Ok(found)
}

/// The truth value that the value at the place `at` is; Shape where it is neither true nor false.
#[tactic(auto, unfolding(crate::specs::Walk::truth_of))]
pub fn read_truth(value: &Value, at: &Place) -> Result<bool, WalkFault>
    ensures { Follows WalkFault.Memory result (truth_of at.now (view value.now)) }
{
    let Some(truth) = value.as_bool() else {
        return shape(at);
    };
    Ok(truth)
}
