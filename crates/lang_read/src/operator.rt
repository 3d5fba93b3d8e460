//! Operators of expressions. Where memory is wanting, also for the place in a fault, the fault is Memory.
ghost use Rattle.std.specs.Prelude.{◌≡◌};
ghost use Rattle.serde_json.specs.View.{view};
ghost use Rattle.ledger_terms.specs.Answers.{Follows};
ghost use Rattle.lang_read.specs.Operators.{operator_named, operator_of, takes};

use crate::binary::{Binary, binary_named};
use json_walk::{Place, WalkFault, shape};
use ledger_terms::limits::MOST_SET_ITEMS;
use serde_json::Value;

/// What a list that is an expression begins with. `Var` stands before the text of a bound name, the others before
/// expressions.
#[derive(Clone, Copy)]
pub enum Operator {
    Var,
    Two(Binary),
    Negate,
    Cond,
    SetOf,
}

#[tactic(auto, unfolding(crate::specs::Operators::operator_named))]
fn operator_named(word: &str) -> Option<Operator>
    ensures { result ≡ operator_named word.now }
{
    match word {
        "var" => Some(Operator::Var),
        "not" => Some(Operator::Negate),
        "if" => Some(Operator::Cond),
        "set" => Some(Operator::SetOf),
        _ => match binary_named(word) {
            Some(binary) => Some(Operator::Two(binary)),
            None => None,
        },
    }
}

impl Operator {
    /// Whether a list that is an expression may have so many items behind the operator: just its number of operands, or for `set` any number up to 16.
    pub fn takes(self, operands: usize) -> bool
        ensures { result ≡ takes self operands }
    {
        match self {
            Operator::Var => operands == 1,
            Operator::Two(_) => operands == 2,
            Operator::Negate => operands == 1,
            Operator::Cond => operands == 3,
            Operator::SetOf => operands <= MOST_SET_ITEMS,
        }
    }
}

/// The operator that `value`, the first item of the list at the place `at`, names, where `operands` is the number of items behind it; Shape where
/// it is no text, names no operator, or that operator has another number of operands.
#[tactic(auto, unfolding(crate::specs::Operators::operator_of))]
pub fn read_operator(value: &Value, at: &Place, operands: usize) -> Result<Operator, WalkFault>
    ensures { Follows WalkFault.Memory result (operator_of at.now operands (view value.now)) }
{
    let Some(word) = value.as_str() else {
        return shape(at);
    };
    let Some(operator) = operator_named(word) else {
        return shape(at);
    };
    if !operator.takes(operands) {
        return shape(at);
    }
    Ok(operator)
}
