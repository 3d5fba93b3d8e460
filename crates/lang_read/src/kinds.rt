//! The kinds of values. Where memory is wanting, also for the place in a fault, the fault is Memory.
ghost use Rattle.std.specs.Prelude.{◌≡◌};
ghost use Rattle.serde_json.specs.View.{view};
ghost use Rattle.ledger_terms.specs.Answers.{Follows};
ghost use Rattle.lang_read.specs.Kinds.{kind_named, kind_of};

use json_walk::{Place, WalkFault, shape};
use ledger_terms::Kind;
use serde_json::Value;

#[tactic(auto, unfolding(crate::specs::Kinds::kind_named))]
fn kind_named(word: &str) -> Option<Kind>
    ensures { result ≡ kind_named word.now }
{
    match word {
        "Unit" => Some(Kind::Unit),
        "Int" => Some(Kind::Int),
        "Bool" => Some(Kind::Bool),
        "Text" => Some(Kind::Text),
        "Party" => Some(Kind::Party),
        "Contract" => Some(Kind::Contract),
        "Parties" => Some(Kind::Parties),
        _ => None,
    }
}

/// The kind that the value at the place `at` names, as `Int`; Shape where it is no text or names none.
#[tactic(auto, unfolding(crate::specs::Kinds::kind_of))]
pub fn read_kind(value: &Value, at: &Place) -> Result<Kind, WalkFault>
    ensures { Follows WalkFault.Memory result (kind_of at.now (view value.now)) }
{
    let Some(word) = value.as_str() else {
        return shape(at);
    };
    let Some(kind) = kind_named(word) else {
        return shape(at);
    };
    Ok(kind)
}
