//! Values as expressions of a package. A party for which nobody of the topology confirms is Unknown. `alloc` gives the memory for what is read; where
//! memory is wanting, also for the place in a fault, the fault is Memory.
ghost use Rattle.std.specs.Prelude.{◌≡◌};
ghost use Rattle.serde_json.specs.Number.{num_of};
ghost use Rattle.serde_json.specs.View.{view, number_view};
ghost use Rattle.ledger_terms.specs.Answers.{Follows};
ghost use Rattle.lang_read.specs.Literals.{is_party_form, is_parties_form, party_value_of, parties_value_of, int_at};
ghost use Rattle.lang_read.specs.Literals.{text_at, parties_at, plain_at, literal_of};

use crate::parties::{read_parties, read_party};
use json_walk::{EXPRESSION_DEPTH, Place, WalkFault, check_limit, fits, member, read_text, shape};
use ledger_terms::{Topology, Value as Term};
use serde_json::{Number, Value};
use std::alloc::Global;

/// Whether the value has the form `{"party": ..}`, an object with that member alone.
#[tactic(auto, unfolding(crate::specs::Literals::is_party_form))]
pub fn is_party_form(value: &Value) -> bool
    ensures { result ≡ is_party_form (view value.now) }
{
    fits(value, &["party"], &[])
}

/// Whether the value has the form `{"parties": ..}`, an object with that member alone.
#[tactic(auto, unfolding(crate::specs::Literals::is_parties_form))]
pub fn is_parties_form(value: &Value) -> bool
    ensures { result ≡ is_parties_form (view value.now) }
{
    fits(value, &["parties"], &[])
}

/// The party of the value `{"party": name}` at the place `at`: Shape where it has no such member or that is no name, Unknown where nobody of the
/// topology confirms for the party.
#[tactic(auto, unfolding(crate::specs::Literals::party_value_of))]
pub fn read_party_value(
    alloc: Global,
    value: &Value,
    at: &Place,
    topology: &Topology,
) -> Result<Term, WalkFault>
    ensures { Follows WalkFault.Memory result (party_value_of topology.now.hosts at.now (view value.now)) }
{
    let found = member(value, at, "party")?;
    let party = read_party(alloc, found, &at.member("party"), topology)?;
    Ok(Term::Party(party))
}

/// The set of parties of the value `{"parties": [name, ..]}` at the place `at`: Shape where it has no such member or that is no list of names, Unknown
/// at a name of no party for which somebody of the topology confirms.
#[tactic(auto, unfolding(crate::specs::Literals::parties_value_of))]
pub fn read_parties_value(
    alloc: Global,
    value: &Value,
    at: &Place,
    topology: &Topology,
) -> Result<Term, WalkFault>
    ensures { Follows WalkFault.Memory result (parties_value_of topology.now.hosts at.now (view value.now)) }
{
    let found = member(value, at, "parties")?;
    let parties = read_parties(alloc, found, &at.member("parties"), topology)?;
    Ok(Term::Parties(parties))
}

#[tactic(auto, unfolding(crate::specs::Literals::int_at))]
fn read_int(number: &Number, at: &Place, depth: u64) -> Result<Term, WalkFault>
    ensures { Follows WalkFault.Memory result (int_at at.now depth (number_view number.now)) }
{
    let Some(int) = number.as_i64() else {
        return Err(WalkFault::NotInteger {
            path: at.pointer()?,
        });
    };
    check_limit(at, EXPRESSION_DEPTH, depth)?;
    Ok(Term::Int(int))
}

#[tactic(auto, unfolding(crate::specs::Literals::text_at))]
fn read_text_value(alloc: Global, text: &str, at: &Place, depth: u64) -> Result<Term, WalkFault>
    ensures { Follows WalkFault.Memory result (text_at at.now depth text.now) }
{
    check_limit(at, EXPRESSION_DEPTH, depth)?;
    let text = read_text(alloc, text, at)?;
    Ok(Term::Text(text))
}

#[tactic(auto, unfolding(crate::specs::Literals::parties_at))]
fn read_parties_at(
    alloc: Global,
    value: &Value,
    at: &Place,
    depth: u64,
    topology: &Topology,
) -> Result<Term, WalkFault>
    ensures { Follows WalkFault.Memory result (parties_at topology.now.hosts at.now depth (view value.now)) }
{
    let is_party = is_party_form(value);
    if !(is_party || is_parties_form(value)) {
        return shape(at);
    }
    check_limit(at, EXPRESSION_DEPTH, depth)?;
    if is_party {
        read_party_value(alloc, value, at, topology)
    } else {
        read_parties_value(alloc, value, at, topology)
    }
}

#[tactic(auto, unfolding(crate::specs::Literals::plain_at))]
fn plain(value: Term, at: &Place, depth: u64) -> Result<Term, WalkFault>
    ensures { Follows WalkFault.Memory result (plain_at at.now depth value) }
{
    check_limit(at, EXPRESSION_DEPTH, depth)?;
    Ok(value)
}

/// The value that a JSON value at the place `at` spells as an expression, of any kind but Contract, or the first fault. `depth` is how deep it
/// stands, 1 for a whole expression; too deep is Limit.
#[tactic(auto, unfolding(crate::specs::Literals::literal_of))]
pub fn read_literal(
    alloc: Global,
    value: &Value,
    at: &Place,
    depth: u64,
    topology: &Topology,
) -> Result<Term, WalkFault>
    ensures { Follows WalkFault.Memory result (literal_of topology.now.hosts at.now depth (view value.now)) }
{
    match value {
        Value::Null => plain(Term::Unit, at, depth),
        Value::Bool(truth) => plain(Term::Bool(*truth), at, depth),
        Value::Number(number) => read_int(number, at, depth),
        Value::String(text) => read_text_value(alloc, text.as_str(), at, depth),
        Value::Array(_) => shape(at),
        Value::Object(_) => read_parties_at(alloc, value, at, depth, topology),
    }
}
