//! Whether each party that opened actions name is one of the topology.
ghost use Rattle.std.specs.Prelude.{◌≡◌, IfOk};
ghost use Rattle.std.specs.List.{list_all, list_any};
ghost use Rattle.ledger_terms.specs.Hosting.{lists_party};
ghost use Rattle.ledger_terms.specs.declared.act.Act.{Act};
ghost use Rattle.ledger_terms.specs.declared.value.Value.{Value};
ghost use Rattle.lang_eval.specs.Named.{parties_in_action, parties_in_value, parties_in_values};
ghost use Rattle.interpret.specs.NamedParties.{parties_in_act};
ghost use Rattle.sealed_form.specs.Within.{is_hosted};
ghost use Rattle.framed_form.specs.FramedForm.{names_known};

use ledger_terms::{Action, Name, PartySet, Topology, Value};
use std::alloc::{AllocError, Global};
use view_split::{ActRef, OpenedTree, acts_in_views};

fn is_listed(topology: &Topology, party: Name) -> bool
    ensures { result ≡ list_any (lists_party party) topology.now.hosts }
{
    topology
        .hosts
        .as_slice()
        .iter()
        .any(|host| host.parties.contains(party))
}

fn is_known(topology: &Topology, party: Name) -> bool
    ensures { result ≡ is_hosted topology.now party }
{
    is_listed(topology, party)
}

fn are_known(topology: &Topology, parties: &PartySet) -> bool
    ensures { result ≡ list_all (is_hosted topology.now) parties.now }
{
    parties
        .as_slice()
        .iter()
        .all(|party| is_known(topology, *party))
}

fn is_value_known(topology: &Topology, value: &Value) -> bool
    ensures { result ≡ list_all (is_hosted topology.now) (parties_in_value value.now) }
{
    match value {
        Value::Party(party) => is_known(topology, *party),
        Value::Parties(parties) => are_known(topology, parties),
        Value::Unit => true,
        Value::Int(_) => true,
        Value::Bool(_) => true,
        Value::Text(_) => true,
        Value::Contract(_) => true,
    }
}

fn is_each_known(topology: &Topology, values: &[Value]) -> bool
    ensures { result ≡ list_all (λ (value : Value). list_all (is_hosted topology.now) (parties_in_value value)) values.now }
{
    values.iter().all(|value| is_value_known(topology, value))
}

fn are_values_known(topology: &Topology, values: &[Value]) -> bool
    ensures { result ≡ list_all (is_hosted topology.now) (parties_in_values values.now) }
{
    is_each_known(topology, values)
}

fn is_action_known(topology: &Topology, action: &Action) -> bool
    ensures { result ≡ list_all (is_hosted topology.now) (parties_in_action action.now) }
{
    if !are_values_known(topology, action.instance().fields.as_slice()) {
        return false;
    }
    match action {
        Action::Create { .. } => true,
        Action::Exercise {
            args,
            actors,
            result,
            ..
        } => {
            are_values_known(topology, args.as_slice())
                && are_known(topology, actors)
                && is_value_known(topology, result)
        }
        Action::Fetch { actors, .. } => are_known(topology, actors),
    }
}

fn are_actions_known(topology: &Topology, found: &[ActRef<'_>]) -> bool
    ensures { result ≡ list_all (λ (act : Act). list_all (is_hosted topology.now) (parties_in_act act)) found.now }
{
    found
        .iter()
        .all(|act| is_action_known(topology, act.action()))
}

/// Whether each party that an action of an opened tree names, in its fields, arguments, actors or result, is one of the topology.
pub fn names_known(
    alloc: Global,
    topology: &Topology,
    tree: &OpenedTree,
) -> Result<bool, AllocError>
    ensures { IfOk result (λ known. known ≡ names_known topology.now tree.now) }
{
    let found = acts_in_views(alloc, &tree.views)?;
    Ok(are_actions_known(topology, found.as_slice()))
}
