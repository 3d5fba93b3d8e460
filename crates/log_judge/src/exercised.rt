//! Which contract a transaction exercises for a rule.
ghost use Rattle.std.specs.Prelude.{◌≡◌, option_map};
ghost use Rattle.audit_model.specs.Rules.{exercised_by, exercised_for, exercised_in, if_true, is_just};
ghost use Rattle.whole_request.specs.Completes.{transaction};
ghost use Rattle.log_judge.specs.RuleUses.{rule_of};

use ledger_terms::{Action, ActionNodeList, Hash, Name, PartySet};
use trigger_rules::Rule;
use whole_request::WholeTransaction;

fn is_just(party: Name, parties: &PartySet) -> bool
    ensures { result ≡ is_just party parties.now }
{
    match parties.as_slice() {
        [one] => *one == party,
        _ => false,
    }
}

fn exercised_by(action: &Action) -> Option<Hash>
    ensures { result ≡ exercised_by action.now }
{
    match action {
        Action::Create { .. } => None,
        Action::Exercise { id, .. } => Some(*id),
        Action::Fetch { .. } => None,
    }
}

fn exercised_in(roots: &ActionNodeList) -> Option<Hash>
    ensures { result ≡ exercised_in roots.now }
{
    match roots.as_slice() {
        [] => None,
        [tree] => exercised_by(&tree.root.action),
        [_, _, ..] => None,
    }
}

/// The contract that a request exercises for a rule, by its whole transaction: the transaction's one root is an Exercise of it, and its one requester
/// is the rule's party. None where that isn't so, or where there is no whole.
pub(crate) fn exercised_for(rule: &Rule, whole: &Option<WholeTransaction>) -> Option<Hash>
    ensures { result ≡ exercised_for (rule_of rule.now) (option_map transaction whole.now) }
{
    match whole {
        None => None,
        Some(whole) => exercised_by_party(rule.party, whole),
    }
}

fn exercised_by_party(party: Name, whole: &WholeTransaction) -> Option<Hash>
    ensures { result ≡ if_true (is_just party whole.now.requesters) (exercised_in whole.now.roots) }
{
    if is_just(party, &whole.requesters) {
        exercised_in(&whole.roots)
    } else {
        None
    }
}
