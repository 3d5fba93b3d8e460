//! What the requests of a rule have exercised.
ghost use Rattle.std.specs.Prelude.{◌≡◌, [], IfOk, OnOk, option_map};
ghost use Rattle.audit_model.specs.Rules.{is_caused_by};
ghost use Rattle.whole_request.specs.Completes.{transaction};
ghost use Rattle.log_judge.specs.RuleUses.{has_used, is_wrong_by, is_wrong_use, rule_of, unused, used_after, with_contract};

use crate::exercised::exercised_for;
use canton_model::Request;
use indexmap::IndexSet;
use ledger_terms::Hash;
use std::alloc::{AllocError, Global};
use std::marker::Model;
use trigger_rules::{Rule, RuleList, is_rule_command};
use whole_request::WholeTransaction;

/// A rule, and the contracts that its requests have exercised.
#[derive(Drop)]
pub struct RuleUse {
    rule: Rule,
    // the rule alone
    list: RuleList,
    contracts: IndexSet<Hash>,
}

impl Model for RuleUse {
    ghost use Rattle.log_judge.specs.RuleUses.{Used};

    ghost Value = { Used };

    ghost use Rattle.std.specs.Prelude.{◌≡◌, [], ◌∷◌};

    ghost view = { λ u. record { rule = u.rule; contracts = u.contracts.keys } };

    ghost invariant = { λ u. u.list ≡ u.rule ∷ [] };
}

impl RuleUse {
    /// A rule whose requests have exercised nothing yet.
    pub(crate) fn new(alloc: Global, rule: &Rule) -> Result<RuleUse, AllocError>
        ensures { IfOk result (λ made. made ≡ unused rule.now) }
    {
        let mut list = RuleList::with_room(alloc, 1)?;
        list.push(*rule)?;
        Ok(RuleUse {
            rule: *rule,
            list,
            contracts: IndexSet::new(alloc),
        })
    }

    /// Whether a request is the rule's: it is of the rule's participant, and has a command that is kept for the rule.
    pub(crate) fn has_caused(&self, request: &Request) -> bool
        ensures { result ≡ is_caused_by (rule_of self.now.rule) request.now }
    {
        is_rule_command(&self.list, request.sender, request.command)
    }

    fn has_used(&self, contract: &Hash) -> bool
        ensures { result ≡ has_used self.now.contracts contract.now }
    {
        self.contracts.contains(contract)
    }

    /// Whether a request is the rule's, and exercises nothing for it or a contract that an earlier one of the rule exercises. `whole` is the
    /// request's transaction, and none where it can't be read.
    pub(crate) fn is_wrong(&self, request: &Request, whole: &Option<WholeTransaction>) -> bool
        ensures { result ≡ is_wrong_by request.now (option_map transaction whole.now) self.now }
    {
        self.has_caused(request) && self.is_wrong_use(exercised_for(&self.rule, whole))
    }

    fn is_wrong_use(&self, contract: Option<Hash>) -> bool
        ensures { result ≡ is_wrong_use self.now.contracts contract }
    {
        match contract {
            Some(contract) => self.has_used(&contract),
            None => true,
        }
    }

    /// Notes what a request exercises for the rule, where it is the rule's. `whole` is the request's transaction, and none where it can't be read.
    pub(crate) fn read(
        &mut self,
        request: &Request,
        whole: &Option<WholeTransaction>,
    ) -> Result<(), AllocError>
        ensures { OnOk result (self.new ≡ used_after request.now (option_map transaction whole.now) self.old) }
    {
        if self.has_caused(request) {
            let contract = exercised_for(&self.rule, whole);
            self.note(contract)?;
        }
        Ok(())
    }

    fn note(&mut self, contract: Option<Hash>) -> Result<(), AllocError>
        ensures { OnOk result (self.new ≡ with_contract self.old contract) }
    {
        if let Some(contract) = contract {
            self.contracts.insert(contract)?;
        }
        Ok(())
    }
}
