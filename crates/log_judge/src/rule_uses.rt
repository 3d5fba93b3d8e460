//! What the requests of all rules have exercised.
ghost use Rattle.std.specs.Prelude.{◌≡◌, map, option_map, IfOk, OnOk};
ghost use Rattle.std.specs.List.{list_any};
ghost use Rattle.audit_model.specs.Rules.{is_caused_by};
ghost use Rattle.whole_request.specs.Completes.{transaction};
ghost use Rattle.log_judge.specs.RuleUses.{Used, is_wrong_by, rule_of, unused, used_after};

use crate::rule_use::RuleUse;
use canton_model::Request;
use std::alloc::{AllocError, Global};
use std::marker::Model;
use trigger_rules::RuleList;
use whole_request::WholeTransaction;

/// Rules in their order, each with the contracts that its requests have exercised.
#[derive(Drop)]
pub struct RuleUses {
    uses: Vec<RuleUse>,
}

impl Model for RuleUses {
    ghost use Rattle.std.specs.Prelude.{List};
    ghost use Rattle.log_judge.specs.RuleUses.{Used};

    ghost Value = { List Used };

    ghost view = { λ u. u.uses.items };
}

fn read_each(
    uses: &mut Vec<RuleUse>,
    request: &Request,
    whole: &Option<WholeTransaction>,
) -> Result<(), AllocError>
    ensures { OnOk result (uses.new.items ≡ map (used_after request.now (option_map transaction whole.now)) uses.old.items) }
{
    for at in 0..uses.len() {
        uses[at].read(request, whole)?;
    }
    Ok(())
}

impl RuleUses {
    /// These rules, whose requests have exercised nothing yet.
    pub(crate) fn new(alloc: Global, rules: &RuleList) -> Result<RuleUses, AllocError>
        ensures { IfOk result (λ uses. uses ≡ map unused rules.now) }
    {
        let rules = rules.as_slice();
        let mut uses = Vec::new(alloc);
        for rule in rules {
            uses.push(RuleUse::new(alloc, rule)?)?;
        }
        Ok(RuleUses { uses })
    }

    /// Whether a request is that of some rule: it is of the rule's participant, and has a command that is kept for the rule.
    pub(crate) fn have_caused(&self, request: &Request) -> bool
        ensures { result ≡ list_any (λ (one : Used). is_caused_by (rule_of one.rule) request.now) self.now }
    {
        self.uses
            .as_slice()
            .iter()
            .any(|rule| rule.has_caused(request))
    }

    /// Whether a request is that of some rule, and not what that rule may cause after those before it. `whole` is the request's transaction, and none
    /// where it can't be read.
    pub(crate) fn is_wrong(&self, request: &Request, whole: &Option<WholeTransaction>) -> bool
        ensures { result ≡ list_any (is_wrong_by request.now (option_map transaction whole.now)) self.now }
    {
        self.uses
            .as_slice()
            .iter()
            .any(|rule| rule.is_wrong(request, whole))
    }

    /// Notes what a request exercises for each rule whose it is. `whole` is its transaction, and none where it can't be read. After want of memory
    /// some rules have noted it and some haven't.
    pub(crate) fn read(
        &mut self,
        request: &Request,
        whole: &Option<WholeTransaction>,
    ) -> Result<(), AllocError>
        ensures { OnOk result (self.new ≡ map (used_after request.now (option_map transaction whole.now)) self.old) }
    {
        read_each(&mut self.uses, request, whole)
    }
}
