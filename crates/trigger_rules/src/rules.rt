//! Rules with who answers for them.
ghost use Rattle.std.specs.Prelude.{◌≡◌, ◌≢◌, ◌<◌, ◌≤◌, ◌+◌, ◌++◌, ℕ, [], Some, length, slice_get, vec_len, IfOk, OnErr, OnOk};
ghost use Rattle.trigger_rules.specs.declared.limits.TheConstants.{MOST_FIRES};
ghost use Rattle.trigger_rules.specs.declared.rule.Rule.{Rule};
ghost use Rattle.trigger_rules.specs.Firing.{Fires, contracts_of};
ghost use Rattle.trigger_rules.specs.Answers.{GivesExercises};
ghost use Rattle.trigger_rules.specs.Kept.{AreShort, fired_by, or_none};

use crate::answering::Answering;
use crate::caused::CausedList;
use crate::fired::Fired;
use crate::firing::{Turn, fire_or_not};
use crate::rule::{Rule, RuleList};
use ledger_terms::ActiveRowList;
use std::alloc::{AllocError, Global};
use std::marker::Model;

/// Rules with who answers for them, and with the contracts on which each has fired. It is kept that each command that is answered
/// exercises the contract that was asked about.
#[derive(Drop)]
pub struct Rules<F: Answering> {
    rules: RuleList,
    fired: Vec<Fired>,
    answer: F,
}

impl<F: Answering> Model for Rules<F> {
    ghost use Rattle.trigger_rules.specs.Kept.{KeptRules, IsKept};

    ghost Value = { KeptRules F };

    ghost view = { λ r. record { rules = r.rules; fired = r.fired.items; answer = r.answer } };

    ghost invariant = { λ r. IsKept r.rules (F.can_ask r.answer) (F.may_answer r.answer) };
}

// At least so many lists. After want of memory there may be fewer, and none has lost anything.
#[tactic(auto, using(crate::proofs::Asking::none_more))]
fn make_lists(alloc: Global, lists: &mut Vec<Fired>, count: usize) -> Result<(), AllocError>
    ensures same { (rule : ℕ) → or_none (slice_get lists.new.items rule) ≡ or_none (slice_get lists.old.items rule) }
    ensures many { OnOk result (count ≤ vec_len lists.new) }
{
    'lists: while lists.len() < count {
        lists.push(Fired::new(alloc))?;
    }
    Ok(())
}

impl<F: Answering> Rules<F> {
    /// Rules that haven't fired, with who answers for them. Their names have to be short, and each command that may be answered an exercise of
    /// the contract that is asked about.
    pub fn new(rules: RuleList, answer: F) -> Rules<F>
        requires short { AreShort rules }
        requires askable { F.can_ask answer }
        requires exercises { GivesExercises (F.may_answer answer) }
        ensures { result ≡ record { rules = rules; fired = []; answer = answer } }
    {
        let fired = Vec::new(*rules.allocator());
        Rules {
            rules,
            fired,
            answer,
        }
    }

    /// The rules, in their order.
    pub fn as_slice(&self) -> &[Rule]
        ensures { result.now ≡ self.now.rules }
    {
        self.rules.as_slice()
    }

    /// Asks the rule with the number `rule`, from 0, in this round about these active contracts, in order, but for those on which it has fired. It
    /// fires on those for which a command is answered; what it caused comes back. `now` is the time in microseconds. After want of memory it hasn't
    /// fired.
    pub fn fire(
        &mut self,
        rule: u32,
        round: u32,
        rows: &ActiveRowList,
        now: u64,
    ) -> Result<CausedList, AllocError>
        requires there { rule < length self.old.rules }
        requires few { length (fired_by self.old rule) + length rows.now < MOST_FIRES }
        ensures rules { (self.new.rules ≡ self.old.rules) × (self.new.answer ≡ self.old.answer) }
        ensures fires { IfOk result (λ caused. (one : Rule) → slice_get self.old.rules rule ≡ Some one
            → Fires (F.may_answer self.old.answer) one round now (fired_by self.old rule) rows.now caused) }
        ensures fired { IfOk result (λ caused. fired_by self.new rule ≡ fired_by self.old rule ++ contracts_of caused) }
        ensures others { (other : ℕ) → other ≢ rule → fired_by self.new other ≡ fired_by self.old other }
        ensures err { OnErr result (fired_by self.new rule ≡ fired_by self.old rule) }
    {
        let at = rule as usize;
        let alloc = *self.rules.allocator();
        make_lists(alloc, &mut self.fired, at + 1)?;
        let turn = Turn {
            rule: &self.rules.as_slice()[at],
            answer: &self.answer,
            round,
            time: now,
        };
        fire_or_not(alloc, &turn, &mut self.fired[at], rows)
    }
}
