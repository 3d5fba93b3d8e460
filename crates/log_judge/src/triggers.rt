//! What is judged of the requests of rules.
ghost use Rattle.std.specs.Prelude.{◌≡◌, true, List, IfOk, OnOk};
ghost use Rattle.ledger_terms.specs.declared.params.Params.{Params};
ghost use Rattle.world_model.specs.Messages.{Entry as EntryValue, RequestMessage};
ghost use Rattle.audit_model.specs.Cases.{IsUnframed};
ghost use Rattle.audit_model.specs.Rules.{is_wrong_trigger};
ghost use Rattle.log_judge.specs.Known.{standard_for};
ghost use Rattle.log_judge.specs.RuleUses.{AreUsed, IsNoted, rules_of};

use crate::participants::Participants;
use crate::rule_uses::RuleUses;
use canton_model::{Message, Request};
use std::alloc::{AllocError, Global};

/// Whether a message is a request with the command of a rule of its sender, and isn't what that rule may cause.
pub(crate) fn is_wrong_trigger<P: Participants>(
    participants: &P,
    rules: &RuleUses,
    alloc: Global,
    message: &Message,
) -> Result<bool, AllocError>
    ensures { IfOk result (λ is. (params : Params) (log : List EntryValue) → AreUsed (P.reading participants.now) log rules.now
        → ¬ IsUnframed (P.reading participants.now) message.now
        → is ≡ is_wrong_trigger (standard_for (P.reading participants.now) params (rules_of rules.now)) log message.now) }
{
    match message {
        Message::Request(request) => is_wrong_request(participants, rules, alloc, request),
        Message::Response(_) => Ok(false),
        Message::Verdict(_) => Ok(false),
        Message::Tick => Ok(false),
    }
}

fn is_wrong_request<P: Participants>(
    participants: &P,
    rules: &RuleUses,
    alloc: Global,
    request: &Request,
) -> Result<bool, AllocError>
    ensures { IfOk result (λ is. (params : Params) (log : List EntryValue) → AreUsed (P.reading participants.now) log rules.now
        → (P.reading participants.now).is_framed request.now ≡ true
        → is ≡ is_wrong_trigger (standard_for (P.reading participants.now) params (rules_of rules.now)) log (RequestMessage request.now)) }
{
    if !rules.have_caused(request) {
        return Ok(false);
    }
    let whole = participants.whole(alloc, request)?;
    Ok(rules.is_wrong(request, &whole))
}

/// Notes what a message that is a request of rules exercises for them. After want of memory some have noted it and some haven't.
pub(crate) fn note_uses<P: Participants>(
    participants: &P,
    rules: &mut RuleUses,
    alloc: Global,
    message: &Message,
) -> Result<(), AllocError>
    ensures { OnOk result (IsNoted (P.reading participants.now) message.now rules.old rules.new) }
{
    match message {
        Message::Request(request) => note_request(participants, rules, alloc, request),
        Message::Response(_) => Ok(()),
        Message::Verdict(_) => Ok(()),
        Message::Tick => Ok(()),
    }
}

fn note_request<P: Participants>(
    participants: &P,
    rules: &mut RuleUses,
    alloc: Global,
    request: &Request,
) -> Result<(), AllocError>
    ensures { OnOk result (IsNoted (P.reading participants.now) (RequestMessage request.now) rules.old rules.new) }
{
    if !rules.have_caused(request) {
        return Ok(());
    }
    let whole = participants.whole(alloc, request)?;
    rules.read(request, &whole)
}
