//! The auditor of a log.
ghost use Rattle.std.specs.Prelude.{◌≡◌, ◌++◌, ◌∷◌, ◌<◌, ◌^◌, [], false, length, map, option_copied, Decides, List, IfOk, OnOk};
ghost use Rattle.canton_model.specs.Genuine.{Genuine};
ghost use Rattle.canton_model.specs.Reading.{Reading};
ghost use Rattle.world_model.specs.Messages.{Entry as EntryValue};
ghost use Rattle.audit_model.specs.Cases.{IsOtherCheck, IsOtherDecision, IsUnframed, NoneBefore, Shows, ShowsNone, is_repeated};
ghost use Rattle.audit_model.specs.Judged.{IsProper};
ghost use Rattle.log_judge.specs.Framing.{IsFramingOf};
ghost use Rattle.log_judge.specs.Known.{KnowsLog, standard_for, standard_of};
ghost use Rattle.log_judge.specs.RuleUses.{rule_of};

use crate::participants::Participants;
use crate::read_log::ReadLog;
use crate::rule_uses::RuleUses;
use crate::same::{same_decisions, same_verdicts};
use crate::triggers::{is_wrong_trigger, note_uses};
use audit_model::Why;
use canton_model::{Entry, Message};
use framed_form::Outline;
use ledger_terms::{Params, Topology};
use mediator::Mediator;
use std::alloc::{AllocError, Global};
use trigger_rules::RuleList;

/// What was read of a log, what the participants owe and the mediator decides by it, and what the requests of rules have exercised.
#[derive(Drop)]
pub struct Auditor<P> {
    params: Params,
    participants: P,
    mediator: Mediator,
    log: ReadLog,
    rules: RuleUses,
}

// Whether a message is a request without an outline.
fn is_unframed(message: &Message, outline: Option<&Outline>) -> bool
    ensures { (reading : Reading) → IsFramingOf reading message.now (option_copied outline.entry) → Decides result (IsUnframed reading message.now) }
{
    match message {
        Message::Request(_) => outline.is_none(),
        Message::Response(_) => false,
        Message::Verdict(_) => false,
        Message::Tick => false,
    }
}

impl<P: Participants> Auditor<P> {
    /// An auditor that has read nothing, with the times of this topology and these rules, whose requests have exercised nothing. `participants` have
    /// read nothing, and have the topology's times. An Err is want of memory.
    pub fn new(
        alloc: Global,
        topology: &Topology,
        rules: &RuleList,
        participants: P,
    ) -> Result<Auditor<P>, AllocError>
        requires params { P.params participants ≡ topology.now.params }
        requires read { P.have_read participants [] }
        ensures standard { IfOk result (λ auditor. standard_of (P.reading auditor.participants) (P.params auditor.participants) auditor
            ≡ standard_for (P.reading participants) (P.params participants) (map rule_of rules.now)) }
        ensures known { IfOk result (λ auditor.
            KnowsLog (P.reading auditor.participants) (P.params auditor.participants) (P.have_read auditor.participants) auditor []) }
    {
        let rules = RuleUses::new(alloc, rules)?;
        Ok(Auditor {
            params: topology.params,
            participants,
            mediator: Mediator::new(alloc, topology),
            log: ReadLog::new(alloc),
            rules,
        })
    }

    /// What the mediator's bytes of an entry's request tell, and none where the request isn't framed or the entry holds no request.
    pub(crate) fn framed_outline(
        &self,
        alloc: Global,
        entry: &Entry,
    ) -> Result<Option<Outline>, AllocError>
        ensures { IfOk result (IsFramingOf (P.reading self.now.participants) entry.now.message) }
    {
        match &entry.message {
            Message::Request(request) => self.participants.framed_outline(alloc, request),
            Message::Response(_) => Ok(None),
            Message::Verdict(_) => Ok(None),
            Message::Tick => Ok(None),
        }
    }

    fn is_other_check(&self, alloc: Global, message: &Message) -> Result<bool, AllocError>
        ensures { IfOk result (λ is. (log : List EntryValue) → P.have_read self.now.participants log
            → Decides is (IsOtherCheck (P.reading self.now.participants) (P.params self.now.participants) log message.now)) }
    {
        match message {
            Message::Response(response) => {
                let owed = self
                    .participants
                    .owed(alloc, response.from, response.request)?;
                Ok(!same_verdicts(response.verdicts.as_slice(), owed.as_slice()))
            }
            Message::Request(_) => Ok(false),
            Message::Verdict(_) => Ok(false),
            Message::Tick => Ok(false),
        }
    }

    // Whether a message is a verdict whose decision isn't the mediator's, where no verdict on its request was read before.
    fn is_other_decision(&self, message: &Message) -> bool
        ensures { (log : List EntryValue)
            → KnowsLog (P.reading self.now.participants) (P.params self.now.participants) (P.have_read self.now.participants) self.now log
            → Genuine (P.reading self.now.participants) (P.params self.now.participants) log
            → is_repeated log message.now ≡ false → Decides result (IsOtherDecision (P.params self.now.participants) log message.now) }
    {
        match message {
            Message::Verdict(verdict) => match self.mediator.decision_on(verdict.request) {
                Some(decision) => !same_decisions(decision, &verdict.decision),
                None => true,
            },
            Message::Request(_) => false,
            Message::Response(_) => false,
            Message::Tick => false,
        }
    }

    /// Whether an entry that shows no earlier case shows the case `why`, after the log that was read. `outline` is what `framed_outline` gave of the entry.
    pub(crate) fn shows(
        &self,
        alloc: Global,
        entry: &Entry,
        outline: Option<&Outline>,
        why: Why,
    ) -> Result<bool, AllocError>
        requires { IsFramingOf (P.reading self.now.participants) entry.now.message (option_copied outline) }
        ensures { IfOk result (λ is. (log : List EntryValue)
            → KnowsLog (P.reading self.now.participants) (P.params self.now.participants) (P.have_read self.now.participants) self.now log
            → IsProper (standard_of (P.reading self.now.participants) (P.params self.now.participants) self.now) log
            → NoneBefore (standard_of (P.reading self.now.participants) (P.params self.now.participants) self.now) log entry.now why
            → Decides is (Shows (standard_of (P.reading self.now.participants) (P.params self.now.participants) self.now) log entry.now why)) }
    {
        let message = &entry.message;
        match why {
            Why::Time => Ok(self.log.is_mistimed(entry)),
            Why::Unframed => Ok(is_unframed(message, outline)),
            Why::Repeated => Ok(self.log.is_repeated(message)),
            Why::NoRequest => Ok(self.log.answers_nothing(message)),
            Why::TooLate => Ok(self.log.is_too_late(&self.params, entry)),
            Why::WrongCheck => self.is_other_check(alloc, message),
            Why::WrongDecision => Ok(self.is_other_decision(message)),
            Why::WrongTrigger => is_wrong_trigger(&self.participants, &self.rules, alloc, message),
        }
    }

    /// Reads one more entry, which shows no case. `outline` is what `framed_outline` gave of it. After want of memory nothing is known of what was read.
    pub(crate) fn read(
        &mut self,
        alloc: Global,
        entry: Entry,
        outline: Option<&Outline>,
    ) -> Result<(), AllocError>
        requires known { (log : List EntryValue)
            × KnowsLog (P.reading self.old.participants) (P.params self.old.participants) (P.have_read self.old.participants) self.old log
            × IsProper (standard_of (P.reading self.old.participants) (P.params self.old.participants) self.old) log
            × ShowsNone (standard_of (P.reading self.old.participants) (P.params self.old.participants) self.old) log entry
            × (length log < 2 ^ 63) }
        requires framing { IsFramingOf (P.reading self.old.participants) entry.message (option_copied outline) }
        ensures standard { OnOk result (standard_of (P.reading self.new.participants) (P.params self.new.participants) self.new
            ≡ standard_of (P.reading self.old.participants) (P.params self.old.participants) self.old) }
        ensures known { OnOk result ((log : List EntryValue)
            → KnowsLog (P.reading self.old.participants) (P.params self.old.participants) (P.have_read self.old.participants) self.old log
            → IsProper (standard_of (P.reading self.old.participants) (P.params self.old.participants) self.old) log
            → ShowsNone (standard_of (P.reading self.old.participants) (P.params self.old.participants) self.old) log entry
            → KnowsLog (P.reading self.new.participants) (P.params self.new.participants) (P.have_read self.new.participants) self.new
            (log ++ entry ∷ [])) }
    {
        note_uses(&self.participants, &mut self.rules, alloc, &entry.message)?;
        self.participants.read(&entry, outline)?;
        self.mediator.read(&entry)?;
        self.log.push(entry)
    }
}
