//! What an auditor asks of the participants whose log it judges.
ghost use Rattle.std.specs.Prelude.{◌≡◌, ◌++◌, ◌∷◌, ◌<◌, ◌^◌, [], true, List, length, suc, take, option_copied, option_map, IfOk, OnOk};
ghost use Rattle.canton_model.specs.Checks.{verdicts_owed};
ghost use Rattle.canton_model.specs.Genuine.{Genuine};
ghost use Rattle.canton_model.specs.Inbox.{inbox};
ghost use Rattle.world_model.specs.Messages.{Entry as EntryValue};
ghost use Rattle.framed_form.specs.Outlines.{IsOutlined};
ghost use Rattle.whole_request.specs.Completes.{transaction};
ghost use Rattle.log_judge.specs.Framing.{IsFraming};

use canton_model::{Entry, Request, ViewVerdictList};
use framed_form::Outline;
use ledger_terms::ParticipantId;
use std::alloc::{AllocError, Global};
use whole_request::WholeTransaction;

/// All participants of a synchroniser, over a log that they have read.
pub trait Participants: Drop {
    ghost use Rattle.std.specs.Prelude.{List};
    ghost use Rattle.ledger_terms.specs.declared.params.Params.{Params};
    ghost use Rattle.canton_model.specs.Reading.{Reading};
    ghost use Rattle.world_model.specs.Messages.{Entry as EntryValue};

    ghost reading: { Self → Reading };

    ghost params: { Self → Params };

    ghost have_read: { Self → List EntryValue → Type 0 };

    /// What the mediator's bytes of a request tell, where it is framed.
    fn framed_outline(
        &self,
        alloc: Global,
        request: &Request,
    ) -> Result<Option<Outline>, AllocError>
        ensures { IfOk result (IsFraming (reading self.now) request.now) };

    /// The whole of a framed request.
    fn whole(
        &self,
        alloc: Global,
        request: &Request,
    ) -> Result<Option<WholeTransaction>, AllocError>
        ensures { IfOk result (λ whole. (reading self.now).is_framed request.now ≡ true
            → option_map transaction whole ≡ (reading self.now).whole request.now) };

    /// The verdicts that a response of the participant to the request at a place has to hold.
    fn owed(
        &self,
        alloc: Global,
        p: ParticipantId,
        place: u64,
    ) -> Result<ViewVerdictList, AllocError>
        ensures { IfOk result (λ verdicts. (log : List EntryValue) → have_read self.now log
            → verdicts ≡ verdicts_owed (reading self.now) (params self.now) p (inbox (reading self.now) p (take (suc place) log)) place) };

    /// Each reads one more entry. Where that is a request, `outline` is what the request's mediator's bytes tell. After want of memory nothing
    /// is known of what they have read.
    fn read(&mut self, entry: &Entry, outline: Option<&Outline>) -> Result<(), AllocError>
        requires known { (log : List EntryValue) × have_read self.old log × Genuine (reading self.old) (params self.old) (log ++ entry.now ∷ [])
            × (length log < 2 ^ 63) }
        requires outlined { IsOutlined entry.now.message (option_copied outline) }
        ensures same { (reading self.new ≡ reading self.old) × (params self.new ≡ params self.old) }
        ensures ok { OnOk result ((log : List EntryValue) → have_read self.old log
            → Genuine (reading self.old) (params self.old) (log ++ entry.now ∷ []) → have_read self.new (log ++ entry.now ∷ [])) };
}
