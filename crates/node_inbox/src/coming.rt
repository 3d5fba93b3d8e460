//! What comes of an entry before it is read: all that takes memory.
ghost use Rattle.std.specs.Prelude.{◌≡◌, false, true, option_copied, All, IfNone, IfOk, IfSome};
ghost use Rattle.ledger_terms.specs.declared.act.Act.{Act};
ghost use Rattle.ledger_model.specs.Forest.{acts};
ghost use Rattle.ledger_model.specs.Terms.{instance_of};
ghost use Rattle.canton_model.specs.Inbox.{Received, received};
ghost use Rattle.canton_model.specs.Reading.{is_recipient};
ghost use Rattle.wire_form.specs.Spellable.{IsSpellableInstance};
ghost use Rattle.framed_form.specs.FramedReading.{framed_reading};
ghost use Rattle.framed_form.specs.Outlines.{IsOutline};
ghost use Rattle.node_inbox.specs.Coming.{AreParts, IsComing, IsKeptOf};
ghost use Rattle.node_inbox.specs.Items.{notice_of};
ghost use Rattle.node_inbox.specs.Offers.{roots_offered, roots_opened};

use crate::actions::{acts_offered, blank_facts, changes_of};
use crate::boxed_request::BoxedRequest;
use crate::change_lists::ids_of;
use crate::kept_item::KeptRequest;
use crate::kept_offer::KeptOffer;
use canton_model::{Request, SharedBytes};
use confirm_reply::{IdFactsList, Setup};
use inbox_registry::Change;
use ledger_terms::{HashList, ParticipantId};
use proto_model::{Notice, Outline, envelope_of, read_notice};
use std::alloc::{AllocError, Global};

/// A request that comes, with the contracts that it will hold.
#[derive(Drop)]
pub struct ComingRequest {
    pub kept: BoxedRequest,
    pub ids: HashList,
}

/// A blank fact on the contract of each action that a kept offer opens, and the changes among the authentic ones of these actions.
pub fn parts_of(alloc: Global, offer: &KeptOffer) -> Result<(IdFactsList, Vec<Change>), AllocError>
    requires { All (λ (act : Act). IsSpellableInstance (instance_of act.action)) (acts (roots_offered offer.now)) }
    ensures { IfOk result (λ parts. AreParts offer.now parts.0 (parts.1).items) }
{
    let found = acts_offered(alloc, offer)?;
    let facts = blank_facts(alloc, found.as_slice())?;
    let changes = changes_of(alloc, found.as_slice())?;
    Ok((facts, changes))
}

/// The same bytes once more, shared and not copied, and none where there are none.
pub fn shared(bytes: Option<&SharedBytes>) -> Result<Option<SharedBytes>, AllocError>
    ensures { IfOk result (λ shared. shared ≡ option_copied bytes.entry) }
{
    match bytes {
        Some(bytes) => Ok(Some(bytes.clone()?)),
        None => Ok(None),
    }
}

// What is kept of a request, by what is read of it.
fn kept_of(
    alloc: Global,
    me: ParticipantId,
    request: &Request,
    notice: Notice,
) -> Result<KeptRequest, AllocError>
    requires { All (λ (act : Act). IsSpellableInstance (instance_of act.action)) (acts (roots_opened notice.offered)) }
    ensures kept { IfOk result (λ kept. IsKeptOf me request.now notice kept) }
    ensures parts { IfOk result (λ kept. AreParts kept.offer kept.facts kept.changes.items) }
{
    let Notice {
        root,
        seen,
        confirmed,
        offered,
    } = notice;
    let envelope = shared(envelope_of(request, me))?;
    let offer = KeptOffer::of(alloc, offered)?;
    let (facts, changes) = parts_of(alloc, &offer)?;
    Ok(KeptRequest {
        sender: request.sender,
        command: request.command,
        root,
        seen,
        confirmed,
        envelope,
        offer,
        changes,
        facts,
    })
}

/// What participant `me` keeps of a framed request, before it is put into the inbox, and none exactly where `me` isn't a recipient. `outline` is what
/// the request's mediator's bytes tell. The envelope is read once.
pub fn coming(
    alloc: Global,
    setup: &Setup,
    me: ParticipantId,
    request: &Request,
    outline: &Outline,
) -> Result<Option<ComingRequest>, AllocError>
    requires framed { (framed_reading setup.now.topology setup.now.checked).is_framed request.now ≡ true }
    requires outline { IsOutline request.now outline.now }
    ensures none { IfOk result (λ o. IfNone o (is_recipient (framed_reading setup.now.topology setup.now.checked) me request.now ≡ false)) }
    ensures some { IfOk result (λ o. IfSome o (λ coming. IsComing setup.now.topology setup.now.checked me coming)) }
    ensures received { IfOk result (λ o. IfSome o (λ coming.
        received (framed_reading setup.now.topology setup.now.checked) me request.now ≡ Received (notice_of coming.kept))) }
{
    let Some(notice) = read_notice(alloc, &setup.topology, me, request, outline)? else {
        return Ok(None);
    };
    let kept = kept_of(alloc, me, request, notice)?;
    let ids = ids_of(alloc, kept.changes.as_slice())?;
    let kept = BoxedRequest::new(alloc, kept)?;
    Ok(Some(ComingRequest { kept, ids }))
}
