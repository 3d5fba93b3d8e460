//! The inboxes of all participants.
ghost use Rattle.std.specs.Prelude.{◌++◌, ◌∷◌, ◌≤◌, [], List, length, option_copied, IfOk, OnOk};
ghost use Rattle.ledger_terms.specs.declared.topology.Topology.{Topology};
ghost use Rattle.lang_eval.specs.Found.{Packages};
ghost use Rattle.world_model.specs.Messages.{Entry as EntryValue};
ghost use Rattle.framed_form.specs.Outlines.{IsOutlined};
ghost use Rattle.log_audit.specs.Inboxes.{HaveRead, MayRead};

use canton_model::Entry;
use confirm_reply::Setup;
use framed_form::Outline;
use ledger_terms::ParticipantId;
use node_inbox::Inbox;
use std::alloc::{AllocError, Global};

/// The inboxes of all participants, which have read nothing.
pub(crate) fn new_inboxes<'s>(alloc: Global, setup: &'s Setup) -> Result<Vec<Inbox<'s>>, AllocError>
    requires { length setup.now.topology.hosts ≤ 256 }
    ensures { IfOk result (λ inboxes. HaveRead setup.now.topology setup.now.checked inboxes.items []) }
{
    let mut inboxes = Vec::new(alloc);
    for at in 0..setup.topology.hosts.len() {
        inboxes.push(Inbox::new(alloc, setup, ParticipantId(at as u8)))?;
    }
    Ok(inboxes)
}

/// Each participant reads one more entry. Where that is a request, `outline` is what the request's mediator's bytes tell. After want of memory
/// some have read it and some haven't.
pub(crate) fn read_each(
    inboxes: &mut Vec<Inbox<'_>>,
    entry: &Entry,
    outline: Option<&Outline>,
) -> Result<(), AllocError>
    requires known { MayRead inboxes.old.items entry.now }
    requires outlined { IsOutlined entry.now.message (option_copied outline) }
    ensures { OnOk result ((topology : Topology) (packages : Packages) (log : List EntryValue)
        → HaveRead topology packages inboxes.old.items log
        → HaveRead topology packages inboxes.new.items (log ++ entry.now ∷ [])) }
{
    for at in 0..inboxes.len() {
        inboxes[at].read(entry, outline)?;
    }
    Ok(())
}
