//! The request of a transaction, beside the trees that its recipients get.
use crate::answer::Answer;
use crate::tree::given::{Sent, put_recipients};
use blind_tree::{Recipient, RecipientList, are_spellable, blind_all};
use canton_model::Request;
use ledger_terms::{ParticipantId, Submission, Topology};
use proto_model::seal;
use sealed_form::is_sealable;
use std::alloc::Global;
use view_split::Views;

/// Puts the request of a submission's transaction at the end: who is asked to confirm it, and what each recipient gets of it.
pub(crate) fn put_request(
    alloc: Global,
    topology: &Topology,
    submission: &Submission,
    views: &Views,
    out: &mut Answer,
) {
    match sealed(alloc, topology, submission, views, out) {
        Some(request) => put_sealed(alloc, topology, views, &request, out),
        None => out.line(&["no request"]),
    }
}

/// The request of a submission's transaction. None: the formats have no room for it, or memory was wanting.
pub(crate) fn sealed(
    alloc: Global,
    topology: &Topology,
    submission: &Submission,
    views: &Views,
    out: &mut Answer,
) -> Option<Request> {
    let sender = submission.participant;
    if !is_sealable(views) || sender.0 as usize >= topology.hosts.len() {
        return None;
    }
    match seal(alloc, topology, sender, submission.command, views) {
        Ok(request) => Some(request),
        Err(_) => {
            out.lack();
            None
        }
    }
}

fn put_sealed(
    alloc: Global,
    topology: &Topology,
    views: &Views,
    request: &Request,
    out: &mut Answer,
) {
    put_confirming(topology, request.confirming.as_slice(), out);
    let Some(host) = topology.host(request.sender) else {
        return;
    };
    if !are_spellable(views) {
        return;
    }
    let recipients = recipients(alloc, topology, out);
    match blind_all(alloc, views, host.name, topology, &recipients) {
        Ok(trees) => put_recipients(alloc, Sent { topology, request }, &trees, out),
        Err(_) => out.lack(),
    }
}

/// Puts who is asked to confirm at the end.
pub(crate) fn put_confirming(
    topology: &Topology,
    participants: &[ParticipantId],
    out: &mut Answer,
) {
    out.put("confirming");
    for at in participants {
        out.put(" ");
        out.host(topology, *at);
    }
    out.put("\n");
}

/// All participants, in the order of the topology, and behind them the mediator.
pub(crate) fn recipients(alloc: Global, topology: &Topology, out: &mut Answer) -> RecipientList {
    let mut recipients = RecipientList::new(alloc);
    let mut at = 0u8;
    for _host in topology.hosts.as_slice() {
        out.keep(recipients.push(Recipient::Participant(ParticipantId(at))));
        at = at.saturating_add(1);
    }
    out.keep(recipients.push(Recipient::Mediator));
    recipients
}
