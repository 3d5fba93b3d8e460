//! What a participant reads of a script's last transaction.
use crate::answer::Answer;
use crate::check::facts::facts_of;
use crate::tree::{sealed, transaction_of};
use canton_model::Request;
use confirm_reply::{IdFactsList, Shown};
use fixtures::know_created;
use ledger_terms::{KnownList, ParticipantId, Submission, Topology};
use node_inbox::KeptOffer;
use proto_model::{read_notice, read_outline};
use script_read::Script;
use std::alloc::{AllocError, Global};
use view_split::split;

/// What a participant is shown of a request, who sent it, and what the participant knows of contracts.
#[derive(Drop)]
pub(crate) struct Received {
    pub(crate) sender: ParticipantId,
    pub(crate) shown: Shown,
    pub(crate) facts: IdFactsList,
}

/// What the participant `me` reads of a script's last request. `facts` says what it knows, by the numbers of the contracts that all transactions
/// create. None: it receives no request.
pub(crate) fn receive(
    alloc: Global,
    script: &Script,
    me: ParticipantId,
    facts: &str,
    out: &mut Answer,
) -> Option<Received> {
    let mut known = KnownList::new(alloc);
    let requests = all_sent(alloc, script, &mut known, out);
    let request = requests.last()?;
    match shown_of(alloc, &script.topology, request, me) {
        Ok(Some(shown)) => {
            let facts = facts_of(alloc, &known, facts).ok()?;
            Some(Received {
                sender: request.sender,
                shown,
                facts,
            })
        }
        Ok(None) => None,
        Err(_) => {
            out.lack();
            None
        }
    }
}

/// The requests of a script, each over what those before it create.
fn all_sent(
    alloc: Global,
    script: &Script,
    known: &mut KnownList,
    out: &mut Answer,
) -> Vec<Request> {
    let mut requests = Vec::new(alloc);
    for round in script.rounds.as_slice() {
        for submission in round.submits.as_slice() {
            if let Some(request) = send(alloc, script, known, submission, out) {
                out.keep(put_request(&mut requests, request));
            }
        }
    }
    requests
}

fn put_request(requests: &mut Vec<Request>, request: Request) -> Result<(), AllocError> {
    requests.push(request)?;
    Ok(())
}

/// The request of a submission; what it creates is known from then on. None: it is refused, or can't be sealed.
fn send(
    alloc: Global,
    script: &Script,
    known: &mut KnownList,
    submission: &Submission,
    out: &mut Answer,
) -> Option<Request> {
    let tx = transaction_of(alloc, script, known, submission, out)?;
    out.keep(know_created(&tx.roots, known));
    let views = split(alloc, &script.checked, &tx).ok()?;
    sealed(alloc, &script.topology, submission, &views, out)
}

/// What a participant is shown of a request. None: it is no recipient.
fn shown_of(
    alloc: Global,
    topology: &Topology,
    request: &Request,
    me: ParticipantId,
) -> Result<Option<Shown>, AllocError> {
    let Some(outline) = read_outline(alloc, request)? else {
        return Ok(None);
    };
    match read_notice(alloc, topology, me, request, &outline)? {
        Some(notice) => Ok(Some(KeptOffer::of(alloc, notice.offered)?.shown()?)),
        None => Ok(None),
    }
}
