//! A transfer whose requests and trees are made.
use crate::answer::Answer;
use crate::tree::{script_in, sealed, transaction_of};
use canton_model::Request;
use fixtures::{TRANSFER, know_created};
use ledger_terms::{KnownList, Submission};
use script_read::Script;
use std::alloc::Global;
use view_split::{Views, split};

/// The script of a transfer, whose first round makes a debt and whose second round transfers it, and the contracts that are known between them.
#[derive(Drop)]
pub(crate) struct Transfer {
    pub(crate) script: Box<Script>,
    known: KnownList,
}

/// How many hashes it takes to make the request of a transfer: the seeds of the transaction and of its two actions and the id of
/// the contract, a salt and a hash for each of the six leaves, and a hash for each of the two views.
const TO_MAKE: u64 = 3 + 1 + 6 + 6 + 2;

/// Alice's transfer of the Bank's debt to Carol, with the debt made already. None: the script or its first transaction couldn't be made.
pub(crate) fn worked_transfer(alloc: Global, out: &mut Answer) -> Option<Transfer> {
    let script = script_in(alloc, TRANSFER, out)?;
    let mut known = KnownList::new(alloc);
    let tx = transaction_of(alloc, &script, &known, submitted(&script, 0)?, out)?;
    out.keep(know_created(&tx.roots, &mut known));
    Some(Transfer { script, known })
}

/// The first submission of the round with this number.
fn submitted(script: &Script, round: usize) -> Option<&Submission> {
    let round = script.rounds.get(round)?;
    round.submits.get(0)
}

impl Transfer {
    /// The submission that transfers the debt.
    pub(crate) fn submission(&self) -> Option<&Submission> {
        submitted(&self.script, 1)
    }

    /// The views of the transfer's transaction, made anew from its command.
    pub(crate) fn views(&self, alloc: Global, out: &mut Answer) -> Option<Views> {
        let submission = self.submission()?;
        let tx = transaction_of(alloc, &self.script, &self.known, submission, out)?;
        split(alloc, &self.script.checked, &tx).ok()
    }

    /// The transfer's request, made anew from its command.
    pub(crate) fn request(&self, alloc: Global, out: &mut Answer) -> Option<Request> {
        let views = self.views(alloc, out)?;
        sealed(
            alloc,
            &self.script.topology,
            self.submission()?,
            &views,
            out,
        )
    }
}

fn bytes_of(request: &Request) -> u64 {
    let mut bytes = request.mediator.as_slice().len() as u64;
    for envelope in request.envelopes.as_slice() {
        bytes = bytes.saturating_add(envelope.bytes.as_slice().len() as u64);
    }
    bytes
}

/// Makes the request of a transfer so often. Puts at the end how many bytes these have, and how many hashes they took.
pub(crate) fn put_requests(alloc: Global, transfer: &Transfer, count: u64, out: &mut Answer) {
    let mut bytes = 0u64;
    let mut hashes = 0u64;
    for _ in 0..count {
        if let Some(request) = transfer.request(alloc, out) {
            bytes = bytes.saturating_add(bytes_of(&request));
            hashes = hashes.saturating_add(TO_MAKE);
        }
    }
    out.number(bytes);
    out.put(" bytes, ");
    out.number(hashes);
    out.put(" hashes\n");
}
