//! The trees of a transfer.
use crate::answer::Answer;
use crate::bench::transfers::Transfer;
use crate::tree::recipients;
use blind_tree::{
    RecipientList, Tree, TreeList, are_spellable, blind_all, is_spellable, root_of, verify,
};
use ledger_terms::Hash;
use std::alloc::{AllocError, Global};
use view_split::Views;

/// How many hashes it takes to make all trees of a transfer: each of its six leaves is salted and hashed once, and each of its two
/// vertices hashed once.
const TO_MAKE: u64 = 6 + 6 + 2;

/// How many it takes to verify them. The trees of the Bank and of Alice show six leaves, beside the hashes of two vertices and of the
/// whole. Those of Carol and of the mediator show three leaves. The first tree's root is made once more.
const TO_VERIFY: u64 = 9 + 9 + 6 + 6 + 9;

/// Makes the four trees of a transfer and verifies them against the root of the first, so often. Puts at the end how many hashes that
/// took, and how many trees have that root.
pub(crate) fn put_trees(alloc: Global, transfer: &Transfer, count: u64, out: &mut Answer) {
    let Some(views) = transfer.views(alloc, out) else {
        return out.line(&["no views"]);
    };
    let recipients = recipients(alloc, &transfer.script.topology, out);
    let mut hashes = 0u64;
    let mut verified = 0u64;
    for _ in 0..count {
        verified = verified.saturating_add(verified_of(alloc, transfer, &views, &recipients, out));
        hashes = hashes.saturating_add(TO_MAKE + TO_VERIFY);
    }
    out.number(hashes);
    out.put(" hashes, ");
    out.number(verified);
    out.put(" verified\n");
}

/// How many trees of views, made once, have the root of the first.
fn verified_of(
    alloc: Global,
    transfer: &Transfer,
    views: &Views,
    recipients: &RecipientList,
    out: &mut Answer,
) -> u64 {
    let topology = &transfer.script.topology;
    let Some(submission) = transfer.submission() else {
        return 0;
    };
    let Some(host) = topology.host(submission.participant) else {
        return 0;
    };
    if !are_spellable(views) {
        return 0;
    }
    match blind_all(alloc, views, host.name, topology, recipients) {
        Ok(trees) => alike(alloc, &trees, out),
        Err(_) => {
            out.lack();
            0
        }
    }
}

/// How many trees have the root of the first.
fn alike(alloc: Global, trees: &TreeList, out: &mut Answer) -> u64 {
    let root = match trees.get(0) {
        Some(first) => root_of_spelled(alloc, first),
        None => Err(AllocError),
    };
    let Ok(root) = root else {
        out.lack();
        return 0;
    };
    let mut alike = 0u64;
    for tree in trees.as_slice() {
        if is_spellable(tree) && verify(alloc, tree, &root).unwrap_or(false) {
            alike = alike.saturating_add(1);
        }
    }
    alike
}

fn root_of_spelled(alloc: Global, tree: &Tree) -> Result<Hash, AllocError> {
    if is_spellable(tree) {
        return root_of(alloc, tree);
    }
    Err(AllocError)
}
