//! The strings that are hashed for a request, alone.
use crate::answer::Answer;
use crate::bench::transfers::Transfer;
use blind_tree::{Leaf, Tree, Vertex, VertexList, decode_tree};
use hash_id::{child_seed, contract_id_of_bytes, leaf_hash, leaf_salt, root_seed, view_hash};
use ledger_terms::{Hash, Submission};
use proto_model::envelope_of;
use std::alloc::Global;

// As many bytes as the instance of the contract has.
const INSTANCE: [u8; 31] = [90; 31];

/// The last hash, and how many there were.
type Hashed = (Hash, u64);

/// Makes the salt and the hash of a leaf that is shown, from the last hash on.
fn hash_leaf(kind: u8, leaf: &Leaf, hashed: Hashed) -> Hashed {
    let (last, count) = hashed;
    match leaf {
        Leaf::Plain { bytes, .. } => {
            let salt = leaf_salt(kind, &last);
            let hash = leaf_hash(kind, &salt, bytes.as_slice());
            (hash, count.saturating_add(2))
        }
        Leaf::Blind(_) => hashed,
    }
}

/// Makes the hashes of some vertices and of their leaves, as if one vertex stood below each.
fn hash_beside(vertices: &VertexList, hashed: Hashed) -> Hashed {
    let mut hashed = hashed;
    for vertex in vertices.as_slice() {
        if let Vertex::Inner {
            informees,
            contents,
            ..
        } = vertex
        {
            let leaves = hash_leaf(4, contents, hash_leaf(3, informees, hashed));
            let hash = view_hash(&leaves.0, &leaves.0, &[leaves.0]);
            hashed = (hash, leaves.1.saturating_add(1));
        }
    }
    hashed
}

/// Hashes the leaves and the vertices of a tree whose vertices stand two deep, as those of a transfer, from a first seed on.
fn hash_tree(tree: &Tree, seed: Hash) -> Hashed {
    let common = hash_leaf(1, &tree.common, (seed, 0));
    let mut hashed = hash_beside(&tree.views, hash_leaf(2, &tree.requesters, common));
    for vertex in tree.views.as_slice() {
        if let Vertex::Inner { subviews, .. } = vertex {
            hashed = hash_beside(subviews, hashed);
        }
    }
    hashed
}

/// The tree of the sender of a transfer, which shows every leaf.
fn senders_tree(alloc: Global, transfer: &Transfer, out: &mut Answer) -> Option<Tree> {
    let request = transfer.request(alloc, out)?;
    let bytes = envelope_of(&request, request.sender)?;
    decode_tree(alloc, bytes.as_slice()).ok()
}

/// The seeds of a transfer's transaction and of its two actions, and the id of its contract.
fn hash_seeds(transfer: &Transfer, submission: &Submission) -> Hash {
    let root = match transfer.script.topology.host(submission.participant) {
        Some(host) => root_seed(host.name, submission.command),
        None => Hash([0; 32]),
    };
    let first = child_seed(&root, 0);
    contract_id_of_bytes(&child_seed(&first, 0), &INSTANCE)
}

/// Hashes strings as long as those of a transfer's request alone, so often. Puts at the end how many there were.
pub(crate) fn put_strings(alloc: Global, transfer: &Transfer, count: u64, out: &mut Answer) {
    let (Some(tree), Some(submission)) = (senders_tree(alloc, transfer, out), transfer.submission())
    else {
        return out.line(&["no tree"]);
    };
    let mut hashes = 0u64;
    for _ in 0..count {
        let (_, made) = hash_tree(&tree, hash_seeds(transfer, submission));
        hashes = hashes.saturating_add(made).saturating_add(4);
    }
    out.number(hashes);
    out.put(" hashes alone\n");
}
