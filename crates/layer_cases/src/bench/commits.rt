//! Trees of commitments.
use crate::answer::Answer;
use acs_commit::CommitTree;
use hash_id::contract_id_of_bytes;
use ledger_terms::Hash;
use std::alloc::{AllocError, Global};

/// Adds so many ids, each the hash of the one before, and asks for the root after each. The result is the last root.
fn add_each(tree: &mut CommitTree, count: u64) -> Result<Hash, AllocError> {
    let mut id = Hash([0; 32]);
    let mut root = tree.root();
    for _ in 0..count {
        id = contract_id_of_bytes(&id, &[]);
        let _ = tree.add(&id)?;
        root = tree.root();
    }
    Ok(root)
}

/// Takes the same ids out again, and asks for the root after each. The result is the last root.
fn remove_each(tree: &mut CommitTree, count: u64) -> Hash {
    let mut id = Hash([0; 32]);
    let mut root = tree.root();
    for _ in 0..count {
        id = contract_id_of_bytes(&id, &[]);
        let _ = tree.remove(&id);
        root = tree.root();
    }
    root
}

/// The last root of a tree to which so many ids were added, and the last one after they were taken out.
fn roots_of(alloc: Global, count: u64) -> Result<(Hash, Hash), AllocError> {
    let mut tree = CommitTree::new(alloc)?;
    let full = add_each(&mut tree, count)?;
    Ok((full, remove_each(&mut tree, count)))
}

/// Puts the last root of a tree to which so many ids were added at the end, and the last one after they were taken out again.
pub(crate) fn put_commits(alloc: Global, count: u64, out: &mut Answer) {
    let Ok((full, empty)) = roots_of(alloc, count) else {
        return out.lack();
    };
    out.digits(full.as_bytes());
    out.put(" ");
    out.digits(empty.as_bytes());
    out.put("\n");
}
