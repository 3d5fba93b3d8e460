//! Trees of commitments.
use crate::answer::Answer;
use crate::form::openings::hash_of;
use crate::words::Words;
use acs_commit::CommitTree;
use std::alloc::{AllocError, Global};

/// Puts what each call of a tree answers at the end, and its root after the last. A call is an id behind a plus, which is added, or behind a
/// minus, which is taken out.
pub(crate) fn put_calls(alloc: Global, words: Words<'_>, out: &mut Answer) {
    match tree_after(alloc, words.rest(), out) {
        Ok(tree) => {
            out.digits(tree.root().as_bytes());
            out.put("\n");
        }
        Err(_) => out.lack(),
    }
}

/// The tree after all calls. Puts yes or no for each at the end.
fn tree_after(alloc: Global, calls: &str, out: &mut Answer) -> Result<CommitTree, AllocError> {
    let mut tree = CommitTree::new(alloc)?;
    for call in calls.split(' ') {
        if does(alloc, &mut tree, call)? {
            out.put("yes ");
        } else {
            out.put("no ");
        }
    }
    Ok(tree)
}

/// Whether a call changed the tree: its id wasn't there and was added, or was there and was taken out.
fn does(alloc: Global, tree: &mut CommitTree, call: &str) -> Result<bool, AllocError> {
    if let Some(digits) = call.strip_prefix("+") {
        return match hash_of(alloc, digits) {
            Some(id) => tree.add(&id),
            None => Ok(false),
        };
    }
    let Some(digits) = call.strip_prefix("-") else {
        return Ok(false);
    };
    match hash_of(alloc, digits) {
        Some(id) => Ok(tree.remove(&id)),
        None => Ok(false),
    }
}

/// Puts the first bucket in which the trees of two sets of ids differ at the end, where they do.
pub(crate) fn put_difference(alloc: Global, mut words: Words<'_>, out: &mut Answer) {
    let mine = words.next();
    match difference(alloc, mine, words.rest()) {
        Ok(Some(bucket)) => {
            out.put("differ ");
            out.number(bucket as u64);
            out.put("\n");
        }
        Ok(None) => out.line(&["equal"]),
        Err(_) => out.lack(),
    }
}

/// The first bucket in which the trees of two sets of ids differ. None: they have one root.
fn difference(alloc: Global, mine: &str, theirs: &str) -> Result<Option<u8>, AllocError> {
    let mine = tree_of(alloc, mine)?;
    let theirs = tree_of(alloc, theirs)?;
    Ok(CommitTree::differs(&mine, &theirs))
}

/// The tree of the ids with commas between them.
fn tree_of(alloc: Global, ids: &str) -> Result<CommitTree, AllocError> {
    let mut tree = CommitTree::new(alloc)?;
    for digits in ids.split(',') {
        if let Some(id) = hash_of(alloc, digits) {
            let _ = tree.add(&id)?;
        }
    }
    Ok(tree)
}
