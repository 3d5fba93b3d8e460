//! Merkle trees as bytes.
ghost use Rattle.blind_tree.specs.Vertices.{IsNarrow};

use crate::answer::Answer;
use crate::form::case::put_fault;
use blind_tree::{Tree, decode_tree, encode_tree, informee_tree, is_spellable, opened, root_of};
use std::alloc::Global;

/// Puts what is read of the bytes of a tree at the end: its root hash, whether a participant and the mediator can read it, and its
/// spelling.
pub(crate) fn put_tree(alloc: Global, bytes: &[u8], out: &mut Answer) {
    match decode_tree(alloc, bytes) {
        Ok(tree) => put_read(alloc, &tree, out),
        Err(fault) => put_fault(&fault, out),
    }
    out.put("\n");
}

fn put_read(alloc: Global, tree: &Tree, out: &mut Answer) {
    if !is_spellable(tree) {
        return out.put("has no spelling");
    }
    put_root(alloc, tree, out);
    put_opened(alloc, tree, out);
    put_told(alloc, tree, out);
    put_spelled(alloc, tree, out);
}

fn put_root(alloc: Global, tree: &Tree, out: &mut Answer)
    requires { IsNarrow tree.now.views }
{
    out.put("root ");
    match root_of(alloc, tree) {
        Ok(root) => out.digits(root.as_bytes()),
        Err(_) => out.lack(),
    }
}

/// Puts how many views are opened to a participant at the end, or the place of the fault.
fn put_opened(alloc: Global, tree: &Tree, out: &mut Answer)
    requires { IsNarrow tree.now.views }
{
    out.put(" opened ");
    match opened(alloc, tree) {
        Ok(opened) => put_count(opened.views.len(), out),
        Err(fault) => put_fault(&fault, out),
    }
}

/// Puts of how many views the mediator reads the informees at the end, or the place of the fault.
fn put_told(alloc: Global, tree: &Tree, out: &mut Answer)
    requires { IsNarrow tree.now.views }
{
    out.put(" told ");
    match informee_tree(alloc, tree) {
        Ok(roles) => put_count(roles.views.len(), out),
        Err(fault) => put_fault(&fault, out),
    }
}

fn put_count(views: usize, out: &mut Answer) {
    out.number(views as u64);
    out.put(" views");
}

fn put_spelled(alloc: Global, tree: &Tree, out: &mut Answer) {
    out.put(" spelled ");
    match encode_tree(alloc, tree) {
        Ok(bytes) => out.digits(bytes.as_slice()),
        Err(_) => out.lack(),
    }
}
