//! What the tree of a participant opens.
ghost use Rattle.blind_tree.specs.Vertices.{IsNarrow};

use crate::answer::Answer;
use blind_tree::{OpenedTree, PlacedView, Tree, opened};
use std::alloc::Global;
use wire_form::WireFault;

/// Puts the name of a participant at the end, and what its tree opens: the sender, the ledger time, the requesters where they are
/// shown, and the views.
pub(crate) fn put_opened(alloc: Global, name: &str, tree: &Tree, out: &mut Answer)
    requires { IsNarrow tree.now.views }
{
    out.put("opened ");
    out.put(name);
    match opened(alloc, tree) {
        Ok(opened) => put_tree(&opened, out),
        Err(WireFault::Bad { .. }) => out.line(&[" nothing"]),
        Err(WireFault::Memory) => out.lack(),
    }
}

/// Puts at the end of a line the sender, the ledger time and the requesters that were opened, and below it a line for each view.
pub(crate) fn put_tree(opened: &OpenedTree, out: &mut Answer) {
    out.put(" ");
    out.put(opened.sender.as_str());
    out.put(" ");
    out.number(opened.ledger_time);
    out.put(" ");
    match &opened.requesters {
        Some(parties) => out.names(parties.as_slice()),
        None => out.put("hidden"),
    }
    out.put("\n");
    for placed in opened.views.as_slice() {
        put_view(placed, out);
    }
}

/// Puts a line of a view at the end: its path, its informees and its confirmers.
fn put_view(placed: &PlacedView, out: &mut Answer) {
    out.put("opens ");
    out.path(&placed.path);
    out.put(" ");
    out.names(placed.view.root.informees.as_slice());
    out.put(" ");
    out.names(placed.view.root.confirmers.as_slice());
    out.put("\n");
}
