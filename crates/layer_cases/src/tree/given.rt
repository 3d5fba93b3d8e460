//! What the recipients of a request get of it.
ghost use Rattle.blind_tree.specs.Vertices.{IsNarrow};

use crate::answer::Answer;
use crate::tree::opened::put_opened;
use crate::tree::told::put_told;
use blind_tree::{Tree, TreeList, decode_tree, encode_tree, is_spellable, root_of, verify};
use canton_model::Request;
use ledger_terms::{Hash, ParticipantId, Topology};
use proto_model::envelope_of;
use std::alloc::Global;

/// A request, with the topology of those who take part. An index is that of a participant; the one behind them is the mediator's.
#[derive(Clone, Copy)]
pub(crate) struct Sent<'a> {
    pub(crate) topology: &'a Topology,
    pub(crate) request: &'a Request,
}

impl<'a> Sent<'a> {
    /// The name of who has this index.
    fn name(&self, at: u8) -> &'a str {
        match self.topology.hosts.get(at as usize) {
            Some(host) => host.name.as_str(),
            None => "mediator",
        }
    }

    /// The bytes that the request has for who has this index. None: it has no envelope for that participant.
    fn bytes(&self, at: u8) -> Option<&'a [u8]> {
        if at as usize >= self.topology.hosts.len() {
            return Some(self.request.mediator.as_slice());
        }
        let bytes = envelope_of(self.request, ParticipantId(at))?;
        Some(bytes.as_slice())
    }
}

/// Puts the trees of the participants and of the mediator at the end, with what the request has for each.
pub(crate) fn put_recipients(alloc: Global, sent: Sent<'_>, trees: &TreeList, out: &mut Answer) {
    let mut at = 0u8;
    for tree in trees.as_slice() {
        if is_spellable(tree) {
            put_recipient(alloc, sent, at, tree, out);
        } else {
            out.line(&["no envelope", sent.name(at)]);
        }
        at = at.saturating_add(1);
    }
}

/// Puts at the end the root hash and the bytes of a tree, whether these are decoded to a tree of that root, whether the request has
/// them too, and what is read of them.
fn put_recipient(alloc: Global, sent: Sent<'_>, at: u8, tree: &Tree, out: &mut Answer)
    requires { IsNarrow tree.now.views }
{
    let name = sent.name(at);
    put_bytes(alloc, name, sent.bytes(at), tree, out);
    if at as usize >= sent.topology.hosts.len() {
        put_told(alloc, sent, out);
    } else {
        put_opened(alloc, name, tree, out);
    }
}

fn put_bytes(alloc: Global, name: &str, sent: Option<&[u8]>, tree: &Tree, out: &mut Answer)
    requires { IsNarrow tree.now.views }
{
    let Ok(root) = root_of(alloc, tree) else {
        return out.lack();
    };
    let Ok(bytes) = encode_tree(alloc, tree) else {
        return out.lack();
    };
    out.put("envelope ");
    out.put(name);
    out.put(" ");
    out.digits(root.as_bytes());
    out.put(" ");
    out.digits(bytes.as_slice());
    out.put("\ndecoded ");
    put_decoded(alloc, name, &root, bytes.as_slice(), out);
    match sent {
        Some(sent) if sent == bytes.as_slice() => out.line(&["sent", name]),
        Some(_) => out.line(&["sent else", name]),
        None => out.line(&["not sent", name]),
    }
}

/// Puts a name at the end of a line, and whether bytes are those of a tree with this root.
fn put_decoded(alloc: Global, name: &str, root: &Hash, bytes: &[u8], out: &mut Answer) {
    match decode_tree(alloc, bytes) {
        Ok(tree) if is_spellable(&tree) => out.truth(name, verify(alloc, &tree, root)),
        _ => out.line(&[name, "no"]),
    }
}
