//! What is opened of bytes that anybody may have made.
use crate::answer::Answer;
use crate::check::paths_of;
use crate::tree::put_tree;
use crate::words::Words;
use blind_tree::{OpenedFor, opened_for};
use ledger_terms::{Hash, PathList};
use std::alloc::{AllocError, Global};
use view_split::ViewList;

/// What is asked of the bytes of an envelope: the hash of their tree, the paths of the views, and whether the requesters are to be told.
#[derive(Drop)]
struct Asked {
    root: Hash,
    seen: PathList,
    requesters: bool,
}

/// Puts at the end what bytes open to who sees some views. The words are the hash of the tree, the paths of these views or `-` where there are none,
/// `yes` where the requesters are asked for, and the bytes.
pub(crate) fn put_opening(alloc: Global, mut words: Words<'_>, out: &mut Answer) {
    let root = words.next();
    let paths = words.next();
    let requesters = words.next() == "yes";
    let (Some(root), Ok(bytes)) = (hash_of(alloc, root), hex::decode(alloc, words.rest())) else {
        return out.line(&["no bytes"]);
    };
    match seen_of(alloc, paths) {
        Ok(seen) => {
            let asked = Asked {
                root,
                seen,
                requesters,
            };
            put_opened(alloc, &asked, bytes.as_slice(), out)
        }
        Err(_) => out.lack(),
    }
}

/// The hash that 64 hexadecimal digits spell. None: they spell none, or memory is wanting.
pub(crate) fn hash_of(alloc: Global, digits: &str) -> Option<Hash> {
    let bytes = hex::decode(alloc, digits).ok()?;
    if bytes.len() != 32 {
        return None;
    }
    let mut hash = [0u8; 32];
    hash.copy_from_slice(bytes.as_slice());
    Some(Hash(hash))
}

fn seen_of(alloc: Global, paths: &str) -> Result<PathList, AllocError> {
    if paths == "-" {
        return Ok(PathList::new(alloc));
    }
    paths_of(alloc, paths)
}

fn put_opened(alloc: Global, asked: &Asked, bytes: &[u8], out: &mut Answer) {
    match opened_for(alloc, bytes, &asked.root, &asked.seen, asked.requesters) {
        Ok(OpenedFor::Mismatch) => out.line(&["mismatch"]),
        Ok(OpenedFor::Missing) => out.line(&["missing"]),
        Ok(OpenedFor::Open(opened)) => {
            out.put("open");
            put_tree(&opened, out);
            for placed in opened.views.as_slice() {
                put_below(&placed.view.below, out);
            }
        }
        Err(_) => out.lack(),
    }
}

/// Puts a line of each of these views and of those below them at the end: its informees and its confirmers.
fn put_below(views: &ViewList, out: &mut Answer) {
    for view in views.as_slice() {
        out.put("below ");
        out.names(view.root.informees.as_slice());
        out.put(" ");
        out.names(view.root.confirmers.as_slice());
        out.put("\n");
        put_below(&view.below, out);
    }
}
