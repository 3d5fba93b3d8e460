//! What is told of a request as a whole.
use crate::disclosure::Disclosure;
use crate::words::{put_hash, put_parties};
use blind_tree::{Leaf, OpenedTree};
use ledger_terms::{Name, Text};
use report_text::put_number;
use std::alloc::{AllocError, Global};

/// The line about a request as a whole: the sender and the ledger time as an envelope tells them, or the sender alone as the mediator is told it;
/// then the requesters, or the hash of their leaf where no envelope shows it.
pub(crate) fn told_text(alloc: Global, disclosure: &Disclosure) -> Result<Text, AllocError> {
    let mut out = String::new(alloc);
    if let Some(part) = disclosure.opened.get(0) {
        put_head(&mut out, part)?;
    } else if let Some(told) = &disclosure.roles {
        put_sender(&mut out, told.sender)?;
    }
    put_requesters(alloc, disclosure, &mut out)?;
    Ok(Text::of_string(out))
}

fn put_sender(out: &mut String, sender: Name) -> Result<(), AllocError> {
    out.push_str("sender ")?;
    out.push_str(sender.as_str())?;
    out.push_str(", ")
}

fn put_head(out: &mut String, part: &OpenedTree) -> Result<(), AllocError> {
    put_sender(out, part.sender)?;
    out.push_str("ledger time ")?;
    put_number(out, part.ledger_time)?;
    out.push_str(", ")
}

/// Puts the requesters, or the hash of their leaf where it isn't shown.
fn put_requesters(
    alloc: Global,
    disclosure: &Disclosure,
    out: &mut String,
) -> Result<(), AllocError> {
    match (disclosure.requesters(), &disclosure.tree.requesters) {
        (Some(parties), _) => put_parties(out, "requesters ", parties),
        (None, Leaf::Blind(hash)) => {
            out.push_str("requesters: hash ")?;
            put_hash(alloc, out, hash)
        }
        (None, Leaf::Plain { .. }) => Ok(()),
    }
}
