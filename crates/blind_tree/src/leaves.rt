//! Reading the bytes of leaves.
ghost use Rattle.ledger_terms.specs.Answers.{Follows};
ghost use Rattle.wire_form.specs.Formats.{Gives};
ghost use Rattle.wire_form.specs.declared.wire_fault.WireFault.TheVariants as WireFault;
ghost use Rattle.blind_tree.specs.Opening.{head_at, is_open, leaf_length, read_if_plain, read_leaf, roles_at};
ghost use Rattle.blind_tree.specs.Reading.{read_all};
ghost use Rattle.wire_form.specs.Reading.{set_at};
ghost use Rattle.std.specs.Prelude.{◌≡◌};

use crate::decode::finish;
use crate::leaf::Leaf;
use ledger_terms::{Bytes, Name, PartySet};
use std::alloc::Global;
use wire_form::{Reader, ReaderFault, WireFault};

/// The sender's name and the ledger time, in microseconds, that a common leaf shows. Err where the leaf is blind, at place 0, or where its bytes
/// aren't one spelling of both, at the place of the first byte that can't be read.
pub fn read_head(leaf: &Leaf) -> Result<(Name, u64), WireFault>
    ensures { Follows WireFault.Memory result (read_leaf head_at leaf.now) }
{
    match leaf {
        Leaf::Blind(_) => Err(WireFault::Bad { at: 0 }),
        Leaf::Plain { bytes, .. } => {
            let mut reader = Reader::new(bytes.as_slice());
            let read = head(&mut reader);
            finish(read, bytes.len(), reader.len())
        }
    }
}

#[tactic(auto, unfolding(crate::specs::Opening::head_at))]
fn head(reader: &mut Reader<'_>) -> Result<(Name, u64), ReaderFault>
    ensures { Gives (λ x. (x, reader.new)) result (head_at reader.old) }
{
    let sender = reader.name()?;
    let ledger_time = reader.u64()?;
    Ok((sender, ledger_time))
}

/// Informees and confirmers of an informees leaf.
pub(crate) fn read_roles(alloc: Global, leaf: &Leaf) -> Result<(PartySet, PartySet), WireFault>
    ensures { Follows WireFault.Memory result (read_leaf roles_at leaf.now) }
{
    match leaf {
        Leaf::Blind(_) => Err(WireFault::Bad { at: 0 }),
        Leaf::Plain { bytes, .. } => {
            let mut reader = Reader::new(bytes.as_slice());
            let read = roles(&mut reader, alloc);
            finish(read, bytes.len(), reader.len())
        }
    }
}

#[tactic(auto, unfolding(crate::specs::Opening::roles_at))]
fn roles(reader: &mut Reader<'_>, alloc: Global) -> Result<(PartySet, PartySet), ReaderFault>
    ensures { Gives (λ x. (x, reader.new)) result (roles_at reader.old) }
{
    let informees = reader.parties(alloc)?;
    let confirmers = reader.parties(alloc)?;
    Ok((informees, confirmers))
}

/// The requesters, where their leaf is plain.
pub(crate) fn read_requesters(alloc: Global, leaf: &Leaf) -> Result<Option<PartySet>, WireFault>
    ensures { Follows WireFault.Memory result (read_if_plain set_at leaf.now) }
{
    match leaf {
        Leaf::Blind(_) => Ok(None),
        Leaf::Plain { bytes, .. } => Ok(Some(read_set(alloc, bytes)?)),
    }
}

pub(crate) fn read_set(alloc: Global, bytes: &Bytes) -> Result<PartySet, WireFault>
    ensures { Follows WireFault.Memory result (read_all set_at bytes.now) }
{
    let mut reader = Reader::new(bytes.as_slice());
    let read = reader.parties(alloc);
    finish(read, bytes.len(), reader.len())
}

/// Whether both leaves of a vertex are plain.
pub(crate) fn are_plain(informees: &Leaf, contents: &Leaf) -> bool
    ensures { result ≡ is_open informees.now contents.now }
{
    match (informees, contents) {
        (Leaf::Plain { .. }, Leaf::Plain { .. }) => true,
        (Leaf::Plain { .. }, Leaf::Blind(_)) => false,
        (Leaf::Blind(_), _) => false,
    }
}

/// The number of the bytes of a leaf that are shown.
pub(crate) fn shown_len(leaf: &Leaf) -> usize
    ensures { result ≡ leaf_length leaf.now }
{
    match leaf {
        Leaf::Blind(_) => 0,
        Leaf::Plain { bytes, .. } => bytes.len(),
    }
}
