//! The lines of each two participants.
ghost use Rattle.std.specs.Prelude.{◌≡◌, ◌++◌, map, OnOk, string_bytes};
ghost use Rattle.std.specs.List.{flat_map};
ghost use Rattle.framed_form.specs.FramedReading.{framed_reading};
ghost use Rattle.commitment_text.specs.Asked.{counterparty_of};
ghost use Rattle.commitment_text.specs.Commitments.{agreement, agreement_text, base_of, counts_text, pair_at, pair_text, pairs_text, place_of};
ghost use Rattle.commitment_text.specs.Commitments.{place_text, pruned_text, shared_text};

use crate::asked_node::AskedNode;
use acs_commit::CommitTree;
use confirm_reply::Setup;
use ledger_terms::HashList;
use std::alloc::{AllocError, Global};

fn put_first(out: &mut String, first: Option<u8>) -> Result<(), AllocError>
    ensures { OnOk result (string_bytes out.new ≡ string_bytes out.old ++ agreement_text first) }
{
    match first {
        None => out.push_str("equal"),
        Some(bucket) => write!(out, "differ {bucket}"),
    }
}

// Puts whether two lists of ids have one root, and else the first bucket whose hashes differ.
fn put_agreement(out: &mut String, mine: &HashList, theirs: &HashList) -> Result<(), AllocError>
    ensures { OnOk result (string_bytes out.new ≡ string_bytes out.old ++ agreement mine.now theirs.now) }
{
    let alloc = *mine.allocator();
    let mine = CommitTree::of(alloc, mine)?;
    let theirs = CommitTree::of(alloc, theirs)?;
    put_first(out, CommitTree::differs(&mine, &theirs))
}

fn put_place(
    out: &mut String,
    one: &AskedNode<'_, '_>,
    other: &AskedNode<'_, '_>,
    place: u64,
) -> Result<(), AllocError>
    ensures { OnOk result (string_bytes out.new ≡ string_bytes out.old ++ place_text one.now.name other.now.name place) }
{
    let (one, other) = (one.name(), other.name());
    let one = one.as_str();
    let other = other.as_str();
    write!(out, "pair {one} {other} at {place}")
}

fn put_counts(out: &mut String, mine: usize, theirs: usize) -> Result<(), AllocError>
    ensures { OnOk result (string_bytes out.new ≡ string_bytes out.old ++ counts_text mine theirs) }
{
    write!(out, " count {mine} {theirs} ")
}

// Puts what each of two participants shares with the other behind their names and a place.
fn put_shared(out: &mut String, mine: &HashList, theirs: &HashList) -> Result<(), AllocError>
    ensures { OnOk result (string_bytes out.new ≡ string_bytes out.old ++ shared_text mine.now theirs.now) }
{
    put_counts(out, mine.len(), theirs.len())?;
    put_agreement(out, mine, theirs)?;
    out.push_str("\n")
}

// The lesser of both clean places.
fn place_of(one: &AskedNode<'_, '_>, other: &AskedNode<'_, '_>) -> u64
    ensures { result ≡ place_of (counterparty_of one.now) (counterparty_of other.now) }
{
    one.clean().min(other.clean())
}

// The greater of both bases.
fn base_of(one: &AskedNode<'_, '_>, other: &AskedNode<'_, '_>) -> u64
    ensures { result ≡ base_of (counterparty_of one.now) (counterparty_of other.now) }
{
    one.base().max(other.base())
}

// Puts that one of two participants has forgotten the place at which they would be compared.
fn put_pruned(
    out: &mut String,
    one: &AskedNode<'_, '_>,
    other: &AskedNode<'_, '_>,
    base: u64,
) -> Result<(), AllocError>
    ensures { OnOk result (string_bytes out.new ≡ string_bytes out.old ++ pruned_text one.now.name other.now.name base) }
{
    let (one, other) = (one.name(), other.name());
    let one = one.as_str();
    let other = other.as_str();
    write!(out, "pair {one} {other} pruned {base}\n")
}

// Puts what two participants share at a place.
fn put_pair_at(
    alloc: Global,
    out: &mut String,
    setup: &Setup,
    one: &AskedNode<'_, '_>,
    other: &AskedNode<'_, '_>,
    place: u64,
) -> Result<(), AllocError>
    ensures { OnOk result (string_bytes out.new ≡ string_bytes out.old
        ++ pair_at (framed_reading setup.now.topology setup.now.checked) (counterparty_of one.now) (counterparty_of other.now) place) }
{
    let mine = one.ids_shared(alloc, setup, other, place)?;
    let theirs = other.ids_shared(alloc, setup, one, place)?;
    put_place(out, one, other, place)?;
    put_shared(out, &mine, &theirs)
}

fn put_pair(
    alloc: Global,
    out: &mut String,
    setup: &Setup,
    one: &AskedNode<'_, '_>,
    other: &AskedNode<'_, '_>,
) -> Result<(), AllocError>
    ensures { OnOk result (string_bytes out.new ≡ string_bytes out.old
        ++ pair_text (framed_reading setup.now.topology setup.now.checked) (counterparty_of one.now) (counterparty_of other.now)) }
{
    let place = place_of(one, other);
    let base = base_of(one, other);
    if place < base {
        return put_pruned(out, one, other, base);
    }
    put_pair_at(alloc, out, setup, one, other, place)
}

fn put_pairs_with(
    alloc: Global,
    out: &mut String,
    setup: &Setup,
    one: &AskedNode<'_, '_>,
    others: &[AskedNode<'_, '_>],
) -> Result<(), AllocError>
    ensures { OnOk result (string_bytes out.new ≡ string_bytes out.old
        ++ flat_map (pair_text (framed_reading setup.now.topology setup.now.checked) (counterparty_of one.now)) (map counterparty_of others.now)) }
{
    'others: for other in others {
        put_pair(alloc, out, setup, one, other)?;
    }
    Ok(())
}

/// Puts the line of each two of the participants, in their order, at the end of `out`.
pub(crate) fn put_pairs(
    alloc: Global,
    out: &mut String,
    setup: &Setup,
    all: &[AskedNode<'_, '_>],
) -> Result<(), AllocError>
    ensures { OnOk result (string_bytes out.new ≡ string_bytes out.old
        ++ pairs_text (framed_reading setup.now.topology setup.now.checked) (map counterparty_of all.now)) }
{
    'all: for (at, one) in all.iter().enumerate() {
        put_pairs_with(alloc, out, setup, one, &all[at + 1..])?;
    }
    Ok(())
}
