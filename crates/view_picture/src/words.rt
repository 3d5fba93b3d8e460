//! The words of a picture.
use ledger_terms::{Action, Hash, PartySet, Path, Text};
use report_text::{put_action, put_names, put_path};
use std::alloc::{AllocError, Global};

/// How many bytes of a hash are printed.
const SHORT_HASH: usize = 4;

/// The text of an action, as a report has it.
pub(crate) fn action_text(alloc: Global, action: &Action) -> Result<Text, AllocError> {
    let mut out = String::new(alloc);
    put_action(&mut out, action)?;
    Ok(Text::of_string(out))
}

/// The line that says which view a box is, with the informees and the confirmers.
pub(crate) fn view_text(
    alloc: Global,
    path: &Path,
    informees: &PartySet,
    confirmers: &PartySet,
) -> Result<Text, AllocError> {
    let mut out = String::from_str(alloc, "view ")?;
    put_path(&mut out, path)?;
    put_parties(&mut out, ": informees ", informees)?;
    put_parties(&mut out, "; confirmers ", confirmers)?;
    Ok(Text::of_string(out))
}

/// The line of a view that isn't shown: its path, and `what` behind it, as `, blinded`.
pub(crate) fn blind_text(alloc: Global, path: &Path, what: &str) -> Result<Text, AllocError> {
    let mut out = String::from_str(alloc, "view ")?;
    put_path(&mut out, path)?;
    out.push_str(what)?;
    Ok(Text::of_string(out))
}

/// A line that stands in the place of what isn't shown: `what`, which names it, and its hash.
pub(crate) fn hash_line(alloc: Global, what: &str, hash: &Hash) -> Result<Text, AllocError> {
    let mut out = String::from_str(alloc, what)?;
    put_hash(alloc, &mut out, hash)?;
    Ok(Text::of_string(out))
}

/// Puts the first eight digits of a hash and two points at the end of `out`.
pub(crate) fn put_hash(alloc: Global, out: &mut String, hash: &Hash) -> Result<(), AllocError> {
    let digits = hex::encode(alloc, &hash.as_bytes()[..SHORT_HASH])?;
    out.push_str(digits.as_str())?;
    out.push_str("..")
}

/// Puts `word` and the names of parties at the end of `out`.
pub(crate) fn put_parties(
    out: &mut String,
    word: &str,
    parties: &PartySet,
) -> Result<(), AllocError> {
    out.push_str(word)?;
    put_names(out, parties.as_slice())
}
