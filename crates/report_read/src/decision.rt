//! Decisions and outcomes.
use crate::expected::Expected;
use crate::hosts::Hosts;
use crate::words::{Words, is_path};
use ledger_terms::limits::MOST_PARTICIPANTS;

/// How a request ended, or didn't.
#[derive(Clone, Copy, PartialEq, Eq)]
pub enum Ending {
    Approved,
    Rejected,
    TimedOut,
    Expired,
    Undecided,
}

/// How a request ended, with the words of the report, which name who rejected it and why, or who was missing.
#[derive(Clone, Copy)]
pub struct Decision<'t> {
    pub ending: Ending,
    pub words: &'t str,
}

/// Why a view is rejected: the words of the local checks.
const REASONS: [&str; 13] = [
    "IdMismatch",
    "NotVetted",
    "TimeSkew",
    "Locked",
    "Inactive",
    "NotFresh",
    "Unordered",
    "NotConformant",
    "NotAuthorised",
    "RootMismatch",
    "ViewMissing",
    "WrongSender",
    "WrongCommon",
];

/// Whether a word is the reason of a rejection.
pub(crate) fn is_reason(word: &str) -> bool {
    REASONS.iter().any(|reason| *reason == word)
}

/// The decision that the words behind `verdict for J` or `outcome K` say. Only an outcome may be expired or undecided. The Err is what was expected.
pub(crate) fn read_decision<'t>(
    words: &'t str,
    hosts: &Hosts<'t>,
    is_outcome: bool,
) -> Result<Decision<'t>, Expected> {
    let mut parts = Words::of(words);
    let ending = match parts.next() {
        Some("approved") => Ending::Approved,
        Some("rejected") => {
            read_rejection(&mut parts, hosts)?;
            Ending::Rejected
        }
        Some("timeout") => {
            read_missing(&mut parts, hosts)?;
            Ending::TimedOut
        }
        Some("expired") if is_outcome => Ending::Expired,
        Some("undecided") if is_outcome => Ending::Undecided,
        _ => return Err(Expected::Decision),
    };
    parts.end()?;
    Ok(Decision { ending, words })
}

/// Takes who rejects, which view, and why; they only have to be well formed.
fn read_rejection<'t>(parts: &mut Words<'t>, hosts: &Hosts<'t>) -> Result<(), Expected> {
    parts.participant(hosts)?;
    match (parts.next(), parts.next()) {
        (Some(path), Some(reason)) if is_path(path) && is_reason(reason) => Ok(()),
        _ => Err(Expected::Decision),
    }
}

/// Takes the names of the participants whose response was missing.
fn read_missing<'t>(parts: &mut Words<'t>, hosts: &Hosts<'t>) -> Result<(), Expected> {
    for _ in 0..MOST_PARTICIPANTS {
        match parts.next() {
            None => break,
            Some(name) if hosts.lane_of(name).is_some() => {}
            Some(_) => return Err(Expected::Participant),
        }
    }
    Ok(())
}
