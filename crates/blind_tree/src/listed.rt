//! The paths of the views that a participant sees, as a tree is walked.
ghost use Rattle.std.specs.Prelude.{◌≡◌, ◌<◌, ◌++◌, true, false, length};
ghost use Rattle.ledger_terms.specs.Parties.{name_below, stands_above, IsRising};
ghost use Rattle.blind_tree.specs.OpenedFor.{is_listed};

use ledger_terms::{Path, PathList};
use std::marker::Model;

/// Paths that are asked for one after another, as a tree is walked from the left. Where they rise, the walk comes to them in their
/// own order: each answer then takes a few comparisons, however many paths there are.
#[derive(Drop)]
pub(crate) struct Listed<'a> {
    paths: &'a [Path],
    rises: bool,
    next: usize,
}

impl<'a> Model for Listed<'a> {
    ghost use Rattle.std.specs.Prelude.{◌≡◌, true, List, ℕ};
    ghost use Rattle.ledger_terms.specs.Parties.{IsRising};

    ghost Value = { List (List ℕ) };

    ghost view = { λ l. l.paths.now };

    ghost invariant = { λ l. l.rises ≡ true → IsRising l.paths.now };
}

impl<'a> Listed<'a> {
    pub(crate) fn new(paths: &'a PathList) -> Listed<'a>
        ensures { result ≡ paths.now }
    {
        let paths = paths.as_slice();
        Listed {
            paths,
            rises: rises(paths),
            next: 0,
        }
    }

    /// Whether the path is listed.
    pub(crate) fn has(&mut self, path: &Path) -> bool
        ensures answer { result ≡ is_listed self.old path.now }
        ensures kept { self.new ≡ self.old }
    {
        if is_at(self.paths, self.next, path) {
            self.next += 1;
            return true;
        }
        if self.rises && is_between(self.paths, self.next, path) {
            return false;
        }
        is_among(self.paths, path)
    }
}

fn is_among(paths: &[Path], path: &Path) -> bool
    ensures { result ≡ is_listed paths.now path.now }
{
    paths.iter().any(|listed| listed == path)
}

fn is_at(paths: &[Path], at: usize, path: &Path) -> bool
    ensures there { result ≡ true → is_listed paths.now path.now ≡ true }
    ensures within { result ≡ true → at < length paths.now }
{
    at < paths.len() && *path == paths[at]
}

// Whether the path stands between those before a place and those from there on: a rising list hasn't got it then.
fn is_between(paths: &[Path], at: usize, path: &Path) -> bool
    ensures { result ≡ true → IsRising paths.now → is_listed paths.now path.now ≡ false }
{
    if at > paths.len() {
        return false;
    }
    let (passed, coming) = paths.split_at(at);
    is_above(passed, path) && is_below_all(path, coming)
}

fn is_below_all(path: &Path, coming: &[Path]) -> bool
    ensures { result ≡ true → IsRising coming.now → is_listed coming.now path.now ≡ false }
{
    match coming {
        [] => true,
        [first, ..] => is_below(path.as_slice(), first.as_slice()),
    }
}

#[tactic(auto, using(ledger_terms::proofs::Rising::above_last))]
fn is_above(passed: &[Path], path: &Path) -> bool
    ensures { result ≡ stands_above passed.now path.now }
{
    match passed.last() {
        Some(last) => is_below(last.as_slice(), path.as_slice()),
        None => true,
    }
}

fn is_below(path: &[u16], other: &[u16]) -> bool
    ensures { result ≡ name_below path.now other.now }
{
    path.cmp(other).is_lt()
}

fn rises(paths: &[Path]) -> bool
    ensures { result ≡ true → IsRising paths.now }
{
    for at in 0..paths.len() {
        if !is_above(&paths[..at], &paths[at]) {
            return false;
        }
    }
    true
}
