//! Cases.
use crate::answer::Answer;
use crate::tree::raws::put_raw;
use crate::tree::script::script_in;
use crate::tree::submissions::put_submission;
use crate::words::Words;
use consist::find_inconsistent;
use fixtures::know_created;
use ledger_model::{Commit, CommitList};
use ledger_terms::{ActionNodeList, KnownList};
use script_read::Script;
use std::alloc::Global;

/// Puts what answers a line at the end.
pub(crate) fn put_answer(alloc: Global, line: &str, out: &mut Answer) {
    let mut words = Words::of(line);
    if words.next() != "script" {
        return out.line(&[line]);
    }
    out.line(&["script", words.next()]);
    if let Some(script) = script_in(alloc, words.rest(), out) {
        put_script(alloc, &script, out);
    }
}

/// Puts the submissions of a script at the end, each over what those before it created, its raw requests, and whether the submissions are
/// one ledger.
fn put_script(alloc: Global, script: &Script, out: &mut Answer) {
    let mut known = KnownList::new(alloc);
    let mut ledger = CommitList::new(alloc);
    for round in script.rounds.as_slice() {
        for submission in round.submits.as_slice() {
            if let Some(roots) = put_submission(alloc, script, &known, submission, out) {
                out.keep(know_created(&roots, &mut known));
                put_commit(&mut ledger, roots, out);
            }
        }
        for raw in round.raws.as_slice() {
            put_raw(alloc, &script.topology, raw, out);
        }
    }
    put_ledger(alloc, &ledger, out)
}

/// Puts a transaction at the end of a ledger.
fn put_commit(ledger: &mut CommitList, roots: ActionNodeList, out: &mut Answer) {
    let place = ledger.len() as u64;
    out.keep(ledger.push(Commit { place, roots }));
}

/// Puts at the end whether a ledger is consistent, or the first action that breaks it.
fn put_ledger(alloc: Global, ledger: &CommitList, out: &mut Answer) {
    match find_inconsistent(alloc, ledger) {
        Ok(Some(found)) => {
            out.put("ledger inconsistent ");
            out.number(found.commit as u64);
            out.put(" ");
            out.path(&found.path);
            out.put("\n");
        }
        Ok(None) => out.line(&["ledger consistent"]),
        Err(_) => out.lack(),
    }
}
