//! What becomes of a submission.
use crate::answer::Answer;
use crate::tree::requests::put_request;
use crate::tree::rules::put_rules;
use fixtures::{sender_of, transaction};
use interpret::CommandFault;
use ledger_terms::{ActionNodeList, KnownList, Submission, Tx};
use report_text::command_fault_name;
use script_read::Script;
use std::alloc::Global;
use view_split::{SplitFault, split};

/// Puts a submission at the end with all that its transaction shows, or why it has none. The result is its root actions; None: it has no transaction.
pub(crate) fn put_submission(
    alloc: Global,
    script: &Script,
    known: &KnownList,
    submission: &Submission,
    out: &mut Answer,
) -> Option<ActionNodeList> {
    let sender = sender_of(&script.topology, submission)?;
    out.line(&["submission", sender.as_str(), submission.command.as_str()]);
    let tx = transaction_of(alloc, script, known, submission, out)?;
    put_transaction(alloc, script, submission, &tx, out);
    Some(tx.roots)
}

/// The transaction of a submission. None: there is none, and why was put at the end.
pub(crate) fn transaction_of(
    alloc: Global,
    script: &Script,
    known: &KnownList,
    submission: &Submission,
    out: &mut Answer,
) -> Option<Tx> {
    let sender = sender_of(&script.topology, submission)?;
    match transaction(alloc, script, known, sender, submission) {
        Ok(tx) => Some(tx),
        Err(fault) => {
            put_refused(&fault, out);
            None
        }
    }
}

/// Puts why there is no transaction at the end, with the path where there is one.
fn put_refused(fault: &CommandFault, out: &mut Answer) {
    out.put("refused ");
    out.put(command_fault_name(fault));
    out.put(" ");
    match fault {
        CommandFault::UnknownTemplate { root } => out.number(*root as u64),
        CommandFault::UnknownChoice { root } => out.number(*root as u64),
        CommandFault::BadArgs { root } => out.number(*root as u64),
        CommandFault::ContractUnknown { path } => out.path(path),
        CommandFault::Eval { path, .. } => out.path(path),
        CommandFault::TooDeep { path } => out.path(path),
        CommandFault::TooMany { path } => out.path(path),
        CommandFault::Unauthorised { path } => out.path(path),
        CommandFault::TooBig { bytes } => out.number(*bytes as u64),
        CommandFault::Memory => out.lack(),
    }
    out.put("\n");
}

/// Puts a transaction at the end: its actions, what the rules say, and its request.
fn put_transaction(
    alloc: Global,
    script: &Script,
    submission: &Submission,
    tx: &Tx,
    out: &mut Answer,
) {
    out.trees(&tx.roots);
    put_rules(alloc, script, tx, out);
    match split(alloc, &script.checked, tx) {
        Ok(views) => put_request(alloc, &script.topology, submission, &views, out),
        Err(SplitFault::NoRoles { path }) => {
            out.put("no roles ");
            out.path(&path);
            out.put("\n");
        }
        Err(SplitFault::Memory) => out.lack(),
    }
}
