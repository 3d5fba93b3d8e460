//! `append NAME CAPACITY SCRIPT`: the raw requests of a script's rounds are appended to a new log whose requests may need so many entries in
//! all.
use canton_model::Message;
use fixtures::request_of;
use ledger_terms::RawRequest;
use log_row::LogRow;
use script_read::{RoundList, Script, ScriptFault, read_script};
use seq_log::{AppendFault, Sequencer};
use std::alloc::{AllocError, Global};

/// How many participants have an index.
const MOST_INDICES: usize = 256;

// Appends a request, and puts at the end what the log says to it.
fn put_appended(
    alloc: Global,
    log: &mut Sequencer<'_>,
    raw: &RawRequest,
    out: &mut String,
) -> Result<(), AllocError> {
    let message = Message::Request(request_of(alloc, raw)?);
    match log.append(message, 0) {
        Ok(_) => out.push_str("appended\n"),
        Err(refusal) => match refusal.fault {
            AppendFault::Already { place } => write!(out, "Already {place}\n"),
            AppendFault::Unframed => out.push_str("Unframed\n"),
            AppendFault::LogFull { reserved, need } => write!(out, "LogFull {reserved} {need}\n"),
            AppendFault::TooLate { .. } => out.push_str("TooLate\n"),
            AppendFault::Memory => Err(AllocError),
        },
    }
}

fn put_each(
    alloc: Global,
    log: &mut Sequencer<'_>,
    rounds: &RoundList,
    out: &mut String,
) -> Result<(), AllocError> {
    for round in rounds.as_slice() {
        for raw in round.raws.as_slice() {
            put_appended(alloc, log, raw, out)?;
        }
    }
    let count = log.len();
    write!(out, "{count} entries\n")
}

// Makes a log and appends the raw requests to it. What holds a log by value is dear to prove, so this does no more.
fn put_log(
    alloc: Global,
    script: &Script,
    capacity: u64,
    row: &mut LogRow,
    out: &mut String,
) -> Result<(), AllocError> {
    if script.topology.hosts.len() > MOST_INDICES {
        return out.push_str("too many participants\n");
    }
    let mut log = Sequencer::new(alloc, row, capacity, &script.topology)?;
    put_each(alloc, &mut log, &script.rounds, out)
}

fn put_script(
    alloc: Global,
    script: &Script,
    capacity: u64,
    out: &mut String,
) -> Result<(), AllocError> {
    let mut row = LogRow::new(alloc)?;
    put_log(alloc, script, capacity, &mut row, out)
}

// Says that there is no script, whose requests could be appended.
fn put_fault(fault: &ScriptFault, out: &mut String) -> Result<(), AllocError> {
    match fault {
        ScriptFault::Memory => Err(AllocError),
        _ => out.push_str("no script\n"),
    }
}

/// The answer to such a case, whose words behind the first are `spelled`. None: they spell no case.
pub(crate) fn append_answer(alloc: Global, spelled: &str) -> Result<Option<String>, AllocError> {
    let Some((name, given)) = spelled.split_once(' ') else {
        return Ok(None);
    };
    let (capacity, text) = given.split_once(' ').unwrap_or(("0", ""));
    let mut out = format!(in alloc; "append {name}\n")?;
    put_read(alloc, text, capacity.parse().unwrap_or(0), &mut out)?;
    Ok(Some(out))
}

fn put_read(alloc: Global, text: &str, capacity: u64, out: &mut String) -> Result<(), AllocError> {
    match read_script(alloc, text.as_bytes()) {
        Ok(script) => put_script(alloc, &script, capacity, out),
        Err(fault) => put_fault(&fault, out),
    }
}
