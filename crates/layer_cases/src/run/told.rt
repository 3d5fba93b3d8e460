//! What is told of a run.
use canton_run::{Finish, line};
use std::alloc::{AllocError, Global};
use std::str;

/// The status of a run, and its line on standard error where the status isn't 0.
pub(crate) fn end_told(alloc: Global, finish: &Finish) -> Result<String, AllocError> {
    let status = finish.status;
    let mut out = format!(in alloc; "status {status}\n")?;
    if status != 0 {
        let line = line(alloc, finish)?;
        write!(out, "{line}\n")?;
    }
    Ok(out)
}

/// The line with the name of a case, and below it what is told of its end.
pub(crate) fn named(alloc: Global, name: &str, end: &str) -> Result<String, AllocError> {
    format!(in alloc; "run {name}\n{end}")
}

/// Puts each line of a text behind a bar at the end, and bytes that are no text as hexadecimal digits.
pub(crate) fn put_lines(alloc: Global, written: &[u8], out: &mut String) -> Result<(), AllocError> {
    match str::from_utf8(written) {
        Ok(text) => put_text(text, out),
        Err(_) => put_digits(alloc, written, out),
    }
}

fn put_text(text: &str, out: &mut String) -> Result<(), AllocError> {
    for line in text.lines() {
        write!(out, "|{line}\n")?;
    }
    Ok(())
}

fn put_digits(alloc: Global, written: &[u8], out: &mut String) -> Result<(), AllocError> {
    let Ok(digits) = hex::encode(alloc, written) else {
        return Err(AllocError);
    };
    let digits = digits.as_str();
    write!(out, "|0x{digits}\n")
}
