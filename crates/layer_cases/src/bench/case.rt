//! Cases.
use crate::answer::Answer;
use crate::bench::actions::put_round_trip;
use crate::bench::buckets::put_buckets;
use crate::bench::commits::put_commits;
use crate::bench::hashes::{LONG, SHORT, put_last};
use crate::bench::scripts::{put_json, put_script};
use crate::bench::strings::put_strings;
use crate::bench::transfers::{put_requests, worked_transfer};
use crate::bench::trees::put_trees;
use crate::words::Words;
use std::alloc::Global;

/// Puts what answers a line at the end.
pub(crate) fn put_answer(alloc: Global, line: &str, out: &mut Answer) {
    let mut words = Words::of(line);
    let word = words.next();
    let count = words.number();
    match word {
        "hash" => put_last(count, &LONG, out),
        "short" => put_last(count, &SHORT, out),
        "wire" => put_round_trip(alloc, count, words, out),
        "script" => put_script(alloc, count, words.rest(), out),
        "json" => put_json(alloc, count, words.rest(), out),
        "commit" => put_commits(alloc, count, out),
        "buckets" => put_buckets(alloc, count, out),
        "blind" | "request" | "strings" => put_transfer(alloc, word, count, out),
        _ => out.line(&[line]),
    }
}

/// Puts what becomes of work on a transfer at the end.
fn put_transfer(alloc: Global, word: &str, count: u64, out: &mut Answer) {
    let Some(transfer) = worked_transfer(alloc, out) else {
        return out.line(&["no transfer"]);
    };
    match word {
        "blind" => put_trees(alloc, &transfer, count, out),
        "request" => put_requests(alloc, &transfer, count, out),
        _ => put_strings(alloc, &transfer, count, out),
    }
}
