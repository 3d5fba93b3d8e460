//! Answers of cases.
ghost use Rattle.script_read.specs.Kept.{IsAccepted};

use crate::answer::Answer;
use crate::sharing::script::parts_of;
use crate::sharing::sharings::put_sharings;
use crate::tree::script_in;
use crate::words::Words;
use script_read::Script;
use std::alloc::AllocGlobal;
use std::random::RandomSource;
use std::sync::Wait;

/// Puts what answers a line at the end.
pub(crate) fn put_answer<R: Wait + RandomSource + AllocGlobal>(
    rt: &R,
    line: &str,
    out: &mut Answer,
) {
    let mut words = Words::of(line);
    if words.next() != "share" {
        return out.line(&[line]);
    }
    out.line(&["share", words.next()]);
    if let Some(script) = script_in(rt.alloc(), words.rest(), out) {
        put_script(rt, Box::into_inner(script), out);
    }
}

fn put_script<R: Wait + RandomSource + AllocGlobal>(rt: &R, script: Script, out: &mut Answer)
    requires { IsAccepted script }
{
    let (setup, rounds) = parts_of(script);
    let put = put_sharings(rt, &setup, &rounds, out);
    out.keep(put);
}
