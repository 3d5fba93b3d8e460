//! Scripts.
ghost use Rattle.std.specs.Prelude.{◌≡◌, IfSome};
ghost use Rattle.script_read.specs.Kept.{IsAccepted};

use crate::answer::Answer;
use script_read::{Script, read_script};
use std::alloc::Global;

/// The script that JSON spells. None: it is refused, and its first fault was put at the end, or memory was wanting.
pub(crate) fn script_in(alloc: Global, json: &str, out: &mut Answer) -> Option<Box<Script>>
    ensures { IfSome result (λ script. IsAccepted script.value) }
{
    match read_script(alloc, json.as_bytes()) {
        Ok(script) => boxed(alloc, script, out),
        Err(fault) => {
            out.fault(&fault);
            None
        }
    }
}

// A script is handed on in a box, since all that holds one by value is dear to prove.
fn boxed(alloc: Global, script: Script, out: &mut Answer) -> Option<Box<Script>>
    ensures { IfSome result (λ kept. kept.value ≡ script) }
{
    match Box::new(alloc, script) {
        Ok(script) => Some(script),
        Err(_) => {
            out.lack();
            None
        }
    }
}
