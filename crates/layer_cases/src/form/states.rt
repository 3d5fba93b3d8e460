//! States of participants as bytes.
ghost use Rattle.snapshot_store.specs.InRange.{IsState};

use crate::answer::Answer;
use node_state::NodeState;
use snapshot_store::laws::one_spelling;
use snapshot_store::{SnapFault, decode, encode};
use std::alloc::Global;

/// Puts what is read of the bytes of a state at the end: how much it keeps of what, and its spelling.
pub(crate) fn put_state(alloc: Global, bytes: &[u8], out: &mut Answer) {
    match decode(alloc, bytes) {
        Ok(state) => put_read(alloc, &state, out),
        Err(SnapFault::Bad { at }) => put_number("bad at ", at as u64, out),
        Err(SnapFault::Memory) => out.lack(),
    }
    out.put("\n");
}

fn put_read(alloc: Global, state: &NodeState, out: &mut Answer)
    requires { IsState state.now }
{
    put_number("base ", state.base, out);
    put_number(" time ", state.base_time, out);
    put_number(" active ", state.active.len() as u64, out);
    put_number(" gone ", state.gone.len() as u64, out);
    put_number(" items ", state.items.len() as u64, out);
    put_number(" responses ", state.outbox.len() as u64, out);
    put_number(" done ", state.done.len() as u64, out);
    put_spelled(alloc, state, out);
}

fn put_number(word: &str, number: u64, out: &mut Answer) {
    out.put(word);
    out.number(number);
}

fn put_spelled(alloc: Global, state: &NodeState, out: &mut Answer)
    requires { IsState state.now }
{
    // the prover learns from this call that what was read has a spelling
    one_spelling();
    out.put(" spelled ");
    match encode(alloc, state) {
        Ok(bytes) => out.digits(bytes.as_slice()),
        Err(_) => out.lack(),
    }
}
