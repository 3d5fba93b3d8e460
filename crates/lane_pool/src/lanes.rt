//! Lanes side by side.
ghost use Rattle.std.specs.Prelude.{◌≡◌, ◌+◌, ◌<◌, OnErr, OnOk, Ok};
ghost use Rattle.lane_pool.specs.Turns.{EachTurn, SomeTurn};
ghost use denote.Param.Send.{IsSync};

use crate::lane::Lane;
use crate::stop::{Cause, Stop};
use crate::turns::Turns;
use std::alloc::AllocError;
use std::marker::Brand;
use std::sync::Wait;
use std::thread::{Threads, join};

/// Gives each of the lanes 0 to `lanes - 1` the turns 0 to `turns - 1` of `work`, side by side in threads that `rt` starts, each once. `start` is what
/// turns are made of. Once a turn answers Err, which is want of memory, each lane stops before its next turn, and the result is Err. All lanes have
/// ended when it returns. It takes no memory of its own; where a thread can't be started, its lanes run in the caller's.
pub fn run_lanes<R: Threads + Wait + Sync, L: Lane>(
    rt: &R,
    lanes: u32,
    turns: u64,
    work: &L,
    start: L::Start,
) -> Result<(), AllocError>
    ensures failed { OnErr result (SomeTurn 0 lanes turns (L.may_fail work.now)) }
    ensures taken { OnOk result (EachTurn 0 lanes turns (L.was_taken work.now)) }
    ensures none { turns ≡ 0 → result ≡ Ok tt }
{
    run_until::<Brand, R, L>(rt, lanes, turns, work, start)
}

// The same, where what may fail is a cause to stop.
fn run_until<C: Cause, R: Threads + Sync, L: Lane>(
    rt: &R,
    lanes: u32,
    turns: u64,
    work: &L,
    start: L::Start,
) -> Result<(), AllocError>
    requires cause { SomeTurn 0 lanes turns (L.may_fail work.now) → C.holds }
    ensures failed { OnErr result C.holds }
    ensures taken { OnOk result (EachTurn 0 lanes turns (L.was_taken work.now)) }
{
    if lanes == 0 {
        return Ok(());
    }
    let stop = Stop::<C>::new();
    lanes_from(rt, lanes, Turns::of(start, lanes, turns), work, &stop)
}

#[cycle(lanes)]
// The lanes are halved at each step, and one half goes to a thread of its own.
fn lanes_from<C: Cause, R: Threads + Sync, L: Lane>(
    rt: &R,
    count: u32,
    left: Turns<L::Start>,
    work: &L,
    stop: &Stop<C>,
) -> Result<(), AllocError>
    requires some { 0 < count }
    requires lanes { left.end ≡ left.from + count }
    requires first { left.next ≡ 0 }
    requires cause { SomeTurn left.from left.end left.turns (L.may_fail work.now) → C.holds }
    ensures failed { OnErr result C.holds }
    ensures taken { OnOk result (EachTurn left.from left.end left.turns (L.was_taken work.now)) }
{
    if count == 1 {
        return take_turns(left, work, stop);
    }
    let low = count / 2;
    let high = count - low;
    let (below, above) = left.split(low);
    let (a, b) = join(
        rt,
        || -> Result<(), AllocError>
            requires { IsSync R.row × (0 < low) × (below.end ≡ below.from + low) × (below.next ≡ 0)
                × (SomeTurn below.from below.end below.turns (L.may_fail work.now) → C.holds) }
            ensures { OnErr result C.holds × OnOk result (EachTurn below.from below.end below.turns (L.was_taken work.entry.now)) }
        { lanes_from(rt, low, below, work, stop) },
        || -> Result<(), AllocError>
            requires { IsSync R.row × (0 < high) × (above.end ≡ above.from + high) × (above.next ≡ 0)
                × (SomeTurn above.from above.end above.turns (L.may_fail work.now) → C.holds) }
            ensures { OnErr result C.holds × OnOk result (EachTurn above.from above.end above.turns (L.was_taken work.entry.now)) }
        { lanes_from(rt, high, above, work, stop) },
    );
    a?;
    b
}

// The turns of one lane, until one answers Err or the flag is set.
fn take_turns<C: Cause, L: Lane>(
    left: Turns<L::Start>,
    work: &L,
    stop: &Stop<C>,
) -> Result<(), AllocError>
    requires lane { left.end ≡ left.from + 1 }
    requires first { left.next ≡ 0 }
    requires cause { SomeTurn left.from left.end left.turns (L.may_fail work.now) → C.holds }
    ensures failed { OnErr result C.holds }
    ensures taken { OnOk result (EachTurn left.from left.end left.turns (L.was_taken work.now)) }
{
    let mut left = left;
    let turns = left.turns();
    'turns: for _turn in 0..turns {
        if stop.is_set() {
            return Err(AllocError);
        }
        if let Err(lack) = work.turn(left.next()) {
            stop.set();
            return Err(lack);
        }
    }
    Ok(())
}
