//! What is kept between two sharings.
ghost use Rattle.std.specs.Prelude.{◌≡◌, ◌≤◌, None, IfOk, length};
ghost use Rattle.node_core.specs.Machines.{machine_of};
ghost use Rattle.sync_shared.specs.Slips.{InRow};
ghost use Rattle.layer_cases.specs.Sharings.{CanBeShared};

use crate::answer::Answer;
use crate::sharing::client::Left;
use confirm_reply::Setup;
use log_row::{LogRow, Slip};
use std::alloc::{AllocError, Global};
use sync_shared::Ticket;
use world_play::World;

/// How many entries the requests may need in all.
pub(crate) const CAPACITY: u64 = 20;

/// A synchroniser that isn't shared, with the ticket of its last client. It has a box, since what holds one by value is dear to prove.
#[derive(Drop)]
pub(crate) struct Kept<'r> {
    pub(crate) world: Box<World<'r>>,
    pub(crate) ticket: Option<Ticket<'r>>,
}

/// A new synchroniser, of which no client has a ticket.
pub(crate) fn begun<'r>(
    alloc: Global,
    setup: &'r Setup,
    row: &'r mut LogRow,
) -> Result<Kept<'r>, AllocError>
    requires { length setup.now.topology.hosts ≤ 256 }
    ensures world { IfOk result (λ k. CanBeShared setup.now.topology setup.now.checked
        (machine_of setup.now.topology setup.now.checked 20) k.world.value) }
    ensures row { IfOk result (λ k. (k.world.value.sequencer).row ≡ row.old) }
    ensures ticket { IfOk result (λ k. k.ticket ≡ None) }
{
    let made = World::new(alloc, setup, row, CAPACITY)?;
    let world = Box::new(alloc, made)?;
    Ok(Kept {
        world,
        ticket: None,
    })
}

/// Keeps what a sharing left, with the ticket of its client. Puts at the end whether the last entry that the client had seen stands in the log.
pub(crate) fn keep<'r>(
    alloc: Global,
    world: World<'r>,
    left: Left<'r>,
    out: &mut Answer,
) -> Result<Kept<'r>, AllocError>
    requires { InRow (world.sequencer).row left.last }
    ensures world { IfOk result (λ k. k.world.value ≡ world.entry) }
    ensures ticket { IfOk result (λ k. k.ticket ≡ left.entry.ticket) }
{
    let Left { last, ticket } = left;
    let mut left = world;
    let stands = stands_in_log(&mut left, last);
    out.truth("seen in the log", Ok(stands));
    let world = Box::new(alloc, left)?;
    Ok(Kept { world, ticket })
}

/// Whether the last entry that a client had seen stands in the log; so too where it saw none.
fn stands_in_log<'r>(world: &mut World<'r>, last: Option<Slip<'r>>) -> bool
    requires { InRow (world.old.sequencer).row last }
    ensures { world.new ≡ world.old }
{
    match last {
        Some(mut slip) => {
            world.sequencer.reaches(&mut slip);
            slip.place() < world.sequencer.len()
        }
        None => true,
    }
}
