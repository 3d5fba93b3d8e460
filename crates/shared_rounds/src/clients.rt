//! Clients of all participants.
ghost use Rattle.std.specs.Prelude.{◌≡◌, ◌≤◌, ℕ, Some, IfOk, OnOk, length, slice_get, vec_len};
ghost use Rattle.sync_shared.specs.Clients.{Seen};

use ledger_terms::ParticipantId;
use shared_world::Synchroniser;
use std::alloc::{AllocError, Global};
use sync_shared::{Client, Session};

/// A client for each participant, in the order of the topology, of which there are `hosts`. Each has seen what stood in the log when the sharing began,
/// and has a share of its own; an Err is want of memory for the list.
pub fn clients_of<'r, S: Session>(
    alloc: Global,
    shared: &mut Synchroniser<'r, S>,
    hosts: usize,
) -> Result<Vec<Client<'r, S>>, AllocError>
    requires hosts { (hosts ≡ length (S.topology).hosts) × (hosts ≤ 8) }
    requires none { shared.old.out ≡ 0 }
    ensures out { OnOk result (shared.new ≡ record shared.old { out = hosts }) }
    ensures many { IfOk result (λ clients. vec_len clients ≡ hosts) }
    ensures each { IfOk result (λ clients. (p : ℕ) (client : Seen) → slice_get clients.items p ≡ Some client
        → client ≡ record { list = S.start; tickets = 0; me = p }) }
{
    let mut clients = Vec::new(alloc);
    'hosts: for at in 0..hosts {
        clients.push(shared.client(ParticipantId(at as u8)))?;
    }
    Ok(clients)
}
