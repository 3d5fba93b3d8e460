//! What is told of a client.
use crate::answer::Answer;
use ledger_terms::Topology;
use node_core::Completion;
use sync_shared::Ticket;

/// Puts whose request a ticket is of at the end, and where it stands.
pub(crate) fn put_ticket(topology: &Topology, ticket: &Ticket<'_>, out: &mut Answer) {
    out.put("ticket of ");
    out.host(topology, ticket.participant());
    out.put(" at ");
    out.number(ticket.place());
    out.put("\n");
}

/// Puts at the end what a client was told became of its request, and how many entries of the log that goes by.
pub(crate) fn put_told(completion: &Completion, out: &mut Answer) {
    match completion {
        Completion::NotYet { read_to } => put_word("undecided", *read_to, out),
        Completion::Approved { read_to } => put_word("approved", *read_to, out),
        Completion::Rejected { read_to, .. } => put_word("rejected", *read_to, out),
        Completion::TimedOut { read_to, .. } => put_word("timeout", *read_to, out),
        Completion::Expired { read_to } => put_word("expired", *read_to, out),
    }
}

fn put_word(word: &str, read_to: u64, out: &mut Answer) {
    out.put("told ");
    out.put(word);
    out.put(" over ");
    out.number(read_to);
    out.put("\n");
}
