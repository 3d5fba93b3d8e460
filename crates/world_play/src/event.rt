//! What can happen to a synchroniser.
use canton_model::Request;
use ledger_terms::{ListOf, ParticipantId, Submission};

/// One thing that happens: time moves on by microseconds, a submission, a client hands in a request that anybody made, a participant
/// or the mediator reads an entry, a participant checks a request, sends or loses a response, the mediator's verdict is handed in or
/// lost, or a participant is paused or no longer.
#[derive(Drop)]
pub enum Event {
    Advance { by: u64 },
    Submit { what: Submission },
    SubmitRaw { request: Request },
    NodeRead { node: ParticipantId },
    Validate { node: ParticipantId },
    Reply { node: ParticipantId },
    LoseReply { node: ParticipantId },
    MediatorRead,
    GiveVerdict,
    LoseVerdict,
    Pause { node: ParticipantId, paused: bool },
}

/// Events, in their order.
pub type EventList = ListOf<Event>;
