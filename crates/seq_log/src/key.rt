//! What stands in the log once.
ghost use Rattle.std.specs.Prelude.{◌≡◌};
ghost use Rattle.seq_log.specs.Keys.{key_of};

use canton_model::Message;
use ledger_terms::{Name, ParticipantId};

/// What no two messages of a log have in common: a request's sender and command, a response's sender and request, or the request of a verdict.
#[derive(Clone, Copy, PartialEq, Eq, Hash)]
pub enum Key {
    Request(ParticipantId, Name),
    Response(ParticipantId, u64),
    Verdict(u64),
}

/// The key of a message, which no other message of a log has. A Tick has none.
pub fn key_of(message: &Message) -> Option<Key>
    ensures { result ≡ key_of message.now }
{
    match message {
        Message::Request(request) => Some(Key::Request(request.sender, request.command)),
        Message::Response(response) => Some(Key::Response(response.from, response.request)),
        Message::Verdict(verdict) => Some(Key::Verdict(verdict.request)),
        Message::Tick => None,
    }
}
