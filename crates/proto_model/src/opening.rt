//! The bytes of a request's envelopes.
ghost use Rattle.std.specs.Prelude.{◌≡◌, option_copied};
ghost use Rattle.sealed_form.specs.SealedForm.{envelope_to};

use canton_model::{Request, SharedBytes};
use ledger_terms::ParticipantId;

/// The bytes of the request's first envelope to participant `me`, and None where none is addressed to it.
pub fn envelope_of(request: &Request, me: ParticipantId) -> Option<&SharedBytes>
    ensures { option_copied result ≡ envelope_to me request.now.envelopes }
{
    for envelope in request.envelopes.as_slice() {
        if envelope.to == me {
            return Some(&envelope.bytes);
        }
    }
    None
}
