//! Whether a message is appended.
ghost use Rattle.std.specs.Prelude.{◌≡◌};
ghost use Rattle.canton_model.specs.declared.response.Response.{Response as ResponseValue};
ghost use Rattle.canton_model.specs.declared.verdict.Verdict.{Verdict as VerdictValue};
ghost use Rattle.canton_model.specs.declared.message.Message.TheVariants.{Response, Verdict};
ghost use Rattle.seq_log.specs.Admitted.{IsAdmitted, refusal_of};

use crate::fault::AppendFault;
use framed_form::Outline;

/// Whether a message is appended, and then with what the mediator's bytes tell, where it is a request.
#[derive(Drop)]
pub enum Admission {
    Taken(Option<Outline>),
    Refused(AppendFault),
}

/// The admission of a response or a verdict: refused with this fault, and taken, without an outline, where the fault is None.
pub fn taken_unless(fault: Option<AppendFault>) -> Admission
    ensures refusal { refusal_of result ≡ fault }
    ensures response { (response : ResponseValue) → IsAdmitted (Response response) result }
    ensures verdict { (verdict : VerdictValue) → IsAdmitted (Verdict verdict) result }
{
    match fault {
        Some(fault) => Admission::Refused(fault),
        None => Admission::Taken(None),
    }
}
