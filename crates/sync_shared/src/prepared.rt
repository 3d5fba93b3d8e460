//! Requests over what a participant has read.
ghost use Rattle.std.specs.Prelude.{◌≡◌, ◌≢◌, true, List, None, Some, MatchResult, IfOk, IfErr};
ghost use Rattle.ledger_terms.specs.Answers.{Follows};
ghost use Rattle.ledger_terms.specs.Topologies.{IsValid};
ghost use Rattle.canton_model.specs.Inbox.{Item};
ghost use Rattle.prepare_request.specs.Causes.{HoldsNoMemory};
ghost use Rattle.prepare_request.specs.Machine.{Offered, prepare_over, why_over};
ghost use Rattle.prepare_request.specs.Within.{IsWithin};
ghost use Rattle.prepare_request.specs.declared.submit_fault.SubmitFault.TheVariants as SubmitFault;
ghost use Rattle.node_core.specs.Participant.{reading_of};
ghost use Rattle.node_core.specs.Preparing.{offered_by, prepare_answer};

use canton_model::Request;
use lang_eval::NativeList;
use ledger_terms::Submission;
use node_core::{Node, SubmitFault};
use std::alloc::Global;

/// The request that a submission wants of the node, over what this has read, or why it wants none. No natives are asked. `now` is the round's time.
pub(crate) fn prepared(
    alloc: Global,
    node: &Node<'_>,
    what: &Submission,
    now: u64,
) -> Result<Request, SubmitFault>
    requires valid { IsValid node.now.topology }
    requires within { IsWithin node.now.topology node.now.packages node.now.me (offered_by node.now) what.now }
    ensures exact { Follows SubmitFault.Memory result (prepare_answer node.now what.now now) }
    ensures wanted { (offered : Offered) (items : List Item) → what.now.participant ≡ node.now.me → offered node.now.me items ≡ offered_by node.now
        → MatchResult result (λ request. prepare_over node.now.topology node.now.packages offered what.now items now ≡ Some request)
        (λ fault. fault ≢ SubmitFault.Memory → fault ≢ SubmitFault.Paused
        → (prepare_over node.now.topology node.now.packages offered what.now items now ≡ None)
        × (why_over node.now.topology node.now.packages offered what.now items now ≡ fault)) }
    ensures framed { IfOk result (λ request. (reading_of node.now).is_framed request ≡ true) }
    ensures sender { IfOk result (λ request. request.sender ≡ node.now.me) }
    ensures plain { IfErr result HoldsNoMemory }
{
    let natives = NativeList::new(alloc);
    node.prepare(&natives, what, now)
}
