//! Laws of what comes of submissions, each the contract of a function with nothing to do.
ghost use Rattle.std.specs.Prelude.{◌≡◌, ◌≤◌, ℕ, List, Some, length};
ghost use Rattle.ledger_terms.specs.declared.submission.Submission.{Submission};
ghost use Rattle.ledger_terms.specs.declared.topology.Topology.{Topology};
ghost use Rattle.canton_model.specs.Log.{request_at};
ghost use Rattle.lang_eval.specs.Found.{Packages};
ghost use Rattle.prepare_request.specs.declared.submit_fault.SubmitFault.{SubmitFault};
ghost use Rattle.world_model.specs.Messages.{Entry, Request};
ghost use Rattle.world_model.specs.Rounds.{AnswerHolds, Results, Round, SentHolds, SubmitResult, read_of};
ghost use Rattle.node_core.specs.Machines.{machine_of, why_of};
ghost use Rattle.world_play.specs.ActiveAt.{IsAnsweredBy};
ghost use Rattle.world_play.specs.OwnRequests.{IsOwnRequest};

use prepare_request::laws::{faults_have_causes, prepared_requests_are_wanted};

/// What a result of a run says of its submission is so (`IsAnsweredBy`), over the participant's active contracts at what it had read: a request that
/// was sent is of the transaction that the submission wants over these, and where it wants none the fault has its cause over them.
pub fn submissions_know_active_contracts()
    ensures { (topology : Topology) (packages : Packages) (capacity now : ℕ) (round : Round) (raws : List Request) (log : List Entry) (end : ℕ)
        (earlier : Results SubmitFault) (what : Submission) (result : SubmitResult SubmitFault)
        → AnswerHolds (machine_of topology packages capacity) (why_of topology packages) now round raws log end earlier what result
        → read_of result ≤ length log
        → IsAnsweredBy topology packages now log what result }
{
    // the prover learns from these calls what requests and faults are of
    prepared_requests_are_wanted();
    faults_have_causes();
}

/// The request of a Sent result is of the transaction that its submission wants, and its envelopes open to each participant what it sees of that.
pub fn sent_requests_open_by_the_rules()
    ensures { (topology : Topology) (packages : Packages) (capacity now : ℕ) (log : List Entry) (end : ℕ) (what : Submission) (place read_to : ℕ)
        → SentHolds (machine_of topology packages capacity) now log end what place read_to
        → (request : Request) × (request_at log place ≡ Some request) × IsOwnRequest topology packages now log what read_to request }
{
    // the prover learns from this call what requests are of
    prepared_requests_are_wanted();
}
