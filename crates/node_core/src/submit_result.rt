//! What a submission is answered.
use ledger_terms::ListOf;
use prepare_request::SubmitFault;

/// What a submission is answered. The participant had read the entries below `read_to` then.
#[derive(Drop)]
pub enum SubmitResult {
    /// The request stands in the log at `place`.
    Sent { place: u64, read_to: u64 },
    /// Nothing was sent.
    Refused { fault: SubmitFault, read_to: u64 },
}

/// The answers to submissions, in their order.
pub type SubmitResultList = ListOf<SubmitResult>;
