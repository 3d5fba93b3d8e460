//! A submission that isn't sent.
use prepare_request::SubmitFault;

/// Why a submission isn't sent. Its participant had read the entries below `read_to` then; where it is paused and a client handed
/// the submission in, the client had seen those.
#[derive(Drop)]
pub struct SubmitRefusal {
    pub fault: SubmitFault,
    pub read_to: u64,
}
