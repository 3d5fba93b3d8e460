//! What a participant does next.
use canton_model::Response;
use log_row::Slip;
use validate_job::ValidateJob;

/// A job that was claimed, with the slip of what its participant had read then.
#[derive(Drop)]
pub struct ClaimedJob<'r> {
    pub job: ValidateJob<'r>,
    pub known: Option<Slip<'r>>,
}

/// A copy of a response that waits, with the slip of what its participant had read then.
#[derive(Drop)]
pub struct CopiedResponse<'r> {
    pub response: Response,
    pub known: Option<Slip<'r>>,
}

/// What a participant has left to do outside its lock: nothing, the check of a job, or the sending of a response.
#[derive(Drop)]
pub enum NodeStep<'r> {
    Done,
    Check(ClaimedJob<'r>),
    Send(CopiedResponse<'r>),
}
