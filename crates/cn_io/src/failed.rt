//! A fault of a source or a sink.
use thiserror::Error;

/// No byte was moved, and the fault was counted.
#[derive(Clone, Copy, Debug, PartialEq, Eq, Error)]
#[error("no byte was moved")]
pub struct Failed;
