//! Labels of contracts.
use crate::name::Name;
use crate::path::Path;

/// The contract that the action at a path of a participant's command creates, written `#participant:command:path`.
#[derive(Drop)]
pub struct Label {
    pub participant: Name,
    pub command: Name,
    pub path: Path,
}
