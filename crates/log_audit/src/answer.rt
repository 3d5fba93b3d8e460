//! What an audit says of bytes.
use audit_model::Why;

/// What an audit says of bytes. They are a dump of a proper log, with so many entries and so many approved requests; or of a log in which the entry
/// at a place is the first that doesn't fit those before it, and why; or no dump, and the first field that can't be read begins at the byte `at`.
#[derive(Clone, Copy)]
pub enum Audit {
    Yes { entries: u64, approved: u64 },
    No { place: u64, why: Why },
    Bad { at: u64 },
}
