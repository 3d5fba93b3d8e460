//! How much is drawn.

/// Entries that are drawn.
pub const MOST_ROWS: usize = 500;

/// Refused submissions that are listed.
pub const MOST_REFUSED: usize = 500;

/// Rules that fired which are listed.
pub const MOST_FIRED: usize = 500;

/// Active contracts that are listed.
pub const MOST_ACTIVES: usize = 500;
