//! Active contracts.

use crate::known::Known;
use crate::list::ListOf;

/// An active contract with the place of the request that created it.
#[derive(Drop)]
pub struct ActiveRow {
    pub created_at: u64,
    pub known: Known,
}

/// Active contracts, in order of creation.
pub type ActiveRowList = ListOf<ActiveRow>;
