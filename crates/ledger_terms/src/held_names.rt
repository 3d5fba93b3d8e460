//! How a few names are held.
use crate::name::Name;

/// No names, one in its place, or more in memory of their own.
#[derive(Drop)]
pub enum HeldNames {
    Nothing,
    One(Name),
    More(Vec<Name>),
}
