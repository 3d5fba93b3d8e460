//! Points of a picture.

/// A point, in units from the left and from the top.
#[derive(Clone, Copy, PartialEq, Eq)]
pub struct Point {
    pub x: u32,
    pub y: u32,
}
