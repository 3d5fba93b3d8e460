//! Rectangles.
use crate::point::Point;
use crate::size::Size;

/// A rectangle by its upper left corner and its size, with corners rounded by a radius.
#[derive(Clone, Copy, PartialEq, Eq)]
pub struct Frame {
    pub corner: Point,
    pub size: Size,
    pub radius: u32,
}
