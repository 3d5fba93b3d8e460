//! How a text stands in a picture.
use crate::anchor::Anchor;
use crate::font::Font;
use crate::point::Point;
use crate::tone::Tone;

/// Where a line of text stands, at the height of its foot, and how it looks.
#[derive(Clone, Copy, PartialEq, Eq)]
pub struct Label {
    pub at: Point,
    pub anchor: Anchor,
    pub font: Font,
    pub tone: Tone,
}
