//! Paints of shapes.
use crate::fill::Fill;
use crate::tone::Tone;

/// How a shape looks: the tone of its edge, and what is inside.
#[derive(Clone, Copy, PartialEq, Eq)]
pub struct Paint {
    pub tone: Tone,
    pub fill: Fill,
}
