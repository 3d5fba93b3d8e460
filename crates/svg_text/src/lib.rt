//! Pictures as text: SVG 1.1 with its few elements as typed calls, and the one escape through which each text from outside goes.
#![tactic(auto)]

mod anchor;
mod attributes;
mod characters;
mod elements;
mod escape;
mod fill;
mod font;
mod frame;
mod label;
mod laws;
mod mark;
mod paint;
mod point;
mod size;
mod stroke;
mod style;
mod svg;
mod tone;

pub use anchor::Anchor;
pub use characters::drawable;
pub use escape::put_escaped;
pub use fill::Fill;
pub use font::Font;
pub use frame::Frame;
pub use label::Label;
pub use laws::{escaped_ampersands_begin_entities, escaped_text_is_plain, escaped_text_reads_back};
pub use mark::Mark;
pub use paint::Paint;
pub use point::Point;
pub use size::Size;
pub use stroke::{Dash, Stroke};
pub use svg::Svg;
pub use tone::Tone;
