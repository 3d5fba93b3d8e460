//! Parts of elements.
ghost use Rattle.std.specs.Prelude.{◌≡◌, ◌++◌, OnOk, string_bytes};
ghost use Rattle.svg_text.specs.Elements.{title_element, label_class, label_start, tip, paint_class, outline, round, shift};
ghost use Rattle.svg_text.specs.Opening.{described, described_end, described_start, page, opening, root, sheets, view_box};

use crate::attributes::{
    put_class, put_extent, put_joined_attribute, put_number_attribute, put_pair_attribute,
    put_place,
};
use crate::escape::put_escaped;
use crate::frame::Frame;
use crate::label::Label;
use crate::paint::Paint;
use crate::point::Point;
use crate::size::Size;
use crate::style::{ROOT, STYLE, TIPS};
use std::alloc::AllocError;

/// A title inside its element.
pub(crate) fn put_title(out: &mut String, title: &str) -> Result<(), AllocError>
    ensures { OnOk result (string_bytes out.new ≡ string_bytes out.old ++ title_element title.now) }
{
    out.push_str("<title>")?;
    put_escaped(out, title)?;
    out.push_str("</title>")
}

fn put_label_class(out: &mut String, label: &Label) -> Result<(), AllocError>
    ensures { OnOk result (string_bytes out.new ≡ string_bytes out.old ++ label_class label.now) }
{
    out.push_str(" class=\"")?;
    out.push_str(label.tone.word())?;
    out.push_str(" ")?;
    out.push_str(label.font.word())?;
    out.push_str(" ")?;
    out.push_str(label.anchor.word())?;
    out.push_str("\"")
}

/// The tag that begins a line of text, with its place and its looks.
pub(crate) fn put_label_start(out: &mut String, label: &Label) -> Result<(), AllocError>
    ensures { OnOk result (string_bytes out.new ≡ string_bytes out.old ++ label_start label.now) }
{
    out.push_str("<text")?;
    put_place(out, label.at)?;
    put_label_class(out, label)?;
    out.push_str(">")
}

/// The attribute that puts the tip of an arrow at the end of a line; the word is that of the tone.
#[tactic(auto, unfolding(crate::specs::Elements::tip))]
pub(crate) fn put_tip(out: &mut String, word: &str) -> Result<(), AllocError>
    ensures { OnOk result (string_bytes out.new ≡ string_bytes out.old ++ tip word.now) }
{
    put_joined_attribute(out, "marker-end", "url(#tip-", word, ")")
}

/// The attribute `class` of a shape: the words of its tone and of its fill.
pub(crate) fn put_paint(out: &mut String, paint: Paint) -> Result<(), AllocError>
    ensures { OnOk result (string_bytes out.new ≡ string_bytes out.old ++ paint_class paint) }
{
    put_class(out, paint.tone.word(), paint.fill.word())
}

/// The attributes of a rectangle: its corner, its size, and the radius of its corners.
pub(crate) fn put_outline(out: &mut String, frame: Frame) -> Result<(), AllocError>
    ensures { OnOk result (string_bytes out.new ≡ string_bytes out.old ++ outline frame) }
{
    put_place(out, frame.corner)?;
    put_extent(out, frame.size)?;
    put_number_attribute(out, "rx", frame.radius)
}

/// The attributes of a circle: its middle and its radius.
pub(crate) fn put_round(out: &mut String, at: Point, radius: u32) -> Result<(), AllocError>
    ensures { OnOk result (string_bytes out.new ≡ string_bytes out.old ++ round at radius) }
{
    put_number_attribute(out, "cx", at.x)?;
    put_number_attribute(out, "cy", at.y)?;
    put_number_attribute(out, "r", radius)
}

/// The attribute that moves a path, which is drawn round the point 0 0, to another point.
pub(crate) fn put_shift(out: &mut String, at: Point) -> Result<(), AllocError>
    ensures { OnOk result (string_bytes out.new ≡ string_bytes out.old ++ shift at) }
{
    put_pair_attribute(out, "transform", "translate(", at.x, at.y, ")")
}

fn put_view_box(out: &mut String, size: Size) -> Result<(), AllocError>
    ensures { OnOk result (string_bytes out.new ≡ string_bytes out.old ++ view_box size) }
{
    put_pair_attribute(out, "viewBox", "0 0 ", size.width, size.height, "")
}

fn put_described_start(out: &mut String, name: &str) -> Result<(), AllocError>
    ensures { OnOk result (string_bytes out.new ≡ string_bytes out.old ++ described_start name.now) }
{
    out.push_str("<")?;
    out.push_str(name)?;
    out.push_str(" id=\"")?;
    out.push_str(name)?;
    out.push_str("\">")
}

fn put_described_end(out: &mut String, name: &str) -> Result<(), AllocError>
    ensures { OnOk result (string_bytes out.new ≡ string_bytes out.old ++ described_end name.now) }
{
    out.push_str("</")?;
    out.push_str(name)?;
    out.push_str(">\n")
}

/// An element that holds a text alone, with its own name for an id.
fn put_described(out: &mut String, name: &str, text: &str) -> Result<(), AllocError>
    ensures { OnOk result (string_bytes out.new ≡ string_bytes out.old ++ described name.now text.now) }
{
    put_described_start(out, name)?;
    put_escaped(out, text)?;
    put_described_end(out, name)
}

/// The page under everything that is drawn.
fn put_page(out: &mut String, size: Size) -> Result<(), AllocError>
    ensures { OnOk result (string_bytes out.new ≡ string_bytes out.old ++ page size) }
{
    out.push_str("<rect class=\"sheet\"")?;
    put_extent(out, size)?;
    out.push_str("/>\n")
}

/// All that stands before the first element.
pub(crate) fn put_opening(
    out: &mut String,
    size: Size,
    title: &str,
    description: &str,
) -> Result<(), AllocError>
    ensures { OnOk result (string_bytes out.new ≡ string_bytes out.old ++ opening size title.now description.now) }
{
    put_root(out, size)?;
    put_described(out, "title", title)?;
    put_described(out, "desc", description)?;
    put_sheets(out)?;
    put_page(out, size)
}

/// The first tag of the picture.
fn put_root(out: &mut String, size: Size) -> Result<(), AllocError>
    ensures { OnOk result (string_bytes out.new ≡ string_bytes out.old ++ root size) }
{
    out.push_str(ROOT)?;
    put_extent(out, size)?;
    put_view_box(out, size)?;
    out.push_str(">\n")
}

/// The style sheet and the tips of arrows.
fn put_sheets(out: &mut String) -> Result<(), AllocError>
    ensures { OnOk result (string_bytes out.new ≡ string_bytes out.old ++ sheets) }
{
    out.push_str(STYLE)?;
    out.push_str(TIPS)
}
