//! Attributes of elements.
ghost use Rattle.std.specs.Prelude.{◌≡◌, ◌++◌, OnOk, string_bytes, decimal};
ghost use Rattle.svg_text.specs.Elements.{attribute, attribute_start, number_attribute, pair, pair_attribute, joined_attribute};
ghost use Rattle.svg_text.specs.Elements.{class_attribute, place, extent, ends};
ghost use Rattle.svg_text.specs.Escape.{escaped};

use crate::escape::put_escaped;
use crate::point::Point;
use crate::size::Size;
use itoa::Buffer;
use std::alloc::AllocError;

/// Puts a number in decimal at the end of `out`, as all functions here put what they name.
pub(crate) fn put_number(out: &mut String, number: u32) -> Result<(), AllocError>
    ensures { OnOk result (string_bytes out.new ≡ string_bytes out.old ++ decimal number) }
{
    let mut buffer = Buffer::new();
    out.push_str(buffer.format(number))
}

/// Two numbers with a blank between them.
fn put_pair(out: &mut String, first: u32, second: u32) -> Result<(), AllocError>
    ensures { OnOk result (string_bytes out.new ≡ string_bytes out.old ++ pair first second) }
{
    put_number(out, first)?;
    out.push_str(" ")?;
    put_number(out, second)
}

/// An attribute up to its first quote.
fn put_attribute_start(out: &mut String, name: &str) -> Result<(), AllocError>
    ensures { OnOk result (string_bytes out.new ≡ string_bytes out.old ++ attribute_start name.now) }
{
    out.push_str(" ")?;
    out.push_str(name)?;
    out.push_str("=\"")
}

/// An attribute whose value is two numbers, with other words before and behind them; the words aren't escaped.
pub(crate) fn put_pair_attribute(
    out: &mut String,
    name: &str,
    before: &str,
    first: u32,
    second: u32,
    behind: &str,
) -> Result<(), AllocError>
    ensures { OnOk result (string_bytes out.new ≡ string_bytes out.old
        ++ pair_attribute name.now before.now first second behind.now) }
{
    put_attribute_start(out, name)?;
    out.push_str(before)?;
    put_pair(out, first, second)?;
    out.push_str(behind)?;
    out.push_str("\"")
}

/// An attribute whose value is a word, with other words before and behind it; none of them is escaped.
pub(crate) fn put_joined_attribute(
    out: &mut String,
    name: &str,
    before: &str,
    word: &str,
    behind: &str,
) -> Result<(), AllocError>
    ensures { OnOk result (string_bytes out.new ≡ string_bytes out.old
        ++ joined_attribute name.now before.now word.now behind.now) }
{
    put_attribute_start(out, name)?;
    out.push_str(before)?;
    out.push_str(word)?;
    out.push_str(behind)?;
    out.push_str("\"")
}

/// An attribute whose value is a number.
pub(crate) fn put_number_attribute(
    out: &mut String,
    name: &str,
    number: u32,
) -> Result<(), AllocError>
    ensures { OnOk result (string_bytes out.new ≡ string_bytes out.old ++ number_attribute name.now number) }
{
    out.push_str(" ")?;
    out.push_str(name)?;
    out.push_str("=\"")?;
    put_number(out, number)?;
    out.push_str("\"")
}

/// An attribute whose value is a text, which is escaped.
pub(crate) fn put_attribute(out: &mut String, name: &str, text: &str) -> Result<(), AllocError>
    ensures { OnOk result (string_bytes out.new ≡ string_bytes out.old ++ attribute name.now text.now) }
{
    out.push_str(" ")?;
    out.push_str(name)?;
    out.push_str("=\"")?;
    put_escaped(out, text)?;
    out.push_str("\"")
}

/// The attribute `class` with two words of the style sheet.
pub(crate) fn put_class(out: &mut String, first: &str, second: &str) -> Result<(), AllocError>
    ensures { OnOk result (string_bytes out.new ≡ string_bytes out.old ++ class_attribute first.now second.now) }
{
    out.push_str(" class=\"")?;
    out.push_str(first)?;
    out.push_str(" ")?;
    out.push_str(second)?;
    out.push_str("\"")
}

/// The attributes `x` and `y` of a point.
pub(crate) fn put_place(out: &mut String, at: Point) -> Result<(), AllocError>
    ensures { OnOk result (string_bytes out.new ≡ string_bytes out.old ++ place at) }
{
    put_number_attribute(out, "x", at.x)?;
    put_number_attribute(out, "y", at.y)
}

/// The attributes `width` and `height` of a size.
pub(crate) fn put_extent(out: &mut String, size: Size) -> Result<(), AllocError>
    ensures { OnOk result (string_bytes out.new ≡ string_bytes out.old ++ extent size) }
{
    put_number_attribute(out, "width", size.width)?;
    put_number_attribute(out, "height", size.height)
}

/// The attributes of a line that goes from one point to the other.
pub(crate) fn put_ends(out: &mut String, from: Point, to: Point) -> Result<(), AllocError>
    ensures { OnOk result (string_bytes out.new ≡ string_bytes out.old ++ ends from to) }
{
    put_number_attribute(out, "x1", from.x)?;
    put_number_attribute(out, "y1", from.y)?;
    put_number_attribute(out, "x2", to.x)?;
    put_number_attribute(out, "y2", to.y)
}
