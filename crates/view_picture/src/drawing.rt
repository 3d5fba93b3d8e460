//! From a picture to its text.
use crate::chip::{Chip, chip_word};
use crate::cut::cut;
use crate::line::{Line, LineKind};
use crate::part::Part;
use crate::picture::Picture;
use crate::piece::Piece;
use crate::span::letters_in;
use crate::view_box::{BoxKind, ViewBox};
use ledger_terms::Text;
use std::alloc::{AllocError, Global};
use svg_text::{Anchor, Fill, Font, Frame, Label, Paint, Point, Svg, Tone};

/// The picture as SVG. Each box is drawn before those inside it, and all boxes before the lines and the chips, which cover them.
pub fn drawn(alloc: Global, picture: &Picture) -> Result<Text, AllocError> {
    let mut svg = Svg::new(
        alloc,
        picture.size,
        picture.title.as_str(),
        "For each request its views as boxes, one in the other, with the actions of each in order and the participants that see it.",
    )?;
    for view_box in picture.boxes.as_slice().iter().rev() {
        draw_box(&mut svg, view_box)?;
    }
    for piece in picture.pieces.as_slice() {
        match piece {
            Piece::Line(line) => draw_line(alloc, &mut svg, line)?,
            Piece::Chip(chip) => draw_chip(alloc, &mut svg, chip)?,
        }
    }
    svg.finish()
}

/// Draws the box of a view that is shown.
fn draw_shown_box(svg: &mut Svg, frame: Frame, fill: Fill) -> Result<(), AllocError> {
    let tone = Tone::Accent;
    svg.rectangle(frame, Paint { tone, fill })
}

fn draw_dashed(svg: &mut Svg, frame: Frame, paint: Paint) -> Result<(), AllocError> {
    svg.begin_group("dashed")?;
    svg.rectangle(frame, paint)?;
    svg.end_group()
}

/// Draws the box of a view that isn't shown, of dashes and with nothing behind it.
fn draw_clear_box(svg: &mut Svg, frame: Frame, tone: Tone) -> Result<(), AllocError> {
    let fill = Fill::Clear;
    draw_dashed(svg, frame, Paint { tone, fill })
}

fn draw_box(svg: &mut Svg, view_box: &ViewBox) -> Result<(), AllocError> {
    match view_box.kind {
        BoxKind::Tinted => draw_shown_box(svg, view_box.frame, Fill::Tint),
        BoxKind::Plain => draw_shown_box(svg, view_box.frame, Fill::Page),
        BoxKind::Blinded => draw_clear_box(svg, view_box.frame, Tone::Quiet),
        BoxKind::Withheld => draw_clear_box(svg, view_box.frame, Tone::Bad),
    }
}

/// The font and the tone of a line.
fn look_of(kind: LineKind) -> (Font, Tone) {
    match kind {
        LineKind::Title => (Font::Title, Tone::Ink),
        LineKind::Request => (Font::Strong, Tone::Ink),
        LineKind::Detail => (Font::Small, Tone::Quiet),
        LineKind::View => (Font::Small, Tone::Accent),
        LineKind::Action => (Font::Code, Tone::Ink),
        LineKind::Blinded => (Font::Code, Tone::Quiet),
        LineKind::Withheld => (Font::Small, Tone::Bad),
    }
}

/// Draws a line, cut where it has no room, and then with the whole text as its title.
fn draw_line(alloc: Global, svg: &mut Svg, line: &Line) -> Result<(), AllocError> {
    let (font, tone) = look_of(line.kind);
    let label = Label {
        at: line.at,
        anchor: Anchor::Start,
        font,
        tone,
    };
    draw_text(alloc, svg, &label, line.text.as_str(), line.letters)
}

/// Draws a text, cut where it has more letters than `letters`.
fn draw_text(
    alloc: Global,
    svg: &mut Svg,
    label: &Label,
    text: &str,
    letters: u32,
) -> Result<(), AllocError> {
    let whole = svg_text::drawable(alloc, text)?;
    match cut(alloc, whole.as_str(), letters)? {
        Some(part) => svg.titled_text(label, part.as_str(), whole.as_str()),
        None => svg.text(label, whole.as_str()),
    }
}

/// The tone of a chip's frame, and of its text where that isn't filled.
fn chip_tone(chip: &Chip) -> Tone {
    if chip.is_withheld {
        Tone::Bad
    } else {
        Tone::Accent
    }
}

/// Draws the frame of a chip: filled where the participant confirms, and of dashes where it only observes.
fn draw_chip_frame(svg: &mut Svg, chip: &Chip) -> Result<(), AllocError> {
    let tone = chip_tone(chip);
    let fill = match chip.part {
        Part::Confirms => Fill::Full,
        Part::Sees | Part::Observes => Fill::Page,
    };
    let paint = Paint { tone, fill };
    match chip.part {
        Part::Confirms | Part::Sees => svg.rectangle(chip.frame, paint),
        Part::Observes => draw_dashed(svg, chip.frame, paint),
    }
}

fn chip_text_tone(chip: &Chip) -> Tone {
    match chip.part {
        Part::Confirms => Tone::Paper,
        Part::Sees | Part::Observes => chip_tone(chip),
    }
}

/// Draws a chip: the name and what the participant does, in a frame that tells that, too.
fn draw_chip(alloc: Global, svg: &mut Svg, chip: &Chip) -> Result<(), AllocError> {
    let frame = chip.frame;
    draw_chip_frame(svg, chip)?;
    let label = Label {
        at: Point {
            x: frame.corner.x.saturating_add(frame.size.width / 2),
            y: frame.corner.y.saturating_add(13),
        },
        anchor: Anchor::Middle,
        font: Font::Small,
        tone: chip_text_tone(chip),
    };
    let mut text = String::from_str(alloc, chip.name.as_str())?;
    text.push_str(" ")?;
    text.push_str(chip_word(chip.part, chip.is_withheld))?;
    draw_text(
        alloc,
        svg,
        &label,
        text.as_str(),
        letters_in(frame.size.width),
    )
}
