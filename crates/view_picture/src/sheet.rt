//! A picture in the making.
use crate::chip::{Chip, chip_word};
use crate::line::{Line, LineKind};
use crate::part::Part;
use crate::piece::{Piece, PieceList};
use crate::span::{INSIDE, Span, letters_of, width_of};
use crate::view_box::{BoxKind, ViewBox, ViewBoxList};
use ledger_terms::{Name, Text};
use std::alloc::{AllocError, Global};
use svg_text::{Frame, Point, Size};

/// Units from one line to the next, and from a line's top to its foot.
const LINE: u32 = 20;

const FOOT: u32 = 14;

/// Units above a box.
const BOX_GAP: u32 = 4;

/// How high a chip is, and how much is left round it.
const CHIP: u32 = 18;

const CHIP_GAP: u32 = 6;

/// How many letters have room in a chip beside its two words.
const CHIP_LETTERS: u32 = 3;

/// A picture in the making: what was put into it so far, and how far down that goes. Heights past what a u32 holds stay at its greatest.
#[derive(Drop)]
pub(crate) struct Sheet {
    pub alloc: Global,
    pub bottom: u32,
    pub boxes: ViewBoxList,
    pub pieces: PieceList,
}

/// How wide a chip is, in units, where there is room for it.
fn chip_width(name: Name, part: Part, is_withheld: bool) -> u32 {
    let word = chip_word(part, is_withheld);
    let letters = letters_of(name.as_str()).saturating_add(letters_of(word));
    width_of(letters.saturating_add(CHIP_LETTERS))
}

impl Sheet {
    /// An empty sheet.
    pub fn new(alloc: Global) -> Sheet {
        Sheet {
            alloc,
            bottom: 0,
            boxes: ViewBoxList::new(alloc),
            pieces: PieceList::new(alloc),
        }
    }

    /// Leaves a gap of this height, in units, below all that was put.
    pub fn skip(&mut self, height: u32) {
        self.bottom = self.bottom.saturating_add(height);
    }

    /// Puts a line of text below all that was put, in this part of the width. Its text stays whole, and is cut where it is drawn.
    pub fn put_line(&mut self, kind: LineKind, span: Span, text: Text) -> Result<(), AllocError> {
        let at = Point {
            x: span.left,
            y: self.bottom.saturating_add(FOOT),
        };
        let letters = kind.letters_in(span.width());
        self.skip(LINE);
        self.pieces.push(Piece::Line(Line {
            kind,
            at,
            letters,
            text,
        }))
    }

    /// Puts a participant's chip into a row that has the part `span` of the width: at `left`, or at the beginning of a new row where it has no room
    /// there. The result is how far from the left edge the next chip stands, in units.
    pub fn put_chip(
        &mut self,
        span: Span,
        left: u32,
        name: Name,
        part: Part,
        is_withheld: bool,
    ) -> Result<u32, AllocError> {
        let width = chip_width(name, part, is_withheld).min(span.width());
        let mut left = left;
        if left > span.left && left.saturating_add(width) > span.right {
            self.skip(CHIP + CHIP_GAP);
            left = span.left;
        }
        let frame = Frame {
            corner: Point {
                x: left,
                y: self.bottom,
            },
            size: Size {
                width,
                height: CHIP,
            },
            radius: CHIP / 2,
        };
        self.pieces.push(Piece::Chip(Chip {
            name,
            part,
            is_withheld,
            frame,
        }))?;
        Ok(left.saturating_add(width).saturating_add(CHIP_GAP))
    }

    /// Ends a row of chips: what is put next stands below it.
    pub fn end_chips(&mut self) {
        self.skip(CHIP + CHIP_GAP);
    }

    /// Begins a box below all that was put. The result is how far from the top edge it begins, in units: the `top` that `end_box` takes.
    pub fn begin_box(&mut self) -> u32 {
        self.skip(BOX_GAP);
        let top = self.bottom;
        self.skip(INSIDE);
        top
    }

    /// Ends the box that began at `top`, so that all that was put since stands inside it. It goes over the part `span` of the width.
    pub fn end_box(&mut self, span: Span, top: u32, kind: BoxKind) -> Result<(), AllocError> {
        self.skip(INSIDE / 2);
        let frame = Frame {
            corner: Point {
                x: span.left,
                y: top,
            },
            size: Size {
                width: span.width(),
                height: self.bottom.saturating_sub(top),
            },
            radius: INSIDE / 2,
        };
        self.skip(INSIDE);
        self.boxes.push(ViewBox { frame, kind })
    }
}
