//! What stands in a picture.
use crate::chip::Chip;
use crate::line::Line;
use ledger_terms::ListOf;

/// What stands in a picture beside boxes: a line of text or a chip.
#[derive(Drop)]
pub enum Piece {
    Line(Line),
    Chip(Chip),
}

/// Lines and chips, in the order in which they are read.
pub type PieceList = ListOf<Piece>;
