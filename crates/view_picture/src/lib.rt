//! Pictures of requests: the tree of each transaction with its views, as its messages tell it.
#![tactic(auto)]

mod audience;
mod chip;
mod chips;
mod cut;
mod disclosed_request;
mod disclosure;
mod drawing;
mod lack;
mod line;
mod offer;
mod part;
mod picture;
mod piece;
mod request;
mod sheet;
mod shown;
mod span;
mod spot;
mod steps;
mod told;
mod vertices;
mod view_box;
mod views;
mod withheld;
mod words;

pub use chip::Chip;
pub use drawing::drawn;
pub use line::{Line, LineKind};
pub use part::Part;
pub use picture::{MOST_ENTRIES, Picture, picture_of};
pub use piece::{Piece, PieceList};
pub use shown::{shown_action, shown_pieces};
pub use view_box::{BoxKind, ViewBox, ViewBoxList};
