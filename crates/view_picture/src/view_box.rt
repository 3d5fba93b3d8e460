//! Boxes of views.
use ledger_terms::ListOf;
use svg_text::Frame;

/// How a box looks.
#[derive(Clone, Copy)]
pub enum BoxKind {
    /// The box of a view on an odd level, where roots stand on the first.
    Tinted,
    /// The box of a view on an even level.
    Plain,
    /// The box of a view that isn't shown.
    Blinded,
    /// The box of a view that isn't shown, where it is withheld from somebody.
    Withheld,
}

/// The box round a view's actions. Of a view that isn't shown it holds hashes alone.
#[derive(Clone, Copy)]
pub struct ViewBox {
    pub frame: Frame,
    pub kind: BoxKind,
}

/// Boxes, each after those inside it.
pub type ViewBoxList = ListOf<ViewBox>;
