//! What is drawn.

/// The names of the drawings, with which their help and the lines of their faults begin.
pub(crate) const CHART: &str = "canton_chart";

pub(crate) const VIEWS: &str = "canton_views";

pub(crate) const PAGE: &str = "canton_page";

/// What the first word says to draw.
#[derive(Clone, Copy)]
pub(crate) enum Drawing {
    Chart,
    Views,
    Page,
}

impl Drawing {
    /// The drawing that a word names. None: it names none.
    pub(crate) fn named(word: &[u8]) -> Option<Drawing> {
        match word {
            b"chart" => Some(Drawing::Chart),
            b"views" => Some(Drawing::Views),
            b"page" => Some(Drawing::Page),
            _ => None,
        }
    }

    /// The name of the drawing, with which its help and the lines of its faults begin.
    pub(crate) fn name(self) -> &'static str {
        match self {
            Drawing::Chart => CHART,
            Drawing::Views => VIEWS,
            Drawing::Page => PAGE,
        }
    }
}
