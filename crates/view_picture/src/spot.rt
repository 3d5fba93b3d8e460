//! Where a view stands.
use crate::span::Span;
use ledger_terms::{PartySet, Path};
use std::alloc::{AllocError, Global};

/// Where a view, or the list of views below one, stands: its path in the tree of views, its part of the picture's width, and the
/// informees of the views above it that are shown.
#[derive(Drop)]
pub(crate) struct Spot {
    pub path: Path,
    pub span: Span,
    pub told: PartySet,
}

impl Spot {
    /// Where the list of a transaction's root views stands: in this part of the width, with the empty path and no views above it.
    pub fn root(alloc: Global, span: Span) -> Spot {
        Spot {
            path: Path::new(alloc),
            span,
            told: PartySet::new(alloc),
        }
    }

    /// Where the view with the number `at` among those directly below stands, in this part of the width; `told` are the informees of the views above
    /// it.
    pub fn below(&self, at: u16, span: Span, told: &PartySet) -> Result<Spot, AllocError> {
        let mut path = self.path.clone()?;
        path.push(at)?;
        Ok(Spot {
            path,
            span,
            told: told.clone()?,
        })
    }

    /// Where the list of views directly below the view here stands: inside its box. Its informees, where they are known, join those above.
    pub fn inside(&self, informees: Option<&PartySet>) -> Result<Spot, AllocError> {
        let told = match informees {
            Some(informees) => self.told.union(informees)?,
            None => self.told.clone()?,
        };
        Ok(Spot {
            path: self.path.clone()?,
            span: self.span.inside(),
            told,
        })
    }
}
