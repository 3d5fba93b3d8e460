//! Where an action stands.
ghost use Rattle.std.specs.Prelude.{◌≡◌, ◌<◌, ◌+◌, ◌-◌, ◌++◌, ◌∷◌, [], IfOk};
ghost use Rattle.interpret.specs.Ids.{child_seed};

use crate::command_fault::{copy_path, root_path};
use crate::ids::seed_of_child;
use ledger_terms::limits::MOST_ACTION_DEPTH;
use ledger_terms::{Hash, Path};
use std::alloc::{AllocError, Global};

/// The place of an action in its transaction: its path, its seed, and for how many levels there is room from it down.
#[derive(Drop)]
pub(crate) struct Place {
    pub path: Path,
    pub seed: Hash,
    pub left: u32,
}

impl Place {
    /// The place of a root action, of a transaction with that seed.
    pub(crate) fn root(alloc: Global, seed: &Hash, index: u16) -> Result<Place, AllocError>
        ensures path { IfOk result (λ p. p.path ≡ index ∷ []) }
        ensures seed { IfOk result (λ p. p.seed ≡ child_seed seed.now index) }
        ensures left { IfOk result (λ p. p.left ≡ MOST_ACTION_DEPTH) }
    {
        Ok(Place {
            path: root_path(alloc, index)?,
            seed: seed_of_child(seed, index),
            left: MOST_ACTION_DEPTH as u32,
        })
    }

    /// The place over the root actions, of a transaction with that seed.
    pub(crate) fn top(alloc: Global, seed: &Hash) -> Place
        ensures path { result.path ≡ [] }
        ensures seed { result.seed ≡ seed.now }
        ensures left { result.left ≡ MOST_ACTION_DEPTH + 1 }
    {
        Place {
            path: Path::new(alloc),
            seed: *seed,
            left: MOST_ACTION_DEPTH as u32 + 1,
        }
    }

    /// The place of the child at an index.
    pub(crate) fn child(&self, index: u16) -> Result<Place, AllocError>
        requires { 0 < self.now.left }
        ensures path { IfOk result (λ p. p.path ≡ self.now.path ++ index ∷ []) }
        ensures seed { IfOk result (λ p. p.seed ≡ child_seed self.now.seed index) }
        ensures left { IfOk result (λ p. p.left ≡ self.now.left - 1) }
    {
        let mut path = copy_path(&self.path)?;
        path.push(index)?;
        Ok(Place {
            path,
            seed: seed_of_child(&self.seed, index),
            left: self.left - 1,
        })
    }
}
