//! The order of actions inside a transaction.
ghost use Rattle.std.specs.Prelude.{◌≡◌, ◌↔◌, [], None, IfOk, IfSome};
ghost use Rattle.ledger_terms.specs.Forest.{preorder};
ghost use Rattle.ledger_model.specs.Status.{shows_unordered};
ghost use Rattle.consist.specs.First.{IsFirst, NoneShows, first_found};
ghost use Rattle.consist.specs.Placed.{placed};
ghost use Rattle.consist.specs.Rules.{IsUnordered};

use crate::rule::Rule;
use crate::walk::walk_trees;
use ledger_terms::{ActionNodeList, Path};
use std::alloc::{AllocError, Global};

fn first_unordered(alloc: Global, roots: &ActionNodeList) -> Result<Option<Path>, AllocError>
    ensures { IfOk result (λ found. first_found shows_unordered [] (placed roots.now) ≡ found) }
{
    let mut earlier = Vec::new(alloc);
    let mut path = Vec::new(alloc);
    let stopped = walk_trees(Rule::Ordered, roots, &mut earlier, &mut path)?;
    if stopped {
        return Ok(Some(Path::of(path)));
    }
    Ok(None)
}

/// The path of a transaction's first action, in pre-order, on a contract that an earlier action consumes, or that creates a contract on which an
/// earlier action is. None where there is no such action; Err is want of memory. A step of a path is kept in 16 bits. The layers' tests (`layer_cases`)
/// use it.
pub fn find_unordered(alloc: Global, roots: &ActionNodeList) -> Result<Option<Path>, AllocError>
    ensures first { IfOk result (λ found. IfSome found (λ path. IsFirst IsUnordered (placed roots.now) path)) }
    ensures none { IfOk result (λ found. (found ≡ None) ↔ NoneShows IsUnordered (preorder roots.now)) }
{
    first_unordered(alloc, roots)
}
