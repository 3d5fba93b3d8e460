//! The consistency of a ledger (Ledger Model: consistency).
ghost use Rattle.std.specs.Prelude.{◌≡◌, ◌↔◌, [], None, IfOk, IfSome};
ghost use Rattle.ledger_model.specs.Consistency.{Consistent};
ghost use Rattle.consist.specs.Breaks.{Breaks, breaks};
ghost use Rattle.consist.specs.First.{IsFirst, first_found};
ghost use Rattle.consist.specs.Placed.{placed_in, acts_of_parts};

use crate::ledger_place::LedgerPlace;
use crate::rule::Rule;
use crate::walk::walk_trees;
use ledger_model::CommitList;
use ledger_terms::Path;
use std::alloc::{AllocError, Global};

fn first_breaking(alloc: Global, ledger: &CommitList) -> Result<Option<LedgerPlace>, AllocError>
    ensures { IfOk result (λ found. first_found breaks [] (placed_in ledger.now) ≡ found) }
{
    let mut earlier = Vec::new(alloc);
    for commit in ledger.as_slice() {
        let mut path = Vec::new(alloc);
        let stopped = walk_trees(Rule::Consistent, &commit.roots, &mut earlier, &mut path)?;
        if stopped {
            return Ok(Some(LedgerPlace {
                commit: commit.place,
                path: Path::of(path),
            }));
        }
    }
    Ok(None)
}

/// Where the first action of a ledger stands, in commit order and then pre-order, that breaks consistency: it isn't a Create and no Create of its
/// contract stands before it, or it is one and not the first on its contract, a consuming Exercise of it stands before it, or an earlier action on it
/// has another instance. None where no action does; Err is want of memory.
pub fn find_inconsistent(
    alloc: Global,
    ledger: &CommitList,
) -> Result<Option<LedgerPlace>, AllocError>
    ensures first { IfOk result (λ found. IfSome found (λ at. IsFirst Breaks (placed_in ledger.now) at)) }
    ensures none { IfOk result (λ found. (found ≡ None) ↔ Consistent (acts_of_parts ledger.now)) }
{
    first_breaking(alloc, ledger)
}
