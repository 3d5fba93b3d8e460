//! The mediator's tree, with what it tells.
ghost use Rattle.std.specs.Prelude.{◌≡◌, false, IfNone, IfOk, IfSome};
ghost use Rattle.ledger_terms.specs.declared.topology.Topology.{Topology};
ghost use Rattle.blind_tree.specs.InRange.{IsTree};
ghost use Rattle.sealed_form.specs.SealedForm.{tree_in};
ghost use Rattle.framed_form.specs.Framed.{is_framed};
ghost use Rattle.framed_form.specs.Outlines.{IsTold};

use blind_tree::{RolesTree, Tree, decode_tree, informee_tree};
use canton_model::Request;
use std::alloc::{AllocError, Global};
use wire_form::WireFault;

/// The tree that the mediator's bytes of a request spell, and what it tells.
#[derive(Drop)]
pub struct ToldTree {
    pub tree: Tree,
    pub roles: RolesTree,
}

/// The tree that bytes spell, and None exactly where they spell none. Err is want of memory.
pub fn tree_in(alloc: Global, bytes: &[u8]) -> Result<Option<Tree>, AllocError>
    ensures exact { IfOk result (λ tree. tree ≡ tree_in bytes.now) }
    ensures fits { IfOk result (λ o. IfSome o (λ tree. IsTree tree)) }
{
    match decode_tree(alloc, bytes) {
        Ok(tree) => Ok(Some(tree)),
        Err(WireFault::Memory) => Err(AllocError),
        Err(WireFault::Bad { .. }) => Ok(None),
    }
}

/// The mediator's tree of a request with what it tells, and None where the mediator's bytes can't be read. Those of a framed request can. Err is want
/// of memory.
pub fn read_told_tree(alloc: Global, request: &Request) -> Result<Option<ToldTree>, AllocError>
    ensures none { IfOk result (λ o. IfNone o ((topology : Topology) → is_framed topology request.now ≡ false)) }
    ensures some { IfOk result (λ o. IfSome o (λ told. IsTold request.now told)) }
{
    let Some(tree) = tree_in(alloc, request.mediator.as_slice())? else {
        return Ok(None);
    };
    match informee_tree(alloc, &tree) {
        Ok(roles) => Ok(Some(ToldTree { tree, roles })),
        Err(WireFault::Bad { .. }) => Ok(None),
        Err(WireFault::Memory) => Err(AllocError),
    }
}
