//! What the mediator's bytes tell everybody.
ghost use Rattle.std.specs.Prelude.{◌≡◌, false, IfNone, IfOk, IfSome};
ghost use Rattle.ledger_terms.specs.declared.topology.Topology.{Topology};
ghost use Rattle.canton_model.specs.declared.request.Request.{Request};
ghost use Rattle.blind_tree.specs.Vertices.{IsNarrow};
ghost use Rattle.framed_form.specs.Framed.{is_framed};
ghost use Rattle.framed_form.specs.Outlines.{IsOutline, IsTold};

use crate::told_tree::{ToldTree, read_told_tree};
use blind_tree::{ViewRolesList, root_of};
use canton_model::Request;
use ledger_terms::Hash;
use std::alloc::{AllocError, Global};

/// What the mediator's bytes of a request tell: the hash of their tree, which is to be that of each envelope's, and the informees
/// and confirmers of every view, each view before those below it.
#[derive(Drop)]
pub struct Outline {
    pub root: Hash,
    pub views: ViewRolesList,
}

/// What the mediator's tree tells, with its hash.
pub(crate) fn outline_of(alloc: Global, told: ToldTree) -> Result<Outline, AllocError>
    requires { IsNarrow told.tree.views }
    ensures { IfOk result (λ outline. (request : Request) → IsTold request told → IsOutline request outline) }
{
    let ToldTree { tree, roles } = told;
    let root = root_of(alloc, &tree)?;
    Ok(Outline {
        root,
        views: roles.views,
    })
}

/// What the mediator's bytes of a request tell, and None where they can't be read. Those of a framed request can. Err is want of memory.
pub fn read_outline(alloc: Global, request: &Request) -> Result<Option<Outline>, AllocError>
    ensures none { IfOk result (λ o. IfNone o ((topology : Topology) → is_framed topology request.now ≡ false)) }
    ensures some { IfOk result (λ o. IfSome o (λ outline. IsOutline request.now outline)) }
{
    match read_told_tree(alloc, request)? {
        Some(told) => Ok(Some(outline_of(alloc, told)?)),
        None => Ok(None),
    }
}
