//! What the mediator reads of a request.
ghost use Rattle.std.specs.Prelude.{◌≡◌, IfOk};
ghost use Rattle.proto_model.specs.RequestedViews.{requested_views};

use blind_tree::{RolesTree, informee_tree};
use canton_model::Request;
use framed_form::tree_in;
use std::alloc::{AllocError, Global};
use wire_form::WireFault;

/// The sender's name, and the informees and confirmers of every view, as the mediator's bytes tell them. None where these can't be read.
pub fn requested_views(alloc: Global, request: &Request) -> Result<Option<RolesTree>, AllocError>
    ensures { IfOk result (λ views. views ≡ requested_views request.now) }
{
    let Some(tree) = tree_in(alloc, request.mediator.as_slice())? else {
        return Ok(None);
    };
    match informee_tree(alloc, &tree) {
        Ok(views) => Ok(Some(views)),
        Err(WireFault::Bad { .. }) => Ok(None),
        Err(WireFault::Memory) => Err(AllocError),
    }
}
