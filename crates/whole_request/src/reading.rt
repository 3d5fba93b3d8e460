//! The whole of a request.
ghost use Rattle.std.specs.Prelude.{◌≡◌, true, IfOk, option_map};
ghost use Rattle.lang_eval.specs.Found.{Packages};
ghost use Rattle.view_split.specs.Split.{assembled};
ghost use Rattle.blind_tree.specs.Vertices.{IsNarrow};
ghost use Rattle.framed_form.specs.Framed.{is_framed};
ghost use Rattle.framed_form.specs.FramedReading.{framed_reading};
ghost use Rattle.framed_form.specs.Outlines.{IsOutline};
ghost use Rattle.whole_request.specs.Completes.{completes, time_told, transaction, whole_told};

use crate::complete::{complete_envelopes, parts_of, requesters_among};
use crate::together::views_together;
use crate::whole_transaction::WholeTransaction;
use blind_tree::{Tree, read_head};
use canton_model::Request;
use ledger_terms::{ActionNodeList, Path, Topology};
use proto_model::{Outline, read_outline, tree_in};
use std::alloc::{AllocError, Global};
use view_split::{ViewList, into_assembled};
use wire_form::WireFault;

/// The whole of a framed request, and None where its complete envelopes don't open all of it. Each view comes from the first of them that opens it to a
/// participant that sees it, the requesters from the first to one that sees a root view, and the ledger time from the mediator's bytes.
pub fn whole_of(
    alloc: Global,
    topology: &Topology,
    request: &Request,
) -> Result<Option<WholeTransaction>, AllocError>
    ensures { IfOk result (λ o. (packages : Packages) → is_framed topology.now request.now ≡ true
        → option_map transaction o ≡ (framed_reading topology.now packages).whole request.now) }
{
    let Some(outline) = read_outline(alloc, request)? else {
        return Ok(None);
    };
    let Some(told) = tree_in(alloc, request.mediator.as_slice())? else {
        return Ok(None);
    };
    whole_told(alloc, topology, request, &outline, &told)
}

// As `whole_of`, where the outline and the tree that the mediator's bytes tell have been read.
fn whole_told(
    alloc: Global,
    topology: &Topology,
    request: &Request,
    outline: &Outline,
    told: &Tree,
) -> Result<Option<WholeTransaction>, AllocError>
    requires outline { IsOutline request.now outline.now }
    requires narrow { IsNarrow told.now.views }
    ensures { IfOk result (λ o. option_map transaction o ≡ whole_told (completes topology.now request.now request.now.envelopes) told.now) }
{
    let Some(ledger_time) = time_told(told)? else {
        return Ok(None);
    };
    let envelopes = complete_envelopes(alloc, topology, request, outline)?;
    let Some(requesters) = requesters_among(envelopes.as_slice())? else {
        return Ok(None);
    };
    let parts = parts_of(alloc, envelopes.as_slice())?;
    let Some(views) = views_together(alloc, &Path::new(alloc), parts.as_slice(), &told.views)?
    else {
        return Ok(None);
    };
    let roots = actions_of(alloc, views)?;
    Ok(Some(WholeTransaction {
        requesters,
        ledger_time,
        roots,
    }))
}

fn time_told(told: &Tree) -> Result<Option<u64>, AllocError>
    ensures { IfOk result (λ ledger_time. ledger_time ≡ time_told told.now) }
{
    match read_head(&told.common) {
        Ok((_, ledger_time)) => Ok(Some(ledger_time)),
        Err(WireFault::Bad { .. }) => Ok(None),
        Err(WireFault::Memory) => Err(AllocError),
    }
}

// The trees of actions of these views, one for each root view.
fn actions_of(alloc: Global, views: ViewList) -> Result<ActionNodeList, AllocError>
    ensures { IfOk result (λ actions. actions ≡ assembled views) }
{
    let mut actions = ActionNodeList::new(alloc);
    'views: for view in views.into_vec() {
        actions.push(into_assembled(alloc, view)?)?;
    }
    Ok(actions)
}
