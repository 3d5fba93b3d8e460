//! Which of the views that the mediator is told of a participant sees, and which it confirms.
ghost use Rattle.std.specs.Prelude.{◌≡◌, ◌++◌, ◌∷◌, [], if◌then◌else◌, IfOk, OnOk};
ghost use Rattle.std.specs.List.{list_any};
ghost use Rattle.ledger_terms.specs.Forest.{Forest};
ghost use Rattle.ledger_terms.specs.Hosting.{confirms_at, hosts_at};
ghost use Rattle.ledger_model.specs.Opening.{is_root_path};
ghost use Rattle.blind_tree.specs.Leaves.{Sets};
ghost use Rattle.framed_form.specs.Frames.{seen_in};
ghost use Rattle.framed_form.specs.Outlines.{listed_views};
ghost use Rattle.proto_model.specs.Notices.{confirmed_among, top_here, top_seen};

use blind_tree::{ViewRoles, ViewRolesList};
use ledger_terms::{Exact, ParticipantId, PathList, Topology};
use std::alloc::{AllocError, Global};

// How many steps a view's path has, where the participant hosts an informee of it; else None.
fn top_here(topology: &Topology, me: ParticipantId, view: &ViewRoles) -> Option<usize>
    ensures { result ≡ top_here (hosts_at topology.now.hosts me) view.now }
{
    if topology.hosts_any(me, &view.informees) {
        Some(view.path.as_slice().len())
    } else {
        None
    }
}

// How many steps the path has of the topmost view that the participant sees, of this one and those above it; None where it sees none of them. `top`
// is this of the view before it.
fn top_seen(
    topology: &Topology,
    me: ParticipantId,
    top: Option<usize>,
    view: &ViewRoles,
) -> Option<usize>
    ensures { result ≡ top_seen (hosts_at topology.now.hosts me) top view.now }
{
    match top {
        Some(above) if above < view.path.as_slice().len() => top,
        _ => top_here(topology, me, view),
    }
}

/// The paths of those of the views that participant `me` sees, in their order: those with an informee that it hosts, and all below them. The views
/// stand in order of path, as an outline has them.
pub fn seen_among(
    alloc: Global,
    topology: &Topology,
    me: ParticipantId,
    views: &ViewRolesList,
) -> Result<PathList, AllocError>
    ensures { IfOk result (λ paths. (told : Forest Sets) → views.now ≡ listed_views told → paths ≡ seen_in (hosts_at topology.now.hosts me) told) }
{
    let mut seen = PathList::new(alloc);
    let mut top = None;
    for view in views.as_slice() {
        top = top_seen(topology, me, top, view);
        push_if(top.is_some(), view, &mut seen)?;
    }
    Ok(seen)
}

fn push_if(wanted: bool, view: &ViewRoles, paths: &mut PathList) -> Result<(), AllocError>
    ensures { OnOk result (paths.new ≡ paths.old ++ (if wanted then view.now.path ∷ [] else [])) }
{
    if wanted {
        paths.push(view.path.copied()?)?;
    }
    Ok(())
}

/// The paths of those of the views that participant `me` confirms, in their order: those with a confirmer for whom it confirms.
pub fn confirmed_among(
    alloc: Global,
    topology: &Topology,
    me: ParticipantId,
    views: &ViewRolesList,
) -> Result<PathList, AllocError>
    ensures { IfOk result (λ paths. paths ≡ confirmed_among (confirms_at topology.now.hosts me) views.now) }
{
    let mut confirmed = PathList::new(alloc);
    for view in views.as_slice() {
        push_if(
            topology.confirms_any(me, &view.confirmers),
            view,
            &mut confirmed,
        )?;
    }
    Ok(confirmed)
}

/// Whether one of these paths is that of a root view, which has one step. Who sees a root view is to be told the requesters.
pub fn has_root(paths: &PathList) -> bool
    ensures { result ≡ list_any is_root_path paths.now }
{
    paths.as_slice().iter().any(|path| is_root(path.as_slice()))
}

fn is_root(path: &[u16]) -> bool
    ensures { result ≡ is_root_path path.now }
{
    match path {
        [_] => true,
        _ => false,
    }
}
