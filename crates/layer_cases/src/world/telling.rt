//! What is told of a log and of what the participants know.
use crate::answer::Answer;
use canton_model::EntryList;
use consist::find_inconsistent;
use ledger_terms::Topology;
use node_core::{Node, NodeView, NodeViewList, SubmitResultList};
use report_text::{Submissions, report};
use script_read::RoundList;
use seq_log::Sequencer;
use std::alloc::{AllocError, Global};
use trigger_rules::CausedList;
use world_play::World;

/// Puts the report at the end, and for each participant whether the commits of its log are consistent.
pub(crate) fn put_told(
    alloc: Global,
    topology: &Topology,
    world: &mut World<'_>,
    out: &mut Answer,
) -> Result<(), AllocError> {
    let views = views_of(alloc, world.nodes.as_slice())?;
    put_report(alloc, topology, &mut world.sequencer, &views, out)?;
    put_consistency(alloc, topology, &views, out);
    Ok(())
}

/// What each of the participants knows at its clean place, in their order.
fn views_of(alloc: Global, nodes: &[Node<'_>]) -> Result<NodeViewList, AllocError> {
    let mut views = NodeViewList::new(alloc);
    for node in nodes {
        views.push(NodeView::of(alloc, node, false)?)?;
    }
    Ok(views)
}

/// Puts the report of a log at the end. It is of no rounds, and so has no results.
pub(crate) fn put_report(
    alloc: Global,
    topology: &Topology,
    sequencer: &mut Sequencer<'_>,
    views: &NodeViewList,
    out: &mut Answer,
) -> Result<(), AllocError> {
    let log = log_of(alloc, sequencer)?;
    let rounds = RoundList::new(alloc);
    let results = SubmitResultList::new(alloc);
    let submissions = Submissions {
        rounds: &rounds,
        results: &results,
    };
    let caused = CausedList::new(alloc);
    let text = report(alloc, topology, &submissions, &log, views, &caused)?;
    out.put(text.as_str());
    Ok(())
}

/// A copy of the log.
fn log_of(alloc: Global, sequencer: &mut Sequencer<'_>) -> Result<EntryList, AllocError> {
    let mut log = EntryList::new(alloc);
    for place in 0..sequencer.len() {
        if let Some(slip) = sequencer.entry(place) {
            log.push(slip.entry().clone()?)?;
        }
    }
    Ok(log)
}

/// Puts a line for each participant at the end: whether the commits of its log are consistent.
fn put_consistency(alloc: Global, topology: &Topology, views: &NodeViewList, out: &mut Answer) {
    for (host, view) in topology.hosts.as_slice().iter().zip(views.as_slice()) {
        match find_inconsistent(alloc, &view.commits) {
            Ok(Some(_)) => out.line(&["inconsistent", host.name.as_str()]),
            Ok(None) => out.line(&["consistent", host.name.as_str()]),
            Err(_) => out.lack(),
        }
    }
}
