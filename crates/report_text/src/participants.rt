//! The lines of the participants. After want of memory nothing is said of the text that they were to be put into.
ghost use Rattle.std.specs.Prelude.{◌≡◌, ◌++◌, OnOk, string_bytes};
ghost use Rattle.std.specs.List.{flat_map, zip};
ghost use Rattle.report_text.specs.Participants.{commit_lines, active_line, participant_line, participant_lines, pruned_line, withheld_line};

use crate::actions::put_trees;
use crate::values::{put_instance, put_number};
use ledger_model::{Commit, CommitList};
use ledger_terms::{ActiveRow, ActiveRowList, Host, HostList, U64List};
use node_core::{NodeView, NodeViewList};
use std::alloc::AllocError;

fn put_commit(out: &mut String, commit: &Commit) -> Result<(), AllocError>
    ensures { OnOk result (string_bytes out.new ≡ string_bytes out.old ++ commit_lines commit.now) }
{
    out.push_str("commit ")?;
    put_number(out, commit.place)?;
    out.push_str("\n")?;
    put_trees(out, 1, &commit.roots)
}

fn put_commits(out: &mut String, commits: &CommitList) -> Result<(), AllocError>
    ensures { OnOk result (string_bytes out.new ≡ string_bytes out.old ++ flat_map commit_lines commits.now) }
{
    'commits: for commit in commits.as_slice() {
        put_commit(out, commit)?;
    }
    Ok(())
}

fn put_active(out: &mut String, row: &ActiveRow) -> Result<(), AllocError>
    ensures { OnOk result (string_bytes out.new ≡ string_bytes out.old ++ active_line row.now) }
{
    out.push_str("active ")?;
    put_number(out, row.created_at)?;
    out.push_str(" ")?;
    put_instance(out, &row.known.instance)?;
    out.push_str("\n")
}

fn put_actives(out: &mut String, rows: &ActiveRowList) -> Result<(), AllocError>
    ensures { OnOk result (string_bytes out.new ≡ string_bytes out.old ++ flat_map active_line rows.now) }
{
    'rows: for row in rows.as_slice() {
        put_active(out, row)?;
    }
    Ok(())
}

fn put_withheld_place(out: &mut String, place: u64) -> Result<(), AllocError>
    ensures { OnOk result (string_bytes out.new ≡ string_bytes out.old ++ withheld_line place) }
{
    out.push_str("withheld ")?;
    put_number(out, place)?;
    out.push_str("\n")
}

fn put_withheld(out: &mut String, places: &U64List) -> Result<(), AllocError>
    ensures { OnOk result (string_bytes out.new ≡ string_bytes out.old ++ flat_map withheld_line places.now) }
{
    'places: for place in places.as_slice() {
        put_withheld_place(out, *place)?;
    }
    Ok(())
}

fn put_participant_line(out: &mut String, host: &Host, view: &NodeView) -> Result<(), AllocError>
    ensures { OnOk result (string_bytes out.new ≡ string_bytes out.old ++ participant_line host.now view.now) }
{
    let name = host.name.as_str();
    let clean = view.clean;
    let time = view.clean_time;
    write!(out, "participant {name} clean {clean} time {time}\n")
}

fn put_pruned(out: &mut String, pruned: Option<u64>) -> Result<(), AllocError>
    ensures { OnOk result (string_bytes out.new ≡ string_bytes out.old ++ pruned_line pruned) }
{
    match pruned {
        None => Ok(()),
        Some(base) => write!(out, "pruned {base}\n"),
    }
}

fn put_participant(out: &mut String, host: &Host, view: &NodeView) -> Result<(), AllocError>
    ensures { OnOk result (string_bytes out.new ≡ string_bytes out.old ++ participant_lines (host.now, view.now)) }
{
    put_participant_line(out, host, view)?;
    put_pruned(out, view.pruned)?;
    put_withheld(out, &view.withheld)?;
    put_commits(out, &view.commits)?;
    put_actives(out, &view.active)
}

/// Puts the lines of each participant at the end of the text: its clean place and time, its base if it restarted, and what it knows at its clean place.
/// `views` has what each knows, in the order of `hosts`.
pub fn put_participants(
    out: &mut String,
    hosts: &HostList,
    views: &NodeViewList,
) -> Result<(), AllocError>
    ensures { OnOk result (string_bytes out.new ≡ string_bytes out.old ++ flat_map participant_lines (zip hosts.now views.now)) }
{
    'hosts: for (at, host) in hosts.as_slice().iter().enumerate() {
        if let Some(view) = views.get(at) {
            put_participant(out, host, view)?;
        }
    }
    Ok(())
}
