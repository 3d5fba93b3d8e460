//! The whole report.
ghost use Rattle.std.specs.Prelude.{◌≡◌, IfOk};
ghost use Rattle.report_text.specs.Report.{report_of};

use crate::entries::put_entries;
use crate::fired::put_fired;
use crate::outcome_lines::put_outcomes;
use crate::participants::put_participants;
use crate::results::put_results;
use crate::submissions::Submissions;
use crate::values::put_number;
use canton_model::EntryList;
use ledger_terms::{Text, Topology};
use node_core::NodeViewList;
use std::alloc::{AllocError, Global};
use trigger_rules::CausedList;

/// The report of a run: its log, the results of the submissions, what rules caused, the outcomes of the requests, and what each participant knows at its
/// clean place, `views`, in the order of the topology. Each line ends with one line feed.
pub fn report(
    alloc: Global,
    topology: &Topology,
    submissions: &Submissions<'_>,
    log: &EntryList,
    views: &NodeViewList,
    caused: &CausedList,
) -> Result<Text, AllocError>
    ensures { IfOk result (λ text. text ≡ report_of topology.now submissions.now.rounds.now log.now submissions.now.results.now views.now
        caused.now) }
{
    let mut out = String::new(alloc);
    out.push_str("entries ")?;
    put_number(&mut out, log.len() as u64)?;
    out.push_str("\n")?;
    put_entries(alloc, &mut out, &topology.hosts, log)?;
    put_results(&mut out, &topology.hosts, submissions, caused)?;
    put_fired(&mut out, caused)?;
    put_outcomes(alloc, &mut out, topology, log)?;
    put_participants(&mut out, &topology.hosts, views)?;
    out.push_str("end\n")?;
    Ok(Text::of_string(out))
}
