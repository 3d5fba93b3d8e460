//! What a job writes of a run.
ghost use Rattle.std.specs.Prelude.{◌≡◌, ◌≤◌, ℕ, List, [], All, IfOk, length, map};
ghost use Rattle.cli_words.specs.declared.job.Job.TheVariants.{Dump};
ghost use Rattle.commitment_text.specs.Commitments.{commitments_of};
ghost use Rattle.commitment_text.specs.Knowledge.{knowledge_of};
ghost use Rattle.framed_form.specs.FramedReading.{framed_reading};
ghost use Rattle.log_dump.specs.InRange.{IsBlock, IsTyped};
ghost use Rattle.log_dump.specs.Spellable.{IsSpellableBlock, IsSpellableLog};
ghost use Rattle.log_dump.specs.Spelling.{spell_dump};
ghost use Rattle.report_text.specs.Report.{report_of};
ghost use Rattle.report_text.specs.Totals.{summary_of};
ghost use Rattle.script_read.specs.declared.round.Round.{Round};
ghost use Rattle.trigger_rules.specs.declared.rule.Rule.{Rule};
ghost use Rattle.canton_run.specs.Jobs.{text_over};
ghost use Rattle.canton_run.specs.Restarts.{view_in};
ghost use Rattle.canton_run.specs.Run.{script_with};

use crate::played::RunRecord;
use crate::run_plan::RunPlan;
use crate::views::{actives_of, remains_of, views_of};
use cli_words::Job;
use commitment_text::commitments;
use confirm_reply::Setup;
use ledger_terms::{Bytes, Text, Topology};
use log_dump::encode_dump;
use node_core::{NodeRemains, NodeViewList};
use report_text::{Submissions, report, summary};
use script_read::RoundList;
use std::alloc::{AllocError, Global};
use world_play::NodeList;

/// The text of a job, or the bytes of a dump, with what is left of the participants: what they know, where that was asked, and else
/// what they kept.
#[derive(Drop)]
pub struct JobText {
    pub text: Bytes,
    pub views: NodeViewList,
    pub nodes: Vec<NodeRemains>,
}

// The bytes of a text, without memory.
fn bytes_of(text: Text) -> Bytes
    ensures { result ≡ text }
{
    Bytes::of(text.into_string().into_bytes())
}

fn report_text(
    alloc: Global,
    topology: &Topology,
    rounds: &RoundList,
    run_record: &RunRecord,
    nodes: NodeList<'_>,
) -> Result<JobText, AllocError>
    ensures { IfOk result (λ told. told.text ≡ report_of topology.now rounds.now run_record.now.log run_record.now.results
        (map (view_in rounds.now) nodes.entry.items) run_record.now.caused) }
{
    let views = views_of(alloc, rounds, nodes)?;
    let submissions = Submissions {
        rounds,
        results: &run_record.results,
    };
    let text = report(
        alloc,
        topology,
        &submissions,
        &run_record.log,
        &views,
        &run_record.caused,
    )?;
    Ok(JobText {
        text: bytes_of(text),
        views,
        nodes: Vec::new(alloc),
    })
}

fn summary_text(
    alloc: Global,
    topology: &Topology,
    run_record: &RunRecord,
    nodes: NodeList<'_>,
) -> Result<JobText, AllocError>
    ensures { (rounds : List Round) → IfOk result (λ told. told.text
        ≡ summary_of topology.now run_record.now.log run_record.now.results (map (view_in rounds) nodes.entry.items)) }
{
    let actives = actives_of(alloc, nodes.as_slice())?;
    let text = summary(
        alloc,
        topology,
        &run_record.log,
        &run_record.results,
        &actives,
    )?;
    Ok(JobText {
        text: bytes_of(text),
        views: NodeViewList::new(alloc),
        nodes: remains_of(alloc, nodes)?,
    })
}

fn commitments_text(
    alloc: Global,
    setup: &Setup,
    nodes: NodeList<'_>,
) -> Result<JobText, AllocError>
    requires { length setup.now.topology.hosts ≤ 256 }
    ensures { IfOk result (λ told. told.text
        ≡ commitments_of (framed_reading setup.now.topology setup.now.checked) setup.now.topology.hosts (map knowledge_of nodes.entry.items)) }
{
    let text = commitments(alloc, setup, nodes.as_slice())?;
    Ok(JobText {
        text: bytes_of(text),
        views: NodeViewList::new(alloc),
        nodes: remains_of(alloc, nodes)?,
    })
}

// The dump of the script's bytes and the log.
fn dump_text(
    alloc: Global,
    script: &[u8],
    run_record: &RunRecord,
    nodes: NodeList<'_>,
) -> Result<JobText, AllocError>
    requires script { IsSpellableBlock script.now }
    requires log { IsSpellableLog run_record.now.log }
    ensures written { IfOk result (λ told. told.text ≡ spell_dump script.now run_record.now.log) }
    ensures spellable { IfOk result (λ told. IsBlock script.now × All IsTyped run_record.now.log) }
{
    let text = encode_dump(alloc, script, &run_record.log)?;
    Ok(JobText {
        text,
        views: NodeViewList::new(alloc),
        nodes: remains_of(alloc, nodes)?,
    })
}

// An audit writes nothing of a run.
fn no_text(alloc: Global, nodes: NodeList<'_>) -> Result<JobText, AllocError>
    ensures { IfOk result (λ told. told.text ≡ []) }
{
    Ok(JobText {
        text: Bytes::new(alloc),
        views: NodeViewList::new(alloc),
        nodes: remains_of(alloc, nodes)?,
    })
}

/// The text that the job writes of a run, nothing for an audit, with what is left of the run's participants. `script` are the bytes that the script was
/// read from, which a dump needs. A summary asks the participants for their active contracts alone, and commitments ask for those at the places at
/// which participants are compared. An Err is want of memory.
pub fn text_of(
    alloc: Global,
    job: Job,
    plan: &RunPlan<'_>,
    script: &[u8],
    run_record: &RunRecord,
    nodes: NodeList<'_>,
) -> Result<JobText, AllocError>
    requires hosts { length plan.now.setup.now.topology.hosts ≤ 256 }
    requires script { IsSpellableBlock script.now }
    requires log { IsSpellableLog run_record.now.log }
    ensures text { (rules : List Rule) → IfOk result (λ told. told.text
        ≡ text_over job script.now (script_with plan.now.setup.now rules plan.now.rounds.now) run_record.now.log run_record.now.results
        (map (view_in plan.now.rounds.now) nodes.entry.items) (map knowledge_of nodes.entry.items) run_record.now.caused) }
    ensures spellable { (workers log : ℕ) → job ≡ Dump workers log → IfOk result (λ told. IsBlock script.now × All IsTyped run_record.now.log) }
{
    let setup = plan.setup;
    match job {
        Job::Run { .. } => report_text(alloc, &setup.topology, plan.rounds, run_record, nodes),
        Job::Gen { .. } => summary_text(alloc, &setup.topology, run_record, nodes),
        Job::Commitments { .. } => commitments_text(alloc, setup, nodes),
        Job::Dump { .. } => dump_text(alloc, script, run_record, nodes),
        Job::Audit => no_text(alloc, nodes),
    }
}
