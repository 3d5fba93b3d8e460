//! The lines of a log's entries. After want of memory nothing is said of the text that they were to be put into.
ghost use Rattle.std.specs.Prelude.{◌≡◌, ◌++◌, IfOk, OnOk, string_bytes};
ghost use Rattle.std.specs.List.{flat_map, list_any};
ghost use Rattle.ledger_terms.specs.Hosting.{keeps_party};
ghost use Rattle.report_text.specs.Entries.{host_text, hosts_text, is_recipient, recipients_from, recipients_text, sees_one, views_told};
ghost use Rattle.report_text.specs.Entries.{path_text, view_text};
ghost use Rattle.report_text.specs.Entries.{decision_text, message_text, entry_line, entry_lines};

use crate::values::put_number;
use blind_tree::{ViewRoles, ViewRolesList};
use canton_model::{
    Decision, Entry, EntryList, LocalVerdict, Message, Request, ViewVerdict, ViewVerdictList,
};
use ledger_terms::{Host, HostList, Name, ParticipantId, ParticipantIdList, PartySet, Path};
use proto_model::requested_views;
use std::alloc::{AllocError, Global};

/// Puts the name of the participant with the index `at` among the hosts of the topology at the end of the text; nothing where there is none.
pub fn put_host(out: &mut String, hosts: &HostList, at: ParticipantId) -> Result<(), AllocError>
    ensures { OnOk result (string_bytes out.new ≡ string_bytes out.old ++ host_text hosts.now at) }
{
    match hosts.get(at.0 as usize) {
        Some(host) => out.push_str(host.name.as_str()),
        None => Ok(()),
    }
}

fn put_hosts(out: &mut String, hosts: &HostList, ids: &ParticipantIdList) -> Result<(), AllocError>
    ensures { OnOk result (string_bytes out.new ≡ string_bytes out.old ++ hosts_text hosts.now ids.now) }
{
    'ids: for id in ids.as_slice() {
        out.push_str(" ")?;
        put_host(out, hosts, *id)?;
    }
    Ok(())
}

fn keeps(host: &Host, party: Name) -> bool
    ensures { result ≡ keeps_party party host.now }
{
    host.parties.contains(party) || host.observing.contains(party)
}

fn has_one(host: &Host, parties: &PartySet) -> bool
    ensures { result ≡ list_any (λ party. keeps_party party host.now) parties.now }
{
    parties.as_slice().iter().any(|party| keeps(host, *party))
}

fn sees_one(host: &Host, views: &[ViewRoles]) -> bool
    ensures { result ≡ sees_one views.now host.now }
{
    views.iter().any(|view| has_one(host, &view.informees))
}

fn is_sent_to(sender: ParticipantId, views: &[ViewRoles], at: usize, host: &Host) -> bool
    ensures { result ≡ is_recipient sender views.now at host.now }
{
    at == sender.0 as usize || sees_one(host, views)
}

fn put_recipients_from(
    out: &mut String,
    sender: ParticipantId,
    views: &[ViewRoles],
    hosts: &[Host],
) -> Result<(), AllocError>
    ensures { OnOk result (string_bytes out.new ≡ string_bytes out.old ++ recipients_from sender views.now 0 hosts.now) }
{
    'hosts: for (at, host) in hosts.iter().enumerate() {
        if is_sent_to(sender, views, at, host) {
            out.push_str(" ")?;
            out.push_str(host.name.as_str())?;
        }
    }
    Ok(())
}

fn views_told(alloc: Global, request: &Request) -> Result<ViewRolesList, AllocError>
    ensures { IfOk result (λ views. views ≡ views_told request.now) }
{
    match requested_views(alloc, request)? {
        Some(told) => Ok(told.views),
        None => Ok(ViewRolesList::new(alloc)),
    }
}

fn put_recipients(
    alloc: Global,
    out: &mut String,
    hosts: &HostList,
    request: &Request,
) -> Result<(), AllocError>
    ensures { OnOk result (string_bytes out.new ≡ string_bytes out.old ++ recipients_text request.now hosts.now) }
{
    let views = views_told(alloc, request)?;
    put_recipients_from(out, request.sender, views.as_slice(), hosts.as_slice())
}

/// Puts a path at the end of the text, its indices joined by points, as 0.1.
pub fn put_path(out: &mut String, path: &Path) -> Result<(), AllocError>
    ensures { OnOk result (string_bytes out.new ≡ string_bytes out.old ++ path_text path.now) }
{
    let Some((first, others)) = path.as_slice().split_first() else {
        return Ok(());
    };
    put_number(out, *first as u64)?;
    'others: for step in others {
        out.push_str(".")?;
        put_number(out, *step as u64)?;
    }
    Ok(())
}

fn put_view(out: &mut String, said: &ViewVerdict) -> Result<(), AllocError>
    ensures { OnOk result (string_bytes out.new ≡ string_bytes out.old ++ view_text said.now) }
{
    out.push_str(" ")?;
    put_path(out, &said.view)?;
    out.push_str("=")?;
    match &said.verdict {
        LocalVerdict::Approve => out.push_str("approve"),
        LocalVerdict::Reject { reason, .. } => out.push_str(reason.name()),
    }
}

fn put_views(out: &mut String, verdicts: &ViewVerdictList) -> Result<(), AllocError>
    ensures { OnOk result (string_bytes out.new ≡ string_bytes out.old ++ flat_map view_text verdicts.now) }
{
    'views: for said in verdicts.as_slice() {
        put_view(out, said)?;
    }
    Ok(())
}

/// Puts the mediator's decision at the end of the text: of a rejection with the participant, the view and the reason, of a timeout with the participants
/// that haven't responded. The names are those of `hosts`.
pub fn put_decision(
    out: &mut String,
    hosts: &HostList,
    decision: &Decision,
) -> Result<(), AllocError>
    ensures { OnOk result (string_bytes out.new ≡ string_bytes out.old ++ decision_text hosts.now decision.now) }
{
    match decision {
        Decision::Approved => out.push_str("approved"),
        Decision::Rejected { from, view, reason } => {
            out.push_str("rejected ")?;
            put_host(out, hosts, *from)?;
            out.push_str(" ")?;
            put_path(out, view)?;
            out.push_str(" ")?;
            out.push_str(reason.name())
        }
        Decision::TimedOut { missing } => {
            out.push_str("timeout")?;
            put_hosts(out, hosts, missing)
        }
    }
}

fn put_message(
    alloc: Global,
    out: &mut String,
    hosts: &HostList,
    message: &Message,
) -> Result<(), AllocError>
    ensures { OnOk result (string_bytes out.new ≡ string_bytes out.old ++ message_text hosts.now message.now) }
{
    match message {
        Message::Request(request) => {
            out.push_str("request ")?;
            put_host(out, hosts, request.sender)?;
            out.push_str(" ")?;
            out.push_str(request.command.as_str())?;
            out.push_str(" to")?;
            put_recipients(alloc, out, hosts, request)
        }
        Message::Response(response) => {
            out.push_str("response ")?;
            put_host(out, hosts, response.from)?;
            out.push_str(" for ")?;
            put_number(out, response.request)?;
            put_views(out, &response.verdicts)
        }
        Message::Verdict(verdict) => {
            out.push_str("verdict for ")?;
            put_number(out, verdict.request)?;
            out.push_str(" ")?;
            put_decision(out, hosts, &verdict.decision)
        }
        Message::Tick => out.push_str("tick"),
    }
}

fn put_entry(
    alloc: Global,
    out: &mut String,
    hosts: &HostList,
    place: u64,
    entry: &Entry,
) -> Result<(), AllocError>
    ensures { OnOk result (string_bytes out.new ≡ string_bytes out.old ++ entry_line hosts.now place entry.now) }
{
    put_number(out, place)?;
    out.push_str(" ")?;
    put_number(out, entry.time)?;
    out.push_str(" ")?;
    put_message(alloc, out, hosts, &entry.message)?;
    out.push_str("\n")
}

/// Puts a line at the end of the text for each entry of the log, with its place, its time in microseconds and its message. `hosts` are the topology's,
/// for the names of participants.
pub fn put_entries(
    alloc: Global,
    out: &mut String,
    hosts: &HostList,
    log: &EntryList,
) -> Result<(), AllocError>
    ensures { OnOk result (string_bytes out.new ≡ string_bytes out.old ++ entry_lines hosts.now 0 log.now) }
{
    'entries: for (place, entry) in log.as_slice().iter().enumerate() {
        put_entry(alloc, out, hosts, place as u64, entry)?;
    }
    Ok(())
}
