//! The whole text.
ghost use Rattle.std.specs.Prelude.{◌≡◌, ◌≤◌, ◌++◌, length, map, option_copied, slice_get, IfOk, OnOk};
ghost use Rattle.framed_form.specs.FramedReading.{framed_reading};
ghost use Rattle.commitment_text.specs.Asked.{counterparty_at, counterparty_of};
ghost use Rattle.commitment_text.specs.Commitments.{commitments_of};
ghost use Rattle.commitment_text.specs.Counterparties.{counterparties_from};
ghost use Rattle.commitment_text.specs.Knowledge.{knowledge_of};

use crate::asked_node::AskedNode;
use crate::pairs::put_pairs;
use confirm_reply::Setup;
use ledger_terms::{Host, HostList, ParticipantId, Text};
use node_core::Node;
use std::alloc::{AllocError, Global};

fn node_at<'n, 's>(nodes: &'n [Node<'s>], at: usize) -> Option<&'n Node<'s>>
    ensures { option_copied result ≡ slice_get nodes.now at }
{
    nodes.get(at)
}

// Puts a host's participant behind those before it, where there is one.
fn push_asked<'n, 's>(
    alloc: Global,
    at: u8,
    host: &Host,
    nodes: &'n [Node<'s>],
    asked: &mut Vec<AskedNode<'n, 's>>,
) -> Result<(), AllocError>
    ensures { OnOk result (map counterparty_of asked.new.items
        ≡ map counterparty_of asked.old.items ++ counterparty_at at host.now (slice_get nodes.now at)) }
{
    if let Some(node) = node_at(nodes, at as usize) {
        let number = ParticipantId(at);
        asked.push(AskedNode::new(alloc, number, host.name, node, nodes)?)?;
    }
    Ok(())
}

// Each participant, in order of the topology.
fn asked_nodes<'n, 's>(
    alloc: Global,
    hosts: &HostList,
    nodes: &'n [Node<'s>],
) -> Result<Vec<AskedNode<'n, 's>>, AllocError>
    requires { length hosts.now ≤ 256 }
    ensures { IfOk result (λ asked. map counterparty_of asked.items ≡ counterparties_from 0 hosts.now (map knowledge_of nodes.now)) }
{
    let mut asked = Vec::new(alloc);
    'hosts: for (at, host) in hosts.as_slice().iter().enumerate() {
        push_asked(alloc, at as u8, host, nodes, &mut asked)?;
    }
    Ok(asked)
}

/// The text of commitments of these participants, which stand in order of the topology. Each is asked for its active contracts once
/// for each place at which it is compared with another, which is the lesser of both clean places.
pub fn commitments(alloc: Global, setup: &Setup, nodes: &[Node<'_>]) -> Result<Text, AllocError>
    requires { length setup.now.topology.hosts ≤ 256 }
    ensures { IfOk result (λ text. text
        ≡ commitments_of (framed_reading setup.now.topology setup.now.checked) setup.now.topology.hosts (map knowledge_of nodes.now)) }
{
    let asked = asked_nodes(alloc, &setup.topology.hosts, nodes)?;
    let mut out = String::new(alloc);
    put_pairs(alloc, &mut out, setup, asked.as_slice())?;
    out.push_str("end\n")?;
    Ok(Text::of_string(out))
}
