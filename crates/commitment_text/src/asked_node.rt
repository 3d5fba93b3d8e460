//! A participant that was asked for its active contracts.
ghost use Rattle.std.specs.Prelude.{◌≡◌, IfOk};
ghost use Rattle.framed_form.specs.FramedReading.{framed_reading};
ghost use Rattle.commitment_text.specs.Asked.{AreActiveAt};
ghost use Rattle.commitment_text.specs.Commitments.{ids_shared};
ghost use Rattle.commitment_text.specs.Knowledge.{knowledge_of};

use crate::active_at::{ActiveAt, ask, asked_at};
use acs_commit::shared_ids;
use confirm_reply::Setup;
use ledger_terms::{HashList, Name, ParticipantId};
use node_core::Node;
use std::alloc::{AllocError, Global};
use std::marker::Model;

/// A participant with its number and its name, which was asked once for its active contracts at each place at which it is compared
/// with another.
#[derive(Drop)]
pub(crate) struct AskedNode<'n, 's> {
    number: ParticipantId,
    name: Name,
    node: &'n Node<'s>,
    asked: Vec<ActiveAt>,
}

impl<'n, 's> Model for AskedNode<'n, 's> {
    ghost use Rattle.commitment_text.specs.Asked.{AreActiveAt, NamedNode};

    ghost Value = { NamedNode };

    ghost use Rattle.ledger_terms.specs.Forest.{coded_forest};
    ghost use Rattle.ledger_terms.specs.Packages.{coded_package};
    ghost use Rattle.std.specs.Coded.{codes};

    ghost coded = { Prim.hlevel (codes, coded_forest, coded_package) };

    ghost view = { λ n. record { number = n.number; name = n.name; node = n.node.now } };

    ghost invariant = { λ n. AreActiveAt n.node.now n.asked.items };
}

// What a participant has at the places at which it is compared with the others: the lesser of both clean places, where that isn't below
// a base.
fn asked_beside(
    alloc: Global,
    node: &Node<'_>,
    number: usize,
    nodes: &[Node<'_>],
) -> Result<Vec<ActiveAt>, AllocError>
    ensures { IfOk result (λ asked. AreActiveAt node.now asked.items) }
{
    let mut asked = Vec::new(alloc);
    let clean = node.clean();
    let base = node.base();
    for (at, other) in nodes.iter().enumerate() {
        let place = clean.min(other.clean());
        if at != number && base.max(other.base()) <= place {
            ask(alloc, node, place, &mut asked)?;
        }
    }
    Ok(asked)
}

impl<'n, 's> AskedNode<'n, 's> {
    /// The participant with this number and this name, which is that of `nodes` at that index. It is asked here for its active contracts at all
    /// places at which it is compared with the others.
    pub(crate) fn new(
        alloc: Global,
        number: ParticipantId,
        name: Name,
        node: &'n Node<'s>,
        nodes: &[Node<'_>],
    ) -> Result<AskedNode<'n, 's>, AllocError>
        ensures { IfOk result (λ asked. asked ≡ record { number = number; name = name; node = node.now }) }
    {
        let asked = asked_beside(alloc, node, number.0 as usize, nodes)?;
        Ok(AskedNode {
            number,
            name,
            node,
            asked,
        })
    }

    /// The participant's name.
    pub(crate) fn name(&self) -> Name
        ensures { result ≡ self.now.name }
    {
        self.name
    }

    /// The participant's base.
    pub(crate) fn base(&self) -> u64
        ensures { result ≡ (knowledge_of self.now.node).base }
    {
        let node = self.node;
        node.base()
    }

    /// The participant's clean place.
    pub(crate) fn clean(&self) -> u64
        ensures { result ≡ (knowledge_of self.now.node).clean }
    {
        let node = self.node;
        node.clean()
    }

    /// The ids of the participant's active contracts at a place of which the participant `other` hosts a stakeholder.
    pub(crate) fn ids_shared(
        &self,
        alloc: Global,
        setup: &Setup,
        other: &AskedNode<'_, '_>,
        place: u64,
    ) -> Result<HashList, AllocError>
        ensures { IfOk result (λ ids. ids
            ≡ ids_shared (framed_reading setup.now.topology setup.now.checked) other.now.number (knowledge_of self.now.node) place) }
    {
        let with = other.number;
        if let Some(rows) = asked_at(self.asked.as_slice(), place) {
            return shared_ids(alloc, &setup.topology, &setup.checked, rows, with);
        }
        let node = self.node;
        let rows = node.active_at(alloc, place)?;
        shared_ids(alloc, &setup.topology, &setup.checked, &rows, with)
    }
}
