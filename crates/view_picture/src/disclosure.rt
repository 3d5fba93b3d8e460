//! What a request discloses.
use crate::offer::{Offer, offer_of};
use crate::withheld::WithheldList;
use blind_tree::{OpenedTree, PlacedView, RolesTree, Tree};
use canton_model::Request;
use ledger_terms::{ListOf, ParticipantId, PartySet, Path, Topology};
use proto_model::{envelope_of, read_outline, requested_views, tree_in};
use std::alloc::{AllocError, Global};
use view_split::View;

/// The view at a path among the placed view and those below it. None: no such view stands there.
fn view_in<'a>(placed: &'a PlacedView, path: &Path) -> Option<&'a View> {
    let steps = path.as_slice().strip_prefix(placed.path.as_slice())?;
    let mut view = &placed.view;
    for step in steps {
        view = view.below.get(*step as usize)?;
    }
    Some(view)
}

/// What is drawn of a request: a tree that says where its views are, what complete envelopes open of it, what the mediator is told of its views, and
/// from whom they are withheld. `roles` is what the mediator is told, and is None in what is disclosed to one participant.
#[derive(Drop)]
pub(crate) struct Disclosure {
    pub tree: Tree,
    pub opened: ListOf<OpenedTree>,
    pub roles: Option<RolesTree>,
    pub withheld: WithheldList,
}

impl Disclosure {
    /// What is disclosed to a participant: what its envelope opens, where that is complete, and else only where the views are that
    /// are withheld from it. None where it is no recipient, where it is one only as the sender and has no complete envelope, and where the
    /// mediator's bytes can't be read.
    pub fn to(
        alloc: Global,
        topology: &Topology,
        request: &Request,
        me: ParticipantId,
    ) -> Result<Option<Disclosure>, AllocError> {
        let Some(outline) = read_outline(alloc, request)? else {
            return Ok(None);
        };
        let offer = offer_of(alloc, topology, request, &outline, me)?;
        let bytes = match (&offer, envelope_of(request, me)) {
            (Offer::Open(_), Some(envelope)) => envelope,
            (Offer::Withheld(_), _) => &request.mediator,
            _ => return Ok(None),
        };
        let Some(mut disclosure) = Disclosure::of_tree(alloc, bytes.as_slice())? else {
            return Ok(None);
        };
        disclosure.put(offer)?;
        Ok(Some(disclosure))
    }

    /// What all messages of a request disclose together: the mediator's bytes have every view with its informees and confirmers, and the complete
    /// envelopes open views. None where the mediator's bytes can't be read.
    pub fn of_all(
        alloc: Global,
        topology: &Topology,
        request: &Request,
    ) -> Result<Option<Disclosure>, AllocError> {
        let Some(outline) = read_outline(alloc, request)? else {
            return Ok(None);
        };
        let Some(mut disclosure) = Disclosure::of_tree(alloc, request.mediator.as_slice())? else {
            return Ok(None);
        };
        disclosure.roles = requested_views(alloc, request)?;
        for (at, _) in (0..=255u8).zip(topology.hosts.as_slice()) {
            let offer = offer_of(alloc, topology, request, &outline, ParticipantId(at))?;
            disclosure.put(offer)?;
        }
        Ok(Some(disclosure))
    }

    /// Adds what the request offers one participant.
    fn put(&mut self, offer: Offer) -> Result<(), AllocError> {
        match offer {
            Offer::Nothing => Ok(()),
            Offer::Open(part) => self.opened.push(part),
            Offer::Withheld(withheld) => self.withheld.push(withheld),
        }
    }

    /// The tree that bytes spell, of which nothing is disclosed so far. None: they spell no tree.
    fn of_tree(alloc: Global, bytes: &[u8]) -> Result<Option<Disclosure>, AllocError> {
        match tree_in(alloc, bytes)? {
            Some(tree) => Ok(Some(Disclosure {
                tree,
                opened: ListOf::new(alloc),
                roles: None,
                withheld: WithheldList::new(alloc),
            })),
            None => Ok(None),
        }
    }

    /// The view at a path, as the first envelope has it that opens it as one of its topmost views. None: no envelope does.
    pub fn view_at(&self, path: &Path) -> Option<&View> {
        for part in self.opened.as_slice() {
            for placed in part.views.as_slice() {
                if placed.path == *path {
                    return Some(&placed.view);
                }
            }
        }
        None
    }

    /// The view at a path, whether an envelope opens it as a topmost view or below one. None: no envelope opens it.
    pub fn view_within(&self, path: &Path) -> Option<&View> {
        for part in self.opened.as_slice() {
            for placed in part.views.as_slice() {
                if let Some(view) = view_in(placed, path) {
                    return Some(view);
                }
            }
        }
        None
    }

    /// The informees and the confirmers of the view at a path, as the mediator is told them. None: what the mediator is told isn't disclosed, or has
    /// no view there.
    pub fn roles_at(&self, path: &Path) -> Option<(&PartySet, &PartySet)> {
        let told = self.roles.as_ref()?;
        for view in told.views.as_slice() {
            if view.path == *path {
                return Some((&view.informees, &view.confirmers));
            }
        }
        None
    }

    /// The informees of the view at a path, as the mediator is told them. None: what the mediator is told isn't disclosed, or has no view there.
    pub fn informees_at(&self, path: &Path) -> Option<&PartySet> {
        let (informees, _) = self.roles_at(path)?;
        Some(informees)
    }

    /// Whether the view at a path is withheld from somebody.
    pub fn is_withheld(&self, path: &Path) -> bool {
        self.withheld.as_slice().iter().any(|one| one.sees(path))
    }

    /// Whether the sender's name is disclosed, by what the mediator is told or by an envelope.
    pub fn names_sender(&self) -> bool {
        self.roles.is_some() || !self.opened.is_empty()
    }

    /// The requesters, as the first envelope tells them that does. None: no envelope does.
    pub fn requesters(&self) -> Option<&PartySet> {
        for part in self.opened.as_slice() {
            if let Some(parties) = &part.requesters {
                return Some(parties);
            }
        }
        None
    }
}
