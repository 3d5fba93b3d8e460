//! The participants of an audit.
ghost use Rattle.std.specs.Prelude.{◌≤◌, length};

use crate::owing::owed;
use crate::reading::read_each;
use canton_model::{Entry, Request, ViewVerdictList};
use confirm_reply::Setup;
use framed_form::{Outline, framed_outline};
use ledger_terms::ParticipantId;
use log_judge::Participants;
use node_inbox::Inbox;
use std::alloc::{AllocError, Global};
use whole_request::{WholeTransaction, whole_of};

/// The participants of an audit by their inboxes, each of which reads the entries itself.
#[derive(Drop)]
pub struct Inboxes<'s> {
    pub setup: &'s Setup,
    pub inboxes: Vec<Inbox<'s>>,
    ghost few_hosts: { length setup.now.topology.hosts ≤ 256 },
}

impl Participants for Inboxes<'_> {
    ghost use Rattle.log_audit.specs.Inboxes.{HaveRead};
    ghost use Rattle.framed_form.specs.FramedReading.{framed_reading};

    ghost reading = { λ a. framed_reading a.setup.now.topology a.setup.now.checked };

    ghost params = { λ a. a.setup.now.topology.params };

    ghost have_read = { λ a log. HaveRead a.setup.now.topology a.setup.now.checked a.inboxes.items log };

    fn framed_outline(
        &self,
        alloc: Global,
        request: &Request,
    ) -> Result<Option<Outline>, AllocError> {
        framed_outline(alloc, &self.setup.topology, request)
    }

    fn whole(
        &self,
        alloc: Global,
        request: &Request,
    ) -> Result<Option<WholeTransaction>, AllocError> {
        whole_of(alloc, &self.setup.topology, request)
    }

    fn owed(
        &self,
        alloc: Global,
        p: ParticipantId,
        place: u64,
    ) -> Result<ViewVerdictList, AllocError> {
        if (p.0 as usize) < self.inboxes.len() {
            owed(&self.inboxes, alloc, p, place)
        } else {
            Ok(ViewVerdictList::new(alloc))
        }
    }

    fn read(&mut self, entry: &Entry, outline: Option<&Outline>) -> Result<(), AllocError> {
        read_each(&mut self.inboxes, entry, outline)
    }
}
