//! Whether a participant hosts a stakeholder of a contract.
ghost use Rattle.std.specs.Prelude.{◌≡◌, option_copied, IfOk};
ghost use Rattle.canton_model.specs.Inbox.{is_stakeholder_hosted};
ghost use Rattle.prepare_request.specs.Hosted.{hosted_rows};
ghost use Rattle.framed_form.specs.FramedReading.{framed_reading};
ghost use Rattle.node_inbox.specs.Hosts.{AreHosted, host_of, offers, reading_by, says_same};
ghost use Rattle.node_inbox.specs.Listed.{active_row_of};

use confirm_reply::{Setup, has_hosted_stakeholder};
use inbox_registry::KeptStart;
use ledger_terms::{Known, KnownContracts, ParticipantId};
use prepare_request::HostedContracts;
use std::alloc::{AllocError, Global};
use std::marker::Model;

/// A participant with contracts that are known to have a stakeholder that it hosts, so that who the stakeholders are is worked out
/// of the others alone.
#[derive(Drop)]
pub struct Hosting<'i> {
    setup: &'i Setup,
    me: ParticipantId,
    start: &'i KeptStart,
    known: HostedContracts<'i>,
}

impl<'i> Model for Hosting<'i> {
    ghost use Rattle.ledger_terms.specs.Forest.{coded_forest};
    ghost use Rattle.ledger_terms.specs.Packages.{coded_package};
    ghost use Rattle.std.specs.Coded.{codes};
    ghost use Rattle.prepare_request.specs.Hosted.{hosted_rows};
    ghost use Rattle.framed_form.specs.FramedReading.{framed_reading};
    ghost use Rattle.node_inbox.specs.Hosts.{AreHosted, Host, host_of};

    ghost Value = { Host };

    ghost coded = { Prim.hlevel (codes, coded_forest, coded_package) };

    ghost view = { λ s. host_of s.setup.now.topology s.setup.now.checked s.me s.start.now };

    ghost invariant = { λ s. AreHosted (framed_reading s.setup.now.topology s.setup.now.checked) s.me
        (hosted_rows s.known.hosted.now.ids s.known.store.now.rows) };
}

fn says_same(found: Option<&Known>, known: &Known) -> bool
    ensures { result ≡ says_same (option_copied found.entry) known.now }
{
    match found {
        Some(found) => found.instance == known.instance,
        None => false,
    }
}

impl<'i> Hosting<'i> {
    /// Participant `me` with what its inbox left at its base, and with contracts that are known to have a stakeholder that it hosts.
    pub fn new(
        setup: &'i Setup,
        me: ParticipantId,
        start: &'i KeptStart,
        known: HostedContracts<'i>,
    ) -> Hosting<'i>
        requires { AreHosted (framed_reading setup.now.topology setup.now.checked) me (hosted_rows known.hosted.now.ids known.store.now.rows) }
        ensures { result ≡ host_of setup.now.topology setup.now.checked me start.now }
    {
        Hosting {
            setup,
            me,
            start,
            known,
        }
    }

    /// The topology and the packages.
    pub fn setup(&self) -> &'i Setup
        ensures topology { result.now.topology ≡ self.now.topology }
        ensures packages { result.now.checked ≡ self.now.packages }
    {
        self.setup
    }

    /// What the participant's inbox left at its base.
    pub fn start(&self) -> &'i KeptStart
        ensures { result.now ≡ self.now.start }
    {
        self.start
    }

    /// Whether the participant hosts a stakeholder of a contract.
    pub fn hosts(&self, alloc: Global, known: &Known) -> Result<bool, AllocError>
        ensures { IfOk result (λ b. b ≡ is_stakeholder_hosted (reading_by self.now) self.now.me known.now.instance) }
    {
        if says_same(self.known.find(&known.id), known) {
            return Ok(true);
        }
        has_hosted_stakeholder(alloc, self.setup, self.me, &known.instance)
    }

    /// Whether an active contract, created at the place `created_at`, is one that the participant offers to its submissions: it isn't gone, and has a
    /// stakeholder that the participant hosts. That it isn't consumed is for the caller to see to, and the place has no effect.
    pub fn offers(&self, alloc: Global, created_at: u64, known: &Known) -> Result<bool, AllocError>
        ensures { IfOk result (λ b. b ≡ offers self.now (active_row_of created_at known.now)) }
    {
        if self.start.is_gone(&known.id) {
            return Ok(false);
        }
        self.hosts(alloc, known)
    }
}
