//! A request that was sent.
ghost use Rattle.std.specs.Prelude.{◌≡◌};
ghost use Rattle.sync_shared.specs.Clients.{IsRequestBy};
ghost use mathlib.Core.List.{IsPrefix};

use crate::locked_log::LockedLog;
use crate::session::Session;
use ledger_terms::ParticipantId;
use log_row::Slip;
use std::marker::Model;

/// A request of a client, which stands in the log. Contracts see its history, the entries as far as it, its place, how many entries
/// its participant had read when it prepared it, and whose it is.
#[derive(Drop)]
pub struct Ticket<'r> {
    slip: Slip<'r>,
    place: u64,
    read_to: u64,
    me: ParticipantId,
}

impl<'r> Model for Ticket<'r> {
    ghost use Rattle.sync_shared.specs.Clients.{TicketValue, IsRequestBy};

    ghost Value = { TicketValue };

    ghost view = { λ t. record { row = t.slip.row; list = t.slip.list; place = t.place; read_to = t.read_to; me = t.me } };

    ghost invariant = { λ t. IsRequestBy t.me t.place t.slip.list };
}

impl<'r> Ticket<'r> {
    /// A ticket for the request whose slip this is. `read_to` is how many entries its participant `me` had read when it prepared it.
    pub(crate) fn of(slip: Slip<'r>, read_to: u64, me: ParticipantId) -> Ticket<'r>
        requires { (place : _) × IsRequestBy me place slip.list }
        ensures slip { (result.row ≡ slip.entry.row) × (result.list ≡ slip.entry.list) }
        ensures given { (result.read_to ≡ read_to) × (result.me ≡ me) }
        ensures request { IsRequestBy result.me result.place result.list }
    {
        let place = slip.place();
        Ticket {
            slip,
            place,
            read_to,
            me,
        }
    }

    /// Changes nothing. The prover learns from it that the entries as far as the request begin the log.
    pub(crate) fn reaches<S: Session>(&mut self, log: &mut LockedLog<'r, S>)
        requires { self.old.row ≡ S.history }
        ensures same { (self.new ≡ self.old) × (log.new ≡ log.old) }
        ensures begins { IsPrefix self.old.list log.old }
    {
        log.reaches_slip(&mut self.slip);
    }

    /// The place of the request in the log.
    pub fn place(&self) -> u64
        ensures place { result ≡ self.now.place }
        ensures request { IsRequestBy self.now.me result self.now.list }
    {
        self.place
    }

    /// How many entries the participant had read when it prepared the request.
    pub fn read_to(&self) -> u64
        ensures { result ≡ self.now.read_to }
    {
        self.read_to
    }

    /// The participant whose request it is.
    pub fn participant(&self) -> ParticipantId
        ensures { result ≡ self.now.me }
    {
        self.me
    }
}
