//! Who submits.
ghost use Rattle.std.specs.Prelude.{◌≡◌, ◌<◌, ◌+◌, length};
ghost use Rattle.sync_shared.specs.Slips.{read_to, InRow};
ghost use mathlib.Core.List.{IsPrefix};

use crate::locked_log::LockedLog;
use crate::session::Session;
use crate::slips::count_of;
use ledger_terms::ParticipantId;
use log_row::Slip;
use std::marker::Model;
use std::sync::ledger::Share;

/// A client of one participant. Contracts see the entries that it has seen, how many tickets it was given, and whose it is.
#[derive(Drop)]
pub struct Client<'r, S: Session> {
    pub(crate) share: Share<S>,
    pub(crate) last: Option<Slip<'r>>,
    me: ParticipantId,
}

impl<'r, S: Session> Model for Client<'r, S> {
    ghost use Rattle.std.specs.Prelude.{◌≡◌, ◌<◌, length};
    ghost use Rattle.sync_shared.specs.Clients.{Seen};

    ghost Value = { Seen };

    ghost use Rattle.sync_shared.specs.Slips.{read_to, InRow};

    ghost view = { λ c. record { list = read_to c.last; tickets = c.share.amount; me = c.me } };

    ghost invariant = { λ c. InRow S.history c.last × (c.share.parts ≡ 1) × (c.me < length (S.topology).hosts) };
}

impl<'r, S: Session> Client<'r, S> {
    /// A client of the participant `me` that has seen the entries that the slip `last` ties, none where it is None. It counts what it appends with the
    /// share.
    pub fn of(share: Share<S>, last: Option<Slip<'r>>, me: ParticipantId) -> Client<'r, S>
        requires row { InRow S.history last }
        requires parts { share.parts ≡ 1 }
        requires host { me < length (S.topology).hosts }
        ensures { result ≡ record { list = read_to last.entry; tickets = share.amount; me = me } }
    {
        Client { share, last, me }
    }

    /// The client's share, and the slip of the last entry that it has seen, None where it has seen none.
    pub fn into_parts(self) -> (Share<S>, Option<Slip<'r>>)
        ensures parts { (result.0.parts ≡ 1) × (result.0.amount ≡ self.entry.tickets) }
        ensures slip { InRow S.history result.1 × (read_to result.1 ≡ self.entry.list) }
    {
        let Client { share, last, me: _ } = self;
        (share, last)
    }

    /// The participant whose client it is.
    pub fn participant(&self) -> ParticipantId
        ensures me { result ≡ self.now.me }
        ensures host { result < length (S.topology).hosts }
    {
        self.me
    }

    /// How many entries of the log the client has seen.
    pub fn seen(&self) -> u64
        ensures { result ≡ length self.now.list }
    {
        count_of(&self.last)
    }

    /// From now on the client has seen the entries that the slip ties.
    pub(crate) fn sees(&mut self, last: Option<Slip<'r>>)
        requires { InRow S.history last }
        ensures { self.new ≡ record self.old { list = read_to last.entry } }
    {
        self.last = last;
    }

    /// Changes nothing. The prover learns from it that what the client has seen begins the log.
    pub(crate) fn reaches(&mut self, log: &mut LockedLog<'r, S>)
        ensures same { (self.new ≡ self.old) × (log.new ≡ log.old) }
        ensures begins { IsPrefix self.old.list log.old }
    {
        log.reaches(&mut self.last);
    }
}
