//! The row of a contract, which it borrows from the change that keeps it.
ghost use Rattle.std.specs.Prelude.{◌≡◌, is_some};
ghost use Rattle.contract_store.specs.Rows.{smaller};
ghost use Rattle.node_inbox.specs.Listed.{active_since};
ghost use Rattle.node_inbox.specs.LiveRows.{changed_row, new_row};

use ledger_terms::Known;
use std::marker::Model;

/// The contract of a change, where the change keeps it, with the places of the requests that created and consumed it.
#[derive(Drop)]
pub struct LiveRow<'k> {
    known: &'k Known,
    created_at: Option<u64>,
    consumed_at: Option<u64>,
}

impl<'k> Model for LiveRow<'k> {
    ghost use Rattle.contract_store.specs.declared.row.StoreRow.{StoreRow};

    ghost Value = { StoreRow };

    ghost view = { λ s. record { known = s.known.now; created_at = s.created_at; consumed_at = s.consumed_at } };
}

// The smaller of two places.
fn smaller(before: Option<u64>, place: u64) -> u64
    ensures { result ≡ smaller before place }
{
    match before {
        Some(before) => { if before < place { before } else { place } }
        None => place,
    }
}

impl<'k> LiveRow<'k> {
    /// The row of a contract as long as nothing has created or consumed it.
    pub fn new(known: &'k Known) -> LiveRow<'k>
        ensures { result ≡ new_row known.now }
    {
        LiveRow {
            known,
            created_at: None,
            consumed_at: None,
        }
    }

    /// Notes that the request at a place creates the contract (`is_create`), or else consumes it. Of two places of one kind the smaller stays.
    pub fn change(&mut self, place: u64, is_create: bool)
        ensures { self.new ≡ changed_row place is_create self.old }
    {
        if is_create {
            self.created_at = Some(smaller(self.created_at, place));
        } else {
            self.consumed_at = Some(smaller(self.consumed_at, place));
        }
    }

    /// The row's contract.
    pub fn known(&self) -> &'k Known
        ensures { result.now ≡ self.now.known }
    {
        self.known
    }

    /// Whether the contract was consumed.
    pub fn is_consumed(&self) -> bool
        ensures { result ≡ is_some self.now.consumed_at }
    {
        self.consumed_at.is_some()
    }

    /// The place of creation, where the contract is active, and none where it was consumed or nothing created it.
    pub fn active_since(&self) -> Option<u64>
        ensures { result ≡ active_since self.now }
    {
        match self.consumed_at {
            Some(_) => None,
            None => self.created_at,
        }
    }
}
