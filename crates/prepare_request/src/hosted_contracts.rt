//! The contracts that a participant offers to what it submits.
ghost use Rattle.prepare_request.specs.Hosted.{has_hosted_id};

use crate::hosted_ids::HostedIds;
use contract_store::{ContractTest, Store};
use ledger_terms::{Hash, Known, KnownContracts};

/// The active contracts of a store that have a stakeholder hosted by its participant, as `hosted` tells.
#[derive(Clone, Copy)]
pub struct HostedContracts<'i> {
    pub store: &'i Store,
    pub hosted: &'i HostedIds,
}

impl ContractTest for HostedIds {
    ghost use Rattle.prepare_request.specs.Hosted.{has_hosted_id};

    ghost passes = { λ s. has_hosted_id s.ids };

    fn passes(&self, known: &Known) -> bool {
        self.contains(&known.id)
    }
}

impl<'i> KnownContracts for HostedContracts<'i> {
    ghost use Rattle.prepare_request.specs.Hosted.{hosted_rows};

    ghost rows = { λ c. hosted_rows c.hosted.now.ids c.store.now.rows };

    fn find(&self, id: &Hash) -> Option<&Known> {
        if self.hosted.contains(id) {
            self.store.find(id)
        } else {
            None
        }
    }

    fn find_salt(&self, salt: &Hash) -> Option<&Known> {
        self.store.find_salt_where(salt, self.hosted)
    }
}
