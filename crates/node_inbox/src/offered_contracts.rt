//! The contracts that a participant offers to what it submits.
use ledger_terms::{Hash, Known, KnownContracts, KnownList};
use prepare_request::HostedContracts;

/// The contracts that a participant offers: those of its store with a hosted stakeholder, or a list in their place.
#[derive(Drop)]
pub struct OfferedContracts<'i> {
    pub stored: HostedContracts<'i>,
    pub listed: Option<KnownList>,
}

impl<'i> KnownContracts for OfferedContracts<'i> {
    ghost use Rattle.std.specs.Prelude.{unwrap_or};
    ghost use Rattle.prepare_request.specs.Hosted.{hosted_rows};

    ghost rows = { λ c. unwrap_or c.listed (hosted_rows c.stored.hosted.now.ids c.stored.store.now.rows) };

    fn find(&self, id: &Hash) -> Option<&Known> {
        match &self.listed {
            Some(listed) => listed.find(id),
            None => self.stored.find(id),
        }
    }

    fn find_salt(&self, salt: &Hash) -> Option<&Known> {
        match &self.listed {
            Some(listed) => listed.find_salt(salt),
            None => self.stored.find_salt(salt),
        }
    }
}
