//! Requests apart from their items.
ghost use Rattle.std.specs.Prelude.{◌≡◌, IfOk};
ghost use Rattle.node_inbox.specs.Reads.{kept_with};

use crate::facts::filled;
use crate::kept_item::KeptRequest;
use confirm_reply::IdFactsList;
use inbox_registry::Registry;
use std::alloc::{AllocError, Global};
use std::marker::Model;
use std::mem;

/// A request that stands apart from the item that it is of, so that the many items without one are small. Contracts see the request.
#[derive(Drop)]
pub struct BoxedRequest {
    request: Box<KeptRequest>,
}

impl Model for BoxedRequest {
    ghost use Rattle.node_inbox.specs.declared.kept_item.KeptRequest.{KeptRequest};
    ghost use Rattle.ledger_terms.specs.Forest.{coded_forest};
    ghost use Rattle.view_split.specs.Holed.{coded_holed};
    ghost use Rattle.std.specs.Coded.{codes};

    ghost Value = { KeptRequest };

    ghost coded = { Prim.hlevel (codes, coded_forest, coded_holed) };

    ghost view = { λ b. b.request.value };
}

impl BoxedRequest {
    /// Moves a request into a box, so that an item is small whether it has a request or none.
    pub fn new(alloc: Global, request: KeptRequest) -> Result<BoxedRequest, AllocError>
        ensures { IfOk result (λ boxed. boxed ≡ request) }
    {
        let request = Box::new(alloc, request)?;
        Ok(BoxedRequest { request })
    }

    /// The request, to look at.
    pub fn request(&self) -> &KeptRequest
        ensures { result.now ≡ self.now }
    {
        &*self.request
    }

    /// Takes the request out.
    pub fn into_request(self) -> KeptRequest
        ensures { result ≡ self }
    {
        let BoxedRequest { request } = self;
        Box::into_inner(request)
    }

    /// Fills its facts with what the registry knows of its contracts. Takes no memory.
    pub fn put_facts(&mut self, registry: &Registry)
        ensures { self.new ≡ kept_with self.old registry.now }
    {
        let none = IdFactsList::new(*self.request.facts.allocator());
        let facts = mem::replace(&mut self.request.facts, none);
        self.request.facts = filled(registry, facts);
    }
}
