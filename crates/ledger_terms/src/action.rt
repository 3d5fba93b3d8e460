//! What a transaction does to contracts.
ghost use Rattle.std.specs.Prelude.{◌≡◌};
ghost use Rattle.ledger_terms.specs.Actions.{id_of, instance_of, is_create, is_consuming};

use crate::exact::Exact;
use crate::hash::Hash;
use crate::instance::Instance;
use crate::name::Name;
use crate::party_set::PartySet;
use crate::value::{Value, ValueList};

/// One action of a transaction (Ledger Model: actions). `id` names the contract. An Exercise and a Fetch carry
/// the salt and the instance of the contract that they use, so that whoever sees them can try the id.
#[derive(Clone, Drop)]
pub enum Action {
    Create {
        id: Hash,
        instance: Instance,
    },
    Exercise {
        id: Hash,
        salt: Hash,
        instance: Instance,
        choice: Name,
        args: ValueList,
        actors: PartySet,
        consuming: bool,
        result: Value,
    },
    Fetch {
        id: Hash,
        salt: Hash,
        instance: Instance,
        actors: PartySet,
    },
}

impl Action {
    /// The id of the contract that the action is on.
    pub fn id(&self) -> Hash
        ensures { result ≡ id_of self.now }
    {
        match self {
            Action::Create { id, .. } => *id,
            Action::Exercise { id, .. } => *id,
            Action::Fetch { id, .. } => *id,
        }
    }

    /// The instance of the contract that the action is on: its template and the values of its fields.
    pub fn instance(&self) -> &Instance
        ensures { result.now ≡ instance_of self.now }
    {
        match self {
            Action::Create { instance, .. } => instance,
            Action::Exercise { instance, .. } => instance,
            Action::Fetch { instance, .. } => instance,
        }
    }

    /// Whether the action is a Create.
    pub fn is_create(&self) -> bool
        ensures { result ≡ is_create self.now }
    {
        match self {
            Action::Create { .. } => true,
            Action::Exercise { .. } => false,
            Action::Fetch { .. } => false,
        }
    }

    /// Whether the action consumes its contract, as a consuming Exercise does.
    pub fn is_consuming(&self) -> bool
        ensures { result ≡ is_consuming self.now }
    {
        match self {
            Action::Create { .. } => false,
            Action::Exercise { consuming, .. } => *consuming,
            Action::Fetch { .. } => false,
        }
    }
}

impl Exact for Action {
    ghost use Rattle.std.proofs.Common.{rules};
    ghost use Rattle.std.proofs.lemmas.List.Elements.{same_from_all_zip};

    ghost same = { Prim.search (rules, same_from_all_zip) };
}
