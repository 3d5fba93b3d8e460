//! Actions that stand before another.
ghost use Rattle.std.specs.Prelude.{◌≡◌};
ghost use Rattle.std.specs.List.{list_any};
ghost use Rattle.ledger_model.specs.Terms.{id_of, instance_of, is_create, is_consuming, is_on, creates, consumes};
ghost use Rattle.consist.specs.Breaks.{differs};

use ledger_terms::{Act, Action, Hash, Instance};
use std::marker::Model;

/// An action that stands before another.
#[derive(Drop)]
pub struct Earlier<'a> {
    act: &'a Act,
}

impl<'a> Model for Earlier<'a> {
    ghost use Rattle.ledger_terms.specs.declared.act.Act.{Act};
    ghost use Rattle.std.specs.Coded.{codes};

    ghost Value = { Act };

    ghost coded = { Prim.hlevel codes };

    ghost view = { λ e. e.act.now };
}

/// The contract that an action is on.
pub(crate) fn id_of(action: &Action) -> Hash
    ensures { result ≡ id_of action.now }
{
    match action {
        Action::Create { id, .. } => *id,
        Action::Exercise { id, .. } => *id,
        Action::Fetch { id, .. } => *id,
    }
}

/// The instance that an action carries.
pub(crate) fn instance_of(action: &Action) -> &Instance
    ensures { result.now ≡ instance_of action.now }
{
    match action {
        Action::Create { instance, .. } => instance,
        Action::Exercise { instance, .. } => instance,
        Action::Fetch { instance, .. } => instance,
    }
}

pub(crate) fn is_create(action: &Action) -> bool
    ensures { result ≡ is_create action.now }
{
    match action {
        Action::Create { .. } => true,
        Action::Exercise { .. } => false,
        Action::Fetch { .. } => false,
    }
}

fn is_consuming(action: &Action) -> bool
    ensures { result ≡ is_consuming action.now }
{
    match action {
        Action::Create { .. } => false,
        Action::Exercise { consuming, .. } => *consuming,
        Action::Fetch { .. } => false,
    }
}

impl<'a> Earlier<'a> {
    /// An action of the transaction or ledger as one that stands before another; contracts see it as the action with its seed.
    pub fn of(act: &'a Act) -> Earlier<'a>
        ensures { result ≡ act.now }
    {
        Earlier { act }
    }

    fn is_on(&self, id: Hash) -> bool
        ensures { result ≡ is_on id self.now }
    {
        id_of(&self.act.action) == id
    }

    fn creates(&self, id: Hash) -> bool
        ensures { result ≡ creates id self.now }
    {
        self.is_on(id) && is_create(&self.act.action)
    }

    fn consumes(&self, id: Hash) -> bool
        ensures { result ≡ consumes id self.now }
    {
        self.is_on(id) && is_consuming(&self.act.action)
    }

    fn differs(&self, id: Hash, instance: &Instance) -> bool
        ensures { result ≡ differs id instance.now self.now }
    {
        self.is_on(id) && *instance_of(&self.act.action) != *instance
    }
}

pub(crate) fn some_on(earlier: &[Earlier<'_>], id: Hash) -> bool
    ensures { result ≡ list_any (is_on id) earlier.now }
{
    earlier.iter().any(|e| e.is_on(id))
}

pub(crate) fn some_creates(earlier: &[Earlier<'_>], id: Hash) -> bool
    ensures { result ≡ list_any (creates id) earlier.now }
{
    earlier.iter().any(|e| e.creates(id))
}

pub(crate) fn some_consumes(earlier: &[Earlier<'_>], id: Hash) -> bool
    ensures { result ≡ list_any (consumes id) earlier.now }
{
    earlier.iter().any(|e| e.consumes(id))
}

pub(crate) fn some_differs(earlier: &[Earlier<'_>], id: Hash, instance: &Instance) -> bool
    ensures { result ≡ list_any (differs id instance.now) earlier.now }
{
    earlier.iter().any(|e| e.differs(id, instance))
}
