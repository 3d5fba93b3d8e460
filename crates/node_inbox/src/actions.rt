//! The actions of what is opened.
ghost use Rattle.std.specs.Prelude.{◌≡◌, ◌++◌, ◌∷◌, [], All, IfOk, OnOk, map, filter};
ghost use Rattle.ledger_terms.specs.declared.act.Act.{Act};
ghost use Rattle.ledger_model.specs.Forest.{acts};
ghost use Rattle.ledger_model.specs.Terms.{id_of, instance_of};
ghost use Rattle.contract_store.specs.Written.{contract_of, is_change, salt_in};
ghost use Rattle.wire_form.specs.Spellable.{IsSpellableInstance};
ghost use Rattle.interpret.specs.Ids.{is_authentic};
ghost use Rattle.view_split.specs.Placed.{placed_forest};
ghost use Rattle.view_split.specs.SeenViews.{put_back};
ghost use Rattle.inbox_registry.specs.ChangeLists.{change_of, changes_of};
ghost use Rattle.node_inbox.specs.Acts.{blank_fact, is_authentic_change};
ghost use Rattle.node_inbox.specs.Offers.{roots_offered};

use crate::kept_offer::KeptOffer;
use blind_tree::PlacedViewList;
use confirm_reply::{IdFacts, IdFactsList};
use inbox_registry::Change;
use interpret::is_authentic;
use ledger_model::Status;
use ledger_terms::{Action, ActionNodeList, Exact, Hash, Known, push_closely};
use std::alloc::{AllocError, Global};
use view_split::{ActRef, acts_in_views, assemble};

/// The trees of actions of these opened views, in order: the views below a view are put back into its holes.
pub fn roots_of(alloc: Global, views: &PlacedViewList) -> Result<ActionNodeList, AllocError>
    ensures { IfOk result (λ roots. roots ≡ put_back (placed_forest views.now)) }
{
    let mut roots = ActionNodeList::new(alloc);
    for placed in views.as_slice() {
        roots.push(assemble(alloc, &placed.view)?)?;
    }
    Ok(roots)
}

/// The trees of actions that a kept offer opens, as copies. There is none where the envelope isn't complete.
pub fn roots_offered(alloc: Global, offer: &KeptOffer) -> Result<ActionNodeList, AllocError>
    ensures { IfOk result (λ roots. roots ≡ roots_offered offer.now) }
{
    match offer {
        KeptOffer::Mismatch => Ok(ActionNodeList::new(alloc)),
        KeptOffer::Missing => Ok(ActionNodeList::new(alloc)),
        KeptOffer::Open(tree) => roots_of(alloc, &tree.opened().views),
    }
}

/// The actions that a kept offer opens, in pre-order, to look at. There is none where the envelope isn't complete.
pub fn acts_offered<'a>(alloc: Global, offer: &'a KeptOffer) -> Result<Vec<ActRef<'a>>, AllocError>
    ensures { IfOk result (λ found. found.items ≡ acts (roots_offered offer.now)) }
{
    match offer {
        KeptOffer::Mismatch => Ok(Vec::new(alloc)),
        KeptOffer::Missing => Ok(Vec::new(alloc)),
        KeptOffer::Open(tree) => acts_in_views(alloc, &tree.opened().views),
    }
}

fn salt_of(act: &ActRef<'_>) -> Hash
    ensures { result ≡ salt_in act.now.seed act.now.action }
{
    match act.action() {
        Action::Create { .. } => *act.seed(),
        Action::Exercise { salt, .. } => *salt,
        Action::Fetch { salt, .. } => *salt,
    }
}

// The contract of an action that creates or consumes it.
fn change_of(act: &ActRef<'_>) -> Result<Change, AllocError>
    ensures { IfOk result (λ change. change ≡ change_of act.now) }
{
    let instance = act.action().instance().copied()?;
    let known = Known {
        id: act.action().id(),
        salt: salt_of(act),
        instance,
    };
    Ok(Change {
        known,
        is_create: act.action().is_create(),
    })
}

fn is_change(act: &ActRef<'_>) -> bool
    ensures { result ≡ is_change act.now }
{
    act.action().is_create() || act.action().is_consuming()
}

// Whether an action creates or consumes its contract, and is authentic.
fn is_authentic_change(alloc: Global, act: &ActRef<'_>) -> Result<bool, AllocError>
    requires { IsSpellableInstance (instance_of act.now.action) }
    ensures { IfOk result (λ b. b ≡ is_authentic_change act.now) }
{
    if is_change(act) {
        return is_authentic(alloc, act.seed(), act.action());
    }
    Ok(false)
}

fn push_change(alloc: Global, act: &ActRef<'_>, changes: &mut Vec<Change>) -> Result<(), AllocError>
    requires { IsSpellableInstance (instance_of act.now.action) }
    ensures { OnOk result (changes.new.items ≡ changes.old.items ++ map change_of (filter is_authentic_change (act.now ∷ []))) }
{
    if is_authentic_change(alloc, act)? {
        push_closely(changes, change_of(act)?)?;
    }
    Ok(())
}

// Room for as many changes as there can be.
fn room_for(alloc: Global, found: &[ActRef<'_>]) -> Result<Vec<Change>, AllocError>
    ensures { IfOk result (λ changes. changes.items ≡ []) }
{
    let count = found.iter().filter(|act| is_change(act)).count();
    let mut changes = Vec::new(alloc);
    changes.reserve_exact(count)?;
    Ok(changes)
}

/// The changes among the authentic ones of these actions, in order: each creates or consumes its contract.
pub fn changes_of(alloc: Global, found: &[ActRef<'_>]) -> Result<Vec<Change>, AllocError>
    requires { All (λ (act : Act). IsSpellableInstance (instance_of act.action)) found.now }
    ensures { IfOk result (λ changes. changes.items ≡ changes_of (filter is_authentic found.now)) }
{
    let mut changes = room_for(alloc, found)?;
    for act in found {
        push_change(alloc, act, &mut changes)?;
    }
    Ok(changes)
}

/// A fact on the contract of each of these actions, in order, with nothing known of the contract yet.
pub fn blank_facts(alloc: Global, found: &[ActRef<'_>]) -> Result<IdFactsList, AllocError>
    ensures { IfOk result (λ facts. facts ≡ map blank_fact found.now) }
{
    let mut facts = IdFactsList::with_room(alloc, found.len())?;
    for act in found {
        facts.push(IdFacts {
            id: act.action().id(),
            status: Status::Unknown,
            locked: false,
        })?;
    }
    Ok(facts)
}
