//! Seeds and ids.
ghost use Rattle.std.specs.Prelude.{◌≡◌, IfOk};
ghost use Rattle.std.specs.Str.{bytes_eq};
ghost use Rattle.ledger_model.specs.Terms.{instance_of};
ghost use Rattle.wire_form.specs.Spellable.{IsSpellableInstance};
ghost use Rattle.interpret.specs.Ids.{child_seed, contract_id, is_authentic, label_seed, root_seed};

use ledger_terms::{Action, Bytes, Hash, Instance, Label, Name};
use std::alloc::{AllocError, Global};
use wire_form::encode_instance;

/// How many bytes are made room for at first: an instance of a few fields has no more.
const USUAL_INSTANCE: usize = 64;

/// The id of the contract that a Create with this salt makes of an instance, which has to have a spelling.
#[tactic(auto, unfolding(crate::specs::Ids::contract_id))]
pub fn contract_id(alloc: Global, salt: &Hash, instance: &Instance) -> Result<Hash, AllocError>
    requires { IsSpellableInstance instance.now }
    ensures { IfOk result (λ id. id ≡ contract_id salt.now instance.now) }
{
    let mut bytes = Bytes::with_room(alloc, USUAL_INSTANCE)?;
    encode_instance(instance, &mut bytes)?;
    Ok(hash_id::contract_id_of_bytes(salt, bytes.as_slice()))
}

/// The seed of the child that stands at an index.
#[tactic(auto, unfolding(crate::specs::Ids::child_seed))]
pub(crate) fn seed_of_child(seed: &Hash, index: u16) -> Hash
    ensures { result ≡ child_seed seed.now index }
{
    hash_id::child_seed(seed, index as u32)
}

#[tactic(auto, unfolding(crate::specs::Ids::root_seed))]
fn seed_of_command(participant: Name, command: Name) -> Hash
    ensures { result ≡ root_seed participant command }
{
    hash_id::root_seed(participant, command)
}

/// The seed of the action that a label names. Where that is a Create, it is the salt of its contract.
pub fn label_seed(label: &Label) -> Hash
    ensures { result ≡ label_seed label.now }
{
    let mut seed = seed_of_command(label.participant, label.command);
    for index in label.path.as_slice() {
        seed = seed_of_child(&seed, *index);
    }
    seed
}

fn is_id_of(alloc: Global, id: &Hash, salt: &Hash, instance: &Instance) -> Result<bool, AllocError>
    requires { IsSpellableInstance instance.now }
    ensures { IfOk result (λ b. b ≡ bytes_eq id.now (contract_id salt.now instance.now)) }
{
    let own = contract_id(alloc, salt, instance)?;
    Ok(*id == own)
}

/// Whether an action is authentic: its contract has the id of its salt and instance. `seed` is the action's; it is the salt of a Create, and another
/// action carries its salt. The instance has to have a spelling.
pub fn is_authentic(alloc: Global, seed: &Hash, action: &Action) -> Result<bool, AllocError>
    requires { IsSpellableInstance (instance_of action.now) }
    ensures { IfOk result (λ b. b ≡ is_authentic (record { seed = seed.now; action = action.now })) }
{
    match action {
        Action::Create { id, instance } => is_id_of(alloc, id, seed, instance),
        Action::Exercise {
            id,
            salt,
            instance,
            ..
        } => is_id_of(alloc, id, salt, instance),
        Action::Fetch {
            id,
            salt,
            instance,
            ..
        } => is_id_of(alloc, id, salt, instance),
    }
}
