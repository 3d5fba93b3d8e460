//! Contracts with the id that their salt and instance make.
ghost use Rattle.std.specs.Prelude.{◌≡◌, IfOk};
ghost use Rattle.wire_form.specs.Spellable.{IsSpellableInstance};
ghost use Rattle.interpret.specs.Act.{created_known};

use interpret::contract_id;
use ledger_terms::{Hash, Instance, Known};
use std::alloc::{AllocError, Global};

/// The contract of a salt and an instance, with the id that is computed of both.
pub fn known_with(alloc: Global, salt: Hash, instance: Instance) -> Result<Known, AllocError>
    requires { IsSpellableInstance instance }
    ensures { IfOk result (λ known. known ≡ created_known salt instance) }
{
    let id = contract_id(alloc, &salt, &instance)?;
    Ok(Known { id, salt, instance })
}
