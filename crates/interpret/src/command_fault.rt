//! Why commands or drafts give no transaction.
ghost use Rattle.std.specs.Prelude.{◌≡◌, ◌≢◌, ◌∷◌, [], IfOk};
ghost use Rattle.interpret.specs.declared.command_fault.CommandFault.TheVariants.{ContractUnknown, Eval, Memory, TooDeep, TooMany, Unauthorised};

use lang_eval::EvalFault;
use ledger_terms::Path;
use std::alloc::{AllocError, Global};

/// Why commands or drafts give no transaction. `root` counts commands from 0, and `path` leads to the action that would
/// have been the next.
#[derive(Drop)]
pub enum CommandFault {
    /// The command's template isn't there.
    UnknownTemplate { root: u32 },
    /// The command's template has no such choice.
    UnknownChoice { root: u32 },
    /// The number or the kinds of the command's fields or arguments aren't those declared.
    BadArgs { root: u32 },
    /// No active contract of that id and template is known, or none that a label names.
    ContractUnknown { path: Path },
    /// An evaluation has a fault, which is none for want of memory.
    Eval { path: Path, fault: EvalFault },
    /// The action would stand deeper than 16.
    TooDeep { path: Path },
    /// The action would be the 65th.
    TooMany { path: Path },
    /// The action isn't authorised.
    Unauthorised { path: Path },
    /// The encoded actions have more than 32,768 bytes: so many, or the greatest u64 where that is more.
    TooBig { bytes: u64 },
    Memory,
}

impl From<AllocError> for CommandFault {
    ghost use Rattle.interpret.specs.declared.command_fault.CommandFault.TheVariants.{Memory};

    ghost from_gives = { λ _ e. e ≡ Memory };

    fn from(_e: AllocError) -> CommandFault {
        CommandFault::Memory
    }
}

#[tactic(auto, using(std::proofs::lemmas::List::Elements::same_from_all_zip))]
pub(crate) fn copy_path(path: &Path) -> Result<Path, AllocError>
    ensures { IfOk result (λ p. p ≡ path.now) }
{
    path.clone()
}

/// The fault of an evaluation at a path. Want of memory there is want of memory.
pub(crate) fn eval_fault(path: &Path, fault: EvalFault) -> CommandFault
    ensures { result ≢ CommandFault.Memory → (result ≡ Eval path.now fault) × (fault ≢ EvalFault.Memory) }
{
    match fault {
        EvalFault::Memory => CommandFault::Memory,
        _ => match copy_path(path) {
            Ok(path) => CommandFault::Eval { path, fault },
            Err(_) => CommandFault::Memory,
        },
    }
}

/// That an action would stand too deep. Want of memory for its path is want of memory, here and below.
pub(crate) fn too_deep(path: &Path) -> CommandFault
    ensures { result ≢ CommandFault.Memory → result ≡ TooDeep path.now }
{
    match copy_path(path) {
        Ok(path) => CommandFault::TooDeep { path },
        Err(_) => CommandFault::Memory,
    }
}

/// That an action would be one too many.
pub(crate) fn too_many(path: &Path) -> CommandFault
    ensures { result ≢ CommandFault.Memory → result ≡ TooMany path.now }
{
    match copy_path(path) {
        Ok(path) => CommandFault::TooMany { path },
        Err(_) => CommandFault::Memory,
    }
}

/// That an action isn't authorised.
pub(crate) fn unauthorised(path: &Path) -> CommandFault
    ensures { result ≢ CommandFault.Memory → result ≡ Unauthorised path.now }
{
    match copy_path(path) {
        Ok(path) => CommandFault::Unauthorised { path },
        Err(_) => CommandFault::Memory,
    }
}

/// That an action's contract isn't known.
pub(crate) fn contract_unknown(path: &Path) -> CommandFault
    ensures { result ≢ CommandFault.Memory → result ≡ ContractUnknown path.now }
{
    match copy_path(path) {
        Ok(path) => CommandFault::ContractUnknown { path },
        Err(_) => CommandFault::Memory,
    }
}

/// The same of a root action.
pub(crate) fn root_unknown(alloc: Global, root: u16) -> CommandFault
    ensures { result ≢ CommandFault.Memory → result ≡ ContractUnknown (root ∷ []) }
{
    match root_path(alloc, root) {
        Ok(path) => CommandFault::ContractUnknown { path },
        Err(_) => CommandFault::Memory,
    }
}

/// The path of a root action.
pub(crate) fn root_path(alloc: Global, root: u16) -> Result<Path, AllocError>
    ensures { IfOk result (λ p. p ≡ root ∷ []) }
{
    let mut path = Path::new(alloc);
    path.push(root)?;
    Ok(path)
}
