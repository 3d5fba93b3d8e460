//! Whether the labels of prepared trees name known contracts.
ghost use Rattle.std.specs.Prelude.{◌≡◌, is_some};
ghost use Rattle.ledger_terms.specs.Grown.{tree_of};
ghost use Rattle.interpret.specs.Filled.{all_named, are_named, is_arg_named, is_draft_named, is_id_named, is_input_named, is_named};
ghost use Rattle.interpret.specs.Usable.{find_salt};

use crate::ids::label_seed;
use ledger_terms::{Arg, ContractRef, Draft, DraftAction, DraftList, Hash, Input, KnownContracts};

fn is_salt_known<K: KnownContracts>(known: &K, salt: &Hash) -> bool
    ensures { result ≡ is_some (find_salt salt.now (K.rows known.now)) }
{
    match known.find_salt(salt) {
        Some(_) => true,
        None => false,
    }
}

fn is_named<K: KnownContracts>(known: &K, contract: &ContractRef) -> bool
    ensures { result ≡ is_named (K.rows known.now) contract.now }
{
    match contract {
        ContractRef::Id(_) => true,
        ContractRef::Label(label) => is_salt_known(known, &label_seed(label)),
    }
}

fn is_arg_named<K: KnownContracts>(known: &K, arg: &Arg) -> bool
    ensures { result ≡ is_arg_named (K.rows known.now) arg.now }
{
    match arg {
        Arg::Plain(_) => true,
        Arg::Contract(contract) => is_named(known, contract),
    }
}

fn are_named<K: KnownContracts>(known: &K, args: &[Arg]) -> bool
    ensures { result ≡ are_named (K.rows known.now) args.now }
{
    args.iter().all(|arg| is_arg_named(known, arg))
}

fn is_id_named<K: KnownContracts>(known: &K, id: &Option<ContractRef>) -> bool
    ensures { result ≡ is_id_named (K.rows known.now) id.now }
{
    match id {
        Some(contract) => is_named(known, contract),
        None => true,
    }
}

fn is_input_named<K: KnownContracts>(known: &K, input: &Input) -> bool
    ensures { result ≡ is_input_named (K.rows known.now) input.now }
{
    match input {
        Input::Known(contract) => is_named(known, contract),
        Input::Forged { id, fields, .. } => {
            is_id_named(known, id) && are_named(known, fields.as_slice())
        }
    }
}

fn is_action_named<K: KnownContracts>(known: &K, action: &DraftAction) -> bool
    ensures { result ≡ is_draft_named (K.rows known.now) action.now }
{
    match action {
        DraftAction::Create { fields, .. } => are_named(known, fields.as_slice()),
        DraftAction::Exercise {
            contract,
            args,
            result,
            ..
        } => {
            is_input_named(known, contract)
                && are_named(known, args.as_slice())
                && is_arg_named(known, result)
        }
        DraftAction::Fetch { contract, .. } => is_input_named(known, contract),
    }
}

/// Whether each label in a draft, and in those below it, names a known contract.
#[cycle(named)]
pub(crate) fn is_draft_named<K: KnownContracts>(known: &K, draft: &Draft) -> bool
    ensures { result ≡ all_named (K.rows known.now) (tree_of draft.now) }
{
    is_action_named(known, &draft.root) && are_drafts_named(known, &draft.below)
}

#[cycle(named)]
fn are_drafts_named<K: KnownContracts>(known: &K, drafts: &DraftList) -> bool
    ensures { result ≡ all_named (K.rows known.now) drafts.now }
{
    for draft in drafts.as_slice() {
        if !is_draft_named(known, draft) {
            return false;
        }
    }
    true
}
