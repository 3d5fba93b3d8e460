//! Prepared trees get their seeds and ids.
ghost use Rattle.std.specs.Prelude.{◌≡◌, ◌≢◌, ◌<◌, ◌≤◌, ◌-◌, IfOk, IfErr, OnOk, Err, option_copied};
ghost use Rattle.ledger_terms.specs.Answers.{UnlessMemory};
ghost use Rattle.ledger_terms.specs.declared.draft_action.DraftAction.TheVariants.{Create as DraftCreate};
ghost use Rattle.ledger_terms.specs.Grown.{tree_of};
ghost use Rattle.ledger_terms.specs.declared.action.Action.TheVariants.{Exercise};
ghost use Rattle.interpret.specs.FilledTree.{IsFilled, FillStops};
ghost use Rattle.interpret.specs.Filled.{fetch_of_draft, fill_all, fill_tree, filled_action, filled_roots};
ghost use Rattle.interpret.specs.Filled.{filling, forged_contract, forged_id, id_of, input_of, known_of, list_answer, node_answer};

use crate::command_fault::{CommandFault, contract_unknown, too_deep, too_many};
use crate::encoded::if_small;
use crate::ids::{contract_id, label_seed};
use crate::labels::is_draft_named;
use crate::place::Place;
use crate::references::{referenced_id, referenced_value, referenced_values};
use ledger_terms::limits::MOST_ACTIONS;
use ledger_terms::{
    Act, Action, ActionNode, ActionNodeList, Arg, ArgList, ContractRef, Draft, DraftAction,
    DraftList, Exact, Hash, Input, Instance, Known, KnownContracts, Name, PartySet, Path,
    TemplateName, Tree, Value, ValueList,
};
use std::alloc::{AllocError, Global};
use wire_form::is_spellable_instance;

/// What fills prepared trees: the contracts that are known.
#[derive(Drop)]
struct Filler<'a, K> {
    alloc: Global,
    known: &'a K,
}

/// The id of a contract, where its instance has a spelling. What has none exceeds the encoded bytes.
#[tactic(auto, unfolding(crate::specs::Filled::id_of))]
fn id_of(alloc: Global, salt: &Hash, instance: &Instance) -> Result<Hash, AllocError>
    ensures { IfOk result (λ id. id ≡ id_of salt.now instance.now) }
{
    if is_spellable_instance(instance) {
        contract_id(alloc, salt, instance)
    } else {
        Ok(*salt)
    }
}

/// The Exercise of a choice on a contract.
fn exercise_of(
    contract: Known,
    choice: Name,
    args: ValueList,
    actors: &PartySet,
    consuming: bool,
    value: Value,
) -> Result<Action, AllocError>
    ensures { IfOk result (λ a. a ≡ Exercise contract.id contract.salt contract.instance choice args actors.now consuming value) }
{
    let Known { id, salt, instance } = contract;
    Ok(Action::Exercise {
        id,
        salt,
        instance,
        choice,
        args,
        actors: actors.clone()?,
        consuming,
        result: value,
    })
}

/// The known contract that a reference names.
fn known_of<'k, K: KnownContracts>(known: &'k K, contract: &ContractRef) -> Option<&'k Known>
    ensures { option_copied result ≡ known_of (K.rows known.now) contract.now }
{
    match contract {
        ContractRef::Id(id) => known.find(id),
        ContractRef::Label(label) => known.find_salt(&label_seed(label)),
    }
}

impl<K: KnownContracts> Filler<'_, K> {
    fn forged_id(
        &self,
        id: &Option<ContractRef>,
        salt: &Hash,
        instance: &Instance,
    ) -> Result<Option<Hash>, AllocError>
        ensures { IfOk result (λ i. i ≡ forged_id (K.rows self.now.known.now) id.now salt.now instance.now) }
    {
        match id {
            Some(contract) => Ok(referenced_id(self.known, contract)),
            None => Ok(Some(id_of(self.alloc, salt, instance)?)),
        }
    }

    fn forged_contract(
        &self,
        id: &Option<ContractRef>,
        salt: Hash,
        template: TemplateName,
        fields: &ArgList,
    ) -> Result<Option<Known>, AllocError>
        ensures { IfOk result (λ k. k ≡ forged_contract (K.rows self.now.known.now) id.now salt template fields.now) }
    {
        let instance = match referenced_values(self.alloc, self.known, fields)? {
            Some(fields) => Instance::of(self.alloc, template, fields)?,
            None => return Ok(None),
        };
        match self.forged_id(id, &salt, &instance)? {
            Some(id) => Ok(Some(Known { id, salt, instance })),
            None => Ok(None),
        }
    }

    /// The contract that an input stands for.
    fn input_of(&self, input: &Input) -> Result<Option<Known>, AllocError>
        ensures { IfOk result (λ k. k ≡ input_of (K.rows self.now.known.now) input.now) }
    {
        match input {
            Input::Known(contract) => match known_of(self.known, contract) {
                Some(found) => Ok(Some(found.copied()?)),
                None => Ok(None),
            },
            Input::Forged {
                id,
                salt,
                template,
                fields,
            } => self.forged_contract(id, *salt, *template, fields),
        }
    }

    fn create_action(
        &self,
        seed: &Hash,
        template: TemplateName,
        fields: &ArgList,
    ) -> Result<Option<Action>, AllocError>
        ensures { IfOk result (λ a. a ≡ filled_action (K.rows self.now.known.now) seed.now (DraftCreate template fields.now)) }
    {
        match referenced_values(self.alloc, self.known, fields)? {
            Some(fields) => {
                let instance = Instance::of(self.alloc, template, fields)?;
                let id = id_of(self.alloc, seed, &instance)?;
                Ok(Some(Action::Create { id, instance }))
            }
            None => Ok(None),
        }
    }

    fn fetch_action(
        &self,
        contract: &Input,
        actors: &PartySet,
    ) -> Result<Option<Action>, AllocError>
        ensures { IfOk result (λ a. a ≡ fetch_of_draft (K.rows self.now.known.now) contract.now actors.now) }
    {
        let Some(contract) = self.input_of(contract)? else {
            return Ok(None);
        };
        let Known { id, salt, instance } = contract;
        Ok(Some(Action::Fetch {
            id,
            salt,
            instance,
            actors: actors.clone()?,
        }))
    }

    /// The action of a draft, where the contracts that it names are known.
    fn filled_action(&self, seed: &Hash, draft: &DraftAction) -> Result<Option<Action>, AllocError>
        ensures { IfOk result (λ a. a ≡ filled_action (K.rows self.now.known.now) seed.now draft.now) }
    {
        match draft {
            DraftAction::Create { template, fields } => self.create_action(seed, *template, fields),
            DraftAction::Exercise {
                contract,
                choice,
                args,
                actors,
                consuming,
                result,
            } => {
                let Some(contract) = self.input_of(contract)? else {
                    return Ok(None);
                };
                let Some(args) = referenced_values(self.alloc, self.known, args)? else {
                    return Ok(None);
                };
                let Some(value) = referenced_value(self.known, result)? else {
                    return Ok(None);
                };
                let action = exercise_of(contract, *choice, args, actors, *consuming, value)?;
                Ok(Some(action))
            }
            DraftAction::Fetch { contract, actors } => self.fetch_action(contract, actors),
        }
    }

    /// A draft at a place with what stands below it, where so many actions stand before it.
    #[cycle(fill)]
    fn fill_draft(
        &self,
        count: &mut usize,
        place: &Place,
        draft: &Draft,
    ) -> Result<ActionNode, CommandFault>
        ensures filled { result ≢ Err CommandFault.Memory → node_answer result count.new
            ≡ fill_tree (K.rows self.now.known.now) place.now.left place.now.path place.now.seed count.old (tree_of draft.now) }
        ensures grows { OnOk result ((count.old < count.new) × (count.new ≤ MOST_ACTIONS)) }
    {
        if place.left == 0 {
            return Err(too_deep(&place.path));
        }
        if *count >= MOST_ACTIONS {
            return Err(too_many(&place.path));
        }
        let Some(action) = self.filled_action(&place.seed, &draft.root)? else {
            return Err(contract_unknown(&place.path));
        };
        *count += 1;
        let below = match self.fill_list(count, place, &draft.below) {
            Ok(below) => below,
            Err(fault) => return Err(fault),
        };
        let seed = place.seed;
        Ok(Tree {
            root: Act { seed, action },
            below,
        })
    }

    /// The drafts of a list below a place, with what stands below them.
    #[cycle(fill)]
    fn fill_list(
        &self,
        count: &mut usize,
        place: &Place,
        drafts: &DraftList,
    ) -> Result<ActionNodeList, CommandFault>
        requires few { count.old ≤ MOST_ACTIONS }
        requires level { 0 < place.now.left }
        ensures filled { result ≢ Err CommandFault.Memory → list_answer result count.new ≡ fill_all (K.rows self.now.known.now)
            (place.now.left - 1) place.now.seed place.now.path 0 count.old drafts.now }
        ensures grows { OnOk result ((count.old ≤ count.new) × (count.new ≤ MOST_ACTIONS)) }
    {
        let mut filled = ActionNodeList::new(self.alloc);
        let items = drafts.as_slice();
        for index in 0..65u16 {
            let draft = match items.get(index as usize) {
                Some(draft) => draft,
                None => return Ok(filled),
            };
            let below = place.child(index)?;
            let node = match self.fill_draft(count, &below, draft) {
                Ok(node) => node,
                Err(fault) => return Err(fault),
            };
            filled.push(node)?;
        }
        Err(too_many(&place.path))
    }

    fn fill_roots(&self, seed: &Hash, drafts: &DraftList) -> Result<ActionNodeList, CommandFault>
        ensures { UnlessMemory CommandFault.Memory result (filled_roots (K.rows self.now.known.now) seed.now drafts.now) }
    {
        let mut filled = ActionNodeList::new(self.alloc);
        let mut count: usize = 0;
        let items = drafts.as_slice();
        for index in 0..65u16 {
            let draft = match items.get(index as usize) {
                Some(draft) => draft,
                None => return Ok(filled),
            };
            let place = Place::root(self.alloc, seed, index)?;
            if !is_draft_named(self.known, draft) {
                return Err(CommandFault::ContractUnknown { path: place.path });
            }
            let node = match self.fill_draft(&mut count, &place, draft) {
                Ok(node) => node,
                Err(fault) => return Err(fault),
            };
            filled.push(node)?;
        }
        Err(CommandFault::TooMany {
            path: Path::new(self.alloc),
        })
    }

    #[tactic(auto, unfolding(crate::specs::Filled::filling))]
    fn run(&self, seed: &Hash, drafts: &DraftList) -> Result<ActionNodeList, CommandFault>
        ensures { UnlessMemory CommandFault.Memory result (filling (K.rows self.now.known.now) seed.now drafts.now) }
    {
        let roots = self.fill_roots(seed, drafts)?;
        if_small(roots)
    }
}

/// The transaction that `drafts`, a prepared tree, ask for: each action with the seed of its place below `seed`, the transaction's, and with its id.
/// Inputs are as `known` has them or as they are handed in, and nothing is evaluated. An Err is the first fault, of each root its labels, then of its
/// actions in pre-order depth, number and contract, and the encoded bytes last; or want of memory.
pub fn fill<K: KnownContracts>(
    alloc: Global,
    known: &K,
    seed: &Hash,
    drafts: &DraftList,
) -> Result<ActionNodeList, CommandFault>
    ensures exact { UnlessMemory CommandFault.Memory result (filling (K.rows known.now) seed.now drafts.now) }
    ensures wanted { IfOk result (λ forest. IsFilled (K.rows known.now) seed.now drafts.now forest) }
    ensures stops { IfErr result (λ fault. fault ≢ CommandFault.Memory → FillStops (K.rows known.now) seed.now drafts.now fault) }
{
    let filler = Filler { alloc, known };
    filler.run(seed, drafts)
}
