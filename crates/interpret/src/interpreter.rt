//! Actions, each with its consequences.
ghost use Rattle.std.specs.Prelude.{◌≡◌, ◌≢◌, ◌<◌, ◌-◌, ◌++◌, ◌∷◌, [], IfOk, OnOk, Ok, Err};
ghost use Rattle.ledger_terms.specs.Forest.{NoRoots, join};
ghost use Rattle.ledger_terms.specs.Grown.{tree_of};
ghost use Rattle.wire_form.specs.Spellable.{IsSpellableInstance};
ghost use Rattle.interpret.specs.Ids.{child_seed, contract_id};
ghost use Rattle.interpret.specs.Tested.{authorisers};
ghost use Rattle.ledger_terms.specs.declared.action.Action.TheVariants.{Exercise};
ghost use Rattle.lang_eval.specs.Next.{next};
ghost use Rattle.interpret.specs.Act.{act, action_answer, body_answer, do_create, do_demand, do_fetch, exercise_on, follow};
ghost use Rattle.interpret.specs.Act.{created_known, most_children, turn_of, with_consumed, with_created};
ghost use Rattle.interpret.specs.Asked.{asked_turn, learnt, source_of};
ghost use Rattle.interpret.specs.TurnAnswers.{turn_shown};

use crate::asking::Asking;
use crate::command_fault::{
    CommandFault, contract_unknown, eval_fault, too_deep, too_many, unauthorised,
};
use crate::demand::Demand;
use crate::ids::contract_id;
use crate::place::Place;
use crate::progress::{Progress, consume, usable};
use crate::result_of_child::learn_as;
use crate::sizes::is_small_result;
use crate::stepping::Stepping;
use crate::tested::{are_authorised, authorisers, call_controllers, created_signatories, fetchers};
use crate::turn::Turn;
use lang_eval::{Checked, EvalFault, is_consuming_call};
use ledger_model::{ChildResultList, ChoiceCall, Step};
use ledger_terms::limits::MOST_ACTIONS;
use ledger_terms::{
    Act, Action, ActionNode, ActionNodeList, Exact, Hash, Instance, Known, KnownContracts, Name,
    PartySet, Path, Tree, Value, ValueList,
};
use std::alloc::{AllocError, Global};

/// What carries out actions: the packages, what says what choices do, and the contracts that are known.
#[derive(Drop)]
pub(crate) struct Interpreter<'a, K, S> {
    pub alloc: Global,
    pub checked: &'a Checked,
    pub stepping: &'a S,
    pub known: &'a K,
}

/// What is known of a contract that was created.
fn created_known(id: Hash, salt: Hash, instance: &Instance) -> Result<Known, AllocError>
    ensures { IfOk result (λ k. k ≡ record { id = id; salt = salt; instance = instance.now }) }
{
    Ok(Known {
        id,
        salt,
        instance: instance.copied()?,
    })
}

/// The end of a body with a result that keeps its limit.
fn end_of_body(path: &Path, value: Value) -> Result<Turn, CommandFault>
    ensures { result ≢ Err CommandFault.Memory → turn_shown result ≡ turn_of path.now (Ok (Step.Done value)) }
{
    if !is_small_result(&value) {
        return Err(eval_fault(path, EvalFault::TooLarge));
    }
    Ok(Turn::End(value))
}

/// What a step of a body is: its end with a result that keeps its limit, or a child.
fn turn_of_step(path: &Path, step: Step) -> Result<Turn, CommandFault>
    ensures { result ≢ Err CommandFault.Memory → turn_shown result ≡ turn_of path.now (Ok step) }
{
    match step {
        Step::Done(value) => end_of_body(path, value),
        Step::Create { template, fields } => Ok(Turn::Child(Demand::Create { template, fields })),
        Step::Exercise {
            template,
            id,
            choice,
            args,
        } => Ok(Turn::Child(Demand::Exercise {
            template,
            id,
            choice,
            args,
        })),
        Step::Fetch { template, id } => Ok(Turn::Child(Demand::Fetch { template, id })),
    }
}

/// The salt of a contract, and the call of a choice on it.
fn call_on(contract: Known, choice: Name, args: ValueList) -> (Hash, ChoiceCall)
    ensures { result ≡ (contract.salt, record { id = contract.id; instance = contract.instance; choice = choice; args = args }) }
{
    let Known { id, salt, instance } = contract;
    let call = ChoiceCall {
        id,
        instance,
        choice,
        args,
    };
    (salt, call)
}

/// The action of an Exercise that was carried out.
fn exercise_action(
    salt: Hash,
    call: ChoiceCall,
    actors: PartySet,
    consuming: bool,
    value: Value,
) -> Action
    ensures { result ≡ Exercise call.id salt call.instance call.choice call.args actors consuming value }
{
    let ChoiceCall {
        id,
        instance,
        choice,
        args,
    } = call;
    Action::Exercise {
        id,
        salt,
        instance,
        choice,
        args,
        actors,
        consuming,
        result: value,
    }
}

/// Keeps a child at the end of the others, and what is learnt of it.
fn keep_child(
    asking: Asking<'_>,
    seen: &mut ChildResultList,
    children: &mut ActionNodeList,
    child: ActionNode,
) -> Result<(), AllocError>
    ensures seen { OnOk result (seen.new ≡ learnt asking.entry seen.old child.root.action) }
    ensures children { OnOk result (children.new ≡ join children.old (tree_of child)) }
{
    let learnt = learn_as(asking, seen, &child.root.action);
    children.push(child)?;
    learnt
}

impl<K: KnownContracts, S: Stepping> Interpreter<'_, K, S> {
    /// An action without consequences.
    fn leaf(&self, seed: Hash, action: Action) -> ActionNode
        ensures { result ≡ record { root = record { seed = seed; action = action }; below = NoRoots } }
    {
        Tree {
            root: Act { seed, action },
            below: ActionNodeList::new(self.alloc),
        }
    }

    /// Notes a contract as created, and gives its id.
    fn note_created(
        &self,
        progress: &mut Progress,
        seed: &Hash,
        instance: &Instance,
    ) -> Result<Hash, AllocError>
        requires { IsSpellableInstance instance.now }
        ensures id { IfOk result (λ id. id ≡ contract_id seed.now instance.now) }
        ensures progress { OnOk result (progress.new ≡ with_created (created_known seed.now instance.now) progress.old) }
    {
        let id = contract_id(self.alloc, seed, instance)?;
        let known = created_known(id, *seed, instance)?;
        progress.created.push(known)?;
        Ok(id)
    }

    fn create(
        &self,
        progress: &mut Progress,
        place: &Place,
        by: &PartySet,
        instance: Instance,
    ) -> Result<ActionNode, CommandFault>
        ensures { result ≢ Err CommandFault.Memory → action_answer result progress.new
            ≡ do_create self.now.checked.now progress.old place.now.path place.now.seed by.now instance }
    {
        let signatories = match created_signatories(self.alloc, self.checked, &instance) {
            Ok(signatories) => signatories,
            Err(fault) => return Err(eval_fault(&place.path, fault)),
        };
        if !signatories.subset(by) {
            return Err(unauthorised(&place.path));
        }
        let id = self.note_created(progress, &place.seed, &instance)?;
        let action = Action::Create { id, instance };
        Ok(self.leaf(place.seed, action))
    }

    fn fetch(
        &self,
        progress: &mut Progress,
        place: &Place,
        by: &PartySet,
        contract: Option<Known>,
    ) -> Result<ActionNode, CommandFault>
        requires { progress.old.count < MOST_ACTIONS }
        ensures { result ≢ Err CommandFault.Memory → action_answer result progress.new
            ≡ do_fetch self.now.checked.now progress.old place.now.path place.now.seed by.now contract }
    {
        let contract = match contract {
            Some(contract) => contract,
            None => return Err(contract_unknown(&place.path)),
        };
        let actors = fetchers(self.alloc, self.checked, &contract.instance, by)?;
        if actors.as_slice().is_empty() {
            return Err(unauthorised(&place.path));
        }
        progress.count += 1;
        let Known { id, salt, instance } = contract;
        let action = Action::Fetch {
            id,
            salt,
            instance,
            actors,
        };
        Ok(self.leaf(place.seed, action))
    }

    /// What the body of a call does next, of the Exercise at a path.
    fn turn(
        &self,
        call: &ChoiceCall,
        path: &Path,
        seen: &ChildResultList,
    ) -> Result<Turn, CommandFault>
        ensures { result ≢ Err CommandFault.Memory → turn_shown result ≡ turn_of path.now (next self.now.checked.now call.now seen.now) }
    {
        match self
            .stepping
            .step_after(self.alloc, self.checked, call, seen)
        {
            Ok(step) => turn_of_step(path, step),
            Err(fault) => Err(eval_fault(path, fault)),
        }
    }

    /// Notes what a call consumes, and gives who authorises its consequences.
    fn spend(
        &self,
        progress: &mut Progress,
        consuming: bool,
        call: &ChoiceCall,
        actors: &PartySet,
    ) -> Result<PartySet, AllocError>
        ensures consumed { OnOk result (progress.new ≡ with_consumed consuming call.now.id progress.old) }
        ensures by { IfOk result (λ s. s ≡ authorisers self.now.checked.now call.now.instance actors.now) }
    {
        consume(progress, consuming, call.id)?;
        authorisers(self.alloc, self.checked, &call.instance, actors)
    }

    /// The Exercise of a call on a contract with that salt.
    #[cycle(act)]
    fn exercise(
        &self,
        progress: &mut Progress,
        place: &Place,
        by: &PartySet,
        salt: Hash,
        call: ChoiceCall,
    ) -> Result<ActionNode, CommandFault>
        requires level { 0 < place.now.left }
        ensures { result ≢ Err CommandFault.Memory → action_answer result progress.new ≡ exercise_on self.now.checked.now
            (act (place.now.left - 1) self.now.checked.now (K.rows self.now.known.now)) progress.old place.now.path place.now.seed by.now salt call }
    {
        let actors = match call_controllers(self.alloc, self.checked, &call) {
            Ok(actors) => actors,
            Err(fault) => return Err(eval_fault(&place.path, fault)),
        };
        if !are_authorised(&actors, by) {
            return Err(unauthorised(&place.path));
        }
        let consuming = is_consuming_call(self.checked, &call);
        let below = self.spend(progress, consuming, &call, &actors)?;
        let mut children = ActionNodeList::new(self.alloc);
        let asking = Asking::Body(&call);
        let value = match self.follow(progress, place, &below, asking, &mut children) {
            Ok(value) => value,
            Err(fault) => return Err(fault),
        };
        let seed = place.seed;
        let action = exercise_action(salt, call, actors, consuming, value);
        Ok(Tree {
            root: Act { seed, action },
            below: children,
        })
    }

    /// What is asked for next, of what stands at a path.
    fn turn_at(
        &self,
        asking: Asking<'_>,
        path: &Path,
        index: u16,
        seen: &ChildResultList,
    ) -> Result<Turn, CommandFault>
        ensures { result ≢ Err CommandFault.Memory → turn_shown result
            ≡ asked_turn self.now.checked.now (K.rows self.now.known.now) path.now asking.entry index seen.now }
    {
        match asking {
            Asking::Body(call) => self.turn(call, path, seen),
            Asking::Commands(commands) => self.command_turn(commands, index),
        }
    }

    /// What is asked for at a place, put at the end of `children`, and the result of the body that asks.
    #[cycle(act)]
    pub(crate) fn follow(
        &self,
        progress: &mut Progress,
        place: &Place,
        by: &PartySet,
        asking: Asking<'_>,
        children: &mut ActionNodeList,
    ) -> Result<Value, CommandFault>
        requires level { 0 < place.now.left }
        ensures { result ≢ Err CommandFault.Memory → body_answer result children.new progress.new ≡ follow most_children
            (source_of self.now.checked.now (K.rows self.now.known.now) place.now.path asking.entry)
            (act (place.now.left - 1) self.now.checked.now (K.rows self.now.known.now))
            place.now.seed place.now.path by.now progress.old [] children.old 0 }
    {
        let mut seen = ChildResultList::new(self.alloc);
        for index in 0..65u16 {
            let demand = match self.turn_at(asking, &place.path, index, &seen) {
                Ok(Turn::Child(demand)) => demand,
                Ok(Turn::End(value)) => return Ok(value),
                Err(fault) => return Err(fault),
            };
            let child = match self.act_below(progress, place, by, index, demand) {
                Ok(child) => child,
                Err(fault) => return Err(fault),
            };
            keep_child(asking, &mut seen, children, child)?;
        }
        Err(too_many(&place.path))
    }

    /// The child at an index of a place that is asked for, with its consequences.
    #[cycle(act)]
    fn act_below(
        &self,
        progress: &mut Progress,
        place: &Place,
        by: &PartySet,
        index: u16,
        demand: Demand,
    ) -> Result<ActionNode, CommandFault>
        requires level { 0 < place.now.left }
        ensures { result ≢ Err CommandFault.Memory → action_answer result progress.new ≡ act (place.now.left - 1) self.now.checked.now
            (K.rows self.now.known.now) progress.old (place.now.path ++ index ∷ []) (child_seed place.now.seed index) by.now demand }
    {
        let below = place.child(index)?;
        self.act(progress, &below, by, demand)
    }

    /// The action that is asked for at a place, with its consequences.
    #[cycle(act)]
    pub(crate) fn act(
        &self,
        progress: &mut Progress,
        place: &Place,
        by: &PartySet,
        demand: Demand,
    ) -> Result<ActionNode, CommandFault>
        ensures { result ≢ Err CommandFault.Memory → action_answer result progress.new ≡ act place.now.left self.now.checked.now
            (K.rows self.now.known.now) progress.old place.now.path place.now.seed by.now demand }
    {
        if place.left == 0 {
            return Err(too_deep(&place.path));
        }
        if progress.count >= MOST_ACTIONS {
            return Err(too_many(&place.path));
        }
        self.act_in_room(progress, place, by, demand)
    }

    /// The same where there is room for one level and for one action.
    #[cycle(act)]
    fn act_in_room(
        &self,
        progress: &mut Progress,
        place: &Place,
        by: &PartySet,
        demand: Demand,
    ) -> Result<ActionNode, CommandFault>
        requires level { 0 < place.now.left }
        requires few { progress.old.count < MOST_ACTIONS }
        ensures { result ≢ Err CommandFault.Memory → action_answer result progress.new ≡ do_demand self.now.checked.now (K.rows self.now.known.now)
            (act (place.now.left - 1) self.now.checked.now (K.rows self.now.known.now)) progress.old place.now.path place.now.seed by.now demand }
    {
        match demand {
            Demand::Create { template, fields } => {
                progress.count += 1;
                let instance = Instance::of(self.alloc, template, fields)?;
                self.create(progress, place, by, instance)
            }
            Demand::Exercise {
                template,
                id,
                choice,
                args,
            } => {
                let Some(contract) = usable(self.checked, self.known, progress, &id, template)?
                else {
                    return Err(contract_unknown(&place.path));
                };
                progress.count += 1;
                let (salt, call) = call_on(contract, choice, args);
                self.exercise(progress, place, by, salt, call)
            }
            Demand::Fetch { template, id } => {
                let contract = usable(self.checked, self.known, progress, &id, template)?;
                self.fetch(progress, place, by, contract)
            }
        }
    }
}
