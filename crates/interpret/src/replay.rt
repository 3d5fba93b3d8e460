//! Whether trees of actions are possible in the model, tried by running choices again.
ghost use Rattle.std.specs.Prelude.{◌≡◌, IfOk, [], ◌&&◌};
ghost use Rattle.std.specs.Bool.{Decides};
ghost use Rattle.ledger_terms.specs.Grown.{tree_of};
ghost use Rattle.ledger_model.specs.Conformance.{BodyOf, Conforms, body_of};
ghost use Rattle.lang_eval.specs.Parts.{parties_of_choice};
ghost use Rattle.lang_eval.specs.Next.{next};
ghost use Rattle.interpret.specs.Language.{the_language, same_truth, are_controllers, is_creatable, is_exercisable};
ghost use Rattle.interpret.specs.Tries.{are_rest, asks, gives, has_none, is_demanded, is_done, is_possible, is_tree_possible};

use crate::result_of_child::learn;
use crate::sizes::{are_small_args, is_small_instance, is_small_result};
use crate::stepping::Stepping;
use lang_eval::{
    Checked, EvalFault, NativeList, call_has_kinds, has_kinds, is_consuming_call,
    parties_of_choice, parties_of_created,
};
use ledger_model::{ChildResultList, ChoiceCall, Step};
use ledger_terms::{
    Action, ActionNode, ActionNodeList, Exact, Hash, Instance, Name, PartySet, Value, ValueList,
};
use std::alloc::{AllocError, Global};

/// What tries trees of actions: the packages, and what says what choices do.
#[derive(Drop)]
struct Replay<'a, S> {
    alloc: Global,
    checked: &'a Checked,
    stepping: &'a S,
}

fn is_demanded(step: &Step, action: &Action) -> bool
    ensures { result ≡ is_demanded step.now action.now }
{
    match (step, action) {
        (Step::Create { template, fields }, Action::Create { id: _, instance }) => {
            instance.template == *template && *instance.fields.as_list() == *fields
        }
        (
            Step::Exercise {
                template,
                id,
                choice,
                args,
            },
            Action::Exercise {
                id: its_id,
                instance,
                choice: its_choice,
                args: its_args,
                ..
            },
        ) => {
            instance.template == *template
                && *its_id == *id
                && *its_choice == *choice
                && *its_args == *args
        }
        (
            Step::Fetch { template, id },
            Action::Fetch {
                id: its_id,
                instance,
                ..
            },
        ) => instance.template == *template && *its_id == *id,
        _ => false,
    }
}

fn is_done(step: &Step, wanted: &Value) -> bool
    ensures { result ≡ is_done step.now wanted.now }
{
    match step {
        Step::Done(value) => *value == *wanted,
        _ => false,
    }
}

/// The call of an Exercise.
pub(crate) fn call_of(
    id: &Hash,
    instance: &Instance,
    choice: Name,
    args: &ValueList,
) -> Result<ChoiceCall, AllocError>
    ensures { IfOk result (λ c. c ≡ record { id = id.now; instance = instance.now; choice = choice; args = args.now }) }
{
    Ok(ChoiceCall {
        id: *id,
        instance: instance.copied()?,
        choice,
        args: args.copied()?,
    })
}

fn has_none(children: &ActionNodeList) -> bool
    ensures { result ≡ has_none children.now }
{
    children.as_slice().is_empty()
}

impl<S: Stepping> Replay<'_, S> {
    /// Whether the body asks for the action next.
    fn asks_for(
        &self,
        call: &ChoiceCall,
        seen: &ChildResultList,
        action: &Action,
    ) -> Result<bool, AllocError>
        ensures { IfOk result (λ b. b ≡ asks (next self.now.checked.now call.now seen.now) action.now) }
    {
        match self
            .stepping
            .step_after(self.alloc, self.checked, call, seen)
        {
            Ok(step) => Ok(is_demanded(&step, action)),
            Err(EvalFault::Memory) => Err(AllocError),
            Err(_) => Ok(false),
        }
    }

    /// Whether the body is done, with that result.
    fn ends_with(
        &self,
        call: &ChoiceCall,
        seen: &ChildResultList,
        wanted: &Value,
    ) -> Result<bool, AllocError>
        ensures { IfOk result (λ b. b ≡ gives (next self.now.checked.now call.now seen.now) wanted.now) }
    {
        match self
            .stepping
            .step_after(self.alloc, self.checked, call, seen)
        {
            Ok(step) => Ok(is_done(&step, wanted)),
            Err(EvalFault::Memory) => Err(AllocError),
            Err(_) => Ok(false),
        }
    }

    #[tactic(auto, unfolding(crate::specs::Language::is_creatable))]
    fn is_creatable(&self, instance: &Instance) -> Result<bool, AllocError>
        ensures { IfOk result (λ b. b ≡ is_creatable self.now.checked.now instance.now) }
    {
        if !is_small_instance(instance) {
            return Ok(false);
        }
        match parties_of_created(self.alloc, self.checked, instance) {
            Ok(_) => Ok(true),
            Err(EvalFault::Memory) => Err(AllocError),
            Err(_) => Ok(false),
        }
    }

    fn has_controllers(&self, call: &ChoiceCall, actors: &PartySet) -> Result<bool, AllocError>
        ensures { IfOk result (λ b. b ≡ are_controllers (parties_of_choice self.now.checked.now call.now) actors.now) }
    {
        match parties_of_choice(self.alloc, self.checked, call) {
            Ok(parties) => Ok(parties.controllers == *actors),
            Err(EvalFault::Memory) => Err(AllocError),
            Err(_) => Ok(false),
        }
    }

    #[tactic(auto, unfolding(crate::specs::Language::is_exercisable))]
    fn is_exercisable(
        &self,
        call: &ChoiceCall,
        actors: &PartySet,
        consuming: bool,
        value: &Value,
    ) -> Result<bool, AllocError>
        ensures { IfOk result (λ b. b ≡ is_exercisable self.now.checked.now call.now actors.now consuming value.now) }
    {
        if !call_has_kinds(self.checked, call) {
            return Ok(false);
        }
        if !are_small_args(&call.args) {
            return Ok(false);
        }
        if !is_small_result(value) {
            return Ok(false);
        }
        if is_consuming_call(self.checked, call) != consuming {
            return Ok(false);
        }
        self.has_controllers(call, actors)
    }

    /// Whether an action is possible by itself.
    fn is_possible(&self, action: &Action) -> Result<bool, AllocError>
        ensures { IfOk result (λ b. b ≡ is_possible self.now.checked.now action.now) }
    {
        match action {
            Action::Create { id: _, instance } => {
                if !has_kinds(self.checked, instance) {
                    return Ok(false);
                }
                self.is_creatable(instance)
            }
            Action::Exercise {
                id,
                salt: _,
                instance,
                choice,
                args,
                actors,
                consuming,
                result,
            } => {
                if !has_kinds(self.checked, instance) {
                    return Ok(false);
                }
                let call = call_of(id, instance, *choice, args)?;
                self.is_exercisable(&call, actors, *consuming, result)
            }
            Action::Fetch {
                id: _,
                salt: _,
                instance,
                actors: _,
            } => Ok(has_kinds(self.checked, instance)),
        }
    }

    /// Whether the consequences of an action are what its choice does.
    #[cycle(rest)]
    #[tactic(auto, using(crate::proofs::Tried::no_body))]
    fn rest_below(&self, node: &ActionNode) -> Result<bool, AllocError>
        ensures { IfOk result (λ b. b ≡ are_rest self.now.checked.now (body_of node.now.root.action) [] node.now.below) }
    {
        match &node.root.action {
            Action::Exercise {
                id,
                instance,
                choice,
                args,
                result,
                ..
            } => {
                let call = call_of(id, instance, *choice, args)?;
                self.follows(&call, result, &node.below)
            }
            Action::Create { id: _, instance: _ } => Ok(has_none(&node.below)),
            Action::Fetch { .. } => Ok(has_none(&node.below)),
        }
    }

    /// Whether an action is possible with all below it.
    #[cycle(rest)]
    fn is_tree_possible(&self, node: &ActionNode) -> Result<bool, AllocError>
        ensures { IfOk result (λ b. b ≡ is_tree_possible self.now.checked.now node.now.root.action node.now.below) }
    {
        if !self.is_possible(&node.root.action)? {
            return Ok(false);
        }
        self.rest_below(node)
    }

    /// Whether a child is the next that the body asks for, and possible with all below it.
    #[cycle(rest)]
    fn child_follows(
        &self,
        call: &ChoiceCall,
        seen: &ChildResultList,
        node: &ActionNode,
    ) -> Result<bool, AllocError>
        ensures { IfOk result (λ b. b ≡
            (asks (next self.now.checked.now call.now seen.now) node.now.root.action
            && is_tree_possible self.now.checked.now node.now.root.action node.now.below)) }
    {
        if !self.asks_for(call, seen, &node.root.action)? {
            return Ok(false);
        }
        self.is_tree_possible(node)
    }

    /// Whether these trees are what the call's choice does, to that result. A tree is tried whole before the body goes on
    /// after it, so no body runs on a contract whose fields have other kinds than its template's.
    #[cycle(rest)]
    fn follows(
        &self,
        call: &ChoiceCall,
        wanted: &Value,
        children: &ActionNodeList,
    ) -> Result<bool, AllocError>
        ensures { IfOk result (λ b. b ≡ are_rest self.now.checked.now (BodyOf call.now wanted.now) [] children.now) }
    {
        let mut seen = ChildResultList::new(self.alloc);
        for node in children.as_slice() {
            if !self.child_follows(call, &seen, node)? {
                return Ok(false);
            }
            learn(&mut seen, &node.root.action)?;
        }
        self.ends_with(call, &seen, wanted)
    }
}

/// Whether a tree of actions is possible in the model: each action is possible by itself, and what stands below it is what its choice does, to the
/// result that it has, and nothing below a Create or a Fetch. Seeds, authority, a Fetch's actors and whether ids are authentic play no part. A choice
/// that `natives` has is asked of them in place of its text. An Err is want of memory.
pub fn reexecute(
    alloc: Global,
    checked: &Checked,
    natives: &NativeList,
    root: &ActionNode,
) -> Result<bool, AllocError>
    ensures { IfOk result (λ b. Decides b (Conforms (the_language checked.now) (tree_of root.now))) }
{
    let replay = Replay {
        alloc,
        checked,
        stepping: natives,
    };
    replay.is_tree_possible(root)
}
