//! Commands become transactions.
ghost use Rattle.std.specs.Prelude.{◌≡◌, ◌≢◌, IfOk, IfErr, Err, slice_get};
ghost use Rattle.ledger_terms.specs.Answers.{UnlessMemory};
ghost use Rattle.interpret.specs.Commands.{args_have_kinds, called_demand, command_demand, command_turn, create_demand, exercise_demand, kind_of_arg};
ghost use Rattle.interpret.specs.Interpreted.{if_small, interp, run_roots};
ghost use Rattle.interpret.specs.Plain.{IsPlain};
ghost use Rattle.interpret.specs.TurnAnswers.{turn_shown};
ghost use Rattle.interpret.specs.Stops.{StopsWith};
ghost use Rattle.interpret.specs.Wanted.{IsWanted};

use crate::asking::Asking;
use crate::command_fault::{CommandFault, root_path, root_unknown};
use crate::demand::Demand;
use crate::encoded::if_small;
use crate::interpreter::Interpreter;
use crate::place::Place;
use crate::progress::nothing_done;
use crate::references::{referenced_id, referenced_values};
use crate::stepping::Stepping;
use crate::turn::Turn;
use lang_eval::{Checked, NativeList, kind_of};
use ledger_terms::{
    ActionNodeList, Arg, ArgList, Command, CommandList, ContractRef, FieldDecl, Hash, Kind,
    KnownContracts, Name, PartySet, TemplateName, Value,
};

/// The kind of what is handed in.
fn kind_of_arg(arg: &Arg) -> Kind
    ensures { result ≡ kind_of_arg arg.now }
{
    match arg {
        Arg::Plain(value) => kind_of(value),
        Arg::Contract(_) => Kind::Contract,
    }
}

/// Whether what is handed in is as many as declared and has the kinds.
fn args_have_kinds(args: &[Arg], decls: &[FieldDecl]) -> bool
    ensures { result ≡ args_have_kinds args.now decls.now }
{
    if args.len() != decls.len() {
        return false;
    }
    for at in 0..args.len() {
        if kind_of_arg(&args[at]) != decls[at].kind {
            return false;
        }
    }
    true
}

impl<K: KnownContracts, S: Stepping> Interpreter<'_, K, S> {
    fn create_demand(
        &self,
        root: u16,
        template: TemplateName,
        fields: &ArgList,
    ) -> Result<Demand, CommandFault>
        ensures { UnlessMemory CommandFault.Memory result (create_demand self.now.checked.now (K.rows self.now.known.now) root template fields.now) }
    {
        let Some(found) = self.checked.template(template) else {
            return Err(CommandFault::UnknownTemplate { root: root as u32 });
        };
        if !args_have_kinds(fields.as_slice(), found.fields.as_slice()) {
            return Err(CommandFault::BadArgs { root: root as u32 });
        }
        match referenced_values(self.alloc, self.known, fields)? {
            Some(fields) => Ok(Demand::Create { template, fields }),
            None => Err(CommandFault::ContractUnknown {
                path: root_path(self.alloc, root)?,
            }),
        }
    }

    fn called_demand(
        &self,
        root: u16,
        template: TemplateName,
        contract: &ContractRef,
        choice: Name,
        args: &ArgList,
    ) -> Result<Demand, CommandFault>
        ensures { UnlessMemory CommandFault.Memory result (called_demand (K.rows self.now.known.now) root template contract.now choice args.now) }
    {
        let Some(id) = referenced_id(self.known, contract) else {
            return Err(root_unknown(self.alloc, root));
        };
        match referenced_values(self.alloc, self.known, args)? {
            Some(args) => Ok(Demand::Exercise {
                template,
                id,
                choice,
                args,
            }),
            None => Err(root_unknown(self.alloc, root)),
        }
    }

    fn exercise_demand(
        &self,
        root: u16,
        template: &TemplateName,
        contract: &ContractRef,
        choice: Name,
        args: &ArgList,
    ) -> Result<Demand, CommandFault>
        ensures { UnlessMemory CommandFault.Memory result
            (exercise_demand self.now.checked.now (K.rows self.now.known.now) root template.now contract.now choice args.now) }
    {
        if self.checked.template(*template).is_none() {
            return Err(CommandFault::UnknownTemplate { root: root as u32 });
        }
        let Some(found) = self.checked.choice(*template, choice) else {
            return Err(CommandFault::UnknownChoice { root: root as u32 });
        };
        if !args_have_kinds(args.as_slice(), found.params.as_slice()) {
            return Err(CommandFault::BadArgs { root: root as u32 });
        }
        self.called_demand(root, *template, contract, choice, args)
    }

    /// The action that a command asks for.
    fn command_demand(&self, root: u16, command: &Command) -> Result<Demand, CommandFault>
        ensures { UnlessMemory CommandFault.Memory result (command_demand self.now.checked.now (K.rows self.now.known.now) root command.now) }
    {
        match command {
            Command::Create { template, fields } => self.create_demand(root, *template, fields),
            Command::Exercise {
                template,
                contract,
                choice,
                args,
            } => self.exercise_demand(root, template, contract, *choice, args),
        }
    }

    /// What the commands ask for at an index, or their end.
    pub(crate) fn command_turn(
        &self,
        commands: &CommandList,
        index: u16,
    ) -> Result<Turn, CommandFault>
        ensures { result ≢ Err CommandFault.Memory → turn_shown result ≡ command_turn self.now.checked.now (K.rows self.now.known.now) index
            (slice_get commands.now index) }
    {
        match commands.get(index as usize) {
            Some(command) => {
                let demand = self.command_demand(index, command)?;
                Ok(Turn::Child(demand))
            }
            None => Ok(Turn::End(Value::Unit)),
        }
    }

    /// The root actions that commands ask for, in order.
    fn run_commands(
        &self,
        seed: &Hash,
        act_as: &PartySet,
        commands: &CommandList,
    ) -> Result<ActionNodeList, CommandFault>
        ensures { UnlessMemory CommandFault.Memory result (run_roots self.now.checked.now (K.rows self.now.known.now) seed.now act_as.now commands.now) }
    {
        let mut progress = nothing_done(self.alloc);
        let mut roots = ActionNodeList::new(self.alloc);
        let place = Place::top(self.alloc, seed);
        let asking = Asking::Commands(commands);
        let _end = match self.follow(&mut progress, &place, act_as, asking, &mut roots) {
            Ok(end) => end,
            Err(fault) => return Err(fault),
        };
        Ok(roots)
    }

    /// The transaction that commands ask for.
    #[tactic(auto, unfolding(crate::specs::Interpreted::interp))]
    fn run(
        &self,
        seed: &Hash,
        act_as: &PartySet,
        commands: &CommandList,
    ) -> Result<ActionNodeList, CommandFault>
        ensures { UnlessMemory CommandFault.Memory result (interp self.now.checked.now (K.rows self.now.known.now) seed.now act_as.now commands.now) }
    {
        let roots = self.run_commands(seed, act_as, commands)?;
        if_small(roots)
    }
}

/// The transaction that the commands of `act_as` ask for: root actions in order, each with its consequences. `known` has the active contracts that they
/// may use, `seed` is the transaction's, a choice that `natives` has is asked of them in place of its text, and memory is that of the list of commands.
/// An Err is the first fault, tried in the order that docs/PROTOCOL.md, 'Commands', has, or want of memory.
pub fn interpret<K: KnownContracts>(
    checked: &Checked,
    natives: &NativeList,
    known: &K,
    seed: &Hash,
    act_as: &PartySet,
    commands: &CommandList,
) -> Result<ActionNodeList, CommandFault>
    ensures exact { UnlessMemory CommandFault.Memory result (interp checked.now (K.rows known.now) seed.now act_as.now commands.now) }
    ensures wanted { IfOk result (λ forest. IsWanted checked.now (K.rows known.now) seed.now act_as.now commands.now forest) }
    ensures stops { IfErr result (λ fault. fault ≢ CommandFault.Memory → StopsWith checked.now (K.rows known.now) seed.now act_as.now commands.now fault) }
    ensures plain { IfErr result (λ fault. fault ≢ CommandFault.Memory → IsPlain fault) }
{
    let interpreter = Interpreter {
        alloc: *commands.allocator(),
        checked,
        stepping: natives,
        known,
    };
    interpreter.run(seed, act_as, commands)
}
