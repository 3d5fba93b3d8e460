//! The arguments of a command, by `clap`.
ghost use Rattle.std.specs.Prelude.{◌≡◌, map, Some, None, IfOk, Err};
ghost use Rattle.clap.specs.Simple.{app_of};
ghost use Rattle.cli_words.specs.Arguments.{AreUtf8};
ghost use Rattle.cli_words.specs.Command.{options_app, words_app, matches_given};
ghost use Rattle.cli_words.specs.Jobs.{given_of};

use crate::words_fault::WordsFault;
use clap::error::ErrorKind;
use clap::{Arg, ArgAction, ArgMatches, Command};
use std::alloc::{AllocError, Global};

/// The options of all commands. Help is none.
fn options<'a>(alloc: Global) -> Result<Command<'a>, AllocError>
    ensures { IfOk result (λ c. app_of c ≡ options_app) }
{
    let workers = Arg::new(alloc, "workers")
        .long("workers")
        .action(ArgAction::Set);
    let log = Arg::new(alloc, "log").long("log").action(ArgAction::Set);
    Command::new(alloc, "words")
        .no_binary_name(true)
        .disable_help_flag(true)
        .arg(workers)?
        .arg(log)
}

/// The arguments of all commands.
fn command<'a>(alloc: Global) -> Result<Command<'a>, AllocError>
    ensures { IfOk result (λ c. app_of c ≡ words_app) }
{
    let count = Arg::new(alloc, "count").action(ArgAction::Set);
    let seed = Arg::new(alloc, "seed").action(ArgAction::Set);
    let command = options(alloc)?;
    command.arg(count)?.arg(seed)
}

/// The arguments that the words after a command give, as `clap` reads them: Usage where they are at fault.
pub(crate) fn read_arguments<'a>(
    alloc: Global,
    words: &'a [&'a str],
) -> Result<ArgMatches<'a>, WordsFault>
    requires { AreUtf8 (map (λ w. w.now) words.now) }
    ensures given { IfOk result (λ m. given_of (map (λ w. w.now) words.entry.now) ≡ Some (matches_given m)) }
    ensures usage { result ≡ Err WordsFault.Usage → given_of (map (λ w. w.now) words.entry.now) ≡ None }
{
    let Ok(command) = command(alloc) else {
        return Err(WordsFault::Memory);
    };
    match command.try_get_matches_from(words) {
        Ok(matches) => Ok(matches),
        Err(fault) => if fault.kind() == ErrorKind::OutOfMemory {
            Err(WordsFault::Memory)
        } else {
            Err(WordsFault::Usage)
        },
    }
}
