//! The words of the command line, by `clap`.
use crate::asked::Asked;
use crate::drawing::{CHART, Drawing, PAGE, VIEWS};
use crate::end::End;
use clap::error::ErrorKind;
use clap::{Arg, ArgAction, ArgMatches, Command, Error};
use ledger_terms::{Name, Text};
use std::alloc::{AllocError, Global};

const ABOUT_CHART: &str =
    "Draws the report of a run: a report on standard input, an SVG picture on standard output.";

const ABOUT_VIEWS: &str =
    "Runs the script of standard input and draws each request of its log as a tree with views, as SVG";

const ABOUT_PAGE: &str =
    "Runs the script of standard input and writes one HTML page that shows place by place who knew what";

const FOR_PAGE: &str = "Writes what this participant knows, and nothing else";

const FOR: &str = "Draws what this participant is shown, with hashes in the place of all else";

/// The command line of a drawing, as `clap` reads it.
fn command<'a>(alloc: Global, drawing: Drawing) -> Result<Command<'a>, AllocError> {
    match drawing {
        Drawing::Chart => Ok(
            Command::new(alloc, CHART)
                .about(ABOUT_CHART)
                .no_binary_name(true),
        ),
        Drawing::Views => command_for(alloc, VIEWS, ABOUT_VIEWS, FOR),
        Drawing::Page => command_for(alloc, PAGE, ABOUT_PAGE, FOR_PAGE),
    }
}

/// A command that takes `--for`.
fn command_for<'a>(
    alloc: Global,
    name: &'static str,
    about: &'static str,
    help: &'static str,
) -> Result<Command<'a>, AllocError> {
    let reader = Arg::new(alloc, "for")
        .long("for")
        .value_name("PARTICIPANT")
        .help(help)
        .action(ArgAction::Set);
    Command::new(alloc, name)
        .about(about)
        .no_binary_name(true)
        .arg(reader)
}

/// The words behind the program's name and the drawing's.
fn texts_of(alloc: Global, all: &[String]) -> Result<Vec<&str>, AllocError> {
    let mut texts = Vec::new(alloc);
    for word in all.iter().skip(2) {
        texts.push(word.as_str())?;
    }
    Ok(texts)
}

/// What all the words ask for, of which the first two are the program's name and the drawing's. Err: how the program ends where they aren't accepted,
/// as where `--for` has a text that can't be a name.
pub(crate) fn asked_by(alloc: Global, drawing: Drawing, all: &[String]) -> Result<Asked, End> {
    let texts = texts_of(alloc, all)?;
    let command = command(alloc, drawing)?;
    match command.try_get_matches_from(texts.as_slice()) {
        Ok(given) => asked_for(drawing, &given),
        Err(error) => answer_to(alloc, &error),
    }
}

fn asked_for(drawing: Drawing, given: &ArgMatches<'_>) -> Result<Asked, End> {
    match drawing {
        Drawing::Chart => Ok(Asked::Chart),
        Drawing::Views => Ok(Asked::Views {
            reader: reader_of(given)?,
        }),
        Drawing::Page => Ok(Asked::Page {
            reader: reader_of(given)?,
        }),
    }
}

/// The name behind `--for`; None where it isn't given. Err: what stands there can't be a name.
fn reader_of(given: &ArgMatches<'_>) -> Result<Option<Name>, End> {
    match given.get_str("for") {
        Some(text) => match Name::read(text) {
            Some(name) => Ok(Some(name)),
            None => Err(End::of(2)),
        },
        None => Ok(None),
    }
}

/// What comes of words that `clap` doesn't take as a command: the help where they ask for it, else how the program ends.
fn answer_to(alloc: Global, error: &Error) -> Result<Asked, End> {
    match error.kind() {
        ErrorKind::DisplayHelp => {
            let help = format!(in alloc; "{error}")?;
            Ok(Asked::Help(Text::of_string(help)))
        }
        ErrorKind::OutOfMemory => Err(End::of(70)),
        _ => Err(End::of(2)),
    }
}
