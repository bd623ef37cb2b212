//! What `clap` makes of words.

ghost use Rattle.std.specs.Prelude.{map};
ghost use Rattle.clap.specs.Words.{kind_of, subcommand_rows_of};
ghost use Rattle.command_tree.specs.Parsing.{IsReadAs, IsRefused, Parses};

use super::program::program;
use super::values::Values;
use clap::ArgMatches;
use clap::error::ErrorKind;
use std::alloc::Global;
use std::convert::AsStr;

/// The usage error of a command line without a command.
const NO_COMMAND: &str = "error: a command is missing\n\nFor more information, try '--help'.\n";

/// What `clap` makes of words.
#[derive(Drop)]
pub enum Parsed<'a> {
    /// The command of this name, with the values of its arguments.
    Command(&'a str, Values<'a>),
    /// The help text.
    Help(String),
    /// The program's name and version.
    Version(String),
    /// The text of a usage error.
    Usage(String),
    /// Memory was refused.
    NoMemory,
}

/// Parses the arguments after the program's name, as `clap` matches them to the program's commands. All texts are
/// `clap`'s, except the usage error of a command line without a command, for which `clap` has none. It costs O(n) for n
/// bytes of arguments.
pub fn parse<'a, S: AsStr>(alloc: Global, words: &'a [S]) -> Parsed<'a>
    ensures { Parses (map S.text words.entry.now) result }
{
    let Ok(command) = program(alloc) else {
        return Parsed::NoMemory;
    };
    match command.try_get_matches_from(words) {
        Ok(matches) => command_in(alloc, matches),
        Err(error) => refused(alloc, &error),
    }
}

/// The command of words that were matched.
fn command_in<'a>(alloc: Global, matches: ArgMatches<'a>) -> Parsed<'a>
    ensures { IsReadAs (subcommand_rows_of matches.entry) result }
{
    let mut matches = matches;
    if let Some((name, found)) = matches.remove_subcommand() {
        return Parsed::Command(name, Values::new(found));
    }
    match String::from_str(alloc, NO_COMMAND) {
        Ok(text) => Parsed::Usage(text),
        Err(_) => Parsed::NoMemory,
    }
}

/// The result for an error of `clap`: help, the version, a usage error, or refused memory.
fn refused<'a>(alloc: Global, error: &clap::Error) -> Parsed<'a>
    ensures { IsRefused (kind_of error.now) result }
{
    let kind = error.kind();
    if kind == ErrorKind::OutOfMemory {
        return Parsed::NoMemory;
    }
    let Ok(text) = error.to_string(alloc) else {
        return Parsed::NoMemory;
    };
    match kind {
        ErrorKind::DisplayHelp => Parsed::Help(text),
        ErrorKind::DisplayVersion => Parsed::Version(text),
        _ => Parsed::Usage(text),
    }
}
