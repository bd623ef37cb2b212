//! Parses and runs a command line, over any readers, writers and files.

ghost use Rattle.std.specs.Prelude.{map};
ghost use Rattle.command_line.specs.Asking.{WordsAsk};
ghost use Rattle.command_line.specs.declared.asked.Asked.{Asked as AnyAsked};
ghost use Rattle.console.specs.Showing.{error_output};
ghost use Rattle.commands.specs.Asked.{DoesAsked};
ghost use Rattle.commands.specs.Running.{counts};

use super::run::{print_text, report, report_usage, run_command};
use byte_ends::{Drain, Source};
use command_line::{Asked, read_words};
use console::{Named, Refusal};
use std::alloc::Global;
use std::convert::AsStr;

/// The usage error of a command that isn't run here.
const APART: &str =
    "error: this command runs on the system's own sockets, clocks and files\n\nFor more information, try '--help'.\n";

/// Parses the arguments after the program's name, and runs them, as `run_asked` does. It is the whole program except
/// `serve`, `recover`, `events`, `queries` and `enqueue`, which are usage errors here.
pub fn run_words<S: AsStr, I: Source, O: Drain, E: Drain, N: Named>(
    alloc: Global,
    words: &[S],
    input: &mut I,
    output: &mut O,
    errors: &mut E,
    files: &mut N,
) -> u8
    ensures { (asked : AnyAsked) × WordsAsk (map S.text words.entry.now) asked
        × DoesAsked asked (I.left input.old) (N.files files.old) (N.sites files.old)
        (counts (O.taken output.old) (I.failed input.old) (N.failed files.old) (O.failed output.old))
        (counts (O.taken output.new) (I.failed input.new) (N.failed files.new) (O.failed output.new))
        (error_output (E.taken errors.old) (E.failed errors.old))
        (error_output (E.taken errors.new) (E.failed errors.new)) result }
{
    let asked = read_words(alloc, words);
    run_asked(alloc, asked, input, output, errors, files)
}

/// Runs a parsed command line: runs a command over files, as `run_command` does; prints help or the version, as
/// `print_text` does; or reports a usage error, as `report_usage` does, or refused memory. `serve`, `recover`, `events`,
/// `queries` and `enqueue` are usage errors here. Returns the exit status.
pub fn run_asked<I: Source, O: Drain, E: Drain, N: Named>(
    alloc: Global,
    asked: Asked<'_>,
    input: &mut I,
    output: &mut O,
    errors: &mut E,
    files: &mut N,
) -> u8
    ensures { DoesAsked asked.entry (I.left input.old) (N.files files.old) (N.sites files.old)
        (counts (O.taken output.old) (I.failed input.old) (N.failed files.old) (O.failed output.old))
        (counts (O.taken output.new) (I.failed input.new) (N.failed files.new) (O.failed output.new))
        (error_output (E.taken errors.old) (E.failed errors.old))
        (error_output (E.taken errors.new) (E.failed errors.new)) result }
{
    match asked {
        Asked::Run(command) => run_command(alloc, &command, input, output, errors, files),
        Asked::Help(text) => print_text(alloc, text.as_str(), output, errors),
        Asked::Version(text) => print_text(alloc, text.as_str(), output, errors),
        Asked::Usage(text) => report_usage(text.as_str(), errors),
        Asked::NoMemory => report(alloc, &Err(Refusal::Memory), errors),
        Asked::Serve(_) => report_usage(APART, errors),
        Asked::Recover(_) => report_usage(APART, errors),
        Asked::Events(_) => report_usage(APART, errors),
        Asked::Queries(_) => report_usage(APART, errors),
        Asked::Enqueue(_) => report_usage(APART, errors),
    }
}
