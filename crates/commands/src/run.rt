//! Runs a command over any readers, writers and files, or prints help, the version or a usage error.

ghost use Rattle.std.specs.Prelude.{◌≡◌, Err, MatchBool};
ghost use Rattle.command_line.specs.declared.asked.Command.{Command};
ghost use Rattle.console.specs.Printing.{Ended};
ghost use Rattle.commands.specs.Ending.{Ends};
ghost use Rattle.console.specs.Showing.{Shows, error_output};
ghost use Rattle.commands.specs.Running.{PrintsText, Reports, Runs, counts};

use super::check::check;
use super::footers::footers;
use super::graph::graph;
use super::item::ready_item;
use super::merge::merge;
use super::ready::ready;
use super::simulate::simulate;
use super::why::why;
use byte_ends::{Drain, Source, write_all};
use command_line::Command;
use console::{Console, Named, Refusal, Streams, show, show_refusal};
use std::alloc::Global;

/// The exit status of success.
const DONE: u8 = 0;

/// The exit status of a refusal.
const REFUSED: u8 = 1;

/// The exit status of a usage error.
const MISUSED: u8 = 2;

/// The exit status of `ready --item` if the item waits.
const WAITING: u8 = 3;

/// Runs a command. The file name `-` reads `input`. Returns the exit status: 0 for success; 1 for a refusal, with one
/// line on `errors`; 3 if the item of `ready --item` waits. If `errors` fails the line is lost.
pub fn run_command<I: Source, O: Drain, E: Drain, N: Named>(
    alloc: Global,
    command: &Command<'_>,
    input: &mut I,
    output: &mut O,
    errors: &mut E,
    files: &mut N,
) -> u8
    ensures { (ended : Ended) × Runs command.now (I.left input.old) (N.files files.old) (N.sites files.old)
        (counts (O.taken output.old) (I.failed input.old) (N.failed files.old) (O.failed output.old))
        (counts (O.taken output.new) (I.failed input.new) (N.failed files.new) (O.failed output.new)) ended
        × Reports (error_output (E.taken errors.old) (E.failed errors.old))
        (error_output (E.taken errors.new) (E.failed errors.new)) ended result }
{
    let ended = run_over(alloc, command, input, output, files);
    report(alloc, &ended, errors)
}

/// Runs a command over a console of these ends.
fn run_over<'n, I: Source, O: Drain, N: Named>(
    alloc: Global,
    command: &Command<'n>,
    input: &mut I,
    output: &mut O,
    files: &mut N,
) -> Result<(), Refusal<'n>>
    ensures { Runs command.now (I.left input.old) (N.files files.old) (N.sites files.old)
        (counts (O.taken output.old) (I.failed input.old) (N.failed files.old) (O.failed output.old))
        (counts (O.taken output.new) (I.failed input.new) (N.failed files.new) (O.failed output.new)) result }
{
    let mut console = Streams {
        input,
        output,
        files,
        is_spent: false,
    };
    do_command(alloc, command, &mut console)
}

/// Runs a command over a console.
fn do_command<'n, C: Console>(
    alloc: Global,
    command: &Command<'n>,
    console: &mut C,
) -> Result<(), Refusal<'n>>
    ensures { Ends command.now (C.state console.old) (C.state console.new) result }
{
    match command {
        Command::Simulate(command) => simulate(alloc, command, console),
        Command::Ready(command) => ready(alloc, command, console),
        Command::ReadyItem(command) => ready_item(alloc, command, console),
        Command::Merge(command) => merge(alloc, command, console),
        Command::Footers(command) => footers(alloc, command, console),
        Command::Why(command) => why(alloc, command, console),
        Command::Graph(command) => graph(alloc, command, console),
        Command::Check(command) => check(alloc, command, console),
    }
}

/// Prints a text, such as help or the version. Returns the exit status: 0, or 1 if the output failed, with one line on
/// `errors`. If `errors` fails the line is lost.
pub fn print_text<O: Drain, E: Drain>(
    alloc: Global,
    text: &str,
    output: &mut O,
    errors: &mut E,
) -> u8
    ensures { (ended : Ended) × PrintsText text.now (O.taken output.old) (O.taken output.new) (O.failed output.old)
        (O.failed output.new) ended × Reports (error_output (E.taken errors.old) (E.failed errors.old))
        (error_output (E.taken errors.new) (E.failed errors.new)) ended result }
{
    let ended = written(text, output);
    report(alloc, &ended, errors)
}

/// Writes a text to the output.
fn written<O: Drain>(text: &str, output: &mut O) -> Result<(), Refusal<'static>>
    ensures { PrintsText text.now (O.taken output.old) (O.taken output.new) (O.failed output.old)
        (O.failed output.new) result }
{
    match write_all(output, text.as_bytes()) {
        Ok(()) => Ok(()),
        Err(_) => Err(Refusal::Output),
    }
}

/// Writes the text of a usage error to standard error, and returns the exit status, 2. If standard error fails the text
/// is lost.
pub fn report_usage<E: Drain>(text: &str, errors: &mut E) -> u8
    ensures shown { Shows text.now (error_output (E.taken errors.old) (E.failed errors.old))
        (error_output (E.taken errors.new) (E.failed errors.new)) }
    ensures status { result ≡ 2 }
{
    show(text.as_bytes(), errors);
    MISUSED
}

/// Writes the line of a refusal to standard error, and returns the exit status; for an item that waits nothing is
/// written, and the status is 3. If standard error fails the line is lost.
pub fn report<E: Drain>(alloc: Global, ended: &Result<(), Refusal<'_>>, errors: &mut E) -> u8
    ensures { Reports (error_output (E.taken errors.old) (E.failed errors.old))
        (error_output (E.taken errors.new) (E.failed errors.new)) ended.now result }
{
    match ended {
        Ok(()) => DONE,
        Err(refusal) => report_refusal(alloc, refusal, errors),
    }
}

/// The same for a refusal, which may be that an item waits.
fn report_refusal<E: Drain>(alloc: Global, refusal: &Refusal<'_>, errors: &mut E) -> u8
    ensures { Reports (error_output (E.taken errors.old) (E.failed errors.old))
        (error_output (E.taken errors.new) (E.failed errors.new)) (Err refusal.now) result }
{
    if is_waiting(refusal) {
        return WAITING;
    }
    show_refusal(alloc, refusal, errors);
    REFUSED
}

/// Whether the refusal is `Waits`.
fn is_waiting(refusal: &Refusal<'_>) -> bool
    ensures { MatchBool result (refusal.now ≡ Refusal.Waits) (¬ (refusal.now ≡ Refusal.Waits)) }
{
    match refusal {
        Refusal::Waits => true,
        _ => false,
    }
}
