//! Prints the report of a snapshot under a gate.

ghost use Rattle.std.specs.Prelude.{◌≡◌};
ghost use Rattle.commands.specs.Answers.{IsPrintedWhole, MissesNone, report_as};
ghost use Rattle.commands.specs.Ending.{Ends, Finishes};

use super::record::state_from;
use command_line::{Command, OutputFormat, ReadyCommand};
use console::{Console, Refusal, read_gate, read_record};
use ready_core::{Verdicts, evaluate};
use replica_core::Gathering;
use report_json::report_line;
use std::alloc::Global;
use std::mem::ManuallyDrop;

/// Prints which items of a snapshot may be enqueued under a gate, and why each other one waits. Refusals: those of the
/// gate file, then of the snapshot; `Memory`, memory was refused once both were read; `Output`. It costs what reading
/// both costs, and what `evaluate` and `write_report` or `report_line` do.
pub fn ready<'n, C: Console>(
    alloc: Global,
    command: &ReadyCommand<'n>,
    console: &mut C,
) -> Result<(), Refusal<'n>>
    ensures { Ends (Command.Ready command.now) (C.state console.old) (C.state console.new) result }
{
    let rules = read_gate(alloc, command.gate, console)?;
    let gathering = read_record(Gathering::new(alloc), command.snapshot, console)?;
    let state = state_from(console, gathering)?;
    let Ok(verdicts) = evaluate(alloc, &state, &rules) else {
        return Err(Refusal::Memory);
    };
    let printed = print_verdicts(alloc, &verdicts, command.format, console);
    // The program ends now, and the record's memory goes with it: giving back each text costs time.
    let _kept = ManuallyDrop::new(state);
    printed
}

/// Prints the report of verdicts.
fn print_verdicts<C: Console>(
    alloc: Global,
    verdicts: &Verdicts,
    format: OutputFormat,
    console: &mut C,
) -> Result<(), Refusal<'static>>
    ensures { Finishes (IsPrintedWhole (λ answer. answer ≡ report_as format verdicts.now) MissesNone)
        (C.state console.old)
        (C.state console.new) result }
{
    match format {
        OutputFormat::Json => print_line(alloc, verdicts, console),
        OutputFormat::Text => print_text(verdicts, console),
    }
}

/// Prints the report of verdicts as JSON.
fn print_line<C: Console>(
    alloc: Global,
    verdicts: &Verdicts,
    console: &mut C,
) -> Result<(), Refusal<'static>>
    ensures { Finishes (IsPrintedWhole (λ answer. answer ≡ report_as OutputFormat.Json verdicts.now) MissesNone)
        (C.state console.old)
        (C.state console.new) result }
{
    match report_line(alloc, verdicts) {
        Ok(line) => console.print(line.as_slice()),
        Err(_) => Err(Refusal::Memory),
    }
}

/// Prints the text of the report of verdicts.
fn print_text<C: Console>(verdicts: &Verdicts, console: &mut C) -> Result<(), Refusal<'static>>
    ensures { Finishes (IsPrintedWhole (λ answer. answer ≡ report_as OutputFormat.Text verdicts.now) MissesNone)
        (C.state console.old)
        (C.state console.new) result }
{
    console.print_report(verdicts)
}
