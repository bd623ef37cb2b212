//! Prints what a gate file asks for, with warnings of what looks mistaken in it.

ghost use Rattle.std.specs.Prelude.{◌≡◌, IfErr, IfOk, IsSomeAnd, option_map};
ghost use Rattle.gate_check.specs.Checked.{IsCheck};
ghost use Rattle.console.specs.Inputs.{IsRefused, record_input};
ghost use Rattle.state_core.specs.State.{state_of};
ghost use Rattle.commands.specs.Answers.{EndsChecked, IsCheckText, IsRecordHad, check_as};
ghost use Rattle.commands.specs.Ending.{Ends, Finishes};

use super::record::state_from;
use command_line::{CheckCommand, Command, OutputFormat, Strictness};
use console::{Console, Refusal, read_gate, read_record};
use gate_check::{CheckedLine, check_gate, check_line};
use gate_rules::Gate;
use lattice_core::NoMemory;
use replica_core::Gathering;
use state_core::State;
use std::alloc::Global;
use std::mem::ManuallyDrop;

/// Prints what a gate file asks for, condition by condition, and warnings of what looks mistaken in it; where a
/// snapshot is named, of names that its record hasn't got, too. Refusals: those of the gate file, then of the snapshot;
/// `Memory`, memory was refused once both were read; `Output`; `Warnings`, with `Strictness::Strict`, once all is
/// printed: there are warnings. It costs what reading both costs, and what `check_gate` does.
pub fn check<'n, C: Console>(
    alloc: Global,
    command: &CheckCommand<'n>,
    console: &mut C,
) -> Result<(), Refusal<'n>>
    ensures { Ends (Command.Check command.now) (C.state console.old) (C.state console.new) result }
{
    let rules = read_gate(alloc, command.gate, console)?;
    let record = read_any_record(alloc, command.snapshot, console)?;
    let state = state_in(console, record)?;
    let ended = print_check(alloc, &rules, state.as_ref(), command, console);
    // The program ends now, and the record's memory goes with it.
    let _kept = ManuallyDrop::new(state);
    ended
}

/// The record of the snapshot of a name, where one is named.
fn read_any_record<'n, C: Console>(
    alloc: Global,
    name: Option<&'n str>,
    console: &mut C,
) -> Result<Option<Gathering>, Refusal<'n>>
    ensures had { IfOk result (λ read. IsRecordHad (option_map (λ snapshot. snapshot.now) name.entry)
        (option_map state_of read) (C.state console.old) (C.state console.new)) }
    ensures refused { IfErr result (λ refusal. IsSomeAnd name.entry (λ snapshot.
        IsRefused (record_input snapshot.now) (C.state console.old) (C.state console.new) refusal)) }
{
    let Some(name) = name else {
        return Ok(None);
    };
    let record = read_record(Gathering::new(alloc), name, console)?;
    Ok(Some(record))
}

/// The state of a record, where there is one.
fn state_in<C: Console>(
    console: &C,
    read: Option<Gathering>,
) -> Result<Option<State>, Refusal<'static>>
    ensures state { IfOk result (λ state. state ≡ option_map state_of read) }
    ensures refused { IfErr result (λ refusal. refusal ≡ Refusal.Memory) }
{
    match read {
        Some(gathering) => Ok(Some(state_from(console, gathering)?)),
        None => Ok(None),
    }
}

/// Prints what a gate asks for, with warnings.
fn print_check<C: Console>(
    alloc: Global,
    rules: &Gate,
    state: Option<&State>,
    command: &CheckCommand<'_>,
    console: &mut C,
) -> Result<(), Refusal<'static>>
    ensures { Finishes (IsCheckText command.now rules.now (option_map (λ known. known.now) state.entry))
        (C.state console.old) (C.state console.new) result }
{
    let Ok(checked) = checked_as(alloc, rules, state, command.format) else {
        return Err(Refusal::Memory);
    };
    let ended = end_of(command.strictness, checked.warnings);
    console.print(checked.line.as_slice())?;
    ended
}

/// What is printed of a gate, and how many warnings there are.
fn checked_as(
    alloc: Global,
    rules: &Gate,
    state: Option<&State>,
    format: OutputFormat,
) -> Result<CheckedLine, NoMemory>
    ensures { IfOk result (λ checked. IsCheck (check_as format) rules.now (option_map (λ known. known.now) state.entry)
        checked.line.items checked.warnings) }
{
    match format {
        OutputFormat::Json => check_line(alloc, rules, state),
        OutputFormat::Text => checked_text(alloc, rules, state),
    }
}

/// The lines that are printed of a gate, and how many warnings there are.
fn checked_text(alloc: Global, rules: &Gate, state: Option<&State>) -> Result<CheckedLine, NoMemory>
    ensures { IfOk result (λ checked. IsCheck (check_as OutputFormat.Text) rules.now
        (option_map (λ known. known.now) state.entry) checked.line.items checked.warnings) }
{
    let checked = check_gate(alloc, rules, state)?;
    Ok(CheckedLine {
        line: checked.text.into_bytes(),
        warnings: checked.warnings,
    })
}

/// How a check with so many warnings ends.
fn end_of(strictness: Strictness, warnings: usize) -> Result<(), Refusal<'static>>
    ensures { EndsChecked strictness warnings result }
{
    match strictness {
        Strictness::Lenient => Ok(()),
        Strictness::Strict => end_strictly(warnings),
    }
}

/// How a strict check with so many warnings ends.
fn end_strictly(warnings: usize) -> Result<(), Refusal<'static>>
    ensures { EndsChecked Strictness.Strict warnings result }
{
    if warnings > 0 {
        return Err(Refusal::Warnings(warnings));
    }
    Ok(())
}
