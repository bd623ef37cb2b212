//! Prints why an item of a snapshot waits under a gate.

ghost use Rattle.std.specs.Prelude.{◌≡◌, ◌⊎◌, IfErr, IfOk, string_bytes};
ghost use Rattle.gate_rules.specs.Spelling.{SpellsGate};
ghost use Rattle.ready_core.specs.Verdicts.{AreVerdicts};
ghost use Rattle.state_core.specs.Items.{IsItem};
ghost use Rattle.state_core.specs.declared.item.Item.{Item};
ghost use Rattle.why_text.specs.Asked.{IsItemAsked};
ghost use Rattle.commands.specs.Answers.{IsWhyAnswer, IsReasonFor, IsReasonLine, IsReasonText, WritesMore};
ghost use Rattle.commands.specs.Ending.{Ends};

use super::record::state_from;
use command_line::{Command, Detail, OutputFormat, WhyCommand};
use console::{Console, GateFile, Refusal, read_gate_file, read_record};
use lattice_core::NoMemory;
use ready_core::{Verdicts, evaluate};
use replica_core::Gathering;
use report_json::{full_why_line, why_line};
use state_core::{Item, State};
use std::alloc::Global;
use std::mem::ManuallyDrop;
use why_text::{conditions_text, item_asked, why_text};

/// Prints why an item of a snapshot waits under a gate, and with `Detail::AllConditions` then each condition of the
/// gate. Refusals: those of the gate file, then of the snapshot; `NoItem`, the item isn't known; `Memory`, memory was
/// refused once both were read; `Output`. It costs what reading both costs, and what `evaluate` and `why_text` do, or
/// `why_line`, and of all conditions what `conditions_text` does.
pub fn why<'n, C: Console>(
    alloc: Global,
    command: &WhyCommand<'n>,
    console: &mut C,
) -> Result<(), Refusal<'n>>
    ensures { Ends (Command.Why command.now) (C.state console.old) (C.state console.new) result }
{
    let file = read_gate_file(alloc, command.gate, console)?;
    let gathering = read_record(Gathering::new(alloc), command.snapshot, console)?;
    let state = state_from(console, gathering)?;
    let reason = reason_of(alloc, &file, &state, command);
    // The program ends now, and the record's memory goes with it.
    let _kept = ManuallyDrop::new(state);
    match reason {
        Ok(text) => console.print(text.as_slice()),
        Err(refusal) => Err(refusal),
    }
}

/// What is printed of the item that is asked for.
fn reason_of(
    alloc: Global,
    file: &GateFile,
    state: &State,
    command: &WhyCommand<'_>,
) -> Result<Vec<u8>, Refusal<'static>>
    requires { SpellsGate file.now.text.items file.now.rules }
    ensures reason { IfOk result
        (λ text. IsWhyAnswer file.now.text.items command.now file.now.rules state.now text.items) }
    ensures refused { IfErr result (λ refusal. ((refusal ≡ Refusal.NoItem command.now.change command.now.set)
        × ((item : Item) → ¬ IsItemAsked state.now command.now.change command.now.set item))
        ⊎ (refusal ≡ Refusal.Memory)) }
{
    let Some(item) = item_asked(state, command.change, command.set) else {
        return Err(Refusal::NoItem(command.change, command.set));
    };
    match item_reason(alloc, file, state, item, command.detail, command.format) {
        Ok(text) => Ok(text),
        Err(_) => Err(Refusal::Memory),
    }
}

/// What is printed of an item.
fn item_reason(
    alloc: Global,
    file: &GateFile,
    state: &State,
    item: Item,
    detail: Detail,
    format: OutputFormat,
) -> Result<Vec<u8>, NoMemory>
    requires spelled { SpellsGate file.now.text.items file.now.rules }
    requires there { IsItem state.now item }
    ensures { IfOk result
        (λ text. IsReasonFor file.now.text.items detail format file.now.rules state.now item text.items) }
{
    let verdicts = evaluate(alloc, state, &file.rules)?;
    match format {
        OutputFormat::Json => item_line(alloc, file, state, &verdicts, item, detail),
        OutputFormat::Text => item_text(alloc, file, state, &verdicts, item, detail),
    }
}

/// What is printed of an item as JSON.
fn item_line(
    alloc: Global,
    file: &GateFile,
    state: &State,
    verdicts: &Verdicts,
    item: Item,
    detail: Detail,
) -> Result<Vec<u8>, NoMemory>
    requires spelled { SpellsGate file.now.text.items file.now.rules }
    requires judged { AreVerdicts file.now.rules state.now verdicts.now }
    requires there { IsItem state.now item }
    ensures { IfOk result (λ text.
        IsReasonLine file.now.text.items detail file.now.rules state.now verdicts.now item text.items) }
{
    let bytes = file.text.as_slice();
    match detail {
        Detail::Cause => why_line(alloc, bytes, &file.rules, state, verdicts, item),
        Detail::AllConditions => full_why_line(alloc, bytes, &file.rules, state, verdicts, item),
    }
}

/// The lines that are printed of an item.
fn item_text(
    alloc: Global,
    file: &GateFile,
    state: &State,
    verdicts: &Verdicts,
    item: Item,
    detail: Detail,
) -> Result<Vec<u8>, NoMemory>
    requires spelled { SpellsGate file.now.text.items file.now.rules }
    requires judged { AreVerdicts file.now.rules state.now verdicts.now }
    requires there { IsItem state.now item }
    ensures { IfOk result (λ text.
        IsReasonText file.now.text.items detail file.now.rules state.now verdicts.now item text.items) }
{
    let bytes = file.text.as_slice();
    let mut text = why_text(alloc, bytes, &file.rules, state, verdicts, item)?;
    let more = more_text(alloc, file, state, item, detail)?;
    text.push_str(more.as_str())?;
    Ok(text.into_bytes())
}

/// Each condition of the gate, where that is asked for.
fn more_text(
    alloc: Global,
    file: &GateFile,
    state: &State,
    item: Item,
    detail: Detail,
) -> Result<String, NoMemory>
    requires spelled { SpellsGate file.now.text.items file.now.rules }
    requires there { IsItem state.now item }
    ensures { IfOk result
        (λ text. WritesMore detail file.now.text.items file.now.rules state.now item (string_bytes text)) }
{
    let bytes = file.text.as_slice();
    match detail {
        Detail::Cause => Ok(String::new(alloc)),
        Detail::AllConditions => conditions_text(alloc, bytes, &file.rules, state, item),
    }
}
