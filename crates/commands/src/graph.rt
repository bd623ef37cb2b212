//! Prints the items of a snapshot and what they wait for under a gate, as a graph.

ghost use Rattle.std.specs.Prelude.{◌≡◌, ◌⊎◌, IfErr, IfOk, MatchOption, Some, string_bytes};
ghost use Rattle.graph_text.specs.Drawing.{IsGraphText};
ghost use Rattle.commands.specs.Answers.{HasAround, IsRefusedAround};
ghost use Rattle.commands.specs.Ending.{Ends};

use super::record::state_from;
use command_line::{Command, GraphCommand};
use console::{Console, Refusal, read_gate, read_record};
use gate_rules::Gate;
use graph_text::graph_text;
use replica_core::Gathering;
use state_core::State;
use std::alloc::Global;
use std::mem::ManuallyDrop;

/// Prints the items of a snapshot and what they wait for under a gate, as a graph in the DOT language: all of them, or
/// what leads to the items of the change `around` and what these lead to, where one is named. Refusals: those of the gate file, then of
/// the snapshot; `NoItem`, no patch set of that change is known; `Memory`, memory was refused once both were read;
/// `Output`. It costs what reading both costs, and what `graph_text` does.
pub fn graph<'n, C: Console>(
    alloc: Global,
    command: &GraphCommand<'n>,
    console: &mut C,
) -> Result<(), Refusal<'n>>
    ensures { Ends (Command.Graph command.now) (C.state console.old) (C.state console.new) result }
{
    let rules = read_gate(alloc, command.gate, console)?;
    let gathering = read_record(Gathering::new(alloc), command.snapshot, console)?;
    let state = state_from(console, gathering)?;
    let picture = picture_of(alloc, &rules, &state, command.around);
    // The program ends now, and the record's memory goes with it.
    let _kept = ManuallyDrop::new(state);
    match picture {
        Ok(text) => console.print(text.as_bytes()),
        Err(refusal) => Err(refusal),
    }
}

/// The text that is printed of a state under a gate.
fn picture_of(
    alloc: Global,
    rules: &Gate,
    state: &State,
    around: Option<u32>,
) -> Result<String, Refusal<'static>>
    ensures known { IfOk result (λ text. HasAround around state.now) }
    ensures drawn { IfOk result (λ text. IsGraphText rules.now state.now around (string_bytes text)) }
    ensures refused { IfErr result (λ refusal. IsRefusedAround around state.now refusal ⊎ (refusal ≡ Refusal.Memory)) }
{
    if let Some(change) = unknown_around(state, around) {
        return Err(Refusal::NoItem(change, None));
    }
    match graph_text(alloc, rules, state, around) {
        Ok(text) => Ok(text),
        Err(_) => Err(Refusal::Memory),
    }
}

/// The change to draw around, where no patch set of it is known.
fn unknown_around(state: &State, around: Option<u32>) -> Option<u32>
    ensures { MatchOption result (HasAround around state.now)
        (λ change. (around ≡ Some change) × ¬ HasAround around state.now) }
{
    let change = around?;
    if state.is_known(change) {
        return None;
    }
    Some(change)
}
