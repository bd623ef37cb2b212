//! Plays a script, and prints what each of its lines answers.

ghost use Rattle.std.specs.Prelude.{IsErrOf, IsOk, MatchOption};
ghost use Rattle.std.specs.Option.{option_copied};
ghost use Rattle.commands.specs.Ending.{Ends, Finishes};
ghost use Rattle.commands.specs.Answers.{IsPlayed, IsPlayedText};

use command_line::{Command, SimulateCommand};
use console::{Console, Refusal, read_any_gate, read_script};
use gate_rules::Gate;
use script_play::{play_step, the_same_operations_print_the_same};
use script_text::{Script, ScriptFault};
use std::alloc::Global;
use world_core::World;

/// Plays the script of a name, with reports under the gate of another, where that is named: its events happen in a new
/// world one after the other, by `World::step`, and what a line answers is printed once it is known. Every such run
/// keeps the promise of `the_same_operations_print_the_same`. Refusals: those of the script's bytes, then of the gate
/// file; `Script` 1 `BadSites`; `Script` 2 `BadLine`, the script ends at a line that says nothing, once the lines
/// before it are answered; `Script` 3 `NoMemory`, the script, the sites or an answer couldn't be held; `Output`. It
/// costs what reading and the events cost.
pub fn simulate<'n, C: Console>(
    alloc: Global,
    command: &SimulateCommand<'n>,
    console: &mut C,
) -> Result<(), Refusal<'n>>
    ensures { Ends (Command.Simulate command.now) (C.state console.old) (C.state console.new) result }
{
    the_same_operations_print_the_same::<Global>();
    let text = read_script(alloc, command.script, console)?;
    let rules = read_any_gate(alloc, command.gate, console)?;
    play_text(alloc, text.as_slice(), rules.as_ref(), console)
}

/// Reads and plays a script, with reports under a gate, if there is one.
fn play_text<C: Console>(
    alloc: Global,
    text: &[u8],
    gate: Option<&Gate>,
    console: &mut C,
) -> Result<(), Refusal<'static>>
    ensures { Finishes (IsPlayedText (option_copied gate.entry) text.now) (C.state console.old)
        (C.state console.new) result }
{
    let script = script_text::read_script(alloc, text, gate)?;
    play(alloc, script, console)
}

/// Plays a script.
fn play<C: Console>(
    alloc: Global,
    script: Script<'_>,
    console: &mut C,
) -> Result<(), Refusal<'static>>
    ensures { Finishes (IsPlayed script.entry.sites script.entry.steps.items script.entry.bad_line)
        (C.state console.old) (C.state console.new) result }
{
    let Script {
        sites,
        steps,
        bad_line,
    } = script;
    let Ok(mut world) = World::new(alloc, sites) else {
        return Err(Refusal::Script(ScriptFault::NoMemory));
    };
    for step in steps {
        let Ok(text) = play_step(alloc, &mut world, step) else {
            return Err(Refusal::Script(ScriptFault::NoMemory));
        };
        console.print(text.as_bytes())?;
    }
    end_of(bad_line)
}

/// How a script ends whose steps were played: at the line that says none, if there is one.
fn end_of(bad_line: Option<u64>) -> Result<(), Refusal<'static>>
    ensures { MatchOption bad_line (IsOk result) (λ line. IsErrOf result (Refusal.Script (ScriptFault.BadLine line))) }
{
    match bad_line {
        Some(line) => Err(Refusal::Script(ScriptFault::BadLine(line))),
        None => Ok(()),
    }
}
