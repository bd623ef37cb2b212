//! Each condition of a gate, as an item meets or breaks it, as JSON.

ghost use Rattle.std.specs.Prelude.{List, OnOk};
ghost use Rattle.gate_rules.specs.Spelling.{SpellsGate};
ghost use Rattle.json.specs.Token.{Token};
ghost use Rattle.json_line.specs.Tokens.{AddsTokens};
ghost use Rattle.state_core.specs.Items.{IsItem};
ghost use Rattle.why_text.specs.All.{WritesEach};
ghost use Rattle.report_json.specs.Why.{SaysConditions, SaysTried};

use super::asked::put_asked;
use gate_rules::{Gate, Tried};
use json::Writer;
use json_line::{close_list, close_object, open_list, open_object, put_flag, put_text};
use lattice_core::NoMemory;
use ready_core::Refusal;
use state_core::{Item, State};
use std::alloc::Global;
use why_text::refusal_words;

/// Adds the list of the conditions of the gate, in the order in which an item is judged by them.
pub(super) fn put_conditions(
    alloc: Global,
    out: &mut Writer<Global>,
    file: &[u8],
    gate: &Gate,
    state: &State,
    item: Item,
) -> Result<(), NoMemory>
    requires spelled { SpellsGate file.now gate.now }
    requires there { IsItem state.now item }
    ensures { OnOk result ((added : List Token) × AddsTokens out.old out.new added
        × SaysConditions file.now gate.now state.now item added) }
{
    let tried = gate.conditions(alloc, state, item)?;
    open_list(out, "conditions")?;
    add_all_tried(alloc, out, file, gate, state, item, tried.as_slice())?;
    close_list(out)?;
    Ok(())
}

/// Adds an object for each condition.
fn add_all_tried(
    alloc: Global,
    out: &mut Writer<Global>,
    file: &[u8],
    gate: &Gate,
    state: &State,
    item: Item,
    tried: &[Tried],
) -> Result<(), NoMemory>
    requires spelled { SpellsGate file.now gate.now }
    requires there { IsItem state.now item }
    ensures { OnOk result ((added : List Token) × AddsTokens out.old out.new added
        × WritesEach (SaysTried file.now state.now item) tried.now added) }
{
    for one in tried {
        add_tried(alloc, out, file, gate, state, item, *one)?;
    }
    Ok(())
}

/// Adds the object of a condition.
fn add_tried(
    alloc: Global,
    out: &mut Writer<Global>,
    file: &[u8],
    gate: &Gate,
    state: &State,
    item: Item,
    tried: Tried,
) -> Result<(), NoMemory>
    requires spelled { SpellsGate file.now gate.now }
    requires there { IsItem state.now item }
    ensures { OnOk result ((added : List Token) × AddsTokens out.old out.new added
        × SaysTried file.now state.now item tried added) }
{
    let words = refusal_words(alloc, Refusal::Own(tried.condition))?;
    open_object(out)?;
    put_text(out, "condition", words.as_str())?;
    put_flag(out, "met", !tried.is_broken)?;
    put_asked(alloc, out, file, gate, state, item, tried.condition)?;
    close_object(out)?;
    Ok(())
}
