//! Why an item is left out.

ghost use Rattle.std.specs.Prelude.{◌≡◌, ◌++◌, Contains, IfOk, OnOk, flat_map, string_bytes};
ghost use Rattle.state_core.specs.Items.{IsItem};
ghost use Rattle.gate_rules.specs.Spelling.{SpellsGate};
ghost use Rattle.ready_core.specs.Verdicts.{AreVerdicts, items_out};
ghost use Rattle.why_text.specs.Why.{IsLeftFor, IsWhy, why_ready_line, step_line};

use super::chain::chain_of;
use super::details::details_of;
use super::words::{add_item, add_refusal};
use gate_rules::Gate;
use lattice_core::NoMemory;
use ready_core::{Left, Verdicts};
use state_core::{Item, State};
use std::alloc::Global;

/// Why an item is left out: a line for it and for each item that it waits for, down to the cause, and the lines of
/// that; or the line of an item that is ready. The verdicts are those of the state under the gate, which the bytes of
/// the gate file spell. It costs O(n + b + k log n) for n items, b bytes of the gate file and k lines; of a cycle also
/// what building the graph costs.
pub fn why_text(
    alloc: Global,
    file: &[u8],
    gate: &Gate,
    state: &State,
    verdicts: &Verdicts,
    item: Item,
) -> Result<String, NoMemory>
    requires spelled { SpellsGate file.now gate.now }
    requires judged { AreVerdicts gate.now state.now verdicts.now }
    requires there { IsItem state.now item }
    ensures { IfOk result (λ text. IsWhy file.now gate.now state.now verdicts.now item (string_bytes text)) }
{
    if verdicts.ready().contains(&item) {
        return ready_text(alloc, item);
    }
    left_text(alloc, file, gate, state, verdicts, item)
}

/// The line of an item that is ready.
fn ready_text(alloc: Global, item: Item) -> Result<String, NoMemory>
    ensures { IfOk result (λ text. string_bytes text ≡ why_ready_line item) }
{
    let mut text = String::new(alloc);
    add_item(&mut text, item)?;
    text.push_str(" ready\n")?;
    Ok(text)
}

/// The lines of an item that is left out.
fn left_text(
    alloc: Global,
    file: &[u8],
    gate: &Gate,
    state: &State,
    verdicts: &Verdicts,
    item: Item,
) -> Result<String, NoMemory>
    requires spelled { SpellsGate file.now gate.now }
    requires judged { AreVerdicts gate.now state.now verdicts.now }
    requires there { Contains (items_out verdicts.now.out) item }
    ensures { IfOk result (λ text. IsLeftFor file.now gate.now state.now verdicts.now item (string_bytes text)) }
{
    let chain = chain_of(alloc, gate, state, verdicts, item)?;
    let details = details_of(alloc, file, gate, state, chain.cause)?;
    let mut text = step_lines(alloc, chain.waiting.as_slice())?;
    add_step(&mut text, &chain.cause)?;
    text.push_str(details.as_str())?;
    Ok(text)
}

/// A line for each step.
fn step_lines(alloc: Global, steps: &[Left]) -> Result<String, NoMemory>
    ensures { IfOk result (λ text. string_bytes text ≡ flat_map step_line steps.now) }
{
    let mut text = String::new(alloc);
    for step in steps {
        add_step(&mut text, step)?;
    }
    Ok(text)
}

/// Adds the line of a step: the item, and why it is left out.
fn add_step(text: &mut String, step: &Left) -> Result<(), NoMemory>
    ensures { OnOk result (string_bytes text.new ≡ string_bytes text.old ++ step_line step.now) }
{
    add_item(text, step.item)?;
    text.push_str(" ")?;
    add_refusal(text, step.refusal)?;
    text.push_str("\n")?;
    Ok(())
}
