//! Each condition of a gate, as an item meets or breaks it.

ghost use Rattle.std.specs.Prelude.{◌≡◌, ◌++◌, IfOk, string_bytes};
ghost use Rattle.gate_rules.specs.Spelling.{SpellsGate};
ghost use Rattle.state_core.specs.Items.{IsItem};
ghost use Rattle.why_text.specs.All.{WritesConditions, WritesEach, WritesTried, tried_word};

use super::details::condition_text;
use super::words::add_refusal;
use gate_rules::{Gate, Tried};
use lattice_core::NoMemory;
use ready_core::Refusal;
use state_core::{Item, State};
use std::alloc::Global;

/// The lines of each condition of a gate, in the order in which an item is judged by them: `meets CONDITION` or
/// `breaks CONDITION`, and then, as `why_text` has them of a cause, what the gate file asks and what the item's change
/// has. The bytes of the gate file spell the gate. It costs O(c b) for c conditions and b bytes of the gate file,
/// beside the text.
pub fn conditions_text(
    alloc: Global,
    file: &[u8],
    gate: &Gate,
    state: &State,
    item: Item,
) -> Result<String, NoMemory>
    requires spelled { SpellsGate file.now gate.now }
    requires there { IsItem state.now item }
    ensures { IfOk result (λ text. WritesConditions file.now gate.now state.now item (string_bytes text)) }
{
    let tried = gate.conditions(alloc, state, item)?;
    let text = tried_lines(alloc, file, gate, state, item, tried.as_slice())?;
    Ok(text)
}

/// The lines of conditions.
fn tried_lines(
    alloc: Global,
    file: &[u8],
    gate: &Gate,
    state: &State,
    item: Item,
    tried: &[Tried],
) -> Result<String, NoMemory>
    requires spelled { SpellsGate file.now gate.now }
    requires there { IsItem state.now item }
    ensures { IfOk result (λ text. WritesEach (WritesTried file.now state.now item) tried.now (string_bytes text)) }
{
    let mut text = String::new(alloc);
    for one in tried {
        let more = tried_text(alloc, file, gate, state, item, *one)?;
        text.push_str(more.as_str())?;
    }
    Ok(text)
}

/// The lines of a condition.
fn tried_text(
    alloc: Global,
    file: &[u8],
    gate: &Gate,
    state: &State,
    item: Item,
    tried: Tried,
) -> Result<String, NoMemory>
    requires spelled { SpellsGate file.now gate.now }
    requires there { IsItem state.now item }
    ensures { IfOk result (λ text. WritesTried file.now state.now item tried (string_bytes text)) }
{
    let details = condition_text(alloc, file, gate, state, item, tried.condition)?;
    let mut text = String::from_str(alloc, word_of(tried.is_broken))?;
    add_refusal(&mut text, Refusal::Own(tried.condition))?;
    text.push_str("\n")?;
    text.push_str(details.as_str())?;
    Ok(text)
}

/// What is said first of a condition.
fn word_of(is_broken: bool) -> &'static str
    ensures { result.now ≡ tried_word is_broken }
{
    if is_broken { "breaks " } else { "meets " }
}
