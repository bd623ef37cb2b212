//! Why an item waits, as JSON.

ghost use Rattle.std.specs.Prelude.{◌≡◌, ◌∷◌, [], ◌++◌, Contains, IfOk, List, OnOk, Some, slice_get};
ghost use Rattle.gate_rules.specs.Spelling.{SpellsGate};
ghost use Rattle.json.specs.Token.{Token};
ghost use Rattle.json_line.specs.Tokens.{AddsTokens};
ghost use Rattle.ready_core.specs.Verdicts.{AreVerdicts, items_out};
ghost use Rattle.state_core.specs.Items.{IsItem};
ghost use Rattle.report_json.specs.Why.{IsFullWhyLine, IsWhyLine, SaysCause, SaysCycle, SaysLeft, SaysWhy, cause_tokens};
ghost use Rattle.report_json.specs.Why.{ready_members};

use super::asked::put_asked;
use super::conditions::put_conditions;
use super::items::{put_place, put_refusal, put_verdict};
use super::report::{add_all_out, add_all_ready};
use gate_rules::Gate;
use json::Writer;
use json_line::{close_list, close_object, line_of, open_list, open_object, put_flag};
use lattice_core::NoMemory;
use ready_core::{Left, Refusal, Verdicts};
use state_core::{Item, State};
use std::alloc::Global;
use why_text::{Chain, chain_of, others_on_cycle};

/// The line of why an item waits: one object with what `why_text` says. It has the item's change and patch set, whether
/// it is ready, its refusal if not, and the items down to the cause, each with its refusal, the last one also with what
/// the gate file asks and what the item's change has. The verdicts are those of the state under the gate, which the
/// bytes of the gate file spell. It costs O(n + b + k log n) for n items, b bytes of the gate file and k steps; of a
/// cycle also what building the graph costs.
pub fn why_line(
    alloc: Global,
    file: &[u8],
    gate: &Gate,
    state: &State,
    verdicts: &Verdicts,
    item: Item,
) -> Result<Vec<u8>, NoMemory>
    requires spelled { SpellsGate file.now gate.now }
    requires judged { AreVerdicts gate.now state.now verdicts.now }
    requires there { IsItem state.now item }
    ensures { IfOk result (λ line. IsWhyLine file.now gate.now state.now verdicts.now item line.items) }
{
    let mut out = Writer::new(Vec::new(alloc));
    open_object(&mut out)?;
    put_why(alloc, &mut out, file, gate, state, verdicts, item)?;
    close_object(&mut out)?;
    line_of(out)
}

/// The line of why an item waits, and of each condition of the gate: one object with what `why_line` has, and then what
/// `conditions_text` says. It costs what `why_line` does, and O(c b) for c conditions and b bytes of the gate file.
pub fn full_why_line(
    alloc: Global,
    file: &[u8],
    gate: &Gate,
    state: &State,
    verdicts: &Verdicts,
    item: Item,
) -> Result<Vec<u8>, NoMemory>
    requires spelled { SpellsGate file.now gate.now }
    requires judged { AreVerdicts gate.now state.now verdicts.now }
    requires there { IsItem state.now item }
    ensures { IfOk result (λ line. IsFullWhyLine file.now gate.now state.now verdicts.now item line.items) }
{
    let mut out = Writer::new(Vec::new(alloc));
    open_object(&mut out)?;
    put_why(alloc, &mut out, file, gate, state, verdicts, item)?;
    put_conditions(alloc, &mut out, file, gate, state, item)?;
    close_object(&mut out)?;
    line_of(out)
}

/// Adds an item, its verdict and the items down to the cause.
fn put_why(
    alloc: Global,
    out: &mut Writer<Global>,
    file: &[u8],
    gate: &Gate,
    state: &State,
    verdicts: &Verdicts,
    item: Item,
) -> Result<(), NoMemory>
    requires spelled { SpellsGate file.now gate.now }
    requires judged { AreVerdicts gate.now state.now verdicts.now }
    requires there { IsItem state.now item }
    ensures { OnOk result ((added : List Token) × AddsTokens out.old out.new added
        × SaysWhy file.now gate.now state.now verdicts.now item added) }
{
    if verdicts.ready().contains(&item) {
        return put_ready(out, item);
    }
    put_left(alloc, out, file, gate, state, verdicts, item)
}

/// Adds an item that is ready, and that it waits for none.
fn put_ready(out: &mut Writer<Global>, item: Item) -> Result<(), NoMemory>
    ensures { OnOk result (AddsTokens out.old out.new (ready_members item)) }
{
    put_place(out, item)?;
    put_flag(out, "ready", true)?;
    open_list(out, "why")?;
    close_list(out)?;
    Ok(())
}

/// Adds an item that is left out, and the items down to the cause.
fn put_left(
    alloc: Global,
    out: &mut Writer<Global>,
    file: &[u8],
    gate: &Gate,
    state: &State,
    verdicts: &Verdicts,
    item: Item,
) -> Result<(), NoMemory>
    requires spelled { SpellsGate file.now gate.now }
    requires judged { AreVerdicts gate.now state.now verdicts.now }
    requires there { Contains (items_out verdicts.now.out) item }
    ensures { OnOk result ((added : List Token) × AddsTokens out.old out.new added
        × SaysLeft file.now gate.now state.now verdicts.now item added) }
{
    let chain = chain_of(alloc, gate, state, verdicts, item)?;
    put_verdict(alloc, out, &first_of(&chain))?;
    open_list(out, "why")?;
    add_all_out(alloc, out, chain.waiting.as_slice())?;
    add_cause(alloc, out, file, gate, state, chain.cause)?;
    close_list(out)?;
    Ok(())
}

/// The first item of a chain: the first one that waits for another, or the cause.
fn first_of(chain: &Chain) -> Left
    ensures { slice_get (chain.now.waiting.items ++ chain.now.cause ∷ []) 0 ≡ Some result }
{
    match chain.waiting.first() {
        Some(left) => *left,
        None => chain.cause,
    }
}

/// Adds the object of a cause.
fn add_cause(
    alloc: Global,
    out: &mut Writer<Global>,
    file: &[u8],
    gate: &Gate,
    state: &State,
    cause: Left,
) -> Result<(), NoMemory>
    requires spelled { SpellsGate file.now gate.now }
    requires there { IsItem state.now cause.item }
    ensures { OnOk result ((details : List Token) × AddsTokens out.old out.new (cause_tokens cause details)
        × SaysCause file.now gate.now state.now cause.item cause.refusal details) }
{
    open_object(out)?;
    put_place(out, cause.item)?;
    put_refusal(alloc, out, cause.refusal)?;
    put_details(alloc, out, file, gate, state, cause)?;
    close_object(out)?;
    Ok(())
}

/// Adds what is said of a cause: of a condition what the gate file asks and what the item's change has, of a cycle its
/// other items.
fn put_details(
    alloc: Global,
    out: &mut Writer<Global>,
    file: &[u8],
    gate: &Gate,
    state: &State,
    cause: Left,
) -> Result<(), NoMemory>
    requires spelled { SpellsGate file.now gate.now }
    requires there { IsItem state.now cause.item }
    ensures { OnOk result ((details : List Token) × AddsTokens out.old out.new details
        × SaysCause file.now gate.now state.now cause.item cause.refusal details) }
{
    match cause.refusal {
        Refusal::Own(condition) => put_asked(alloc, out, file, gate, state, cause.item, condition),
        Refusal::Cycle => put_cycle(alloc, out, gate, state, cause.item),
        Refusal::Unknown(_) | Refusal::Dependency(_) => Ok(()),
    }
}

/// Adds the other items of an item's cycle.
fn put_cycle(
    alloc: Global,
    out: &mut Writer<Global>,
    gate: &Gate,
    state: &State,
    item: Item,
) -> Result<(), NoMemory>
    requires { IsItem state.now item }
    ensures { OnOk result ((added : List Token) × AddsTokens out.old out.new added
        × SaysCycle gate.now state.now item added) }
{
    let others = others_on_cycle(alloc, gate, state, item)?;
    open_list(out, "with")?;
    add_all_ready(out, others.as_slice())?;
    close_list(out)?;
    Ok(())
}
