//! The lines of a cause, after the one of its item.

ghost use Rattle.std.specs.Prelude.{◌≡◌, ◌++◌, IfOk, OnOk, flat_map, string_bytes};
ghost use Rattle.serde_json.specs.Data.{Members};
ghost use Rattle.change_core.specs.Votes.{approvals_of};
ghost use Rattle.change_core.specs.VoteShown.{approval_shown};
ghost use Rattle.state_core.specs.Items.{IsItem};
ghost use Rattle.gate_rules.specs.Spelling.{IsObject, SpellsGate};
ghost use Rattle.gate_rules.specs.Wanted.{wanted_value};
ghost use Rattle.why_text.specs.Why.{WritesCause, WritesCondition, approval_line, current_line, have_lines, why_status_line};
ghost use Rattle.why_text.specs.Why.{want_lines, with_line};

use super::cycle::others_on_cycle;
use super::words::add_item;
use change_core::{Approval, ChangeState};
use gate_rules::{Clause, Condition, Gate, wanted_text};
use lattice_core::NoMemory;
use ready_core::{Left, Refusal};
use state_core::{Item, State};
use std::alloc::Global;

/// The lines of a cause: of a condition what the gate file asks and what the item's change has, of a cycle its other
/// items.
pub fn details_of(
    alloc: Global,
    file: &[u8],
    gate: &Gate,
    state: &State,
    cause: Left,
) -> Result<String, NoMemory>
    requires spelled { SpellsGate file.now gate.now }
    requires there { IsItem state.now cause.item }
    ensures { IfOk result
        (λ text. WritesCause file.now gate.now state.now cause.item cause.refusal (string_bytes text)) }
{
    match cause.refusal {
        Refusal::Own(condition) => condition_text(alloc, file, gate, state, cause.item, condition),
        Refusal::Cycle => {
            let others = others_on_cycle(alloc, gate, state, cause.item)?;
            with_lines(alloc, others.as_slice())
        }
        Refusal::Unknown(_) | Refusal::Dependency(_) => Ok(String::new(alloc)),
    }
}

/// A line for each of the other items of a cycle.
fn with_lines(alloc: Global, others: &[Item]) -> Result<String, NoMemory>
    ensures { IfOk result (λ text. string_bytes text ≡ flat_map with_line others.now) }
{
    let mut text = String::new(alloc);
    for other in others {
        add_with(&mut text, *other)?;
    }
    Ok(text)
}

/// Adds the line of another item of a cycle.
fn add_with(text: &mut String, other: Item) -> Result<(), NoMemory>
    ensures { OnOk result (string_bytes text.new ≡ string_bytes text.old ++ with_line other) }
{
    text.push_str("with ")?;
    add_item(text, other)?;
    text.push_str("\n")?;
    Ok(())
}

/// What the gate file asks, and what the change has.
pub(super) fn condition_text(
    alloc: Global,
    file: &[u8],
    gate: &Gate,
    state: &State,
    item: Item,
    condition: Condition,
) -> Result<String, NoMemory>
    requires spelled { SpellsGate file.now gate.now }
    requires there { IsItem state.now item }
    ensures { IfOk result (λ text. WritesCondition file.now state.now item condition (string_bytes text)) }
{
    let mut text = want_text(alloc, file, gate, condition)?;
    let change = state.change(item.change).unwrap();
    let current = change.current().unwrap();
    add_have(&mut text, change, current, condition.clause)?;
    Ok(text)
}

/// The line of what the gate file has at the place of a condition.
fn want_text(
    alloc: Global,
    file: &[u8],
    gate: &Gate,
    condition: Condition,
) -> Result<String, NoMemory>
    requires { SpellsGate file.now gate.now }
    ensures { IfOk result (λ text. (members : Members) × IsObject file.now members
        × (string_bytes text ≡ want_lines (wanted_value condition members))) }
{
    match wanted_text(alloc, gate, file, condition)? {
        Some(json) => Ok(format!(in alloc; "want {json}\n")?),
        None => Ok(String::new(alloc)),
    }
}

/// Adds what a change has of what a clause asks.
fn add_have(
    text: &mut String,
    change: &ChangeState,
    current: u32,
    clause: Clause,
) -> Result<(), NoMemory>
    ensures { OnOk result (string_bytes text.new ≡ string_bytes text.old ++ have_lines clause change.now current) }
{
    match clause {
        Clause::OpenState | Clause::StatusIn => add_status(text, change),
        Clause::CurrentSet => add_current(text, current),
        Clause::Approval(_) => add_approvals(text, change, current),
    }
}

/// Adds the line of a change's status.
fn add_status(text: &mut String, change: &ChangeState) -> Result<(), NoMemory>
    ensures { OnOk result (string_bytes text.new ≡ string_bytes text.old ++ why_status_line change.now) }
{
    let status = change.status().name();
    write!(text, "have {status}\n")?;
    Ok(())
}

/// Adds the line of a current patch set.
fn add_current(text: &mut String, current: u32) -> Result<(), NoMemory>
    ensures { OnOk result (string_bytes text.new ≡ string_bytes text.old ++ current_line current) }
{
    write!(text, "have {current}\n")?;
    Ok(())
}

/// Adds a line for each approval on a patch set.
fn add_approvals(text: &mut String, change: &ChangeState, set: u32) -> Result<(), NoMemory>
    ensures { OnOk result (string_bytes text.new
        ≡ string_bytes text.old ++ flat_map approval_line (approvals_of change.now set)) }
{
    for approval in change.approvals(set) {
        add_approval(text, &approval)?;
    }
    Ok(())
}

/// Adds the line of an approval.
fn add_approval(text: &mut String, approval: &Approval<'_>) -> Result<(), NoMemory>
    ensures { OnOk result (string_bytes text.new
        ≡ string_bytes text.old ++ approval_line (approval_shown approval.now)) }
{
    let label = approval.label;
    let voter = approval.voter;
    let value = approval.value;
    write!(text, "have {label} {voter} {value}\n")?;
    Ok(())
}
