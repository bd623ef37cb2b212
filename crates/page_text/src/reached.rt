//! The changes that an item waits for, over all that are named on the way.

ghost use Rattle.std.specs.Prelude.{◌≡◌, ◌↔◌, Contains, IfOk, IsTrue, MatchOption, OnOk};
ghost use Rattle.state_core.specs.declared.item.Item.{Item};
ghost use Rattle.why_text.specs.Asked.{IsItemAsked};
ghost use Rattle.page_text.specs.Reached.{AddsNumbers, AreReachedChanges, NamesFrom, set_seen};

use super::needs::needs_of;
use gate_rules::Gate;
use lattice_core::NoMemory;
use state_core::{Item, State};
use std::alloc::Global;
use why_text::item_asked;

/// How many changes are looked at.
pub const MOST: usize = 60;

/// The changes that are reached over names from an item: its own first, then those that it names, then those that
/// their current items name, and so on, each once. Nothing is looked at any more once there are more than 60: some may
/// be left out then. It costs O(k) times what an item's names cost, for the k of them that are looked at, and O(m²) for
/// the m names of the last one.
pub fn reached_from(
    alloc: Global,
    gate: &Gate,
    state: &State,
    item: Item,
) -> Result<Vec<u32>, NoMemory>
    ensures { IfOk result (λ changes. AreReachedChanges gate.now state.now item changes.items) }
{
    let mut changes = Vec::new(alloc);
    changes.push(item.change)?;
    for at in 0..MOST {
        let found = changes.as_slice();
        if MOST < found.len() {
            return Ok(changes);
        }
        if found.len() <= at {
            return Ok(changes);
        }
        let number = found[at];
        add_names(alloc, &mut changes, gate, state, item, number)?;
    }
    Ok(changes)
}

/// Adds the changes that a change names, as far as they aren't there.
fn add_names(
    alloc: Global,
    changes: &mut Vec<u32>,
    gate: &Gate,
    state: &State,
    item: Item,
    number: u32,
) -> Result<(), NoMemory>
    ensures { OnOk result (AddsNumbers (NamesFrom gate.now state.now item number) changes.old.items changes.new.items) }
{
    let Some(from) = item_seen(state, item, number) else {
        return Ok(());
    };
    let needs = needs_of(alloc, gate, state, from)?;
    add_new(changes, needs.as_slice())?;
    Ok(())
}

/// The item of a change that is looked at: the item itself, or the current one of another change.
pub fn item_seen(state: &State, item: Item, number: u32) -> Option<Item>
    ensures { MatchOption result ((from : Item) → ¬ IsItemAsked state.now number (set_seen item number) from)
        (IsItemAsked state.now number (set_seen item number)) }
{
    item_asked(state, number, set_seen(item, number))
}

/// The patch set of a change that is looked at, where it isn't the current one.
fn set_seen(item: Item, number: u32) -> Option<u32>
    ensures { result ≡ set_seen item number }
{
    if number == item.change {
        return Some(item.set);
    }
    None
}

/// Adds numbers, as far as they aren't there.
fn add_new(numbers: &mut Vec<u32>, more: &[u32]) -> Result<(), NoMemory>
    ensures { OnOk result (AddsNumbers (Contains more.now) numbers.old.items numbers.new.items) }
{
    for number in more {
        add_one(numbers, *number)?;
    }
    Ok(())
}

/// Adds a number, if it isn't there.
fn add_one(numbers: &mut Vec<u32>, number: u32) -> Result<(), NoMemory>
    ensures { OnOk result (AddsNumbers (λ other. other ≡ number) numbers.old.items numbers.new.items) }
{
    if is_among(numbers.as_slice(), number) {
        return Ok(());
    }
    numbers.push(number)?;
    Ok(())
}

/// Whether a number is among some.
fn is_among(numbers: &[u32], number: u32) -> bool
    ensures { IsTrue result ↔ Contains numbers.now number }
{
    numbers.contains(&number)
}
