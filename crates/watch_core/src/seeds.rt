//! The items of a state that are judged again, and the part of the state that holds them and what they wait for.

ghost use Rattle.std.specs.Prelude.{◌≡◌, ◌↔◌, ◌⊎◌, IfOk, IsTrue, OnOk, All, true};
ghost use Rattle.std.specs.Ordering.{nat_cmp};
ghost use Rattle.std.specs.BTreeSet.{contains};
ghost use Rattle.state_core.specs.Items.{IsItem};
ghost use Rattle.graph_core.specs.ItemGraph.{IsGraphOf};
ghost use Rattle.watch_core.specs.BroughtUp.{HoldsItems};
ghost use Rattle.watch_core.specs.Namers.{has_item, is_again};
ghost use Rattle.watch_core.specs.Seeds.{AddsItems};

use super::reach::Reach;
use gate_rules::Gate;
use graph_core::{Graph, add_items, items_of, part_with};
use lattice_core::NoMemory;
use state_core::{Item, State};
use std::alloc::Global;
use std::collections::BTreeSet;

/// How many items are put to their places one by one.
const MOST: usize = 512;

/// A reach, or that of all items where too many would be put to their places one by one.
pub fn widened(
    alloc: Global,
    state: &State,
    reach: Reach,
    touched: &BTreeSet<u32>,
) -> Result<Reach, NoMemory>
    ensures items { IfOk result (λ wide. wide.items ≡ reach.items) }
    ensures all { IfOk result (λ wide. wide.all ≡ reach.all ⊎ wide.all ≡ true) }
{
    let seeds = seeds_of(alloc, state, &reach, touched)?;
    if seeds.len() > MOST {
        return Ok(Reach {
            all: true,
            items: reach.items,
        });
    }
    Ok(reach)
}

/// The graph of a part of a state's items that holds those that are judged again.
pub fn graph_of(
    alloc: Global,
    gate: &Gate,
    state: &State,
    reach: &Reach,
    touched: &BTreeSet<u32>,
) -> Result<Graph, NoMemory>
    ensures graph { IfOk result (IsGraphOf gate.now state.now) }
    ensures holds { IfOk result
        (λ graph. HoldsItems state.now (is_again touched.now reach.now.all reach.now.items) graph.items) }
{
    let seeds = seeds_of(alloc, state, reach, touched)?;
    let part = part_with(alloc, gate, state, seeds)?;
    let graph = Graph::of_part(alloc, state, gate, part)?;
    Ok(graph)
}

/// The items of a state that are judged again, and no others.
fn seeds_of(
    alloc: Global,
    state: &State,
    reach: &Reach,
    touched: &BTreeSet<u32>,
) -> Result<Vec<Item>, NoMemory>
    ensures items { IfOk result (λ seeds. All (IsItem state.now) seeds.items) }
    ensures holds { IfOk result
        (λ seeds. HoldsItems state.now (is_again touched.now reach.now.all reach.now.items) seeds.items) }
{
    if reach.all {
        return items_of(alloc, state);
    }
    let mut seeds = Vec::new(alloc);
    add_touched(state, touched, &mut seeds)?;
    add_reached(state, &reach.items, &mut seeds)?;
    Ok(seeds)
}

/// Adds the items of touched changes.
fn add_touched(
    state: &State,
    touched: &BTreeSet<u32>,
    seeds: &mut Vec<Item>,
) -> Result<(), NoMemory>
    ensures { OnOk result (AddsItems state.now (λ item. contains nat_cmp touched.now item.change ≡ true)
        seeds.old.items seeds.new.items) }
{
    for number in touched {
        add_change(state, *number, seeds)?;
    }
    Ok(())
}

/// Adds the items of a change.
fn add_change(state: &State, number: u32, seeds: &mut Vec<Item>) -> Result<(), NoMemory>
    ensures { OnOk result (AddsItems state.now (λ item. item.change ≡ number) seeds.old.items seeds.new.items) }
{
    let Some(change) = state.change(number) else {
        return Ok(());
    };
    add_items(seeds, number, change)
}

/// Adds the items of a set that are of the state.
fn add_reached(
    state: &State,
    items: &BTreeSet<(u32, u32)>,
    seeds: &mut Vec<Item>,
) -> Result<(), NoMemory>
    ensures { OnOk result
        (AddsItems state.now (λ item. has_item items.now item ≡ true) seeds.old.items seeds.new.items) }
{
    for (change, set) in items {
        let item = Item {
            change: *change,
            set: *set,
        };
        add_item(state, item, seeds)?;
    }
    Ok(())
}

/// Adds an item if it is of the state.
fn add_item(state: &State, item: Item, seeds: &mut Vec<Item>) -> Result<(), NoMemory>
    ensures { OnOk result (AddsItems state.now (λ other. other ≡ item) seeds.old.items seeds.new.items) }
{
    if !is_item(state, item) {
        return Ok(());
    }
    seeds.push(item)?;
    Ok(())
}

/// Whether an item is of the state.
fn is_item(state: &State, item: Item) -> bool
    ensures { IsTrue result ↔ IsItem state.now item }
{
    match state.change(item.change) {
        Some(change) => change.has_set(item.set),
        None => false,
    }
}
