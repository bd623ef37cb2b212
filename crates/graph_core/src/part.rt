//! Subsets of a state's items that are closed under dependencies.

ghost use Rattle.std.specs.Prelude.{◌≡◌, ◌↔◌, ℕ, IfOk, IfSome, OnOk, All, Contains, Some, [], ◌∷◌};
ghost use Rattle.std.specs.List.Sorted.{IsStrictlySortedBy};
ghost use Rattle.state_core.specs.Items.{IsCurrentItem, IsItem, item_cmp};
ghost use Rattle.state_core.specs.declared.item.Item.{Item};
ghost use Rattle.graph_core.specs.Closure.{AddsCurrent, AddsEnds, FindsItem, IsFoundItem};
ghost use Rattle.graph_core.specs.ItemGraph.{ArePart};

use super::items::items_of;
use super::targets::targets_of;
use gate_rules::Gate;
use lattice_core::NoMemory;
use state_core::{Item, State};
use std::alloc::Global;
use std::collections::BTreeSet;

/// How many steps the search takes at most. If it isn't finished by then, the part is all items of the state.
const WIDEST: usize = 4096;

/// The given items and all items that they reach over dependencies; or all items of the state, if the search isn't
/// finished after `WIDEST` steps. So the current item of each known change that one of them waits for is among them. It
/// costs O(b + n log m) for b bytes of their messages and n of them with what they wait for, in a state of m items.
pub fn part_with(
    alloc: Global,
    gate: &Gate,
    state: &State,
    items: Vec<Item>,
) -> Result<Vec<Item>, NoMemory>
    requires { All (IsItem state.now) items.items }
    ensures part { IfOk result (λ part. ArePart gate.now state.now part.items) }
    ensures items { IfOk result (λ part. (item : Item) → Contains items.items item → Contains part.items item) }
{
    let mut found = BTreeSet::new(alloc);
    let mut ahead = items;
    for _ in 0..WIDEST {
        let Some(item) = ahead.pop() else {
            return listed(alloc, &found);
        };
        find_item(alloc, gate, state, item, &mut found, &mut ahead)?;
    }
    items_of(alloc, state)
}

/// Marks an item as found; if it is new, adds what it waits for to the items ahead.
fn find_item(
    alloc: Global,
    gate: &Gate,
    state: &State,
    item: Item,
    found: &mut BTreeSet<(u32, u32)>,
    ahead: &mut Vec<Item>,
) -> Result<(), NoMemory>
    requires { IsItem state.now item }
    ensures { OnOk result (FindsItem gate.now state.now item found.old ahead.old.items found.new ahead.new.items) }
{
    if !found.insert((item.change, item.set))? {
        return Ok(());
    }
    add_ends(alloc, gate, state, item, ahead)
}

/// Adds the current item of each known change that an item waits for to the items ahead.
fn add_ends(
    alloc: Global,
    gate: &Gate,
    state: &State,
    item: Item,
    ahead: &mut Vec<Item>,
) -> Result<(), NoMemory>
    requires { IsItem state.now item }
    ensures { OnOk result (AddsEnds gate.now state.now item ahead.old.items ahead.new.items) }
{
    let targets = targets_of(alloc, gate, state, item)?;
    for number in &targets {
        add_current(state, *number, ahead)?;
    }
    Ok(())
}

/// Adds the current item of a change, if one is known, to the items ahead.
fn add_current(state: &State, number: u32, ahead: &mut Vec<Item>) -> Result<(), NoMemory>
    ensures { OnOk result (AddsCurrent state.now (number ∷ []) ahead.old.items ahead.new.items) }
{
    let Some(item) = current_item(state, number) else {
        return Ok(());
    };
    ahead.push(item)?;
    Ok(())
}

/// The current item of a change, where one is known.
fn current_item(state: &State, number: u32) -> Option<Item>
    ensures item { IfSome result (IsItem state.now) }
    ensures current { (item : Item) → item.change ≡ number → IsCurrentItem state.now item → result ≡ Some item }
{
    let set = state.change(number)?.current()?;
    Some(Item {
        change: number,
        set,
    })
}

/// The items of a set, in order.
fn listed(alloc: Global, found: &BTreeSet<(u32, u32)>) -> Result<Vec<Item>, NoMemory>
    ensures in_order { IfOk result (λ items. IsStrictlySortedBy item_cmp items.items) }
    ensures each { IfOk result (λ items. (item : Item) → Contains items.items item ↔ IsFoundItem found.now item) }
{
    let mut items = Vec::with_capacity(alloc, found.len())?;
    for (change, set) in found {
        items.push(Item {
            change: *change,
            set: *set,
        })?;
    }
    Ok(items)
}
