//! The items of a state, in order.

ghost use Rattle.std.specs.Prelude.{◌≡◌, ◌≢◌, ◌++◌, ◌≤◌, ℕ, IfOk, OnOk, MatchOption, Contains, flat_map};
ghost use Rattle.std.specs.List.Sorted.{IsStrictlySortedBy};
ghost use Rattle.state_core.specs.Items.{item_cmp};
ghost use Rattle.graph_core.specs.ItemGraph.{AreItems, IsAt};
ghost use Rattle.graph_core.specs.Listed.{IsLastOf, items_in};
ghost use Rattle.state_core.specs.declared.item.Item.{Item};

use change_core::ChangeState;
use lattice_core::NoMemory;
use state_core::{Item, State};
use std::alloc::Global;

/// The items of a state, in order.
pub fn items_of(alloc: Global, state: &State) -> Result<Vec<Item>, NoMemory>
    ensures { IfOk result (λ items. AreItems state.now items.items) }
{
    let mut items = Vec::new(alloc);
    for (number, change) in state.changes() {
        add_items(&mut items, *number, change.get())?;
    }
    Ok(items)
}

/// Adds the items of a change.
pub fn add_items(items: &mut Vec<Item>, change: u32, state: &ChangeState) -> Result<(), NoMemory>
    ensures { OnOk result (items.new.items ≡ items.old.items ++ items_in (change, state.now)) }
{
    for (set, _) in state.sets() {
        items.push(Item { change, set: *set })?;
    }
    Ok(())
}

/// The index of an item of the list.
pub fn place_of(items: &[Item], item: Item) -> usize
    requires in_order { IsStrictlySortedBy item_cmp items.now }
    requires there { Contains items.now item }
    ensures { IsAt items.now result item }
{
    items.partition_point(|other| *other < item)
}

/// The index of the last item of a change, if it has any.
pub fn last_of(items: &[Item], change: u32) -> Option<usize>
    requires { IsStrictlySortedBy item_cmp items.now }
    ensures { MatchOption result ((place : ℕ) (item : Item) → IsAt items.now place item → item.change ≢ change)
        (IsLastOf items.now change) }
{
    let place = items
        .partition_point(|item| item.change <= change)
        .checked_sub(1)?;
    if items[place].change != change {
        return None;
    }
    Some(place)
}
