//! Which items wait for a change, as far as an evaluator keeps it.

ghost use Rattle.std.specs.Prelude.{◌≡◌, ℕ, List, OnOk, Contains};
ghost use Rattle.state_core.specs.declared.item.Item.{Item};
ghost use Rattle.graph_core.specs.ItemGraph.{StandsAt};
ghost use Rattle.watch_core.specs.Namers.{KeepsNamers, IsNamer, items_at};

use graph_core::Graph;
use lattice_core::NoMemory;
use state_core::Item;
use std::alloc::Global;
use std::collections::BTreeMap;

/// With each change the items that wait for it, and perhaps some that once did.
pub type Namers = BTreeMap<u32, Vec<Item>>;

/// Adds the items of a graph to those that wait for their targets.
pub fn add_graph(namers: &mut Namers, alloc: Global, graph: &Graph) -> Result<(), NoMemory>
    ensures keeps { OnOk result (KeepsNamers namers.old namers.new) }
    ensures names { OnOk result
        ((item : Item) (row : List ℕ) (number : ℕ) → StandsAt graph.now.items graph.now.targets item row
        → Contains row number → IsNamer namers.new number item) }
{
    for place in 0..graph.items().len() {
        add_item(namers, alloc, graph.items()[place], graph.targets_at(place))?;
    }
    Ok(())
}

/// Adds an item to those that wait for some changes.
fn add_item(namers: &mut Namers, alloc: Global, item: Item, targets: &[u32]) -> Result<(), NoMemory>
    ensures keeps { OnOk result (KeepsNamers namers.old namers.new) }
    ensures names { OnOk result ((number : ℕ) → Contains targets.now number → IsNamer namers.new number item) }
{
    for target in targets {
        add_at(namers, alloc, item, *target)?;
    }
    Ok(())
}

/// Adds an item to those that wait for a change.
fn add_at(namers: &mut Namers, alloc: Global, item: Item, target: u32) -> Result<(), NoMemory>
    ensures keeps { OnOk result (KeepsNamers namers.old namers.new) }
    ensures names { OnOk result (IsNamer namers.new target item) }
{
    let mut row = row_of(alloc, namers.remove(&target));
    put(&mut row, item)?;
    namers.insert(target, row)?;
    Ok(())
}

/// The items that were found, or none.
fn row_of(alloc: Global, found: Option<Vec<Item>>) -> Vec<Item>
    ensures { result.items ≡ items_at found }
{
    match found {
        Some(row) => row,
        None => Vec::new(alloc),
    }
}

/// Puts an item into a list, unless it is there.
fn put(items: &mut Vec<Item>, item: Item) -> Result<(), NoMemory>
    ensures keeps { OnOk result ((other : Item) → Contains items.old.items other → Contains items.new.items other) }
    ensures puts { OnOk result (Contains items.new.items item) }
{
    let place = items.partition_point(|other| *other < item);
    if place < items.len() && items[place] == item {
        return Ok(());
    }
    items.insert(place, item)?;
    Ok(())
}
