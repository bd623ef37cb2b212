//! The other items of an item's cycle.

ghost use Rattle.std.specs.Prelude.{◌≡◌, ◌<◌, IfOk, MatchBool, length, map};
ghost use Rattle.std.specs.List.Sorted.{IsStrictlySortedBy};
ghost use Rattle.state_core.specs.Items.{IsItem, item_cmp};
ghost use Rattle.why_text.specs.Cycle.{AreOnItsCycle, AreTaken, IsOtherPlace, is_item};

use gate_rules::Gate;
use graph_core::Graph;
use lattice_core::NoMemory;
use state_core::{Item, State};
use std::alloc::Global;
use walk_core::{leading, reached};

/// The other items of an item's cycle, in order. It costs what building the graph costs.
pub fn others_on_cycle(
    alloc: Global,
    gate: &Gate,
    state: &State,
    item: Item,
) -> Result<Vec<Item>, NoMemory>
    requires { IsItem state.now item }
    ensures { IfOk result (λ others. AreOnItsCycle gate.now state.now item others.items) }
{
    let graph = Graph::build(alloc, state, gate)?;
    let itself = marked_item(alloc, graph.items(), item)?;
    let behind = leading(alloc, graph.digraph(), itself.as_slice())?;
    let ahead = reached(alloc, graph.digraph(), itself.as_slice())?;
    taken(
        alloc,
        graph.items(),
        itself.as_slice(),
        behind.as_slice(),
        ahead.as_slice(),
    )
}

/// Which of the items is this one.
fn marked_item(alloc: Global, items: &[Item], item: Item) -> Result<Vec<bool>, NoMemory>
    ensures { IfOk result (λ flags. flags.items ≡ map (is_item item) items.now) }
{
    Ok(items.iter().map(|other| *other == item).collect(alloc)?)
}

/// The items that are marked both behind and ahead, but for itself.
fn taken(
    alloc: Global,
    items: &[Item],
    itself: &[bool],
    behind: &[bool],
    ahead: &[bool],
) -> Result<Vec<Item>, NoMemory>
    requires itself { length itself.now ≡ length items.now }
    requires behind { length behind.now ≡ length items.now }
    requires ahead { length ahead.now ≡ length items.now }
    requires in_order { IsStrictlySortedBy item_cmp items.now }
    ensures { IfOk result
        (λ others. AreTaken items.now itself.now behind.now ahead.now (length items.now) others.items) }
{
    let mut others = Vec::new(alloc);
    for place in 0..items.len() {
        if is_other(itself, behind, ahead, place) {
            others.push(items[place])?;
        }
    }
    Ok(others)
}

/// Whether the item at a place is marked both behind and ahead, and isn't itself.
fn is_other(itself: &[bool], behind: &[bool], ahead: &[bool], place: usize) -> bool
    requires itself { place < length itself.now }
    requires behind { place < length behind.now }
    requires ahead { place < length ahead.now }
    ensures { MatchBool result
        (IsOtherPlace itself.now behind.now ahead.now place)
        (¬ IsOtherPlace itself.now behind.now ahead.now place) }
{
    behind[place] && ahead[place] && !itself[place]
}
