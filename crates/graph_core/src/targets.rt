//! What each item waits for.

ghost use Rattle.std.specs.Prelude.{◌≡◌, ◌≢◌, ◌↔◌, ℕ, IfOk, MatchOption, All, Contains, Some};
ghost use Rattle.std.specs.List.{AllZip};
ghost use Rattle.std.specs.List.Sorted.{IsStrictlyIncreasing, IsStrictlySortedBy};
ghost use Rattle.change_core.specs.Views.{parent_of};
ghost use Rattle.state_core.specs.Items.{IsItem};
ghost use Rattle.state_core.specs.Items.{item_cmp};
ghost use Rattle.graph_core.specs.Dependencies.{Names};
ghost use Rattle.graph_core.specs.ItemGraph.{AreTargets};
ghost use Rattle.graph_core.specs.Listed.{ArePlaces};

use super::items::last_of;
use change_core::ChangeState;
use footer_text::{Footers, depends};
use gate_rules::Gate;
use lattice_core::NoMemory;
use state_core::{Item, State};
use std::alloc::Global;

/// The change of the item's Git parent, unless it is the item's own.
fn other_parent(change: &ChangeState, item: Item) -> Option<u32>
    ensures { MatchOption result ((number : ℕ) → parent_of change.now item.set ≡ Some number → number ≡ item.change)
        (λ number. (parent_of change.now item.set ≡ Some number) × (number ≢ item.change)) }
{
    let parent = change.parent(item.set)?;
    if parent == item.change {
        return None;
    }
    Some(parent)
}

/// The changes that an item names, merged or not, in no order, maybe more than once: by a footer of its message, or as
/// the change of its Git parent; none of an item that isn't known. It costs O(n) for each base of the gate and a
/// message of n bytes.
pub fn names_of(alloc: Global, gate: &Gate, state: &State, item: Item) -> Result<Vec<u32>, NoMemory>
    ensures { IfOk result (λ names. (number : ℕ)
        → Contains names.items number ↔ Names gate.now state.now item number) }
{
    let Some(change) = state.change(item.change) else {
        return Ok(Vec::new(alloc));
    };
    let Some(message) = change.message(item.set) else {
        return Ok(Vec::new(alloc));
    };
    let Footers {
        needs: mut names,
        ignored: _,
    } = depends(alloc, gate.bases(), item.change, message)?;
    let Some(parent) = other_parent(change, item) else {
        return Ok(names);
    };
    names.push(parent)?;
    Ok(names)
}

/// The changes that an item waits for, in order.
pub fn targets_of(
    alloc: Global,
    gate: &Gate,
    state: &State,
    item: Item,
) -> Result<Vec<u32>, NoMemory>
    requires { IsItem state.now item }
    ensures { IfOk result (λ targets. AreTargets gate.now state.now item targets.items) }
{
    let mut targets = names_of(alloc, gate, state, item)?;
    targets.retain(|number| !state.is_merged(*number));
    targets.sort_unstable();
    targets.dedup();
    Ok(targets)
}

/// The changes that each of the items waits for.
pub fn all_targets(
    alloc: Global,
    gate: &Gate,
    state: &State,
    items: &[Item],
) -> Result<Vec<Vec<u32>>, NoMemory>
    requires { All (IsItem state.now) items.now }
    ensures { IfOk result (λ rows. AllZip
        (λ item row. AreTargets gate.now state.now item row.items) items.now rows.items) }
{
    let mut rows = Vec::with_capacity(alloc, items.len())?;
    for item in items {
        rows.push(targets_of(alloc, gate, state, *item)?)?;
    }
    Ok(rows)
}

/// The places of the last items of some changes.
fn places_of(alloc: Global, items: &[Item], numbers: &[u32]) -> Result<Vec<usize>, NoMemory>
    requires in_order { IsStrictlySortedBy item_cmp items.now }
    requires increasing { IsStrictlyIncreasing numbers.now }
    ensures { IfOk result (λ places. ArePlaces items.now numbers.now places.items) }
{
    let mut places = Vec::new(alloc);
    for number in numbers {
        let Some(place) = last_of(items, *number) else {
            continue;
        };
        places.push(place)?;
    }
    Ok(places)
}

/// The places of the last items of the changes in each row.
pub fn all_ends(
    alloc: Global,
    items: &[Item],
    rows: &[Vec<u32>],
) -> Result<Vec<Vec<usize>>, NoMemory>
    requires in_order { IsStrictlySortedBy item_cmp items.now }
    requires increasing { All (λ row. IsStrictlyIncreasing row.items) rows.now }
    ensures { IfOk result (λ ends. AllZip
        (λ row places. ArePlaces items.now row.items places.items) rows.now ends.items) }
{
    let mut ends = Vec::with_capacity(alloc, rows.len())?;
    for row in rows {
        ends.push(places_of(alloc, items, row.as_slice())?)?;
    }
    Ok(ends)
}
