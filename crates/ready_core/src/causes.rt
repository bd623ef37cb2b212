//! Why an item isn't eligible.

ghost use Rattle.std.specs.Prelude.{◌≡◌, ◌↔◌, ◌<◌, ℕ, IsTrue, IfOk, MatchBool, MatchOption, Contains, length};
ghost use Rattle.std.specs.List.Sorted.{IsStrictlyIncreasing};
ghost use Rattle.state_core.specs.State.{State as Changes};
ghost use Rattle.state_core.specs.declared.item.Item.{Item};
ghost use Rattle.state_core.specs.Known.{IsKnown};
ghost use Rattle.gate_rules.specs.Own.{IsOwn};
ghost use Rattle.graph_core.specs.ItemGraph.{ArePart, IsAt, IsGraphOf};
ghost use Rattle.ready_core.specs.Refusals.{IsOffCycles, IsOnBarredCycle};
ghost use Rattle.ready_core.specs.Causes.{AreCauses, AreOwns, IsAmongItsOwn, IsCauseOf, IsFirstUnknown, IsOwnBefore};
ghost use Rattle.ready_core.specs.Causes.{flags_of};

use super::verdicts::Refusal;
use gate_rules::{Condition, Gate};
use graph_core::Graph;
use lattice_core::NoMemory;
use state_core::{Item, State};
use std::alloc::Global;

/// The least change that isn't known.
fn first_unknown(state: &State, targets: &[u32]) -> Option<u32>
    requires { IsStrictlyIncreasing targets.now }
    ensures { MatchOption result ((number : ℕ) → Contains targets.now number → IsKnown state.now number)
        (IsFirstUnknown state.now targets.now) }
{
    for target in targets {
        if !state.is_known(*target) {
            return Some(*target);
        }
    }
    None
}

/// Whether the item at a place is on a cycle, and the gate allows none.
fn is_barred(gate: &Gate, graph: &Graph, place: usize) -> bool
    requires { place < length graph.now.items }
    ensures { (state : Changes) (item : Item) → IsGraphOf gate.now state graph.now → IsAt graph.now.items place item
        → MatchBool result (IsOnBarredCycle gate.now state item) (IsOffCycles gate.now state item) }
{
    if gate.cycles() {
        return false;
    }
    graph.on_cycles()[place]
}

/// Whether the items before and after the one at a place are of its change, so that neither it nor the one before it is
/// the current one.
fn is_among_its_own(items: &[Item], place: usize) -> bool
    requires { place < length items.now }
    ensures { IsTrue result → IsAmongItsOwn items.now place }
{
    if place == 0 || place + 1 == items.len() {
        return false;
    }
    items[place - 1].change == items[place].change && items[place + 1].change == items[place].change
}

/// The own condition of the item at a place, where that of the item before it is known. Items of one change that aren't
/// the current one compare alike with every condition, so that the first of them is judged for all.
fn own_at(
    state: &State,
    gate: &Gate,
    items: &[Item],
    place: usize,
    before: Option<Condition>,
) -> Option<Condition>
    requires items { ArePart gate.now state.now items.now }
    requires place { place < length items.now }
    requires before { IsOwnBefore gate.now state.now items.now place before }
    ensures { (item : Item) → IsAt items.now place item → IsOwn gate.now state.now item result }
{
    if is_among_its_own(items, place) {
        return before;
    }
    gate.own(state, items[place])
}

/// The own conditions of some items, which hold what they wait for, in their order. It costs O(v p) for v votes and p
/// patterns.
pub fn own_conditions(
    alloc: Global,
    state: &State,
    gate: &Gate,
    items: &[Item],
) -> Result<Vec<Option<Condition>>, NoMemory>
    requires { ArePart gate.now state.now items.now }
    ensures { IfOk result (λ owns. AreOwns gate.now state.now items.now owns.items) }
{
    let mut owns = Vec::with_capacity(alloc, items.len())?;
    let mut own = None;
    for place in 0..items.len() {
        own = own_at(state, gate, items, place, own);
        owns.push(own)?;
    }
    Ok(owns)
}

/// Why the item at a place isn't eligible, if it isn't.
fn cause_of(
    state: &State,
    gate: &Gate,
    graph: &Graph,
    place: usize,
    own: Option<Condition>,
) -> Option<Refusal>
    requires graph { IsGraphOf gate.now state.now graph.now }
    requires place { place < length graph.now.items }
    requires own { (item : Item) → IsAt graph.now.items place item → IsOwn gate.now state.now item own }
    ensures { (item : Item) → IsAt graph.now.items place item → IsCauseOf gate.now state.now item result }
{
    if let Some(condition) = own {
        return Some(Refusal::Own(condition));
    }
    if is_barred(gate, graph, place) {
        return Some(Refusal::Cycle);
    }
    let Some(unknown) = first_unknown(state, graph.targets_at(place)) else {
        return None;
    };
    Some(Refusal::Unknown(unknown))
}

/// For each item, in order, why it isn't eligible, given the items' own conditions.
pub fn all_causes(
    alloc: Global,
    state: &State,
    gate: &Gate,
    graph: &Graph,
    owns: &[Option<Condition>],
) -> Result<Vec<Option<Refusal>>, NoMemory>
    requires graph { IsGraphOf gate.now state.now graph.now }
    requires owns { AreOwns gate.now state.now graph.now.items owns.now }
    ensures { IfOk result
        (λ causes. AreCauses gate.now state.now graph.now.items causes.items) }
{
    let mut causes = Vec::with_capacity(alloc, owns.len())?;
    for place in 0..owns.len() {
        causes.push(cause_of(state, gate, graph, place, owns[place]))?;
    }
    Ok(causes)
}

/// Which places have a cause.
pub fn flags_of(alloc: Global, causes: &[Option<Refusal>]) -> Result<Vec<bool>, NoMemory>
    ensures { IfOk result (λ flags. flags.items ≡ flags_of causes.now) }
{
    Ok(causes.iter().map(|cause| cause.is_some()).collect(alloc)?)
}
