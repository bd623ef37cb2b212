//! Graphs of small records, worked out by hand.

use super::asserts::assert_found;
use super::record::{Patch, is_text, takes_deed, takes_patch};
use deeds::Deed;
use gate_rules::Gate;
use graph_core::{Graph, names_of};
use state_core::{Item, State};
use std::alloc::{AllocError, Global};
use std::process::Abort;

const GATE: &str = r#"{"bases":["https://r/"]}"#;

/// An operation of a record, whose place in the record is its time.
#[derive(Clone, Copy)]
enum Step {
    /// A patch set of this change with this number, whose message has a footer for each of these changes, on this
    /// parent.
    PatchSet(u32, u32, &'static [u32], Option<u32>),
    Merged(u32),
    Abandon(u32),
}

use Step::{Abandon, Merged, PatchSet};

/// Takes a step in with this time.
fn takes_step(alloc: Global, state: &mut State, time: u64, step: Step) -> bool {
    match step {
        PatchSet(change, set, needs, parent) => {
            let patch = Patch {
                change,
                set,
                needs,
                parent,
            };
            takes_patch(alloc, state, time, patch)
        }
        Merged(change) => takes_deed(alloc, state, time, change, Deed::Merged),
        Abandon(change) => takes_deed(alloc, state, time, change, Deed::Abandon),
    }
}

/// The state of steps, one after the other, where memory suffices for it.
fn state_of(alloc: Global, steps: &[Step]) -> Option<State> {
    let mut state = State::new(alloc);
    let mut are_taken = true;
    for (time, step) in (1u64..).zip(steps) {
        are_taken = takes_step(alloc, &mut state, time, *step) && are_taken;
    }
    if are_taken { Some(state) } else { None }
}

/// The graph of a state, where memory suffices for it.
fn graph_over(alloc: Global, state: &State) -> Option<Graph> {
    let gate = Gate::read(alloc, GATE.as_bytes()).ok()?;
    Graph::build(alloc, state, &gate).ok()
}

/// The graph of the record with these operations, where memory suffices for it.
fn graph_of(alloc: Global, steps: &[Step]) -> Option<Graph> {
    graph_over(alloc, &state_of(alloc, steps)?)
}

/// The graph as a text: a line for each item.
fn shown(alloc: Global, graph: &Graph) -> Result<String, AllocError> {
    let mut text = String::new(alloc);
    for (place, item) in graph.items().iter().enumerate() {
        let Item { change, set } = *item;
        let targets = graph.targets_at(place);
        let ends = graph.digraph().ends(place);
        let flag = graph.on_cycles()[place];
        write!(text, "{change},{set} {targets:?} {ends:?} {flag}\n")?;
    }
    Ok(text)
}

/// The graph of these operations as a text, where memory suffices for it.
fn shown_of(alloc: Global, steps: &[Step]) -> Option<String> {
    shown(alloc, &graph_of(alloc, steps)?).ok()
}

/// The graph of these operations has these lines.
fn assert_shown(rt: &impl Abort, alloc: Global, steps: &[Step], wanted: &str) {
    assert_found(rt, is_text(shown_of(alloc, steps), wanted), true);
}

/// Whether just these items wait for the change in the graph of these operations, where memory suffices for that.
fn has_namers(alloc: Global, steps: &[Step], change: u32, wanted: &[Item]) -> Option<bool> {
    let graph = graph_of(alloc, steps)?;
    let named: Vec<Item> = graph.namers(change).collect(alloc).ok()?;
    Some(named.as_slice() == wanted)
}

/// In the graph of these operations just these items wait for the change.
fn assert_namers(rt: &impl Abort, alloc: Global, steps: &[Step], change: u32, wanted: &[Item]) {
    assert_found(rt, has_namers(alloc, steps, change, wanted), Some(true));
}

// No operation, no item.
#[test]
fn nothing(rt: HostRuntime) {
    assert_shown(&rt, rt.alloc(), &[], "");
    assert_namers(&rt, rt.alloc(), &[], 1, &[]);
}

// 1 and 2 need each other, and 2 needs 3.
const A_CYCLE_AND_ITS_TAIL: &[Step] = &[
    PatchSet(1, 1, &[2], None),
    PatchSet(2, 1, &[3, 1], None),
    PatchSet(3, 1, &[], None),
];

#[test]
fn a_cycle_and_its_tail(rt: HostRuntime) {
    let wanted = "1,1 [2] [1] true\n2,1 [1, 3] [0, 2] true\n3,1 [] [] false\n";
    assert_shown(&rt, rt.alloc(), A_CYCLE_AND_ITS_TAIL, wanted);
}

#[test]
fn what_waits_for_the_tail_of_a_cycle(rt: HostRuntime) {
    let wanted = [Item { change: 2, set: 1 }];
    assert_namers(&rt, rt.alloc(), A_CYCLE_AND_ITS_TAIL, 3, &wanted);
}

const A_CYCLE_AND_AN_UNKNOWN_CHANGE: &[Step] = &[
    PatchSet(1, 1, &[2], None),
    PatchSet(2, 1, &[3, 1], None),
];

/// Whether the second of two items has these targets, and is on a cycle.
fn second_item(graph: &Graph, wanted: &[u32]) -> Option<(bool, bool)> {
    let items = graph.items();
    if items.len() != 2 {
        return None;
    }
    let item = items[1];
    Some((graph.targets(item) == wanted, graph.on_cycle(item)))
}

// Asked by item.
#[test]
fn by_item(rt: HostRuntime) {
    let graph = graph_of(rt.alloc(), A_CYCLE_AND_AN_UNKNOWN_CHANGE);
    let found = graph.and_then(|graph| second_item(&graph, &[1, 3]));
    assert_found(&rt, found, Some((true, true)));
}

/// Whether these are the changes that an item names in a state, where memory suffices for them.
fn are_named(alloc: Global, state: &State, item: Item, wanted: &[u32]) -> Option<bool> {
    let gate = Gate::read(alloc, GATE.as_bytes()).ok()?;
    let names = names_of(alloc, &gate, state, item).ok()?;
    Some(names.as_slice() == wanted)
}

/// Whether an item names these changes in a record in which 2,1 needs 1 and 7, which is merged, and is based on 4.
fn named(alloc: Global, item: Item, wanted: &[u32]) -> Option<bool> {
    let state = state_of(alloc, &[PatchSet(2, 1, &[7, 1], Some(4)), Merged(7)])?;
    are_named(alloc, &state, item, wanted)
}

// Merged changes are named, too, and an item that isn't known names none.
#[test]
fn merged_changes_are_named(rt: HostRuntime) {
    let known = named(rt.alloc(), Item { change: 2, set: 1 }, &[1, 7, 4]);
    let unknown = named(rt.alloc(), Item { change: 2, set: 9 }, &[]);
    assert_found(&rt, (known, unknown), (Some(true), Some(true)));
}

// The edge of a dependency ends at its current patch set, an older patch set is an item of its own, and an unknown
// change has no node.
const PATCH_SETS_OF_ONE_CHANGE: &[Step] = &[
    PatchSet(1, 1, &[9], None),
    PatchSet(1, 7, &[], None),
    PatchSet(2, 3, &[1, 9], None),
];

#[test]
fn current_patch_sets(rt: HostRuntime) {
    let wanted = "1,1 [9] [] false\n1,7 [] [] false\n2,3 [1, 9] [1] false\n";
    assert_shown(&rt, rt.alloc(), PATCH_SETS_OF_ONE_CHANGE, wanted);
}

#[test]
fn what_waits_for_an_unknown_change(rt: HostRuntime) {
    let wanted = [Item { change: 1, set: 1 }, Item { change: 2, set: 3 }];
    assert_namers(&rt, rt.alloc(), PATCH_SETS_OF_ONE_CHANGE, 9, &wanted);
}

// A parent counts like a footer, once, unless it is the item's own change.
const PARENTS: &[Step] = &[
    PatchSet(1, 1, &[1], Some(1)),
    PatchSet(2, 1, &[5, 1], Some(3)),
    PatchSet(3, 1, &[2], Some(2)),
];

#[test]
fn parents(rt: HostRuntime) {
    let wanted = "1,1 [] [] false\n2,1 [1, 3, 5] [0, 2] true\n3,1 [2] [1] true\n";
    assert_shown(&rt, rt.alloc(), PARENTS, wanted);
}

// A merged change is no target, known or not.
const MERGED_CHANGES: &[Step] = &[
    PatchSet(1, 1, &[2, 3, 4], Some(5)),
    PatchSet(2, 1, &[1], None),
    Merged(2),
    Merged(3),
    Abandon(4),
];

#[test]
fn merged_changes(rt: HostRuntime) {
    let wanted = "1,1 [4, 5] [] false\n2,1 [1] [0] false\n";
    assert_shown(&rt, rt.alloc(), MERGED_CHANGES, wanted);
}
