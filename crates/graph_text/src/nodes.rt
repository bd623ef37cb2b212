//! Which items are drawn, and what is drawn of each.

ghost use Rattle.std.specs.Prelude.{◌≡◌, ◌<◌, ℕ, All, Contains, IfOk, MatchBool, length, map};
ghost use Rattle.std.specs.List.Sorted.{IsStrictlyIncreasing, IsStrictlySortedBy};
ghost use Rattle.walk_core.specs.Components.{AreFirsts};
ghost use Rattle.walk_core.specs.Digraphs.{ends_of};
ghost use Rattle.state_core.specs.Items.{item_cmp};
ghost use Rattle.state_core.specs.Known.{IsKnown};
ghost use Rattle.ready_core.specs.Causes.{item_at};
ghost use Rattle.ready_core.specs.Verdicts.{items_out};
ghost use Rattle.graph_text.specs.Places.{AreKept, AreNodesAt, AreSides, AreUnknownAt};
ghost use Rattle.graph_text.specs.Places.{IsNodeAt, IsOutFor, IsShown, first_at};

use super::near::Near;
use super::node::Node;
use graph_core::Graph;
use lattice_core::NoMemory;
use ready_core::{Left, Refusal, Verdicts, place_out};
use state_core::{Item, State};
use std::alloc::Global;

/// The items that are drawn, in order, with what is drawn of each. It costs O(n log n) for n items with what they wait
/// for.
pub fn nodes_of(
    alloc: Global,
    state: &State,
    graph: &Graph,
    verdicts: &Verdicts,
    near: &Near,
) -> Result<Vec<Node>, NoMemory>
    requires sides { AreSides graph.now near.now.ahead.items near.now.behind.items }
    requires in_order { IsStrictlySortedBy item_cmp (items_out verdicts.now.out) }
    ensures { IfOk result (λ nodes.
        AreNodesAt state.now graph.now verdicts.now.out near.now.ahead.items near.now.behind.items nodes.items) }
{
    let firsts = graph.digraph().firsts();
    let mut nodes = Vec::new(alloc);
    for place in 0..graph.items().len() {
        if !is_shown(state, graph, near, place) {
            continue;
        }
        let node = node_at(alloc, state, graph, verdicts.out(), near, firsts, place)?;
        nodes.push(node)?;
    }
    Ok(nodes)
}

/// Whether the item at a place is drawn: its change isn't merged, and it is near.
fn is_shown(state: &State, graph: &Graph, near: &Near, place: usize) -> bool
    requires sides { AreSides graph.now near.now.ahead.items near.now.behind.items }
    requires place { place < length graph.now.items }
    ensures { MatchBool result
        (IsShown state.now graph.now.items near.now.ahead.items near.now.behind.items place)
        (¬ IsShown state.now graph.now.items near.now.ahead.items near.now.behind.items place) }
{
    if state.is_merged(graph.items()[place].change) {
        return false;
    }
    near.ahead[place] || near.behind[place]
}

/// What is drawn of the item at a place.
fn node_at(
    alloc: Global,
    state: &State,
    graph: &Graph,
    out: &[Left],
    near: &Near,
    firsts: &[usize],
    place: usize,
) -> Result<Node, NoMemory>
    requires sides { AreSides graph.now near.now.ahead.items near.now.behind.items }
    requires in_order { IsStrictlySortedBy item_cmp (items_out out.now) }
    requires firsts { AreFirsts graph.now.ends firsts.now }
    requires place { place < length graph.now.items }
    ensures { IfOk result (λ node.
        IsNodeAt state.now graph.now out.now near.now.ahead.items near.now.behind.items firsts.now place node) }
{
    let item = graph.items()[place];
    let ends = shown_among(alloc, state, graph, near, graph.digraph().ends(place))?;
    let needs = items_at(alloc, graph.items(), ends.as_slice())?;
    let unknown = unknown_at(alloc, state, graph, near, place)?;
    Ok(Node {
        item,
        refusal: refusal_of(out, item),
        cycle: cycle_at(graph, firsts, place),
        needs,
        unknown,
    })
}

/// Those of some places whose items are drawn.
fn shown_among(
    alloc: Global,
    state: &State,
    graph: &Graph,
    near: &Near,
    places: &[usize],
) -> Result<Vec<usize>, NoMemory>
    requires sides { AreSides graph.now near.now.ahead.items near.now.behind.items }
    requires places { All (λ place. place < length graph.now.items) places.now }
    requires increasing { IsStrictlyIncreasing places.now }
    ensures { IfOk result (λ shown. AreKept (Contains places.now)
        (IsShown state.now graph.now.items near.now.ahead.items near.now.behind.items) shown.items) }
{
    let mut shown = Vec::new(alloc);
    for place in places {
        if !is_shown(state, graph, near, *place) {
            continue;
        }
        shown.push(*place)?;
    }
    Ok(shown)
}

/// The items at some places.
fn items_at(alloc: Global, items: &[Item], places: &[usize]) -> Result<Vec<Item>, NoMemory>
    requires { All (λ place. place < length items.now) places.now }
    ensures { IfOk result (λ found. found.items ≡ map (item_at items.now) places.now) }
{
    let mut found = Vec::with_capacity(alloc, places.len())?;
    for place in places {
        found.push(items[*place])?;
    }
    Ok(found)
}

/// The changes of which no patch set is known and that the item at a place waits for; none where it isn't ahead.
fn unknown_at(
    alloc: Global,
    state: &State,
    graph: &Graph,
    near: &Near,
    place: usize,
) -> Result<Vec<u32>, NoMemory>
    requires sides { AreSides graph.now near.now.ahead.items near.now.behind.items }
    requires place { place < length graph.now.items }
    ensures { IfOk result (λ unknown. AreUnknownAt state.now graph.now near.now.ahead.items place unknown.items) }
{
    if !near.ahead[place] {
        return unknown_among(alloc, state, &[]);
    }
    unknown_among(alloc, state, graph.targets_at(place))
}

/// Those of some changes of which no patch set is known.
fn unknown_among(alloc: Global, state: &State, targets: &[u32]) -> Result<Vec<u32>, NoMemory>
    requires { IsStrictlyIncreasing targets.now }
    ensures { IfOk result
        (λ unknown. AreKept (Contains targets.now) (λ number. ¬ IsKnown state.now number) unknown.items) }
{
    let mut unknown = Vec::new(alloc);
    for target in targets {
        if state.is_known(*target) {
            continue;
        }
        unknown.push(*target)?;
    }
    Ok(unknown)
}

/// Why an item is left out, if it is. In O(log n) for n items.
fn refusal_of(out: &[Left], item: Item) -> Option<Refusal>
    requires { IsStrictlySortedBy item_cmp (items_out out.now) }
    ensures { IsOutFor out.now item result }
{
    let place = place_out(out, item)?;
    Some(out[place].refusal)
}

/// The first item of the cycle that the item at a place is on, if it is on one.
fn cycle_at(graph: &Graph, firsts: &[usize], place: usize) -> Option<Item>
    requires firsts { AreFirsts graph.now.ends firsts.now }
    requires nodes { length graph.now.ends ≡ length graph.now.items }
    requires cycles { length graph.now.on_cycle ≡ length graph.now.items }
    requires place { place < length graph.now.items }
    ensures { result ≡ first_at graph.now firsts.now place }
{
    if !graph.on_cycles()[place] {
        return None;
    }
    Some(graph.items()[firsts[place]])
}
