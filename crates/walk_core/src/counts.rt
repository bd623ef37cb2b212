//! How many targets each node leads to. The targets are taken in blocks; in each block a node is marked with the
//! targets that it leads to, by passing the marks on against the edges until nothing changes. The nodes of a cycle,
//! which lead to the same nodes, have their marks and their count at the first of them.

ghost use Rattle.std.specs.Prelude.{◌≡◌, ◌<◌, ◌≤◌, ◌∷◌, [], ℕ, Contains, length, slice_index};
ghost use Rattle.std.specs.Ordering.{nat_cmp};
ghost use Rattle.std.specs.List.Sorted.{IsStrictlySortedBy};
ghost use Rattle.walk_core.specs.Components.{AreFirsts};
ghost use Rattle.walk_core.specs.Marks.{AreBare, AreCountsElsewhere, AreMarked, CountsBlock, HoldEnds, LeadsToCount};
ghost use Rattle.walk_core.specs.Marks.{Passes, PassesAll, TakesCounts};

use super::block::{Marks, TARGETS};
use super::digraph::Digraph;
use std::alloc::Allocator;

/// Counts how many of the targets each of the nodes leads to, at its first node; other counts stay. Each block of 512
/// targets costs O(n + m) for n nodes and their m edges, times the sweeps that change something; where the nodes are in
/// such an order that each comes after what it leads to, that is one sweep, and one more that changes nothing.
pub fn count_targets<A: Allocator + Copy>(
    graph: &Digraph<A>,
    firsts: &[usize],
    nodes: &[usize],
    targets: &[usize],
    rows: &mut Vec<Marks, A>,
    counts: &mut Vec<usize, A>,
)
    requires firsts { AreFirsts graph.now firsts.now }
    requires nodes { HoldEnds graph.now nodes.now }
    requires targets { (target : ℕ) → Contains targets.now target → Contains nodes.now target }
    requires in_order { IsStrictlySortedBy nat_cmp targets.now }
    requires rows { length rows.old.items ≡ length graph.now }
    requires bare { AreBare rows.old.items }
    requires counts { length counts.old.items ≡ length graph.now }
    requires zero { (x : ℕ) → Contains nodes.now x → slice_index counts.old.items (slice_index firsts.now x) ≡ 0 }
    ensures rows { length rows.new.items ≡ length graph.now }
    ensures bare { AreBare rows.new.items }
    ensures counts { length counts.new.items ≡ length graph.now }
    ensures each { (x : ℕ) → Contains nodes.now x
        → LeadsToCount graph.now targets.now x (slice_index counts.new.items (slice_index firsts.now x)) }
    ensures elsewhere { AreCountsElsewhere firsts.now nodes.now counts.old.items counts.new.items }
{
    let mut start = 0;
    while start < targets.len() {
        let end = start + TARGETS.min(targets.len() - start);
        count_block(graph, firsts, nodes, &targets[start..end], rows, counts);
        start = end;
    }
}

/// Adds to the count of each node how many of a block's targets it leads to.
fn count_block<A: Allocator + Copy>(
    graph: &Digraph<A>,
    firsts: &[usize],
    nodes: &[usize],
    block: &[usize],
    rows: &mut Vec<Marks, A>,
    counts: &mut Vec<usize, A>,
)
    requires firsts { AreFirsts graph.now firsts.now }
    requires nodes { HoldEnds graph.now nodes.now }
    requires targets { (target : ℕ) → Contains block.now target → Contains nodes.now target }
    requires few { length block.now ≤ 512 }
    requires rows { length rows.old.items ≡ length graph.now }
    requires bare { AreBare rows.old.items }
    requires counts { length counts.old.items ≡ length graph.now }
    ensures rows { length rows.new.items ≡ length graph.now }
    ensures bare { AreBare rows.new.items }
    ensures counts { length counts.new.items ≡ length graph.now }
    ensures each { CountsBlock graph.now firsts.now nodes.now block.now counts.old.items counts.new.items }
    ensures elsewhere { AreCountsElsewhere firsts.now nodes.now counts.old.items counts.new.items }
{
    mark_block(graph, firsts, block, rows);
    pass_all(graph, firsts, nodes, rows);
    take_counts(firsts, nodes, rows, counts);
}

/// Marks each target of a block at its first node.
fn mark_block<A: Allocator + Copy>(
    graph: &Digraph<A>,
    firsts: &[usize],
    block: &[usize],
    rows: &mut Vec<Marks, A>,
)
    requires firsts { AreFirsts graph.now firsts.now }
    requires targets { (target : ℕ) → Contains block.now target → target < length graph.now }
    requires few { length block.now ≤ 512 }
    requires rows { length rows.old.items ≡ length graph.now }
    requires bare { AreBare rows.old.items }
    ensures rows { length rows.new.items ≡ length graph.now }
    ensures marked { AreMarked graph.now firsts.now block.now rows.new.items }
{
    for (target, node) in block.iter().enumerate() {
        rows[firsts[*node]].put(target);
    }
}

/// Passes the marks on against the edges of the nodes until nothing changes.
fn pass_all<A: Allocator + Copy>(
    graph: &Digraph<A>,
    firsts: &[usize],
    nodes: &[usize],
    rows: &mut Vec<Marks, A>,
)
    requires firsts { AreFirsts graph.now firsts.now }
    requires nodes { HoldEnds graph.now nodes.now }
    requires rows { length rows.old.items ≡ length graph.now }
    ensures { PassesAll graph.now firsts.now nodes.now rows.old.items rows.new.items }
{
    'sweeps: while pass_once(graph, firsts, nodes, rows) {}
}

/// Passes the marks on against the edges of each of the nodes, one after the other, and says whether something changed.
fn pass_once<A: Allocator + Copy>(
    graph: &Digraph<A>,
    firsts: &[usize],
    nodes: &[usize],
    rows: &mut Vec<Marks, A>,
) -> bool
    requires firsts { AreFirsts graph.now firsts.now }
    requires nodes { HoldEnds graph.now nodes.now }
    requires rows { length rows.old.items ≡ length graph.now }
    ensures { Passes graph.now firsts.now nodes.now rows.old.items rows.new.items result }
{
    let mut changes = false;
    for node in nodes {
        changes |= gather(graph, firsts, *node, rows);
    }
    changes
}

/// Marks a node with what the ends of its edges are marked with, and says whether something changed.
fn gather<A: Allocator + Copy>(
    graph: &Digraph<A>,
    firsts: &[usize],
    node: usize,
    rows: &mut Vec<Marks, A>,
) -> bool
    requires firsts { AreFirsts graph.now firsts.now }
    requires node { node < length graph.now }
    requires rows { length rows.old.items ≡ length graph.now }
    ensures { Passes graph.now firsts.now (node ∷ []) rows.old.items rows.new.items result }
{
    let before = rows[firsts[node]];
    let mut marks = before;
    for end in graph.ends(node) {
        marks = marks.joined(rows[firsts[*end]]);
    }
    if marks == before {
        return false;
    }
    rows[firsts[node]] = marks;
    true
}

/// Adds the marks of each of the nodes to its count, and takes them away. Of a cycle's nodes the first that comes finds
/// the marks.
fn take_counts<A: Allocator + Copy>(
    firsts: &[usize],
    nodes: &[usize],
    rows: &mut Vec<Marks, A>,
    counts: &mut Vec<usize, A>,
)
    requires sized { length rows.old.items ≡ length counts.old.items }
    requires nodes { (x : ℕ) → Contains nodes.now x → x < length firsts.now }
    requires firsts { (x : ℕ) → Contains nodes.now x → slice_index firsts.now x < length rows.old.items }
    ensures { TakesCounts firsts.now nodes.now rows.old.items rows.new.items counts.old.items counts.new.items }
{
    for node in nodes {
        let first = firsts[*node];
        counts[first] = counts[first].saturating_add(rows[first].count());
        rows[first] = Marks::none();
    }
}
