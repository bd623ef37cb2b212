//! The kept nodes of a graph in regions, which no edge joins. A search along the edges in both directions finds a
//! region, which is named by the node where the search began.

ghost use Rattle.std.specs.Prelude.{◌≡◌, ◌<◌, ℕ, Bool, Contains, IfOk, MatchBool, OnOk, Some, length, map};
ghost use Rattle.walk_core.specs.Digraphs.{HasEdge, IsMarked};
ghost use Rattle.walk_core.specs.Regions.{AreGrouped, AreRegions, HasLabelled, Waits, label_of};

use super::digraph::Digraph;
use super::edges::empty_rows;
use lattice_core::NoMemory;
use std::alloc::Allocator;

/// The label of each kept node. It costs O(n + m) time and memory for n nodes and m edges from kept nodes and to them.
pub fn region_labels<A: Allocator + Copy>(
    alloc: A,
    graph: &Digraph<A>,
    kept: &[bool],
) -> Result<Vec<Option<usize>, A>, NoMemory>
    requires { length kept.now ≡ length graph.now }
    ensures { IfOk result (λ labels. AreRegions graph.now kept.now labels.items) }
{
    let mut labels = vec![in alloc; None; graph.len()]?;
    for node in 0..graph.len() {
        if !waits(kept, labels.as_slice(), node) {
            continue;
        }
        label_region(alloc, graph, kept, &mut labels, node)?;
    }
    Ok(labels)
}

/// Whether a kept node has no label yet.
fn waits(kept: &[bool], labels: &[Option<usize>], node: usize) -> bool
    requires kept { node < length kept.now }
    requires labels { node < length labels.now }
    ensures { MatchBool result (Waits kept.now labels.now node) (¬ Waits kept.now labels.now node) }
{
    kept[node] && labels[node].is_none()
}

/// Labels the kept nodes without a label that edges, in either direction, join with a node, and that node.
fn label_region<A: Allocator + Copy>(
    alloc: A,
    graph: &Digraph<A>,
    kept: &[bool],
    labels: &mut Vec<Option<usize>, A>,
    start: usize,
) -> Result<(), NoMemory>
    requires kept { length kept.now ≡ length graph.now }
    requires labels { length labels.old.items ≡ length graph.now }
    requires start { start < length graph.now }
    ensures { OnOk result (HasLabelled graph.now kept.now start labels.old.items labels.new.items) }
{
    let mut ahead = Vec::new(alloc);
    ahead.push(start)?;
    while let Some(node) = ahead.pop() {
        if waits(kept, labels.as_slice(), node) {
            labels[node] = Some(start);
            ahead.extend_from_slice(graph.ends(node))?;
            ahead.extend_from_slice(graph.namers(node))?;
        }
    }
    Ok(())
}

/// The nodes of each region, at its label, in their order.
pub fn grouped<A: Allocator + Copy>(
    alloc: A,
    labels: &[Option<usize>],
    nodes: &[usize],
) -> Result<Vec<Vec<usize, A>, A>, NoMemory>
    requires nodes { (x : ℕ) → Contains nodes.now x → x < length labels.now }
    requires within { (x label : ℕ) → label_of labels.now x ≡ Some label → label < length labels.now }
    ensures { IfOk result (λ rows. AreGrouped labels.now nodes.now (map (λ row. row.items) rows.items)) }
{
    let mut rows = empty_rows(alloc, labels.len())?;
    for node in nodes {
        let Some(label) = labels[*node] else {
            continue;
        };
        rows[label].push(*node)?;
    }
    Ok(rows)
}
