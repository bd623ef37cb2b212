//! Graphs of numbered nodes, made of lists of edges.

ghost use Rattle.std.specs.Prelude.{◌≡◌, ◌<◌, [], IfOk, OnOk, length, map, replicate};
ghost use Rattle.walk_core.specs.Digraphs.{AddsEdges, IsWithin};

use lattice_core::NoMemory;
use std::alloc::{Allocator, Global};
use walk_core::Digraph;

/// Adds an edge.
fn add_edge<A: Allocator + Copy>(
    rows: &mut Vec<Vec<usize, A>, A>,
    from: usize,
    to: usize,
) -> Result<(), NoMemory>
    requires { from < length rows.old.items }
    ensures { OnOk result (AddsEdges
        (map (λ row. row.items) rows.old.items)
        (λ x y. (x ≡ from) × (y ≡ to))
        (map (λ row. row.items) rows.new.items)) }
{
    rows[from].push(to)?;
    Ok(())
}

/// Adds the edge, if it is one between nodes.
fn add_if_within<A: Allocator + Copy>(
    rows: &mut Vec<Vec<usize, A>, A>,
    from: usize,
    to: usize,
) -> Result<(), NoMemory>
    requires { IsWithin (map (λ row. row.items) rows.old.items) }
    ensures { OnOk result ((length rows.new.items ≡ length rows.old.items)
        × IsWithin (map (λ row. row.items) rows.new.items)) }
{
    if from >= rows.len() {
        return Ok(());
    }
    if to >= rows.len() {
        return Ok(());
    }
    add_edge(rows, from, to)?;
    Ok(())
}

/// The graph with so many nodes and those of the edges that are between them.
pub(super) fn graph_of<A: Allocator + Copy>(
    alloc: A,
    nodes: usize,
    edges: &[(usize, usize)],
) -> Result<Digraph<A>, NoMemory>
    ensures nodes { IfOk result (λ graph. length graph ≡ nodes) }
    ensures within { IfOk result IsWithin }
{
    let mut rows = empty_rows(alloc, nodes)?;
    for (from, to) in edges {
        add_if_within(&mut rows, *from, *to)?;
    }
    Digraph::new(alloc, rows)
}

/// So many rows without an end.
fn empty_rows<A: Allocator + Copy>(
    alloc: A,
    count: usize,
) -> Result<Vec<Vec<usize, A>, A>, NoMemory>
    ensures { IfOk result (λ rows. map (λ row. row.items) rows.items ≡ replicate count []) }
{
    let mut rows = Vec::with_capacity(alloc, count)?;
    for _ in 0..count {
        rows.push(Vec::new(alloc))?;
    }
    Ok(rows)
}

/// The next number of a fixed row of numbers, below a limit.
pub(super) fn next_below(state: &mut u64, limit: u64) -> u64 {
    *state = state
        .wrapping_mul(6_364_136_223_846_793_005)
        .wrapping_add(1_442_695_040_888_963_407);
    (*state >> 33).checked_rem(limit).unwrap_or(0)
}

/// Up to 14 edges between so many nodes.
pub(super) fn some_edges(
    alloc: Global,
    state: &mut u64,
    nodes: u64,
) -> Result<Vec<(usize, usize)>, NoMemory> {
    let mut edges = Vec::new(alloc);
    for _ in 0..next_below(state, 15) {
        let from = next_below(state, nodes) as usize;
        let to = next_below(state, nodes) as usize;
        edges.push((from, to))?;
    }
    Ok(edges)
}
