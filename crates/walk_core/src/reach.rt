//! Searches from marked nodes, back along the edges and forth.

ghost use Rattle.std.specs.Prelude.{◌≡◌, IfOk, length, map, is_some};
ghost use Rattle.walk_core.specs.Digraphs.{IsReversed, IsWithin};
ghost use Rattle.walk_core.specs.Reach.{AreLeading, AreReached};

use super::digraph::Digraph;
use lattice_core::NoMemory;
use std::alloc::Allocator;

/// Which nodes lead to a marked one, over some edges or none. It takes O(n + m) time and memory for n nodes and m
/// edges.
pub fn leading<A: Allocator + Copy>(
    alloc: A,
    graph: &Digraph<A>,
    marked: &[bool],
) -> Result<Vec<bool, A>, NoMemory>
    requires { length marked.now ≡ length graph.now }
    ensures { IfOk result (λ flags. AreLeading graph.now marked.now flags.items) }
{
    let distances = graph.distances(marked)?;
    are_there(alloc, distances.as_slice())
}

/// Which distances are there.
fn are_there<A: Allocator + Copy>(
    alloc: A,
    distances: &[Option<usize>],
) -> Result<Vec<bool, A>, NoMemory>
    ensures { IfOk result (λ flags. flags.items ≡ map is_some distances.now) }
{
    Ok(
        distances
            .iter()
            .map(|distance| distance.is_some())
            .collect(alloc)?,
    )
}

/// Which nodes a marked one leads to, over some edges or none. It takes O(n + m) time and memory for n nodes and m
/// edges.
pub fn reached<A: Allocator + Copy>(
    alloc: A,
    graph: &Digraph<A>,
    marked: &[bool],
) -> Result<Vec<bool, A>, NoMemory>
    requires sized { length marked.now ≡ length graph.now }
    requires within { IsWithin graph.now }
    ensures { IfOk result (λ flags. AreReached graph.now marked.now flags.items) }
{
    let turned = turned_round(alloc, graph)?;
    leading(alloc, &turned, marked)
}

/// The graph with each edge turned round.
fn turned_round<A: Allocator + Copy>(alloc: A, graph: &Digraph<A>) -> Result<Digraph<A>, NoMemory>
    requires { IsWithin graph.now }
    ensures { IfOk result (λ turned. IsReversed graph.now turned) }
{
    let rows = all_namers(alloc, graph)?;
    Digraph::new(alloc, rows)
}

/// Of each node those that have an edge to it.
fn all_namers<A: Allocator + Copy>(
    alloc: A,
    graph: &Digraph<A>,
) -> Result<Vec<Vec<usize, A>, A>, NoMemory>
    requires { IsWithin graph.now }
    ensures { IfOk result (λ rows. IsReversed graph.now (map (λ row. row.items) rows.items)) }
{
    let mut rows = Vec::with_capacity(alloc, graph.len())?;
    for node in 0..graph.len() {
        rows.push(graph.namers(node).to_vec(alloc)?)?;
    }
    Ok(rows)
}
