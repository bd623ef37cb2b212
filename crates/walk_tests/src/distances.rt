//! Graphs with known distances, and a slow plain program that the search is compared with.

use super::digraphs::{graph_of, next_below, some_edges};
use lattice_core::NoMemory;
use std::alloc::{Allocator, Global};
use std::process::Abort;
use std::test::Fail;

#[test]
fn namers_are_listed_in_order(rt: HostRuntime) -> Result<(), Fail> {
    let graph = graph_of(rt.alloc(), 3, &[(2, 0), (0, 1), (1, 0), (2, 2), (2, 0)])?;
    assert_eq!(rt; graph.len(), 3);
    assert_eq!(rt; graph.ends(2), [0, 2, 0].as_slice());
    assert_eq!(rt; graph.namers(0), [1, 2, 2].as_slice());
    assert!(rt; graph.ends(1).len() == 1 && graph.namers(2).len() == 1);
    Ok(())
}

/// The distances of the graph's nodes to the marked ones, of which there are as many as nodes.
pub(super) fn distances_of<A: Allocator + Copy>(
    alloc: A,
    edges: &[(usize, usize)],
    marked: &[bool],
) -> Result<Vec<Option<usize>, A>, NoMemory> {
    let graph = graph_of(alloc, marked.len(), edges)?;
    graph.distances(marked)
}

/// The distances to the marked nodes are these.
fn assert_distances(
    rt: &impl Abort,
    alloc: Global,
    edges: &[(usize, usize)],
    marked: &[bool],
    wanted: &[Option<usize>],
) -> Result<(), Fail> {
    let distances = distances_of(alloc, edges, marked)?;
    assert_eq!(rt; distances.as_slice(), wanted);
    Ok(())
}

#[test]
fn a_chain_counts_up(rt: HostRuntime) -> Result<(), Fail> {
    let marked = [false, false, false, true];
    assert_distances(
        &rt,
        rt.alloc(),
        &[(0, 1), (1, 2), (2, 3)],
        &marked,
        &[Some(3), Some(2), Some(1), Some(0)],
    )
}

#[test]
fn a_diamond_takes_its_shorter_side(rt: HostRuntime) -> Result<(), Fail> {
    let edges = [(0, 1), (0, 2), (1, 3), (2, 4), (3, 4)];
    let marked = [false, false, false, false, true];
    assert_distances(
        &rt,
        rt.alloc(),
        &edges,
        &marked,
        &[Some(2), Some(2), Some(1), Some(1), Some(0)],
    )
}

#[test]
fn a_cycle_counts_round(rt: HostRuntime) -> Result<(), Fail> {
    let marked = [false, true, false];
    assert_distances(
        &rt,
        rt.alloc(),
        &[(0, 1), (1, 2), (2, 0)],
        &marked,
        &[Some(1), Some(0), Some(2)],
    )
}

#[test]
fn without_marks_no_node_has_a_distance(rt: HostRuntime) -> Result<(), Fail> {
    assert_distances(
        &rt,
        rt.alloc(),
        &[(0, 1), (1, 0)],
        &[false, false],
        &[None, None],
    )
}

#[test]
fn the_nearer_of_two_marks_counts(rt: HostRuntime) -> Result<(), Fail> {
    let edges = [(0, 1), (1, 2), (0, 3), (3, 4), (4, 5), (5, 3)];
    let marked = [false, false, true, false, false, true];
    assert_distances(
        &rt,
        rt.alloc(),
        &edges,
        &marked,
        &[Some(2), Some(1), Some(0), Some(2), Some(1), Some(0)],
    )
}

#[test]
fn edges_lead_one_way(rt: HostRuntime) -> Result<(), Fail> {
    let marked = [false, true, false, false];
    assert_distances(
        &rt,
        rt.alloc(),
        &[(0, 1), (1, 2)],
        &marked,
        &[Some(1), Some(0), None, None],
    )
}

#[test]
fn edges_to_oneself_and_repeated_edges_change_nothing(rt: HostRuntime) -> Result<(), Fail> {
    let edges = [(0, 0), (0, 1), (0, 1), (1, 1), (1, 2), (1, 2), (2, 2)];
    assert_distances(
        &rt,
        rt.alloc(),
        &edges,
        &[false, false, true],
        &[Some(2), Some(1), Some(0)],
    )
}

#[test]
fn no_nodes_have_no_distances(rt: HostRuntime) -> Result<(), Fail> {
    assert_distances(&rt, rt.alloc(), &[], &[], &[])
}

/// Distances by repeated relaxing: in each of as many rounds as nodes, each edge says that its start is at most one
/// edge further than its end.
fn plain_distances(
    alloc: Global,
    edges: &[(usize, usize)],
    marked: &[bool],
) -> Result<Vec<Option<usize>>, NoMemory> {
    let mut distances = Vec::new(alloc);
    for is_marked in marked {
        distances.push(if *is_marked { Some(0) } else { None })?;
    }
    for _ in marked {
        for (from, to) in edges {
            relax(&mut distances, *from, *to);
        }
    }
    Ok(distances)
}

/// The edge's start is at most one edge further than its end.
fn relax(distances: &mut Vec<Option<usize>>, from: usize, to: usize) {
    let Some(Some(near)) = distances.get(to).copied() else {
        return;
    };
    let Some(far) = near.checked_add(1) else {
        return;
    };
    if let Some(distance) = distances.get_mut(from)
        && distance.is_none_or(|known| far < known)
    {
        *distance = Some(far);
    }
}

/// Marks on some of the nodes, about one in four.
fn some_marks(alloc: Global, state: &mut u64, nodes: u64) -> Result<Vec<bool>, NoMemory> {
    let mut marked = Vec::new(alloc);
    for _ in 0..nodes {
        marked.push(next_below(state, 4) == 0)?;
    }
    Ok(marked)
}

/// The search and the plain program say the same of a graph.
fn assert_plain(rt: &impl Abort, alloc: Global, state: &mut u64) -> Result<(), Fail> {
    let nodes = next_below(state, 7);
    let edges = some_edges(alloc, state, nodes)?;
    let marked = some_marks(alloc, state, nodes)?;
    let found = distances_of(alloc, edges.as_slice(), marked.as_slice())?;
    let plain = plain_distances(alloc, edges.as_slice(), marked.as_slice())?;
    assert_eq!(rt; found.as_slice(), plain.as_slice());
    Ok(())
}

#[test]
fn four_hundred_graphs_as_the_plain_program(rt: HostRuntime) -> Result<(), Fail> {
    let mut state = 1;
    for _ in 0..400 {
        assert_plain(&rt, rt.alloc(), &mut state)?;
    }
    Ok(())
}

#[test]
fn a_chain_of_a_hundred_thousand_nodes_is_searched(rt: HostRuntime) -> Result<(), Fail> {
    let alloc = rt.alloc();
    let mut edges = Vec::new(alloc);
    let mut marked = Vec::new(alloc);
    for node in 0..100_000 {
        edges.push((node, node + 1))?;
        marked.push(node == 99_999)?;
    }
    let distances = distances_of(alloc, edges.as_slice(), marked.as_slice())?;
    assert_eq!(rt; distances.as_slice().first().copied(), Some(Some(99_999)));
    Ok(())
}
