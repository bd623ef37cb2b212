//! Graphs with known cycles, and a slow plain program that the search is compared with.

use super::digraphs::{graph_of, next_below, some_edges};
use lattice_core::NoMemory;
use std::alloc::{Allocator, Global};
use std::process::Abort;
use std::test::Fail;

/// Which nodes of the graph are on a cycle.
pub(super) fn flags_of<A: Allocator + Copy>(
    alloc: A,
    nodes: usize,
    edges: &[(usize, usize)],
) -> Result<Vec<bool, A>, NoMemory> {
    let graph = graph_of(alloc, nodes, edges)?;
    graph.on_cycles()
}

/// The nodes of these edges that are on a cycle are these.
fn assert_flags(
    rt: &impl Abort,
    alloc: Global,
    edges: &[(usize, usize)],
    wanted: &[bool],
) -> Result<(), Fail> {
    let flags = flags_of(alloc, wanted.len(), edges)?;
    assert_eq!(rt; flags.as_slice(), wanted);
    Ok(())
}

#[test]
fn a_node_leads_to_itself(rt: HostRuntime) -> Result<(), Fail> {
    assert_flags(
        &rt,
        rt.alloc(),
        &[(0, 1), (1, 1), (1, 2)],
        &[false, true, false],
    )
}

#[test]
fn two_nodes_lead_to_each_other(rt: HostRuntime) -> Result<(), Fail> {
    assert_flags(&rt, rt.alloc(), &[(0, 1), (1, 0), (0, 1)], &[true, true])
}

#[test]
fn tails_into_and_out_of_a_cycle_are_off_it(rt: HostRuntime) -> Result<(), Fail> {
    let edges = [(0, 1), (1, 2), (2, 3), (3, 1), (3, 4)];
    assert_flags(&rt, rt.alloc(), &edges, &[false, true, true, true, false])
}

#[test]
fn a_bridge_between_cycles_is_off_them(rt: HostRuntime) -> Result<(), Fail> {
    let edges = [(0, 1), (1, 0), (1, 2), (2, 3), (3, 4), (4, 3)];
    assert_flags(&rt, rt.alloc(), &edges, &[true, true, false, true, true])
}

#[test]
fn a_chain_and_a_diamond_have_no_cycle(rt: HostRuntime) -> Result<(), Fail> {
    let edges = [(0, 1), (1, 2), (1, 3), (2, 4), (3, 4)];
    assert_flags(&rt, rt.alloc(), &edges, &[false; 5])
}

#[test]
fn no_nodes_are_on_no_cycle(rt: HostRuntime) -> Result<(), Fail> {
    assert_flags(&rt, rt.alloc(), &[], &[])
}

/// Which nodes come back to themselves, each by a search of its own.
fn plain_flags(
    alloc: Global,
    nodes: usize,
    edges: &[(usize, usize)],
) -> Result<Vec<bool>, NoMemory> {
    let mut flags = Vec::new(alloc);
    for start in 0..nodes {
        flags.push(comes_back(alloc, nodes, edges, start)?)?;
    }
    Ok(flags)
}

/// Whether a node reaches itself, by repeated relaxing: in each of as many rounds as nodes, each edge from what is
/// reached reaches its end.
fn comes_back(
    alloc: Global,
    nodes: usize,
    edges: &[(usize, usize)],
    start: usize,
) -> Result<bool, NoMemory> {
    let mut reached = vec![in alloc; false; nodes]?;
    for _ in 0..nodes {
        for (from, to) in edges {
            relax(&mut reached, *from == start, *from, *to);
        }
    }
    Ok(reached.get(start).copied().unwrap_or(false))
}

/// The edge's end is reached if it begins at the start or at a node that is reached.
pub(super) fn relax(reached: &mut Vec<bool>, begins: bool, from: usize, to: usize) {
    let from_reached = reached.get(from).copied().unwrap_or(false);
    if let Some(end) = reached.get_mut(to)
        && (begins || from_reached)
    {
        *end = true;
    }
}

/// The search and the plain program say the same of a graph.
fn assert_plain(
    rt: &impl Abort,
    alloc: Global,
    nodes: usize,
    edges: &[(usize, usize)],
) -> Result<(), Fail> {
    let found = flags_of(alloc, nodes, edges)?;
    let plain = plain_flags(alloc, nodes, edges)?;
    assert_eq!(rt; found.as_slice(), plain.as_slice());
    Ok(())
}

/// The graph that has an edge for each 1 among the binary digits of its number.
pub(super) fn numbered_edges(
    alloc: Global,
    nodes: usize,
    number: u32,
) -> Result<Vec<(usize, usize)>, NoMemory> {
    let mut edges = Vec::new(alloc);
    let mut digits = number;
    for from in 0..nodes {
        for to in 0..nodes {
            if digits % 2 == 1 {
                edges.push((from, to))?;
            }
            digits /= 2;
        }
    }
    Ok(edges)
}

/// The search and the plain program say the same of the first of the numbered graphs of so many nodes.
fn assert_numbered(rt: &impl Abort, alloc: Global, nodes: usize, graphs: u32) -> Result<(), Fail> {
    for number in 0..graphs {
        let edges = numbered_edges(alloc, nodes, number)?;
        assert_plain(rt, alloc, nodes, edges.as_slice())?;
    }
    Ok(())
}

#[test]
fn all_graphs_of_three_nodes_as_the_plain_program(rt: HostRuntime) -> Result<(), Fail> {
    assert_numbered(&rt, rt.alloc(), 1, 2)?;
    assert_numbered(&rt, rt.alloc(), 2, 16)?;
    assert_numbered(&rt, rt.alloc(), 3, 512)
}

/// The search and the plain program say the same of a graph of up to nine nodes.
fn assert_some(rt: &impl Abort, alloc: Global, state: &mut u64) -> Result<(), Fail> {
    let nodes = next_below(state, 10);
    let edges = some_edges(alloc, state, nodes)?;
    assert_plain(rt, alloc, nodes as usize, edges.as_slice())
}

#[test]
fn four_hundred_graphs_as_the_plain_program(rt: HostRuntime) -> Result<(), Fail> {
    let mut state = 2;
    for _ in 0..400 {
        assert_some(&rt, rt.alloc(), &mut state)?;
    }
    Ok(())
}

/// The edges of a chain of so many nodes, each to the next node or each to the one before.
fn chain(alloc: Global, nodes: usize, turned: bool) -> Result<Vec<(usize, usize)>, NoMemory> {
    let mut edges = Vec::new(alloc);
    for node in 1..nodes {
        let edge = if turned {
            (node, node - 1)
        } else {
            (node - 1, node)
        };
        edges.push(edge)?;
    }
    Ok(edges)
}

/// All nodes are on a cycle, or none is.
fn assert_each(
    rt: &impl Abort,
    alloc: Global,
    nodes: usize,
    edges: &[(usize, usize)],
    wanted: bool,
) -> Result<(), Fail> {
    let flags = flags_of(alloc, nodes, edges)?;
    assert_eq!(rt; flags.len(), nodes);
    assert!(rt; flags.iter().all(|flag| *flag == wanted));
    Ok(())
}

/// A long chain has no cycle, and with an edge from its end to its beginning it is one.
fn assert_long(rt: &impl Abort, alloc: Global, turned: bool) -> Result<(), Fail> {
    let nodes = 100_000;
    let mut edges = chain(alloc, nodes, turned)?;
    assert_each(rt, alloc, nodes, edges.as_slice(), false)?;
    edges.push(if turned {
        (0, nodes - 1)
    } else {
        (nodes - 1, 0)
    })?;
    assert_each(rt, alloc, nodes, edges.as_slice(), true)
}

#[test]
fn a_hundred_thousand_nodes_are_searched(rt: HostRuntime) -> Result<(), Fail> {
    assert_long(&rt, rt.alloc(), false)
}

#[test]
fn a_hundred_thousand_nodes_turned_round_are_searched(rt: HostRuntime) -> Result<(), Fail> {
    assert_long(&rt, rt.alloc(), true)
}
