//! Graphs with known orders, and a slow plain program that the order is compared with.

use super::cycles::{numbered_edges, relax};
use super::digraphs::{graph_of, next_below, some_edges};
use lattice_core::NoMemory;
use std::alloc::{Allocator, Global};
use std::process::Abort;
use std::test::Fail;

/// All nodes of the graph in the order of their ranks.
pub(super) fn order_of<A: Allocator + Copy>(
    alloc: A,
    nodes: usize,
    edges: &[(usize, usize)],
) -> Result<Vec<usize, A>, NoMemory> {
    let graph = graph_of(alloc, nodes, edges)?;
    let kept = vec![in alloc; true; nodes]?;
    graph.in_rank_order(kept.as_slice())
}

/// The nodes of these edges come in this order.
fn assert_order(
    rt: &impl Abort,
    alloc: Global,
    edges: &[(usize, usize)],
    wanted: &[usize],
) -> Result<(), Fail> {
    let order = order_of(alloc, wanted.len(), edges)?;
    assert_eq!(rt; order.as_slice(), wanted);
    Ok(())
}

#[test]
fn a_chain_begins_at_its_end(rt: HostRuntime) -> Result<(), Fail> {
    assert_order(&rt, rt.alloc(), &[(2, 0), (0, 1)], &[1, 0, 2])
}

#[test]
fn a_cycle_comes_after_what_leads_nowhere(rt: HostRuntime) -> Result<(), Fail> {
    assert_order(&rt, rt.alloc(), &[(0, 2), (2, 0)], &[1, 3, 0, 2])
}

#[test]
fn two_cycles_are_apart(rt: HostRuntime) -> Result<(), Fail> {
    let edges = [(0, 3), (3, 0), (1, 2), (2, 1)];
    assert_order(&rt, rt.alloc(), &edges, &[0, 3, 1, 2])
}

#[test]
fn a_diamond_counts_its_end_once(rt: HostRuntime) -> Result<(), Fail> {
    let edges = [
        (0, 1),
        (0, 2),
        (1, 3),
        (2, 3),
        (4, 5),
        (5, 6),
        (6, 7),
        (7, 8),
    ];
    assert_order(&rt, rt.alloc(), &edges, &[3, 8, 1, 2, 7, 6, 0, 5, 4])
}

/// Whether a number is marked.
fn is_marked(marks: &[bool], number: usize) -> bool {
    marks.get(number).copied().unwrap_or(false)
}

/// The nodes that a node leads to, itself among them, by repeated relaxing.
fn led_to(
    alloc: Global,
    nodes: usize,
    edges: &[(usize, usize)],
    start: usize,
) -> Result<Vec<bool>, NoMemory> {
    let mut led = Vec::new(alloc);
    for node in 0..nodes {
        led.push(node == start)?;
    }
    for _ in 0..nodes {
        for (from, to) in edges {
            relax(&mut led, false, *from, *to);
        }
    }
    Ok(led)
}

/// How many nodes a node leads to, the least of these that lead to it, and the node.
fn plain_rank(
    alloc: Global,
    nodes: usize,
    edges: &[(usize, usize)],
    node: usize,
) -> Result<(usize, usize, usize), NoMemory> {
    let led = led_to(alloc, nodes, edges, node)?;
    let mut first = node;
    for other in 0..node {
        let back = led_to(alloc, nodes, edges, other)?;
        if is_marked(led.as_slice(), other) && is_marked(back.as_slice(), node) {
            first = first.min(other);
        }
    }
    Ok((led.iter().filter(|is| **is).count(), first, node))
}

/// Those of the nodes that are kept in the order of their ranks, each rank by searches of its own.
fn plain_order(
    alloc: Global,
    kept: &[bool],
    edges: &[(usize, usize)],
) -> Result<Vec<usize>, NoMemory> {
    let mut ranks = Vec::new(alloc);
    for (node, is_kept) in kept.iter().enumerate() {
        if *is_kept {
            ranks.push(plain_rank(alloc, kept.len(), edges, node)?)?;
        }
    }
    ranks.sort_unstable();
    let mut order = Vec::new(alloc);
    for (_, _, node) in &ranks {
        order.push(*node)?;
    }
    Ok(order)
}

/// The marks and the plain program order all nodes of a graph alike.
fn assert_plain(
    rt: &impl Abort,
    alloc: Global,
    nodes: usize,
    edges: &[(usize, usize)],
) -> Result<(), Fail> {
    let order = order_of(alloc, nodes, edges)?;
    let kept = vec![in alloc; true; nodes]?;
    let plain = plain_order(alloc, kept.as_slice(), edges)?;
    assert_eq!(rt; order.as_slice(), plain.as_slice());
    Ok(())
}

/// The same of the first of the numbered graphs of so many nodes.
fn assert_numbered(rt: &impl Abort, alloc: Global, nodes: usize, graphs: u32) -> Result<(), Fail> {
    for number in 0..graphs {
        let edges = numbered_edges(alloc, nodes, number)?;
        assert_plain(rt, alloc, nodes, edges.as_slice())?;
    }
    Ok(())
}

#[test]
fn all_graphs_of_three_nodes_as_the_plain_program(rt: HostRuntime) -> Result<(), Fail> {
    assert_numbered(&rt, rt.alloc(), 1, 2)?;
    assert_numbered(&rt, rt.alloc(), 2, 16)?;
    assert_numbered(&rt, rt.alloc(), 3, 512)
}

#[test]
fn four_hundred_graphs_as_the_plain_program(rt: HostRuntime) -> Result<(), Fail> {
    let mut state = 4;
    for _ in 0..400 {
        let nodes = next_below(&mut state, 10);
        let edges = some_edges(rt.alloc(), &mut state, nodes)?;
        assert_plain(&rt, rt.alloc(), nodes as usize, edges.as_slice())?;
    }
    Ok(())
}

/// A chain of so many nodes, each of which also leads to an older one.
fn long_edges(alloc: Global, nodes: usize) -> Result<Vec<(usize, usize)>, NoMemory> {
    let mut edges = Vec::new(alloc);
    for node in 1..nodes {
        edges.push((node, node - 1))?;
        edges.push((node, node / 2))?;
    }
    Ok(edges)
}

#[test]
fn two_thousand_nodes_are_counted_in_blocks(rt: HostRuntime) -> Result<(), Fail> {
    let nodes = 2000;
    let edges = long_edges(rt.alloc(), nodes)?;
    let order = order_of(rt.alloc(), nodes, edges.as_slice())?;
    assert_eq!(rt; order.len(), nodes);
    for (place, node) in order.iter().enumerate() {
        assert_eq!(rt; *node, place);
    }
    Ok(())
}

/// Two such graphs, of the even nodes and of the odd ones.
fn two_long_edges(alloc: Global, nodes: usize) -> Result<Vec<(usize, usize)>, NoMemory> {
    let mut edges = Vec::new(alloc);
    for node in 2..nodes {
        edges.push((node, node - 2))?;
        edges.push((node, node / 4 * 2 + node % 2))?;
    }
    Ok(edges)
}

#[test]
fn two_regions_are_counted_apart(rt: HostRuntime) -> Result<(), Fail> {
    let nodes = 2400;
    let edges = two_long_edges(rt.alloc(), nodes)?;
    let order = order_of(rt.alloc(), nodes, edges.as_slice())?;
    assert_eq!(rt; order.len(), nodes);
    for (place, node) in order.iter().enumerate() {
        assert_eq!(rt; *node, place);
    }
    Ok(())
}
