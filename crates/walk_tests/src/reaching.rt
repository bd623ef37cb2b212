//! Reachability in both directions, compared with slow plain searches over small graphs.

ghost use Rattle.std.specs.Prelude.{◌≡◌, ◌<◌, IfOk, length};

use super::digraphs::{graph_of, next_below, some_edges};
use lattice_core::NoMemory;
use std::alloc::Global;
use std::process::Abort;
use std::test::Fail;
use walk_core::{Digraph, leading, reached};

/// Marks for some of so many nodes: about one in four.
fn marks_of(alloc: Global, nodes: usize, state: &mut u64) -> Result<Vec<bool>, NoMemory>
    ensures { IfOk result (λ marks. length marks.items ≡ nodes) }
{
    let mut marks = vec![in alloc; false; nodes]?;
    for node in 0..nodes {
        marks[node] = next_below(state, 4) == 0;
    }
    Ok(marks)
}

/// Passes the marks on along each edge once: from its end to its start, or from its start to its end.
fn pass_once(graph: &Digraph, marks: &mut Vec<bool>, is_back: bool)
    requires { length marks.old.items ≡ length graph.now }
    ensures { length marks.new.items ≡ length graph.now }
{
    for node in 0..graph.len() {
        pass_from(graph, marks, is_back, node);
    }
}

/// The same along the edges of a node.
fn pass_from(graph: &Digraph, marks: &mut Vec<bool>, is_back: bool, node: usize)
    requires marks { length marks.old.items ≡ length graph.now }
    requires node { node < length graph.now }
    ensures { length marks.new.items ≡ length graph.now }
{
    for end in graph.ends(node) {
        let (from, to) = if is_back { (*end, node) } else { (node, *end) };
        marks[to] = marks[to] || marks[from];
    }
}

/// The marks after as many rounds as there are nodes.
fn slow(
    alloc: Global,
    graph: &Digraph,
    marks: &[bool],
    is_back: bool,
) -> Result<Vec<bool>, NoMemory>
    requires { length marks.now ≡ length graph.now }
{
    let mut all = marks.to_vec(alloc)?;
    for _round in 0..graph.len() {
        pass_once(graph, &mut all, is_back);
    }
    Ok(all)
}

#[test]
fn searches_find_what_slow_ones_do(rt: HostRuntime) -> Result<(), Fail> {
    let mut state = 1;
    for seed in 0..120 {
        let nodes = 1 + seed % 12;
        let edges = some_edges(rt.alloc(), &mut state, nodes)?;
        let graph = graph_of(rt.alloc(), nodes as usize, edges.as_slice())?;
        let marks = marks_of(rt.alloc(), nodes as usize, &mut state)?;
        let behind = leading(rt.alloc(), &graph, marks.as_slice())?;
        let slowly = slow(rt.alloc(), &graph, marks.as_slice(), true)?;
        assert_eq!(rt; behind.as_slice(), slowly.as_slice());
        let ahead = reached(rt.alloc(), &graph, marks.as_slice())?;
        let slowly = slow(rt.alloc(), &graph, marks.as_slice(), false)?;
        assert_eq!(rt; ahead.as_slice(), slowly.as_slice());
    }
    Ok(())
}
