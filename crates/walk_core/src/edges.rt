//! The edges of a directed graph over numbered nodes, listed at both of their ends.

ghost use Rattle.std.specs.Prelude.{◌≡◌, ◌↔◌, ◌<◌, ℕ, List, [], All, Contains, IfOk, OnOk, length, map, replicate};
ghost use Rattle.walk_core.specs.Digraphs.{AddsEdges, HasEdge, IsReversed, IsWithin, ends_of};

use lattice_core::NoMemory;
use std::alloc::Allocator;
use std::marker::Model;

/// The edges of a directed graph over the numbers of its nodes, from 0 on. Contracts see a row for each node: the ends
/// of its edges.
#[derive(Drop)]
pub struct Edges<A: Allocator> {
    ends: Vec<Vec<usize, A>, A>,
    namers: Vec<Vec<usize, A>, A>,
}

impl<A: Allocator> Model for Edges<A> {
    ghost use Rattle.std.specs.Prelude.{ℕ, List, map};
    ghost use Rattle.walk_core.specs.Digraphs.{IsReversed};

    ghost Value = { List (List ℕ) };

    ghost view = { λ graph. map (λ row. row.items) graph.ends.items };

    ghost invariant = { λ graph. IsReversed
        (map (λ row. row.items) graph.ends.items)
        (map (λ row. row.items) graph.namers.items) };
}

impl<A: Allocator + Copy> Edges<A> {
    /// The edges of nodes that have these ends of edges. It costs O(n + m) time and memory for n nodes and m edges.
    pub fn new(alloc: A, ends: Vec<Vec<usize, A>, A>) -> Result<Edges<A>, NoMemory>
        requires { IsWithin (map (λ row. row.items) ends.items) }
        ensures { IfOk result (λ graph. graph ≡ map (λ row. row.items) ends.items) }
    {
        let namers = turned_round(alloc, ends.as_slice())?;
        Ok(Edges { ends, namers })
    }

    /// How many nodes there are.
    pub fn len(&self) -> usize
        ensures { result ≡ length self.now }
    {
        self.ends.len()
    }

    /// The ends of a node's edges. Each is a node.
    pub fn ends(&self, node: usize) -> &[usize]
        requires { node < length self.now }
        ensures row { result.now ≡ ends_of self.now node }
        ensures within { All (λ end. end < length self.now) result.now }
    {
        self.ends[node].as_slice()
    }

    /// The nodes that have an edge to a node.
    pub fn namers(&self, node: usize) -> &[usize]
        requires { node < length self.now }
        ensures row { (namer : ℕ) → Contains result.now namer ↔ HasEdge self.now namer node }
        ensures within { All (λ namer. namer < length self.now) result.now }
    {
        self.namers[node].as_slice()
    }
}

/// The rows of the graph with each edge turned round: each lists the nodes that have an edge to its own, in their
/// order.
fn turned_round<A: Allocator + Copy>(
    alloc: A,
    ends: &[Vec<usize, A>],
) -> Result<Vec<Vec<usize, A>, A>, NoMemory>
    requires { IsWithin (map (λ row. row.items) ends.now) }
    ensures { IfOk result (λ namers. IsReversed
        (map (λ row. row.items) ends.now)
        (map (λ row. row.items) namers.items)) }
{
    let mut namers = empty_rows(alloc, ends.len())?;
    for (node, row) in ends.iter().enumerate() {
        name_ends(&mut namers, node, row.as_slice())?;
    }
    Ok(namers)
}

/// So many rows without an end.
pub(crate) fn empty_rows<A: Allocator + Copy>(
    alloc: A,
    count: usize,
) -> Result<Vec<Vec<usize, A>, A>, NoMemory>
    ensures { IfOk result (λ rows. map (λ row. row.items) rows.items ≡ replicate count []) }
{
    let mut rows = Vec::with_capacity(alloc, count)?;
    for _ in 0..count {
        rows.push(Vec::new(alloc))?;
    }
    Ok(rows)
}

/// Adds an edge from each of the ends to the node.
fn name_ends<A: Allocator + Copy>(
    namers: &mut Vec<Vec<usize, A>, A>,
    node: usize,
    ends: &[usize],
) -> Result<(), NoMemory>
    requires { All (λ end. end < length namers.old.items) ends.now }
    ensures { OnOk result (AddsEdges
        (map (λ row. row.items) namers.old.items)
        (λ x y. Contains ends.now x × (y ≡ node))
        (map (λ row. row.items) namers.new.items)) }
{
    for end in ends {
        add_edge(namers, *end, node)?;
    }
    Ok(())
}

/// Adds an edge to a graph, held as its rows.
pub(crate) fn add_edge<A: Allocator + Copy>(
    rows: &mut Vec<Vec<usize, A>, A>,
    from: usize,
    to: usize,
) -> Result<(), NoMemory>
    requires { from < length rows.old.items }
    ensures { OnOk result (AddsEdges
        (map (λ row. row.items) rows.old.items)
        (λ x y. (x ≡ from) × (y ≡ to))
        (map (λ row. row.items) rows.new.items)) }
{
    rows[from].push(to)?;
    Ok(())
}
