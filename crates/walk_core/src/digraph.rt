//! A directed graph over numbered nodes, and what is found in it.

ghost use Rattle.std.specs.Prelude.{◌≡◌, ◌↔◌, ◌<◌, ℕ, All, Contains, IfOk, length, map};
ghost use Rattle.walk_core.specs.Components.{AreFirsts, HasFoundAll, is_on_cycle};
ghost use Rattle.walk_core.specs.Digraphs.{AreOnCycles, HasEdge, IsWithin, ends_of};

use super::component::Place;
use super::cycles::Components;
use super::edges::Edges;
use lattice_core::NoMemory;
use std::alloc::{Allocator, Global};
use std::marker::Model;

/// A directed graph over the numbers of its nodes, from 0 on. Contracts see a row for each node: the ends of its edges.
#[derive(Drop)]
pub struct Digraph<A: Allocator + Copy = Global> {
    edges: Edges<A>,
    components: Components<A>,
    pub(super) alloc: A,
}

impl<A: Allocator + Copy> Model for Digraph<A> {
    ghost use Rattle.std.specs.Prelude.{ℕ, List};
    ghost use Rattle.walk_core.specs.Components.{HasFoundAll};

    ghost Value = { List (List ℕ) };

    ghost view = { λ graph. graph.edges };

    ghost invariant = { λ graph. HasFoundAll graph.edges graph.components };
}

impl<A: Allocator + Copy> Digraph<A> {
    /// The graph whose nodes have these ends of edges. Its cycles are found here, once. It costs O(n + m) time and memory
    /// for n nodes and m edges.
    pub fn new(alloc: A, ends: Vec<Vec<usize, A>, A>) -> Result<Digraph<A>, NoMemory>
        requires { IsWithin (map (λ row. row.items) ends.items) }
        ensures { IfOk result (λ graph. graph ≡ map (λ row. row.items) ends.items) }
    {
        let edges = Edges::new(alloc, ends)?;
        let components = Components::find(alloc, &edges)?;
        Ok(Digraph {
            edges,
            components,
            alloc,
        })
    }

    /// How many nodes there are.
    pub fn len(&self) -> usize
        ensures { result ≡ length self.now }
    {
        self.edges.len()
    }

    /// The ends of a node's edges. Each is a node.
    pub fn ends(&self, node: usize) -> &[usize]
        requires { node < length self.now }
        ensures row { result.now ≡ ends_of self.now node }
        ensures within { All (λ end. end < length self.now) result.now }
    {
        self.edges.ends(node)
    }

    /// The nodes that have an edge to a node.
    pub fn namers(&self, node: usize) -> &[usize]
        requires { node < length self.now }
        ensures row { (namer : ℕ) → Contains result.now namer ↔ HasEdge self.now namer node }
        ensures within { All (λ namer. namer < length self.now) result.now }
    {
        self.edges.namers(node)
    }

    /// What was found of the graph's components.
    pub(super) fn components(&self) -> &Components<A>
        ensures { HasFoundAll self.now result.now }
    {
        &self.components
    }

    /// Which nodes are on a cycle. It costs O(n) time and memory for n nodes.
    pub fn on_cycles(&self) -> Result<Vec<bool, A>, NoMemory>
        ensures { IfOk result (λ marked. AreOnCycles self.now marked.items) }
    {
        flags_of(self.alloc, self.components().places.as_slice())
    }

    /// Of each node the least of its cycle, or itself where it is on none: the least of the nodes that lead to it and
    /// that it leads to, over some edges or none.
    pub fn firsts(&self) -> &[usize]
        ensures { AreFirsts self.now result.now }
    {
        self.components().firsts.as_slice()
    }
}

/// Which nodes are known to be on a cycle.
fn flags_of<A: Allocator + Copy>(alloc: A, places: &[Place]) -> Result<Vec<bool, A>, NoMemory>
    ensures { IfOk result (λ flags. flags.items ≡ map is_on_cycle places.now) }
{
    let flags = places
        .iter()
        .map(|place| place.is_on_cycle())
        .collect(alloc)?;
    Ok(flags)
}
