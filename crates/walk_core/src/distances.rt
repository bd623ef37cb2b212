//! Distances over a graph, found by levels: first the marked nodes, then the nodes that have an edge to one of those,
//! and so on.

ghost use Rattle.std.specs.Prelude.{◌≡◌, ◌<◌, All, Contains, IfOk, None, OnOk, [], length, replicate};
ghost use Rattle.walk_core.specs.Digraphs.{AreDistances, IsMarked};
ghost use Rattle.walk_core.specs.Levels.{LeadsInto, SearchReaches};

use super::digraph::Digraph;
use lattice_core::NoMemory;
use std::alloc::{Allocator, Global};
use std::mem;

/// How far a search has come: the distance of each node that it has reached, and the nodes of its last level.
#[derive(Drop)]
struct Search<A: Allocator + Copy = Global> {
    distances: Vec<Option<usize>, A>,
    level: Vec<usize, A>,
}

impl<A: Allocator + Copy> Search<A> {
    /// A search that has reached none of so many nodes.
    fn new(alloc: A, nodes: usize) -> Result<Search<A>, NoMemory>
        ensures { IfOk result (λ search.
            (search.distances.items ≡ replicate nodes None) × (search.level.items ≡ [])) }
    {
        let distances = vec![in alloc; None; nodes]?;
        let level = Vec::new(alloc);
        Ok(Search { distances, level })
    }

    /// Puts the node into the last level, at this distance, where it wasn't reached before.
    fn reach(&mut self, node: usize, distance: usize) -> Result<(), NoMemory>
        requires { node < length self.old.distances.items }
        ensures { OnOk result (SearchReaches (λ x. x ≡ node) distance self.old self.new) }
    {
        if self.distances[node].is_some() {
            return Ok(());
        }
        self.level.push(node)?;
        self.distances[node] = Some(distance);
        Ok(())
    }

    /// Puts those of the nodes into the last level that weren't reached before.
    fn reach_all(&mut self, nodes: &[usize], distance: usize) -> Result<(), NoMemory>
        requires { All (λ node. node < length self.old.distances.items) nodes.now }
        ensures { OnOk result (SearchReaches (Contains nodes.now) distance self.old self.new) }
    {
        for node in nodes {
            self.reach(*node, distance)?;
        }
        Ok(())
    }

    /// Puts the marked nodes into the last level, at the distance 0.
    fn reach_marked(&mut self, marked: &[bool]) -> Result<(), NoMemory>
        requires { length marked.now ≡ length self.old.distances.items }
        ensures { OnOk result (SearchReaches (IsMarked marked.now) 0 self.old self.new) }
    {
        for (node, is_marked) in marked.iter().enumerate() {
            if !*is_marked {
                continue;
            }
            self.reach(node, 0)?;
        }
        Ok(())
    }

    /// Puts into the last level what has an edge to one of the nodes and wasn't reached before.
    fn reach_namers(
        &mut self,
        graph: &Digraph<A>,
        nodes: &[usize],
        distance: usize,
    ) -> Result<(), NoMemory>
        requires sized { length self.old.distances.items ≡ length graph.now }
        requires within { All (λ node. node < length graph.now) nodes.now }
        ensures { OnOk result (SearchReaches (LeadsInto graph.now nodes.now) distance self.old self.new) }
    {
        for node in nodes {
            self.reach_all(graph.namers(*node), distance)?;
        }
        Ok(())
    }
}

impl<A: Allocator + Copy> Digraph<A> {
    /// How many edges the shortest walk has from each node to a marked one, or none where no walk leads to one: a
    /// search by levels from the marked nodes over the edges turned round. It costs O(n + m) time and memory for n
    /// nodes and m edges.
    pub fn distances(&self, marked: &[bool]) -> Result<Vec<Option<usize>, A>, NoMemory>
        requires { length marked.now ≡ length self.now }
        ensures { IfOk result (λ distances. AreDistances self.now marked.now distances.items) }
    {
        let alloc = self.alloc;
        let mut search = Search::new(alloc, self.len())?;
        search.reach_marked(marked)?;
        let mut distance = 0;
        while !search.level.is_empty() {
            let level = mem::replace(&mut search.level, Vec::new(alloc));
            distance += 1;
            search.reach_namers(self, level.as_slice(), distance)?;
        }
        Ok(search.distances)
    }
}
