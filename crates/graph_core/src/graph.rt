//! The items of a state with what they wait for.

ghost use Rattle.std.specs.Prelude.{◌≡◌, ◌<◌, ℕ, Bool, IfOk, Contains, length};
ghost use Rattle.walk_core.specs.Digraphs.{ends_of};
ghost use Rattle.graph_core.specs.ItemGraph.{AreItems, ArePart, IsGraphOf, StandsAt, namers_of};

use super::items::{items_of, place_of};
use super::namers::Namers;
use super::targets::{all_ends, all_targets};
use gate_rules::Gate;
use lattice_core::NoMemory;
use state_core::{Item, State};
use std::alloc::Global;
use std::marker::Model;
use walk_core::Digraph;

/// Items of a state, all or a part, with what they wait for under a gate. Contracts see lists side by side: the items,
/// and with each the changes that it waits for, the places of their current items, and whether it is on a cycle.
#[derive(Drop)]
pub struct Graph {
    items: Vec<Item>,
    targets: Vec<Vec<u32>>,
    digraph: Digraph,
    on_cycle: Vec<bool>,
}

impl Model for Graph {
    ghost use Rattle.std.specs.Prelude.{map};
    ghost use Rattle.graph_core.specs.ItemGraph.{ItemGraph};
    ghost use Rattle.graph_core.specs.Kept.{KeepsGraph};

    ghost Value = { ItemGraph };

    ghost view = { λ graph. record {
      items = graph.items.items;
      targets = map (λ row. row.items) graph.targets.items;
      ends = graph.digraph;
      on_cycle = graph.on_cycle.items;
    } };

    ghost invariant = { λ graph. KeepsGraph graph.items.items (map (λ row. row.items) graph.targets.items) graph.digraph
        graph.on_cycle.items };
}

impl Graph {
    /// The graph of all items of a state under a gate. It costs O(b + n log n) time and O(n) memory for b bytes of
    /// messages and n items with what they wait for.
    pub fn build(alloc: Global, state: &State, gate: &Gate) -> Result<Graph, NoMemory>
        ensures graph { IfOk result (IsGraphOf gate.now state.now) }
        ensures whole { IfOk result (λ graph. AreItems state.now graph.items) }
    {
        let items = items_of(alloc, state)?;
        let graph = Graph::of_part(alloc, state, gate, items)?;
        Ok(graph)
    }

    /// The graph of a part of a state's items, in order, which holds the current item of each known change that one of
    /// them waits for. What it says of these items is what the graph of all items says. It costs O(b + n log m) time
    /// and O(n) memory for b bytes of their messages and n of them with what they wait for, in a state of m items.
    pub fn of_part(
        alloc: Global,
        state: &State,
        gate: &Gate,
        items: Vec<Item>,
    ) -> Result<Graph, NoMemory>
        requires { ArePart gate.now state.now items.items }
        ensures graph { IfOk result (IsGraphOf gate.now state.now) }
        ensures items { IfOk result (λ graph. graph.items ≡ items.items) }
    {
        let targets = all_targets(alloc, gate, state, items.as_slice())?;
        let ends = all_ends(alloc, items.as_slice(), targets.as_slice())?;
        let digraph = Digraph::new(alloc, ends)?;
        let on_cycle = digraph.on_cycles()?;
        Ok(Graph {
            items,
            targets,
            digraph,
            on_cycle,
        })
    }

    /// The items, in order. This and the calls below take no memory.
    pub fn items(&self) -> &[Item]
        ensures { result.now ≡ self.now.items }
    {
        &self.items
    }

    /// The changes that an item waits for, in order, each once. It costs O(log n) for n items.
    pub fn targets(&self, item: Item) -> &[u32]
        requires { Contains self.now.items item }
        ensures { StandsAt self.now.items self.now.targets item result.now }
    {
        self.targets_at(place_of(self.items.as_slice(), item))
    }

    /// The items that wait for a change, in order. It costs O(m) for m changes that items wait for, all together.
    pub fn namers(&self, change: u32) -> Namers<'_>
        ensures { result ≡ namers_of self.now.items self.now.targets change }
    {
        Namers::among(&self.items, &self.targets, change)
    }

    /// Whether an item is on a cycle. It costs O(log n) for n items.
    pub fn on_cycle(&self, item: Item) -> bool
        requires { Contains self.now.items item }
        ensures { StandsAt self.now.items self.now.on_cycle item result }
    {
        self.on_cycle[place_of(self.items.as_slice(), item)]
    }

    /// The changes that the item at a place waits for, in order, each once.
    pub fn targets_at(&self, place: usize) -> &[u32]
        requires { place < length self.now.items }
        ensures { result.now ≡ ends_of self.now.targets place }
    {
        self.targets[place].as_slice()
    }

    /// The graph over places: an edge leads from an item's place to that of the current item of each change that it
    /// waits for, where one is known.
    pub fn digraph(&self) -> &Digraph
        ensures nodes { length self.now.ends ≡ length self.now.items }
        ensures ends { result.now ≡ self.now.ends }
    {
        &self.digraph
    }

    /// Which places have an item on a cycle.
    pub fn on_cycles(&self) -> &[bool]
        ensures places { length self.now.on_cycle ≡ length self.now.items }
        ensures flags { result.now ≡ self.now.on_cycle }
    {
        &self.on_cycle
    }
}
