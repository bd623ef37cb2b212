//! The strongly connected components of a graph, found one after another among the nodes that wait: the nodes on
//! cycles, the first node of each component, and an order of nodes in which a component mostly comes before what it
//! leads to.

ghost use Rattle.std.specs.Prelude.{◌≡◌, ◌<◌, ℕ, Contains, IfOk, OnOk, length};
ghost use Rattle.walk_core.specs.Components.{AreLabelled, IsLeastOf};

use super::component::{Place, find_component};
use super::edges::Edges;
use super::finish::{all_nodes, finishing_order};
use lattice_core::NoMemory;
use std::alloc::Allocator;

/// What is known of the components of a graph: the place of each node, the first node that each is together with, and
/// the nodes in the order in which they were found.
#[derive(Drop)]
pub struct Components<A: Allocator + Copy> {
    pub places: Vec<Place, A>,
    pub firsts: Vec<usize, A>,
    pub nodes: Vec<usize, A>,
}

impl<A: Allocator + Copy> Components<A> {
    ghost use Rattle.walk_core.specs.Components.{HasFound, HasFoundAll, WaitsNoLonger};

    /// The components of a graph. In the order of nodes that it takes, a search back finds a component alone, so it
    /// costs O(n + m) time and memory for n nodes and m edges.
    pub fn find(alloc: A, graph: &Edges<A>) -> Result<Components<A>, NoMemory>
        ensures { IfOk result (HasFoundAll graph.now) }
    {
        let mut order = finishing_order(alloc, graph)?;
        let mut components = Components::new(alloc, graph)?;
        while let Some(node) = order.pop() {
            components.settle(alloc, graph, node)?;
        }
        Ok(components)
    }

    /// Nothing is found yet: each node waits.
    fn new(alloc: A, graph: &Edges<A>) -> Result<Components<A>, NoMemory>
        ensures { IfOk result (HasFound graph.now) }
    {
        let places = vec![in alloc; Place::Waiting; graph.len()]?;
        let firsts = all_nodes(alloc, graph.len())?;
        let nodes = Vec::new(alloc);
        Ok(Components {
            places,
            firsts,
            nodes,
        })
    }

    /// Tells of a node that waits, and of all nodes of its component, whether they are on a cycle, and which is the
    /// first.
    fn settle(&mut self, alloc: A, graph: &Edges<A>, node: usize) -> Result<(), NoMemory>
        requires found { HasFound graph.now self.old }
        requires node { node < length graph.now }
        ensures found { OnOk result (HasFound graph.now self.new) }
        ensures waits_no_longer { OnOk result (WaitsNoLonger node self.old.places.items self.new.places.items) }
    {
        if self.places[node] != Place::Waiting {
            return Ok(());
        }
        let members = find_component(alloc, graph, &mut self.places, node)?;
        let first = least(members.as_slice(), node);
        label(&mut self.firsts, members.as_slice(), first);
        self.nodes.extend_from_slice(members.as_slice())?;
        if self.places[node] == Place::Waiting {
            self.nodes.push(node)?;
            self.places[node] = Place::OffCycle;
        }
        Ok(())
    }
}

/// The least of a node and some others.
fn least(others: &[usize], node: usize) -> usize
    ensures { IsLeastOf others.now node result }
{
    let mut least = node;
    for other in others {
        least = least.min(*other);
    }
    least
}

/// Gives each of the nodes a first node.
fn label<A: Allocator + Copy>(firsts: &mut Vec<usize, A>, nodes: &[usize], first: usize)
    requires { (x : ℕ) → Contains nodes.now x → x < length firsts.old.items }
    ensures { AreLabelled nodes.now first firsts.old.items firsts.new.items }
{
    for node in nodes {
        firsts[*node] = first;
    }
}
