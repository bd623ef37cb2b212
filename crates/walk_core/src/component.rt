//! The strongly connected component of a node: of the nodes that lead to it, those that it leads to. A search back from
//! the node finds the first, and a search forth over these finds the second. Both go one edge or more, so they find
//! nothing of a node that is on no cycle.

ghost use Rattle.std.specs.Prelude.{◌≡◌, ◌↔◌, ◌<◌, ℕ, All, Contains, IfOk, OnOk, length};
ghost use Rattle.walk_core.specs.Components.{AreConnected, AreReleased, AreSettled, HasComponent, HasSpread, IsStep};
ghost use Rattle.walk_core.specs.Components.{found_place, is_on_cycle, place_of, sought_place};
ghost use Rattle.walk_core.specs.declared.component.Place.TheVariants.{Waiting};

use super::edges::Edges;
use lattice_core::NoMemory;
use std::alloc::Allocator;

/// What is known of a node.
#[derive(Clone, Copy, PartialEq, Eq)]
pub enum Place {
    /// Its component is still to be found.
    Waiting,

    /// Its component is still to be found, and it leads to the node whose component is sought now.
    Behind,

    OnCycle,
    OffCycle,
}

impl Place {
    /// Whether the node is known to be on a cycle.
    pub fn is_on_cycle(&self) -> bool
        ensures { result ≡ is_on_cycle self.now }
    {
        match self {
            Place::OnCycle => true,
            _ => false,
        }
    }
}

/// The way of a search: back along the edges over nodes that wait, or forth along them over those that were found so.
#[derive(Clone, Copy)]
pub enum Way {
    Back,
    Forth,
}

impl Way {
    /// The place of the nodes that a search goes to.
    fn sought(self) -> Place
        ensures { result ≡ sought_place self }
    {
        match self {
            Way::Back => Place::Waiting,
            Way::Forth => Place::Behind,
        }
    }

    /// The place that it leaves them.
    fn found(self) -> Place
        ensures { result ≡ found_place self }
    {
        match self {
            Way::Back => Place::Behind,
            Way::Forth => Place::OnCycle,
        }
    }

    /// The nodes that are one step from a node.
    fn steps<A: Allocator + Copy>(self, graph: &Edges<A>, node: usize) -> &[usize]
        requires { node < length graph.now }
        ensures row { (next : ℕ) → Contains result.now next ↔ IsStep graph.now self node next }
        ensures within { All (λ next. next < length graph.now) result.now }
    {
        match self {
            Way::Back => graph.namers(node),
            Way::Forth => graph.ends(node),
        }
    }
}

/// Places all nodes that a waiting node is on a cycle with, and answers them. A node that is on none is left as it is.
pub fn find_component<A: Allocator + Copy>(
    alloc: A,
    graph: &Edges<A>,
    places: &mut Vec<Place, A>,
    node: usize,
) -> Result<Vec<usize, A>, NoMemory>
    requires settled { AreSettled graph.now places.old.items }
    requires node { node < length graph.now }
    requires waits { place_of places.old.items node ≡ Waiting }
    ensures places { OnOk result (HasComponent graph.now node places.old.items places.new.items) }
    ensures members { IfOk result (λ members. (x : ℕ) → Contains members.items x ↔ AreConnected graph.now node x) }
{
    let behind = spread(alloc, graph, places, Way::Back, node)?;
    let members = spread(alloc, graph, places, Way::Forth, node)?;
    release(places, behind.as_slice());
    Ok(members)
}

/// Goes one step or more from a node, as far as sought nodes lead, and answers the nodes that it found. It costs O(n +
/// m) time and memory for these n nodes and the m steps from them.
fn spread<A: Allocator + Copy>(
    alloc: A,
    graph: &Edges<A>,
    places: &mut Vec<Place, A>,
    way: Way,
    start: usize,
) -> Result<Vec<usize, A>, NoMemory>
    requires nodes { length places.old.items ≡ length graph.now }
    requires start { start < length graph.now }
    ensures { IfOk result (λ found.
        HasSpread (IsStep graph.now way) (sought_place way)
        (found_place way) start places.old.items places.new.items found.items) }
{
    let mut found = Vec::new(alloc);
    let mut ahead = Vec::from_slice(alloc, way.steps(graph, start))?;
    while let Some(node) = ahead.pop() {
        if places[node] == way.sought() {
            places[node] = way.found();
            found.push(node)?;
            ahead.extend_from_slice(way.steps(graph, node))?;
        }
    }
    Ok(found)
}

/// Lets those of the nodes wait again that lead to the node whose component was sought, and aren't in it.
fn release<A: Allocator + Copy>(places: &mut Vec<Place, A>, nodes: &[usize])
    requires { (x : ℕ) → Contains nodes.now x → x < length places.old.items }
    ensures { AreReleased nodes.now places.old.items places.new.items }
{
    for node in nodes {
        if places[*node] == Place::Behind {
            places[*node] = Place::Waiting;
        }
    }
}
