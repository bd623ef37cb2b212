//! Searches in which each allocation fails in turn: each failure is reported, and all memory is freed.

use super::cycles::flags_of;
use super::digraphs::graph_of;
use super::distances::distances_of;
use super::orders::order_of;
use lattice_core::NoMemory;
use linked_list_allocator::LocalHeap;
use refusing_memory::{Call, Refusing, Seen, requests};
use std::alloc::{Allocator, Global};
use walk_core::{leading, reached};

/// A cycle of three nodes, of which the last leads to another one.
const EDGES: [(usize, usize); 4] = [(0, 1), (1, 2), (2, 0), (2, 3)];

/// The node that the cycle leads to.
const LAST: [bool; 4] = [false, false, false, true];

/// A search in that graph, which is built for it.
#[derive(Clone, Copy)]
enum Search {
    Cycles,
    Distances,
    Order,
    Leading,
    Reached,
}

/// Whether the nodes on cycles are found; none where memory was refused.
fn has_cycles<A: Allocator + Copy>(alloc: A) -> Option<bool> {
    let found = flags_of(alloc, 4, &EDGES).ok()?;
    Some(found.as_slice() == [true, true, true, false].as_slice())
}

/// Whether the distances to the last node are found; none where memory was refused.
fn has_distances<A: Allocator + Copy>(alloc: A) -> Option<bool> {
    let found = distances_of(alloc, &EDGES, &LAST).ok()?;
    Some(found.as_slice() == [Some(3), Some(2), Some(1), Some(0)].as_slice())
}

/// Whether the nodes come in the order of their ranks; none where memory was refused.
fn has_order<A: Allocator + Copy>(alloc: A) -> Option<bool> {
    let found = order_of(alloc, 4, &EDGES).ok()?;
    Some(found.as_slice() == [3, 0, 1, 2].as_slice())
}

/// Which nodes lead to the last one.
fn leading_of<A: Allocator + Copy>(alloc: A) -> Result<Vec<bool, A>, NoMemory> {
    let graph = graph_of(alloc, 4, &EDGES)?;
    leading(alloc, &graph, &LAST)
}

/// Which nodes are reached from the last one.
fn reached_of<A: Allocator + Copy>(alloc: A) -> Result<Vec<bool, A>, NoMemory> {
    let graph = graph_of(alloc, 4, &EDGES)?;
    reached(alloc, &graph, &LAST)
}

/// Whether all nodes are found to lead to the last one; none where memory was refused.
fn has_leading<A: Allocator + Copy>(alloc: A) -> Option<bool> {
    Some(leading_of(alloc).ok()?.as_slice() == [true; 4].as_slice())
}

/// Whether the last node alone is found to be reached from it; none where memory was refused.
fn has_reached<A: Allocator + Copy>(alloc: A) -> Option<bool> {
    Some(reached_of(alloc).ok()?.as_slice() == LAST.as_slice())
}

/// Whether the search finds what it has to; none where memory was refused.
fn is_found<A: Allocator + Copy>(alloc: A, search: Search) -> Option<bool> {
    match search {
        Search::Cycles => has_cycles(alloc),
        Search::Distances => has_distances(alloc),
        Search::Order => has_order(alloc),
        Search::Leading => has_leading(alloc),
        Search::Reached => has_reached(alloc),
    }
}

impl Call for Search {
    fn seen(self, memory: &Refusing<Global>, granted: u32) -> Option<Seen> {
        let heap = Refusing::new(LocalHeap::new(*memory.inner(), 16_384).ok()?);
        heap.refuse_after(granted);
        let found = is_found(&heap, self);
        let refused = heap.grant_all();
        let is_free = heap.inner().used() == 0;
        Some(Seen {
            failed: found.is_none(),
            refused,
            stated: is_free && found != Some(false),
            whole: is_found(&heap, self) == Some(true),
        })
    }
}

#[test]
fn searches_are_whole_or_refused(rt: HostRuntime) {
    for search in [
        Search::Cycles,
        Search::Distances,
        Search::Order,
        Search::Leading,
        Search::Reached,
    ] {
        let requests = requests(rt.alloc(), search);
        assert!(rt; requests.is_some_and(|count| count >= 10));
    }
}
