//! The order of nodes by rank: by how many nodes a node leads to, then by the first node that it is together with, then
//! by itself.

ghost use Rattle.std.specs.Prelude.{◌≡◌, ◌↔◌, ◌<◌, ℕ, Contains, IfOk, length, map, slice_index};
ghost use Rattle.std.specs.Ordering.{nat_cmp};
ghost use Rattle.std.specs.List.Sorted.{IsStrictlySortedBy};
ghost use Rattle.walk_core.specs.Digraphs.{HasEdge, IsMarked};
ghost use Rattle.walk_core.specs.Ranks.{AreRanksInOrder, IsInRankOrder};
ghost use Rattle.walk_core.specs.NodeRanks.{node_rank, to_rank};

use super::digraph::Digraph;
use super::leads::lead_counts;
use lattice_core::NoMemory;
use std::alloc::Allocator;

/// What nodes are ordered by, in this order.
#[derive(Clone, Copy, Debug, PartialEq, Eq, PartialOrd, Ord)]
pub struct NodeRank {
    /// How many nodes the node leads to, itself among them.
    pub count: usize,
    /// The first of its cycle, or the node itself where it is on none.
    pub first: usize,
    /// The node.
    pub node: usize,
}

impl<A: Allocator + Copy> Digraph<A> {
    /// The kept nodes, which hold the ends of their edges, in rank order: by how many nodes each leads to, itself among
    /// them, so that each comes after what it leads to; the nodes of a cycle, which lead to the same nodes, are side by
    /// side, by the first of them. With n nodes and m edges it costs O(n log n + m) where no cycle of kept nodes leads
    /// into two others (a node on no cycle is one by itself). Else each region that has such a cycle, where a region is
    /// what edges between kept nodes join in either direction, takes a walk over itself for each 512 of its nodes
    /// besides. It takes O(n + m) memory.
    pub fn in_rank_order(&self, kept: &[bool]) -> Result<Vec<usize, A>, NoMemory>
        requires sized { length kept.now ≡ length self.now }
        requires closed { (x y : ℕ) → IsMarked kept.now x → HasEdge self.now x y → IsMarked kept.now y }
        ensures { IfOk result (λ nodes. IsInRankOrder nat_cmp (HasEdge self.now) (IsMarked kept.now) nodes.items) }
    {
        let ranks = self.ranks(kept)?;
        nodes_of(self.alloc, ranks.as_slice())
    }

    /// The ranks of the kept nodes, which hold the ends of their edges, in order, as `in_rank_order` has the nodes, and
    /// at its cost.
    pub fn ranks(&self, kept: &[bool]) -> Result<Vec<NodeRank, A>, NoMemory>
        requires sized { length kept.now ≡ length self.now }
        requires closed { (x y : ℕ) → IsMarked kept.now x → HasEdge self.now x y → IsMarked kept.now y }
        ensures { IfOk result (λ ranks. AreRanksInOrder nat_cmp (HasEdge self.now) (IsMarked kept.now)
            (map to_rank ranks.items)) }
    {
        let components = self.components();
        let firsts = components.firsts.as_slice();
        let targets = kept_numbers(self.alloc, kept)?;
        let nodes = kept_from_last(self.alloc, components.nodes.as_slice(), kept)?;
        let counts = lead_counts(
            self.alloc,
            self,
            firsts,
            kept,
            nodes.as_slice(),
            targets.as_slice(),
        )?;
        let mut ranks = ranks_of(self.alloc, firsts, counts.as_slice(), targets.as_slice())?;
        ranks.sort_unstable();
        Ok(ranks)
    }
}

/// The kept nodes, in order.
fn kept_numbers<A: Allocator + Copy>(alloc: A, kept: &[bool]) -> Result<Vec<usize, A>, NoMemory>
    ensures just { IfOk result (λ nodes. (x : ℕ) → Contains nodes.items x ↔ IsMarked kept.now x) }
    ensures in_order { IfOk result (λ nodes. IsStrictlySortedBy nat_cmp nodes.items) }
{
    let mut nodes = Vec::new(alloc);
    for node in 0..kept.len() {
        if !kept[node] {
            continue;
        }
        nodes.push(node)?;
    }
    Ok(nodes)
}

/// Those of the nodes that are kept, from the last on.
fn kept_from_last<A: Allocator + Copy>(
    alloc: A,
    nodes: &[usize],
    kept: &[bool],
) -> Result<Vec<usize, A>, NoMemory>
    requires { (x : ℕ) → Contains nodes.now x ↔ x < length kept.now }
    ensures { IfOk result (λ found. (x : ℕ) → Contains found.items x ↔ IsMarked kept.now x) }
{
    let mut found = Vec::new(alloc);
    let mut left = nodes.len();
    while left > 0 {
        left -= 1;
        if !kept[nodes[left]] {
            continue;
        }
        found.push(nodes[left])?;
    }
    Ok(found)
}

/// The ranks of the nodes, whose counts are at their first nodes.
fn ranks_of<A: Allocator + Copy>(
    alloc: A,
    firsts: &[usize],
    counts: &[usize],
    nodes: &[usize],
) -> Result<Vec<NodeRank, A>, NoMemory>
    requires firsts { (x : ℕ) → Contains nodes.now x → x < length firsts.now }
    requires counts { (x : ℕ) → Contains nodes.now x → slice_index firsts.now x < length counts.now }
    ensures { IfOk result (λ ranks. ranks.items ≡ map (node_rank firsts.now counts.now) nodes.now) }
{
    let mut ranks = Vec::new(alloc);
    for node in nodes {
        let first = firsts[*node];
        ranks.push(NodeRank {
            count: counts[first],
            first,
            node: *node,
        })?;
    }
    Ok(ranks)
}

/// The nodes of some ranks.
fn nodes_of<A: Allocator + Copy>(alloc: A, ranks: &[NodeRank]) -> Result<Vec<usize, A>, NoMemory>
    ensures { IfOk result (λ nodes. nodes.items ≡ map (λ rank. rank.node) ranks.now) }
{
    let nodes = ranks.iter().map(|rank| rank.node).collect(alloc)?;
    Ok(nodes)
}
