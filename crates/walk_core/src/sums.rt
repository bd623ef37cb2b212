//! Counts that add up: where a cycle leads into at most one other, it leads to its own nodes and to those that the
//! other leads to. Each cycle is named by its first node, and a node that is on none is one by itself.

ghost use Rattle.std.specs.Prelude.{◌≡◌, ◌≢◌, ◌↔◌, ◌⊎◌, ◌<◌, ℕ, Contains, IfOk, MatchBool, MatchOption, Some, length};
ghost use Rattle.std.specs.Prelude.{slice_index};
ghost use Rattle.std.specs.Option.{ForSome};
ghost use Rattle.std.specs.Ordering.{nat_cmp};
ghost use Rattle.std.specs.List.Sorted.{IsStrictlySortedBy};
ghost use Rattle.walk_core.specs.Components.{AreFirsts};
ghost use Rattle.walk_core.specs.Marks.{HoldEnds};
ghost use Rattle.walk_core.specs.Sums.{AreForks, AreNexts, AreSizes, AreSums, IsElsewhere, IsHereOrNext, IsWayOut};
ghost use Rattle.walk_core.specs.Sums.{sum_with};

use super::digraph::Digraph;
use lattice_core::NoMemory;
use std::alloc::Allocator;

/// How many of the targets each cycle leads to, where that adds up: where the cycle leads into no other, or into one
/// whose sum was there when its own nodes came. So no sum is missing where no cycle leads into two others and each of
/// the nodes comes after what it leads to. It costs O(n + m) time and memory for n nodes and m edges.
pub fn lead_sums<A: Allocator + Copy>(
    alloc: A,
    graph: &Digraph<A>,
    firsts: &[usize],
    nodes: &[usize],
    targets: &[usize],
) -> Result<Vec<Option<usize>, A>, NoMemory>
    requires firsts { AreFirsts graph.now firsts.now }
    requires nodes { HoldEnds graph.now nodes.now }
    requires targets { (x : ℕ) → Contains targets.now x ↔ Contains nodes.now x }
    requires in_order { IsStrictlySortedBy nat_cmp targets.now }
    ensures { IfOk result (λ sums. AreSums graph.now targets.now sums.items) }
{
    let nexts = next_cycles(alloc, graph, firsts, nodes)?;
    let forks = forks_of(alloc, graph, firsts, nodes, nexts.as_slice())?;
    let sizes = sizes_of(alloc, firsts, targets)?;
    let mut sums = vec![in alloc; None; graph.len()]?;
    for node in nodes {
        let first = firsts[*node];
        if forks[first] {
            continue;
        }
        sums[first] = sum_with(sizes[first], nexts[first], sums.as_slice());
    }
    Ok(sums)
}

/// The size of a cycle and the sum of the one that it leads into, if there is one.
fn sum_with(size: usize, next: Option<usize>, sums: &[Option<usize>]) -> Option<usize>
    requires { ForSome next (λ other. other < length sums.now) }
    ensures { result ≡ sum_with size sums.now next }
{
    let Some(other) = next else {
        return Some(size);
    };
    match sums[other] {
        None => None,
        Some(sum) => Some(sum.saturating_add(size)),
    }
}

/// Another cycle that each cycle of the nodes leads into, if there is one.
fn next_cycles<A: Allocator + Copy>(
    alloc: A,
    graph: &Digraph<A>,
    firsts: &[usize],
    nodes: &[usize],
) -> Result<Vec<Option<usize>, A>, NoMemory>
    requires firsts { AreFirsts graph.now firsts.now }
    requires nodes { (x : ℕ) → Contains nodes.now x → x < length graph.now }
    ensures { IfOk result (λ nexts. AreNexts graph.now firsts.now nexts.items) }
{
    let mut nexts = vec![in alloc; None; graph.len()]?;
    for node in nodes {
        let first = firsts[*node];
        let Some(next) = way_out(firsts, first, graph.ends(*node)) else {
            continue;
        };
        nexts[first] = Some(next);
    }
    Ok(nexts)
}

/// A cycle other than the one of a first node that holds one of the ends.
fn way_out(firsts: &[usize], first: usize, ends: &[usize]) -> Option<usize>
    requires { (x : ℕ) → Contains ends.now x → x < length firsts.now }
    ensures { MatchOption result
        ((x : ℕ) → Contains ends.now x → slice_index firsts.now x ≡ first)
        (IsWayOut firsts.now first ends.now) }
{
    for end in ends {
        let to = firsts[*end];
        if to != first {
            return Some(to);
        }
    }
    None
}

/// Which cycles of the nodes lead into one more than is assigned to them.
fn forks_of<A: Allocator + Copy>(
    alloc: A,
    graph: &Digraph<A>,
    firsts: &[usize],
    nodes: &[usize],
    nexts: &[Option<usize>],
) -> Result<Vec<bool, A>, NoMemory>
    requires firsts { AreFirsts graph.now firsts.now }
    requires nodes { (x : ℕ) → Contains nodes.now x → x < length graph.now }
    requires nexts { length nexts.now ≡ length graph.now }
    ensures { IfOk result (λ forks. AreForks graph.now firsts.now nexts.now nodes.now forks.items) }
{
    let mut forks = vec![in alloc; false; graph.len()]?;
    for node in nodes {
        let first = firsts[*node];
        if !leads_elsewhere(firsts, first, nexts[first], graph.ends(*node)) {
            continue;
        }
        forks[first] = true;
    }
    Ok(forks)
}

/// Whether one of the ends is neither on the cycle of a first node nor on the one that this leads into.
fn leads_elsewhere(firsts: &[usize], first: usize, next: Option<usize>, ends: &[usize]) -> bool
    requires { (x : ℕ) → Contains ends.now x → x < length firsts.now }
    ensures { MatchBool result
        ((x : ℕ) × Contains ends.now x × IsElsewhere firsts.now first next x)
        ((x : ℕ) → Contains ends.now x → IsHereOrNext firsts.now first next x) }
{
    for end in ends {
        if is_elsewhere(firsts[*end], first, next) {
            return true;
        }
    }
    false
}

/// Whether a first node is neither this one nor the next.
fn is_elsewhere(to: usize, first: usize, next: Option<usize>) -> bool
    ensures { MatchBool result ((to ≢ first) × (next ≢ Some to)) ((to ≡ first) ⊎ (next ≡ Some to)) }
{
    to != first && next != Some(to)
}

/// How many of the nodes are on each cycle.
fn sizes_of<A: Allocator + Copy>(
    alloc: A,
    firsts: &[usize],
    nodes: &[usize],
) -> Result<Vec<usize, A>, NoMemory>
    requires nodes { (x : ℕ) → Contains nodes.now x → x < length firsts.now }
    requires firsts { (x : ℕ) → Contains nodes.now x → slice_index firsts.now x < length firsts.now }
    requires in_order { IsStrictlySortedBy nat_cmp nodes.now }
    ensures { IfOk result
        (λ sizes. (length sizes.items ≡ length firsts.now) × AreSizes firsts.now nodes.now sizes.items) }
{
    let mut sizes = vec![in alloc; 0; firsts.len()]?;
    for node in nodes {
        let first = firsts[*node];
        sizes[first] += 1;
    }
    Ok(sizes)
}
