//! How many nodes each kept node leads to: counts that add up, and the others region by region in blocks of marks.

ghost use Rattle.std.specs.Prelude.{◌≡◌, ◌↔◌, ◌<◌, ℕ, Contains, IfOk, MatchBool, length, map, slice_index};
ghost use Rattle.std.specs.Ordering.{nat_cmp};
ghost use Rattle.std.specs.List.Sorted.{IsStrictlySortedBy};
ghost use Rattle.walk_core.specs.Components.{AreFirsts};
ghost use Rattle.walk_core.specs.Digraphs.{IsMarked, ends_of};
ghost use Rattle.walk_core.specs.Marks.{AreBare, AreCountsElsewhere, HoldEnds, LeadsToCount};
ghost use Rattle.walk_core.specs.Sums.{LacksSum, PutsSums};

use super::block::Marks;
use super::counts::count_targets;
use super::digraph::Digraph;
use super::regions::{grouped, region_labels};
use super::sums::lead_sums;
use lattice_core::NoMemory;
use std::alloc::Allocator;

/// How many of the kept nodes each of them leads to, at its first node. The nodes are to be in such an order that each
/// comes after what it leads to; in another order it takes more time. It costs O(n + m) for n nodes and m edges where
/// no cycle leads into two others, and else, in each region that has such a cycle, a walk over the region for each 512
/// of its nodes besides; and O(n) memory.
pub fn lead_counts<A: Allocator + Copy>(
    alloc: A,
    graph: &Digraph<A>,
    firsts: &[usize],
    kept: &[bool],
    nodes: &[usize],
    targets: &[usize],
) -> Result<Vec<usize, A>, NoMemory>
    requires firsts { AreFirsts graph.now firsts.now }
    requires kept { length kept.now ≡ length graph.now }
    requires nodes { HoldEnds graph.now nodes.now }
    requires are_kept { (x : ℕ) → Contains nodes.now x → IsMarked kept.now x }
    requires targets { (x : ℕ) → Contains targets.now x ↔ Contains nodes.now x }
    requires in_order { IsStrictlySortedBy nat_cmp targets.now }
    ensures { IfOk result (λ counts. (length counts.items ≡ length graph.now)
        × ((x : ℕ) → Contains nodes.now x
        → LeadsToCount graph.now targets.now x (slice_index counts.items (slice_index firsts.now x)))) }
{
    let sums = lead_sums(alloc, graph, firsts, nodes, targets)?;
    let mut counts = other_counts(alloc, graph, firsts, kept, nodes, targets, sums.as_slice())?;
    put_sums(sums.as_slice(), &mut counts);
    Ok(counts)
}

/// How many of the kept nodes each of them leads to, where there is no sum, at its first node: region by region in
/// blocks of marks.
fn other_counts<A: Allocator + Copy>(
    alloc: A,
    graph: &Digraph<A>,
    firsts: &[usize],
    kept: &[bool],
    nodes: &[usize],
    targets: &[usize],
    sums: &[Option<usize>],
) -> Result<Vec<usize, A>, NoMemory>
    requires firsts { AreFirsts graph.now firsts.now }
    requires kept { length kept.now ≡ length graph.now }
    requires nodes { HoldEnds graph.now nodes.now }
    requires are_kept { (x : ℕ) → Contains nodes.now x → IsMarked kept.now x }
    requires targets { (x : ℕ) → Contains targets.now x ↔ Contains nodes.now x }
    requires in_order { IsStrictlySortedBy nat_cmp targets.now }
    requires sums { length sums.now ≡ length graph.now }
    ensures { IfOk result (λ counts. (length counts.items ≡ length graph.now)
        × ((x : ℕ) → Contains nodes.now x → LacksSum firsts.now sums.now x
        → LeadsToCount graph.now targets.now x (slice_index counts.items (slice_index firsts.now x)))) }
{
    let mut counts = vec![in alloc; 0; graph.len()]?;
    if have_sums(firsts, sums, nodes) {
        return Ok(counts);
    }
    let labels = region_labels(alloc, graph, kept)?;
    let node_rows = grouped(alloc, labels.as_slice(), nodes)?;
    let target_rows = grouped(alloc, labels.as_slice(), targets)?;
    let mut rows = vec![in alloc; Marks::none(); graph.len()]?;
    for label in 0..graph.len() {
        let region = row_of(node_rows.as_slice(), label);
        let inside = row_of(target_rows.as_slice(), label);
        count_region(graph, firsts, sums, region, inside, &mut rows, &mut counts);
    }
    Ok(counts)
}

/// The nodes in the row of a label.
fn row_of<A: Allocator>(rows: &[Vec<usize, A>], label: usize) -> &[usize]
    requires { label < length rows.now }
    ensures { result.now ≡ ends_of (map (λ row. row.items) rows.now) label }
{
    rows[label].as_slice()
}

/// Counts the targets that each node of a region leads to, at its first node, unless each of them has a sum.
fn count_region<A: Allocator + Copy>(
    graph: &Digraph<A>,
    firsts: &[usize],
    sums: &[Option<usize>],
    region: &[usize],
    targets: &[usize],
    rows: &mut Vec<Marks, A>,
    counts: &mut Vec<usize, A>,
)
    requires firsts { AreFirsts graph.now firsts.now }
    requires sums { length sums.now ≡ length graph.now }
    requires region { HoldEnds graph.now region.now }
    requires targets { (target : ℕ) → Contains targets.now target → Contains region.now target }
    requires in_order { IsStrictlySortedBy nat_cmp targets.now }
    requires rows { length rows.old.items ≡ length graph.now }
    requires bare { AreBare rows.old.items }
    requires counts { length counts.old.items ≡ length graph.now }
    requires zero { (x : ℕ) → Contains region.now x → slice_index counts.old.items (slice_index firsts.now x) ≡ 0 }
    ensures rows { length rows.new.items ≡ length graph.now }
    ensures bare { AreBare rows.new.items }
    ensures counts { length counts.new.items ≡ length graph.now }
    ensures each { (x : ℕ) → Contains region.now x → LacksSum firsts.now sums.now x
        → LeadsToCount graph.now targets.now x (slice_index counts.new.items (slice_index firsts.now x)) }
    ensures elsewhere { AreCountsElsewhere firsts.now region.now counts.old.items counts.new.items }
{
    if have_sums(firsts, sums, region) {
        return;
    }
    count_targets(graph, firsts, region, targets, rows, counts);
}

/// Whether each of the nodes has a sum, at its first node.
fn have_sums(firsts: &[usize], sums: &[Option<usize>], nodes: &[usize]) -> bool
    requires nodes { (x : ℕ) → Contains nodes.now x → x < length firsts.now }
    requires firsts { (x : ℕ) → Contains nodes.now x → slice_index firsts.now x < length sums.now }
    ensures { MatchBool result
        ((x : ℕ) → Contains nodes.now x → ¬ LacksSum firsts.now sums.now x)
        ((x : ℕ) × Contains nodes.now x × LacksSum firsts.now sums.now x) }
{
    for node in nodes {
        if sums[firsts[*node]].is_none() {
            return false;
        }
    }
    true
}

/// Puts the sums that are there in place of the counts.
fn put_sums<A: Allocator + Copy>(sums: &[Option<usize>], counts: &mut Vec<usize, A>)
    requires { length sums.now ≡ length counts.old.items }
    ensures { PutsSums sums.now counts.old.items counts.new.items }
{
    for (node, sum) in sums.iter().enumerate() {
        let Some(sum) = sum else {
            continue;
        };
        counts[node] = *sum;
    }
}
