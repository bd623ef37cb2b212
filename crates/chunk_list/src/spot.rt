//! Where in its chunks a list has an item.

ghost use Rattle.std.specs.Prelude.{◌≡◌, ◌<◌, ◌-◌, ◌++◌, drop, length, slice_get};
ghost use Rattle.std.specs.List.{All, flat_map};
ghost use Rattle.std.specs.List.Sorted.{IsPartitionedBy};
ghost use Rattle.std.specs.Option.{option_copied};
ghost use Rattle.chunk_list.specs.Ranks.{rank};
ghost use Rattle.chunk_list.specs.Chunks.{place_of, IsInside, last_passes};

use super::iter::{Iter, items_from};
use super::probe::Probe;
use std::alloc::Allocator;

/// Of how many items on the last is looked at first.
const MANY: usize = 16;

/// How many items pass, from the front on. It costs O(1) where all of many do, else O(log n) for n items.
pub(super) fn passing<T, P: Probe<T>>(items: &[T], probe: &P) -> usize
    requires { IsPartitionedBy (P.passes probe.now) items.now }
    ensures { result ≡ rank (P.passes probe.now) items.now }
{
    if items.len() >= MANY && last_passes(items, probe) {
        return items.len();
    }
    items.partition_point(|item| probe.passes(item))
}

/// The first item that doesn't pass, of a first chunk and the rest.
pub(super) fn first_failing_of<'a, T, A: Allocator, P: Probe<T>>(
    first: &'a [T],
    rest: &'a [Vec<T, A>],
    probe: &P,
) -> Option<&'a T>
    requires filled { All (λ chunk. 0 < length chunk.items) rest.now }
    requires parted { IsPartitionedBy (P.passes probe.now) (first.now ++ flat_map (λ chunk. chunk.items) rest.now) }
    ensures { let whole = first.now ++ flat_map (λ chunk. chunk.items) rest.now in
        option_copied result ≡ slice_get whole (rank (P.passes probe.now) whole) }
{
    let index = passing(first, probe);
    if index < first.len() {
        return first.get(index);
    }
    item_at(rest, first_failing(rest, probe))
}

/// The items from the first on that doesn't pass, of a first chunk and the rest.
pub(super) fn failing_of<'a, T, A: Allocator + Copy, P: Probe<T>>(
    first: &'a [T],
    rest: &'a [Vec<T, A>],
    probe: &P,
) -> Iter<'a, T, A>
    requires filled { All (λ chunk. 0 < length chunk.items) rest.now }
    requires parted { IsPartitionedBy (P.passes probe.now) (first.now ++ flat_map (λ chunk. chunk.items) rest.now) }
    ensures { let whole = first.now ++ flat_map (λ chunk. chunk.items) rest.now in
        result ≡ drop (rank (P.passes probe.now) whole) whole }
{
    let index = passing(first, probe);
    if index < first.len() {
        return Iter::all(items_from(first, index), rest);
    }
    Iter::from(rest, first_failing(rest, probe))
}

/// The last item of a first chunk and the rest.
pub(super) fn last_of<'a, T, A: Allocator>(first: &'a [T], rest: &'a [Vec<T, A>]) -> Option<&'a T>
    requires { All (λ chunk. 0 < length chunk.items) rest.now }
    ensures { let whole = first.now ++ flat_map (λ chunk. chunk.items) rest.now in
        option_copied result ≡ slice_get whole (length whole - 1) }
{
    match rest.last() {
        Some(chunk) => chunk.as_slice().last(),
        None => first.last(),
    }
}

/// A chunk, and an index in it.
#[derive(Clone, Copy)]
pub(super) struct Spot {
    pub(super) chunk: usize,
    pub(super) index: usize,
}

/// Where the first item is that doesn't pass: past all chunks where every item passes. It costs O(1) there, else O(log
/// n) for n items, by two binary searches: over the chunks' last items and over one chunk.
pub(super) fn first_failing<T, A: Allocator, P: Probe<T>>(chunks: &[Vec<T, A>], probe: &P) -> Spot
    requires filled { All (λ chunk. 0 < length chunk.items) chunks.now }
    requires parted { IsPartitionedBy (P.passes probe.now) (flat_map (λ chunk. chunk.items) chunks.now) }
    ensures rank { place_of (λ chunk. chunk.items) chunks.now result.chunk result.index
        ≡ rank (P.passes probe.now) (flat_map (λ chunk. chunk.items) chunks.now) }
    ensures inside { IsInside (λ chunk. chunk.items) chunks.now result.chunk result.index }
{
    if let Some(last) = chunks.last()
        && last_passes(last.as_slice(), probe)
    {
        return Spot {
            chunk: chunks.len(),
            index: 0,
        };
    }
    let chunk = chunks.partition_point(|chunk| last_passes(chunk.as_slice(), probe));
    match chunks.get(chunk) {
        Some(found) => {
            let index = found.as_slice().partition_point(|item| probe.passes(item));
            Spot { chunk, index }
        }
        None => Spot { chunk, index: 0 },
    }
}

/// The item at a spot.
pub(super) fn item_at<T, A: Allocator>(chunks: &[Vec<T, A>], spot: Spot) -> Option<&T>
    requires { IsInside (λ chunk. chunk.items) chunks.now spot.chunk spot.index }
    ensures { option_copied result ≡ slice_get (flat_map (λ chunk. chunk.items) chunks.now)
        (place_of (λ chunk. chunk.items) chunks.now spot.chunk spot.index) }
{
    let chunk = chunks.get(spot.chunk)?;
    chunk.as_slice().get(spot.index)
}

/// Whether the last of these items passes.
pub(super) fn last_passes<T, P: Probe<T>>(items: &[T], probe: &P) -> bool
    ensures { result ≡ last_passes (P.passes probe.now) items.now }
{
    match items.last() {
        Some(item) => probe.passes(item),
        None => false,
    }
}
