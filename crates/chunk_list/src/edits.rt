//! How a list in chunks changes.

ghost use Rattle.std.specs.Prelude.{◌≡◌, ◌<◌, ◌≤◌, ◌++◌, ◌∷◌, [], length, slice_get, slice_index_or, slice_set, OnOk};
ghost use Rattle.std.specs.Prelude.{◌⊎◌, OnErr, IfOk, Some, true, false};
ghost use Rattle.std.specs.List.{All, flat_map, insert, remove};
ghost use Rattle.std.specs.List.Sorted.{IsPartitionedBy};
ghost use Rattle.chunk_list.specs.Ranks.{rank};
ghost use Rattle.chunk_list.specs.Chunks.{place_of, IsInside, is_some_passing};
ghost use Rattle.chunk_list.specs.Merged.{IsMerged};

use super::entry::Entry;
use super::probe::Probe;
use super::spot::{Spot, first_failing, first_failing_of, passing};
use lattice_core::NoMemory;
use std::alloc::Allocator;
use std::mem;

/// How many items a chunk has at most.
const MOST: usize = 512;

/// How many items a chunk has room for at first.
const FEW: usize = 2;

/// Adds an item after all others. Where memory is refused nothing changes.
pub(super) fn add_last<T: Drop, A: Allocator + Copy>(
    chunks: &mut Vec<Vec<T, A>, A>,
    alloc: A,
    item: T,
) -> Result<(), NoMemory>
    requires { All (λ chunk. 0 < length chunk.items) chunks.old.items }
    ensures filled { All (λ chunk. 0 < length chunk.items) chunks.new.items }
    ensures ok { OnOk result (flat_map (λ chunk. chunk.items) chunks.new.items
        ≡ flat_map (λ chunk. chunk.items) chunks.old.items ++ item ∷ []) }
    ensures err { OnErr result
        (flat_map (λ chunk. chunk.items) chunks.new.items ≡ flat_map (λ chunk. chunk.items) chunks.old.items) }
{
    let last = chunks.len().saturating_sub(1);
    if has_room(chunks.as_slice(), last) {
        return add_to(&mut chunks[last], item);
    }
    let mut chunk = Vec::new(alloc);
    add_to(&mut chunk, item)?;
    chunks.push(chunk)?;
    Ok(())
}

/// Adds an item after all others of a first chunk and the rest. Where memory is refused nothing changes.
pub(super) fn append<T: Drop, A: Allocator + Copy>(
    first: &mut Vec<T, A>,
    rest: &mut Vec<Vec<T, A>, A>,
    alloc: A,
    item: T,
) -> Result<(), NoMemory>
    requires { All (λ chunk. 0 < length chunk.items) rest.old.items }
    ensures filled { All (λ chunk. 0 < length chunk.items) rest.new.items }
    ensures ok { OnOk result (first.new.items ++ flat_map (λ chunk. chunk.items) rest.new.items
        ≡ first.old.items ++ flat_map (λ chunk. chunk.items) rest.old.items ++ item ∷ []) }
    ensures err { OnErr result (first.new.items ++ flat_map (λ chunk. chunk.items) rest.new.items
        ≡ first.old.items ++ flat_map (λ chunk. chunk.items) rest.old.items) }
{
    if rest.is_empty() && first.len() < MOST {
        return add_to(first, item);
    }
    add_last(rest, alloc, item)
}

/// Makes room for the first items of a chunk, just for as many as a list of few has: `Vec` would take it for four.
fn make_room<T, A: Allocator>(chunk: &mut Vec<T, A>) -> Result<(), NoMemory>
    ensures { chunk.new.items ≡ chunk.old.items }
{
    if chunk.is_empty() {
        chunk.reserve_exact(FEW)?;
    }
    Ok(())
}

/// Adds an item at the end of a chunk.
fn add_to<T: Drop, A: Allocator + Copy>(chunk: &mut Vec<T, A>, item: T) -> Result<(), NoMemory>
    ensures ok { OnOk result (chunk.new.items ≡ chunk.old.items ++ item ∷ []) }
    ensures err { OnErr result (chunk.new.items ≡ chunk.old.items) }
{
    make_room(chunk)?;
    chunk.push(item)?;
    Ok(())
}

/// Adds an item at an index of a chunk.
fn add_at<T: Drop, A: Allocator + Copy>(
    chunk: &mut Vec<T, A>,
    index: usize,
    item: T,
) -> Result<(), NoMemory>
    requires { index ≤ length chunk.old.items }
    ensures ok { OnOk result (chunk.new.items ≡ insert chunk.old.items index item) }
    ensures err { OnErr result (chunk.new.items ≡ chunk.old.items) }
{
    make_room(chunk)?;
    chunk.insert(index, item)?;
    Ok(())
}

/// Whether there is a chunk at this index, and another item fits into it.
fn has_room<T, A: Allocator>(chunks: &[Vec<T, A>], index: usize) -> bool
    ensures { result ≡ true → index < length chunks.now }
{
    match chunks.get(index) {
        Some(chunk) => chunk.len() < MOST,
        None => false,
    }
}

/// Whether there is a chunk at this index, and no other item fits into it.
fn is_full<T, A: Allocator>(chunks: &[Vec<T, A>], index: usize) -> bool
    ensures inside { result ≡ true → index < length chunks.now }
    ensures full { result ≡ true → (d : _) → MOST ≤ length (slice_index_or chunks.now index d).items }
{
    match chunks.get(index) {
        Some(chunk) => chunk.len() >= MOST,
        None => false,
    }
}

/// Adds an item before the first that doesn't pass. Where memory is refused nothing changes.
pub(super) fn add_before<T: Drop, A: Allocator + Copy, P: Probe<T>>(
    first: &mut Vec<T, A>,
    rest: &mut Vec<Vec<T, A>, A>,
    alloc: A,
    probe: &P,
    item: T,
) -> Result<(), NoMemory>
    requires filled { All (λ chunk. 0 < length chunk.items) rest.old.items }
    requires parted { IsPartitionedBy (P.passes probe.now) (first.old.items ++ flat_map (λ chunk. chunk.items) rest.old.items) }
    ensures filled { All (λ chunk. 0 < length chunk.items) rest.new.items }
    ensures ok { let whole = first.old.items ++ flat_map (λ chunk. chunk.items) rest.old.items in
        OnOk result (first.new.items ++ flat_map (λ chunk. chunk.items) rest.new.items
        ≡ insert whole (rank (P.passes probe.now) whole) item) }
    ensures err { OnErr result (first.new.items ++ flat_map (λ chunk. chunk.items) rest.new.items
        ≡ first.old.items ++ flat_map (λ chunk. chunk.items) rest.old.items) }
{
    divide(first, rest, alloc)?;
    let index = passing(first.as_slice(), probe);
    if is_of_first(first, rest, index) {
        return add_at(first, index, item);
    }
    let spot = room_before(rest, alloc, probe)?;
    add_at_spot(rest, alloc, spot, item)
}

/// Adds an entry before the first that it doesn't pass. Where memory is refused nothing changes.
pub(super) fn add_entry<T: Entry, A: Allocator + Copy>(
    first: &mut Vec<T, A>,
    rest: &mut Vec<Vec<T, A>, A>,
    alloc: A,
    entry: T,
) -> Result<(), NoMemory>
    requires filled { All (λ chunk. 0 < length chunk.items) rest.old.items }
    requires parted { IsPartitionedBy (T.passes entry) (first.old.items ++ flat_map (λ chunk. chunk.items) rest.old.items) }
    ensures filled { All (λ chunk. 0 < length chunk.items) rest.new.items }
    ensures ok { let whole = first.old.items ++ flat_map (λ chunk. chunk.items) rest.old.items in
        OnOk result (first.new.items ++ flat_map (λ chunk. chunk.items) rest.new.items
        ≡ insert whole (rank (T.passes entry) whole) entry) }
    ensures err { OnErr result (first.new.items ++ flat_map (λ chunk. chunk.items) rest.new.items
        ≡ first.old.items ++ flat_map (λ chunk. chunk.items) rest.old.items) }
{
    divide(first, rest, alloc)?;
    let index = passing(first.as_slice(), &entry);
    if is_of_first(first, rest, index) {
        return add_at(first, index, entry);
    }
    let spot = room_before(rest, alloc, &entry)?;
    add_at_spot(rest, alloc, spot, entry)
}

/// Where the first chunk is full, makes two of it.
fn divide<T: Drop, A: Allocator + Copy>(
    first: &mut Vec<T, A>,
    rest: &mut Vec<Vec<T, A>, A>,
    alloc: A,
) -> Result<(), NoMemory>
    requires { All (λ chunk. 0 < length chunk.items) rest.old.items }
    ensures filled { All (λ chunk. 0 < length chunk.items) rest.new.items }
    ensures same { first.new.items ++ flat_map (λ chunk. chunk.items) rest.new.items
        ≡ first.old.items ++ flat_map (λ chunk. chunk.items) rest.old.items }
{
    if first.len() < MOST {
        return Ok(());
    }
    rest.insert(0, Vec::new(alloc))?;
    match first.split_off(MOST / 2) {
        Ok(second) => {
            rest[0] = second;
            Ok(())
        }
        Err(_) => {
            let _none = rest.remove(0);
            Err(NoMemory)
        }
    }
}

/// Where the first item is that doesn't pass, in a chunk that another item fits into.
fn room_before<T: Drop, A: Allocator + Copy, P: Probe<T>>(
    chunks: &mut Vec<Vec<T, A>, A>,
    alloc: A,
    probe: &P,
) -> Result<Spot, NoMemory>
    requires filled { All (λ chunk. 0 < length chunk.items) chunks.old.items }
    requires parted { IsPartitionedBy (P.passes probe.now) (flat_map (λ chunk. chunk.items) chunks.old.items) }
    ensures filled { All (λ chunk. 0 < length chunk.items) chunks.new.items }
    ensures same { flat_map (λ chunk. chunk.items) chunks.new.items ≡ flat_map (λ chunk. chunk.items) chunks.old.items }
    ensures rank { IfOk result (λ spot. place_of (λ chunk. chunk.items) chunks.new.items spot.chunk spot.index
        ≡ rank (P.passes probe.now) (flat_map (λ chunk. chunk.items) chunks.new.items)) }
    ensures inside { IfOk result (λ spot. IsInside (λ chunk. chunk.items) chunks.new.items spot.chunk spot.index) }
{
    let spot = first_failing(chunks.as_slice(), probe);
    if !is_full(chunks.as_slice(), spot.chunk) {
        return Ok(spot);
    }
    halve(chunks, alloc, spot.chunk)?;
    Ok(first_failing(chunks.as_slice(), probe))
}

/// Adds an item at a spot.
fn add_at_spot<T: Drop, A: Allocator + Copy>(
    chunks: &mut Vec<Vec<T, A>, A>,
    alloc: A,
    spot: Spot,
    item: T,
) -> Result<(), NoMemory>
    requires filled { All (λ chunk. 0 < length chunk.items) chunks.old.items }
    requires inside { IsInside (λ chunk. chunk.items) chunks.old.items spot.chunk spot.index }
    ensures filled { All (λ chunk. 0 < length chunk.items) chunks.new.items }
    ensures ok { OnOk result (flat_map (λ chunk. chunk.items) chunks.new.items
        ≡ insert (flat_map (λ chunk. chunk.items) chunks.old.items)
        (place_of (λ chunk. chunk.items) chunks.old.items spot.chunk spot.index) item) }
    ensures err { OnErr result
        (flat_map (λ chunk. chunk.items) chunks.new.items ≡ flat_map (λ chunk. chunk.items) chunks.old.items) }
{
    if spot.chunk >= chunks.len() {
        return add_last(chunks, alloc, item);
    }
    add_at(&mut chunks[spot.chunk], spot.index, item)
}

/// Makes two chunks of one that is full.
fn halve<T: Drop, A: Allocator + Copy>(
    chunks: &mut Vec<Vec<T, A>, A>,
    alloc: A,
    index: usize,
) -> Result<(), NoMemory>
    requires filled { All (λ chunk. 0 < length chunk.items) chunks.old.items }
    requires inside { index < length chunks.old.items }
    requires full { (d : _) → MOST ≤ length (slice_index_or chunks.old.items index d).items }
    ensures filled { All (λ chunk. 0 < length chunk.items) chunks.new.items }
    ensures same { flat_map (λ chunk. chunk.items) chunks.new.items ≡ flat_map (λ chunk. chunk.items) chunks.old.items }
{
    chunks.insert(index + 1, Vec::new(alloc))?;
    let chunk = &mut chunks[index];
    match chunk.split_off(MOST / 2) {
        Ok(rest) => {
            chunks[index + 1] = rest;
            Ok(())
        }
        Err(_) => {
            let _none = chunks.remove(index + 1);
            Err(NoMemory)
        }
    }
}

/// Takes out the first item that doesn't pass.
pub(super) fn take_out<T: Drop, A: Allocator + Copy, P: Probe<T>>(
    first: &mut Vec<T, A>,
    rest: &mut Vec<Vec<T, A>, A>,
    probe: &P,
) -> Option<T>
    requires filled { All (λ chunk. 0 < length chunk.items) rest.old.items }
    requires parted { IsPartitionedBy (P.passes probe.now) (first.old.items ++ flat_map (λ chunk. chunk.items) rest.old.items) }
    ensures filled { All (λ chunk. 0 < length chunk.items) rest.new.items }
    ensures item { let whole = first.old.items ++ flat_map (λ chunk. chunk.items) rest.old.items in
        result ≡ slice_get whole (rank (P.passes probe.now) whole) }
    ensures rest { let whole = first.old.items ++ flat_map (λ chunk. chunk.items) rest.old.items in
        first.new.items ++ flat_map (λ chunk. chunk.items) rest.new.items
        ≡ remove whole (rank (P.passes probe.now) whole) }
{
    let index = passing(first.as_slice(), probe);
    if index < first.len() {
        return Some(first.remove(index));
    }
    take_from(rest, probe)
}

/// Takes out the first item of some chunks that doesn't pass.
fn take_from<T: Drop, A: Allocator + Copy, P: Probe<T>>(
    chunks: &mut Vec<Vec<T, A>, A>,
    probe: &P,
) -> Option<T>
    requires filled { All (λ chunk. 0 < length chunk.items) chunks.old.items }
    requires parted { IsPartitionedBy (P.passes probe.now) (flat_map (λ chunk. chunk.items) chunks.old.items) }
    ensures filled { All (λ chunk. 0 < length chunk.items) chunks.new.items }
    ensures item { let whole = flat_map (λ chunk. chunk.items) chunks.old.items in
        result ≡ slice_get whole (rank (P.passes probe.now) whole) }
    ensures rest { let whole = flat_map (λ chunk. chunk.items) chunks.old.items in
        flat_map (λ chunk. chunk.items) chunks.new.items ≡ remove whole (rank (P.passes probe.now) whole) }
{
    let spot = first_failing(chunks.as_slice(), probe);
    if spot.chunk >= chunks.len() {
        return None;
    }
    let chunk = &mut chunks[spot.chunk];
    let item = chunk.remove(spot.index);
    if !chunk.is_empty() {
        return Some(item);
    }
    let _none = chunks.remove(spot.chunk);
    Some(item)
}

/// Puts an item in place of the first that doesn't pass.
pub(super) fn exchange<T: Drop, A: Allocator + Copy, P: Probe<T>>(
    first: &mut Vec<T, A>,
    rest: &mut Vec<Vec<T, A>, A>,
    probe: &P,
    item: T,
) -> Option<T>
    requires filled { All (λ chunk. 0 < length chunk.items) rest.old.items }
    requires parted { IsPartitionedBy (P.passes probe.now) (first.old.items ++ flat_map (λ chunk. chunk.items) rest.old.items) }
    ensures filled { All (λ chunk. 0 < length chunk.items) rest.new.items }
    ensures item { let whole = first.old.items ++ flat_map (λ chunk. chunk.items) rest.old.items in
        result ≡ slice_get whole (rank (P.passes probe.now) whole) }
    ensures rest { let whole = first.old.items ++ flat_map (λ chunk. chunk.items) rest.old.items in
        first.new.items ++ flat_map (λ chunk. chunk.items) rest.new.items
        ≡ slice_set whole (rank (P.passes probe.now) whole) item }
{
    let index = passing(first.as_slice(), probe);
    if index < first.len() {
        return Some(mem::replace(&mut first[index], item));
    }
    exchange_in(rest, probe, item)
}

/// Puts an item in place of the first of some chunks that doesn't pass.
fn exchange_in<T: Drop, A: Allocator + Copy, P: Probe<T>>(
    chunks: &mut Vec<Vec<T, A>, A>,
    probe: &P,
    item: T,
) -> Option<T>
    requires filled { All (λ chunk. 0 < length chunk.items) chunks.old.items }
    requires parted { IsPartitionedBy (P.passes probe.now) (flat_map (λ chunk. chunk.items) chunks.old.items) }
    ensures filled { All (λ chunk. 0 < length chunk.items) chunks.new.items }
    ensures item { let whole = flat_map (λ chunk. chunk.items) chunks.old.items in
        result ≡ slice_get whole (rank (P.passes probe.now) whole) }
    ensures rest { let whole = flat_map (λ chunk. chunk.items) chunks.old.items in
        flat_map (λ chunk. chunk.items) chunks.new.items ≡ slice_set whole (rank (P.passes probe.now) whole) item }
{
    let spot = first_failing(chunks.as_slice(), probe);
    if spot.chunk >= chunks.len() {
        return None;
    }
    let chunk = &mut chunks[spot.chunk];
    let kept = &mut chunk[spot.index];
    Some(mem::replace(kept, item))
}

/// Merges an entry into the one that it meets, or adds it before the first that it doesn't pass.
pub(super) fn merge<T: Entry, A: Allocator + Copy>(
    first: &mut Vec<T, A>,
    rest: &mut Vec<Vec<T, A>, A>,
    alloc: A,
    entry: T,
) -> Result<(), NoMemory>
    requires filled { All (λ chunk. 0 < length chunk.items) rest.old.items }
    requires parted { IsPartitionedBy (T.passes entry) (first.old.items ++ flat_map (λ chunk. chunk.items) rest.old.items) }
    ensures filled { All (λ chunk. 0 < length chunk.items) rest.new.items }
    ensures merged { IsMerged (T.passes entry) (T.meets entry) (T.merges entry) entry
        (first.old.items ++ flat_map (λ chunk. chunk.items) rest.old.items) result
        (first.new.items ++ flat_map (λ chunk. chunk.items) rest.new.items) }
{
    if first.len() >= MOST {
        return merge_anywhere(first, rest, alloc, entry);
    }
    let index = passing(first.as_slice(), &entry);
    if is_of_first(first, rest, index) {
        return merge_at(first, index, entry);
    }
    merge_anywhere(first, rest, alloc, entry)
}

/// Whether the index is one of the first chunk's, or there is no other chunk.
fn is_of_first<T, A: Allocator>(first: &Vec<T, A>, rest: &Vec<Vec<T, A>, A>, index: usize) -> bool
    ensures is { result ≡ true → (index < length first.now.items) ⊎ (rest.now.items ≡ []) }
    ensures past { result ≡ false → length first.now.items ≤ index }
{
    if index < first.len() {
        return true;
    }
    rest.is_empty()
}

/// Merges an entry into the one at an index of a chunk where the two meet, or adds it there.
fn merge_at<T: Entry, A: Allocator + Copy>(
    chunk: &mut Vec<T, A>,
    index: usize,
    entry: T,
) -> Result<(), NoMemory>
    requires { index ≡ rank (T.passes entry) chunk.old.items }
    ensures { IsMerged (T.passes entry) (T.meets entry) (T.merges entry) entry chunk.old.items result chunk.new.items }
{
    if meets_at(chunk.as_slice(), index, &entry) {
        return entry.merge_into(&mut chunk[index]);
    }
    add_at(chunk, index, entry)
}

/// Whether an entry meets the one at an index.
fn meets_at<T: Entry>(items: &[T], index: usize, entry: &T) -> bool
    ensures met { result ≡ is_some_passing (T.meets entry.now) (slice_get items.now index) }
    ensures inside { result ≡ true → index < length items.now }
{
    match items.get(index) {
        Some(held) => entry.meets(held),
        None => false,
    }
}

/// Merges an entry into the one that it meets, or adds it before the first that it doesn't pass, in a list of any
/// length.
fn merge_anywhere<T: Entry, A: Allocator + Copy>(
    first: &mut Vec<T, A>,
    rest: &mut Vec<Vec<T, A>, A>,
    alloc: A,
    entry: T,
) -> Result<(), NoMemory>
    requires filled { All (λ chunk. 0 < length chunk.items) rest.old.items }
    requires parted { IsPartitionedBy (T.passes entry) (first.old.items ++ flat_map (λ chunk. chunk.items) rest.old.items) }
    ensures filled { All (λ chunk. 0 < length chunk.items) rest.new.items }
    ensures merged { IsMerged (T.passes entry) (T.meets entry) (T.merges entry) entry
        (first.old.items ++ flat_map (λ chunk. chunk.items) rest.old.items) result
        (first.new.items ++ flat_map (λ chunk. chunk.items) rest.new.items) }
{
    if has(first, rest, &entry) {
        return merge_there(first, rest, entry);
    }
    add_entry(first, rest, alloc, entry)
}

/// Whether there is an entry that this one meets.
fn has<T: Entry, A: Allocator>(first: &Vec<T, A>, rest: &Vec<Vec<T, A>, A>, entry: &T) -> bool
    requires filled { All (λ chunk. 0 < length chunk.items) rest.now.items }
    requires parted { IsPartitionedBy (T.passes entry.now) (first.now.items ++ flat_map (λ chunk. chunk.items) rest.now.items) }
    ensures { let whole = first.now.items ++ flat_map (λ chunk. chunk.items) rest.now.items in
        result ≡ is_some_passing (T.meets entry.now) (slice_get whole (rank (T.passes entry.now) whole)) }
{
    match first_failing_of(first.as_slice(), rest.as_slice(), entry) {
        Some(held) => entry.meets(held),
        None => false,
    }
}

/// Merges an entry into the one that it meets, which is there.
pub(super) fn merge_there<T: Entry, A: Allocator + Copy>(
    first: &mut Vec<T, A>,
    rest: &mut Vec<Vec<T, A>, A>,
    entry: T,
) -> Result<(), NoMemory>
    requires filled { All (λ chunk. 0 < length chunk.items) rest.old.items }
    requires parted { IsPartitionedBy (T.passes entry) (first.old.items ++ flat_map (λ chunk. chunk.items) rest.old.items) }
    requires there { let whole = first.old.items ++ flat_map (λ chunk. chunk.items) rest.old.items in
        rank (T.passes entry) whole < length whole }
    ensures filled { All (λ chunk. 0 < length chunk.items) rest.new.items }
    ensures merged { let whole = first.old.items ++ flat_map (λ chunk. chunk.items) rest.old.items in
        let place = rank (T.passes entry) whole in
        (held kept : T) × (slice_get whole place ≡ Some held) × T.merges entry held result kept
        × (first.new.items ++ flat_map (λ chunk. chunk.items) rest.new.items ≡ slice_set whole place kept) }
{
    let index = passing(first.as_slice(), &entry);
    if index < first.len() {
        return entry.merge_into(&mut first[index]);
    }
    merge_in(rest, entry)
}

/// Merges an entry into the one of some chunks that it meets, which is there.
fn merge_in<T: Entry, A: Allocator + Copy>(
    chunks: &mut Vec<Vec<T, A>, A>,
    entry: T,
) -> Result<(), NoMemory>
    requires filled { All (λ chunk. 0 < length chunk.items) chunks.old.items }
    requires parted { IsPartitionedBy (T.passes entry) (flat_map (λ chunk. chunk.items) chunks.old.items) }
    requires there { let whole = flat_map (λ chunk. chunk.items) chunks.old.items in
        rank (T.passes entry) whole < length whole }
    ensures filled { All (λ chunk. 0 < length chunk.items) chunks.new.items }
    ensures merged { let whole = flat_map (λ chunk. chunk.items) chunks.old.items in
        let place = rank (T.passes entry) whole in
        (held kept : T) × (slice_get whole place ≡ Some held) × T.merges entry held result kept
        × (flat_map (λ chunk. chunk.items) chunks.new.items ≡ slice_set whole place kept) }
{
    let spot = first_failing(chunks.as_slice(), &entry);
    let chunk = &mut chunks[spot.chunk];
    entry.merge_into(&mut chunk[spot.index])
}
