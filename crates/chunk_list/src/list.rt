//! A list in chunks, in an order that its owner keeps.

ghost use Rattle.std.specs.Prelude.{◌≡◌, ◌-◌, ◌++◌, ◌∷◌, [], drop, length, slice_get, slice_set, OnOk, OnErr};
ghost use Rattle.std.specs.List.{insert, remove};
ghost use Rattle.std.specs.List.Sorted.{IsPartitionedBy};
ghost use Rattle.std.specs.Option.{option_copied};
ghost use Rattle.chunk_list.specs.Merged.{IsMerged};
ghost use Rattle.chunk_list.specs.Ranks.{rank};

use super::edits::{add_before, append, exchange, merge, take_out};
use super::entry::Entry;
use super::into_iter::IntoIter;
use super::iter::Iter;
use super::probe::Probe;
use super::spot::{failing_of, first_failing_of, last_of};
use lattice_core::NoMemory;
use std::alloc::{Allocator, Global};
use std::marker::Model;

/// A list in an order that its owner keeps, in chunks of at most 512 items. Contracts see the list. A search costs
/// O(log n) for n items; an item that comes last is a push, and one that comes or goes elsewhere moves those of its
/// chunk, and once in some hundred times the chunks. A list of few items takes one allocation of little more than
/// these.
#[derive(Drop)]
pub struct ChunkList<T, A: Allocator + Copy = Global> {
    first: Vec<T, A>,
    rest: Vec<Vec<T, A>, A>,
    alloc: A,
}

impl<T, A: Allocator + Copy> Model for ChunkList<T, A> {
    ghost use Rattle.std.specs.Prelude.{List, ◌<◌, ◌++◌, length};
    ghost use Rattle.std.specs.List.{All, flat_map};

    ghost Value = { List T };

    ghost view = { λ l. l.first.items ++ flat_map (λ chunk. chunk.items) l.rest.items };

    ghost invariant = { λ l. All (λ chunk. 0 < length chunk.items) l.rest.items };
}

impl<T: Drop, A: Allocator + Copy> ChunkList<T, A> {
    /// The empty list. It takes no memory.
    pub fn new(alloc: A) -> ChunkList<T, A>
        ensures { result ≡ [] }
    {
        ChunkList {
            first: Vec::new(alloc),
            rest: Vec::new(alloc),
            alloc,
        }
    }

    /// The last item. It costs O(1).
    pub fn last(&self) -> Option<&T>
        ensures { option_copied result ≡ slice_get self.now (length self.now - 1) }
    {
        last_of(self.first.as_slice(), self.rest.as_slice())
    }

    /// The first item that doesn't pass. It costs O(log n) for n items.
    pub fn first_failing<P: Probe<T>>(&self, probe: &P) -> Option<&T>
        requires { IsPartitionedBy (P.passes probe.now) self.now }
        ensures { option_copied result ≡ slice_get self.now (rank (P.passes probe.now) self.now) }
    {
        first_failing_of(self.first.as_slice(), self.rest.as_slice(), probe)
    }

    /// The items from the first on that doesn't pass. It costs O(log n) for n items to find it, and O(1) for each
    /// further one.
    pub fn failing<P: Probe<T>>(&self, probe: &P) -> Iter<'_, T, A>
        requires { IsPartitionedBy (P.passes probe.now) self.now }
        ensures { result ≡ drop (rank (P.passes probe.now) self.now) self.now }
    {
        failing_of(self.first.as_slice(), self.rest.as_slice(), probe)
    }

    /// The items in their order. Each costs O(1).
    pub fn iter(&self) -> Iter<'_, T, A>
        ensures { result ≡ self.now }
    {
        Iter::all(self.first.as_slice(), self.rest.as_slice())
    }

    /// Adds an item after all others. Where memory is refused nothing changes.
    pub fn push(&mut self, item: T) -> Result<(), NoMemory>
        ensures ok { OnOk result (self.new ≡ self.old ++ item ∷ []) }
        ensures err { OnErr result (self.new ≡ self.old) }
    {
        append(&mut self.first, &mut self.rest, self.alloc, item)
    }

    /// Adds an item before the first that doesn't pass. Where memory is refused nothing changes.
    pub fn insert<P: Probe<T>>(&mut self, probe: &P, item: T) -> Result<(), NoMemory>
        requires { IsPartitionedBy (P.passes probe.now) self.old }
        ensures ok { OnOk result (self.new ≡ insert self.old (rank (P.passes probe.now) self.old) item) }
        ensures err { OnErr result (self.new ≡ self.old) }
    {
        add_before(&mut self.first, &mut self.rest, self.alloc, probe, item)
    }

    /// Takes out the first item that doesn't pass.
    pub fn remove<P: Probe<T>>(&mut self, probe: &P) -> Option<T>
        requires { IsPartitionedBy (P.passes probe.now) self.old }
        ensures item { result ≡ slice_get self.old (rank (P.passes probe.now) self.old) }
        ensures rest { self.new ≡ remove self.old (rank (P.passes probe.now) self.old) }
    {
        take_out(&mut self.first, &mut self.rest, probe)
    }

    /// Puts an item in place of the first that doesn't pass, which it answers.
    pub fn replace<P: Probe<T>>(&mut self, probe: &P, item: T) -> Option<T>
        requires { IsPartitionedBy (P.passes probe.now) self.old }
        ensures item { result ≡ slice_get self.old (rank (P.passes probe.now) self.old) }
        ensures rest { self.new ≡ slice_set self.old (rank (P.passes probe.now) self.old) item }
    {
        exchange(&mut self.first, &mut self.rest, probe, item)
    }
}

impl<T: Entry, A: Allocator + Copy> ChunkList<T, A> {
    /// Merges an entry into the one that it meets, in place, or adds it before the first that it doesn't pass. Where it
    /// meets none and memory is refused nothing changes. The search costs O(log n) for n entries; beside it come the
    /// merge, or what an item that is added moves.
    pub fn merge(&mut self, entry: T) -> Result<(), NoMemory>
        requires { IsPartitionedBy (T.passes entry) self.old }
        ensures { IsMerged (T.passes entry) (T.meets entry) (T.merges entry) entry self.old result self.new }
    {
        merge(&mut self.first, &mut self.rest, self.alloc, entry)
    }
}

impl<T: Drop, A: Allocator + Copy> IntoIterator for ChunkList<T, A> {
    type Item = T;

    type IntoIter = IntoIter<T, A>;

    ghost into_iter_gives = { λ list items. items ≡ list };

    fn into_iter(self) -> IntoIter<T, A> {
        let ChunkList {
            first,
            rest,
            alloc: _,
        } = self;
        IntoIter::of(first, rest)
    }
}
