//! A map from keys to states, joined key by key, kept as a list.

ghost use Rattle.std.specs.Prelude.{◌≡◌, ◌↔◌, ◌-◌, [], IsTrue, IsOk, OnOk, OnErr, None, Some, map, length, slice_get};
ghost use Rattle.std.specs.Option.{option_copied, option_map};
ghost use Rattle.std.specs.Ordering.{is_lt, is_eq};
ghost use Rattle.std.specs.FinMap as finite;
ghost use Rattle.std.specs.Iterator.{YieldsFirstBy, item_count};
ghost use Rattle.std.specs.Map.Iter.{deref_pair};
ghost use Rattle.std.specs.BTreeMap.Range.{entries_between};
ghost use Rattle.std.specs.declared.ops.Bound.TheVariants.{Included, Unbounded};
ghost use Rattle.lattice_core.specs.Join.{IsBetween, Covers, option_joined};
ghost use Rattle.lattice_core.specs.JoinMap.{map_of, map_joined, put_joined, maps_join};

use super::entry::Entry;
use super::iter::Iter;
use super::list::ChunkList;
use super::probe::Probe;
use lattice_core::{Join, Keep, NoMemory};
use std::alloc::{Allocator, Global};
use std::cmp::Ordering;
use std::marker::Model;

/// A finite map from keys to states, in the order of the keys, as `JoinMap` is, but kept as a list of pairs: one of few
/// keys takes one allocation of little more than these. The join of two maps has at each key the join of what the two
/// have there.
#[derive(Drop)]
pub struct JoinList<K: Keep, V: Join, A: Allocator + Copy = Global> {
    alloc: A,
    entries: ChunkList<(K, V), A>,
}

// The pairs in the order of their keys. `map_of` reads them as a finite map of shapes.
impl<K: Keep, V: Join, A: Allocator + Copy> Model for JoinList<K, V, A> {
    ghost use Rattle.std.specs.Prelude.{List, T, map};
    ghost use Rattle.std.specs.FinMap.{is_sorted};

    ghost Value = { List (K × V) };

    ghost view = { λ m. m.entries };

    ghost invariant = { λ m. T (is_sorted K.order (map (λ pair. (K.shape pair.0, V.shape pair.1)) m.entries)) };
}

impl<K: Keep, V: Join> Probe<(K, V)> for (K, V) {
    ghost passes = { λ pair other. is_lt (K.order (K.shape other.0) (K.shape pair.0)) };

    fn passes(&self, other: &(K, V)) -> bool {
        other.0.cmp(&self.0) == Ordering::Less
    }
}

impl<K: Keep, V: Join> Entry for (K, V) {
    ghost meets = { λ pair held. is_eq (K.order (K.shape held.0) (K.shape pair.0)) };

    ghost merges = { λ pair held answer kept. (kept.0 ≡ held.0)
        × OnOk answer (V.shape kept.1 ≡ V.joined (V.shape held.1) (V.shape pair.1))
        × OnErr answer (IsBetween V.joined (V.shape held.1) (V.shape kept.1)
        (V.joined (V.shape held.1) (V.shape pair.1)))
        × (V.is_infallible → IsOk answer) };

    fn meets(&self, held: &(K, V)) -> bool {
        held.0.cmp(&self.0) == Ordering::Equal
    }

    fn merge_into(self, held: &mut (K, V)) -> Result<(), NoMemory> {
        let (_, value) = self;
        held.1.join(value)
    }
}

/// The pairs whose keys are less than this one.
#[derive(Drop)]
struct Before<'k, K> {
    key: &'k K,
}

impl<'k, K: Keep, V: Join> Probe<(K, V)> for Before<'k, K> {
    ghost passes = { λ before pair. is_lt (K.order (K.shape pair.0) (K.shape before.key.now)) };

    fn passes(&self, pair: &(K, V)) -> bool {
        pair.0.cmp(self.key) == Ordering::Less
    }
}

impl<K: Keep, V: Join, A: Allocator + Copy> JoinList<K, V, A> {
    /// The empty map. It takes memory from `alloc` as it grows.
    pub fn new(alloc: A) -> JoinList<K, V, A>
        ensures { map_of K.order K.shape V.shape result ≡ finite.empty }
    {
        JoinList {
            alloc,
            entries: ChunkList::new(alloc),
        }
    }

    /// The state at the key, if there is one. It costs O(log n) for n keys.
    pub fn get(&self, key: &K) -> Option<&V>
        ensures { let shape = map_of K.order K.shape V.shape in
            option_map V.shape (option_copied result) ≡ finite.get (shape self.now) (K.shape key.now) }
    {
        let pair = self.entries.first_failing(&Before { key })?;
        match pair.0.cmp(key) {
            Ordering::Equal => Some(&pair.1),
            _ => None,
        }
    }

    /// Whether there is a state at the key. It costs O(log n) for n keys.
    pub fn contains_key(&self, key: &K) -> bool
        ensures { let shape = map_of K.order K.shape V.shape in
            result ≡ finite.contains_key (shape self.now) (K.shape key.now) }
    {
        self.get(key).is_some()
    }

    /// Joins the state into the one at the key, in place, or adds it there. After a refusal the map lies between the
    /// old one and the join; where the join of states takes no memory nothing has changed, and only a new key can be
    /// refused. The search costs O(log n) for n keys; beside it come the join of the states, or the pairs that a new
    /// key moves, at most 512 of them and once in some hundred times the chunks.
    pub fn join_at(&mut self, key: K, value: V) -> Result<(), NoMemory>
        ensures ok { let shape = map_of K.order K.shape V.shape in
            OnOk result (shape self.new ≡ put_joined V.joined (shape self.old) (K.shape key) (V.shape value)) }
        ensures err { let shape = map_of K.order K.shape V.shape in
            let whole = put_joined V.joined (shape self.old) (K.shape key) (V.shape value) in
            OnErr result (IsBetween (map_joined V.joined) (shape self.old) (shape self.new) whole) }
        ensures unchanged { let shape = map_of K.order K.shape V.shape in
            V.is_infallible → OnErr result (shape self.new ≡ shape self.old) }
        ensures absent { let shape = map_of K.order K.shape V.shape in
            V.is_infallible → OnErr result (finite.get (shape self.old) (K.shape key) ≡ None) }
    {
        self.entries.merge((key, value))
    }

    /// The last pair, if there is one. It costs O(1).
    pub fn last(&self) -> Option<(&K, &V)>
        ensures last { option_map deref_pair result ≡ slice_get self.now (length self.now - 1) }
        ensures entries { let shape = map_of K.order K.shape V.shape in
            map (λ pair. (K.shape pair.0, V.shape pair.1)) self.now ≡ finite.entries (shape self.now) }
    {
        let (key, value) = self.entries.last()?;
        Some((key, value))
    }

    /// The pairs in the order of the keys. Each costs O(1).
    pub fn iter(&self) -> Entries<'_, K, V, A>
        ensures rest { result ≡ self.now }
        ensures entries { let shape = map_of K.order K.shape V.shape in
            map (λ pair. (K.shape pair.0, V.shape pair.1)) result ≡ finite.entries (shape self.now) }
    {
        Entries {
            pairs: self.entries.iter(),
        }
    }

    /// The pairs from a key on, in the order of the keys. It costs O(log n) for n keys to find the first, and O(1) for
    /// each further one.
    pub fn from_key(&self, key: &K) -> Entries<'_, K, V, A>
        ensures { let shape = map_of K.order K.shape V.shape in
            map (λ pair. (K.shape pair.0, V.shape pair.1)) result
            ≡ entries_between K.order (Included (K.shape key.now)) Unbounded (finite.entries (shape self.now)) }
    {
        Entries {
            pairs: self.entries.failing(&Before { key }),
        }
    }

    /// The allocator that the map takes memory from.
    pub fn allocator(&self) -> A {
        self.alloc
    }

    /// Whether joining the value at the key would change nothing.
    fn covers_at(&self, key: &K, value: &V) -> bool
        ensures { let own = finite.get (map_of K.order K.shape V.shape self.now) (K.shape key.now) in
            IsTrue result ↔ Covers (option_joined V.joined) own (Some (V.shape value.now)) }
    {
        match self.get(key) {
            Some(own) => own.covers(value),
            None => false,
        }
    }
}

impl<'a, K: Keep, V: Join, A: Allocator + Copy> IntoIterator for &'a JoinList<K, V, A> {
    type Item = (&'a K, &'a V);

    type IntoIter = Entries<'a, K, V, A>;

    ghost into_iter_gives = { λ m r. (r ≡ m.now)
        × (map (λ pair. (K.shape pair.0, V.shape pair.1)) r ≡ finite.entries (map_of K.order K.shape V.shape m.now)) };

    fn into_iter(self) -> Entries<'a, K, V, A> {
        self.iter()
    }
}

/// What is left of the pairs of a map, in the order of the keys. Contracts see the pairs.
#[derive(Drop)]
pub struct Entries<'a, K, V, A: Allocator + Copy = Global> {
    pairs: Iter<'a, (K, V), A>,
}

impl<'a, K, V, A: Allocator + Copy> Model for Entries<'a, K, V, A> {
    ghost use Rattle.std.specs.Prelude.{List};

    ghost Value = { List (K × V) };

    ghost view = { λ e. e.pairs };
}

impl<'a, K, V, A: Allocator + Copy> Entries<'a, K, V, A> {
    /// No pair.
    pub fn none() -> Entries<'a, K, V, A>
        ensures { result ≡ [] }
    {
        Entries {
            pairs: Iter::none(),
        }
    }
}

impl<'a, K, V, A: Allocator + Copy> Iterator for Entries<'a, K, V, A> {
    type Item = (&'a K, &'a V);

    ghost next_gives = { YieldsFirstBy deref_pair (λ e. e) };

    ghost remaining = { item_count (λ e. e) };

    fn next(&mut self) -> Option<(&'a K, &'a V)> {
        let (key, value) = self.pairs.next()?;
        Some((key, value))
    }
}

/// A join moves the other map's keys and states, each for O(log n) where n keys are there. So do `covers` and `same`,
/// but that they only read.
impl<K: Keep, V: Join, A: Allocator + Copy> Join for JoinList<K, V, A> {
    ghost Shape = { finite.FinMap K.order V.Shape };

    ghost shape = { map_of K.order K.shape V.shape };

    ghost joined = { map_joined V.joined };

    ghost laws = { maps_join K.ordered V.laws };

    fn join(&mut self, other: JoinList<K, V, A>) -> Result<(), NoMemory> {
        let JoinList { alloc: _, entries } = other;
        for (key, value) in entries {
            self.join_at(key, value)?;
        }
        Ok(())
    }

    fn covers(&self, other: &JoinList<K, V, A>) -> bool {
        for (key, value) in other {
            if !self.covers_at(key, value) {
                return false;
            }
        }
        true
    }

    fn same(&self, other: &JoinList<K, V, A>) -> bool {
        self.covers(other) && other.covers(self)
    }

    fn copy(&self) -> Result<JoinList<K, V, A>, NoMemory> {
        let mut made = JoinList::new(self.alloc);
        for (key, value) in self {
            made.join_at(key.copy()?, value.copy()?)?;
        }
        Ok(made)
    }
}
