//! A map from keys to states, joined key by key.

ghost use Rattle.std.specs.Prelude.{◌≡◌, ◌↔◌, ◌<◌, ◌^◌, IsTrue, OnOk, OnErr, Some, None, map, length, string_bytes};
ghost use Rattle.std.specs.Option.{option_copied, option_copied_mut, option_map};
ghost use Rattle.std.specs.Ordering.{nat_cmp};
ghost use Rattle.std.specs.Cmp.Lexicographic.{slice_cmp};
ghost use Rattle.std.specs.FinMap as finite;
ghost use Rattle.std.specs.Map.Iter.{ShowsInOrder, ShowsInReverse, deref_pair};
ghost use Rattle.std.specs.BTreeMap.Range.{IsLeBy, IsLtBy, entries_between};
ghost use Rattle.std.specs.Range.Bound.{bound_map};
ghost use Rattle.std.specs.Borrow.{sem};
ghost use Rattle.lattice_core.specs.Join.{IsBetween, Covers, option_joined};
ghost use Rattle.lattice_core.specs.JoinMap.{map_of, map_joined, put_joined, maps_join};
ghost use Rattle.lattice_core.specs.JoinMapLends.{lends_value};

use super::join::Join;
use super::keep::Keep;
use super::memory::NoMemory;
use std::alloc::{Allocator, Global};
use std::collections::BTreeMap;
use std::collections::btree_map::{Iter, Range};
use std::marker::Model;
use std::ops::RangeBounds;

/// A finite map from keys to states, in the order of the keys. The join of two maps has at each key the join of what
/// the two have there.
#[derive(Drop)]
#[derive_where(Debug; K, V)]
pub struct JoinMap<K: Ord, V, A: Allocator = Global> {
    #[derive_where(skip)]
    alloc: A,
    entries: BTreeMap<K, V, A>,
}

// The pairs in the order of their keys. `map_of` reads them as a finite map of shapes.
impl<K: Ord, V, A: Allocator> Model for JoinMap<K, V, A> {
    ghost use Rattle.std.specs.Prelude.{List};

    ghost Value = { List (K × V) };

    ghost view = { λ m. m.entries.entries };
}

impl<K: Keep, V: Join, A: Allocator + Copy> JoinMap<K, V, A> {
    /// The empty map. It takes memory from `alloc` as it grows.
    pub fn new(alloc: A) -> JoinMap<K, V, A>
        ensures { map_of K.order K.shape V.shape result ≡ finite.empty }
    {
        JoinMap {
            alloc,
            entries: BTreeMap::new(alloc),
        }
    }

    /// How many keys the map has.
    pub fn len(&self) -> usize
        ensures { result ≡ finite.len (map_of K.order K.shape V.shape self.now) }
    {
        self.entries.len()
    }

    /// Whether the map has no key.
    pub fn is_empty(&self) -> bool
        ensures { IsTrue result ↔ (map_of K.order K.shape V.shape self.now ≡ finite.empty) }
    {
        self.entries.is_empty()
    }

    /// The state at the key, if there is one. It costs O(log n) for n keys.
    pub fn get(&self, key: &K) -> Option<&V>
        ensures { let shape = map_of K.order K.shape V.shape in
            option_map V.shape (option_copied result) ≡ finite.get (shape self.now) (K.shape key.now) }
    {
        self.entries.get(key)
    }

    /// Whether there is a state at the key. It costs O(log n) for n keys.
    pub fn contains_key(&self, key: &K) -> bool
        ensures { let shape = map_of K.order K.shape V.shape in
            result ≡ finite.contains_key (shape self.now) (K.shape key.now) }
    {
        self.entries.contains_key(key)
    }

    /// The state at the key, to be changed in place: what is last written through it is what the map then has there. It
    /// costs O(log n) for n keys.
    pub fn get_mut(&mut self, key: &K) -> Option<&mut V>
        ensures* writes_back { sem 𝓛 (lends_value K.row V.row A.row K.Ord A.Allocator K.order K.shape V.shape
            self.entry key.now result) }
        ensures value { let shape = map_of K.order K.shape V.shape in
            option_map V.shape (option_copied_mut result) ≡ finite.get (shape self.old) (K.shape key.now) }
    {
        self.entries.get_mut(key)
    }

    /// Adds the state at the key, or replaces the one there. A refused call changes nothing, and only a new key can be
    /// refused. It costs O(log n) for n keys.
    pub fn put(&mut self, key: K, value: V) -> Result<(), NoMemory>
        ensures ok { let shape = map_of K.order K.shape V.shape in
            OnOk result (shape self.new ≡ finite.insert (shape self.old) (K.shape key) (V.shape value)) }
        ensures err { OnErr result (self.new ≡ self.old) }
        ensures absent { OnErr result (finite.get (map_of K.order K.shape V.shape self.old) (K.shape key) ≡ None) }
    {
        self.entries.insert(key, value)?;
        Ok(())
    }

    /// Joins the state into the one at the key, in place, or adds it there. After a refusal the map lies between the
    /// old one and the join; where the join of states takes no memory nothing has changed, and only a new key can be
    /// refused. It costs O(log n) for n keys, beside the join of the states.
    pub fn join_at(&mut self, key: K, value: V) -> Result<(), NoMemory>
        ensures ok { let shape = map_of K.order K.shape V.shape in
            OnOk result (shape self.new ≡ put_joined V.joined (shape self.old) (K.shape key) (V.shape value)) }
        ensures err { let shape = map_of K.order K.shape V.shape in
            let whole = put_joined V.joined (shape self.old) (K.shape key) (V.shape value) in
            OnErr result (IsBetween (map_joined V.joined) (shape self.old) (shape self.new) whole) }
        ensures unchanged { let shape = map_of K.order K.shape V.shape in
            V.is_infallible → OnErr result (shape self.new ≡ shape self.old) }
        ensures absent { let shape = map_of K.order K.shape V.shape in
            V.is_infallible → OnErr result (finite.get (shape self.old) (K.shape key) ≡ None) }
    {
        if let Some(own) = self.get_mut(&key) {
            return own.join(value);
        }
        self.put(key, value)
    }

    /// Whether joining the value at the key would change nothing.
    fn covers_at(&self, key: &K, value: &V) -> bool
        ensures { let own = finite.get (map_of K.order K.shape V.shape self.now) (K.shape key.now) in
            IsTrue result ↔ Covers (option_joined V.joined) own (Some (V.shape value.now)) }
    {
        match self.get(key) {
            Some(own) => own.covers(value),
            None => false,
        }
    }

    /// The pairs in the order of the keys, from either end.
    pub fn iter(&self) -> Iter<'_, K, V>
        ensures rest { result ≡ self.now }
        ensures entries { let shape = map_of K.order K.shape V.shape in
            map (λ pair. (K.shape pair.0, V.shape pair.1)) result ≡ finite.entries (shape self.now) }
        ensures runs { ShowsInOrder (deref_pair {K = K} {X = V}) }
        ensures runs_back { ShowsInReverse (deref_pair {K = K} {X = V}) }
        ensures fits { length result < 2 ^ 63 }
    {
        self.entries.iter()
    }

    /// The pairs whose keys lie within a range, in the order of the keys, from either end. It costs O(log n) for n
    /// keys, and O(m) to walk m pairs.
    pub fn range<R: RangeBounds<K> + Drop>(&self, range: R) -> Range<'_, K, V>
        requires { R.is_forward range (IsLeBy K.cmp) (IsLtBy K.cmp) }
        ensures rest { R.has_bounds range
            → result ≡ entries_between K.cmp (R.start_bound range) (R.end_bound range) self.now }
        ensures entries { R.has_bounds range → map (λ pair. (K.shape pair.0, V.shape pair.1)) result
            ≡ entries_between K.order (bound_map K.shape (R.start_bound range)) (bound_map K.shape (R.end_bound range))
            (finite.entries (map_of K.order K.shape V.shape self.now)) }
        ensures runs { ShowsInOrder (deref_pair {K = K} {X = V}) }
        ensures runs_back { ShowsInReverse (deref_pair {K = K} {X = V}) }
        ensures fits { length result < 2 ^ 63 }
    {
        self.entries.range(range)
    }

    /// The allocator that the map takes memory from.
    pub fn allocator(&self) -> A {
        self.alloc
    }
}

impl<B: Allocator + Clone, V: Join, A: Allocator + Copy> JoinMap<String<B>, V, A> {
    /// The state at the key with this text, if there is one. It costs O(log n) for n keys.
    pub fn get_by_text(&self, text: &str) -> Option<&V>
        ensures { let shape = map_of (slice_cmp nat_cmp) string_bytes V.shape in
            option_map V.shape (option_copied result) ≡ finite.get (shape self.now) text.now }
    {
        self.entries.get(text)
    }
}

impl<'a, K: Keep, V: Join, A: Allocator + Copy> IntoIterator for &'a JoinMap<K, V, A> {
    type Item = (&'a K, &'a V);

    type IntoIter = Iter<'a, K, V>;

    ghost into_iter_gives = { λ m r. (r ≡ m.now)
        × (map (λ pair. (K.shape pair.0, V.shape pair.1)) r ≡ finite.entries (map_of K.order K.shape V.shape m.now))
        × ShowsInOrder (deref_pair {K = K} {X = V})
        × ShowsInReverse (deref_pair {K = K} {X = V})
        × (length r < 2 ^ 63) };

    fn into_iter(self) -> Iter<'a, K, V> {
        self.iter()
    }
}

/// A join walks the other map and moves its keys and states, each for O(log n) where n keys are there. So do `covers`
/// and `same`, but that they only read.
impl<K: Keep, V: Join, A: Allocator + Copy> Join for JoinMap<K, V, A> {
    ghost Shape = { finite.FinMap K.order V.Shape };

    ghost shape = { map_of K.order K.shape V.shape };

    ghost joined = { map_joined V.joined };

    ghost laws = { maps_join K.ordered V.laws };

    fn join(&mut self, other: JoinMap<K, V, A>) -> Result<(), NoMemory> {
        let JoinMap { alloc: _, entries } = other;
        for (key, value) in entries {
            self.join_at(key, value)?;
        }
        Ok(())
    }

    fn covers(&self, other: &JoinMap<K, V, A>) -> bool {
        for (key, value) in other {
            if !self.covers_at(key, value) {
                return false;
            }
        }
        true
    }

    fn same(&self, other: &JoinMap<K, V, A>) -> bool {
        if self.len() != other.len() {
            return false;
        }
        self.covers(other) && other.covers(self)
    }

    fn copy(&self) -> Result<JoinMap<K, V, A>, NoMemory> {
        let mut made = JoinMap::new(self.alloc);
        for (key, value) in self {
            made.put(key.copy()?, value.copy()?)?;
        }
        Ok(made)
    }
}
