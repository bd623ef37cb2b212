//! A last-writer-wins register that is never empty.

ghost use Rattle.std.specs.Prelude.{◌≡◌};
ghost use Rattle.std.specs.Ordering.{ord_max, ordering_then};
ghost use Rattle.lattice_core.specs.Keep.{pair_order, pairs_exact};
ghost use Rattle.lattice_core.specs.Greatest.{greater_join};

use super::join::Join;
use super::keep::Keep;
use super::memory::NoMemory;
use std::cmp::Ordering;
use std::marker::Model;

/// A last-writer-wins register that is never empty: a value under the key of its writing. The join of two registers is
/// the greater of the two, by key and then by value.
#[derive(Debug, Drop)]
pub struct Register<K, V> {
    key: K,
    value: V,
}

impl<K, V> Model for Register<K, V> {
    ghost Value = { K × V };

    ghost view = { λ r. (r.key, r.value) };

    ghost inverse = { λ p. record { key = p.0; value = p.1 } };
}

impl<K: Keep, V: Keep> Register<K, V> {
    /// The register that holds this value under this key.
    pub fn new(key: K, value: V) -> Register<K, V>
        ensures { result ≡ (key, value) }
    {
        Register { key, value }
    }

    /// The key of the value's writing.
    pub fn key(&self) -> &K
        ensures { result.now ≡ self.now.0 }
    {
        &self.key
    }

    /// The value that was written last.
    pub fn value(&self) -> &V
        ensures { result.now ≡ self.now.1 }
    {
        &self.value
    }

    /// By key, then by value.
    fn compare(&self, other: &Register<K, V>) -> Ordering
        ensures { let by_key = K.order (K.shape self.now.0) (K.shape other.now.0) in
            let by_value = V.order (V.shape self.now.1) (V.shape other.now.1) in
            result ≡ ordering_then by_key by_value }
    {
        match self.key.cmp(&other.key) {
            Ordering::Equal => self.value.cmp(&other.value),
            decided => decided,
        }
    }
}

/// Takes no memory but for a copy.
impl<K: Keep, V: Keep> Join for Register<K, V> {
    ghost Shape = { K.Shape × V.Shape };

    ghost shape = { λ r. (K.shape r.0, V.shape r.1) };

    ghost joined = { ord_max (pair_order K.order V.order) };

    ghost is_infallible = { Unit {0} };

    ghost laws = { greater_join (pairs_exact K.ordered V.ordered) };

    fn join(&mut self, other: Register<K, V>) -> Result<(), NoMemory> {
        if self.compare(&other) != Ordering::Greater {
            *self = other;
        }
        Ok(())
    }

    fn covers(&self, other: &Register<K, V>) -> bool {
        self.compare(other) != Ordering::Less
    }

    fn same(&self, other: &Register<K, V>) -> bool {
        self.compare(other) == Ordering::Equal
    }

    fn copy(&self) -> Result<Register<K, V>, NoMemory> {
        Ok(Register::new(self.key.copy()?, self.value.copy()?))
    }
}
