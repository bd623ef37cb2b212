//! A last-writer-wins register that may be empty.

ghost use Rattle.std.specs.Prelude.{◌≡◌, Option, Some, None};
ghost use Rattle.std.specs.Option.{option_copied, option_map};
ghost use Rattle.std.specs.Ordering.{ord_max};
ghost use Rattle.lattice_core.specs.Keep.{pair_order, pairs_exact};
ghost use Rattle.lattice_core.specs.Join.{option_joined, options_join};
ghost use Rattle.lattice_core.specs.Greatest.{greater_join};

use super::join::Join;
use super::keep::Keep;
use super::memory::NoMemory;
use super::register::Register;
use std::marker::Model;

/// The greatest pair of a key and a value so far, if any: a last-writer-wins register that may be empty. The empty one
/// is least.
#[derive(Debug, Drop)]
pub struct Greatest<K, V> {
    best: Option<Register<K, V>>,
}

impl<K, V> Model for Greatest<K, V> {
    ghost use Rattle.std.specs.Prelude.{Option};

    ghost Value = { Option (K × V) };

    ghost view = { λ g. g.best };

    ghost inverse = { λ o. record { best = o } };
}

impl<K: Keep, V: Keep> Greatest<K, V> {
    /// The empty one.
    pub fn new() -> Greatest<K, V>
        ensures { result ≡ None }
    {
        Greatest { best: None }
    }

    /// The one that holds this value under this key.
    pub fn of(key: K, value: V) -> Greatest<K, V>
        ensures { result ≡ Some (key, value) }
    {
        Greatest {
            best: Some(Register::new(key, value)),
        }
    }

    /// The greatest pair, if there is one.
    pub fn get(&self) -> Option<&Register<K, V>>
        ensures { option_copied result ≡ self.now }
    {
        self.best.as_ref()
    }
}

/// Takes no memory but for a copy.
impl<K: Keep, V: Keep> Join for Greatest<K, V> {
    ghost Shape = { Option (K.Shape × V.Shape) };

    ghost shape = { option_map (λ r. (K.shape r.0, V.shape r.1)) };

    ghost joined = { option_joined (ord_max (pair_order K.order V.order)) };

    ghost is_infallible = { Unit {0} };

    ghost laws = { options_join (greater_join (pairs_exact K.ordered V.ordered)) };

    fn join(&mut self, other: Greatest<K, V>) -> Result<(), NoMemory> {
        let Some(theirs) = other.best else {
            return Ok(());
        };
        match &mut self.best {
            Some(own) => own.join(theirs),
            None => {
                self.best = Some(theirs);
                Ok(())
            }
        }
    }

    fn covers(&self, other: &Greatest<K, V>) -> bool {
        match (&self.best, &other.best) {
            (_, None) => true,
            (None, Some(_)) => false,
            (Some(own), Some(theirs)) => own.covers(theirs),
        }
    }

    fn same(&self, other: &Greatest<K, V>) -> bool {
        match (&self.best, &other.best) {
            (None, None) => true,
            (Some(own), Some(theirs)) => own.same(theirs),
            _ => false,
        }
    }

    fn copy(&self) -> Result<Greatest<K, V>, NoMemory> {
        match &self.best {
            Some(own) => Ok(Greatest {
                best: Some(own.copy()?),
            }),
            None => Ok(Greatest::new()),
        }
    }
}
