//! Two states side by side.

ghost use Rattle.lattice_core.specs.Join.{pair_joined, pairs_join};

use super::join::Join;
use super::memory::NoMemory;

/// Two states side by side, joined part by part.
#[derive(Debug, Drop)]
pub struct Both<A, B> {
    pub first: A,
    pub second: B,
}

/// Takes no memory where neither part does.
impl<A: Join, B: Join> Join for Both<A, B> {
    ghost Shape = { A.Shape × B.Shape };

    ghost shape = { λ s. (A.shape s.first, B.shape s.second) };

    ghost joined = { pair_joined A.joined B.joined };

    ghost is_infallible = { A.is_infallible × B.is_infallible };

    ghost laws = { pairs_join A.laws B.laws };

    fn join(&mut self, other: Both<A, B>) -> Result<(), NoMemory> {
        let Both { first, second } = other;
        self.first.join(first)?;
        self.second.join(second)?;
        Ok(())
    }

    fn covers(&self, other: &Both<A, B>) -> bool {
        self.first.covers(&other.first) && self.second.covers(&other.second)
    }

    fn same(&self, other: &Both<A, B>) -> bool {
        self.first.same(&other.first) && self.second.same(&other.second)
    }

    fn copy(&self) -> Result<Both<A, B>, NoMemory> {
        Ok(Both {
            first: self.first.copy()?,
            second: self.second.copy()?,
        })
    }
}
