//! A mark that once raised stays raised.

ghost use Rattle.std.specs.Prelude.{◌≡◌, ◌||◌, Bool};
ghost use Rattle.lattice_core.specs.Flag.{raised_join};

use super::join::Join;
use super::memory::NoMemory;
use std::marker::Model;

/// A mark that once raised stays raised: the join of two flags is raised where one of them is.
#[derive(Clone, Copy, Debug, PartialEq, Eq)]
pub struct Flag {
    raised: bool,
}

impl Model for Flag {
    ghost use Rattle.std.specs.Prelude.{Bool};

    ghost Value = { Bool };

    ghost view = { λ f. f.raised };

    ghost inverse = { λ b. record { raised = b } };
}

impl Flag {
    /// A flag that is raised or not.
    pub fn new(raised: bool) -> Flag
        ensures { result ≡ raised }
    {
        Flag { raised }
    }

    /// Whether it was raised.
    pub fn is_raised(&self) -> bool
        ensures { result ≡ self.now }
    {
        self.raised
    }
}

/// Takes no memory.
impl Join for Flag {
    ghost Shape = { Bool };

    ghost shape = { λ f. f };

    ghost joined = { ◌||◌ };

    ghost is_infallible = { Unit {0} };

    ghost laws = { raised_join };

    fn join(&mut self, other: Flag) -> Result<(), NoMemory> {
        self.raised = self.raised || other.raised;
        Ok(())
    }

    fn covers(&self, other: &Flag) -> bool {
        self.raised || !other.raised
    }

    fn same(&self, other: &Flag) -> bool {
        self.raised == other.raised
    }

    fn copy(&self) -> Result<Flag, NoMemory>
        ensures { result ≡ Ok self.now }
    {
        Ok(*self)
    }
}
