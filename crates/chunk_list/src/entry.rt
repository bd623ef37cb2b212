//! Items that know their place in a list.

ghost use Rattle.std.specs.Prelude.{◌≡◌, Bool, Result};
ghost use Rattle.lattice_core.specs.declared.memory.NoMemory.{NoMemory};

use super::probe::Probe;
use lattice_core::NoMemory;

/// An item that knows its place in a list: it comes before the first item that it doesn't pass, or is merged into that
/// one where the two meet.
pub trait Entry: Probe<Self> + Drop + Sized {
    ghost meets: { Self → Self → Bool };

    /// What a merge into an item answers, and what that item is then.
    ghost merges: { Self → Self → Result (Unit {0}) NoMemory → Self → Type 0 };

    /// Whether the two are for one place.
    fn meets(&self, held: &Self) -> bool
        ensures { result ≡ meets self.now held.now };

    /// Merges this into the item that it meets.
    fn merge_into(self, held: &mut Self) -> Result<(), NoMemory>
        ensures { merges self held.old result held.new };
}
