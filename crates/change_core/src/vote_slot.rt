//! The slots of votes.

ghost use Rattle.std.specs.Prelude.{refl, string_bytes};
ghost use Rattle.change_core.specs.Slots.{Slot, slot_cmp, slots_exact};

use lattice_core::{Keep, NoMemory};
use std::alloc::{Allocator, Global};

/// The slot of a vote: Gerrit has one score for each patch set, label and voter.
#[derive(Drop)]
#[derive_where(PartialEq, Eq, PartialOrd, Ord)]
pub struct VoteSlot<A: Allocator = Global> {
    /// The number of the patch set.
    pub set: u32,
    /// The label, in lower case.
    pub label: String<A>,
    /// Who votes.
    pub voter: String<A>,
}

impl<A: Allocator + Clone> Keep for VoteSlot<A> {
    ghost Shape = { Slot };

    ghost shape = { λ s. record { set = s.set; label = string_bytes s.label; voter = string_bytes s.voter } };

    ghost order = { slot_cmp };

    ghost compares = { λ a b. refl };

    ghost ordered = { slots_exact };

    fn copy(&self) -> Result<VoteSlot<A>, NoMemory> {
        let label = self.label.clone()?;
        let voter = self.voter.clone()?;
        Ok(VoteSlot {
            set: self.set,
            label,
            voter,
        })
    }
}
