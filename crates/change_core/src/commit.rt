//! What a patch set is.

ghost use Rattle.std.specs.Prelude.{refl, string_bytes};
ghost use Rattle.change_core.specs.Slots.{Patch, patch_cmp, patches_exact};

use lattice_core::{Keep, NoMemory};
use std::alloc::{Allocator, Global};

/// What a patch set is: the commit's message, and the change that its Git parent belongs to, where it names one.
///
/// Commits are ordered by message, byte by byte, then by parent, none being least.
#[derive(Drop)]
#[derive_where(PartialEq, Eq, PartialOrd, Ord)]
pub struct Commit<A: Allocator = Global> {
    /// The commit message.
    pub message: String<A>,
    /// The number of the parent's change.
    pub parent: Option<u32>,
}

impl<A: Allocator + Clone> Keep for Commit<A> {
    ghost Shape = { Patch };

    ghost shape = { λ c. record { message = string_bytes c.message; parent = c.parent } };

    ghost order = { patch_cmp };

    ghost compares = { λ a b. refl };

    ghost ordered = { patches_exact };

    fn copy(&self) -> Result<Commit<A>, NoMemory> {
        let message = self.message.clone()?;
        Ok(Commit {
            message,
            parent: self.parent,
        })
    }
}
