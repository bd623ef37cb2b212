//! The changes that operations are on.

ghost use Rattle.std.specs.Prelude.{◌≡◌, ℕ, IfOk};
ghost use Rattle.std.specs.Ordering.{nat_cmp};
ghost use Rattle.std.specs.BTreeSet.{contains};
ghost use Rattle.watch_core.specs.Touched.{touches};

use lattice_core::NoMemory;
use replica_core::Iter;
use std::alloc::Global;
use std::collections::BTreeSet;

/// The changes that some operations are on.
pub fn touched_changes(alloc: Global, ops: Iter<'_>) -> Result<BTreeSet<u32>, NoMemory>
    ensures { IfOk result (λ touched. (number : ℕ) → contains nat_cmp touched number ≡ touches ops.entry number) }
{
    let mut touched = BTreeSet::new(alloc);
    for op in ops {
        touched.insert(op.body().change())?;
    }
    Ok(touched)
}
