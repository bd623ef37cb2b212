//! The changes that an item names as its dependencies.

ghost use Rattle.std.specs.Prelude.{IfOk};
ghost use Rattle.page_text.specs.Reached.{AreNames};

use gate_rules::Gate;
use graph_core::names_of;
use lattice_core::NoMemory;
use state_core::{Item, State};
use std::alloc::Global;

/// The changes that an item names, merged or not, in order: by a footer of its message, or as the change of its Git
/// parent. It costs O(n) for each base of the gate and a message of n bytes.
pub fn needs_of(alloc: Global, gate: &Gate, state: &State, item: Item) -> Result<Vec<u32>, NoMemory>
    ensures { IfOk result (λ needs. AreNames gate.now state.now item needs.items) }
{
    let mut needs = names_of(alloc, gate, state, item)?;
    needs.sort_unstable();
    needs.dedup();
    Ok(needs)
}
