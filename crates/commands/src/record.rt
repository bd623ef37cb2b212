//! The state of a record that a command read.

ghost use Rattle.std.specs.Prelude.{◌≡◌, IfErr, IfOk};
ghost use Rattle.state_core.specs.State.{state_of};

use console::{Console, Refusal};
use replica_core::Gathering;
use state_core::State;
use std::alloc::Global;

/// The state of a record whose journal isn't needed any more. Refusal: `Memory`.
pub(super) fn state_from<C: Console>(
    console: &C,
    gathering: Gathering,
) -> Result<State, Refusal<'static>>
    ensures state { IfOk result (λ state. state ≡ state_of gathering) }
    ensures refused { IfErr result (λ refusal. refusal ≡ Refusal.Memory) }
{
    match console.state_from(gathering) {
        Ok(state) => Ok(state),
        Err(_) => Err(Refusal::Memory),
    }
}
