//! The changes that a record has as open and that an answer doesn't list.

ghost use Rattle.std.specs.Prelude.{◌≡◌, IfOk};
ghost use Rattle.event_filter.specs.Bringing.{AreBodies};
ghost use Rattle.event_filter.specs.Vanishing.{abandons, is_new};

use super::bringing::add_body;
use change_core::Status;
use lattice_core::NoMemory;
use review_ops::{Body, Draft};
use state_core::State;
use std::alloc::Global;
use std::collections::BTreeSet;

/// An abandon of each change that a record has as open and that isn't listed, by number. Refusal: memory was refused.
/// It costs O(n log m) for n changes, of which m are listed.
pub fn vanished(alloc: Global, state: &State, listed: &BTreeSet<u32>) -> Result<Vec<Body>, NoMemory>
    ensures { IfOk result (λ bodies. AreBodies (abandons listed.now state.now) bodies.items) }
{
    let mut bodies = Vec::new(alloc);
    for (number, change) in state.changes() {
        if is_new(change.get().status()) && !listed.contains(number) {
            add_body(&mut bodies, Draft::Abandon { change: *number })?;
        }
    }
    Ok(bodies)
}

/// Whether a status is that of an open change.
fn is_new(status: Status) -> bool
    ensures { result ≡ is_new status }
{
    match status {
        Status::New => true,
        Status::Abandoned | Status::Merged => false,
    }
}
