//! The room into which a source is read.

ghost use Rattle.std.specs.Prelude.{◌≡◌, ◌≤◌, ◌<◌, IfOk, vec_len};

use super::batches::Batches;
use lattice_core::NoMemory;
use std::alloc::Global;

/// How many bytes are read at once at first, at most: 1 MiB.
const FIRST: usize = 1_048_576;

/// After how many bytes as many are read at once as the batches want: 8 MiB.
const MANY: u64 = 8_388_608;

/// Room for the first bytes of a source: as much as the batches want, but 1 MiB at most, so that a short source costs
/// little.
pub fn first_room<B: Batches>(alloc: Global, batches: &B) -> Result<Vec<u8>, NoMemory>
    ensures { IfOk result (λ room. (0 < vec_len room) × (vec_len room ≤ 8388608)) }
{
    zeros(alloc, batches.size().min(FIRST))
}

/// Room for the bytes that come after so many of a source: this one, and as much as the batches want once 8 MiB came.
pub fn next_room<B: Batches>(
    alloc: Global,
    batches: &B,
    room: Vec<u8>,
    seen: u64,
) -> Result<Vec<u8>, NoMemory>
    requires { (0 < vec_len room) × (vec_len room ≤ 8388608) }
    ensures { IfOk result (λ next. (0 < vec_len next) × (vec_len next ≤ 8388608)) }
{
    let wanted = batches.size();
    if seen < MANY || wanted <= room.len() {
        return Ok(room);
    }
    zeros(alloc, wanted)
}

/// So many zeros.
fn zeros(alloc: Global, count: usize) -> Result<Vec<u8>, NoMemory>
    ensures { IfOk result (λ room. vec_len room ≡ count) }
{
    match vec![in alloc; 0u8; count] {
        Ok(room) => Ok(room),
        Err(_) => Err(NoMemory),
    }
}
