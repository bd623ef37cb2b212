//! Bytes that are cut at their line ends.

ghost use Rattle.std.specs.Prelude.{◌≡◌, ◌≤◌, drop, length, MatchOption};
ghost use Rattle.line_reader.specs.Lines.{HasNoLf};
ghost use Rattle.sealed_ends.specs.Batches.{EndsBatch};

use memchr::{memchr, memrchr};

/// How many bytes of lines are sealed at once, with their line ends; one line may have more.
pub const BATCH: usize = 16_384;

/// The place of the line end up to which lines are sealed at once: the last among so many bytes at the front, or the
/// first of all where none is among these. It takes no memory.
pub fn batch_end(bytes: &[u8], room: usize) -> Option<usize>
    ensures { MatchOption result (HasNoLf bytes.now) (EndsBatch room bytes.now) }
{
    match memrchr(b'\n', &bytes[..room.min(bytes.len())]) {
        Some(at) => Some(at),
        None => memchr(b'\n', bytes),
    }
}

/// Gives up so many bytes at the front.
pub(super) fn drop_front(bytes: &mut Vec<u8>, count: usize)
    requires { count ≤ length bytes.old.items }
    ensures { bytes.new.items ≡ drop count bytes.old.items }
{
    bytes.drain(..count);
}
