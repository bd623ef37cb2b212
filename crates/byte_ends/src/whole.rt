//! Writes all of some bytes, and reads all that a source has, up to a limit.

ghost use Rattle.std.specs.Prelude.{◌≡◌, ℕ, ◌+◌, ◌<◌, ◌≤◌, ◌++◌, List, length, take, vec_len, IfOk, IfSome, OnOk};
ghost use Rattle.std.specs.Prelude.{OnErr, IsErrOf};
ghost use Rattle.std.specs.Io.KnownBytes.{Appends, Consumes, IsAtEnd};
ghost use Rattle.byte_ends.specs.Failures.{CountsFailure};
ghost use Rattle.byte_ends.specs.ReadAll.{CountsRead};

use super::faults::{BytesFault, Failed};
use super::traits::{Drain, Source};
use std::alloc::Allocator;

/// Writes all bytes of the slice, by as many writes as the drain needs. Where one fails, the drain
/// has taken what the writes before it took, and nothing is tried again. Takes no memory.
pub fn write_all<D: Drain>(drain: &mut D, bytes: &[u8]) -> Result<(), Failed>
    ensures ok { OnOk result (Appends (D.taken drain.old) (D.taken drain.new) bytes.now) }
    // Some prefix of the bytes was taken, not all.
    ensures err { OnErr result ((count : ℕ) × (count < length bytes.now)
        × Appends (D.taken drain.old) (D.taken drain.new) (take count bytes.now)) }
    ensures counted { CountsFailure (D.failed drain.old) (D.failed drain.new) result }
{
    let mut rest = bytes;
    while !rest.is_empty() {
        let count = drain.write(rest)?;
        rest = rest.split_at(count).1;
    }
    Ok(())
}

/// How many bytes are read at once.
const PIECE: usize = 65536;

/// Reads all bytes that are left, which are at most `limit`. It reads up to 64 KiB at once, and at
/// most one byte past the limit. Refusals: 6 `TooLong`, there are more; 7 `ReadFault`, the source
/// failed; 8 `NoMemory`. Where it refuses, the bytes that it read are gone. It costs O(bytes).
pub fn read_all<S: Source, A: Allocator + Copy>(
    alloc: A,
    source: &mut S,
    limit: usize,
) -> Result<Vec<u8, A>, BytesFault>
    ensures ok { IfOk result (λ bytes. IfSome (S.left source.old) (λ left. bytes.items ≡ left)) }
    ensures within { IfOk result (λ bytes. vec_len bytes ≤ limit) }
    ensures end { OnOk result (IsAtEnd (S.left source.new)) }
    ensures too_long { IsErrOf result BytesFault.TooLong
        → IfSome (S.left source.old) (λ left. limit < length left) }
    // Some bytes were read, and no more than one past the limit.
    ensures lost { OnErr result ((bytes : List ℕ) × (length bytes ≤ limit + 1)
        × Consumes (S.left source.old) (S.left source.new) bytes) }
    ensures counted { CountsRead (S.failed source.old) (S.failed source.new) result }
{
    let most = limit.min(PIECE - 1) + 1;
    let Ok(mut piece) = vec![in alloc; 0u8; most] else {
        return Err(BytesFault::NoMemory);
    };
    let mut bytes = Vec::new(alloc);
    while bytes.len() <= limit {
        let most = (limit - bytes.len()).min(PIECE - 1) + 1;
        if read_piece(source, &mut piece[..most], &mut bytes)? == 0 {
            return Ok(bytes);
        }
    }
    Err(BytesFault::TooLong)
}

/// Reads once, and adds what came. 0 is the end.
fn read_piece<S: Source, A: Allocator>(
    source: &mut S,
    piece: &mut [u8],
    bytes: &mut Vec<u8, A>,
) -> Result<usize, BytesFault>
    ensures read { IfOk result (λ count. (part : List ℕ) × (length part ≡ count)
        × (bytes.new.items ≡ bytes.old.items ++ part)
        × Consumes (S.left source.old) (S.left source.new) part) }
    ensures most { IfOk result (λ count. count ≤ length piece.old) }
    ensures end { IfOk result
        (λ count. count ≡ 0 → 0 < length piece.old → IsAtEnd (S.left source.new)) }
    ensures lost { OnErr result ((part : List ℕ) × (length part ≤ length piece.old)
        × Consumes (S.left source.old) (S.left source.new) part) }
    ensures fault { IsErrOf result BytesFault.TooLong → ⊥ }
    ensures counted { CountsRead (S.failed source.old) (S.failed source.new) result }
{
    let Ok(count) = source.read(piece) else {
        return Err(BytesFault::ReadFault);
    };
    if bytes.extend_from_slice(&piece[..count]).is_err() {
        return Err(BytesFault::NoMemory);
    }
    Ok(count)
}
