//! Reads snapshots.

ghost use Rattle.std.specs.Prelude.{◌≡◌, ◌⊎◌, ◌≤◌, ◌<◌, ◌+◌, ◌-◌, ◌^◌, ◌++◌, length, OnOk, List, [], Some, IfOk, IfErr};
ghost use Rattle.std.specs.Prelude.{IfSome, MatchResult, vec_len, ℕ};
ghost use Rattle.std.specs.Io.KnownBytes.{Consumes, IsAtEnd};
ghost use Rattle.byte_ends.specs.Lines.{lines_of};
ghost use Rattle.review_ops.specs.Operation.{Operation};
ghost use Rattle.replica_core.specs.Journal.{all_arrived};
ghost use Rattle.snapshot_text.specs.Progress.{HasRead};
ghost use Rattle.snapshot_text.specs.Snapshot.{SaysOperations, most_bytes, IsRefusal, IsOfText};
ghost use Rattle.snapshot_text.specs.Snapshot.{Brings, IsOutside, IsRefusedBy, CountsSnapFault};

use super::blocks::Blocks;
use super::fault::SnapFault;
use byte_ends::Source;
use line_batches::{Batches, OneByOne, first_room, next_room};
use replica_core::{Gathering, Replica};
use std::alloc::Global;

/// The most bytes that a snapshot has: 1 GiB.
const SNAPSHOT_LIMIT: usize = 1_073_741_824;

/// Reads a snapshot to the end of its source: the replica in which its operations have arrived in the order of their
/// lines. It reads, refuses and costs what `read_onto` does.
pub fn read_snapshot<S: Source>(alloc: Global, source: &mut S) -> Result<Replica, SnapFault>
    ensures ok { IfOk result (λ replica. Brings (S.left source.old) [] replica) }
    ensures err { IfErr result (λ fault. IsRefusedBy (S.left source.old) fault) }

    // What says operations is read.
    ensures only { (text : List ℕ) → (ops : List Operation)
        → S.left source.old ≡ Some text → SaysOperations (lines_of text) ops
        → MatchResult result (λ replica. replica ≡ all_arrived [] ops) IsOutside }

    // Unless it is refused for another reason than its text, it was read to its end.
    ensures end { MatchResult result (λ _. IsAtEnd (S.left source.new))
        (λ fault. IsOutside fault ⊎ IsAtEnd (S.left source.new)) }
    ensures counted { MatchResult result
        (λ _. S.failed source.new ≡ S.failed source.old)
        (CountsSnapFault (S.failed source.old) (S.failed source.new)) }
{
    read_onto(Replica::new(alloc), source)
}

/// Reads a snapshot to the end of its source, into a replica that is given up for it, as `gather_onto` does: its
/// operations arrive, in the order of their lines, after what the replica has, and are joined into its state. It reads
/// and refuses what that does, and costs what that does and a gathering's `joined`.
pub fn read_onto<S: Source>(replica: Replica, source: &mut S) -> Result<Replica, SnapFault>
    ensures ok { IfOk result (λ both. Brings (S.left source.old) replica both) }
    ensures err { IfErr result (λ fault. IsRefusedBy (S.left source.old) fault) }

    // What says operations is read.
    ensures only { (text : List ℕ) → (ops : List Operation)
        → S.left source.old ≡ Some text → SaysOperations (lines_of text) ops
        → MatchResult result (λ both. both ≡ all_arrived replica ops) IsOutside }

    // Unless it is refused for another reason than its text, it was read to its end.
    ensures end { MatchResult result (λ _. IsAtEnd (S.left source.new))
        (λ fault. IsOutside fault ⊎ IsAtEnd (S.left source.new)) }
    ensures counted { MatchResult result
        (λ _. S.failed source.new ≡ S.failed source.old)
        (CountsSnapFault (S.failed source.old) (S.failed source.new)) }
{
    match gather_onto(Gathering::onto(replica), source) {
        Ok(gathering) => joined(gathering),
        Err(fault) => Err(fault),
    }
}

/// Reads a snapshot to the end of its source, into a gathering that is given up for it: its operations arrive, in the
/// order of their lines, after those of the gathering, and none is joined into a state. Lines may come in any order and
/// be repeated. The first line says version 1 or 2; the end line has 1 to 20 digits. Refusals, of which the first in
/// line order counts: 1 `BadHeader`, 2 `BadLine` with the line's number from 1 and the cause, 3 `NoEnd`, 4 `BadCount`,
/// 5 `AfterEnd`; and before any of them 6 `TooLong`, more than 1,073,741,824 bytes, and 7 `ReadFault`, the source
/// failed; 8 `NoMemory`. So what comes after a line that is refused is read to its end. Neither the gathering nor
/// anything of a refused snapshot is handed out. It reads up to 64 KiB at once, and holds no more of the text than that
/// and the beginning of a line. It costs O(n) for n bytes, beside what a gathering's `take` costs for each operation.
pub fn gather_onto<S: Source>(gathering: Gathering, source: &mut S) -> Result<Gathering, SnapFault>
    ensures ok { IfOk result (λ both. Brings (S.left source.old) gathering both) }
    ensures err { IfErr result (λ fault. IsRefusedBy (S.left source.old) fault) }

    // What says operations is read.
    ensures only { (text : List ℕ) → (ops : List Operation)
        → S.left source.old ≡ Some text → SaysOperations (lines_of text) ops
        → MatchResult result (λ both. both ≡ all_arrived gathering ops) IsOutside }

    // Unless it is refused for another reason than its text, it was read to its end.
    ensures end { MatchResult result (λ _. IsAtEnd (S.left source.new))
        (λ fault. IsOutside fault ⊎ IsAtEnd (S.left source.new)) }
    ensures counted { MatchResult result
        (λ _. S.failed source.new ≡ S.failed source.old)
        (CountsSnapFault (S.failed source.old) (S.failed source.new)) }
{
    gather_by(&OneByOne, gathering, source)
}

/// Reads a snapshot as `gather_onto` does, and the lines of its operations in batches: it reads up to a batch's size at
/// once, and holds no more of the text than that and the beginning of a line.
pub fn gather_by<B: Batches, S: Source>(
    batches: &B,
    gathering: Gathering,
    source: &mut S,
) -> Result<Gathering, SnapFault>
    ensures ok { IfOk result (λ both. Brings (S.left source.old) gathering both) }
    ensures err { IfErr result (λ fault. IsRefusedBy (S.left source.old) fault) }

    // What says operations is read.
    ensures only { (text : List ℕ) → (ops : List Operation)
        → S.left source.old ≡ Some text → SaysOperations (lines_of text) ops
        → MatchResult result (λ both. both ≡ all_arrived gathering ops) IsOutside }

    // Unless it is refused for another reason than its text, it was read to its end.
    ensures end { MatchResult result (λ _. IsAtEnd (S.left source.new))
        (λ fault. IsOutside fault ⊎ IsAtEnd (S.left source.new)) }
    ensures counted { MatchResult result
        (λ _. S.failed source.new ≡ S.failed source.old)
        (CountsSnapFault (S.failed source.old) (S.failed source.new)) }
{
    let alloc = gathering.allocator();
    let Ok(mut block) = first_room(alloc, batches) else {
        return Err(SnapFault::NoMemory);
    };
    let mut blocks = Blocks::onto(gathering);
    let mut seen = 0usize;
    while seen <= SNAPSHOT_LIMIT {
        match read_block(batches, source, block.as_mut_slice(), &mut blocks)? {
            0 => return blocks.end(),
            count => {
                seen += count;
                block = room_after(alloc, batches, block, seen)?;
            }
        }
    }
    Err(SnapFault::TooLong)
}

/// The room for what comes after so many bytes.
fn room_after<B: Batches>(
    alloc: Global,
    batches: &B,
    block: Vec<u8>,
    seen: usize,
) -> Result<Vec<u8>, SnapFault>
    requires { (0 < vec_len block) × (vec_len block ≤ 8388608) }
    ensures room { IfOk result (λ next. (0 < vec_len next) × (vec_len next ≤ 8388608)) }
    ensures fault { IfErr result (λ fault. fault ≡ SnapFault.NoMemory) }
{
    match next_room(alloc, batches, block, seen as u64) {
        Ok(next) => Ok(next),
        Err(_) => Err(SnapFault::NoMemory),
    }
}

/// Reads once, and takes what came. 0 is the end.
fn read_block<B: Batches, S: Source>(
    batches: &B,
    source: &mut S,
    block: &mut [u8],
    blocks: &mut Blocks,
) -> Result<usize, SnapFault>
    requires { blocks.old.cutter.progress.count + length block.old < 2 ^ 64 - 2 }
    ensures read { IfOk result (λ count. (part : List ℕ) × (length part ≡ count)
        × Consumes (S.left source.old) (S.left source.new) part
        × ((base : List Operation) → (came : List ℕ) → HasRead base came blocks.old
        → HasRead base (came ++ part) blocks.new)) }
    ensures most { IfOk result (λ count. count ≤ length block.old) }
    ensures end { IfOk result (λ count. count ≡ 0 → 0 < length block.old → IsAtEnd (S.left source.new)) }
    ensures few { IfOk result (λ count. blocks.new.cutter.progress.count ≤ blocks.old.cutter.progress.count + count) }
    ensures fault { IfErr result (λ fault. fault ≡ SnapFault.ReadFault) }
    ensures counted { MatchResult result
        (λ _. S.failed source.new ≡ S.failed source.old)
        (CountsSnapFault (S.failed source.old) (S.failed source.new)) }
{
    let Ok(count) = source.read(block) else {
        return Err(SnapFault::ReadFault);
    };
    blocks.take_block(batches, block.split_at(count).0);
    Ok(count)
}

/// Reads the text of a snapshot as `read_snapshot` reads what a source has, for a caller that has the bytes and has
/// seen to their limit. Of the refusals 6 and 7 never come. It costs what `read_onto` does.
pub fn snapshot_of(alloc: Global, text: &[u8]) -> Result<Replica, SnapFault>
    requires { length text.now ≤ most_bytes }
    ensures ok { IfOk result (λ replica. (ops : List Operation)
        × SaysOperations (lines_of text.now) ops × (replica ≡ all_arrived [] ops)) }
    ensures err { IfErr result (λ fault. IsRefusal text.now fault × IsOfText fault) }

    // What says operations is read.
    ensures only { (ops : List Operation) → SaysOperations (lines_of text.now) ops
        → MatchResult result
        (λ replica. replica ≡ all_arrived [] ops) (λ fault. fault ≡ SnapFault.NoMemory) }
{
    snapshot_onto(Replica::new(alloc), text)
}

/// Reads the text of a snapshot, as `snapshot_of` does, into a replica that is given up for it, as `read_onto` does.
/// It costs what that does.
pub fn snapshot_onto(replica: Replica, text: &[u8]) -> Result<Replica, SnapFault>
    requires { length text.now ≤ most_bytes }
    ensures ok { IfOk result (λ both. (ops : List Operation)
        × SaysOperations (lines_of text.now) ops × (both ≡ all_arrived replica ops)) }
    ensures err { IfErr result (λ fault. IsRefusal text.now fault × IsOfText fault) }

    // What says operations is read.
    ensures only { (ops : List Operation) → SaysOperations (lines_of text.now) ops
        → MatchResult result
        (λ both. both ≡ all_arrived replica ops) (λ fault. fault ≡ SnapFault.NoMemory) }
{
    let mut blocks = Blocks::onto(Gathering::onto(replica));
    blocks.take_block(&OneByOne, text);
    match blocks.end() {
        Ok(gathering) => joined(gathering),
        Err(fault) => Err(fault),
    }
}

/// The replica of all that was gathered.
fn joined(gathering: Gathering) -> Result<Replica, SnapFault>
    ensures { MatchResult result
        (λ replica. replica ≡ gathering) (λ fault. fault ≡ SnapFault.NoMemory) }
{
    match gathering.joined() {
        Ok(replica) => Ok(replica),
        Err(_) => Err(SnapFault::NoMemory),
    }
}
