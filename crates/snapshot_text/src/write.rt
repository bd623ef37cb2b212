//! Writes snapshots.

ghost use Rattle.std.specs.Prelude.{◌≡◌, ◌<◌, ℕ, List, map, take, length, IfOk, OnOk, IsErrOf, MatchResult};
ghost use Rattle.std.specs.Io.KnownBytes.{Appends};
ghost use Rattle.byte_ends.specs.Lines.{lines_of};
ghost use Rattle.review_ops.specs.Operation.{Operation};
ghost use Rattle.replica_core.specs.InOrder.{IsInOrderOf};
ghost use Rattle.replica_core.specs.Journal.{AreApart};
ghost use Rattle.snapshot_text.specs.Snapshot.{SaysOperations, snapshot_text, CountsWriteFault};

use super::fault::WriteSnapFault;
use super::laws::snapshots_say_their_operations;
use byte_ends::{Drain, write_all};
use lattice_core::NoMemory;
use op_text::append_op;
use replica_core::{Gathering, Iter, Replica};
use review_ops::Op;
use std::alloc::Global;

/// Writes the snapshot of a replica: its operations in their order, each once. Refusals: 1 `WriteFault`, the drain
/// failed, and has taken what of the text went before; 2 `NoMemory`, nothing was written. It sorts references and
/// copies no operation. It costs O(n log n) for n operations, and O(m) for a text of m bytes, which is collected before
/// it is written.
pub fn write_snapshot<D: Drain>(
    alloc: Global,
    replica: &Replica,
    drain: &mut D,
) -> Result<(), WriteSnapFault>
    // What was written says these operations when it is read.
    ensures ok { OnOk result ((ops : List Operation) × IsInOrderOf replica.now ops
        × Appends (D.taken drain.old) (D.taken drain.new) (snapshot_text ops)
        × SaysOperations (lines_of (snapshot_text ops)) ops) }
    // Some prefix of the text was taken, not all.
    ensures cut { IsErrOf result WriteSnapFault.WriteFault
        → (ops : List Operation) × IsInOrderOf replica.now ops
        × (count : ℕ) × (count < length (snapshot_text ops))
        × Appends (D.taken drain.old) (D.taken drain.new) (take count (snapshot_text ops)) }
    ensures unwritten { IsErrOf result WriteSnapFault.NoMemory → D.taken drain.new ≡ D.taken drain.old }
    ensures counted { MatchResult result
        (λ _. D.failed drain.new ≡ D.failed drain.old)
        (CountsWriteFault (D.failed drain.old) (D.failed drain.new)) }
{
    write_ops(alloc, replica.iter(), drain)
}

/// Writes the snapshot of what was gathered, as `write_snapshot` writes that of a replica.
pub fn write_gathered<D: Drain>(
    alloc: Global,
    gathering: &Gathering,
    drain: &mut D,
) -> Result<(), WriteSnapFault>
    // What was written says these operations when it is read.
    ensures ok { OnOk result ((ops : List Operation) × IsInOrderOf gathering.now ops
        × Appends (D.taken drain.old) (D.taken drain.new) (snapshot_text ops)
        × SaysOperations (lines_of (snapshot_text ops)) ops) }
    // Some prefix of the text was taken, not all.
    ensures cut { IsErrOf result WriteSnapFault.WriteFault
        → (ops : List Operation) × IsInOrderOf gathering.now ops
        × (count : ℕ) × (count < length (snapshot_text ops))
        × Appends (D.taken drain.old) (D.taken drain.new) (take count (snapshot_text ops)) }
    ensures unwritten { IsErrOf result WriteSnapFault.NoMemory → D.taken drain.new ≡ D.taken drain.old }
    ensures counted { MatchResult result
        (λ _. D.failed drain.new ≡ D.failed drain.old)
        (CountsWriteFault (D.failed drain.old) (D.failed drain.new)) }
{
    write_ops(alloc, gathering.iter(), drain)
}

/// Writes the snapshot of the operations of a journal, as `write_snapshot` does.
fn write_ops<D: Drain>(
    alloc: Global,
    journal: Iter<'_>,
    drain: &mut D,
) -> Result<(), WriteSnapFault>
    requires { AreApart journal }
    // What was written says these operations when it is read.
    ensures ok { OnOk result ((ops : List Operation) × IsInOrderOf journal.entry ops
        × Appends (D.taken drain.old) (D.taken drain.new) (snapshot_text ops)
        × SaysOperations (lines_of (snapshot_text ops)) ops) }
    // Some prefix of the text was taken, not all.
    ensures cut { IsErrOf result WriteSnapFault.WriteFault
        → (ops : List Operation) × IsInOrderOf journal.entry ops
        × (count : ℕ) × (count < length (snapshot_text ops))
        × Appends (D.taken drain.old) (D.taken drain.new) (take count (snapshot_text ops)) }
    ensures unwritten { IsErrOf result WriteSnapFault.NoMemory → D.taken drain.new ≡ D.taken drain.old }
    ensures counted { MatchResult result
        (λ _. D.failed drain.new ≡ D.failed drain.old)
        (CountsWriteFault (D.failed drain.old) (D.failed drain.new)) }
{
    let ops = in_order(alloc, journal)?;
    let text = text_of(alloc, &ops)?;
    write_all(drain, &text)?;
    Ok(())
}

/// References to the operations of a journal, in their order.
fn in_order(alloc: Global, journal: Iter<'_>) -> Result<Vec<&Op>, NoMemory>
    requires { AreApart journal }
    ensures { IfOk result (λ sorted. IsInOrderOf journal.entry (map (λ op. op.now) sorted.items)) }
{
    let mut sorted = references(alloc, journal)?;
    sorted.sort_unstable();
    Ok(sorted)
}

/// A reference to each operation.
fn references(alloc: Global, ops: Iter<'_>) -> Result<Vec<&Op>, NoMemory>
    ensures { IfOk result (λ all. map (λ op. op.now) all.items ≡ ops.entry) }
{
    Ok(ops.collect(alloc)?)
}

/// The snapshot's text of operations in this order.
fn text_of(alloc: Global, ops: &[&Op]) -> Result<Vec<u8>, NoMemory>
    ensures text { IfOk result (λ text. text.items ≡ snapshot_text (map (λ op. op.now) ops.now)) }
    ensures says { OnOk result (SaysOperations
        (lines_of (snapshot_text (map (λ op. op.now) ops.now))) (map (λ op. op.now) ops.now)) }
{
    snapshots_say_their_operations();
    let mut text = Vec::new(alloc);
    text.extend_from_slice(b"reviewgate 2\n")?;
    for op in ops {
        prove!(op.stamp().seq() >= 1);
        prove!(op.body().change() >= 1);
        append_op(&mut text, op)?;
        text.push(b'\n')?;
    }
    let end = format!(in alloc; "end {}\n", ops.len())?;
    text.extend_from_slice(end.as_bytes())?;
    Ok(text)
}
