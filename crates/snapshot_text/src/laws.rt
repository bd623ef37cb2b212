//! What holds of snapshots, over the definitions alone.

ghost use Rattle.std.specs.Prelude.{◌≡◌, ◌<◌, ◌^◌, ℕ, List, length};
ghost use Rattle.byte_ends.specs.Lines.{lines_of};
ghost use Rattle.review_ops.specs.Operation.{Operation};
ghost use Rattle.replica_core.specs.InOrder.{IsInOrderOf};
ghost use Rattle.snapshot_text.specs.Snapshot.{SaysOperations, snapshot_text};
ghost use Rattle.snapshot_text.specs.Sound.{AreSoundOperations};

use op_text::operations_are_spelled;

/// A law: the text of a snapshot says its operations.
pub fn snapshots_say_their_operations()
    ensures { (ops : List Operation) → AreSoundOperations ops → length ops < 10 ^ 20
        → SaysOperations (lines_of (snapshot_text ops)) ops }
{
    operations_are_spelled();
}

/// A law: the operations of a journal have one list in order.
pub fn snapshots_are_one()
    ensures { (journal ops others : List Operation)
        → IsInOrderOf journal ops → IsInOrderOf journal others → ops ≡ others }
{}

/// A law: the lines of a text have one reading at most.
pub fn lines_have_one_reading()
    ensures { (lines : List (List ℕ)) → (ops others : List Operation)
        → SaysOperations lines ops → SaysOperations lines others → ops ≡ others }
{}
