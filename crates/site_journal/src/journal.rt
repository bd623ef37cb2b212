//! A journal: operations are appended to it, and what is acknowledged stays.

ghost use Rattle.std.specs.Prelude.{◌≡◌, ◌≤◌, ◌+◌, ◌⊎◌, ◌++◌, ◌∷◌, [], ℕ, List, Err, Some, false, IfOk, IfErr, IfSome, IsOk, IsSome};
ghost use Rattle.std.specs.Prelude.{MatchResult, OnOk, length, map, vec_len};
ghost use Rattle.review_ops.specs.Operation.{Operation};
ghost use Rattle.snapshot_text.specs.Snapshot.{operation_lines};
ghost use Rattle.snapshot_text.specs.Sound.{AreSoundOperations};
ghost use Rattle.byte_ends.specs.Failures.{most_failures};
ghost use Rattle.site_journal.specs.Book.{CountsWritten, IsFull, IsHolding, IsKeptAfter, IsLeftRefused, IsNotKept, IsOpened};
ghost use Rattle.site_journal.specs.Book.{IsUnwritten, IsWritten, SurvivesCrashes, TakesBack};
ghost use Rattle.site_journal.specs.Fault.{CountsJournalFault, IsJournalRefusal};
ghost use Rattle.site_journal.specs.Tape.{Changes, IsAtStart, IsSettled};
ghost use Rattle.site_journal.specs.Text.{AreShort};

use crate::fault::{JournalFault, KeepFault};
use crate::laws::{crashes_lose_nothing_acknowledged, journals_say_their_operations};
use crate::opening::{Opened, open_tape_by};
use crate::tape::Tape;
use line_batches::{Batches, OneByOne};
use line_reader::LINE_LIMIT;
use op_text::append_op;
use replica_core::Replica;
use review_ops::Op;
use std::alloc::Global;
use std::marker::Model;

/// The journal of a site, over a tape. Contracts see what the tape has, how many of its calls failed, and whether it
/// keeps nothing any more.
#[derive(Drop)]
pub struct Journal<T: Tape> {
    alloc: Global,
    tape: T,
    len: u64,
    is_spoiled: bool,
}

impl<T: Tape> Model for Journal<T> {
    ghost use Rattle.site_journal.specs.Book.{Book, IsSteady};

    ghost Value = { Book };

    ghost view = { λ j. record { image = T.image j.tape; failed = T.failed j.tape; is_spoiled = j.is_spoiled } };

    ghost invariant = { λ j. IsSteady (T.image j.tape) j.len j.is_spoiled };
}

/// A journal that was opened, and what it has.
#[derive(Drop)]
pub struct Started<T: Tape> {
    pub journal: Journal<T>,
    /// Its operations, in the order of their lines.
    pub replica: Replica,
    /// How many bytes of a torn line were cut off.
    pub torn: usize,
}

impl<T: Tape + Drop> Journal<T> {
    /// Opens the journal on a tape that was just opened, as `open_tape` does: all that it answers is synced.
    pub fn open(alloc: Global, tape: T) -> Result<Started<T>, JournalFault>
        requires { IsAtStart (T.image tape) (T.left tape) }
        ensures ok { IfOk result
            (λ started. (started.journal.is_spoiled ≡ false) × Changes (T.image tape) started.journal.image
            (λ i j. IsSettled j × IsOpened i.contents started.replica started.torn j.contents)) }
        ensures holds { IfOk result (λ started. (ops : List Operation) × IsHolding started.journal ops) }
        ensures refused { IfErr result (λ fault. IfSome (T.image tape) (λ i. IsJournalRefusal i.contents fault)) }
        ensures counted { MatchResult result (λ started. started.journal.failed ≡ T.failed tape)
            (λ fault. (later : T) × CountsJournalFault (T.failed tape) (T.failed later) fault
            × IsLeftRefused (T.image tape) fault (T.image later)) }
    {
        Journal::open_by(alloc, &OneByOne, tape)
    }

    /// Opens the journal as `open` does, and reads its lines in batches.
    pub fn open_by<B: Batches>(
        alloc: Global,
        batches: &B,
        tape: T,
    ) -> Result<Started<T>, JournalFault>
        requires { IsAtStart (T.image tape) (T.left tape) }
        ensures ok { IfOk result
            (λ started. (started.journal.is_spoiled ≡ false) × Changes (T.image tape) started.journal.image
            (λ i j. IsSettled j × IsOpened i.contents started.replica started.torn j.contents)) }
        ensures holds { IfOk result (λ started. (ops : List Operation) × IsHolding started.journal ops) }
        ensures refused { IfErr result (λ fault. IfSome (T.image tape) (λ i. IsJournalRefusal i.contents fault)) }
        ensures counted { MatchResult result (λ started. started.journal.failed ≡ T.failed tape)
            (λ fault. (later : T) × CountsJournalFault (T.failed tape) (T.failed later) fault
            × IsLeftRefused (T.image tape) fault (T.image later)) }
    {
        let mut tape = tape;
        let Opened { replica, len, torn } = open_tape_by(alloc, batches, &mut tape)?;
        Ok(Started {
            journal: Journal {
                alloc,
                tape,
                len,
                is_spoiled: false,
            },
            replica,
            torn,
        })
    }
}

impl<T: Tape> Journal<T> {
    /// Adds the lines of the operations, and has them stay: at `Ok` they are acknowledged. At `Err` none of them is:
    /// where the tape failed it is cut back to what was acknowledged and that is synced, and where that fails too, or a
    /// sync has failed, the journal keeps nothing any more. `TooLong` is only for an operation whose line has more than
    /// 524,288 bytes, and for a journal of 2^64 bytes. Whatever a crash leaves says what was acknowledged, and
    /// then the first so many of the operations. It costs O(n) for n bytes of their lines, and one sync.
    pub fn append(&mut self, ops: &[Op]) -> Result<(), KeepFault>
        ensures ok { OnOk result (IsKeptAfter self.old ops.now self.new) }
        ensures holds { OnOk result
            ((before : List Operation) → IsHolding self.old before → IsHolding self.new (before ++ ops.now)) }
        ensures err { IfErr result (λ fault. IsNotKept self.old fault self.new) }
        ensures long { result ≡ Err KeepFault.TooLong → (¬ AreShort ops.now) ⊎ IsFull self.old ops.now }
        ensures any_crash { (before : List Operation) → IsHolding self.old before
            → SurvivesCrashes self.new before ops.now (IsOk result) }

        // What is known of the tape stays known, also where the journal is spoiled.
        ensures known { IfSome self.old.image (λ _. IsSome self.new.image) }
        ensures counted { OnOk result (self.new.failed ≡ self.old.failed) }
    {
        journals_say_their_operations();
        crashes_lose_nothing_acknowledged();
        if self.is_spoiled {
            return Err(KeepFault::Spoiled);
        }
        let lines = lines_of(self.alloc, ops)?;
        let Some(len) = self.len.checked_add(lines.len() as u64) else {
            return Err(KeepFault::TooLong);
        };
        match write_lines(&mut self.tape, self.len, lines.as_slice()) {
            Written::Kept => {
                self.len = len;
                Ok(())
            }
            Written::Undone => Err(KeepFault::Failed),
            Written::Doubtful => {
                self.is_spoiled = true;
                Err(KeepFault::Failed)
            }
        }
    }
}

impl<T: Tape> Journal<T> {
    /// How many bytes of it are synced, as long as it isn't spoiled.
    pub fn len(&self) -> u64
        ensures { self.now.is_spoiled ≡ false → IfSome self.now.image (λ i. length i.contents ≡ result) }
    {
        self.len
    }

    /// The tape, to look at.
    pub fn tape(&self) -> &T
        ensures { T.image result.now ≡ self.now.image }
    {
        &self.tape
    }
}

/// The lines of operations, each of which is short enough to be read.
fn lines_of(alloc: Global, ops: &[Op]) -> Result<Vec<u8>, KeepFault>
    ensures lines { IfOk result (λ lines. lines.items ≡ operation_lines ops.now) }
    ensures sound { OnOk result (AreSoundOperations ops.now) }
    ensures short { OnOk result (AreShort ops.now) }
    ensures err { IfErr result (λ fault. IsUnwritten fault) }
    ensures long { result ≡ Err KeepFault.TooLong → ¬ AreShort ops.now }
{
    let mut lines = Vec::new(alloc);
    for op in ops {
        prove!(op.stamp().seq() >= 1);
        prove!(op.body().change() >= 1);
        let start = lines.as_slice().len();
        append_op(&mut lines, op)?;
        if lines.as_slice().len() - start > LINE_LIMIT {
            return Err(KeepFault::TooLong);
        }
        lines.push(b'\n')?;
    }
    Ok(lines)
}

/// What became of lines.
#[derive(Clone, Copy, PartialEq, Eq)]
pub enum Written {
    /// They stay.
    Kept,
    /// They are gone, and all else stays.
    Undone,
    /// Some of them may stay, as may all else.
    Doubtful,
}

/// Writes lines past what is synced, and has them stay; or takes them back.
fn write_lines<T: Tape>(tape: &mut T, len: u64, lines: &[u8]) -> Written
    requires { IfSome (T.image tape.old) (λ i. IsSettled i × (length i.contents ≡ len)) }
    ensures written { Changes (T.image tape.old) (T.image tape.new) (λ i j. IsWritten i lines.now result j) }
    ensures counted { CountsWritten (T.failed tape.old) (T.failed tape.new) result }
{
    if tape.append(lines).is_err() {
        if take_back(tape, len) {
            return Written::Undone;
        }
        return Written::Doubtful;
    }
    if tape.sync().is_err() {
        let _undone = take_back(tape, len);
        return Written::Doubtful;
    }
    Written::Kept
}

/// Takes back what is past what is synced, and has that stay. Whether both were done.
fn take_back<T: Tape>(tape: &mut T, len: u64) -> bool
    requires { IfSome (T.image tape.old) (λ i. len ≤ length i.contents) }
    ensures back { Changes (T.image tape.old) (T.image tape.new) (TakesBack len result) }
    ensures rises { T.failed tape.old ≤ most_failures → T.failed tape.old ≤ T.failed tape.new }
{
    if tape.cut(len).is_err() {
        let _synced = tape.sync();
        return false;
    }
    tape.sync().is_ok()
}
