//! Opens a journal: reads it, cuts off a line that was torn, and has all of it synced before anything of it is
//! answered.

ghost use Rattle.std.specs.Prelude.{◌≡◌, ◌⊎◌, ◌+◌, false, IfOk, IfErr, IfSome, IsErrOf, MatchResult, OnErr, OnOk};
ghost use Rattle.std.specs.Prelude.{length, take};
ghost use Rattle.byte_ends.specs.Failures.{CountsFailure};
ghost use Rattle.site_journal.specs.Book.{IsOpened, IsUnharmed};
ghost use Rattle.site_journal.specs.Fault.{CountsJournalFault, IsJournalRefusal};
ghost use Rattle.site_journal.specs.Prefixes.{IsPrefix};
ghost use Rattle.site_journal.specs.Tape.{Changes, IsAtStart, IsSettled};
ghost use Rattle.site_journal.specs.Text.{IsFresh, header_line};

use crate::fault::JournalFault;
use crate::reading::{Found, HEADER, read_text};
use crate::tape::Tape;
use byte_ends::Failed;
use line_batches::{Batches, OneByOne};
use replica_core::Replica;
use std::alloc::Global;

/// What a journal has, once it was opened.
#[derive(Drop)]
pub struct Opened {
    /// Its operations, in the order of their lines.
    pub replica: Replica,
    /// How many bytes it has.
    pub len: u64,
    /// How many bytes of a torn line were cut off.
    pub torn: usize,
}

/// Reads the journal on a tape that was just opened, and leaves it with whole lines, all synced. A tape that is empty,
/// or has only a prefix of the first line, gets that line. A torn last line is cut off. Refusals: 1 `BadHeader`, the
/// first line is another one; 2 `BadLine`, the line of this number, from 1, isn't read; 3 `TooLong`; 4 `Failed`, the
/// tape failed; 5 `NoMemory`. At 1, 2, 3 and 5 the tape has what it had. It costs O(n) for n bytes, beside what the
/// replica's `take` costs for each operation.
pub fn open_tape<T: Tape>(alloc: Global, tape: &mut T) -> Result<Opened, JournalFault>
    requires { IsAtStart (T.image tape.old) (T.left tape.old) }
    ensures ok { IfOk result (λ opened. Changes (T.image tape.old) (T.image tape.new) (λ i j. IsSettled j
        × (length j.contents ≡ opened.len) × IsOpened i.contents opened.replica opened.torn j.contents)) }
    ensures refused { IfErr result (λ fault. IfSome (T.image tape.old) (λ i. IsJournalRefusal i.contents fault)) }
    ensures untouched { IfErr result (λ fault. ¬ (fault ≡ JournalFault.Failed) → T.image tape.new ≡ T.image tape.old) }
    ensures failed { IsErrOf result JournalFault.Failed → Changes (T.image tape.old) (T.image tape.new) IsUnharmed }
    ensures counted { MatchResult result
        (λ _. T.failed tape.new ≡ T.failed tape.old) (CountsJournalFault (T.failed tape.old) (T.failed tape.new)) }
{
    open_tape_by(alloc, &OneByOne, tape)
}

/// Reads the journal on a tape that was just opened as `open_tape` does, its lines in batches.
pub fn open_tape_by<B: Batches, T: Tape>(
    alloc: Global,
    batches: &B,
    tape: &mut T,
) -> Result<Opened, JournalFault>
    requires { IsAtStart (T.image tape.old) (T.left tape.old) }
    ensures ok { IfOk result (λ opened. Changes (T.image tape.old) (T.image tape.new) (λ i j. IsSettled j
        × (length j.contents ≡ opened.len) × IsOpened i.contents opened.replica opened.torn j.contents)) }
    ensures refused { IfErr result (λ fault. IfSome (T.image tape.old) (λ i. IsJournalRefusal i.contents fault)) }
    ensures untouched { IfErr result (λ fault. ¬ (fault ≡ JournalFault.Failed) → T.image tape.new ≡ T.image tape.old) }
    ensures failed { IsErrOf result JournalFault.Failed → Changes (T.image tape.old) (T.image tape.new) IsUnharmed }
    ensures counted { MatchResult result
        (λ _. T.failed tape.new ≡ T.failed tape.old) (CountsJournalFault (T.failed tape.old) (T.failed tape.new)) }
{
    match read_text(alloc, batches, tape)? {
        Found::Fresh(bytes) => {
            begin(tape, bytes)?;
            Ok(Opened {
                replica: Replica::new(alloc),
                len: HEADER.len() as u64,
                torn: 0,
            })
        }
        Found::Lines(replica, len, torn) => {
            settle(tape, len, torn)?;
            Ok(Opened { replica, len, torn })
        }
    }
}

/// Writes the rest of the first line.
fn begin<T: Tape>(tape: &mut T, bytes: usize) -> Result<(), Failed>
    requires { IfSome (T.image tape.old) (λ i. (i.doubted ≡ false) × IsFresh i.contents × (bytes ≡ length i.contents)) }
    ensures ok { OnOk result
        (Changes (T.image tape.old) (T.image tape.new) (λ i j. IsSettled j × (j.contents ≡ header_line))) }
    ensures err { OnErr result (Changes (T.image tape.old) (T.image tape.new) (λ i j. IsFresh i.contents
        × (IsPrefix j.written i.written ⊎ IsPrefix j.written header_line))) }
    ensures counted { CountsFailure (T.failed tape.old) (T.failed tape.new) result }
{
    tape.sync()?;
    tape.append(HEADER.split_at(bytes.min(HEADER.len())).1)?;
    tape.sync()
}

/// Cuts off a torn line, and syncs the rest.
fn settle<T: Tape>(tape: &mut T, len: u64, torn: usize) -> Result<(), Failed>
    requires { IfSome (T.image tape.old) (λ i. (i.doubted ≡ false) × (length i.contents ≡ len + torn)) }
    ensures ok { OnOk result
        (Changes (T.image tape.old) (T.image tape.new) (λ i j. IsSettled j × (j.contents ≡ take len i.contents))) }
    ensures err { OnErr result (Changes (T.image tape.old) (T.image tape.new) (λ i j. IsPrefix (take len i.synced) j.synced × IsPrefix j.written i.written)) }
    ensures counted { CountsFailure (T.failed tape.old) (T.failed tape.new) result }
{
    if torn == 0 {
        return tape.sync();
    }
    tape.cut(len)?;
    tape.sync()
}
