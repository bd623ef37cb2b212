//! The snapshot of a journal, for whoever has only its text.

ghost use Rattle.std.specs.Prelude.{◌≡◌, ◌⊎◌, ◌<◌, ◌++◌, [], ℕ, List, IfErr, IfOk, IfSome, MatchResult, length, take};
ghost use Rattle.std.specs.Io.KnownBytes.{Appends, Keeps};
ghost use Rattle.replica_core.specs.InOrder.{IsInOrderOf};
ghost use Rattle.replica_core.specs.Journal.{all_arrived};
ghost use Rattle.review_ops.specs.Operation.{Operation};
ghost use Rattle.snapshot_text.specs.Snapshot.{snapshot_text};
ghost use Rattle.site_journal.specs.Text.{IsFresh, SaysJournal};
ghost use Rattle.site_journal.specs.Fault.{IsJournalRefusal};
ghost use Rattle.site_journal.specs.Recovery.{CountsRecovery, IsKeptOf, IsRecovered, IsRefusedRecovery};
ghost use Rattle.site_journal.specs.declared.recovery.RecoverFault.TheVariants.{Journal as NotRead};
ghost use Rattle.site_journal.specs.declared.recovery.RecoverFault.TheVariants.{Snapshot as NotWritten};

use crate::fault::JournalFault;
use crate::leaving::{LeftOut, without};
use crate::reading::{Found, read_text};
use crate::tape::SourceFeed;
use byte_ends::{Drain, Source};
use line_batches::OneByOne;
use replica_core::Replica;
use snapshot_text::{WriteSnapFault, write_snapshot};
use std::alloc::Global;
use thiserror::Error;

/// Why a journal isn't recovered.
#[derive(Debug, Drop, Error)]
pub enum RecoverFault {
    /// It isn't read.
    #[error("{0}")]
    Journal(JournalFault),
    /// Its snapshot isn't written.
    #[error("{0}")]
    Snapshot(WriteSnapFault),
}

/// Writes the snapshot of a journal's whole lines, but for the operations that are to be left out, and answers how many
/// bytes of a torn line it left out. It changes nothing of what it reads.
pub fn recover<S: Source + Drop, D: Drain>(
    alloc: Global,
    source: S,
    left_out: &LeftOut,
    drain: &mut D,
) -> Result<usize, RecoverFault>
    ensures ok { IfOk result (λ torn. IfSome (S.left source) (λ text. (ops : List Operation) × IsRecovered text ops torn
        × (sorted : List Operation) × IsKeptOf left_out.now ops sorted
        × Appends (D.taken drain.old) (D.taken drain.new) (snapshot_text sorted))) }
    ensures err { IfErr result
        (λ fault. IsRefusedRecovery left_out.now (S.left source) (D.taken drain.old) fault (D.taken drain.new)) }
    ensures counted { MatchResult result (λ _. D.failed drain.new ≡ D.failed drain.old)
        (CountsRecovery (D.failed drain.old) (D.failed drain.new)) }
{
    let (replica, torn) = read_journal(alloc, source)?;
    let kept = without(alloc, replica, left_out)?;
    write_snapshot(alloc, &kept, drain)?;
    Ok(torn)
}

/// The record of a journal's whole lines, and how many bytes of a torn line were left out.
fn read_journal<S: Source + Drop>(
    alloc: Global,
    source: S,
) -> Result<(Replica, usize), JournalFault>
    ensures ok { IfOk result
        (λ read. IfSome (S.left source) (λ text. (ops : List Operation) × IsRecovered text ops read.1
        × (read.0 ≡ all_arrived [] ops))) }
    ensures err { IfErr result (λ fault. IfSome (S.left source) (λ text. IsJournalRefusal text fault)) }
{
    let mut feed = SourceFeed::new(source);
    match read_text(alloc, &OneByOne, &mut feed)? {
        Found::Fresh(bytes) => Ok((Replica::new(alloc), bytes)),
        Found::Lines(replica, _len, torn) => Ok((replica, torn)),
    }
}

impl From<JournalFault> for RecoverFault {
    ghost from_gives = { λ fault given. given ≡ NotRead fault };

    fn from(fault: JournalFault) -> RecoverFault {
        RecoverFault::Journal(fault)
    }
}

impl From<WriteSnapFault> for RecoverFault {
    ghost from_gives = { λ fault given. given ≡ NotWritten fault };

    fn from(fault: WriteSnapFault) -> RecoverFault {
        RecoverFault::Snapshot(fault)
    }
}
