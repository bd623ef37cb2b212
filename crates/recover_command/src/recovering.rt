//! Recovers a journal, and reports how that ended.

ghost use Rattle.std.specs.Prelude.{◌≡◌};
ghost use Rattle.console.specs.Showing.{ShowsLine, error_output};
ghost use Rattle.recover_command.specs.Recovering.{RecoversAs, ReportsRecovery, recovery_fault_line, refusal_of};

use super::lines::show_journal_fault;
use byte_ends::{Drain, Source};
use console::{Refusal, show_refusal, show_torn};
use site_journal::{LeftOut, RecoverFault, recover};
use snapshot_text::WriteSnapFault;
use std::alloc::Global;

/// The status of a journal that was recovered.
const DONE: u8 = 0;

/// The status of one that wasn't.
const REFUSED: u8 = 1;

/// Prints the snapshot of a journal's whole lines, but for the operations that are to be left out, and writes to
/// `errors` how many bytes of a torn line were left out, if any, or why the journal isn't recovered. The answer is the
/// exit status: 0, or 1 where it isn't. Nothing is printed of a journal that isn't read; where the output failed, a
/// proper prefix of the snapshot is printed. It costs what reading the journal costs, and what writing the snapshot
/// costs.
pub fn recover_to<S: Source + Drop, O: Drain, E: Drain>(
    alloc: Global,
    source: S,
    left_out: &LeftOut,
    output: &mut O,
    errors: &mut E,
) -> u8
    ensures { RecoversAs left_out.now (S.left source) (O.taken output.old) (O.taken output.new) (O.failed output.old)
        (O.failed output.new)
        (error_output (E.taken errors.old) (E.failed errors.old))
        (error_output (E.taken errors.new) (E.failed errors.new)) result }
{
    let ended = recover(alloc, source, left_out, output);
    report(alloc, &ended, errors)
}

/// Writes to standard error how a recovery ended, and returns the exit status. If standard error fails the line is
/// lost.
pub fn report<E: Drain>(alloc: Global, ended: &Result<usize, RecoverFault>, errors: &mut E) -> u8
    ensures { ReportsRecovery ended.now
        (error_output (E.taken errors.old) (E.failed errors.old))
        (error_output (E.taken errors.new) (E.failed errors.new)) result }
{
    match ended {
        Ok(torn) => {
            show_torn(alloc, *torn, errors);
            DONE
        }
        Err(fault) => {
            show_fault(alloc, fault, errors);
            REFUSED
        }
    }
}

/// Writes to standard error why a journal isn't recovered.
fn show_fault<E: Drain>(alloc: Global, fault: &RecoverFault, errors: &mut E)
    ensures { ShowsLine (recovery_fault_line fault.now)
        (error_output (E.taken errors.old) (E.failed errors.old))
        (error_output (E.taken errors.new) (E.failed errors.new)) }
{
    match fault {
        RecoverFault::Journal(fault) => show_journal_fault(alloc, fault, errors),
        RecoverFault::Snapshot(fault) => show_refusal(alloc, &refusal_of(fault), errors),
    }
}

/// How it is refused that the snapshot isn't written.
fn refusal_of(fault: &WriteSnapFault) -> Refusal<'static>
    ensures { result ≡ refusal_of fault.now }
{
    match fault {
        WriteSnapFault::WriteFault => Refusal::Output,
        WriteSnapFault::NoMemory => Refusal::Memory,
    }
}
