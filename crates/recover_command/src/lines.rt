//! The line of a journal's fault on standard error.

ghost use Rattle.std.specs.Prelude.{◌≡◌, IfOk, string_bytes};
ghost use Rattle.console.specs.Showing.{ShowsLine, error_output};
ghost use Rattle.recover_command.specs.Lines.{journal_line};

use byte_ends::Drain;
use console::show_line;
use refusal_line::{Part, refusal_line};
use site_journal::JournalFault;
use std::alloc::{AllocError, Global};

/// Writes the line of a journal's fault to standard error, or the line `NoMemory` if memory is refused for it. If
/// standard error fails the line is lost.
pub fn show_journal_fault<E: Drain>(alloc: Global, fault: &JournalFault, errors: &mut E)
    ensures { ShowsLine (journal_line fault.now)
        (error_output (E.taken errors.old) (E.failed errors.old))
        (error_output (E.taken errors.new) (E.failed errors.new)) }
{
    show_line(&journal_line(alloc, fault), errors);
}

/// The line of a journal's fault.
fn journal_line(alloc: Global, fault: &JournalFault) -> Result<String, AllocError>
    ensures { IfOk result (λ line. string_bytes line ≡ journal_line fault.now) }
{
    let mut words = String::new(alloc);
    fault.write_words(&mut words)?;
    refusal_line(alloc, Part::Journal, fault.number(), words.as_str())
}
