//! Writes lines to standard error.

ghost use Rattle.std.specs.Prelude.{◌≡◌, ◌<◌, IfOk, MatchResult, string_bytes};
ghost use Rattle.console.specs.Refusals.{refusal_line};
ghost use Rattle.console.specs.Showing.{Shows, ShowsLine, error_output, torn_line};

use super::refusals::Refusal;
use byte_ends::{Drain, write_all};
use refusal_line::{Part, memory_line, refusal_line};
use std::alloc::{AllocError, Global};

/// Writes the line of a refusal to standard error, or the line `NoMemory` if memory is refused for it. If standard
/// error fails the line is lost.
pub fn show_refusal<E: Drain>(alloc: Global, refusal: &Refusal, errors: &mut E)
    ensures { ShowsLine (refusal_line refusal.now)
        (error_output (E.taken errors.old) (E.failed errors.old))
        (error_output (E.taken errors.new) (E.failed errors.new)) }
{
    show_line(&refusal.line(alloc), errors);
}

/// Writes a line to standard error, or the line `NoMemory` if memory was refused for it. If standard error fails the
/// line is lost.
pub fn show_line<E: Drain>(line: &Result<String, AllocError>, errors: &mut E)
    ensures { let old = error_output (E.taken errors.old) (E.failed errors.old) in
        let new = error_output (E.taken errors.new) (E.failed errors.new) in
        MatchResult line.now (λ made. Shows (string_bytes made) old new) (λ _. Shows (refusal_line Refusal.Memory) old new) }
{
    match line {
        Ok(line) => show(line.as_bytes(), errors),
        Err(_) => show(memory_line().as_bytes(), errors),
    }
}

/// Writes a text to standard error. If that fails the text is lost.
pub fn show<E: Drain>(text: &[u8], errors: &mut E)
    ensures { Shows text.now (error_output (E.taken errors.old) (E.failed errors.old))
        (error_output (E.taken errors.new) (E.failed errors.new)) }
{
    let _ = write_all(errors, text);
}

/// Writes to standard error how many bytes of a torn line were left out, if any, or the line `NoMemory` if memory is
/// refused for that. If standard error fails the line is lost.
pub fn show_torn<E: Drain>(alloc: Global, torn: usize, errors: &mut E)
    ensures whole { torn ≡ 0 → errors.new ≡ errors.old }
    ensures torn { 0 < torn → ShowsLine (torn_line torn)
        (error_output (E.taken errors.old) (E.failed errors.old))
        (error_output (E.taken errors.new) (E.failed errors.new)) }
{
    if torn > 0 {
        show_line(&torn_line(alloc, torn), errors);
    }
}

/// The line of so many bytes that were left out.
fn torn_line(alloc: Global, torn: usize) -> Result<String, AllocError>
    ensures { IfOk result (λ line. string_bytes line ≡ torn_line torn) }
{
    let words = format!(in alloc; "Torn {torn}")?;
    refusal_line(alloc, Part::Journal, 6, words.as_str())
}
