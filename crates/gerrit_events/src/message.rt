//! What is kept of a commit message.

ghost use Rattle.std.specs.Prelude.{◌≡◌, IfOk, length, nat_lt, string_bytes};
ghost use Rattle.gerrit_events.specs.Messages.{ended, fitting, footers_of, has_lost_footers, is_footer_line, kept_message};

use footer_text::first_line;
use lattice_core::NoMemory;
use std::alloc::Global;

/// The most bytes of a message that are kept: those that a body may have.
const MOST_BYTES: usize = 65536;

/// How a line begins that is a footer.
const FOOTER: &[u8] = b"depends-on:";

/// What is kept of a commit message.
#[derive(Drop)]
pub struct Kept {
    pub text: String,
    /// Whether footers are left out.
    pub is_cut: bool,
}

/// What is kept of a commit message: all of it, or, of one of more than 65,536 bytes, the first of its footers, as long
/// as they have at most 65,536 bytes. It costs O(n) for n bytes.
pub fn kept_message(alloc: Global, message: &str) -> Result<Kept, NoMemory>
    ensures text { IfOk result (λ kept. string_bytes kept.text ≡ kept_message message.now) }
    ensures cut { IfOk result (λ kept. kept.is_cut ≡ has_lost_footers message.now) }
{
    if message.len() > MOST_BYTES {
        return first_footers(alloc, message);
    }
    let text = String::from_str(alloc, message)?;
    Ok(Kept {
        text,
        is_cut: false,
    })
}

/// The first of the lines of a message that are footers, as many as fit.
fn first_footers(alloc: Global, message: &str) -> Result<Kept, NoMemory>
    ensures text { IfOk result (λ kept. string_bytes kept.text ≡ ended (fitting 65536 (footers_of message.now))) }
    ensures cut { IfOk result (λ kept. kept.is_cut ≡ nat_lt 65536 (length (ended (footers_of message.now)))) }
{
    let mut text = String::new(alloc);
    let mut room = MOST_BYTES;
    let mut rest = Some(message);
    while let Some(left) = rest {
        let (line, after) = first_line(left);
        if is_footer_line(line.as_bytes()) {
            if line.len() >= room {
                return Ok(Kept { text, is_cut: true });
            }
            text.push_str(line)?;
            text.push('\n')?;
            room -= line.len() + 1;
        }
        rest = after;
    }
    Ok(Kept {
        text,
        is_cut: false,
    })
}

/// Whether a line begins as a footer does, in whatever case.
fn is_footer_line(line: &[u8]) -> bool
    ensures { result ≡ is_footer_line line.now }
{
    if line.len() < FOOTER.len() {
        return false;
    }
    line[..FOOTER.len()].eq_ignore_ascii_case(FOOTER)
}
