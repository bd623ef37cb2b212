//! A text's lines, one after the other.

ghost use Rattle.std.specs.Prelude.{◌≡◌, ◌<◌, ◌≤◌, [], ◌∷◌, MatchOption, length};
ghost use Rattle.byte_ends.specs.Lines.{lines_of, pieces_of, without_cr};

use memchr::memchr;
use std::marker::Model;

/// The lines of a text that are left: each ends before an LF or at the text's end. An empty piece after the last LF is
/// no line, and one carriage return at a line's end is dropped.
#[derive(Drop)]
pub struct Lines<'a> {
    rest: &'a [u8],
}

impl<'a> Model for Lines<'a> {
    ghost use Rattle.std.specs.Prelude.{List, ℕ};
    ghost use Rattle.byte_ends.specs.Lines.{lines_of};

    ghost Value = { List (List ℕ) };

    ghost view = { λ lines. lines_of lines.rest.now };
}

impl<'a> Lines<'a> {
    /// All lines of a text.
    pub fn new(text: &'a [u8]) -> Lines<'a>
        ensures lines { result ≡ lines_of text.entry.now }
        ensures few { length result ≤ length text.entry.now }
    {
        Lines { rest: text }
    }

    /// The next line. It costs O(n) for its n bytes.
    pub fn next_line(&mut self) -> Option<&'a [u8]>
        ensures { MatchOption result ((self.old ≡ []) × (self.new ≡ [])) (λ line. self.old ≡ line.now ∷ self.new) }
    {
        if self.rest.is_empty() {
            return None;
        }
        let text = self.rest;
        let (line, rest) = cut(text);
        self.rest = rest;
        Some(without_cr(line))
    }
}

/// The piece before the first LF, and what follows that LF.
fn cut(text: &[u8]) -> (&[u8], &[u8])
    requires { 0 < length text.now }
    ensures { pieces_of text.now ≡ result.0.now ∷ pieces_of result.1.now }
{
    match memchr(b'\n', text) {
        None => (text, &[]),
        Some(at) => (&text[..at], &text[at + 1..]),
    }
}

/// A line without the carriage return at its end. It takes no memory.
pub fn without_cr(line: &[u8]) -> &[u8]
    ensures { result.now ≡ without_cr line.now }
{
    match line.split_last() {
        Some((b'\r', front)) => front,
        _ => line,
    }
}
