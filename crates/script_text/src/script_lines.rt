//! The lines of a script that say something.

ghost use Rattle.std.specs.Prelude.{◌≡◌, ◌↔◌, [], ◌∷◌, MatchOption, IsTrue, true};
ghost use Rattle.byte_ends.specs.Lines.{lines_of};
ghost use Rattle.script_text.specs.ScriptLines.{is_passed_over, spoken_after};

use byte_ends::Lines;
use std::marker::Model;

/// The lines that are left of a script, each with its number from 1 on, without empty lines and comments.
#[derive(Drop)]
pub struct ScriptLines<'a> {
    lines: Lines<'a>,
    number: u64,
}

impl<'a> Model for ScriptLines<'a> {
    ghost use Rattle.std.specs.Prelude.{List, ℕ, ◌+◌, ◌<◌, ◌^◌, length};
    ghost use Rattle.script_text.specs.ScriptLines.{spoken_after};

    ghost Value = { List (ℕ × List ℕ) };

    ghost view = { λ s. spoken_after s.number s.lines };

    ghost invariant = { λ s. s.number + length s.lines < 2 ^ 64 };
}

impl<'a> ScriptLines<'a> {
    /// The lines of a text.
    pub fn new(text: &'a [u8]) -> ScriptLines<'a>
        ensures { result ≡ spoken_after 0 (lines_of text.entry.now) }
    {
        let _bytes = text.len();
        ScriptLines {
            lines: Lines::new(text),
            number: 0,
        }
    }

    /// The next line that says something.
    pub fn next_line(&mut self) -> Option<(u64, &'a [u8])>
        ensures { MatchOption result ((self.old ≡ []) × (self.new ≡ []))
            (λ line. self.old ≡ (line.0, line.1.now) ∷ self.new) }
    {
        while let Some(line) = self.lines.next_line() {
            self.number += 1;
            if !is_passed_over(line) {
                return Some((self.number, line));
            }
        }
        None
    }
}

/// Whether a line is empty or a comment.
fn is_passed_over(line: &[u8]) -> bool
    ensures { result ≡ is_passed_over line.now }
{
    match line.first() {
        None => true,
        Some(byte) => *byte == b'#',
    }
}
