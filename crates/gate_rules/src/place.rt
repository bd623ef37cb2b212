//! Places in a text, by line and column.

ghost use Rattle.std.specs.Prelude.{◌≡◌, ◌≤◌, ◌+◌, ◌<◌, ◌^◌, length};
ghost use Rattle.gate_rules.specs.Place.{after, blanks, is_blank, place_at};

use serde_json::Error;

/// A place in a text.
#[derive(Clone, Copy, Debug, PartialEq, Eq)]
pub struct Place {
    /// The number of the line, from 1. A line ends with LF.
    pub line: usize,
    /// The number of the byte in its line, from 1. The end of a text is behind its last byte.
    pub column: usize,
}

/// The place of the byte at `offset`, from 0, or of the end of the text. It costs O(offset).
pub fn place_at(text: &[u8], offset: usize) -> Place
    requires { offset ≤ length text.now }
    ensures { result ≡ place_at text.now offset }
{
    let mut place = Place { line: 1, column: 1 };
    for byte in &text[..offset] {
        place = after(place, *byte);
    }
    place
}

/// The place after a byte that is at a place.
fn after(place: Place, byte: u8) -> Place
    requires { place.line + place.column + 1 < 2 ^ 64 }
    ensures { result ≡ after place byte }
{
    if byte == b'\n' {
        return Place {
            line: place.line + 1,
            column: 1,
        };
    }
    Place {
        line: place.line,
        column: place.column + 1,
    }
}

/// How many blanks a text begins with.
pub fn blanks(text: &[u8]) -> usize
    ensures value { result ≡ blanks text.now }
    ensures within { result ≤ length text.now }
{
    for (offset, byte) in text.iter().enumerate() {
        if !is_blank(*byte) {
            return offset;
        }
    }
    text.len()
}

/// Whether a byte is a blank of JSON.
fn is_blank(byte: u8) -> bool
    ensures { result ≡ is_blank byte }
{
    byte == b' ' || byte == b'\t' || byte == b'\n' || byte == b'\r'
}

/// The offset in the text at which serde_json found it to be no JSON: of the word, the number or the string in which it
/// did so, or else of the byte; at most the text's end.
pub fn offset_of(text: &[u8], error: &Error) -> usize
    ensures { result ≤ length text.now }
{
    if error.is_eof() {
        return text.len();
    }
    let begin = line_begin(text, error.line());
    let along = error.column().saturating_sub(1);
    begin.saturating_add(along).min(text.len())
}

/// The offset of the first byte of a line, or else of the text's end.
fn line_begin(text: &[u8], line: usize) -> usize {
    let mut before = 1;
    for (offset, byte) in text.iter().enumerate() {
        if before >= line {
            return offset;
        }
        if *byte == b'\n' {
            before += 1;
        }
    }
    text.len()
}
