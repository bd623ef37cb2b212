//! A text that is being written, as metrics and events are.

ghost use Rattle.std.specs.Prelude.{◌≡◌, ◌++◌, [], MatchResult, None, OnOk, Some, flat_map, string_bytes};
ghost use Rattle.markup_text.specs.Growing.{Adds};
ghost use Rattle.page_text.specs.Parts.{part_text};

use super::labels::push_label;
use std::alloc::{AllocError, Global};
use std::marker::Model;

/// A part of a line.
#[derive(Clone, Copy)]
pub enum Part<'a> {
    /// A text as it is.
    Text(&'a str),
    /// A text as the value of a label, between quotation marks.
    Label(&'a str),
    /// A number in decimal.
    Number(u64),
}

/// A text that is being written, as metrics and events are, and as `Markup` is of HTML: contracts see its bytes, or
/// `None` once memory was refused for it, which is remembered.
#[derive(Drop)]
pub struct Lines {
    text: String,
    is_refused: bool,
}

impl Model for Lines {
    ghost use Rattle.std.specs.Prelude.{ℕ, List, Option, None, Some, if◌then◌else◌, string_bytes};

    ghost Value = { Option (List ℕ) };

    ghost view = { λ lines. if lines.is_refused then None else Some (string_bytes lines.text) };
}

impl Lines {
    /// Nothing is written yet.
    pub fn new(alloc: Global) -> Lines
        ensures { result ≡ Some [] }
    {
        Lines {
            text: String::new(alloc),
            is_refused: false,
        }
    }

    /// Adds parts, one after the other.
    pub fn add(&mut self, parts: &[Part<'_>])
        ensures { Adds (flat_map part_text parts.now) self.old self.new }
    {
        if !self.is_refused {
            self.is_refused = push_parts(&mut self.text, parts).is_err();
        }
    }

    /// Notes that memory was refused for something that was to be added.
    pub fn refuse(&mut self)
        ensures { self.new ≡ None }
    {
        self.is_refused = true;
    }

    /// The bytes of the text: all that was added. Refusal: memory was refused for some of it.
    pub fn end(self) -> Result<Vec<u8>, AllocError>
        ensures { MatchResult result (λ text. self ≡ Some text.items) (λ _. self ≡ None) }
    {
        if self.is_refused {
            return Err(AllocError);
        }
        Ok(self.text.into_bytes())
    }
}

/// Adds parts.
fn push_parts(text: &mut String, parts: &[Part<'_>]) -> Result<(), AllocError>
    ensures { OnOk result (string_bytes text.new ≡ string_bytes text.old ++ flat_map part_text parts.now) }
{
    for part in parts {
        push_part(text, *part)?;
    }
    Ok(())
}

/// Adds a part.
fn push_part(text: &mut String, part: Part<'_>) -> Result<(), AllocError>
    ensures { OnOk result (string_bytes text.new ≡ string_bytes text.old ++ part_text part.entry) }
{
    match part {
        Part::Text(word) => text.push_str(word),
        Part::Label(value) => push_label(text, value),
        Part::Number(number) => write!(text, "{number}"),
    }
}
