//! HTML that is being written.

ghost use Rattle.std.specs.Prelude.{◌≡◌, ◌++◌, [], MatchResult, None, OnOk, Some, flat_map, string_bytes};
ghost use Rattle.markup_text.specs.Growing.{Adds, AddsAll};
ghost use Rattle.markup_text.specs.Pieces.{piece_html};

use super::piece::Piece;
use super::writing::push_text;
use percent_encoding::{AsciiSet, NON_ALPHANUMERIC, utf8_percent_encode};
use std::alloc::{AllocError, Global};
use std::marker::Model;

/// The bytes of ASCII that are percent-encoded in a query: all but letters and digits.
pub const ENCODED: AsciiSet = NON_ALPHANUMERIC;

/// HTML that is being written. Contracts see its bytes, or `None` once memory was refused for it. It begins empty, and
/// is added to at its end. Refused memory is remembered: from then on nothing is added, and the end answers it.
#[derive(Debug, Drop)]
pub struct Markup {
    text: String,
    is_refused: bool,
}

impl Model for Markup {
    ghost use Rattle.std.specs.Prelude.{ℕ, List, Option, None, Some, if◌then◌else◌, string_bytes};

    ghost Value = { Option (List ℕ) };

    ghost view = { λ markup. if markup.is_refused then None else Some (string_bytes markup.text) };
}

impl Markup {
    /// Nothing is written yet. It takes no memory.
    pub fn new(alloc: Global) -> Markup
        ensures { result ≡ Some [] }
    {
        Markup {
            text: String::new(alloc),
            is_refused: false,
        }
    }

    /// Adds pieces, one after the other. It costs O(n) for n bytes.
    pub fn add(&mut self, pieces: &[Piece<'_>])
        ensures { Adds (flat_map piece_html pieces.now) self.old self.new }
    {
        if !self.is_refused {
            self.is_refused = push_pieces(&mut self.text, pieces).is_err();
        }
    }

    /// Adds what another one has. It costs O(n) for its n bytes.
    pub fn append(&mut self, other: &Markup)
        ensures { AddsAll other.now self.old self.new }
    {
        if other.is_refused {
            self.is_refused = true;
        }
        if !self.is_refused {
            self.is_refused = self.text.push_str(other.text.as_str()).is_err();
        }
    }

    /// Notes that memory was refused for something that was to be added. It costs O(1).
    pub fn refuse(&mut self)
        ensures { self.new ≡ None }
    {
        self.is_refused = true;
    }

    /// The bytes of the HTML, which are UTF-8: all that was added. Refusal: memory was refused for some of it.
    pub fn end(self) -> Result<Vec<u8>, AllocError>
        ensures { MatchResult result (λ text. self ≡ Some text.items) (λ _. self ≡ None) }
    {
        if self.is_refused {
            return Err(AllocError);
        }
        Ok(self.text.into_bytes())
    }
}

/// Adds pieces.
fn push_pieces(html: &mut String, pieces: &[Piece<'_>]) -> Result<(), AllocError>
    ensures { OnOk result (string_bytes html.new ≡ string_bytes html.old ++ flat_map piece_html pieces.now) }
{
    for piece in pieces {
        push_piece(html, *piece)?;
    }
    Ok(())
}

/// Adds a piece.
fn push_piece(html: &mut String, piece: Piece<'_>) -> Result<(), AllocError>
    ensures { OnOk result (string_bytes html.new ≡ string_bytes html.old ++ piece_html piece.entry) }
{
    match piece {
        Piece::Markup(markup) => html.push_str(markup),
        Piece::Text(text) => push_text(html, text),
        Piece::Query(text) => utf8_percent_encode(text, ENCODED).append_to(html),
        Piece::Number(number) => write!(html, "{number}"),
        Piece::Signed(number) => write!(html, "{number}"),
    }
}
