//! Fixed HTML with places for what differs.

ghost use Rattle.std.specs.Prelude.{◌≡◌, ◌++◌, All, codes};
ghost use Rattle.page_text.specs.Rowless.{AddsRowless, IsRowless, IsRowlessPiece};

use markup_text::{Markup, Piece, escaped_texts_have_no_markup};

/// Adds a template with these pieces in its places, one after the other. A place is written `{}`.
pub fn fill(page: &mut Markup, template: &'static str, pieces: &[Piece<'_>])
    ensures { IsRowless template.now → All IsRowlessPiece pieces.now → AddsRowless page.old page.new }
{
    let mut rest = template;
    for piece in pieces {
        rest = add_to_place(page, rest);
        add_piece(page, *piece);
    }
    page.add(&[Piece::Markup(rest)]);
}

/// Adds a template up to its first place, all of it where it has none. The result is what comes after that place.
fn add_to_place(page: &mut Markup, template: &'static str) -> &'static str
    ensures { IsRowless template.now → AddsRowless page.old page.new × IsRowless result.now }
{
    let (before, after) = template.split_once("{}").unwrap_or((template, ""));
    page.add(&[Piece::Markup(before)]);
    after
}

/// Adds a piece.
fn add_piece(page: &mut Markup, piece: Piece<'_>)
    ensures { IsRowlessPiece piece.entry → AddsRowless page.old page.new }
{
    // For the contract: in no text does a row begin.
    escaped_texts_have_no_markup();
    page.add(&[piece]);
}
