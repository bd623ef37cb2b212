//! What is answered of a change that isn't known.

ghost use Rattle.std.specs.Prelude.{◌≡◌, IfOk};
ghost use Rattle.json.specs.Print.{print};
ghost use Rattle.page_text.specs.Problem.{problem_tokens};

use super::frame::{begin, end};
use super::sheet::{Mark, Sheet};
use super::template::fill;
use lattice_core::NoMemory;
use markup_text::{Markup, Piece};
use page_routes::Place;
use std::alloc::Global;

/// The page that says that a change, or one of its patch sets, isn't known.
pub fn unknown_page(alloc: Global, place: Place, site: u16) -> Result<Vec<u8>, NoMemory> {
    let mut page = begin(alloc, &[Piece::Markup("Not found")], site);
    add_unknown(&mut page, place);
    end(page)
}

/// Adds that a change, or one of its patch sets, isn't known.
fn add_unknown(page: &mut Markup, place: Place) {
    fill(
        page,
        "<h1>Not found</h1>\n<p>The record has no change {}",
        &[Piece::Number(u64::from(place.change))],
    );
    if let Some(set) = place.set {
        fill(
            page,
            " with a patch set {}",
            &[Piece::Number(u64::from(set))],
        );
    }
    page.add(&[Piece::Markup(".</p>\n")]);
}

/// The same as a problem of RFC 9457.
pub fn problem_text(alloc: Global) -> Result<Vec<u8>, NoMemory>
    ensures { IfOk result (λ text. text.items ≡ print problem_tokens) }
{
    let mut out = Sheet::new(alloc);
    out.add(&[
        Mark::Open,
        Mark::Key("type"),
        Mark::Text("about:blank"),
        Mark::Key("title"),
        Mark::Text("Not Found"),
        Mark::Key("status"),
        Mark::Number(404),
        Mark::Close,
    ]);
    let text = out.end()?;
    Ok(text)
}
