//! The common frame of all HTML pages.

ghost use Rattle.std.specs.Prelude.{◌++◌, IfOk, IfSome, codes, flat_map};
ghost use Rattle.markup_text.specs.Growing.{Adds};
ghost use Rattle.markup_text.specs.Pieces.{piece_html};
ghost use Rattle.page_text.specs.Rowless.{IsRowless};
ghost use Rattle.page_text.specs.Titles.{IsEnded, IsTitled};

use lattice_core::NoMemory;
use markup_text::{Markup, Piece};
use std::alloc::Global;

/// What comes before a page's title.
const BEFORE_TITLE: &str = r#"<!DOCTYPE html>
<html lang="en">
<head>
<meta charset="utf-8">
<meta name="viewport" content="width=device-width, initial-scale=1">
"#;

/// What comes between a page's title and the number of the site.
const AFTER_TITLE: &str = r#"
<link rel="icon" href="/icon.svg">
<link rel="stylesheet" href="/style.css">
<script src="/script.js" defer></script>
</head>
<body>
<header><p><a href="/">reviewgate</a>, site "#;

/// A page with a title up to where its own part begins.
pub fn begin(alloc: Global, title: &[Piece<'_>], site: u16) -> Markup
    ensures titled { IfSome result (IsTitled (flat_map piece_html title.now)) }
    ensures rowless { IsRowless (flat_map piece_html title.now) → IfSome result IsRowless }
{
    let mut page = Markup::new(alloc);
    page.add(&[Piece::Markup(BEFORE_TITLE)]);
    add_title(&mut page, title);
    page.add(&[
        Piece::Markup(AFTER_TITLE),
        Piece::Number(u64::from(site)),
        Piece::Markup("</p></header>\n<main>\n"),
    ]);
    page
}

/// Adds the title.
fn add_title(page: &mut Markup, title: &[Piece<'_>])
    ensures { Adds (codes "<title>" ++ flat_map piece_html title.now ++ codes "</title>") page.old page.new }
{
    page.add(&[Piece::Markup("<title>")]);
    page.add(title);
    page.add(&[Piece::Markup("</title>")]);
}

/// The bytes of a page whose own part ends here.
pub fn end(page: Markup) -> Result<Vec<u8>, NoMemory>
    ensures { IfOk result (λ text. IsEnded page text.items) }
{
    let mut page = page;
    page.add(&[Piece::Markup("</main>\n</body>\n</html>\n")]);
    let text = page.end()?;
    Ok(text)
}
