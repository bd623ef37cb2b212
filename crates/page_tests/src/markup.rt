//! Texts as they are escaped in HTML.

use super::record::is_made_of;
use markup_text::{
    Markup, Piece, escaped_texts_have_no_markup, escaped_texts_read_back,
    hidden_characters_are_shown, is_hidden,
};
use std::alloc::Global;

/// Whether a text is written as this HTML.
fn is_written(alloc: Global, text: &str, html: &str) -> bool {
    let mut page = Markup::new(alloc);
    page.add(&[
        Piece::Markup("<p>"),
        Piece::Text(text),
        Piece::Markup("</p>"),
    ]);
    is_text(page, &["<p>", html, "</p>"])
}

/// Whether HTML has a text at its end that is made of these parts.
fn is_text(page: Markup, parts: &[&str]) -> bool {
    match page.end() {
        Ok(text) => is_made_of(text.as_slice(), parts),
        Err(_) => false,
    }
}

/// Texts with their HTML.
const TEXTS: [(&str, &str); 6] = [
    ("", ""),
    ("a & b < c > d", "a &amp; b &lt; c &gt; d"),
    ("\"'", "&quot;&#39;"),
    ("&amp;", "&amp;amp;"),
    ("\u{e9}\u{1f980}", "\u{e9}\u{1f980}"),
    (
        "a\tb\u{7f}\u{85}\u{61c}\u{200f}\u{202e}\u{2069}",
        r"a\u{9}b\u{7F}\u{85}\u{61C}\u{200F}\u{202E}\u{2069}",
    ),
];

/// Whether each of them is written as its HTML.
fn are_written(alloc: Global) -> bool {
    let mut are_so = true;
    for (text, html) in TEXTS {
        are_so = is_written(alloc, text, html) && are_so;
    }
    are_so
}

#[test]
fn texts_are_escaped(rt: HostRuntime) {
    let are_written = are_written(rt.alloc());
    assert!(rt; are_written);
}

/// HTML of numbers and of a query.
fn numbers(alloc: Global) -> Markup {
    let mut page = Markup::new(alloc);
    page.add(&[
        Piece::Number(u64::MAX),
        Piece::Signed(-2),
        Piece::Query("a b&<\u{e9}"),
    ]);
    page
}

#[test]
fn numbers_and_queries_have_no_markup(rt: HostRuntime) {
    let wanted = "18446744073709551615-2a%20b%26%3C%C3%A9";
    let is_written = is_text(numbers(rt.alloc()), &[wanted]);
    assert!(rt; is_written);
}

/// HTML with a piece, for which memory is refused then or not.
fn one_piece(alloc: Global, is_refused: bool) -> Markup {
    let mut page = Markup::new(alloc);
    page.add(&[Piece::Markup("<p>")]);
    if is_refused {
        page.refuse();
    }
    page
}

/// Whether HTML has its text at its end, with another one behind it, for which of both memory may be refused.
fn ends(alloc: Global, is_refused: bool, is_other_refused: bool) -> bool {
    let mut page = one_piece(alloc, is_refused);
    page.append(&one_piece(alloc, is_other_refused));
    page.add(&[Piece::Number(1)]);
    match page.end() {
        Ok(text) => text.as_slice() == b"<p><p>1".as_slice(),
        Err(_) => false,
    }
}

#[test]
fn refused_memory_is_answered_at_the_end(rt: HostRuntime) {
    assert!(rt; ends(rt.alloc(), false, false));
    assert!(rt; !ends(rt.alloc(), true, false));
    assert!(rt; !ends(rt.alloc(), false, true));
}

#[test]
fn hidden_characters_are_told_from_others(rt: HostRuntime) {
    assert!(rt; is_hidden('\n'));
    assert!(rt; is_hidden('\u{202a}'));
    assert!(rt; !is_hidden(' '));
    assert!(rt; !is_hidden('\u{202f}'));
    escaped_texts_have_no_markup();
    escaped_texts_read_back();
    hidden_characters_are_shown();
}
