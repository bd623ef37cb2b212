//! HTML as it is written: markup that is part of the program, and texts from outside, which are escaped.
//!
//! Its tests are in the crate `page_tests`.
//!
//! It is a crate of its own so that no page can mistake a text for markup: only `&'static str` of the program is
//! written unescaped. A failed allocation is reported once, by `end`, so that the code that writes a page needs no `?`
//! for each piece. Not taken: templates, whose holes would have to be proved escaped one by one; removing what looks
//! dangerous from a text, which changes what it says.
//!
//! An example of its use:
//!
//! ```
//! let mut page = Markup::new(alloc);
//! page.add(&[Piece::Markup("<p>"), Piece::Text("1 < 2"), Piece::Markup("</p>")]);
//! assert_eq!(rt; page.end()?.as_slice(), b"<p>1 &lt; 2</p>".as_slice());
//! ```
#![tactic(auto)]

mod laws;
mod letters;
mod markup;
mod piece;
mod writing;

pub use laws::{
    escaped_texts_have_no_markup, escaped_texts_read_back, hidden_characters_are_shown,
};
pub use letters::is_hidden;
pub use markup::Markup;
pub use piece::Piece;
