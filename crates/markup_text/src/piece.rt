//! What HTML is written of.

/// A piece of HTML.
#[derive(Clone, Copy, Debug)]
pub enum Piece<'a> {
    /// Markup as it is. It is part of the program, so that no text from outside passes for markup.
    Markup(&'static str),
    /// A text, which a reader sees as it is, but for hidden characters, which are shown by their codes. It is good in
    /// an element and in the value of an attribute in quotes.
    Text(&'a str),
    /// A text as a value in the query of a URL: each byte that isn't an ASCII letter or digit is percent-encoded.
    Query(&'a str),
    /// A number in decimal.
    Number(u64),
    /// A number in decimal, which may have a sign.
    Signed(i64),
}
