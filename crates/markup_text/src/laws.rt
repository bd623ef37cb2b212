//! What holds of texts in HTML, over the definitions alone.

ghost use Rattle.std.specs.Prelude.{◌≡◌, ℕ, List, encode_utf8_all, flat_map, false};
ghost use Rattle.std.specs.List.{list_any};
ghost use Rattle.markup_text.specs.Html.{escaped};
ghost use Rattle.markup_text.specs.Reading.{is_markup, read};
ghost use Rattle.markup_text.specs.Shown.{is_hidden, shown};

/// A law: no text, whatever its characters, has a byte in HTML that ends it, or the value of an attribute in quotes.
pub fn escaped_texts_have_no_markup()
    ensures { (letters : List ℕ) → list_any is_markup (flat_map escaped letters) ≡ false }
{}

/// A law: a browser reads from the HTML of a text, whatever its characters, just that text.
pub fn escaped_texts_read_back()
    ensures { (letters : List ℕ) → read (flat_map escaped letters) ≡ encode_utf8_all letters }
{}

/// A law: what a reader sees of a text has no hidden character, and a text that has none is shown as it is.
pub fn hidden_characters_are_shown()
    ensures none { (letters : List ℕ) → list_any is_hidden (flat_map shown letters) ≡ false }
    ensures others { (letters : List ℕ) → list_any is_hidden letters ≡ false → flat_map shown letters ≡ letters }
{}
