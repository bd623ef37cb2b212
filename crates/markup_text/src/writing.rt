//! How a text is written as HTML, character by character.

ghost use Rattle.std.specs.Prelude.{◌≡◌, ◌++◌, OnOk, flat_map, string_bytes};
ghost use Rattle.markup_text.specs.Html.{escaped, html_of};
ghost use Rattle.markup_text.specs.Shown.{code_text, shown};

use super::letters::is_hidden;
use std::alloc::AllocError;

/// Adds a text.
pub fn push_text(html: &mut String, text: &str) -> Result<(), AllocError>
    ensures { OnOk result (string_bytes html.new ≡ string_bytes html.old ++ html_of text.now) }
{
    for letter in text.chars() {
        push_shown(html, letter)?;
    }
    Ok(())
}

/// Adds a character, or its code.
fn push_shown(html: &mut String, letter: char) -> Result<(), AllocError>
    ensures { OnOk result (string_bytes html.new ≡ string_bytes html.old ++ flat_map escaped (shown letter)) }
{
    if is_hidden(letter) {
        push_code(html, letter)
    } else {
        push_letter(html, letter)
    }
}

/// Adds the code of a character.
fn push_code(html: &mut String, letter: char) -> Result<(), AllocError>
    ensures { OnOk result (string_bytes html.new ≡ string_bytes html.old ++ flat_map escaped (code_text letter)) }
{
    push_number(html, u32::from(letter))
}

/// Adds the code of this number.
fn push_number(html: &mut String, number: u32) -> Result<(), AllocError>
    ensures { OnOk result (string_bytes html.new ≡ string_bytes html.old ++ code_text number) }
{
    write!(html, "\\u{{{number:X}}}")
}

/// Adds a character, which is a reference if it could end a text or the value of an attribute.
fn push_letter(html: &mut String, letter: char) -> Result<(), AllocError>
    ensures { OnOk result (string_bytes html.new ≡ string_bytes html.old ++ escaped letter) }
{
    match letter {
        '&' => html.push_str("&amp;"),
        '<' => html.push_str("&lt;"),
        '>' => html.push_str("&gt;"),
        '"' => html.push_str("&quot;"),
        '\'' => html.push_str("&#39;"),
        _ => html.push(letter),
    }
}
