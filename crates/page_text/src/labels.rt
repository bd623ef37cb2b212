//! The value of a label in the text format of Prometheus, character by character.

ghost use Rattle.std.specs.Prelude.{◌≡◌, ◌++◌, OnOk, string_bytes};
ghost use Rattle.page_text.specs.Labels.{label_letter, label_value};

use std::alloc::AllocError;

/// Adds a text as the value of a label.
pub fn push_label(text: &mut String, value: &str) -> Result<(), AllocError>
    ensures { OnOk result (string_bytes text.new ≡ string_bytes text.old ++ label_value value.now) }
{
    for letter in value.chars() {
        push_letter(text, letter)?;
    }
    Ok(())
}

/// Adds a character, with a backslash before it if it could end the value.
fn push_letter(text: &mut String, letter: char) -> Result<(), AllocError>
    ensures { OnOk result (string_bytes text.new ≡ string_bytes text.old ++ label_letter letter) }
{
    match letter {
        '\\' => text.push_str("\\\\"),
        '"' => text.push_str("\\\""),
        '\n' => text.push_str("\\n"),
        _ => text.push(letter),
    }
}
