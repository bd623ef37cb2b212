//! Which characters of a text are shown by their codes.

ghost use Rattle.std.specs.Prelude.{◌≡◌};
ghost use Rattle.markup_text.specs.Shown.{is_control, is_direction, is_hidden};

/// Whether a character is shown by its code: a control character, or one that changes the direction of the text after
/// it, so that a reader would see another text. It costs O(1).
pub fn is_hidden(letter: char) -> bool
    ensures { result ≡ is_hidden letter }
{
    is_control(letter) || is_direction(letter)
}

/// Whether a character is a control character.
fn is_control(letter: char) -> bool
    ensures { result ≡ is_control letter }
{
    letter < ' ' || ('\u{7f}' <= letter && letter <= '\u{9f}')
}

/// Whether a character changes the direction of the text after it.
fn is_direction(letter: char) -> bool
    ensures { result ≡ is_direction letter }
{
    letter == '\u{61c}'
        || ('\u{200e}' <= letter && letter <= '\u{200f}')
        || ('\u{202a}' <= letter && letter <= '\u{202e}')
        || ('\u{2066}' <= letter && letter <= '\u{2069}')
}
