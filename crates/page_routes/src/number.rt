//! Numbers in a request.

ghost use Rattle.std.specs.Prelude.{◌≡◌, ◌↔◌, IsTrue, decimal};
ghost use Rattle.page_routes.specs.Numbers.{FindsNumber, IsDecimal};

use itoa::Buffer;

/// The number that a text is in decimal: at most 4,294,967,295, with no zero in front and no sign.
pub(crate) fn number_of(text: &str) -> Option<u32>
    ensures { FindsNumber (IsDecimal text.now) result }
{
    match text.parse::<u32>() {
        Ok(number) if is_written(text, number) => Some(number),
        _ => None,
    }
}

/// Whether a text is the number in decimal.
fn is_written(text: &str, number: u32) -> bool
    ensures { IsTrue result ↔ (text.now ≡ decimal number) }
{
    let mut buffer = Buffer::new();
    is_text(text, buffer.format(number))
}

/// Whether two texts are the same.
pub(crate) fn is_text(text: &str, other: &str) -> bool
    ensures { IsTrue result ↔ (text.now ≡ other.now) }
{
    text == other
}
