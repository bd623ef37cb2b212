//! The fields of a script's line.

ghost use Rattle.std.specs.Prelude.{◌≡◌, ◌≤◌, ◌^◌, ℕ, List, IfSome, IfNone};
ghost use Rattle.script_text.specs.Fields.{AllDigits, written_number, IsNumberField, IsAfterWord, IsSplit};

use memchr::memchr;

/// What follows the word and one blank.
pub fn after_word<'a>(line: &'a [u8], word: &[u8]) -> Option<&'a [u8]>
    ensures found { IfSome result (λ rest. IsAfterWord line.entry.now word.now rest.now) }
    ensures none { IfNone result ((rest : List ℕ) → ¬ IsAfterWord line.entry.now word.now rest) }
{
    if line.len() <= word.len() {
        return None;
    }
    let (front, rest) = line.split_at(word.len());
    if front == word && rest[0] == b' ' {
        Some(&rest[1..])
    } else {
        None
    }
}

/// The field before the first blank, and what follows that blank.
pub fn split_field(fields: &[u8]) -> Option<(&[u8], &[u8])>
    ensures found { IfSome result (λ parts. IsSplit fields.now parts.0.now parts.1.now) }
    ensures none { IfNone result ((field rest : List ℕ) → ¬ IsSplit fields.now field rest) }
{
    match memchr(b' ', fields) {
        Some(at) => Some((&fields[..at], &fields[at + 1..])),
        None => None,
    }
}

/// A number of 1 to 20 digits, at most `most`.
pub fn read_number(field: &[u8], most: u64) -> Option<u64>
    ensures found { IfSome result (λ number. IsNumberField field.now most number) }
    ensures none { IfNone result ((number : ℕ) → ¬ IsNumberField field.now most number) }
{
    if field.is_empty() || field.len() > 20 {
        return None;
    }
    let number = written_number(field)?;
    if number <= most { Some(number) } else { None }
}

/// The number that digits write, where it fits.
fn written_number(field: &[u8]) -> Option<u64>
    ensures found { IfSome result (λ number. AllDigits field.now × (number ≡ written_number field.now)) }
    ensures none { IfNone result (AllDigits field.now → 2 ^ 64 ≤ written_number field.now) }
{
    let mut number: u64 = 0;
    for byte in field {
        if !byte.is_ascii_digit() {
            return None;
        }
        number = number
            .checked_mul(10)?
            .checked_add(u64::from(*byte - b'0'))?;
    }
    Some(number)
}
