//! Reads the end line of a snapshot.

ghost use Rattle.std.specs.Prelude.{◌≡◌, ◌≤◌, MatchOption, length};
ghost use Rattle.std.specs.Str.Parse.{AllDigits, digits_value};
ghost use Rattle.snapshot_text.specs.Snapshot.{IsEndLine, IsNoEndLine};

/// The greatest number of digits in an end line.
const MOST_DIGITS: usize = 20;

/// The number that an end line says.
pub fn claimed(line: &[u8]) -> Option<u128>
    ensures { MatchOption result (IsNoEndLine line.now) (IsEndLine line.now) }
{
    let digits = line.strip_prefix(b"end ".as_slice())?;
    if digits.is_empty() || digits.len() > MOST_DIGITS {
        return None;
    }
    number(digits)
}

/// The number that digits write.
fn number(digits: &[u8]) -> Option<u128>
    requires { length digits.now ≤ 20 }
    ensures { MatchOption result (¬ AllDigits 10 digits.now)
        (λ number. AllDigits 10 digits.now × (digits_value 10 digits.now ≡ number)) }
{
    let mut number = 0u128;
    for digit in digits {
        if !digit.is_ascii_digit() {
            return None;
        }
        number = number * 10 + u128::from(*digit - b'0');
    }
    Some(number)
}
