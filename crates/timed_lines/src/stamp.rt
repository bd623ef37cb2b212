//! The text of a time, and of the line after it.

ghost use Rattle.std.specs.Prelude.{◌≡◌, ◌++◌, ◌≤◌, length, option_map};
ghost use Rattle.timed_lines.specs.Times.{IsStamp};

use arrayvec::{ArrayString, ArrayVec};
use jiff::Timestamp;
use jiff::fmt::temporal::DateTimePrinter;

/// How many places of a second's fraction a time has.
const PLACES: u8 = 3;

/// The most bytes of a time and its line that are written at once: as many as a pipe takes whole.
const AT_ONCE: usize = 4_096;

/// The most bytes of a time, with the space after it.
const STAMP: usize = 40;

/// The most bytes of a line that are written together with its time.
pub const FRONT: usize = AT_ONCE - STAMP;

/// The text of a moment, and a space; nothing where there is none.
pub fn stamp_of(moment: Option<Timestamp>) -> ArrayString<STAMP>
    ensures { IsStamp (option_map (λ moment. moment.nanosecond) moment) result.bytes }
{
    let mut stamp = ArrayString::new();
    if let Some(moment) = moment {
        let time = DateTimePrinter::new()
            .precision(Some(PLACES))
            .timestamp_text(moment.to_plain());
        stamp.push_str(time.as_str());
        stamp.push_str(" ");
    }
    stamp
}

/// A time and the front of a line in one text.
pub fn joined(stamp: &[u8], front: &[u8]) -> ArrayVec<u8, AT_ONCE>
    requires { (length stamp.now ≤ STAMP) × (length front.now ≤ FRONT) }
    ensures { result.items ≡ stamp.now ++ front.now }
{
    let mut text = ArrayVec::new();
    let is_whole = text.try_extend_from_slice(stamp).is_ok()
        && text.try_extend_from_slice(front).is_ok();
    if is_whole { text } else { unreachable!() }
}
