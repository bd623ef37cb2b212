//! How long something took, or how long ago it was, in words.

ghost use Rattle.page_text.specs.Rowless.{IsRowless};

/// A second, a minute, an hour and a day in milliseconds.
const SECOND: u64 = 1_000;

const MINUTE: u64 = 60 * SECOND;

const HOUR: u64 = 60 * MINUTE;

const DAY: u64 = 24 * HOUR;

/// How many of the greatest unit of which a duration has a whole one, and the name of that unit.
pub fn in_unit(milliseconds: u64) -> (u64, &'static str)
    ensures { IsRowless result.1.now }
{
    if milliseconds < MINUTE {
        (milliseconds / SECOND, " s")
    } else if milliseconds < HOUR {
        (milliseconds / MINUTE, " min")
    } else if milliseconds < DAY {
        (milliseconds / HOUR, " h")
    } else {
        (milliseconds / DAY, " d")
    }
}
