//! The trait of those who take the lines that a feed reads.

ghost use Rattle.std.specs.Prelude.{ℕ, Result};
ghost use Rattle.event_feed.specs.declared.fault.FeedFault.{FeedFault as Fault};
ghost use Rattle.gerrit_events.specs.Reading.{ParsedLine as Line};

use super::fault::FeedFault;
use gerrit_events::ParsedLine;

/// Takes the lines that a feed reads. Each implementation gives two relations, between its state before a call, the
/// arguments, the result, and its state after.
pub trait Taker {
    /// `rest` may return the result, and lead from the first state to the second.
    ghost rests: { Self → Result (Unit {0}) Fault → Self → Type 0 };

    /// `take` may return the result for the line with this number, and lead from the first state to the second.
    ghost takes: { Self → ℕ → Line → Result (Unit {0}) Fault → Self → Type 0 };

    /// Is called before more of the source is read.
    fn rest(&mut self) -> Result<(), FeedFault>
        ensures { rests self.old result self.new };

    /// Takes the parsed line with this number.
    fn take(&mut self, number: u64, parsed: ParsedLine) -> Result<(), FeedFault>
        ensures { takes self.old number parsed result self.new };
}
