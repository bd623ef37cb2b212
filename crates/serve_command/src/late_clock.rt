//! The warning about a record with a very late time.

ghost use Rattle.std.specs.Prelude.{◌≡◌, ◌≤◌, ◌<◌, ◌^◌, IfOk, string_bytes};
ghost use Rattle.console.specs.Showing.{ShowsLine, error_output};
ghost use Rattle.replica_core.specs.Clock.{greatest, times};
ghost use Rattle.serve_command.specs.LateClock.{late_clock_line};

use byte_ends::Drain;
use console::show_line;
use pull_guard::latest_time;
use refusal_line::{Part, refusal_line};
use replica_core::Replica;
use std::alloc::{AllocError, Global};

/// 2^63: a greatest time above this is reported.
const HALF: u64 = 9_223_372_036_854_775_808;

/// Writes the greatest time of a record to standard error if it is above 2^63, or the line `NoMemory` if memory is
/// refused for that. No honest clock gets there: the time came from a peer or a file. If standard error fails the line
/// is lost.
pub fn show_late_clock<E: Drain>(alloc: Global, replica: &Replica, errors: &mut E)
    ensures early { greatest (times replica.now) ≤ 2 ^ 63 → errors.new ≡ errors.old }
    ensures late { 2 ^ 63 < greatest (times replica.now) → ShowsLine (late_clock_line (greatest (times replica.now)))
        (error_output (E.taken errors.old) (E.failed errors.old))
        (error_output (E.taken errors.new) (E.failed errors.new)) }
{
    let latest = latest_time(replica);
    if latest > HALF {
        show_line(&late_clock_line(alloc, latest), errors);
    }
}

/// The line of a record with this greatest time.
fn late_clock_line(alloc: Global, latest: u64) -> Result<String, AllocError>
    ensures { IfOk result (λ line. string_bytes line ≡ late_clock_line latest) }
{
    let words = format!(in alloc; "LateClock {latest}")?;
    refusal_line(alloc, Part::Serve, 9, words.as_str())
}
