//! The start that a site runs under.

ghost use Rattle.std.specs.Prelude.{◌≡◌, ◌≤◌, ◌<◌, IfSome, Some};
ghost use Rattle.pull_guard.specs.Guards.{MayBegin};
ghost use Rattle.replica_core.specs.Starts.{IsUnused};

use pull_guard::LAST_START;
use replica_core::{Replica, latest_start};
use std::thread;
use std::time::{Clock, Duration, SystemTime};

/// The start that a site runs under: the one that is named, from 1 to 4,294,967,294, unless the record has a stamp of
/// the site under it or a later one; without a name the next one, by the clock as it was when the site began, once that
/// second has passed. `None` if every such start is used, or none is named and the clock couldn't be read.
pub fn start_of<R: Clock>(
    rt: &R,
    named: Option<u32>,
    began: Option<Duration>,
    replica: &Replica,
    site: u16,
) -> Option<u32>
    ensures unused { IfSome result (λ start. IsUnused site start replica.now) }
    ensures may { IfSome result MayBegin }
    ensures named { IfSome named (λ start. IfSome result (λ taken. taken ≡ start)) }
    ensures taken { IfSome named
        (λ start. 1 ≤ start → MayBegin start → IsUnused site start replica.now → result ≡ Some start) }
{
    let latest = latest_start(replica, site);
    match named {
        Some(start) if start > latest && start <= LAST_START => named,
        Some(_) => None,
        None => next_start(rt, latest, began),
    }
}

/// The start of a site for which none is named: one above the latest of its own, and no less than the seconds since
/// 1970 when it began. None where none is left, or the clock couldn't be read.
fn next_start<R: Clock>(rt: &R, latest: u32, began: Option<Duration>) -> Option<u32>
    ensures above { IfSome result (λ start. latest < start) }
    ensures may { IfSome result MayBegin }
{
    let above = latest.checked_add(1)?;
    let start = seconds_of(began?)?.max(above);
    if start > LAST_START {
        return None;
    }
    pass_second(rt, start);
    Some(start)
}

/// The whole seconds of a time.
fn seconds_of(time: Duration) -> Option<u32> {
    u32::try_from(time.as_secs()).ok()
}

/// The time since 1970, by the system's clock. None where it can't be read, or is before 1970.
pub fn time_of<R: Clock>(rt: &R) -> Option<Duration> {
    SystemTime::now(rt)
        .ok()?
        .duration_since(SystemTime::UNIX_EPOCH)
        .ok()
}

/// Waits until the second has passed that a start was taken from. A site that begins later by an older copy of the
/// journal file, which lacks what this one takes in, then has a greater start. It waits a second at most, and not at
/// all if reading the record took as long.
fn pass_second<R: Clock>(rt: &R, start: u32) {
    if let Some(left) = rest_of_second(rt, start) {
        thread::sleep(rt, left);
    }
}

/// How much is left of this second since 1970; none where the clock is at another one, or can't be read.
fn rest_of_second<R: Clock>(rt: &R, second: u32) -> Option<Duration> {
    let since = time_of(rt)?;
    if since.as_secs() != u64::from(second) {
        return None;
    }
    Duration::from_secs(u64::from(second) + 1).checked_sub(since)
}
