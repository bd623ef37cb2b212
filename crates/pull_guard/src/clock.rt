//! The greatest time of a record.

ghost use Rattle.std.specs.Prelude.{◌≡◌};
ghost use Rattle.replica_core.specs.Clock.{greatest, times};

use replica_core::{Iter, Replica};

/// The greatest time of a record's operations, or 0 where it has none. It is one below the time of a stamp that a site
/// 0 would get next, of which no operation comes: so it costs O(log n) for n operations, and O(n) only where no time
/// is above.
pub fn latest_time(replica: &Replica) -> u64
    ensures { result ≡ greatest (times replica.now) }
{
    match replica.next_stamp(0, 0) {
        Ok(stamp) => stamp.time() - 1,
        Err(_) => greatest_time(replica.iter()),
    }
}

/// The greatest time of operations, or 0 where there are none.
fn greatest_time(ops: Iter<'_>) -> u64
    ensures { result ≡ greatest (times ops.entry) }
{
    ops.map(|op| op.stamp().time())
        .fold(0, |latest, time| latest.max(time))
}
