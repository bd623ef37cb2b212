//! The stamp that a site's next operation gets.

ghost use Rattle.std.specs.Prelude.{◌≡◌, ◌↔◌, IfOk, IsErr};
ghost use Rattle.replica_core.specs.Clock.{greatest, seqs, next_of, IsSpent};

use super::front::Row;
use super::lines::find_line;
use super::replica::Replica;
use super::taken::ClockSpent;
use review_ops::Stamp;
use std::alloc::Allocator;

impl<A: Allocator + Copy> Replica<A> {
    /// The stamp of the next operation of a site under a start: a time one above every time in the journal, and a
    /// sequence number one above every one that the journal has of the site under the start; each is 1 where there is
    /// none. `ClockSpent` comes exactly where one of the two is the greatest number already. It takes no memory, and
    /// costs O(log n) for n rows.
    pub fn next_stamp(&self, site: u16, start: u32) -> Result<Stamp, ClockSpent>
        ensures next { IfOk result (λ stamp. stamp ≡ next_of self.now site start) }
        ensures spent { IsErr result ↔ IsSpent self.now site start }
    {
        let time = self.latest;
        let seq = self.last_seq(Row { site, start });
        if time == u64::MAX || seq == u64::MAX {
            return Err(ClockSpent);
        }
        Stamp::new(time + 1, site, start, seq + 1).ok_or(ClockSpent)
    }

    /// The greatest sequence number of a row, or 0: that of its last operation.
    fn last_seq(&self, row: Row) -> u64
        ensures { result ≡ greatest (seqs row.site row.start self.now) }
    {
        match find_line(&self.lines, row) {
            Some(line) => line.last_seq(&self.arrivals),
            None => 0,
        }
    }
}
