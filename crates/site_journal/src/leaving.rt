//! What a recovery leaves out of a record.

ghost use Rattle.std.specs.Prelude.{◌≡◌, IfErr, IfOk, false, true};
ghost use Rattle.replica_core.specs.Sets.{IsSameSet};
ghost use Rattle.review_ops.specs.Operation.{Operation};
ghost use Rattle.site_journal.specs.Leaving.{is_after, is_left_out, is_of_row, kept_of};

use crate::fault::JournalFault;
use replica_core::{Gathering, Replica};
use review_ops::{Op, Stamp};
use std::alloc::Global;

/// The operations that are left out of a recovered record: those of some sites under some starts, and those whose time
/// is above another.
#[derive(Debug, Drop)]
pub struct LeftOut {
    /// The sites with the starts.
    pub rows: Vec<(u16, u32)>,
    /// The greatest time that is kept; without it any time is.
    pub until: Option<u64>,
}

impl LeftOut {
    /// Leaves nothing out.
    pub fn nothing(alloc: Global) -> LeftOut
        ensures { (op : Operation) → is_left_out result op ≡ false }
    {
        LeftOut {
            rows: Vec::new(alloc),
            until: None,
        }
    }

    /// Whether nothing is left out, whatever comes.
    fn is_nothing(&self) -> bool
        ensures { result ≡ true → (op : Operation) → is_left_out self.now op ≡ false }
    {
        self.rows.is_empty() && self.until.is_none()
    }

    /// Whether this is left out. It costs O(m) for m sites with starts.
    pub fn has(&self, op: &Op) -> bool
        ensures { result ≡ is_left_out self.now op.now }
    {
        let stamp = op.stamp();
        self.has_row(stamp) || self.is_after(stamp.time())
    }

    /// Whether the site and the start of a stamp are left out.
    fn has_row(&self, stamp: Stamp) -> bool
        ensures { result ≡ is_of_row self.now.rows.items stamp }
    {
        self.rows
            .iter()
            .any(|row| row.0 == stamp.site() && row.1 == stamp.start())
    }

    /// Whether a time is above the greatest one that is kept.
    fn is_after(&self, time: u64) -> bool
        ensures { result ≡ is_after self.now.until time }
    {
        match self.until {
            Some(until) => until < time,
            None => false,
        }
    }
}

/// The record without the operations that are to be left out. Where that is nothing it costs nothing, and else
/// O(n log n) for n operations, and memory for a copy of those that are kept.
pub(crate) fn without(
    alloc: Global,
    replica: Replica,
    left_out: &LeftOut,
) -> Result<Replica, JournalFault>
    ensures ok { IfOk result (λ kept. IsSameSet kept (kept_of left_out.now replica)) }
    ensures err { IfErr result (λ fault. fault ≡ JournalFault.NoMemory) }
{
    if left_out.is_nothing() {
        return Ok(replica);
    }
    kept(alloc, &replica, left_out)
}

/// The record of those operations that aren't left out.
fn kept(alloc: Global, replica: &Replica, left_out: &LeftOut) -> Result<Replica, JournalFault>
    ensures ok { IfOk result (λ kept. IsSameSet kept (kept_of left_out.now replica.now)) }
    ensures err { IfErr result (λ fault. fault ≡ JournalFault.NoMemory) }
{
    let mut gathering = Gathering::onto(Replica::new(alloc));
    for place in 0..replica.len() {
        let op = replica.arrival(place);
        if !left_out.has(op) {
            let _new = gathering.take(op.copy()?)?;
        }
    }
    Ok(gathering.joined()?)
}
