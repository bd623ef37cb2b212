//! The line of a row: an index of the row's operations among the arrivals.

ghost use Rattle.std.specs.Prelude.{◌≡◌, ◌≤◌, ◌<◌, ◌+◌, ◌-◌, ◌^◌, true, ℕ, [], length, slice_get, IfOk};
ghost use Rattle.std.specs.List.{All};
ghost use Rattle.std.specs.Option.{option_copied};
ghost use Rattle.chunk_list.specs.Ranks.{rank};
ghost use Rattle.replica_core.specs.Clock.{greatest, seqs};
ghost use Rattle.replica_core.specs.Front.{holds, IsGapless};
ghost use Rattle.replica_core.specs.Journal.{has, has_stamp};
ghost use Rattle.replica_core.specs.Lines.{ops_at, ops_of, IsFiled};
ghost use Rattle.replica_core.specs.Searches.{is_below, is_before, is_within, ops_past};

use super::arrivals::Arrivals;
use super::front::Row;
use super::probes::{Before, Below, Within};
use chunk_list::{ChunkList, Iter};
use lattice_core::NoMemory;
use review_ops::{Op, Stamp};
use std::alloc::{Allocator, Global};
use std::marker::Model;

/// The index of a row: the positions of its operations among the arrivals, ordered by sequence number, time and body,
/// and its reach, the sequence number up to which there is no gap.
#[derive(Drop)]
pub(super) struct Line<A: Allocator + Copy = Global> {
    pub(super) row: Row,
    pub(super) places: ChunkList<usize, A>,
    pub(super) reach: u64,
}

impl<A: Allocator + Copy> Model for Line<A> {
    ghost use Rattle.replica_core.specs.RowLine.{RowLine};

    ghost Value = { RowLine };

    ghost view = { λ l. record { site = l.row.site; start = l.row.start; places = l.places; reach = l.reach } };
}

impl<A: Allocator + Copy> Line<A> {
    /// The line of a row without operations. It takes no memory.
    pub(super) fn new(alloc: A, row: Row) -> Line<A>
        ensures { result ≡ record { site = row.site; start = row.start; places = []; reach = 0 } }
    {
        Line {
            row,
            places: ChunkList::new(alloc),
            reach: 0,
        }
    }

    /// The row.
    pub(super) fn row(&self) -> Row
        ensures { result ≡ record { site = self.now.site; start = self.now.start } }
    {
        self.row
    }

    /// The sequence number up to which there is no gap.
    pub(super) fn reach(&self) -> u64
        ensures { result ≡ self.now.reach }
    {
        self.reach
    }

    /// A copy.
    pub(super) fn copy(&self, alloc: A) -> Result<Line<A>, NoMemory>
        ensures { IfOk result (λ copied. copied ≡ self.now) }
    {
        Ok(Line {
            row: self.row,
            places: copy_places(alloc, &self.places)?,
            reach: self.reach,
        })
    }

    /// The first of the row's operations that isn't below this one. It costs O(log n) for n operations of the row, and
    /// O(1) where all are below.
    fn from_op<'a>(&self, arrivals: &'a Arrivals<A>, op: &Op<A>) -> Option<&'a Op<A>>
        requires { IsFiled arrivals.now.items self.now }
        ensures { let ops = ops_of arrivals.now.items self.now in option_copied result
            ≡ slice_get ops (rank (is_below op.now) ops) }
    {
        let place = *self.places.first_failing(&Below { arrivals, op })?;
        arrivals.get(place)
    }

    /// The first of the row's operations with a sequence number and time not below a stamp's. It costs O(log n) for n
    /// operations of the row.
    fn from_stamp<'a>(&self, arrivals: &'a Arrivals<A>, stamp: Stamp) -> Option<&'a Op<A>>
        requires { IsFiled arrivals.now.items self.now }
        ensures { let ops = ops_of arrivals.now.items self.now in option_copied result
            ≡ slice_get ops (rank (is_before stamp) ops) }
    {
        let place = *self.places.first_failing(&Before { arrivals, stamp })?;
        arrivals.get(place)
    }

    /// The first of the row's operations past a sequence number. It costs O(log n) for n operations of the row.
    fn from_past<'a>(&self, arrivals: &'a Arrivals<A>, seq: u64) -> Option<&'a Op<A>>
        requires { IsFiled arrivals.now.items self.now }
        ensures { let ops = ops_of arrivals.now.items self.now in option_copied result
            ≡ slice_get ops (rank (is_within seq) ops) }
    {
        let place = *self.places.first_failing(&Within { arrivals, seq })?;
        arrivals.get(place)
    }

    /// The last of the row's operations. It costs O(1).
    fn last_op<'a>(&self, arrivals: &'a Arrivals<A>) -> Option<&'a Op<A>>
        requires { IsFiled arrivals.now.items self.now }
        ensures { let ops = ops_of arrivals.now.items self.now in option_copied result ≡ slice_get ops (length ops - 1) }
    {
        let place = *self.places.last()?;
        arrivals.get(place)
    }

    /// Whether this is one of the row's operations. It costs O(log n) for n of them.
    pub(super) fn has(&self, arrivals: &Arrivals<A>, op: &Op<A>) -> bool
        requires { IsFiled arrivals.now.items self.now }
        ensures { result ≡ has (ops_of arrivals.now.items self.now) op.now }
    {
        match self.from_op(arrivals, op) {
            Some(other) => other == op,
            None => false,
        }
    }

    /// Whether one of the row's operations has this stamp. It costs O(log n) for n of them.
    pub(super) fn has_stamp(&self, arrivals: &Arrivals<A>, stamp: Stamp) -> bool
        requires { IsFiled arrivals.now.items self.now }
        ensures { result ≡ has_stamp (ops_of arrivals.now.items self.now) stamp }
    {
        match self.from_stamp(arrivals, stamp) {
            Some(other) => other.stamp().cmp(&stamp).is_eq(),
            None => false,
        }
    }

    /// The greatest sequence number of the row's operations, or 0.
    pub(super) fn last_seq(&self, arrivals: &Arrivals<A>) -> u64
        requires { IsFiled arrivals.now.items self.now }
        ensures { result ≡ greatest (seqs self.now.site self.now.start arrivals.now.items) }
    {
        match self.last_op(arrivals) {
            Some(op) => op.stamp().seq(),
            None => 0,
        }
    }

    /// Whether one of the row's operations has the number after this one. It costs O(1) where that is its last, else
    /// O(log n) for n operations of the row.
    fn follows(&self, arrivals: &Arrivals<A>, seq: u64) -> bool
        requires filed { IsFiled arrivals.now.items self.now }
        requires next { seq < 2 ^ 64 - 1 }
        ensures { result ≡ holds arrivals.now.items self.now.site self.now.start (seq + 1) }
    {
        let last = self.last_seq(arrivals);
        if last <= seq + 1 {
            return last == seq + 1;
        }
        match self.from_past(arrivals, seq) {
            Some(other) => other.stamp().seq() == seq + 1,
            None => false,
        }
    }

    /// The places of the row's operations past a sequence number. It costs O(log n) for n operations of the row to find
    /// the first.
    pub(super) fn past(&self, arrivals: &Arrivals<A>, seq: u64) -> Iter<'_, usize, A>
        requires { IsFiled arrivals.now.items self.now }
        ensures ops { ops_at arrivals.now.items result ≡ ops_past seq (ops_of arrivals.now.items self.now) }
        ensures inside { All (λ place. place < length arrivals.now.items) result }
    {
        self.places.failing(&Within { arrivals, seq })
    }
}

/// Copies a list of positions.
fn copy_places<A: Allocator + Copy>(
    alloc: A,
    places: &ChunkList<usize, A>,
) -> Result<ChunkList<usize, A>, NoMemory>
    ensures { IfOk result (λ copied. copied ≡ places.now) }
{
    let mut copied = ChunkList::new(alloc);
    for place in places.iter() {
        copied.push(*place)?;
    }
    Ok(copied)
}

/// The sequence number up to which a row has no gap, found by counting up from the line's reach. It costs O(log n) for
/// each number counted, for n operations of the row.
pub(super) fn climbed<A: Allocator + Copy>(arrivals: &Arrivals<A>, line: &Line<A>) -> u64
    requires filed { IsFiled arrivals.now.items line.now }
    requires gapless { (seq : ℕ) → 1 ≤ seq → seq ≤ line.now.reach
        → holds arrivals.now.items line.now.site line.now.start seq ≡ true }
    ensures { IsGapless (holds arrivals.now.items line.now.site line.now.start) result }
{
    let last = line.last_seq(arrivals);
    let mut reach = line.reach();
    while reach < last && line.follows(arrivals, reach) {
        reach += 1;
    }
    reach
}
