//! A slow replica over a plain list, straight from the definitions, that replicas are compared with.

use lattice_core::NoMemory;
use replica_core::{Front, Iter, Row};
use review_ops::{Op, Stamp};
use std::alloc::Global;
use std::cmp::Ordering;

/// A journal as the list of its arrivals.
#[derive(Drop)]
pub struct Plain {
    pub ops: Vec<Op>,
}

impl Plain {
    pub fn new(alloc: Global) -> Plain {
        Plain {
            ops: Vec::new(alloc),
        }
    }

    /// Takes an operation, and says whether it is new.
    pub fn take(&mut self, op: Op) -> Result<bool, NoMemory> {
        if self.has(&op) {
            return Ok(false);
        }
        self.ops.push(op)?;
        Ok(true)
    }

    /// Takes copies of these operations, in order.
    pub fn absorb(&mut self, alloc: Global, ops: Iter<'_>) -> Result<(), NoMemory> {
        let mut sorted: Vec<&Op> = ops.collect(alloc)?;
        sorted.sort_unstable();
        for op in sorted {
            self.take(op.copy()?)?;
        }
        Ok(())
    }

    pub fn has(&self, op: &Op) -> bool {
        self.ops.contains(op)
    }

    pub fn has_stamp(&self, stamp: Stamp) -> bool {
        for op in &self.ops {
            if op.stamp() == stamp {
                return true;
            }
        }
        false
    }

    /// The time and the sequence number of the next stamp, unless one is spent.
    pub fn next(&self, row: Row) -> Option<(u64, u64)> {
        let mut time = 0u64;
        let mut seq = 0u64;
        for op in &self.ops {
            time = time.max(op.stamp().time());
            if row_of(op) == row {
                seq = seq.max(op.stamp().seq());
            }
        }
        Some((time.checked_add(1)?, seq.checked_add(1)?))
    }

    /// How far a row goes without a gap.
    pub fn reach(&self, row: Row) -> u64 {
        let mut reach = 0u64;
        for _ in 0..self.ops.len() {
            let next = reach.saturating_add(1);
            if !self.holds(row, next) {
                break;
            }
            reach = next;
        }
        reach
    }

    fn holds(&self, row: Row, seq: u64) -> bool {
        for op in &self.ops {
            if row_of(op) == row && op.stamp().seq() == seq {
                return true;
            }
        }
        false
    }

    /// Copies of the operations past a front, in order.
    pub fn missing(&self, alloc: Global, front: &Front) -> Result<Vec<Op>, NoMemory> {
        let mut lacked = Vec::new(alloc);
        for op in &self.ops {
            if front.reach(row_of(op)) < op.stamp().seq() {
                lacked.push(op.copy()?)?;
            }
        }
        lacked.sort_unstable_by(compare);
        Ok(lacked)
    }
}

fn row_of(op: &Op) -> Row {
    let stamp = op.stamp();
    Row {
        site: stamp.site(),
        start: stamp.start(),
    }
}

fn compare(a: &Op, b: &Op) -> Ordering {
    let (x, y) = (a.stamp(), b.stamp());
    row_of(a)
        .cmp(&row_of(b))
        .then(x.seq().cmp(&y.seq()))
        .then(x.time().cmp(&y.time()))
        .then(a.body().cmp(b.body()))
}
