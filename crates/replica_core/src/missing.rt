//! What a front lacks.

ghost use Rattle.std.specs.Prelude.{◌≡◌, ◌≤◌, ◌<◌, ◌++◌, List, IfOk, OnOk, take, length, nat_lt};
ghost use Rattle.std.specs.List.{All};
ghost use Rattle.review_ops.specs.Operation.{Operation};
ghost use Rattle.replica_core.specs.Lines.{ops_at, ops_of, IsFiled};
ghost use Rattle.replica_core.specs.Missing.{IsMissing};
ghost use Rattle.replica_core.specs.Searches.{ops_past};

use super::arrivals::Arrivals;
use super::front::Front;
use super::line::Line;
use super::replica::Replica;
use lattice_core::NoMemory;
use review_ops::Op;
use std::alloc::{Allocator, Global};

/// Operations that a front lacks.
#[derive(Drop)]
pub struct Missing<A: Allocator + Copy = Global> {
    /// The first of them, by site, start, sequence number, time and body.
    pub ops: Vec<Op<A>, A>,
    /// Whether others are left.
    pub more: bool,
}

impl<A: Allocator + Copy> Replica<A> {
    /// Copies of the operations that lie past a front, by site, start, sequence number, time and body: the first
    /// `limit` of them. It takes O(m) memory for m bytes of copies, and costs O(m + r log n) time for r rows with n
    /// operations in all.
    pub fn missing(&self, front: &Front<A>, limit: usize) -> Result<Missing<A>, NoMemory>
        ensures { IfOk result (λ missing. (all : List Operation) × IsMissing self.now front.now all
            × (missing.ops.items ≡ take limit all) × (missing.more ≡ nat_lt limit (length all))) }
    {
        let mut ops = Vec::new(self.allocator());
        for line in self.lines.iter() {
            let reach = front.reach(line.row());
            if copy_past(&mut ops, &self.arrivals, line, reach, limit)? {
                return Ok(Missing { ops, more: true });
            }
        }
        Ok(Missing { ops, more: false })
    }
}

/// Adds copies of a row's operations past a sequence number, up to the limit. Returns whether others are left.
fn copy_past<A: Allocator + Copy>(
    copies: &mut Vec<Op<A>, A>,
    arrivals: &Arrivals<A>,
    line: &Line<A>,
    reach: u64,
    limit: usize,
) -> Result<bool, NoMemory>
    requires filed { IsFiled arrivals.now.items line.now }
    requires room { length copies.old.items ≤ limit }
    ensures { IfOk result (λ more.
        (copies.new.items ≡ take limit (copies.old.items ++ ops_past reach (ops_of arrivals.now.items line.now)))
        × (more ≡ nat_lt limit (length (copies.old.items ++ ops_past reach (ops_of arrivals.now.items line.now))))) }
{
    for place in line.past(arrivals, reach) {
        if copies.len() == limit {
            return Ok(true);
        }
        copies.push(arrivals.at(*place).copy()?)?;
    }
    Ok(false)
}
