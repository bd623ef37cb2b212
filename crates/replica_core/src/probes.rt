//! Predicates for the binary searches in a line: true for its first operations, and false for the later ones.

ghost use Rattle.std.specs.Prelude.{◌≡◌};
ghost use Rattle.replica_core.specs.Missing.{row_by_row};
ghost use Rattle.replica_core.specs.Searches.{is_below, is_before, is_earlier, is_within, passes_at};

use super::arrivals::Arrivals;
use chunk_list::Probe;
use review_ops::{Op, Stamp};
use std::alloc::Allocator;
use std::cmp::Ordering;

/// The operations below this one.
#[derive(Drop)]
pub(super) struct Below<'a, A: Allocator + Copy> {
    pub(super) arrivals: &'a Arrivals<A>,
    pub(super) op: &'a Op<A>,
}

impl<'a, A: Allocator + Copy> Probe<usize> for Below<'a, A> {
    ghost passes = { λ below place. passes_at (is_below below.op.now) below.arrivals.now.items place };

    fn passes(&self, place: &usize) -> bool {
        match self.arrivals.get(*place) {
            Some(other) => compare(other, self.op).is_lt(),
            None => false,
        }
    }
}

/// The operations with a sequence number and time below a stamp's.
#[derive(Drop)]
pub(super) struct Before<'a, A: Allocator + Copy> {
    pub(super) arrivals: &'a Arrivals<A>,
    pub(super) stamp: Stamp,
}

impl<'a, A: Allocator + Copy> Probe<usize> for Before<'a, A> {
    ghost passes = { λ before place. passes_at (is_before before.stamp) before.arrivals.now.items place };

    fn passes(&self, place: &usize) -> bool {
        match self.arrivals.get(*place) {
            Some(other) => is_before(other.stamp(), self.stamp),
            None => false,
        }
    }
}

/// The operations with at most a sequence number.
#[derive(Drop)]
pub(super) struct Within<'a, A: Allocator + Copy> {
    pub(super) arrivals: &'a Arrivals<A>,
    pub(super) seq: u64,
}

impl<'a, A: Allocator + Copy> Probe<usize> for Within<'a, A> {
    ghost passes = { λ within place. passes_at (is_within within.seq) within.arrivals.now.items place };

    fn passes(&self, place: &usize) -> bool {
        match self.arrivals.get(*place) {
            Some(other) => other.stamp().seq() <= self.seq,
            None => false,
        }
    }
}

/// Whether a stamp's sequence number and time are below another's.
fn is_before(other: Stamp, stamp: Stamp) -> bool
    ensures { result ≡ is_earlier stamp other }
{
    if other.seq() == stamp.seq() {
        return other.time() < stamp.time();
    }
    other.seq() < stamp.seq()
}

/// Compares by site, start, sequence number, time and body.
fn compare<A: Allocator + Copy>(a: &Op<A>, b: &Op<A>) -> Ordering
    ensures { result ≡ row_by_row a.now b.now }
{
    let (x, y) = (a.stamp(), b.stamp());
    x.site()
        .cmp(&y.site())
        .then(x.start().cmp(&y.start()))
        .then(x.seq().cmp(&y.seq()))
        .then(x.time().cmp(&y.time()))
        .then_with(|| a.body().cmp(b.body()))
}
