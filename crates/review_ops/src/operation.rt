//! What was done to a change, with its stamp.

ghost use Rattle.std.specs.Prelude.{◌≡◌, IfOk, refl};
ghost use Rattle.std.specs.Ordering.{eq_by_cmp, as_partial_cmp};
ghost use Rattle.std.specs.Cmp.{IsTotalOrder, partial_equiv_from_equiv, partial_order_from_agreeing_total};
ghost use Rattle.std.proofs.lemmas.Cmp.{eq_by_cmp_equiv};
ghost use Rattle.review_ops.specs.Timestamp.{IsNumbered};
ghost use Rattle.review_ops.specs.Good.{IsGood};
ghost use Rattle.review_ops.specs.Operation.{Operation, operation_cmp};
ghost use Rattle.review_ops.specs.Order.{operations_exact};

use super::body::Body;
use super::stamp::Stamp;
use lattice_core::NoMemory;
use std::alloc::{Allocator, Global};
use std::cmp::Ordering;
use std::marker::Model;

/// What was done to a change, when and where. Operations are ordered by stamp, then by body.
#[derive(Debug, Drop)]
pub struct Op<A: Allocator + Copy = Global> {
    stamp: Stamp,
    body: Body<A>,
}

impl<A: Allocator + Copy> Model for Op<A> {
    ghost use Rattle.review_ops.specs.Operation.{Operation};

    ghost Value = { Operation };

    ghost view = { λ op. record { stamp = op.stamp; deed = op.body } };
}

impl<A: Allocator + Copy> Op<A> {
    /// The operation of a stamp and a body.
    pub fn new(stamp: Stamp, body: Body<A>) -> Op<A>
        ensures { result ≡ record { stamp = stamp; deed = body } }
    {
        Op { stamp, body }
    }

    /// When and where it was made.
    pub fn stamp(&self) -> Stamp
        ensures value { result ≡ self.now.stamp }
        ensures numbered { IsNumbered self.now.stamp }
    {
        prove!(self.stamp.seq() >= 1);
        self.stamp
    }

    /// What was done.
    pub fn body(&self) -> &Body<A>
        ensures value { result.now ≡ self.now.deed }
        ensures good { IsGood self.now.deed }
    {
        prove!(self.body.change() >= 1);
        &self.body
    }

    /// The stamp and the body, by value.
    pub fn into_parts(self) -> (Stamp, Body<A>)
        ensures stamp { result.0 ≡ self.stamp }
        ensures body { result.1 ≡ self.deed }
    {
        (self.stamp, self.body)
    }

    /// An equal operation, with texts of its own on the same allocator. It costs O(n) for n bytes of its texts.
    pub fn copy(&self) -> Result<Op<A>, NoMemory>
        ensures { IfOk result (λ copied. copied ≡ self.now) }
    {
        Ok(Op {
            stamp: self.stamp,
            body: self.body.copy()?,
        })
    }
}

impl<A: Allocator + Copy> Ord for Op<A> {
    ghost cmp = { operation_cmp };

    ghost total = { operations_exact.total };

    ghost matches_partial_cmp = { λ a b. refl };

    ghost matches_eq = { λ a b. refl };

    fn cmp(&self, other: &Op<A>) -> Ordering {
        self.stamp
            .cmp(&other.stamp)
            .then_with(|| self.body.cmp(&other.body))
    }
}

impl<A: Allocator + Copy> PartialOrd for Op<A> {
    ghost partial_cmp = { as_partial_cmp operation_cmp };

    ghost laws = { partial_order_from_agreeing_total operation_cmp operations_exact.total (λ a b. refl) (λ a b. refl) };

    fn partial_cmp(&self, other: &Op<A>) -> Option<Ordering> {
        Some(self.cmp(other))
    }
}

impl<A: Allocator + Copy> PartialEq for Op<A> {
    ghost eq = { eq_by_cmp operation_cmp };

    ghost laws = { partial_equiv_from_equiv (eq_by_cmp_equiv operations_exact.total) };

    fn eq(&self, other: &Op<A>) -> bool {
        self.cmp(other).is_eq()
    }
}

impl<A: Allocator + Copy> Eq for Op<A> {
    ghost laws = { eq_by_cmp_equiv operations_exact.total };
}

/// A law: the order of operations is total, and operations that compare alike are equal.
pub fn operations_are_ordered()
    ensures total { IsTotalOrder operation_cmp }
    ensures exact { (x y : Operation) → operation_cmp x y ≡ Ordering.Equal → x ≡ y }
{}
