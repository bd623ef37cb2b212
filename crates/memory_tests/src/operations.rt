//! Operations as sites stamp them, and copies of them.

use super::turns::{Call, Memory, Seen, assert_each};
use review_ops::{Draft, Op};
use std::alloc::Allocator;

/// What an operation says, but for its change, which is 101.
#[derive(Clone, Copy)]
pub(super) enum Deed {
    PatchSet(u32),
    Vote(u32, i8),
    Abandon,
}

/// The same in the words of all deeds.
fn in_full(deed: Deed) -> deeds::Deed {
    match deed {
        Deed::PatchSet(set) => deeds::Deed::PatchSet(set, "Add x\n", Some(7)),
        Deed::Vote(set, value) => deeds::Deed::Vote(set, "Workflow", "ann", value),
        Deed::Abandon => deeds::Deed::Abandon,
    }
}

/// The draft of a deed.
pub(super) fn draft_of<A: Allocator + Copy>(alloc: A, deed: Deed) -> Option<Draft<A>> {
    deeds::draft_of(alloc, 101, in_full(deed))
}

/// The operation of a deed, with the time and sequence number `time`, of site 1 under start 1.
pub(super) fn op_of<A: Allocator + Copy>(alloc: A, time: u64, deed: Deed) -> Option<Op<A>> {
    deeds::op_of(alloc, time, 101, in_full(deed))
}

/// A copy of an operation.
#[derive(Clone, Copy)]
struct Copying(Deed);

impl Call for Copying {
    fn seen(self, memory: &Memory, granted: u32) -> Option<Seen> {
        let op = op_of(memory, 1, self.0)?;
        Some(copied(memory, &op, granted))
    }
}

/// Whether a copy is equal to its operation.
fn is_equal<A: Allocator + Copy>(copy: Option<Op<A>>, op: &Op<A>) -> bool {
    copy.is_some_and(|copy| copy == *op)
}

/// What is seen of a copy of the operation.
fn copied<'a>(memory: &'a Memory, op: &Op<&'a Memory>, granted: u32) -> Seen {
    memory.refuse_after(granted);
    let copy = op.copy().ok();
    let refused = memory.grant_all();
    let failed = copy.is_none();
    Seen {
        failed,
        refused,
        stated: failed || is_equal(copy, op),
        whole: is_equal(op.copy().ok(), op),
    }
}

#[test]
fn copies(rt: HostRuntime) {
    assert_each(&rt, rt.alloc(), Copying(Deed::PatchSet(1)), 1);
    assert_each(&rt, rt.alloc(), Copying(Deed::Vote(1, 1)), 2);
    assert_each(&rt, rt.alloc(), Copying(Deed::Abandon), 0);
}
