//! For tests: short notations for drafts and operations.
//!
//! An example of its use:
//!
//! ```
//! use deeds::{Deed, op_of};
//! let vote = Deed::Vote(1, "Workflow", "ann", 1);
//! let op = op_of(alloc, 7, 101, vote).ok_or("an operation")?;
//! assert_eq!(rt; op.body().draft().label(), Some("workflow"));
//! ```
#![tactic(auto)]

use review_ops::{Body, Draft, Op, Stamp};
use std::alloc::Allocator;

/// What is done to a change.
#[derive(Clone, Copy)]
pub enum Deed {
    /// A patch set with this number, message and parent.
    PatchSet(u32, &'static str, Option<u32>),
    /// A vote on the patch set with this number: its label, its voter and its value.
    Vote(u32, &'static str, &'static str, i8),
    /// The withdrawal of a vote on the patch set with this number: the vote's label and voter.
    Withdraw(u32, &'static str, &'static str),
    Abandon,
    Restore,
    Merged,
}

/// A text of its own, where memory suffices for it.
fn text<A: Allocator>(alloc: A, text: &str) -> Option<String<A>> {
    String::from_str(alloc, text).ok()
}

/// A patch set, where memory suffices for it.
fn patch_set<A: Allocator + Copy>(
    alloc: A,
    change: u32,
    set: u32,
    message: &str,
    parent: Option<u32>,
) -> Option<Draft<A>> {
    let message = text(alloc, message)?;
    Some(Draft::PatchSet {
        change,
        set,
        message,
        parent,
    })
}

/// A vote, where memory suffices for it.
fn vote<A: Allocator + Copy>(
    alloc: A,
    change: u32,
    set: u32,
    label: &str,
    voter: &str,
    value: i8,
) -> Option<Draft<A>> {
    let label = text(alloc, label)?;
    let voter = text(alloc, voter)?;
    Some(Draft::Vote {
        change,
        set,
        label,
        voter,
        value,
    })
}

/// The withdrawal of a vote, where memory suffices for it.
fn withdrawal<A: Allocator + Copy>(
    alloc: A,
    change: u32,
    set: u32,
    label: &str,
    voter: &str,
) -> Option<Draft<A>> {
    let label = text(alloc, label)?;
    let voter = text(alloc, voter)?;
    Some(Draft::Withdraw {
        change,
        set,
        label,
        voter,
    })
}

/// The draft of a deed on a change, where memory suffices for it.
pub fn draft_of<A: Allocator + Copy>(alloc: A, change: u32, deed: Deed) -> Option<Draft<A>> {
    match deed {
        Deed::PatchSet(set, message, parent) => patch_set(alloc, change, set, message, parent),
        Deed::Vote(set, label, voter, value) => vote(alloc, change, set, label, voter, value),
        Deed::Withdraw(set, label, voter) => withdrawal(alloc, change, set, label, voter),
        Deed::Abandon => Some(Draft::Abandon { change }),
        Deed::Restore => Some(Draft::Restore { change }),
        Deed::Merged => Some(Draft::Merged { change }),
    }
}

/// The operation of a deed on a change, with the time and sequence number `time`, of site 1 under start 1: where memory
/// suffices for it, the time isn't 0 and the draft is a good one.
pub fn op_of<A: Allocator + Copy>(alloc: A, time: u64, change: u32, deed: Deed) -> Option<Op<A>> {
    let stamp = Stamp::new(time, 1, 1, time)?;
    let body = Body::checked(draft_of(alloc, change, deed)?).ok()?;
    Some(Op::new(stamp, body))
}
