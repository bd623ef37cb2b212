//! Helpers that make records. If memory is refused a helper returns `None` or false, and the test fails.

use deeds::{Deed, op_of};
use review_ops::{Body, Draft, Op, Stamp};
use state_core::State;
use std::alloc::Global;

/// Whether a state takes an operation, where there is one.
fn takes(state: &mut State, op: Option<Op>) -> bool {
    match op {
        Some(op) => state.take(&op).is_ok(),
        None => false,
    }
}

/// Takes a deed in as an operation of site 1 under start 1, with this time as its sequence number, too: whether memory
/// suffices for it.
pub fn takes_deed(alloc: Global, state: &mut State, time: u64, change: u32, deed: Deed) -> bool {
    takes(state, op_of(alloc, time, change, deed))
}

/// A message with a footer for each of these changes, under the base `https://r/`.
fn message_of(alloc: Global, needs: &[u32]) -> Option<String> {
    let mut message = String::from_str(alloc, "m\n").ok()?;
    for need in needs {
        write!(message, "Depends-On: https://r/{need}\n").ok()?;
    }
    Some(message)
}

/// A patch set: its change, its number, the changes for which its message has a footer each, and its parent.
#[derive(Clone, Copy)]
pub struct Patch {
    pub change: u32,
    pub set: u32,
    pub needs: &'static [u32],
    pub parent: Option<u32>,
}

/// The draft of a patch set.
fn patch_draft(alloc: Global, patch: Patch) -> Option<Draft> {
    let message = message_of(alloc, patch.needs)?;
    Some(Draft::PatchSet {
        change: patch.change,
        set: patch.set,
        message,
        parent: patch.parent,
    })
}

/// The operation of a patch set with this time.
fn patch_op(alloc: Global, time: u64, patch: Patch) -> Option<Op> {
    let stamp = Stamp::new(time, 1, 1, time)?;
    let body = Body::checked(patch_draft(alloc, patch)?).ok()?;
    Some(Op::new(stamp, body))
}

/// Takes a patch set in as such an operation: whether memory suffices for it.
pub fn takes_patch(alloc: Global, state: &mut State, time: u64, patch: Patch) -> bool {
    takes(state, patch_op(alloc, time, patch))
}

/// Whether there is a text, and it is this one.
pub fn is_text(text: Option<String>, wanted: &str) -> bool {
    match text {
        Some(text) => text.as_str() == wanted,
        None => false,
    }
}
