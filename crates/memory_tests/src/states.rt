//! The state of all changes, and its text.

use super::operations::{Deed, op_of};
use super::turns::{Call, Memory, Seen, assert_each};
use super::values::{is, joined};
use byte_ends::Ends;
use report_text::{WriteStateFault, write_state};
use review_ops::Op;
use state_core::State;
use std::alloc::{Allocator, Global};

/// What happens to a change, with the times 1, 2 and 3.
const DEEDS: [Deed; 3] = [Deed::PatchSet(1), Deed::Vote(1, 1), Deed::Abandon];

/// The deed after the first `count`, as an operation.
fn next_op<A: Allocator + Copy>(alloc: A, count: usize) -> Option<Op<A>> {
    let time = u64::try_from(count).ok()?.checked_add(1)?;
    op_of(alloc, time, *DEEDS.get(count)?)
}

/// Whether memory sufficed for the state to take the deed after the first `count`.
fn take<A: Allocator + Copy>(alloc: A, state: &mut State<A>, count: usize) -> bool {
    next_op(alloc, count).is_some_and(|op| state.take(&op).is_ok())
}

/// The state after the first `count` deeds.
fn state_of<A: Allocator + Copy>(alloc: A, count: usize) -> Option<State<A>> {
    let mut state = State::new(alloc);
    let mut is_taken = true;
    for place in 0..count {
        is_taken = is_taken && take(alloc, &mut state, place);
    }
    if is_taken { Some(state) } else { None }
}

/// Whether the state is that after the first `count` deeds.
fn is_after<A: Allocator + Copy>(alloc: A, state: &State<A>, count: usize) -> bool {
    is(state, state_of(alloc, count))
}

/// A deed that a state takes after those before it.
#[derive(Clone, Copy)]
struct Takes(usize);

impl Call for Takes {
    fn seen(self, memory: &Memory, granted: u32) -> Option<Seen> {
        let op = next_op(memory, self.0)?;
        let state = state_of(memory, self.0)?;
        Some(taken(memory, state, &op, self.0, granted))
    }
}

/// What is seen where the state after the first `count` deeds takes the next one.
fn taken<'a>(
    memory: &'a Memory,
    mut state: State<&'a Memory>,
    op: &Op<&'a Memory>,
    count: usize,
    granted: u32,
) -> Seen {
    let after = count.saturating_add(1);
    memory.refuse_after(granted);
    let failed = state.take(op).is_err();
    let refused = memory.grant_all();
    let stated = is_after(memory, &state, if failed { count } else { after });
    let is_taken = state.take(op).is_ok();
    Seen {
        failed,
        refused,
        stated,
        whole: is_taken && is_after(memory, &state, after),
    }
}

/// The join of two states.
#[derive(Clone, Copy)]
struct Joins;

impl Call for Joins {
    fn seen(self, memory: &Memory, granted: u32) -> Option<Seen> {
        let (state, other) = (state_of(memory, 1), state_of(memory, 3));
        joined(memory, state, other, state_of(memory, 3), granted)
    }
}

/// The text of the state after all deeds.
const TEXT: &[u8] =
    b"change 101 ABANDONED\nlife 101 abandoned 3,1,1,3\nset 101,1 1,1,1,1 \"Add x\\n\" parent 7\n\
    vote 101,1 workflow ann 1 2,1,1,2\nend 1\n";

/// The text of a state.
#[derive(Clone, Copy)]
struct Texts;

impl Call for Texts {
    fn seen(self, memory: &Memory, granted: u32) -> Option<Seen> {
        let state = state_of(memory, 3)?;
        Some(written(memory, &state, granted))
    }
}

/// The fault of a writing of the state, and whether what was written is this.
fn write(alloc: Global, state: &State<&Memory>, wanted: &[u8]) -> (Option<WriteStateFault>, bool) {
    let mut written = Ends::new(Vec::new(alloc));
    let fault = write_state(state, &mut written).err();
    (fault, written.get_ref().as_slice() == wanted)
}

/// What is seen of a writing of the state: where memory was refused nothing is written.
fn written<'a>(memory: &'a Memory, state: &State<&'a Memory>, granted: u32) -> Seen {
    let alloc = *memory.inner();
    memory.refuse_after(granted);
    let (fault, is_whole) = write(alloc, state, TEXT);
    let refused = memory.grant_all();
    memory.refuse_after(granted);
    let (_, is_nothing) = write(alloc, state, b"");
    memory.grant_all();
    Seen {
        failed: fault == Some(WriteStateFault::NoMemory),
        refused,
        stated: is_nothing == refused && is_whole != refused,
        whole: write(alloc, state, TEXT) == (None, true),
    }
}

#[test]
fn a_refused_take_changes_nothing(rt: HostRuntime) {
    assert_each(&rt, rt.alloc(), Takes(0), 2);
    assert_each(&rt, rt.alloc(), Takes(1), 3);
    assert_each(&rt, rt.alloc(), Takes(2), 0);
}

#[test]
fn a_refused_join_lies_between(rt: HostRuntime) {
    assert_each(&rt, rt.alloc(), Joins, 1);
}

#[test]
fn a_refused_text_writes_nothing(rt: HostRuntime) {
    assert_each(&rt, rt.alloc(), Texts, 1);
}
