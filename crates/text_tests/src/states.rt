//! State texts worked out by hand, and what is written where the writer fails.

use super::asserts::assert_found;
use super::found::assert_bytes;
use byte_ends::{Broken, Ends};
use deeds::{Deed, op_of};
use report_text::{WriteStateFault, write_state};
use state_core::State;
use std::alloc::Global;

/// What a site stamps on change 101 with a time, which is its sequence number too, as site 1 under start 1.
#[derive(Clone, Copy)]
enum Step {
    PatchSet(u64, &'static str, Option<u32>),
    Vote(u64, i8),
    Withdraw(u64),
    Merged(u64),
    Abandon(u64),
    Restore(u64),
}

/// When a step is stamped, and what it does.
fn deed_of(step: Step) -> (u64, Deed) {
    match step {
        Step::PatchSet(time, message, parent) => (time, Deed::PatchSet(1, message, parent)),
        Step::Vote(time, value) => (time, Deed::Vote(1, "Workflow", "ann", value)),
        Step::Withdraw(time) => (time, Deed::Withdraw(1, "workflow", "ann")),
        Step::Merged(time) => (time, Deed::Merged),
        Step::Abandon(time) => (time, Deed::Abandon),
        Step::Restore(time) => (time, Deed::Restore),
    }
}

/// Takes the operation of a step.
fn take_step(alloc: Global, state: &mut State, step: Step) -> Option<()> {
    let (time, deed) = deed_of(step);
    let op = op_of(alloc, time, 101, deed)?;
    state.take(&op).ok()
}

/// The state of the operations in their order.
fn forth(alloc: Global, steps: &[Step]) -> Option<State> {
    let mut state = State::new(alloc);
    for step in steps {
        take_step(alloc, &mut state, *step)?;
    }
    Some(state)
}

/// The state of the operations in the other order.
fn back(alloc: Global, steps: &[Step]) -> Option<State> {
    let mut state = State::new(alloc);
    for step in steps.iter().rev() {
        take_step(alloc, &mut state, *step)?;
    }
    Some(state)
}

/// The text of a state.
fn text_of(alloc: Global, state: Option<State>) -> Option<Vec<u8>> {
    let mut written = Ends::new(Vec::new(alloc));
    write_state(&state?, &mut written).ok()?;
    Some(written.into_inner())
}

/// Operations with the state text that they give in any order.
const ARRIVALS: &[(&[Step], &str)] = &[
    (
        &[
            Step::PatchSet(1, "m", None),
            Step::Vote(3, 1),
            Step::Vote(3, 2),
        ],
        "change 101 NEW\nset 101,1 1,1,1,1 \"m\"\nvote 101,1 workflow ann 2 3,1,1,3\nend 1\n",
    ),
    (
        &[Step::Withdraw(4), Step::Vote(5, 1)],
        "change 101 NEW\nvote 101,1 workflow ann 1 5,1,1,5\nend 1\n",
    ),
    (
        &[Step::Vote(6, 0), Step::Withdraw(6)],
        "change 101 NEW\nvote 101,1 workflow ann 0 6,1,1,6\nend 1\n",
    ),
    (
        &[
            Step::PatchSet(1, "m", None),
            Step::Merged(2),
            Step::Abandon(3),
            Step::Restore(4),
        ],
        "change 101 MERGED\nlife 101 restored 4,1,1,4\nset 101,1 1,1,1,1 \"m\"\nend 1\n",
    ),
    (
        &[
            Step::PatchSet(1, "m", None),
            Step::PatchSet(1, "m", Some(1)),
        ],
        "change 101 NEW\nset 101,1 1,1,1,1 \"m\" parent 1\nend 1\n",
    ),
    (
        &[
            Step::PatchSet(1, "m", Some(1)),
            Step::PatchSet(1, "m", None),
            Step::PatchSet(1, "n\n\"\\\t\u{1}", None),
        ],
        "change 101 NEW\nset 101,1 1,1,1,1 \"n\\n\\\"\\\\\\t\\u0001\"\nend 1\n",
    ),
];

#[test]
fn states_in_any_order_of_arrival(rt: HostRuntime) {
    let alloc = rt.alloc();
    for (steps, wanted) in ARRIVALS {
        assert_bytes(&rt, text_of(alloc, forth(alloc, steps)), wanted.as_bytes());
        assert_bytes(&rt, text_of(alloc, back(alloc, steps)), wanted.as_bytes());
    }
}

/// A writer that fails once, and what it takes after that.
type Failing = Broken<Ends<Vec<u8>>>;

/// How two writes of a state end, and what the writer has then.
fn written_twice(
    state: &State,
    mut failing: Failing,
) -> (
    Result<(), WriteStateFault>,
    Result<(), WriteStateFault>,
    Vec<u8>,
) {
    let first = write_state(state, &mut failing);
    let second = write_state(state, &mut failing);
    (first, second, failing.into_inner().into_inner())
}

// The first write fails, and the second doesn't.
#[test]
fn a_failing_writer(rt: HostRuntime) {
    let failing = Broken::at_call(Ends::new(Vec::new(rt.alloc())), 1);
    let (first, second, taken) = written_twice(&State::new(rt.alloc()), failing);
    let fault = Err(WriteStateFault::WriteFault);
    let wanted = (fault, Ok(()), b"end 0\n".as_slice());
    assert_found(&rt, (first, second, taken.as_slice()), wanted);
}
