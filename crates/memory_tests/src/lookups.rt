//! Look-ups in a record.

use super::operations::{Deed, draft_of, op_of};
use super::turns::{Call, Memory, Seen, assert_each};
use event_filter::is_recorded;
use review_ops::Body;
use state_core::State;
use std::alloc::Allocator;

/// The state of a vote.
fn voted<A: Allocator + Copy>(alloc: A) -> Option<State<A>> {
    let mut state = State::new(alloc);
    state.take(&op_of(alloc, 1, Deed::Vote(1, 1))?).ok()?;
    Some(state)
}

/// The body of a vote.
fn body_of<A: Allocator + Copy>(alloc: A, value: i8) -> Option<Body<A>> {
    Body::checked(draft_of(alloc, Deed::Vote(1, value))?).ok()
}

/// A vote that is looked for in a record.
#[derive(Clone, Copy)]
struct LooksFor(i8);

impl Call for LooksFor {
    fn seen(self, memory: &Memory, granted: u32) -> Option<Seen> {
        let body = body_of(memory, self.0)?;
        let state = voted(memory)?;
        Some(looked_for(memory, &state, &body, self.0 == 1, granted))
    }
}

/// What is seen where a vote is looked for that the record has, or hasn't.
fn looked_for<'a>(
    memory: &'a Memory,
    state: &State<&'a Memory>,
    body: &Body<&'a Memory>,
    wanted: bool,
    granted: u32,
) -> Seen {
    memory.refuse_after(granted);
    let found = is_recorded(state, body).ok();
    let refused = memory.grant_all();
    Seen {
        failed: found.is_none(),
        refused,
        stated: found != Some(!wanted),
        whole: is_recorded(state, body).ok() == Some(wanted),
    }
}

#[test]
fn what_is_recorded_is_found_or_refused(rt: HostRuntime) {
    assert_each(&rt, rt.alloc(), LooksFor(1), 1);
    assert_each(&rt, rt.alloc(), LooksFor(-1), 1);
}
