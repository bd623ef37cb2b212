//! The state of a change.

use super::operations::{Deed, op_of};
use super::turns::{Call, Memory, Seen, assert_each, assert_none};
use super::values::{copied, is, joined};
use change_core::ChangeState;
use review_ops::Op;
use std::alloc::Allocator;

type State<'a> = ChangeState<&'a Memory>;

/// Whether memory sufficed for the state to take a deed with this time.
fn take<A: Allocator + Copy>(alloc: A, state: &mut ChangeState<A>, time: u64, deed: Deed) -> bool {
    op_of(alloc, time, deed).is_some_and(|op| state.take(&op).is_ok())
}

/// The state of the patch sets from `from` up to `end`.
fn known<A: Allocator + Copy>(alloc: A, from: u32, end: u32) -> Option<ChangeState<A>> {
    let mut state = ChangeState::new(alloc);
    let mut is_taken = true;
    for set in from..end {
        is_taken = is_taken && take(alloc, &mut state, 1, Deed::PatchSet(set));
    }
    if is_taken { Some(state) } else { None }
}

/// The state of three patch sets, and of a deed.
fn with<A: Allocator + Copy>(alloc: A, deed: Deed) -> Option<ChangeState<A>> {
    let mut state = known(alloc, 1, 4)?;
    let is_taken = take(alloc, &mut state, 2, deed);
    if is_taken { Some(state) } else { None }
}

/// A deed that a state takes.
#[derive(Clone, Copy)]
struct Takes(Deed);

impl Call for Takes {
    fn seen(self, memory: &Memory, granted: u32) -> Option<Seen> {
        let op = op_of(memory, 2, self.0)?;
        let state = known(memory, 1, 4)?;
        Some(taken(memory, state, &op, self.0, granted))
    }
}

/// What is seen where the state takes the operation of a deed.
fn taken<'a>(
    memory: &'a Memory,
    mut state: State<'a>,
    op: &Op<&'a Memory>,
    deed: Deed,
    granted: u32,
) -> Seen {
    memory.refuse_after(granted);
    let failed = state.take(op).is_err();
    let refused = memory.grant_all();
    let stated = is(
        &state,
        if failed {
            known(memory, 1, 4)
        } else {
            with(memory, deed)
        },
    );
    let is_taken = state.take(op).is_ok();
    Seen {
        failed,
        refused,
        stated,
        whole: is_taken && is(&state, with(memory, deed)),
    }
}

/// The effect of a patch set.
#[derive(Clone, Copy)]
struct Effects;

impl Call for Effects {
    fn seen(self, memory: &Memory, granted: u32) -> Option<Seen> {
        let op = op_of(memory, 1, Deed::PatchSet(7))?;
        Some(effected(memory, &op, granted))
    }
}

/// Whether a state is that of patch set 7.
fn is_effect<A: Allocator + Copy>(alloc: A, effect: Option<ChangeState<A>>) -> bool {
    effect.is_some_and(|effect| is(&effect, known(alloc, 7, 8)))
}

/// What is seen of the effect of the operation.
fn effected<'a>(memory: &'a Memory, op: &Op<&'a Memory>, granted: u32) -> Seen {
    memory.refuse_after(granted);
    let effect = ChangeState::effect(memory, op).ok();
    let refused = memory.grant_all();
    let failed = effect.is_none();
    Seen {
        failed,
        refused,
        stated: failed || is_effect(memory, effect),
        whole: is_effect(memory, ChangeState::effect(memory, op).ok()),
    }
}

/// The join of two states.
#[derive(Clone, Copy)]
struct Joins;

impl Call for Joins {
    fn seen(self, memory: &Memory, granted: u32) -> Option<Seen> {
        let (state, other) = (known(memory, 1, 5), known(memory, 3, 25));
        joined(memory, state, other, known(memory, 1, 25), granted)
    }
}

/// A copy of a state.
#[derive(Clone, Copy)]
struct Copies;

impl Call for Copies {
    fn seen(self, memory: &Memory, granted: u32) -> Option<Seen> {
        let vote = Deed::Vote(3, 1);
        copied(memory, with(memory, vote), with(memory, vote), granted)
    }
}

/// A commit that a later one of its patch set wins over.
#[derive(Clone, Copy)]
struct Loses;

impl Call for Loses {
    fn seen(self, memory: &Memory, granted: u32) -> Option<Seen> {
        let op = op_of(memory, 1, Deed::PatchSet(1))?;
        let state = with(memory, Deed::PatchSet(1))?;
        Some(lost(memory, state, &op, granted))
    }
}

/// What is seen where the state takes a commit that loses.
fn lost<'a>(memory: &'a Memory, mut state: State<'a>, op: &Op<&'a Memory>, granted: u32) -> Seen {
    memory.refuse_after(granted);
    let failed = state.take(op).is_err();
    let refused = memory.grant_all();
    let stated = is(&state, with(memory, Deed::PatchSet(1)));
    Seen {
        failed,
        refused,
        stated,
        whole: stated,
    }
}

#[test]
fn a_commit_that_loses_takes_no_memory(rt: HostRuntime) {
    assert_none(&rt, rt.alloc(), Loses);
}

#[test]
fn a_refused_take_changes_nothing(rt: HostRuntime) {
    assert_each(&rt, rt.alloc(), Takes(Deed::PatchSet(4)), 1);
    assert_each(&rt, rt.alloc(), Takes(Deed::Vote(3, 1)), 3);
    assert_each(&rt, rt.alloc(), Takes(Deed::Abandon), 0);
}

#[test]
fn a_refused_join_lies_between(rt: HostRuntime) {
    assert_each(&rt, rt.alloc(), Joins, 2);
}

#[test]
fn effects_and_copies_are_whole_or_refused(rt: HostRuntime) {
    assert_each(&rt, rt.alloc(), Effects, 1);
    assert_each(&rt, rt.alloc(), Copies, 4);
}
