//! Changes worked out by hand, each public function once.

use super::asserts::assert_found;
use change_core::{ChangeState, Life, Status, operations_add_up};
use chunk_list::Entries;
use deeds::{Deed, op_of};
use lattice_core::Join;
use review_ops::{Op, Stamp};
use std::alloc::Global;

/// What is stamped on change 101 with a time, which is its sequence number too, by site 1 under start 1. The second
/// number is the patch set.
#[derive(Clone, Copy)]
enum Step {
    PatchSet(u64, u32, Option<u32>),
    Vote(u64, u32, &'static str, &'static str, i8),
    Withdraw(u64, u32),
    Abandon(u64),
    Restore(u64),
    Merged(u64),
}

/// When a step is stamped, and what it does.
fn deed_of(step: Step) -> (u64, Deed) {
    match step {
        Step::PatchSet(time, set, parent) => (time, Deed::PatchSet(set, "Add x\n", parent)),
        Step::Vote(time, set, label, voter, value) => (time, Deed::Vote(set, label, voter, value)),
        Step::Withdraw(time, set) => (time, Deed::Withdraw(set, "Workflow", "ann")),
        Step::Abandon(time) => (time, Deed::Abandon),
        Step::Restore(time) => (time, Deed::Restore),
        Step::Merged(time) => (time, Deed::Merged),
    }
}

/// The operation of a step, where memory suffices for it.
fn step_op(alloc: Global, step: Step) -> Option<Op> {
    let (time, deed) = deed_of(step);
    op_of(alloc, time, 101, deed)
}

/// The effect of an operation, where memory suffices for it.
fn effect_of(alloc: Global, op: &Op) -> Option<ChangeState> {
    ChangeState::effect(alloc, op).ok()
}

/// The effect, joined with a state, where memory suffices for it.
fn joined(mut effect: ChangeState, state: &ChangeState) -> Option<ChangeState> {
    let is_joined = match state.copy() {
        Ok(copy) => effect.join(copy).is_ok(),
        Err(_) => false,
    };
    if is_joined { Some(effect) } else { None }
}

/// Whether the states are the same.
fn are_same(joined: &ChangeState, state: &ChangeState) -> bool {
    joined.same(state) && joined.covers(state)
}

/// Takes an operation: whether its effect, joined with what was taken before, is the same state.
fn takes(alloc: Global, state: &mut ChangeState, op: &Op) -> bool {
    let joined = effect_of(alloc, op).and_then(|effect| joined(effect, state));
    let is_taken = state.take(op).is_ok();
    match joined {
        Some(joined) => is_taken && are_same(&joined, state),
        None => false,
    }
}

/// Takes the operation of a step: whether it is taken as it is to be.
fn takes_step(alloc: Global, state: &mut ChangeState, step: Step) -> bool {
    match step_op(alloc, step) {
        Some(op) => takes(alloc, state, &op),
        None => false,
    }
}

/// The state of the operations, which are taken in their order, where each is taken as it is to be.
fn state_of(alloc: Global, steps: &[Step]) -> Option<ChangeState> {
    let mut state = ChangeState::new(alloc);
    let mut are_taken = true;
    for step in steps {
        are_taken = takes_step(alloc, &mut state, *step) && are_taken;
    }
    if are_taken { Some(state) } else { None }
}

/// An approval: its label, its voter and its value.
type Row = (&'static str, &'static str, i8);

/// Whether the approvals of a patch set in a state are these, in order.
fn has_approvals(state: &ChangeState, set: u32, rows: &[Row]) -> bool {
    state
        .approvals(set)
        .map(|approval| (approval.label, approval.voter, approval.value))
        .eq(rows.iter().copied())
}

/// Whether a state has just this vote on the first patch set, stamped with the time.
fn has_vote(state: &ChangeState, row: Row, time: u64) -> bool {
    let mut votes = state.votes(1);
    match votes.next() {
        Some(vote) => {
            (vote.label, vote.voter, vote.value) == row
                && Some(vote.stamp) == Stamp::new(time, 1, 1, time)
                && votes.next().is_none()
        }
        None => false,
    }
}

/// Whether a patch set in the state of the operations has these approvals, where memory suffices for the state.
fn approved(alloc: Global, steps: &[Step], set: u32, rows: &[Row]) -> Option<bool> {
    Some(has_approvals(&state_of(alloc, steps)?, set, rows))
}

/// Whether the first patch set in the state of the operations has just this vote, where memory suffices for the state.
fn voted(alloc: Global, steps: &[Step], row: Row, time: u64) -> Option<bool> {
    Some(has_vote(&state_of(alloc, steps)?, row, time))
}

/// A withdrawn vote, a newer one, and one that is older than both.
const NEWEST: &[Step] = &[
    Step::Withdraw(4, 1),
    Step::Vote(5, 1, "Workflow", "ann", 1),
    Step::Vote(3, 1, "Workflow", "ann", 2),
];

#[test]
fn the_newest_vote_counts(rt: HostRuntime) {
    let row = ("workflow", "ann", 1);
    assert_found(&rt, approved(rt.alloc(), NEWEST, 1, &[row]), Some(true));
    assert_found(&rt, voted(rt.alloc(), NEWEST, row, 5), Some(true));
}

/// Which of the patch sets 1 and 2 are known, whether the first has its message and the second none, and which is
/// current.
fn first_known(state: ChangeState) -> ([bool; 4], Option<u32>) {
    let known = [
        state.has_set(1),
        state.has_set(2),
        state.message(1) == Some("Add x\n"),
        state.message(2).is_none(),
    ];
    (known, state.current())
}

#[test]
fn one_patch_set_is_known(rt: HostRuntime) {
    let state = step_op(rt.alloc(), Step::PatchSet(1, 1, None)).and_then(|op| effect_of(
        rt.alloc(),
        &op,
    ));
    let wanted = ([true, false, true, true], Some(1));
    assert_found(&rt, state.map(first_known), Some(wanted));
}

/// How many pairs of a map are left.
pub(super) fn counted<K, V>(left: Entries<'_, K, V>) -> usize {
    let mut count = 0usize;
    for _pair in left {
        count = count.wrapping_add(1);
    }
    count
}

/// What a state says of its patch sets: the current one, how many are known, and the parents of the second, third and
/// fourth.
#[derive(Clone, Copy, Debug, PartialEq)]
struct Sets {
    current: Option<u32>,
    known: usize,
    parents: (Option<u32>, Option<u32>, Option<u32>),
}

/// What a state says of its patch sets.
fn sets_in(state: ChangeState) -> Sets {
    Sets {
        current: state.current(),
        known: counted(state.sets().iter()),
        parents: (state.parent(2), state.parent(3), state.parent(4)),
    }
}

/// Two votes of one voter at one stamp.
const TIE: &[Step] = &[
    Step::Vote(3, 1, "Workflow", "ann", 2),
    Step::Vote(3, 1, "Workflow", "ann", -1),
];

#[test]
fn the_greater_of_two_votes_at_one_stamp_counts(rt: HostRuntime) {
    let row = ("workflow", "ann", 2);
    assert_found(&rt, voted(rt.alloc(), TIE, row, 3), Some(true));
    let current = state_of(rt.alloc(), TIE).map(|state| state.current());
    assert_found(&rt, current, Some(None));
}

/// A vote, and another of 0 at a later stamp.
const ZERO: &[Step] = &[
    Step::Vote(5, 1, "Workflow", "ann", 1),
    Step::Vote(6, 1, "Workflow", "ann", 0),
];

#[test]
fn a_vote_of_0_is_no_approval(rt: HostRuntime) {
    let row = ("workflow", "ann", 0);
    assert_found(&rt, approved(rt.alloc(), ZERO, 1, &[]), Some(true));
    assert_found(&rt, voted(rt.alloc(), ZERO, row, 6), Some(true));
}

/// The same vote, withdrawn at the later stamp.
const WITHDRAWN: &[Step] = &[Step::Vote(5, 1, "Workflow", "ann", 1), Step::Withdraw(6, 1)];

/// Whether the states of these operations are the same, where memory suffices for them.
fn have_one_state(alloc: Global, steps: &[Step], others: &[Step]) -> Option<bool> {
    let state = state_of(alloc, steps)?;
    Some(are_same(&state, &state_of(alloc, others)?))
}

#[test]
fn a_vote_of_0_is_a_withdrawn_one(rt: HostRuntime) {
    assert_found(&rt, have_one_state(rt.alloc(), ZERO, WITHDRAWN), Some(true));
}

/// Votes on one patch set, and then another patch set.
const TWO_SETS: &[Step] = &[
    Step::Vote(2, 1, "Workflow", "ann", 1),
    Step::Vote(3, 1, "Verified", "zuul", 1),
    Step::Vote(4, 1, "Verified", "bob", -1),
    Step::PatchSet(5, 3, Some(7)),
];

/// The approvals of the first of them.
const ALL_THREE: &[Row] = &[
    ("verified", "bob", -1),
    ("verified", "zuul", 1),
    ("workflow", "ann", 1),
];

#[test]
fn votes_stay_with_their_patch_set(rt: HostRuntime) {
    assert_found(&rt, approved(rt.alloc(), TWO_SETS, 3, &[]), Some(true));
    assert_found(
        &rt,
        approved(rt.alloc(), TWO_SETS, 1, ALL_THREE),
        Some(true),
    );
}

/// Votes on two patch sets side by side, and on the last that there could be.
const NEIGHBOURS: &[Step] = &[
    Step::Vote(3, 1, "Workflow", "zuul", 1),
    Step::Vote(4, 2, "-", "!", 2),
    Step::Vote(5, u32::MAX, "Workflow", "ann", -1),
];

#[test]
fn votes_on_neighbours_stay_apart(rt: HostRuntime) {
    for (set, row) in [
        (1, ("workflow", "zuul", 1)),
        (2, ("-", "!", 2)),
        (u32::MAX, ("workflow", "ann", -1)),
    ] {
        assert_found(
            &rt,
            approved(rt.alloc(), NEIGHBOURS, set, &[row]),
            Some(true),
        );
    }
}

/// A patch set, and a later one with a lower number.
const SETS: &[Step] = &[Step::PatchSet(5, 3, Some(7)), Step::PatchSet(6, 2, None)];

#[test]
fn the_greatest_known_patch_set_is_current(rt: HostRuntime) {
    let wanted = Sets {
        current: Some(3),
        known: 2,
        parents: (None, Some(7), None),
    };
    assert_found(&rt, state_of(rt.alloc(), SETS).map(sets_in), Some(wanted));
}

/// Votes on two patch sets, of which the greater comes first.
const VOTED: &[Step] = &[
    Step::Withdraw(7, 12),
    Step::Vote(8, 2, "Workflow", "ann", 1),
    Step::Vote(9, 2, "Workflow", "bob", 1),
];

/// The first three patch sets with votes in the order in which they come, and how many votes there are.
fn voted_in(state: ChangeState) -> ([Option<u32>; 3], usize) {
    let mut voted = state.voted();
    let sets = [voted.next(), voted.next(), voted.next()];
    (sets, counted(state.all_votes().iter()))
}

#[test]
fn voted_patch_sets_come_once_in_order(rt: HostRuntime) {
    let found = state_of(rt.alloc(), VOTED).map(voted_in);
    assert_found(&rt, found, Some(([Some(2), Some(12), None], 3)));
}

/// What a state says of the change's life: its status, whether it is open, and the newest abandon or restore.
type Lived = (Status, bool, Option<(Stamp, Life)>);

/// What the state of the operations says of the change's life, where memory suffices for it.
fn lived(alloc: Global, steps: &[Step]) -> Option<Lived> {
    let state = state_of(alloc, steps)?;
    Some((state.status(), state.is_open(), state.life()))
}

/// What is said of a change whose newest abandon or restore has this time.
fn life_at(status: Status, time: u64, life: Life) -> Option<Lived> {
    let stamp = Stamp::new(time, 1, 1, time)?;
    Some((status, status == Status::New, Some((stamp, life))))
}

#[test]
fn an_abandoned_change_says_so(rt: HostRuntime) {
    let lived = lived(rt.alloc(), &[Step::Abandon(1)]);
    assert_found(&rt, lived, life_at(Status::Abandoned, 1, Life::Abandoned));
    assert_found(&rt, Status::Abandoned.name(), "ABANDONED");
}

#[test]
fn a_restored_change_is_open(rt: HostRuntime) {
    let lived = lived(rt.alloc(), &[Step::Abandon(1), Step::Restore(2)]);
    assert_found(&rt, lived, life_at(Status::New, 2, Life::Restored));
}

/// A change that is abandoned, restored and merged, and then restored again.
const MERGED: &[Step] = &[
    Step::Abandon(1),
    Step::Restore(2),
    Step::Merged(3),
    Step::Restore(4),
];

#[test]
fn merged_is_final(rt: HostRuntime) {
    assert_found(
        &rt,
        lived(rt.alloc(), MERGED),
        life_at(Status::Merged, 4, Life::Restored),
    );
}
