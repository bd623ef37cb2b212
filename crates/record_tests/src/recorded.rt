//! What a record says, worked out by hand.

use super::asserts::assert_found;
use deeds::{Deed, draft_of, op_of};
use event_filter::{is_recorded, what_is_recorded_changes_no_view, what_is_taken_in_is_recorded};
use review_ops::Body;
use state_core::State;
use std::alloc::Global;
use std::process::Abort;

/// Takes the operation of a deed, where memory suffices for it.
fn take(alloc: Global, state: &mut State, time: u64, deed: Deed) -> Option<()> {
    let op = op_of(alloc, time, 7, deed)?;
    state.take(&op).ok()
}

/// The state of deeds, one after the other.
fn state_of(alloc: Global, deeds: &[Deed]) -> Option<State> {
    let mut state = State::new(alloc);
    for (time, deed) in (1u64..).zip(deeds) {
        take(alloc, &mut state, time, *deed)?;
    }
    Some(state)
}

/// Whether a record of these deeds says another already, where memory suffices to hold both and to look for it.
fn says(alloc: Global, record: &[Deed], deed: Deed) -> Option<bool> {
    let state = state_of(alloc, record)?;
    let body = Body::checked(draft_of(alloc, 7, deed)?).ok()?;
    is_recorded(&state, &body).ok()
}

/// A record, a deed, and whether the record says it already.
type Case = (&'static [Deed], Deed, bool);

/// The record of a case says its deed just where it is to say it.
fn assert_case(rt: &impl Abort, alloc: Global, number: u64, case: Case) {
    let (record, deed, wanted) = case;
    let said = says(alloc, record, deed);
    assert_found(rt, (number, said), (number, Some(wanted)));
}

/// Records say those of the deeds that they are to say, and no others.
fn assert_said(rt: &impl Abort, alloc: Global, cases: &[Case]) {
    for (number, case) in (1u64..).zip(cases) {
        assert_case(rt, alloc, number, *case);
    }
}

const FIRST: Deed = Deed::PatchSet(1, "m", Some(5));

/// Patch sets with other numbers, messages and parents.
const PATCH_SETS: [Case; 7] = [
    (&[], FIRST, false),
    (&[FIRST], FIRST, true),
    (&[FIRST], Deed::PatchSet(1, "n", Some(5)), false),
    (&[FIRST], Deed::PatchSet(1, "m", Some(6)), false),
    (&[FIRST], Deed::PatchSet(1, "m", None), false),
    (&[FIRST], Deed::PatchSet(2, "m", Some(5)), false),
    (&[Deed::PatchSet(1, "n", None), FIRST], FIRST, true),
];

#[test]
fn a_patch_set_is_recorded_with_its_message_and_parent(rt: HostRuntime) {
    assert_said(&rt, rt.alloc(), &PATCH_SETS);
}

const APPROVED: Deed = Deed::Vote(1, "verified", "zuul", 1);

const WITHDRAWN: Deed = Deed::Withdraw(1, "verified", "zuul");

/// Votes with other values, on other patch sets and of other voters.
const VOTES: [Case; 8] = [
    (&[], APPROVED, false),
    (&[APPROVED], APPROVED, true),
    (&[APPROVED], Deed::Vote(1, "verified", "zuul", 2), false),
    (&[APPROVED], Deed::Vote(1, "verified", "anna", 1), false),
    (&[APPROVED], Deed::Vote(2, "verified", "zuul", 1), false),
    (&[APPROVED, WITHDRAWN], APPROVED, false),
    (&[APPROVED], WITHDRAWN, false),
    (&[APPROVED], Deed::Vote(1, "verified", "zuul", 0), false),
];

#[test]
fn a_vote_is_recorded_with_its_value(rt: HostRuntime) {
    assert_said(&rt, rt.alloc(), &VOTES);
}

/// Withdrawals and votes of 0, where there is no vote of that voter.
const WITHDRAWALS: [Case; 7] = [
    (&[], WITHDRAWN, true),
    (&[], Deed::Vote(1, "verified", "zuul", 0), true),
    (&[FIRST], WITHDRAWN, true),
    (&[APPROVED], Deed::Withdraw(1, "verified", "anna"), true),
    (&[APPROVED, WITHDRAWN], WITHDRAWN, true),
    (
        &[APPROVED, WITHDRAWN],
        Deed::Vote(1, "verified", "zuul", 0),
        true,
    ),
    (
        &[APPROVED, Deed::Vote(1, "verified", "zuul", 0)],
        WITHDRAWN,
        true,
    ),
];

#[test]
fn a_withdrawn_vote_is_none(rt: HostRuntime) {
    assert_said(&rt, rt.alloc(), &WITHDRAWALS);
}

/// What changes the status of a change, and what doesn't.
const STATUSES: [Case; 10] = [
    (&[], Deed::Restore, true),
    (&[], Deed::Abandon, false),
    (&[], Deed::Merged, false),
    (&[FIRST], Deed::Abandon, false),
    (&[Deed::Abandon], Deed::Abandon, true),
    (&[Deed::Abandon], Deed::Restore, false),
    (&[Deed::Abandon, Deed::Restore], Deed::Restore, true),
    (&[Deed::Merged], Deed::Merged, true),
    (&[Deed::Merged], Deed::Restore, false),
    (&[Deed::Merged], Deed::Abandon, false),
];

#[test]
fn a_status_is_recorded(rt: HostRuntime) {
    assert_said(&rt, rt.alloc(), &STATUSES);
}

#[test]
fn laws_are_called() {
    what_is_recorded_changes_no_view();
    what_is_taken_in_is_recorded();
}
