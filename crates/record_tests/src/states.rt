//! States worked out by hand.

use super::asserts::assert_found;
use deeds::{Deed, op_of};
use lattice_core::Join;
use state_core::{Item, State, a_journal_has_one_state, equal_journals_have_equal_states};
use std::alloc::Global;

/// What a test lacks where memory is refused that it counts on.
const MEMORY: &str = "memory";

/// What is done to a change.
type Step = (u32, Deed);

/// A first patch set.
const FIRST: Deed = Deed::PatchSet(1, "m", None);

/// How many changes the state has something of.
fn count(state: &State) -> usize {
    state.changes().len()
}

/// Takes the operation of a step, where memory suffices for it.
fn take(alloc: Global, state: &mut State, time: u64, step: Step) -> Option<()> {
    let (change, deed) = step;
    let op = op_of(alloc, time, change, deed)?;
    state.take(&op).ok()
}

/// The state of steps, one after the other, where memory suffices for it.
fn state_of(alloc: Global, steps: &[Step]) -> Option<State> {
    let mut state = State::new(alloc);
    for (time, step) in (1u64..).zip(steps) {
        take(alloc, &mut state, time, *step)?;
    }
    Some(state)
}

/// Change 5 is merged, known to no one; 6 is known and abandoned; nothing is known of 7.
const STEPS: [Step; 3] = [(5, Deed::Merged), (6, FIRST), (6, Deed::Abandon)];

/// Whether a change is known, and whether it is merged.
fn standing(state: &State, number: u32) -> (bool, bool) {
    (state.is_known(number), state.is_merged(number))
}

/// How the changes 5 to 7 stand, how many changes the state has something of, and whether it has nothing of 7.
fn standings(state: State) -> ([(bool, bool); 3], usize, bool) {
    let changes = [
        standing(&state, 5),
        standing(&state, 6),
        standing(&state, 7),
    ];
    (changes, count(&state), state.change(7).is_none())
}

#[test]
fn known_and_merged_changes(rt: HostRuntime) {
    let state = state_of(rt.alloc(), &STEPS).expect(&rt, MEMORY);
    let changes = [(false, true), (true, false), (false, false)];
    assert_found(&rt, standings(state), (changes, 2, true));
}

/// Whether the state of the first step covers less than the state of all.
fn is_covered(part: &State, whole: &State) -> bool {
    whole.covers(part) && !part.covers(whole)
}

/// Whether the join of a state and a copy of another one is the same as that.
fn is_joined(mut joined: State, whole: &State) -> Option<bool> {
    joined.join(whole.copy().ok()?).ok()?;
    Some(joined.same(whole))
}

#[test]
fn states_join_change_by_change(rt: HostRuntime) {
    let whole = state_of(rt.alloc(), &STEPS).expect(&rt, MEMORY);
    let first = state_of(rt.alloc(), &STEPS[..1]).expect(&rt, MEMORY);
    assert_found(&rt, is_covered(&first, &whole), true);
    assert_found(&rt, is_joined(first, &whole), Some(true));
}

#[test]
fn items_compare_by_their_numbers(rt: HostRuntime) {
    let item = Item { change: 5, set: 1 };
    assert_found(&rt, item, Item { change: 5, set: 1 });
    assert_found(&rt, item == Item { change: 5, set: 2 }, false);
    a_journal_has_one_state();
    equal_journals_have_equal_states();
}
