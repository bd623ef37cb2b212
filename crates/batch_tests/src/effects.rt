//! Effects of many operations that are joined by several threads, beside the same joined one after the other.

use super::asserts::assert_found;
use deeds::{Deed, op_of};
use lattice_core::Join;
use line_batches::{OneByOne, SideBySide};
use replica_core::{EffectJoiner, Gathering, Replica};
use state_core::State;
use std::alloc::Global;

/// How many operations are more than enough for threads.
const MANY: u64 = 16_500;

/// What is done again and again, each time on the next change.
const DEEDS: [Deed; 7] = [
    Deed::PatchSet(1, "m", None),
    Deed::Vote(1, "Workflow", "ann", 1),
    Deed::Vote(1, "Code-Review", "bob", -2),
    Deed::Withdraw(1, "workflow", "ann"),
    Deed::PatchSet(2, "n", Some(3)),
    Deed::Abandon,
    Deed::Merged,
];

/// Over how many changes so many operations are spread, and how many of them came before the others.
const SPREADS: [(u64, u64); 2] = [(3, 0), (1_000, 90)];

/// The gathering of many operations on so many changes, onto a replica of the first ones.
fn gathering_of(alloc: Global, changes: u64, before: u64) -> Option<Gathering> {
    let mut gathering = Gathering::new(alloc);
    for time in 1..=before {
        gather(alloc, &mut gathering, changes, time)?;
    }
    let mut gathering = Gathering::onto(gathering.joined().ok()?);
    for time in before.saturating_add(1)..=MANY {
        gather(alloc, &mut gathering, changes, time)?;
    }
    Some(gathering)
}

/// Has a gathering take the operation of a time.
fn gather(alloc: Global, gathering: &mut Gathering, changes: u64, time: u64) -> Option<()> {
    let change = u32::try_from(time.checked_rem(changes)?)
        .ok()?
        .checked_add(1)?;
    let deed = *DEEDS.get(usize::try_from(time % 7).ok()?)?;
    gathering.take(op_of(alloc, time, change, deed)?).ok()?;
    Some(())
}

/// The replica of many operations, whose effects this joiner joined.
fn joined<J: EffectJoiner>(joiner: &J, alloc: Global, spread: (u64, u64)) -> Option<Replica> {
    gathering_of(alloc, spread.0, spread.1)?
        .joined_by(joiner)
        .ok()
}

/// The state of many operations, whose effects this joiner joined.
fn stated<J: EffectJoiner>(joiner: &J, alloc: Global, spread: (u64, u64)) -> Option<State> {
    gathering_of(alloc, spread.0, spread.1)?
        .into_state_by(joiner)
        .ok()
}

/// Of how many changes a state is, if it is the state of the other replica.
fn changes_of(state: Option<State>, wanted: &Option<Replica>) -> Option<usize> {
    let state = state?;
    if !state.same(wanted.as_ref()?.state()) {
        return None;
    }
    Some(state.changes().len())
}

/// How many operations a replica has, if it has those of the other one, in the same order, and the same state.
fn count_of(replica: Option<Replica>, wanted: &Option<Replica>) -> Option<usize> {
    let (replica, wanted) = (replica?, wanted.as_ref()?);
    if !replica.iter().eq(wanted.iter()) || !replica.same_state(wanted) {
        return None;
    }
    Some(replica.len())
}

#[test]
fn many_effects_are_joined_as_one_by_one(rt: HostRuntime) {
    let alloc = rt.alloc();
    for spread in SPREADS {
        let wanted = joined(&OneByOne, alloc, spread);
        let found = joined(&SideBySide::new(rt), alloc, spread);
        assert_found(&rt, count_of(found, &wanted), Some(16_500));
        let changes = usize::try_from(spread.0).ok();
        let found = stated(&SideBySide::new(rt), alloc, spread);
        assert_found(&rt, changes_of(found, &wanted), changes);
        let found = stated(&OneByOne, alloc, spread);
        assert_found(&rt, changes_of(found, &wanted), changes);
    }
}
