//! Records whose state is joined after all operations came.

use super::asserts::assert_found;
use deeds::{Deed, op_of};
use lattice_core::Join;
use replica_core::{Gathering, Replica, Taken};
use review_ops::Op;
use std::alloc::Global;
use std::process::Abort;

/// What a test lacks where memory is refused that it counts on.
const MEMORY: &str = "memory";

/// What is stamped with a time, from 1 on, on a change.
const DEEDS: [(u32, Deed); 7] = [
    (103, Deed::PatchSet(1, "m", None)),
    (101, Deed::PatchSet(1, "m", Some(102))),
    (103, Deed::Vote(1, "Workflow", "ann", 1)),
    (102, Deed::Merged),
    (101, Deed::Vote(1, "Workflow", "ann", -1)),
    (103, Deed::Withdraw(1, "workflow", "ann")),
    (101, Deed::Abandon),
];

/// The places of deeds: none, all upwards, downwards and mixed, and with repeats.
const ORDERS: [&[usize]; 6] = [
    &[],
    &[0, 1, 2, 3, 4, 5, 6],
    &[6, 5, 4, 3, 2, 1, 0],
    &[3, 0, 6, 1, 5, 2, 4],
    &[3, 3, 0, 6, 0, 1, 5, 3, 2, 4, 4, 6],
    &[2, 2, 2],
];

/// The operation of the deed at a place, where memory suffices for it.
fn op_at(alloc: Global, place: usize) -> Option<Op> {
    let (change, deed) = *DEEDS.get(place)?;
    let time = u64::try_from(place).ok()?.checked_add(1)?;
    op_of(alloc, time, change, deed)
}

/// Has a replica take the operation at a place, and says whether it had it, where memory suffices for it.
fn take_at(alloc: Global, replica: &mut Replica, place: usize) -> Option<Taken> {
    replica.take(op_at(alloc, place)?).ok()
}

/// Has a gathering take the operation at a place, and says whether it had it, where memory suffices for it.
fn gather_at(alloc: Global, gathering: &mut Gathering, place: usize) -> Option<Taken> {
    gathering.take(op_at(alloc, place)?).ok()
}

/// The replica that took the operations at these places, one after the other.
fn one_by_one(alloc: Global, places: &[usize]) -> Option<Replica> {
    let mut replica = Replica::new(alloc);
    for place in places {
        take_at(alloc, &mut replica, *place)?;
    }
    Some(replica)
}

/// The operations at these places, gathered onto a replica of the first so many.
fn gathering_of(alloc: Global, places: &[usize], before: usize) -> Option<Gathering> {
    let first = places.get(..before)?;
    let mut gathering = Gathering::onto(one_by_one(alloc, first)?);
    for place in places.get(before..)? {
        gather_at(alloc, &mut gathering, *place)?;
    }
    Some(gathering)
}

/// Whether two replicas have the same operations in the same order, and one state.
fn alike(replica: &Replica, other: &Replica) -> bool {
    replica.iter().eq(other.iter()) && replica.same_state(other)
}

/// Whether the two replicas are alike, and are so still when both took each operation.
fn stay_alike(alloc: Global, mut replica: Replica, mut other: Replica) -> bool {
    let mut are = alike(&replica, &other);
    for place in 0..DEEDS.len() {
        let taken = take_at(alloc, &mut replica, place);
        are = are && taken.is_some() && taken == take_at(alloc, &mut other, place);
    }
    are && alike(&replica, &other)
}

/// Whether what was gathered is what was taken one by one, where so many of the operations at these places came before.
fn is_gathered(alloc: Global, places: &[usize], before: usize) -> Option<bool> {
    let gathered = gathering_of(alloc, places, before)?.joined().ok()?;
    Some(stay_alike(alloc, gathered, one_by_one(alloc, places)?))
}

/// Whether the state of what was gathered is that of what was taken one by one.
fn is_stated(alloc: Global, places: &[usize], before: usize) -> Option<bool> {
    let state = gathering_of(alloc, places, before)?.into_state().ok()?;
    Some(state.same(one_by_one(alloc, places)?.state()))
}

/// Of the operations at these places those from each one on may be gathered.
fn assert_gathered(rt: &impl Abort, alloc: Global, places: &[usize]) {
    for before in 0..=places.len() {
        assert_found(rt, is_gathered(alloc, places, before), Some(true));
        assert_found(rt, is_stated(alloc, places, before), Some(true));
    }
}

#[test]
fn what_is_gathered_is_what_is_taken_one_by_one(rt: HostRuntime) {
    for places in ORDERS {
        assert_gathered(&rt, rt.alloc(), places);
    }
}

/// What a gathering answers to operations that it lacks and has, and how many it has then.
fn answers(alloc: Global) -> Option<([Taken; 3], usize)> {
    let mut gathering = Gathering::onto(one_by_one(alloc, &[0])?);
    let had = gather_at(alloc, &mut gathering, 0)?;
    let new = gather_at(alloc, &mut gathering, 1)?;
    let again = gather_at(alloc, &mut gathering, 1)?;
    Some(([had, new, again], gathering.len()))
}

#[test]
fn a_gathering_says_what_it_had(rt: HostRuntime) {
    let (taken, len) = answers(rt.alloc()).expect(&rt, MEMORY);
    assert_found(
        &rt,
        (taken, len),
        ([Taken::Known, Taken::New, Taken::Known], 2),
    );
}

/// Whether a new gathering is empty, and then has the operations at these places as a replica has them.
fn is_listed(alloc: Global, places: &[usize]) -> Option<bool> {
    let mut gathering = Gathering::new(alloc);
    let is_empty = gathering.iter().next().is_none();
    for place in places {
        gather_at(alloc, &mut gathering, *place)?;
    }
    let replica = one_by_one(alloc, places)?;
    Some(is_empty && gathering.iter().eq(replica.iter()))
}

#[test]
fn a_gathering_lists_what_came(rt: HostRuntime) {
    for places in ORDERS {
        assert_found(&rt, is_listed(rt.alloc(), places), Some(true));
    }
}
