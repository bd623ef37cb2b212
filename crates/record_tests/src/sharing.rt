//! Records whose copies share what they had when they were made.

use super::asserts::assert_found;
use deeds::{Deed, op_of};
use replica_core::{Front, Replica, Taken};
use review_ops::Op;
use std::alloc::Global;

/// What is stamped with a time, from 1 on, on a change: the first three are there when copies are made.
const DEEDS: [(u32, Deed); 6] = [
    (101, Deed::PatchSet(1, "m", None)),
    (101, Deed::Vote(1, "Workflow", "ann", 1)),
    (102, Deed::PatchSet(1, "m", Some(101))),
    (101, Deed::Withdraw(1, "workflow", "ann")),
    (102, Deed::PatchSet(2, "m", None)),
    (103, Deed::Merged),
];

/// How many operations are shared.
const SHARED: usize = 3;

/// The operation of the deed at a place, where memory suffices for it.
fn op_at(alloc: Global, place: usize) -> Option<Op> {
    let (change, deed) = *DEEDS.get(place)?;
    let time = u64::try_from(place).ok()?.checked_add(1)?;
    op_of(alloc, time, change, deed)
}

/// Has a replica take the operation at a place, and says whether it had it, where memory suffices for it.
fn take_at(alloc: Global, replica: &mut Replica, place: usize) -> Option<Taken> {
    replica.take(op_at(alloc, place)?).ok()
}

/// The replica that took the operations at these places, with nothing shared.
fn plain(alloc: Global, places: &[usize]) -> Option<Replica> {
    let mut replica = Replica::new(alloc);
    for place in places {
        take_at(alloc, &mut replica, *place)?;
    }
    Some(replica)
}

/// A replica of the first operations, which its copies share.
fn shared(alloc: Global) -> Option<Replica> {
    shared_again(plain(alloc, &[0, 1, 2])?)
}

/// A copy of a replica that took the operation at a place after it.
fn copy_with(alloc: Global, replica: &Replica, place: usize) -> Option<Replica> {
    with(alloc, replica.copy().ok()?, place)
}

/// The replica, which took the operation at a place after all that it had.
fn with(alloc: Global, mut replica: Replica, place: usize) -> Option<Replica> {
    if take_at(alloc, &mut replica, place).is_some() {
        Some(replica)
    } else {
        None
    }
}

/// Whether two replicas have the same operations in the same order, and one state.
fn alike(replica: &Replica, other: &Replica) -> bool {
    replica.iter().eq(other.iter()) && replica.same_state(other)
}

/// Whether a front lacks the same operations of two replicas.
fn lack_alike(alloc: Global, replica: &Replica, other: &Replica) -> bool {
    let nothing = Front::new(alloc);
    match (replica.missing(&nothing, 256), other.missing(&nothing, 256)) {
        (Ok(missing), Ok(others)) => missing.ops == others.ops,
        _ => false,
    }
}

/// Whether a replica is what one is that took the operations at these places, with nothing shared.
fn is_plain(alloc: Global, replica: &Replica, places: &[usize]) -> bool {
    match plain(alloc, places) {
        Some(other) => alike(replica, &other) && lack_alike(alloc, replica, &other),
        None => false,
    }
}

/// Whether there is a replica, and it is what one is that took the operations at these places, with nothing shared.
fn are_plain(alloc: Global, replica: Option<Replica>, places: &[usize]) -> bool {
    match replica {
        Some(replica) => is_plain(alloc, &replica, places),
        None => false,
    }
}

/// Whether two copies, and then the replica itself, keep apart what each of them gains.
fn keep_apart(alloc: Global, replica: Replica) -> [bool; 3] {
    let first = copy_with(alloc, &replica, 3);
    let second = copy_with(alloc, &replica, 4);
    let itself = with(alloc, replica, 5);
    [
        are_plain(alloc, first, &[0, 1, 2, 3]),
        are_plain(alloc, second, &[0, 1, 2, 4]),
        are_plain(alloc, itself, &[0, 1, 2, 5]),
    ]
}

/// The same of a replica of the first operations.
fn kept_apart(alloc: Global) -> Option<[bool; 3]> {
    Some(keep_apart(alloc, shared(alloc)?))
}

#[test]
fn what_copies_gain_is_their_own(rt: HostRuntime) {
    assert_found(&rt, kept_apart(rt.alloc()), Some([true, true, true]));
}

/// A copy of what is shared, which outlives the replica, and took the operation at a place after it.
fn outliving(alloc: Global, place: usize) -> Option<Replica> {
    let replica = shared(alloc)?;
    copy_with(alloc, &replica, place)
}

/// Whether a copy knows what is shared, finds something else new, and then is what one is with nothing shared.
fn goes_on(alloc: Global, mut copied: Replica) -> [bool; 3] {
    let known = take_at(alloc, &mut copied, 0) == Some(Taken::Known);
    let new = take_at(alloc, &mut copied, 5) == Some(Taken::New);
    [known, new, is_plain(alloc, &copied, &[0, 1, 2, 3, 5])]
}

/// The same of a copy that outlives the replica.
fn gone_on(alloc: Global) -> Option<[bool; 3]> {
    Some(goes_on(alloc, outliving(alloc, 3)?))
}

#[test]
fn a_copy_outlives_the_replica(rt: HostRuntime) {
    assert_found(&rt, gone_on(rt.alloc()), Some([true, true, true]));
}

/// The time of the operation that came at each place, and how many came since then.
fn places(replica: &Replica) -> [(u64, usize); 5] {
    let mut found = [(0, 0); 5];
    for place in 0..replica.len().min(found.len()) {
        found[place] = (
            replica.arrival(place).stamp().time(),
            replica.since(place).count(),
        );
    }
    found
}

/// How many operations came since the first so many, and since more than there are.
fn counts(replica: &Replica) -> (usize, usize) {
    (replica.since(SHARED).count(), replica.since(9).count())
}

/// What came at each place to a copy that outlives the replica, and how much since.
fn places_outliving(alloc: Global) -> Option<([(u64, usize); 5], (usize, usize))> {
    let copied = outliving(alloc, 4)?;
    Some((places(&copied), counts(&copied)))
}

#[test]
fn places_go_on_past_what_is_shared(rt: HostRuntime) {
    let places = [(1, 4), (2, 3), (3, 2), (5, 1), (0, 0)];
    let found = places_outliving(rt.alloc());
    assert_found(&rt, found, Some((places, (1, 0))));
}

/// A replica that shares once more what it has and gained.
fn shared_twice(alloc: Global) -> Option<Replica> {
    shared_again(outliving(alloc, 3)?)
}

/// The replica, which lets copies share what it has.
fn shared_again(mut replica: Replica) -> Option<Replica> {
    if replica.share().is_ok() {
        Some(replica)
    } else {
        None
    }
}

/// A copy of what is there, where it is, that took the operation at a place after it.
fn copied_with(alloc: Global, replica: Option<Replica>, place: usize) -> Option<Replica> {
    match replica {
        Some(replica) => copy_with(alloc, &replica, place),
        None => None,
    }
}

#[test]
fn to_share_changes_nothing(rt: HostRuntime) {
    let alloc = rt.alloc();
    let from_nothing = copied_with(alloc, shared_again(Replica::new(alloc)), 5);
    let twice = copied_with(alloc, shared_twice(alloc), 5);
    assert_found(&rt, are_plain(alloc, from_nothing, &[5]), true);
    assert_found(&rt, are_plain(alloc, twice, &[0, 1, 2, 3, 5]), true);
}

/// What a replica is that absorbed another one.
fn absorbed(alloc: Global, other: Replica) -> Option<Replica> {
    match plain(alloc, &[5]) {
        Some(replica) => with_all(replica, other),
        None => None,
    }
}

/// The replica, which absorbed another one.
fn with_all(mut replica: Replica, other: Replica) -> Option<Replica> {
    if replica.absorb(other).is_ok() {
        Some(replica)
    } else {
        None
    }
}

/// The replica that absorbed a copy of what is shared.
fn absorbed_copy(alloc: Global) -> Option<Replica> {
    absorbed(alloc, outliving(alloc, 3)?)
}

#[test]
fn what_is_shared_is_absorbed(rt: HostRuntime) {
    let both = absorbed_copy(rt.alloc());
    assert_found(&rt, are_plain(rt.alloc(), both, &[5, 0, 1, 2, 3]), true);
}
