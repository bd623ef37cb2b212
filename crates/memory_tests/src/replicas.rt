//! Replicas: what they take, absorb, copy and show.

use super::operations::{Deed, op_of};
use super::turns::{Call, Memory, Seen, assert_each, assert_none};
use lattice_core::Join;
use replica_core::{Front, Gathering, Missing, Partly, Replica, Row};
use review_ops::Op;
use state_core::State;
use std::alloc::Allocator;

/// Operations in the order of their times.
const DEEDS: [Deed; 4] = [
    Deed::PatchSet(1),
    Deed::Vote(1, 1),
    Deed::Vote(1, 2),
    Deed::Abandon,
];

/// The operation after the first `count` ones.
fn next_op<A: Allocator + Copy>(alloc: A, count: usize) -> Option<Op<A>> {
    let time = u64::try_from(count).ok()?.checked_add(1)?;
    op_of(alloc, time, *DEEDS.get(count)?)
}

/// Whether memory sufficed for the replica to take the operation after the first `count` ones.
fn take<A: Allocator + Copy>(alloc: A, replica: &mut Replica<A>, count: usize) -> bool {
    next_op(alloc, count).is_some_and(|op| replica.take(op).is_ok())
}

/// The replica that took the first `count` operations.
fn replica_of<A: Allocator + Copy>(alloc: A, count: usize) -> Option<Replica<A>> {
    let mut replica = Replica::new(alloc);
    let mut is_taken = true;
    for place in 0..count {
        is_taken = is_taken && take(alloc, &mut replica, place);
    }
    if is_taken { Some(replica) } else { None }
}

/// The replica that took the four operations in the other order.
fn turned_round<A: Allocator + Copy>(alloc: A) -> Option<Replica<A>> {
    let mut replica = Replica::new(alloc);
    let mut is_taken = true;
    for place in [3, 2, 1, 0] {
        is_taken = is_taken && take(alloc, &mut replica, place);
    }
    if is_taken { Some(replica) } else { None }
}

/// Whether a replica has the operations of another one, in their order, and its state.
fn is<A: Allocator + Copy>(replica: &Replica<A>, wanted: Replica<A>) -> bool {
    replica.iter().eq(wanted.iter()) && replica.same_state(&wanted)
}

/// Whether the replica has just the first `count` operations, in their order, and their state.
fn has_first<A: Allocator + Copy>(alloc: A, replica: &Replica<A>, count: usize) -> bool {
    replica_of(alloc, count).is_some_and(|wanted| is(replica, wanted))
}

/// An operation that a replica takes after those before it.
#[derive(Clone, Copy)]
struct Takes(usize);

impl Call for Takes {
    fn seen(self, memory: &Memory, granted: u32) -> Option<Seen> {
        let op = next_op(memory, self.0)?;
        let replica = replica_of(memory, self.0)?;
        Some(taken(memory, replica, op, self.0, granted))
    }
}

/// What is seen where the replica with the first `count` operations takes the next one.
fn taken<'a>(
    memory: &'a Memory,
    mut replica: Replica<&'a Memory>,
    op: Op<&'a Memory>,
    count: usize,
    granted: u32,
) -> Seen {
    let after = count.saturating_add(1);
    memory.refuse_after(granted);
    let failed = replica.take(op).is_err();
    let refused = memory.grant_all();
    let stated = has_first(memory, &replica, if failed { count } else { after });
    let is_taken = take(memory, &mut replica, count);
    Seen {
        failed,
        refused,
        stated,
        whole: is_taken && has_first(memory, &replica, after),
    }
}

/// An operation that a gathering takes after those before it, the first of which its replica had.
#[derive(Clone, Copy)]
struct Gathers(usize);

impl Call for Gathers {
    fn seen(self, memory: &Memory, granted: u32) -> Option<Seen> {
        let op = next_op(memory, self.0)?;
        let gathering = gathering_of(memory, self.0)?;
        Some(gathered(memory, gathering, op, self.0, granted))
    }
}

/// Whether memory sufficed for the gathering to take the operation after the first `count` ones.
fn gather<A: Allocator + Copy>(alloc: A, gathering: &mut Gathering<A>, count: usize) -> bool {
    next_op(alloc, count).is_some_and(|op| gathering.take(op).is_ok())
}

/// The gathering that took the first `count` operations.
fn gathering_of<A: Allocator + Copy>(alloc: A, count: usize) -> Option<Gathering<A>> {
    let had = count.min(1);
    let mut gathering = Gathering::onto(replica_of(alloc, had)?);
    let mut is_taken = true;
    for place in had..count {
        is_taken = is_taken && gather(alloc, &mut gathering, place);
    }
    if is_taken { Some(gathering) } else { None }
}

/// Whether what was gathered is joined to the replica of the first `count` operations.
fn is_joined<A: Allocator + Copy>(alloc: A, gathering: Gathering<A>, count: usize) -> bool {
    match gathering.joined() {
        Ok(replica) => has_first(alloc, &replica, count),
        Err(_) => false,
    }
}

/// What is seen where the gathering of the first `count` operations takes the next one.
fn gathered<'a>(
    memory: &'a Memory,
    mut gathering: Gathering<&'a Memory>,
    op: Op<&'a Memory>,
    count: usize,
    granted: u32,
) -> Seen {
    let after = count.saturating_add(1);
    memory.refuse_after(granted);
    let failed = gathering.take(op).is_err();
    let refused = memory.grant_all();
    let stated = gathering.len() == if failed { count } else { after };
    let is_taken = gather(memory, &mut gathering, count);
    Seen {
        failed,
        refused,
        stated,
        whole: is_taken && is_joined(memory, gathering, after),
    }
}

/// The first operations, gathered, whose effects are joined.
#[derive(Clone, Copy)]
struct Joins(usize);

impl Call for Joins {
    fn seen(self, memory: &Memory, granted: u32) -> Option<Seen> {
        let gathering = gathering_of(memory, self.0)?;
        let again = gathering_of(memory, self.0)?;
        Some(joined(memory, gathering, again, self.0, granted))
    }
}

/// What is seen where what was gathered of the first `count` operations is joined, and what was gathered again.
fn joined<'a>(
    memory: &'a Memory,
    gathering: Gathering<&'a Memory>,
    again: Gathering<&'a Memory>,
    count: usize,
    granted: u32,
) -> Seen {
    memory.refuse_after(granted);
    let replica = gathering.joined().ok();
    let refused = memory.grant_all();
    Seen {
        failed: replica.is_none(),
        refused,
        stated: has_first_if_any(memory, &replica, count),
        whole: is_joined(memory, again, count),
    }
}

/// The first operations, gathered, of which only the state is asked for.
#[derive(Clone, Copy)]
struct States(usize);

impl Call for States {
    fn seen(self, memory: &Memory, granted: u32) -> Option<Seen> {
        let gathering = gathering_of(memory, self.0)?;
        let again = gathering_of(memory, self.0)?;
        let wanted = replica_of(memory, self.0)?;
        Some(stated(memory, gathering, again, wanted, granted))
    }
}

/// What is seen where the state of what was gathered is asked for, and of what was gathered again.
fn stated<'a>(
    memory: &'a Memory,
    gathering: Gathering<&'a Memory>,
    again: Gathering<&'a Memory>,
    wanted: Replica<&'a Memory>,
    granted: u32,
) -> Seen {
    memory.refuse_after(granted);
    let state = gathering.into_state().ok();
    let refused = memory.grant_all();
    let whole = again.into_state().ok();
    Seen {
        failed: state.is_none(),
        refused,
        stated: is_state_if_any(&state, wanted.state()),
        whole: whole.is_some() && is_state_if_any(&whole, wanted.state()),
    }
}

/// Whether a state, where there is one, is the one that is wanted.
fn is_state_if_any<A: Allocator + Copy>(state: &Option<State<A>>, wanted: &State<A>) -> bool {
    match state {
        Some(state) => state.same(wanted),
        None => true,
    }
}

/// Whether a replica, where there is one, has just the first `count` operations, in their order, and their state.
fn has_first_if_any<A: Allocator + Copy>(
    alloc: A,
    replica: &Option<Replica<A>>,
    count: usize,
) -> bool {
    match replica {
        Some(replica) => has_first(alloc, replica, count),
        None => true,
    }
}

/// A replica that absorbs one with four operations, of which it has the first, and which came in the other order.
#[derive(Clone, Copy)]
enum Absorbs {
    Own,
    Shared,
}

impl Call for Absorbs {
    fn seen(self, memory: &Memory, granted: u32) -> Option<Seen> {
        let other = match self {
            Absorbs::Own => turned_round(memory)?,
            Absorbs::Shared => shared(turned_round(memory)?)?,
        };
        let replica = replica_of(memory, 1)?;
        Some(absorbed(memory, replica, other, granted))
    }
}

/// The replica, whose copies share what it has.
fn shared<A: Allocator + Copy>(mut replica: Replica<A>) -> Option<Replica<A>> {
    replica.share().ok()?;
    Some(replica)
}

/// A replica of four operations that lets copies share them.
#[derive(Clone, Copy)]
struct Shares;

impl Call for Shares {
    fn seen(self, memory: &Memory, granted: u32) -> Option<Seen> {
        let replica = replica_of(memory, 4)?;
        Some(let_share(memory, replica, granted))
    }
}

/// What is seen where a replica lets copies share its four operations: it has them all the same.
fn let_share<'a>(memory: &'a Memory, mut replica: Replica<&'a Memory>, granted: u32) -> Seen {
    memory.refuse_after(granted);
    let failed = replica.share().is_err();
    let refused = memory.grant_all();
    let stated = has_first(memory, &replica, 4);
    let is_shared = replica.share().is_ok();
    Seen {
        failed,
        refused,
        stated,
        whole: is_shared && has_first(memory, &replica, 4),
    }
}

/// A copy that takes an operation on a change whose state it shares.
#[derive(Clone, Copy)]
struct TakesShared;

impl Call for TakesShared {
    fn seen(self, memory: &Memory, granted: u32) -> Option<Seen> {
        let op = next_op(memory, 3)?;
        let replica = shared(replica_of(memory, 3)?)?;
        let copied = replica.copy().ok()?;
        let wanted = replica.copy().ok()?;
        Some(taken_shared(memory, copied, &wanted, op, granted))
    }
}

/// What is seen where a copy takes the fourth operation: the other one keeps the first three.
fn taken_shared<'a>(
    memory: &'a Memory,
    copied: Replica<&'a Memory>,
    other: &Replica<&'a Memory>,
    op: Op<&'a Memory>,
    granted: u32,
) -> Seen {
    let mut seen = taken(memory, copied, op, 3, granted);
    seen.whole = seen.whole && has_first(memory, other, 3);
    seen
}

/// How many of four operations are in.
fn count_of(absorbed: Result<(), Partly>) -> usize {
    absorbed.map_or_else(|partly| partly.taken, |_| 4)
}

/// Whether memory sufficed for the replica to absorb the one with four operations.
fn absorb<A: Allocator + Copy>(alloc: A, replica: &mut Replica<A>) -> bool {
    turned_round(alloc).is_some_and(|other| replica.absorb(other).is_ok())
}

/// What is seen where the replica absorbs another one: the first so many of its operations are in, as it says.
fn absorbed<'a>(
    memory: &'a Memory,
    mut replica: Replica<&'a Memory>,
    other: Replica<&'a Memory>,
    granted: u32,
) -> Seen {
    memory.refuse_after(granted);
    let count = count_of(replica.absorb(other));
    let refused = memory.grant_all();
    let stated = has_first(memory, &replica, count.max(1));
    let is_absorbed = absorb(memory, &mut replica);
    Seen {
        failed: count < 4,
        refused,
        stated,
        whole: is_absorbed && has_first(memory, &replica, 4),
    }
}

/// What a replica with four operations shows.
#[derive(Clone, Copy)]
enum Shows {
    Copy,
    Front,
    Missing,
}

impl Call for Shows {
    fn seen(self, memory: &Memory, granted: u32) -> Option<Seen> {
        let replica = replica_of(memory, 4)?;
        Some(shown(memory, &replica, self, granted))
    }
}

/// Whether a replica has a copy.
fn is_copied<'a>(replica: &Replica<&'a Memory>) -> Option<bool> {
    Some(is(replica, replica.copy().ok()?))
}

/// The row of site 1 under start 1.
const ROW: Row = Row { site: 1, start: 1 };

/// Whether the front of the replica goes up to its four operations.
fn is_front(replica: &Replica<&Memory>) -> Option<bool> {
    Some(replica.front().ok()?.reach(ROW) == 4)
}

/// Whether the first three operations of the replica are what an empty front lacks, up to three, with more left.
fn is_missing<'a>(memory: &'a Memory, replica: &Replica<&'a Memory>) -> Option<bool> {
    let missing = replica.missing(&Front::new(memory), 3).ok()?;
    Some(are_first(replica, missing))
}

/// Whether these are the first three operations of the replica.
fn are_first<'a>(replica: &Replica<&'a Memory>, missing: Missing<&'a Memory>) -> bool {
    missing.more && replica.iter().take(3).eq(missing.ops.iter())
}

/// Whether the replica shows what it has to; none where memory was refused.
fn show<'a>(memory: &'a Memory, replica: &Replica<&'a Memory>, shows: Shows) -> Option<bool> {
    match shows {
        Shows::Copy => is_copied(replica),
        Shows::Front => is_front(replica),
        Shows::Missing => is_missing(memory, replica),
    }
}

/// What is seen where the replica shows something, which leaves it as it was.
fn shown<'a>(
    memory: &'a Memory,
    replica: &Replica<&'a Memory>,
    shows: Shows,
    granted: u32,
) -> Seen {
    memory.refuse_after(granted);
    let shown = show(memory, replica, shows);
    let refused = memory.grant_all();
    Seen {
        failed: shown.is_none(),
        refused,
        stated: shown != Some(false) && has_first(memory, replica, 4),
        whole: show(memory, replica, shows) == Some(true),
    }
}

/// A front that is raised in thirty rows.
#[derive(Clone, Copy)]
struct Raises;

impl Call for Raises {
    fn seen(self, memory: &Memory, granted: u32) -> Option<Seen> {
        Some(raised(memory, granted))
    }
}

/// Raises the front of site 1 under each start from `from` on, up to 30: the first that memory was refused for, or 30.
fn raise(front: &mut Front<&Memory>, from: u32) -> u32 {
    for start in from..30 {
        if front.raise(Row { site: 1, start }, 5).is_err() {
            return start;
        }
    }
    30
}

/// Whether just the first `count` of thirty rows are raised.
fn are_raised(front: &Front<&Memory>, count: u32) -> bool {
    for start in 0..30 {
        let wanted = if start < count { 5 } else { 0 };
        if front.reach(Row { site: 1, start }) != wanted {
            return false;
        }
    }
    true
}

/// What is seen where a front is raised.
fn raised(memory: &Memory, granted: u32) -> Seen {
    let mut front = Front::new(memory);
    memory.refuse_after(granted);
    let reached = raise(&mut front, 0);
    let refused = memory.grant_all();
    let stated = are_raised(&front, reached);
    raise(&mut front, reached);
    Seen {
        failed: reached < 30,
        refused,
        stated,
        whole: are_raised(&front, 30),
    }
}

#[test]
fn a_refused_take_changes_nothing(rt: HostRuntime) {
    assert_each(&rt, rt.alloc(), Takes(0), 4);
    assert_each(&rt, rt.alloc(), Takes(1), 3);
    assert_each(&rt, rt.alloc(), Takes(3), 0);
}

#[test]
fn a_refused_gathering_is_what_it_was(rt: HostRuntime) {
    assert_each(&rt, rt.alloc(), Gathers(0), 3);
    assert_each(&rt, rt.alloc(), Gathers(1), 0);
    assert_each(&rt, rt.alloc(), Gathers(3), 0);
}

#[test]
fn what_was_gathered_is_joined_whole_or_not_at_all(rt: HostRuntime) {
    assert_none(&rt, rt.alloc(), Joins(0));
    assert_none(&rt, rt.alloc(), Joins(1));
    assert_each(&rt, rt.alloc(), Joins(4), 3);
}

#[test]
fn a_state_of_what_was_gathered_is_whole_or_not_at_all(rt: HostRuntime) {
    assert_none(&rt, rt.alloc(), States(0));
    assert_none(&rt, rt.alloc(), States(1));
    assert_each(&rt, rt.alloc(), States(4), 1);
}

#[test]
fn a_refused_absorb_says_how_many_are_in(rt: HostRuntime) {
    assert_each(&rt, rt.alloc(), Absorbs::Own, 4);
    assert_each(&rt, rt.alloc(), Absorbs::Shared, 5);
}

#[test]
fn what_is_shared_stays_whole(rt: HostRuntime) {
    assert_each(&rt, rt.alloc(), Shares, 1);
    assert_each(&rt, rt.alloc(), TakesShared, 2);
}

#[test]
fn what_is_refused_is_not_shown(rt: HostRuntime) {
    assert_each(&rt, rt.alloc(), Shows::Copy, 8);
    assert_each(&rt, rt.alloc(), Shows::Front, 1);
    assert_each(&rt, rt.alloc(), Shows::Missing, 5);
    assert_each(&rt, rt.alloc(), Raises, 3);
}
