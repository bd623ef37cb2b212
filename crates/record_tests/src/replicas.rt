//! Records worked out by hand.

use super::asserts::assert_found;
use super::plain_replica::Plain;
use deeds::{Deed, op_of};
use lattice_core::NoMemory;
use replica_core::{Front, Replica, Row, Taken};
use review_ops::{Body, Draft, Op, Stamp};
use std::alloc::Global;
use std::process::Abort;

/// What a test lacks where memory is refused that it counts on.
const MEMORY: &str = "memory";

/// What a site stamps on change 101 with a time, which is its sequence number too, as site 1 under start 1.
#[derive(Clone, Copy)]
enum Step {
    PatchSet(u64, &'static str, Option<u32>),
    Vote(u64, i8),
    Withdraw(u64),
    Merged(u64),
    Abandon(u64),
    Restore(u64),
}

/// When a step is stamped, and what it does.
fn deed_of(step: Step) -> (u64, Deed) {
    match step {
        Step::PatchSet(time, message, parent) => (time, Deed::PatchSet(1, message, parent)),
        Step::Vote(time, value) => (time, Deed::Vote(1, "Workflow", "ann", value)),
        Step::Withdraw(time) => (time, Deed::Withdraw(1, "workflow", "ann")),
        Step::Merged(time) => (time, Deed::Merged),
        Step::Abandon(time) => (time, Deed::Abandon),
        Step::Restore(time) => (time, Deed::Restore),
    }
}

/// The operation of a step, where memory suffices for it.
fn step_op(alloc: Global, step: Step) -> Option<Op> {
    let (time, deed) = deed_of(step);
    op_of(alloc, time, 101, deed)
}

/// Takes the operation of a step, and says whether the replica had it, where memory suffices for it.
fn take_step(alloc: Global, replica: &mut Replica, step: Step) -> Option<Taken> {
    let op = step_op(alloc, step)?;
    replica.take(op).ok()
}

/// Takes the operation of a step, of which the replica says whether it had it.
fn assert_takes(rt: &impl Abort, alloc: Global, replica: &mut Replica, step: Step, wanted: Taken) {
    assert_found(rt, take_step(alloc, replica, step), Some(wanted));
}

/// Takes operations, all of which the replica lacked.
fn assert_takes_all(rt: &impl Abort, alloc: Global, replica: &mut Replica, steps: &[Step]) {
    for step in steps {
        assert_takes(rt, alloc, replica, *step, Taken::New);
    }
}

/// The replica that took the operations in their order.
fn forth(rt: &impl Abort, alloc: Global, steps: &[Step]) -> Replica {
    let mut replica = Replica::new(alloc);
    assert_takes_all(rt, alloc, &mut replica, steps);
    replica
}

/// The replica that took the operations in the other order, each twice.
fn back(rt: &impl Abort, alloc: Global, steps: &[Step]) -> Replica {
    let mut replica = Replica::new(alloc);
    for step in steps.iter().rev() {
        assert_takes(rt, alloc, &mut replica, *step, Taken::New);
        assert_takes(rt, alloc, &mut replica, *step, Taken::Known);
    }
    replica
}

/// How many operations two replicas have, and whether they have one state.
fn compared(first: Replica, second: Replica) -> (usize, usize, bool) {
    (first.len(), second.len(), first.same_state(&second))
}

/// The replicas that took the operations, the first in their order and the second in the other, have as many and one
/// state.
fn assert_state(rt: &impl Abort, alloc: Global, steps: &[Step]) {
    let compared = compared(forth(rt, alloc, steps), back(rt, alloc, steps));
    assert_found(rt, compared, (steps.len(), steps.len(), true));
}

/// Operations whose order counts for nothing.
const ARRIVALS: [&[Step]; 3] = [
    &[
        Step::PatchSet(1, "m", None),
        Step::Vote(3, 1),
        Step::Vote(3, 2),
        Step::Withdraw(3),
    ],
    &[
        Step::PatchSet(1, "m", None),
        Step::Merged(2),
        Step::Abandon(3),
        Step::Restore(4),
    ],
    &[
        Step::PatchSet(1, "m", Some(1)),
        Step::PatchSet(1, "m", None),
        Step::PatchSet(1, "n", None),
    ],
];

#[test]
fn the_order_of_arrival_counts_for_nothing(rt: HostRuntime) {
    for steps in ARRIVALS {
        assert_state(&rt, rt.alloc(), steps);
    }
}

/// The time, the site, the start and the sequence number of the next stamp of a row, unless one of them is spent.
fn next_of(replica: &Replica, row: Row) -> Option<(u64, u16, u32, u64)> {
    let stamp = replica.next_stamp(row.site, row.start).ok()?;
    Some((stamp.time(), stamp.site(), stamp.start(), stamp.seq()))
}

/// The next stamp of a row has this time and sequence number.
fn assert_next(rt: &impl Abort, replica: &Replica, row: Row, time: u64, seq: u64) {
    assert_found(
        rt,
        next_of(replica, row),
        Some((time, row.site, row.start, seq)),
    );
}

#[test]
fn the_first_stamp_is_of_time_1(rt: HostRuntime) {
    let replica = Replica::new(rt.alloc());
    assert_next(&rt, &replica, Row { site: 2, start: 3 }, 1, 1);
}

#[test]
fn the_next_stamp_is_above_all(rt: HostRuntime) {
    let replica = forth(&rt, rt.alloc(), &[Step::Vote(7, 1)]);
    for (site, start, seq) in [(1, 1, 8), (1, 2, 1), (2, 1, 1)] {
        assert_next(&rt, &replica, Row { site, start }, 8, seq);
    }
}

/// The first row of site 1.
const FIRST_ROW: Row = Row { site: 1, start: 1 };

/// The row of site 1 under its next start.
const SECOND_ROW: Row = Row { site: 1, start: 2 };

/// A merge with this stamp.
fn merge(stamp: Stamp) -> Option<Op> {
    let body = Body::checked(Draft::Merged { change: 5 }).ok()?;
    Some(Op::new(stamp, body))
}

/// Takes a merge with the greatest sequence number, and says whether the replica had it, where memory suffices for it.
fn take_greatest(replica: &mut Replica) -> Option<Taken> {
    let op = merge(Stamp::new(9, 1, 1, u64::MAX)?)?;
    replica.take(op).ok()
}

#[test]
fn no_stamp_is_above_the_greatest_sequence_number(rt: HostRuntime) {
    let mut replica = forth(&rt, rt.alloc(), &[Step::Vote(7, 1)]);
    assert_found(&rt, take_greatest(&mut replica), Some(Taken::New));
    assert_found(&rt, next_of(&replica, FIRST_ROW), None);
    assert_next(&rt, &replica, SECOND_ROW, 10, 1);
}

/// How far a front goes in the first two rows of site 1, of which the first was raised to 1 and then to 0.
fn raised(alloc: Global) -> Option<(u64, u64)> {
    let mut front = Front::new(alloc);
    front.raise(FIRST_ROW, 1).ok()?;
    front.raise(FIRST_ROW, 0).ok()?;
    Some((front.reach(FIRST_ROW), front.reach(SECOND_ROW)))
}

#[test]
fn what_a_front_is_raised_to_is_reached(rt: HostRuntime) {
    assert_found(&rt, raised(rt.alloc()), Some((1, 0)));
}

/// Sequence numbers of operations, in their order, and 0 for each that there isn't.
fn seqs_of(ops: &[Op]) -> [u64; 3] {
    let mut found = [0; 3];
    for place in 0..ops.len().min(found.len()) {
        found[place] = ops[place].stamp().seq();
    }
    found
}

/// How many operations are missing up to the limit, the first sequence numbers of them, and whether others are left.
fn missing(replica: &Replica, front: &Front, limit: usize) -> Option<(usize, [u64; 3], bool)> {
    let missing = replica.missing(front, limit).ok()?;
    Some((
        missing.ops.len(),
        seqs_of(missing.ops.as_slice()),
        missing.more,
    ))
}

/// The front that goes as far as 1 in the first row of site 1.
fn first_front(alloc: Global) -> Option<Front> {
    let mut front = Front::new(alloc);
    front.raise(FIRST_ROW, 1).ok()?;
    Some(front)
}

#[test]
fn what_a_front_lacks_comes_in_order(rt: HostRuntime) {
    let front = first_front(rt.alloc()).expect(&rt, MEMORY);
    let steps = [Step::Vote(3, 1), Step::Vote(1, 1), Step::Vote(2, 1)];
    let replica = forth(&rt, rt.alloc(), &steps);
    let one = missing(&replica, &front, 1);
    let two = missing(&replica, &front, 2);
    assert_found(&rt, one, Some((1, [2, 0, 0], true)));
    assert_found(&rt, two, Some((2, [2, 3, 0], false)));
}

/// A place in a record: a site, a start and a sequence number.
type Place = (u16, u32, u64);

/// A merge with this place, with the sequence number as its time.
fn merged_at(place: Place) -> Option<Op> {
    let (site, start, seq) = place;
    merge(Stamp::new(seq, site, start, seq)?)
}

/// Takes a merge with this place, and says whether the replica had it, where memory suffices for it.
fn take_place(replica: &mut Replica, place: Place) -> Option<Taken> {
    let op = merged_at(place)?;
    replica.take(op).ok()
}

/// Takes merges with these places, where memory suffices for them.
fn take_places(replica: &mut Replica, places: &[Place]) -> Option<()> {
    for place in places {
        take_place(replica, *place)?;
    }
    Some(())
}

/// The places that a front reaches, row by row.
fn places_of(alloc: Global, front: &Front) -> Option<Vec<Place>> {
    let mut places = Vec::new(alloc);
    for (row, reach) in front.rows().iter() {
        places.push((row.site, row.start, reach.seq())).ok()?;
    }
    Some(places)
}

/// The places that the front of a replica reaches, row by row.
fn front_places(alloc: Global, replica: &Replica) -> Option<Vec<Place>> {
    let front = replica.front().ok()?;
    places_of(alloc, &front)
}

/// The places that the front reaches, row by row, once merges with others are taken.
fn front_after(alloc: Global, replica: &mut Replica, places: &[Place]) -> Option<Vec<Place>> {
    take_places(replica, places)?;
    front_places(alloc, replica)
}

/// What the replica's own front lacks.
fn lacked(replica: &Replica) -> Option<(usize, [u64; 3], bool)> {
    let front = replica.front().ok()?;
    missing(replica, &front, 9)
}

/// The places of operations that come one after the other, and the front after each.
const FRONTS: [(&[Place], &[Place]); 4] = [
    (&[], &[]),
    (&[(2, 1, 4), (2, 1, 2), (2, 1, 6)], &[]),
    (&[(2, 1, 1), (2, 1, 3)], &[(2, 1, 4)]),
    (
        &[(1, 7, 1), (1, 3, 1), (2, 1, 5)],
        &[(1, 3, 1), (1, 7, 1), (2, 1, 6)],
    ),
];

/// The front reaches what it is to reach after each of some merges.
fn assert_fronts(rt: &impl Abort, alloc: Global, replica: &mut Replica) {
    for (places, wanted) in FRONTS {
        let reached = front_after(alloc, replica, places);
        assert_found(rt, reached.as_deref(), Some(wanted));
    }
}

#[test]
fn a_front_goes_as_far_as_there_is_no_gap(rt: HostRuntime) {
    let mut replica = Replica::new(rt.alloc());
    assert_fronts(&rt, rt.alloc(), &mut replica);
    assert_found(&rt, lacked(&replica), Some((0, [0, 0, 0], false)));
}

/// A patch set that a replica has before it is copied.
const FIRST: [Step; 1] = [Step::PatchSet(1, "m", None)];

/// A copy of the replica that took votes with the times 3 and 2 after it.
fn with_two_votes(rt: &impl Abort, alloc: Global, replica: &Replica) -> Replica {
    let mut copied = replica.copy().ok().expect(rt, MEMORY);
    let votes = [Step::Vote(3, 1), Step::Vote(2, 1)];
    assert_takes_all(rt, alloc, &mut copied, &votes);
    copied
}

/// How many operations a copy has, whether it has the state of another replica, and whether it has the same arrivals.
fn likeness(copied: Replica, replica: &Replica) -> (usize, bool, bool) {
    let same_arrivals = copied.iter().eq(replica.iter());
    (copied.len(), copied.same_state(replica), same_arrivals)
}

/// The likeness of a copy of a replica and that.
fn likeness_of_copy(replica: Replica) -> Option<(usize, bool, bool)> {
    let copied = replica.copy().ok()?;
    Some(likeness(copied, &replica))
}

#[test]
fn a_copy_is_equal(rt: HostRuntime) {
    let likeness = likeness_of_copy(forth(&rt, rt.alloc(), &FIRST));
    assert_found(&rt, likeness, Some((1, true, true)));
}

/// Whether two replicas have one state, and whether the first and the second have an operation with a stamp.
fn having(first: Replica, second: Replica, stamp: Stamp) -> (bool, bool, bool) {
    let same = first.same_state(&second);
    (same, first.has_stamp(stamp), second.has_stamp(stamp))
}

/// Whether a replica of a patch set and a copy that took two votes after it have one state, and whether each has the
/// later vote.
fn gained(rt: &impl Abort, alloc: Global) -> Option<(bool, bool, bool)> {
    let third = Stamp::new(3, 1, 1, 3)?;
    let first = forth(rt, alloc, &FIRST);
    let second = with_two_votes(rt, alloc, &first);
    Some(having(first, second, third))
}

#[test]
fn what_a_copy_gains_is_its_own(rt: HostRuntime) {
    let found = gained(&rt, rt.alloc());
    assert_found(&rt, found, Some((false, false, true)));
}

/// The replica that absorbed what a copy gained, after it had taken a withdrawal.
fn with_gains(rt: &impl Abort, alloc: Global) -> Option<Replica> {
    let mut first = forth(rt, alloc, &FIRST);
    let second = with_two_votes(rt, alloc, &first);
    assert_takes(rt, alloc, &mut first, Step::Withdraw(4), Taken::New);
    first.absorb(second).ok()?;
    Some(first)
}

/// The sequence number of the operation that came second, where there is one.
fn second_seq(replica: &Replica) -> Option<u64> {
    if 1 < replica.len() {
        Some(replica.arrival(1).stamp().seq())
    } else {
        None
    }
}

/// How many operations came to a replica, the sequence number of the one that came second, and whether these are all.
fn gains(replica: Replica) -> (usize, Option<u64>, bool) {
    let seqs = replica.iter().map(|op| op.stamp().seq());
    let are_all = seqs.eq([1, 4, 2, 3]);
    (replica.len(), second_seq(&replica), are_all)
}

#[test]
fn what_a_copy_gains_is_absorbed(rt: HostRuntime) {
    let first = with_gains(&rt, rt.alloc()).expect(&rt, MEMORY);
    assert_found(&rt, gains(first), (4, Some(4), true));
}

/// Takes a merge of the change with this number, stamped with it.
fn take_merge(replica: &mut Replica, number: u32) {
    let seq = u64::from(number);
    let stamp = Stamp::new(seq, 1, 1, seq);
    let body = Body::checked(Draft::Merged { change: number });
    if let (Some(stamp), Ok(body)) = (stamp, body) {
        let _ = replica.take(Op::new(stamp, body));
    }
}

/// The replica that took the first merges, as many as `count`.
fn merges(alloc: Global, count: u32) -> Replica {
    let mut replica = Replica::new(alloc);
    for number in 0..count {
        take_merge(&mut replica, number.saturating_add(1));
    }
    replica
}

/// How many operations a replica has, and whether it has the state of all five merges.
fn merged(alloc: Global, replica: &Replica) -> (usize, bool) {
    let whole = merges(alloc, 5);
    (replica.len(), replica.same_state(&whole))
}

/// The likeness of a copy and the replica of all five merges.
fn likeness_to_merges(alloc: Global, copied: Replica) -> (usize, bool, bool) {
    let whole = merges(alloc, 5);
    likeness(copied, &whole)
}

/// The replica of the first three merges, which hasn't the state of all, once it absorbed that of all five.
fn with_all_merges(rt: &impl Abort, alloc: Global) -> Option<Replica> {
    let mut part = merges(alloc, 3);
    assert_found(rt, merged(alloc, &part), (3, false));
    part.absorb(merges(alloc, 5)).ok()?;
    Some(part)
}

/// What a replica and a copy of it have of all five merges.
fn merged_and_copied(
    alloc: Global,
    replica: Replica,
) -> Option<((usize, bool), (usize, bool, bool))> {
    let copied = replica.copy().ok()?;
    let of_copy = likeness_to_merges(alloc, copied);
    Some((merged(alloc, &replica), of_copy))
}

#[test]
fn what_has_all_is_absorbed_into_a_part_of_it(rt: HostRuntime) {
    let whole = with_all_merges(&rt, rt.alloc()).expect(&rt, MEMORY);
    let found = merged_and_copied(rt.alloc(), whole);
    assert_found(&rt, found, Some(((5, true), (5, true, true))));
}

/// Numbers that look thrown, the same in each run: Marsaglia's xorshift.
#[derive(Drop)]
struct Dice {
    state: u64,
}

impl Dice {
    /// A number below `sides`.
    fn throw(&mut self, sides: u64) -> u64 {
        self.state ^= self.state << 13;
        self.state ^= self.state >> 7;
        self.state ^= self.state << 17;
        self.state.checked_rem(sides).unwrap_or(0)
    }
}

/// A stamp of one of six rows. Few have the greatest sequence number.
fn thrown_stamp(dice: &mut Dice) -> Option<Stamp> {
    let site = u16::try_from(dice.throw(3)).ok()?;
    let start = u32::try_from(dice.throw(2)).ok()?;
    let seq = match dice.throw(1024) {
        0 => u64::MAX,
        _ => dice.throw(40),
    };
    Stamp::new(dice.throw(5), site, start, seq)
}

/// An operation of one of six rows. Stamps come again, with equal and with other bodies.
fn thrown(dice: &mut Dice) -> Option<Op> {
    let stamp = thrown_stamp(dice)?;
    let change = u32::try_from(dice.throw(3)).ok()?;
    let draft = match dice.throw(2) {
        0 => Draft::Abandon { change },
        _ => Draft::Merged { change },
    };
    Some(Op::new(stamp, Body::checked(draft).ok()?))
}

/// The rows that are looked at: those that are thrown, and others.
fn row_at(place: u16) -> Row {
    Row {
        site: place / 3,
        start: u32::from(place % 3),
    }
}

/// How far a front reaches in a row, and the time and the sequence number of the row's next stamp.
fn row_of_lines(replica: &Replica, front: &Front, row: Row) -> (u64, Option<(u64, u64)>) {
    let next = match replica.next_stamp(row.site, row.start) {
        Ok(stamp) => Some((stamp.time(), stamp.seq())),
        Err(_) => None,
    };
    (front.reach(row), next)
}

/// A record, the plain list of what it took, and the dice for what both take.
#[derive(Drop)]
struct Both {
    replica: Replica,
    plain: Plain,
    dice: Dice,
}

/// Whether an operation is there before both take it, whether its stamp is, and whether it is new.
type Had = (bool, bool, bool);

impl Both {
    fn new(alloc: Global, state: u64) -> Both {
        Both {
            replica: Replica::new(alloc),
            plain: Plain::new(alloc),
            dice: Dice { state },
        }
    }

    /// What the record answers to an operation that it takes a copy of.
    fn lines_take(&mut self, op: &Op) -> Result<Had, NoMemory> {
        let had = self.replica.has(op);
        let had_stamp = self.replica.has_stamp(op.stamp());
        let taken = self.replica.take(op.copy()?)?;
        Ok((had, had_stamp, taken == Taken::New))
    }

    /// What the list answers to an operation that it takes.
    fn list_takes(&mut self, op: Op) -> Result<Had, NoMemory> {
        let had = self.plain.has(&op);
        let had_stamp = self.plain.has_stamp(op.stamp());
        Ok((had, had_stamp, self.plain.take(op)?))
    }

    /// What both answer to an operation that they take.
    fn take(&mut self, op: Op) -> Result<(Had, Had), NoMemory> {
        let of_lines = self.lines_take(&op)?;
        Ok((of_lines, self.list_takes(op)?))
    }

    /// Whether both answer alike to an operation that is thrown, where one is.
    fn throw(&mut self) -> Option<bool> {
        let Some(op) = thrown(&mut self.dice) else {
            return Some(true);
        };
        let (of_lines, of_list) = self.take(op).ok()?;
        Some(of_lines == of_list)
    }

    /// Both take an operation that is thrown, and answer alike.
    fn assert_throw(&mut self, rt: &impl Abort) {
        assert_found(rt, self.throw(), Some(true));
    }

    /// Both absorb another record.
    fn absorb(&mut self, alloc: Global, other: Replica) -> Option<()> {
        self.plain.absorb(alloc, other.iter()).ok()?;
        self.replica.absorb(other).ok()
    }

    /// Both answer alike how far each row reaches and what its next stamp is.
    fn assert_rows(&self, rt: &impl Abort, front: &Front) {
        for place in 0..12u16 {
            let row = row_at(place);
            let of_list = (self.plain.reach(row), self.plain.next(row));
            assert_found(rt, row_of_lines(&self.replica, front, row), of_list);
        }
    }

    /// A front that is raised in each row, up to two past the reach of another.
    fn throw_front(&mut self, alloc: Global, front: &Front) -> Result<Front, NoMemory> {
        let mut raised = Front::new(alloc);
        for place in 0..12u16 {
            let row = row_at(place);
            let sides = front.reach(row).saturating_add(3);
            raised.raise(row, self.dice.throw(sides))?;
        }
        Ok(raised)
    }

    /// Whether the operations that the record finds past a front are the first of a list, and whether others are left.
    fn missing(
        &self,
        front: &Front,
        lacked: &[Op],
        limit: usize,
    ) -> Result<(bool, bool), NoMemory> {
        let missing = self.replica.missing(front, limit)?;
        let first = missing.ops.iter().eq(lacked.iter().take(limit));
        Ok((first, missing.more))
    }

    /// Both answer alike what a front lacks.
    fn assert_lacked(&self, rt: &impl Abort, front: &Front, lacked: &[Op]) {
        for limit in [0, 1, 256, lacked.len(), usize::MAX] {
            let missing = self.missing(front, lacked, limit).ok();
            assert_found(rt, missing, Some((true, limit < lacked.len())));
        }
    }

    /// Both answer alike past a front.
    fn assert_past(&self, rt: &impl Abort, alloc: Global, front: &Front) {
        let lacked = self.plain.missing(alloc, front).ok().expect(rt, MEMORY);
        self.assert_lacked(rt, front, lacked.as_slice());
    }

    /// Both answer alike row by row. What comes back is a front that reaches into some rows.
    fn assert_front(&mut self, rt: &impl Abort, alloc: Global) -> Front {
        let front = self.replica.front().ok().expect(rt, MEMORY);
        self.assert_rows(rt, &front);
        self.throw_front(alloc, &front).ok().expect(rt, MEMORY)
    }

    /// Both answer alike, of the whole journal and past a front that reaches into some rows.
    fn assert_alike(&mut self, rt: &impl Abort, alloc: Global) {
        assert_found(rt, self.replica.iter().eq(self.plain.ops.iter()), true);
        let front = self.assert_front(rt, alloc);
        self.assert_past(rt, alloc, &front);
    }

    /// Both take operations that are thrown, and answer alike after every 64 of them.
    fn assert_throws(&mut self, rt: &impl Abort, alloc: Global) {
        for count in 0..4096u32 {
            self.assert_throw(rt);
            if count % 64 == 0 {
                self.assert_alike(rt, alloc);
            }
        }
    }

    /// A copy of the record, which takes its place, answers as the list does too.
    fn assert_copy_alike(&mut self, rt: &impl Abort, alloc: Global) {
        self.replica = self.replica.copy().ok().expect(rt, MEMORY);
        self.assert_alike(rt, alloc);
    }
}

#[test]
fn lines_answer_as_a_list_does(rt: HostRuntime) {
    let mut both = Both::new(rt.alloc(), 88172645463325252);
    both.assert_throws(&rt, rt.alloc());
    both.assert_copy_alike(&rt, rt.alloc());
}

/// Takes an operation that is thrown.
fn throw_into(replica: &mut Replica, dice: &mut Dice) -> Option<()> {
    if let Some(op) = thrown(dice) {
        let _taken = replica.take(op).ok()?;
    }
    Some(())
}

/// Both and another record take operations that are thrown. What comes back is the other record.
fn throw_all(rt: &impl Abort, alloc: Global, both: &mut Both) -> Replica {
    let mut other = Replica::new(alloc);
    for _ in 0..256u32 {
        both.assert_throw(rt);
        assert_found(rt, throw_into(&mut other, &mut both.dice), Some(()));
    }
    other
}

#[test]
fn what_is_absorbed_comes_in_order(rt: HostRuntime) {
    let mut both = Both::new(rt.alloc(), 362436069362436069);
    let other = throw_all(&rt, rt.alloc(), &mut both);
    assert_found(&rt, both.absorb(rt.alloc(), other), Some(()));
    both.assert_alike(&rt, rt.alloc());
}
