//! A script between two sites, event by event.

use super::operations::{Deed, draft_of};
use super::turns::{Call, Memory, Seen, assert_each};
use replica_core::Front;
use std::alloc::Allocator;
use world_core::{Event, Reply, World, WorldFault};

/// An event of the script.
#[derive(Clone, Copy)]
enum Step {
    /// A site takes something in.
    Intake(u16, Deed),
    /// A site sends all that it has.
    Send(u16),
    /// A packet is delivered to a site.
    Deliver(u64, u16),
    Save(u16),
    Restart(u16, u32),
}

/// Each of two sites takes something in, and both pass on what they have; the second goes back to what it saved.
const SCRIPT: [Step; 9] = [
    Step::Intake(1, Deed::PatchSet(1)),
    Step::Intake(2, Deed::Vote(1, 1)),
    Step::Send(1),
    Step::Deliver(1, 2),
    Step::Send(2),
    Step::Deliver(2, 1),
    Step::Save(2),
    Step::Intake(2, Deed::Abandon),
    Step::Restart(2, 2),
];

/// How many operations the sites have after so many events.
const COUNTS: [(usize, usize); 10] = [
    (0, 0),
    (1, 0),
    (1, 1),
    (1, 1),
    (1, 2),
    (1, 2),
    (2, 2),
    (2, 2),
    (2, 3),
    (2, 2),
];

/// The event of an intake.
fn intake<A: Allocator + Copy>(alloc: A, site: u16, deed: Deed) -> Option<Event<A>> {
    let draft = draft_of(alloc, deed)?;
    Some(Event::Intake { site, draft })
}

/// The event of a step.
fn event_of<A: Allocator + Copy>(alloc: A, step: Step) -> Option<Event<A>> {
    match step {
        Step::Intake(site, deed) => intake(alloc, site, deed),
        Step::Send(site) => Some(Event::Send {
            site,
            front: Front::new(alloc),
        }),
        Step::Deliver(packet, site) => Some(Event::Deliver { packet, site }),
        Step::Save(site) => Some(Event::Save { site }),
        Step::Restart(site, start) => Some(Event::Restart { site, start }),
    }
}

/// The event after the first `count`.
fn next_event<A: Allocator + Copy>(alloc: A, count: usize) -> Option<Event<A>> {
    event_of(alloc, *SCRIPT.get(count)?)
}

/// Whether the world did the event after the first `count`.
fn play<A: Allocator + Copy>(alloc: A, world: &mut World<A>, count: usize) -> bool {
    next_event(alloc, count).is_some_and(|event| world.step(event).is_ok())
}

/// The world of two sites after the first `count` events.
fn world_of<A: Allocator + Copy>(alloc: A, count: usize) -> Option<World<A>> {
    let mut world = World::new(alloc, 2).ok()?;
    let mut is_played = true;
    for place in 0..count {
        is_played = is_played && play(alloc, &mut world, place);
    }
    if is_played { Some(world) } else { None }
}

/// How many operations a site has.
fn count<A: Allocator + Copy>(world: &World<A>, site: u16) -> usize {
    world.replica(site).map_or(0, |replica| replica.len())
}

/// Whether both sites have equal states.
fn is_equal<A: Allocator + Copy>(world: &World<A>) -> bool {
    match (world.replica(1), world.replica(2)) {
        (Some(first), Some(second)) => first.same_state(second),
        _ => false,
    }
}

/// Whether the sites have as many operations as after so many events, and equal states where these are the same ones.
fn has_played<A: Allocator + Copy>(world: &World<A>, events: usize) -> bool {
    let counts = (count(world, 1), count(world, 2));
    COUNTS.get(events).copied() == Some(counts) && (counts != (2, 2) || is_equal(world))
}

/// An event, after those before it.
#[derive(Clone, Copy)]
struct Plays(usize);

impl Call for Plays {
    fn seen(self, memory: &Memory, granted: u32) -> Option<Seen> {
        let event = next_event(memory, self.0)?;
        let world = world_of(memory, self.0)?;
        Some(played(memory, world, event, self.0, granted))
    }
}

/// Whether an event was refused for want of memory: a delivery after the operations that the site had already, which is
/// one of the last packet.
fn is_refused(answer: Result<Reply, WorldFault>, count: usize) -> bool {
    match answer {
        Err(WorldFault::NoMemory(taken)) => taken <= count / 5,
        _ => false,
    }
}

/// What is seen where the world after the first `count` events plays the next one.
fn played<'a>(
    memory: &'a Memory,
    mut world: World<&'a Memory>,
    event: Event<&'a Memory>,
    count: usize,
    granted: u32,
) -> Seen {
    let after = count.saturating_add(1);
    memory.refuse_after(granted);
    let failed = is_refused(world.step(event), count);
    let refused = memory.grant_all();
    let stated = has_played(&world, if failed { count } else { after });
    let is_played = !failed || play(memory, &mut world, count);
    Seen {
        failed,
        refused,
        stated,
        whole: is_played && has_played(&world, after),
    }
}

/// Two restarts of a site, as one run.
#[derive(Clone, Copy)]
struct Runs;

/// The events of two restarts of site 1.
fn restarts<A: Allocator + Copy>(alloc: A) -> Option<Vec<Event<A>, A>> {
    let mut events = Vec::new(alloc);
    for start in [2, 3] {
        events.push(Event::Restart { site: 1, start }).ok()?;
    }
    Some(events)
}

impl Call for Runs {
    fn seen(self, memory: &Memory, granted: u32) -> Option<Seen> {
        let world = World::new(memory, 1).ok()?;
        ran(memory, world, restarts(memory)?, granted)
    }
}

/// Whether both restarts of a run were done; none where memory was refused for its answers.
fn are_done<A: Allocator + Copy>(world: &mut World<A>, events: Vec<Event<A>, A>) -> Option<bool> {
    let answers = world.run(events).ok()?;
    Some(answers.as_slice() == [Ok(Reply::Restarted), Ok(Reply::Restarted)].as_slice())
}

/// What is seen of the run: without room for its answers neither restart happens, so that both can be done again.
fn ran<'a>(
    memory: &'a Memory,
    mut world: World<&'a Memory>,
    events: Vec<Event<&'a Memory>, &'a Memory>,
    granted: u32,
) -> Option<Seen> {
    memory.refuse_after(granted);
    let done = are_done(&mut world, events);
    let refused = memory.grant_all();
    let again = are_done(&mut world, restarts(memory)?);
    Some(Seen {
        failed: done.is_none(),
        refused,
        stated: done != Some(false),
        whole: again == Some(done.is_none()),
    })
}

#[test]
fn a_refused_event_changes_nothing(rt: HostRuntime) {
    for (count, least) in (0..).zip([4, 4, 1, 3, 3, 3, 0, 0, 1]) {
        assert_each(&rt, rt.alloc(), Plays(count), least);
    }
}

#[test]
fn a_run_without_room_for_its_answers_does_nothing(rt: HostRuntime) {
    assert_each(&rt, rt.alloc(), Runs, 1);
}
