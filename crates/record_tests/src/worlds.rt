//! Scripts worked out by hand.

use super::asserts::assert_found;
use deeds::{Deed, draft_of};
use replica_core::{Front, Row};
use review_ops::{BodyFault, Draft, Stamp};
use std::alloc::Global;
use std::process::Abort;
use world_core::{Event, Reply, World, WorldFault};

/// What a test lacks where memory is refused that it counts on.
const MEMORY: &str = "memory";

/// What an event answers.
type Answer = Result<Reply, WorldFault>;

/// An event of a script. The first number is the site, but for `Deliver`, where it is the packet.
#[derive(Clone, Copy)]
enum Step {
    /// The site takes in that this change is merged.
    Merged(u16, u32),
    /// The site takes in that a voter scores patch set 1 of change 101.
    Vote(u16, i8),
    /// The site sends what the empty front lacks.
    SendAll(u16),
    /// The site sends what a front lacks that goes as far as this in the first row of site 1.
    SendPast(u16, u64),
    /// The site sends what another site lacks.
    SendTo(u16, u16),
    /// The packet is delivered to a site.
    Deliver(u64, u16),
    Save(u16),
    Restart(u16, u32),
}

/// A site takes in that a change is merged.
fn merged(site: u16, change: u32) -> Event {
    Event::Intake {
        site,
        draft: Draft::Merged { change },
    }
}

/// A site takes in that a voter scores patch set 1 of change 101.
fn vote(alloc: Global, site: u16, value: i8) -> Option<Event> {
    let draft = draft_of(alloc, 101, Deed::Vote(1, "Workflow", "ann", value))?;
    Some(Event::Intake { site, draft })
}

/// The first row of site 1.
const FIRST_ROW: Row = Row { site: 1, start: 1 };

/// The front that goes as far as this in the first row of site 1.
fn front_to(alloc: Global, seq: u64) -> Option<Front> {
    let mut front = Front::new(alloc);
    front.raise(FIRST_ROW, seq).ok()?;
    Some(front)
}

/// The front of a site, where there is one.
fn front_of(world: &World, site: u16) -> Option<Front> {
    world.replica(site)?.front().ok()
}

/// A site sends what the empty front lacks.
fn send_all(alloc: Global, site: u16) -> Event {
    let front = Front::new(alloc);
    Event::Send { site, front }
}

/// A site sends what a front lacks that goes as far as this in the first row of site 1.
fn send_past(alloc: Global, site: u16, seq: u64) -> Option<Event> {
    let front = front_to(alloc, seq)?;
    Some(Event::Send { site, front })
}

/// A site sends what another site lacks.
fn send_to(world: &World, site: u16, other: u16) -> Option<Event> {
    let front = front_of(world, other)?;
    Some(Event::Send { site, front })
}

/// The event of a step, where memory suffices for it.
fn event_of(alloc: Global, world: &World, step: Step) -> Option<Event> {
    match step {
        Step::Merged(site, change) => Some(merged(site, change)),
        Step::Vote(site, value) => vote(alloc, site, value),
        Step::SendAll(site) => Some(send_all(alloc, site)),
        Step::SendPast(site, seq) => send_past(alloc, site, seq),
        Step::SendTo(site, other) => send_to(world, site, other),
        Step::Deliver(packet, site) => Some(Event::Deliver { packet, site }),
        Step::Save(site) => Some(Event::Save { site }),
        Step::Restart(site, start) => Some(Event::Restart { site, start }),
    }
}

/// What the world answers to a step, where memory suffices for it.
fn answer_to(alloc: Global, world: &mut World, step: Step) -> Option<Answer> {
    let event = event_of(alloc, world, step)?;
    Some(world.step(event))
}

/// The steps have these answers, one after the other.
fn assert_answers(rt: &impl Abort, alloc: Global, world: &mut World, steps: &[(Step, Answer)]) {
    for (number, (step, wanted)) in (1u64..).zip(steps) {
        let answer = answer_to(alloc, world, *step);
        assert_found(rt, (number, answer), (number, Some(*wanted)));
    }
}

/// A world of so many sites.
fn world_of(rt: &impl Abort, alloc: Global, sites: u16) -> World {
    World::new(alloc, sites).ok().expect(rt, MEMORY)
}

/// The answer of an intake.
fn took(time: u64, site: u16, start: u32, seq: u64) -> Answer {
    match Stamp::new(time, site, start, seq) {
        Some(stamp) => Ok(Reply::Took(stamp)),
        None => Err(WorldFault::ClockSpent),
    }
}

/// The answer of a send.
fn packet(number: u64, count: usize, more: bool) -> Answer {
    Ok(Reply::Packet {
        number,
        count,
        more,
    })
}

/// The answer of a delivery.
fn delivered(count: usize) -> Answer {
    Ok(Reply::Delivered(count))
}

/// How far a site's front goes in the first row of site 1, where there is such a site.
fn reach(world: &World, site: u16) -> Option<u64> {
    Some(front_of(world, site)?.reach(FIRST_ROW))
}

/// The steps have these answers, and then the front of site 2 goes so far in the first row of site 1.
fn assert_reach(
    rt: &impl Abort,
    alloc: Global,
    world: &mut World,
    steps: &[(Step, Answer)],
    wanted: u64,
) {
    assert_answers(rt, alloc, world, steps);
    assert_found(rt, reach(world, 2), Some(wanted));
}

#[test]
fn fronts_ask_for_what_is_missing(rt: HostRuntime) {
    let mut world = world_of(&rt, rt.alloc(), 2);
    let apart = [
        (Step::Merged(1, 5), took(1, 1, 1, 1)),
        (Step::SendAll(1), packet(1, 1, false)),
        (Step::Merged(1, 6), took(2, 1, 1, 2)),
        (Step::SendPast(1, 1), packet(2, 1, false)),
        (Step::Deliver(2, 2), delivered(1)),
    ];
    let together = [
        (Step::SendTo(1, 2), packet(3, 2, false)),
        (Step::Deliver(3, 2), delivered(1)),
    ];
    assert_reach(&rt, rt.alloc(), &mut world, &apart, 0);
    assert_reach(&rt, rt.alloc(), &mut world, &together, 2);
}

/// How many operations a packet has, where there is one of that number.
fn packet_len(world: &World, number: u64) -> Option<usize> {
    Some(world.packet(number)?.len())
}

/// How many operations a site has, where there is one of that number.
fn site_len(world: &World, site: u16) -> Option<usize> {
    Some(world.replica(site)?.len())
}

/// The packet and the site of a number have as many operations, where there are such ones.
fn assert_lens(
    rt: &impl Abort,
    world: &World,
    number: u16,
    wanted: (Option<usize>, Option<usize>),
) {
    let packet = packet_len(world, u64::from(number));
    assert_found(rt, (packet, site_len(world, number)), wanted);
}

#[test]
fn sites_and_packets_are_numbered_from_one(rt: HostRuntime) {
    let mut world = world_of(&rt, rt.alloc(), 2);
    let steps = [
        (Step::Merged(2, 5), took(1, 2, 1, 1)),
        (Step::SendTo(2, 1), packet(1, 1, false)),
        (Step::SendTo(1, 1), packet(2, 0, false)),
    ];
    assert_answers(&rt, rt.alloc(), &mut world, &steps);
    for (number, packets, sites) in [
        (0, None, None),
        (1, Some(1), Some(0)),
        (2, Some(0), Some(1)),
        (3, None, None),
    ] {
        assert_lens(&rt, &world, number, (packets, sites));
    }
}

/// Site 1 takes in that change 5 is merged, as often as that.
fn take_merges(rt: &impl Abort, world: &mut World, count: u64) {
    for time in 1..count.saturating_add(1) {
        let answer = world.step(merged(1, 5));
        assert_found(rt, answer, took(time, 1, 1, time));
    }
}

#[test]
fn a_packet_has_256_operations_at_most(rt: HostRuntime) {
    let mut world = world_of(&rt, rt.alloc(), 2);
    take_merges(&rt, &mut world, 257);
    let steps = [
        (Step::SendTo(1, 2), packet(1, 256, true)),
        (Step::Deliver(1, 2), delivered(256)),
        (Step::SendTo(1, 2), packet(2, 1, false)),
        (Step::Deliver(2, 2), delivered(1)),
        (Step::Deliver(1, 2), delivered(0)),
    ];
    assert_reach(&rt, rt.alloc(), &mut world, &steps, 257);
}

/// The events of steps.
fn events_of(alloc: Global, world: &World, steps: &[(Step, Answer)]) -> Option<Vec<Event>> {
    let mut events = Vec::new(alloc);
    for (step, _) in steps {
        events.push(event_of(alloc, world, *step)?).ok()?;
    }
    Some(events)
}

/// What the world answers to steps in one run.
fn answers_to(alloc: Global, world: &mut World, steps: &[(Step, Answer)]) -> Option<Vec<Answer>> {
    let events = events_of(alloc, world, steps)?;
    world.run(events).ok()
}

/// The answers are those of the steps, one after the other.
fn assert_each(rt: &impl Abort, answers: &[Answer], steps: &[(Step, Answer)]) {
    assert_found(rt, answers.len(), steps.len());
    for (answer, (_, wanted)) in answers.iter().zip(steps) {
        assert_found(rt, answer, wanted);
    }
}

/// The steps have these answers in one run.
fn assert_run(rt: &impl Abort, alloc: Global, world: &mut World, steps: &[(Step, Answer)]) {
    let answers = answers_to(alloc, world, steps).expect(rt, MEMORY);
    assert_each(rt, answers.as_slice(), steps);
}

/// Whether a site knows a change, where there is such a site.
fn knows(world: &World, site: u16, change: u32) -> Option<bool> {
    Some(world.replica(site)?.state().change(change).is_some())
}

/// Of site 1: how far its front goes in its first row, how many operations it has, and whether it knows change 6.
fn gone_back(world: World) -> (Option<u64>, Option<usize>, Option<bool>) {
    (reach(&world, 1), site_len(&world, 1), knows(&world, 1, 6))
}

#[test]
fn a_restart_goes_back_to_the_save(rt: HostRuntime) {
    let mut world = world_of(&rt, rt.alloc(), 1);
    let steps = [
        (Step::Merged(1, 5), took(1, 1, 1, 1)),
        (Step::Save(1), Ok(Reply::Saved)),
        (Step::Merged(1, 6), took(2, 1, 1, 2)),
        (Step::Restart(1, 1), Err(WorldFault::StartUsed)),
        (Step::Restart(1, 2), Ok(Reply::Restarted)),
        (Step::Merged(1, 7), took(2, 1, 2, 1)),
        (Step::Restart(2, 1), Err(WorldFault::NoSite)),
        (Step::Deliver(1, 1), Err(WorldFault::NoPacket)),
        (
            Step::Merged(1, 0),
            Err(WorldFault::BadBody(BodyFault::BadChange)),
        ),
    ];
    assert_run(&rt, rt.alloc(), &mut world, &steps);
    assert_found(&rt, gone_back(world), (Some(1), Some(2), Some(false)));
}

/// Steps with several faults, and starts that are used.
const REFUSED: [(Step, Answer); 8] = [
    (Step::SendAll(2), Err(WorldFault::NoSite)),
    (Step::Save(0), Err(WorldFault::NoSite)),
    (Step::Merged(2, 0), Err(WorldFault::NoSite)),
    (Step::Deliver(0, 2), Err(WorldFault::NoSite)),
    (Step::Deliver(0, 1), Err(WorldFault::NoPacket)),
    (Step::Restart(1, 0), Err(WorldFault::StartUsed)),
    (Step::Restart(1, u32::MAX), Ok(Reply::Restarted)),
    (Step::Restart(1, u32::MAX), Err(WorldFault::StartUsed)),
];

#[test]
fn the_least_refusal_is_answered(rt: HostRuntime) {
    let fault = WorldFault::NoPacket;
    assert_found(&rt, (fault.number(), fault.name()), (2, "NoPacket"));
    let mut world = world_of(&rt, rt.alloc(), 1);
    assert_answers(&rt, rt.alloc(), &mut world, &REFUSED);
}

/// Whether the sites 1 and 2 have equal states, where there are such sites.
fn have_equal_states(world: &World) -> Option<bool> {
    Some(world.replica(1)?.same_state(world.replica(2)?))
}

/// The steps have these answers, and then the sites 1 and 2 have equal states or not.
fn assert_equal_states(
    rt: &impl Abort,
    alloc: Global,
    world: &mut World,
    steps: &[(Step, Answer)],
    wanted: bool,
) {
    assert_answers(rt, alloc, world, steps);
    assert_found(rt, have_equal_states(world), Some(wanted));
}

#[test]
fn sites_that_took_the_same_have_equal_states(rt: HostRuntime) {
    let mut world = world_of(&rt, rt.alloc(), 2);
    let votes = [
        (Step::Vote(1, 1), took(1, 1, 1, 1)),
        (Step::Vote(2, 2), took(1, 2, 1, 1)),
    ];
    let exchanged = [
        (Step::SendTo(1, 2), packet(1, 1, false)),
        (Step::SendTo(2, 1), packet(2, 1, false)),
        (Step::Deliver(2, 1), delivered(1)),
        (Step::Deliver(1, 2), delivered(1)),
        (Step::Deliver(1, 1), delivered(0)),
    ];
    assert_equal_states(&rt, rt.alloc(), &mut world, &votes, false);
    assert_equal_states(&rt, rt.alloc(), &mut world, &exchanged, true);
}
