//! The thread that owns all sockets and the desk of a site. In each turn it reads what has come, holds the new
//! operations, publishes them, and only then writes the answers.

ghost use Rattle.std.specs.Prelude.{◌≡◌, [], IfOk, None, OnErr, OnOk, true};
ghost use Rattle.std.specs.Arc.{arc_value};
ghost use Rattle.site_shared.specs.Accounts.{receipt_of};

use super::ask::Answer;
use super::errors::Errors;
use super::group_commit::{GroupCommit, NotKept};
use super::jobs::{Job, Task};
use super::lines::{LineContext, Room, do_lines};
use super::listeners::Listeners;
use super::metrics::Metrics;
use super::news::News;
use super::opening::Opening;
use super::places::Places;
use super::requests::Published;
use super::session::{Connection, Session};
use super::setup::ServeFault;
use super::thread_ends::LoopEnds;
use byte_ends::Drain;
use crossbeam_channel::Sender;
use mio::{Events, Interest, Poll, Token};
use site_ledger::Keeps;
use site_net::{Patience, Stop};
use site_shared::{DeskFault, Naming};
use std::alloc::{AllocError, Global};
use std::io;
use std::sync::Wait;
use std::time::{Clock, Duration};

/// The poll's tokens: of the listeners, and of the waker by which other threads wake the loop.
pub(super) const LISTENERS: Token = Token(usize::MAX);

pub(super) const WAKE: Token = Token(usize::MAX - 1);

/// How many milliseconds a turn waits for something to do.
const TICK_MS: u64 = 100;

/// How many milliseconds are left to write what waits once the site stops.
const LAST_MS: u64 = 400;

/// Above how many bytes of unread answers no further report or state is made: 256 MiB.
const WAITING_ANSWERS: usize = 268_435_456;

/// How many bytes of a session's unread answers count at most towards the limit for `front`: 8 MiB. So a few clients
/// that read a long state slowly don't block pulls.
const SHORT_ANSWERS: usize = 8_388_608;

/// How many bytes are read at once.
const BLOCK: usize = 65_536;

/// How many connections are accepted in a turn, and how many requests of pullers are handled.
const PER_TURN: usize = 64;

/// How many events of the poll are handled in a turn.
const EVENTS: usize = 256;

/// The event loop: its poll, its listeners, its limits and its clocks. The sessions are in `Places`.
#[derive(Drop)]
pub(super) struct EventLoop {
    alloc: Global,
    poll: Poll,
    events: Events,
    listeners: Option<Listeners>,
    buffer: Vec<u8>,
    patience: Patience,
    /// How many sessions there are to be; without end where that is 0.
    most: u64,
    /// How many connections may be open at once.
    connections: usize,
    accepted: u64,
    ended: u64,
    may_accept: bool,
    /// Which looks there was room for when the clock was looked at.
    room: Room,
    is_woken: bool,
    /// Whether the thread that prints reports is still to be notified of a publish.
    is_news_due: bool,
    /// How long the loop has run; when it last checked its sessions' time-outs, last reported a refused connection, and
    /// was stopped.
    now: Duration,
    looked: Duration,
    refused: Option<Duration>,
    stopped: Option<Duration>,
}

/// What an event loop is made of.
#[derive(Drop)]
pub(super) struct LoopParts {
    pub alloc: Global,
    pub poll: Poll,
    pub listeners: Listeners,
    pub patience: Patience,
    /// How many sessions there are to be; without end where that is 0.
    pub most: u64,
    /// How many connections may be open at once.
    pub connections: usize,
}

impl EventLoop {
    /// A loop that has accepted nothing yet.
    pub(super) fn new(loop_parts: LoopParts) -> Result<EventLoop, AllocError> {
        let events = Events::with_capacity(loop_parts.alloc, EVENTS)?;
        let buffer = vec![in loop_parts.alloc; 0u8; BLOCK]?;
        let LoopParts {
            alloc,
            poll,
            listeners,
            patience,
            most,
            connections,
        } = loop_parts;
        Ok(EventLoop {
            alloc,
            poll,
            events,
            listeners: Some(listeners),
            buffer,
            patience,
            most,
            connections,
            accepted: 0,
            ended: 0,
            may_accept: true,
            room: Room::All,
            is_woken: false,
            is_news_due: false,
            now: Duration::ZERO,
            looked: Duration::ZERO,
            refused: None,
            stopped: None,
        })
    }

    /// Waits until there is something to do, at most so long.
    fn wait<J: Naming>(&mut self, places: &mut Places<J>) {
        let limit = if places.listed() > 0 {
            Duration::ZERO
        } else {
            Duration::from_millis(TICK_MS)
        };
        let _interrupted = self.poll.poll(&mut self.events, Some(limit));
        for event in self.events.iter() {
            let token = event.token();
            if token == LISTENERS {
                self.may_accept = true;
            } else if token == WAKE {
                self.is_woken = true;
            } else {
                places.note_ready(token.0, event.is_read_closed());
            }
        }
    }

    /// Notes what time it is, and that the loop takes a turn.
    fn note_turn<R: Clock>(&mut self, rt: &R, metrics: &Metrics) {
        if let Some(now) = metrics.now(rt) {
            self.now = now;
        }
        metrics.note_turn(self.now, self.accepted.wrapping_sub(self.ended));
    }

    /// Accepts the connections that wait.
    fn accept<R: Wait, E: Drain, J: Naming>(
        &mut self,
        rt: &R,
        site: &Site<'_, E, J>,
        places: &mut Places<J>,
        ends: &LoopEnds<J>,
    ) {
        for _connection in 0..PER_TURN {
            let Ok(connection) = self.next_connection() else {
                self.note_not_accepted(rt, site);
                return;
            };
            let Some(connection) = connection else {
                return;
            };
            match places.free_one() {
                Some(place) => self.begin_session(rt, places, ends, place, connection),
                None => self.refuse(rt, site),
            }
        }
    }

    /// The next connection that waits, if one does and may be accepted. It fails where the system refuses it.
    fn next_connection(&mut self) -> io::Result<Option<Connection>> {
        if !self.may_accept || (self.most > 0 && self.accepted >= self.most) {
            return Ok(None);
        }
        let connection = match &mut self.listeners {
            Some(listeners) => listeners.accept(),
            None => Ok(None),
        };
        self.may_accept = match &connection {
            Ok(found) => found.is_some(),
            Err(_) => false,
        };
        connection
    }

    /// Reports that every place is taken, at most once a second.
    fn refuse<R: Wait, E: Drain, J: Naming>(&mut self, rt: &R, site: &Site<'_, E, J>) {
        site.metrics.note_refused();
        if self.may_say_refused() {
            site.errors
                .report_too_many(rt, self.alloc, self.connections);
        }
    }

    /// Reports that the system refused a connection, at most once a second. The connection stays queued for a later
    /// try.
    fn note_not_accepted<R: Wait, E: Drain, J: Naming>(&mut self, rt: &R, site: &Site<'_, E, J>) {
        if self.may_say_refused() {
            let open = self.accepted.wrapping_sub(self.ended);
            site.errors.report_not_accepted(rt, self.alloc, open);
        }
    }

    /// Whether a refused connection may be reported: no more than once a second. Notes the report.
    fn may_say_refused(&mut self) -> bool {
        if let Some(refused) = self.refused {
            if self.now.saturating_sub(refused) < Duration::from_secs(1) {
                return false;
            }
        }
        self.refused = Some(self.now);
        true
    }

    /// Begins a session at a place.
    fn begin_session<R: Wait, J: Naming>(
        &mut self,
        rt: &R,
        places: &mut Places<J>,
        ends: &LoopEnds<J>,
        place: usize,
        connection: Connection,
    ) {
        self.accepted = self.accepted.wrapping_add(1);
        let mut connection = connection;
        let both = Interest::READABLE | Interest::WRITABLE;
        let _registered = self
            .poll
            .registry()
            .register(&mut connection.stream, Token(place), both);
        let session = Session::new(self.alloc, self.accepted, connection, self.now);
        places.put_session(place, session);
        send_job(rt, ends, place, self.accepted, Task::Enter);
    }

    /// Takes the replies of the workers.
    fn take_replies<R: Wait, J: Naming>(
        &mut self,
        rt: &R,
        places: &mut Places<J>,
        ends: &LoopEnds<J>,
    ) {
        for _reply in 0..places.count() {
            let Ok(reply) = ends.replies.try_recv(rt) else {
                return;
            };
            if places.take_reply(reply, self.now) {
                self.ended = self.ended.wrapping_add(1);
            }
        }
    }

    /// Handles the lines of all listed sessions.
    fn do_sessions<R: Wait, J: Opening, K: Keeps>(
        &mut self,
        rt: &R,
        metrics: &Metrics,
        places: &mut Places<J>,
        ends: &LoopEnds<J>,
        group: &mut GroupCommit<J, K>,
    ) {
        for at in 0..places.listed() {
            let place = places.listed_at(at).unwrap_or(usize::MAX);
            if let Some(session) = places.session(place) {
                let context = LineContext {
                    alloc: self.alloc,
                    place,
                    number: session.number,
                    moment: self.now,
                    room: self.room,
                    metrics,
                    jobs: &ends.jobs,
                };
                let buffer = self.buffer.as_mut_slice();
                do_lines(rt, &context, buffer, session, group);
            }
        }
    }

    /// Writes the answers of all listed sessions, and ends those that are over.
    fn write_all<R: Wait, J: Naming>(
        &mut self,
        rt: &R,
        places: &mut Places<J>,
        ends: &LoopEnds<J>,
    ) {
        for at in 0..places.listed() {
            let place = places.listed_at(at).unwrap_or(usize::MAX);
            if let Some(session) = places.session(place) {
                session.write(self.now);
                if session.is_over() {
                    session.await_worker();
                    session.close();
                    let (number, ended) = (session.number, session.ended());
                    send_job(rt, ends, place, number, Task::Leave(ended));
                }
            }
        }
        places.unlist();
    }

    /// Ten times a second: has the listeners tried again, checks whether more answers may be made, and ends the
    /// sessions that timed out.
    fn look_at_clock<J: Naming>(&mut self, places: &mut Places<J>) {
        if self.now.saturating_sub(self.looked) < Duration::from_millis(TICK_MS) {
            return;
        }
        self.looked = self.now;
        self.may_accept = true;
        self.room = room_in(places);
        self.end_sessions(places);
    }

    /// Ends the sessions that timed out, and all sessions if the site stops.
    fn end_sessions<J: Naming>(&mut self, places: &mut Places<J>) {
        for place in 0..places.count() {
            if self.room != Room::None {
                places.unthrottle(place);
            }
            places.end_if_over(place, self.patience, self.now, self.stopped.is_some());
        }
    }

    /// Whether the loop ends: some time after the stop, or once all sessions have ended.
    fn is_over<R: Wait, J: Naming>(&mut self, rt: &R, places: &mut Places<J>, stop: &Stop) -> bool {
        if self.most > 0 && self.ended >= self.most {
            stop.ask(rt);
        }
        let Some(stopped) = self.stopped else {
            if stop.is_asked() {
                self.stopped = Some(self.now);
                self.listeners = None;
                self.end_sessions(places);
            }
            return false;
        };
        places.are_free() || self.now.saturating_sub(stopped) >= Duration::from_millis(LAST_MS)
    }
}

/// Which looks there is room for, given how many bytes of answers are unread.
fn room_in<J: Naming>(places: &Places<J>) -> Room {
    if places.waiting_bytes(usize::MAX) <= WAITING_ANSWERS {
        Room::All
    } else if places.waiting_bytes(SHORT_ANSWERS) <= WAITING_ANSWERS {
        Room::Fronts
    } else {
        Room::None
    }
}

/// Gives a worker a task of a session. The channel has room for one job per place.
fn send_job<R: Wait, J: Naming>(
    rt: &R,
    ends: &LoopEnds<J>,
    place: usize,
    session: u64,
    task: Task,
) {
    let job = Job {
        place,
        session,
        receipt: None,
        task,
    };
    let _sent = ends.jobs.send(rt, job);
}

/// Holds the operations that the pullers hand over.
fn hold_pulled<R: Wait, J: Opening, K: Keeps>(
    rt: &R,
    ends: &LoopEnds<J>,
    group: &mut GroupCommit<J, K>,
) {
    for _ask in 0..PER_TURN {
        if !group.has_room() {
            return;
        }
        let Ok(ask) = ends.asks.try_recv(rt) else {
            return;
        };
        group.hold(ask);
    }
}

/// Publishes what is held where somebody waits for that, and answers all who wait, so that nobody waits after it. It
/// brings news where anything was held since news was brought: a pull that handed over nothing new brings none. If memory
/// is refused that is reported, and what was held is published with what comes next: a journal file has it already.
fn publish<R: Wait, J: Opening, K: Keeps, E: Drain>(
    rt: &R,
    site: &Site<'_, E, J>,
    event_loop: &mut EventLoop,
    places: &mut Places<J>,
    pullers: &[Sender<Answer<J>, Global>],
    group: &mut GroupCommit<J, K>,
) -> Result<(), NotKept>
    ensures none { group.new.waiters ≡ [] }
    ensures over { OnErr result (group.new.entries.is_over ≡ true) }
{
    if group.is_idle() {
        return Ok(());
    }
    let is_more = group.has_held();
    event_loop.is_news_due |= is_more;
    let published = group.publish(rt, event_loop.alloc, places, pullers)?;
    if is_more {
        site.metrics.note_kept(group.kept_bytes());
    }
    match &published {
        Ok(receipt) if event_loop.is_news_due => {
            event_loop.is_news_due = false;
            site.metrics.note_news(event_loop.now);
            site.news.bring(rt, receipt);
        }
        Ok(_) => {}
        Err(_) => site
            .errors
            .report_serve_fault(rt, event_loop.alloc, ServeFault::NoMemory),
    }
    Ok(())
}

/// What the event loop of a site reports to, and what asks it to stop.
#[derive(Drop)]
pub(super) struct Site<'a, E: Drain, J: Naming> {
    pub metrics: &'a Metrics,
    pub news: &'a News<J>,
    pub errors: &'a Errors<E>,
    pub stop: &'a Stop,
}

/// A turn of the loop. Nobody waits after it.
fn take_turn<R: Wait + Clock, J: Opening, K: Keeps, E: Drain>(
    rt: &R,
    site: &Site<'_, E, J>,
    event_loop: &mut EventLoop,
    places: &mut Places<J>,
    ends: &LoopEnds<J>,
    group: &mut GroupCommit<J, K>,
) -> Result<(), NotKept>
    ensures none { group.new.waiters ≡ [] }
    ensures over { OnErr result (group.new.entries.is_over ≡ true) }
{
    event_loop.accept(rt, site, places, ends);
    if event_loop.is_woken {
        event_loop.is_woken = false;
        event_loop.take_replies(rt, places, ends);
        hold_pulled(rt, ends, group);
    }
    event_loop.do_sessions(rt, site.metrics, places, ends, group);
    publish(rt, site, event_loop, places, ends.answers.as_slice(), group)?;
    event_loop.write_all(rt, places, ends);
    // Time-outs are checked last, so that a long turn times out no session whose bytes had come.
    event_loop.look_at_clock(places);
    Ok(())
}

/// Serves until the site stops, and then handles the remaining requests of the pullers. Returns the last publish, which
/// has everything that was taken in.
pub(super) fn serve_sessions<R: Wait + Clock, J: Opening, K: Keeps, E: Drain>(
    rt: &R,
    site: Site<'_, E, J>,
    event_loop: EventLoop,
    ends: LoopEnds<J>,
    group: &mut GroupCommit<J, K>,
) -> Result<Published<J>, NotKept>
    ensures last { IfOk result (λ last. IfOk last
        (λ receipt. arc_value receipt ≡ receipt_of group.new.entries.account None)) }
    ensures over { OnErr result (group.new.entries.is_over ≡ true) }
{
    match Places::new(event_loop.alloc, event_loop.connections) {
        Ok(places) => serve_places(rt, site, event_loop, places, ends, group),
        Err(_) => Ok(Err(DeskFault::NoMemory(0))),
    }
}

/// Serves the sessions at these places, as `serve_sessions` does.
fn serve_places<R: Wait + Clock, J: Opening, K: Keeps, E: Drain>(
    rt: &R,
    site: Site<'_, E, J>,
    event_loop: EventLoop,
    places: Places<J>,
    ends: LoopEnds<J>,
    group: &mut GroupCommit<J, K>,
) -> Result<Published<J>, NotKept>
    ensures last { IfOk result (λ last. IfOk last
        (λ receipt. arc_value receipt ≡ receipt_of group.new.entries.account None)) }
    ensures over { OnErr result (group.new.entries.is_over ≡ true) }
{
    let (mut event_loop, mut places) = (event_loop, places);
    match take_turns(rt, &site, &mut event_loop, &mut places, &ends, group) {
        Ok(()) => end_asks(rt, event_loop.alloc, places, ends, group),
        Err(fault) => {
            places.refuse_waiting(event_loop.alloc, event_loop.now);
            Err(fault)
        }
    }
}

/// Takes turns until the site stops. Nobody waits then.
fn take_turns<R: Wait + Clock, J: Opening, K: Keeps, E: Drain>(
    rt: &R,
    site: &Site<'_, E, J>,
    event_loop: &mut EventLoop,
    places: &mut Places<J>,
    ends: &LoopEnds<J>,
    group: &mut GroupCommit<J, K>,
) -> Result<(), NotKept>
    ensures none { OnOk result (group.new.waiters ≡ []) }
    ensures over { OnErr result (group.new.entries.is_over ≡ true) }
{
    site.metrics.note_journal(group.kept_bytes());
    for _ in rt.forever() {
        event_loop.wait(places);
        event_loop.note_turn(rt, site.metrics);
        take_turn(rt, site, event_loop, places, ends, group)?;
        if event_loop.is_over(rt, places, site.stop) {
            return Ok(());
        }
    }
    unreachable!()
}

/// Does what the pullers ask until all of them have ended.
fn end_asks<R: Wait, J: Opening, K: Keeps>(
    rt: &R,
    alloc: Global,
    places: Places<J>,
    ends: LoopEnds<J>,
    group: &mut GroupCommit<J, K>,
) -> Result<Published<J>, NotKept>
    requires { group.old.waiters ≡ [] }
    ensures last { IfOk result (λ last. IfOk last
        (λ receipt. arc_value receipt ≡ receipt_of group.new.entries.account None)) }
    ensures over { OnErr result (group.new.entries.is_over ≡ true) }
{
    let LoopEnds {
        jobs,
        replies,
        asks,
        answers,
    } = ends;
    // The workers end with what they do now: nobody waits for the rest.
    drop(jobs);
    drop(replies);
    let mut places = places;
    for ask in asks.iter(rt) {
        group.hold(ask);
        let _published = group.publish(rt, alloc, &mut places, answers.as_slice())?;
    }
    group.publish(rt, alloc, &mut places, answers.as_slice())
}
