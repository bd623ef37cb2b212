//! Serves the pages: one thread that has all connections.

use super::client::Client;
use super::clients::Clients;
use super::endpoint::{LISTENER, PageEndpoint, PageFault};
use super::pages::Pages;
use super::service::PageService;
use http::header::HeaderValue;
use http_server::Service;
use httpdate::HttpDate;
use mio::net::TcpStream;
use mio::{Events, Interest, Token};
use site_net::Stop;
use std::alloc::{AllocError, Global};
use std::sync::Wait;
use std::time::{Clock, Duration, Instant, SystemTime};

/// For how many seconds a turn waits for an event.
const TICK: u64 = 1;

/// For how many milliseconds the loop pauses after a failed poll.
const PAUSE_MS: u64 = 100;

/// How many connections are accepted in a turn.
const PER_TURN: usize = 64;

/// How many events of the poll are handled in a turn.
const EVENTS: usize = 256;

/// How many bytes are dropped at once.
const BLOCK: usize = 4_096;

/// What the loop of the pages needs memory for.
#[derive(Drop)]
struct LoopMemory {
    scratch: Vec<u8>,
    events: Events,
    clients: Clients,
}

/// The loop that serves the connections.
#[derive(Drop)]
struct PageLoop {
    alloc: Global,
    endpoint: PageEndpoint,
    memory: LoopMemory,
    begun: Option<Instant>,
    /// How long the loop has run, and when the date was last looked at.
    now: Duration,
    dated: Option<Duration>,
    may_accept: bool,
}

/// Serves pages at an endpoint until the stop is asked, to this machine and to these hosts. It notices a stop at once
/// where the endpoint's waker is woken after it, else within a second. At most 200 connections are open: one more takes
/// the place of the one that has been silent longest. A request has 10 seconds to come from its first byte on, and a
/// connection may be silent for 60. While more than 64 MiB of answers wait to be sent no request is read, and a
/// connection that takes nothing of its answer for a second is closed. Neither a connection's failure nor the system's
/// refusal of one ends this. Refusal: 1 `NoMemory`, memory was refused before the first request.
pub fn serve_pages<R: Wait + Clock, P: Pages + Drop>(
    rt: &R,
    alloc: Global,
    endpoint: PageEndpoint,
    hosts: &[String],
    stop: &Stop,
    pages: P,
) -> Result<(), PageFault> {
    let Ok(memory) = LoopMemory::new(alloc) else {
        return Err(PageFault::NoMemory);
    };
    let mut page_loop = PageLoop::new(rt, alloc, endpoint, memory);
    let mut service = PageService {
        alloc,
        hosts,
        date: None,
        made: 0,
        pages,
    };
    for _ in rt.forever() {
        if stop.is_asked() {
            return Ok(());
        }
        page_loop.turn(rt, stop, &mut service);
    }
    unreachable!()
}

impl LoopMemory {
    /// Without a connection.
    fn new(alloc: Global) -> Result<LoopMemory, AllocError> {
        Ok(LoopMemory {
            scratch: vec![in alloc; 0u8; BLOCK]?,
            events: Events::with_capacity(alloc, EVENTS)?,
            clients: Clients::new(alloc)?,
        })
    }
}

impl PageLoop {
    /// A loop with this memory.
    fn new<R: Clock>(
        rt: &R,
        alloc: Global,
        endpoint: PageEndpoint,
        memory: LoopMemory,
    ) -> PageLoop {
        PageLoop {
            alloc,
            endpoint,
            memory,
            begun: Instant::now(rt).ok(),
            now: Duration::ZERO,
            dated: None,
            may_accept: true,
        }
    }

    /// Waits for something to do, and does it.
    fn turn<R: Wait + Clock, P: Pages>(
        &mut self,
        rt: &R,
        stop: &Stop,
        service: &mut PageService<'_, P>,
    ) {
        self.wait(rt, stop);
        self.note_time(rt, service);
        self.accept();
        self.memory
            .clients
            .work(service, self.memory.scratch.as_mut_slice(), self.now);
        self.memory.clients.close(self.now);
    }

    /// Waits until there is something to do, for a second at most.
    fn wait<R: Wait + Clock>(&mut self, rt: &R, stop: &Stop) {
        let limit = if self.memory.clients.have_more() {
            Duration::ZERO
        } else {
            Duration::from_secs(TICK)
        };
        if self
            .endpoint
            .poll
            .poll(&mut self.memory.events, Some(limit))
            .is_err()
        {
            stop.rest(rt, Duration::from_millis(PAUSE_MS));
        }
        self.note_events();
    }

    /// Notes which sockets have something to do.
    fn note_events(&mut self) {
        for event in self.memory.events.iter() {
            let token = event.token();
            if token == LISTENER {
                self.may_accept = true;
            } else {
                self.memory.clients.note_ready(token.0);
            }
        }
    }

    /// Notes what time it is, and once a second the date; then the listener is tried again.
    fn note_time<R: Clock, P: Pages>(&mut self, rt: &R, service: &mut PageService<'_, P>) {
        if let Some(begun) = &self.begun {
            if let Ok(now) = begun.elapsed(rt) {
                self.now = now;
            }
        }
        if is_due(self.dated, self.now) {
            self.dated = Some(self.now);
            self.may_accept = true;
            service.date = date_of(rt, self.alloc);
        }
    }

    /// Accepts the connections that wait.
    fn accept(&mut self) {
        for _ in 0..PER_TURN {
            if !self.may_accept {
                return;
            }
            match self.endpoint.accept() {
                Ok(stream) => self.begin_client(stream),
                // Nothing waits, or the system has no descriptor left: the listener is tried again within a second.
                Err(_) => self.may_accept = false,
            }
        }
    }

    /// Begins to serve a connection.
    fn begin_client(&mut self, stream: TcpStream) {
        let mut stream = stream;
        let place = self.memory.clients.place();
        let both = Interest::READABLE | Interest::WRITABLE;
        let registry = self.endpoint.poll.registry();
        if registry.register(&mut stream, Token(place), both).is_ok() {
            let client = Client::new(self.alloc, self.endpoint.keys, stream, self.now);
            self.memory.clients.insert(place, client);
        }
    }
}

/// Whether the date was last looked at a second ago, or not yet.
fn is_due(dated: Option<Duration>, now: Duration) -> bool {
    match dated {
        Some(dated) => now.saturating_sub(dated) >= Duration::from_secs(TICK),
        None => true,
    }
}

/// The value of the field `Date`, where the clock can be read.
fn date_of<R: Clock>(rt: &R, alloc: Global) -> Option<HeaderValue> {
    let now = SystemTime::now(rt).ok()?;
    let since = now.duration_since(SystemTime::UNIX_EPOCH).ok()?;
    let date = HttpDate::from_unix_secs(since.as_secs()).ok()?;
    HeaderValue::from_bytes(alloc, date.to_bytes().as_slice()).ok()
}
