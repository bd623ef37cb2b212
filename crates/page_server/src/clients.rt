//! The connections that are open, each at its place.

ghost use Rattle.std.specs.Prelude.{◌≡◌, ◌<◌, Some, slice_set, vec_len};

use super::client::Client;
use super::pages::Pages;
use super::service::PageService;
use std::alloc::{AllocError, Global};
use std::time::Duration;

/// How many connections may be open at once.
pub(crate) const MOST: usize = 200;

/// How many bytes of answers may wait to be sent before no more are made: 64 MiB.
const MOST_WAITING: u64 = 67_108_864;

/// The connections that are open, each at its place, of which there are 200.
#[derive(Drop)]
pub(crate) struct Clients {
    places: Vec<Option<Client>>,
    ghost few: { vec_len places ≡ 200 },
}

impl Clients {
    /// No connection is open.
    pub(crate) fn new(alloc: Global) -> Result<Clients, AllocError> {
        let mut places = Vec::with_capacity(alloc, MOST)?;
        for _count in 0..MOST {
            places.push(None)?;
        }
        Ok(Clients { places })
    }

    /// Notes that the socket at a place has something to read, or takes more.
    pub(crate) fn note_ready(&mut self, place: usize) {
        if let Some(client) = self.places.get_mut(place) {
            note_ready(client);
        }
    }

    /// Reads, answers and writes what can be done now. Nothing is read where too much waits to be sent.
    pub(crate) fn work<P: Pages>(
        &mut self,
        service: &mut PageService<'_, P>,
        scratch: &mut [u8],
        now: Duration,
    ) {
        let mut waiting = self.waiting();
        for place in self.places.iter_mut() {
            if let Some(client) = place {
                let before = client.waiting();
                client.work(service, scratch, now, waiting <= MOST_WAITING);
                waiting = waiting
                    .saturating_sub(before)
                    .saturating_add(client.waiting());
            }
        }
    }

    /// Closes the connections that are over.
    pub(crate) fn close(&mut self, now: Duration) {
        let has_room = self.waiting() <= MOST_WAITING;
        for place in self.places.iter_mut() {
            close_if_over(place, now, has_room);
        }
    }

    /// How many bytes of answers wait to be sent.
    fn waiting(&self) -> u64 {
        let mut waiting: u64 = 0;
        for client in self.places.iter().flatten() {
            waiting = waiting.saturating_add(client.waiting());
        }
        waiting
    }

    /// Whether a connection has something to do that doesn't wait for its other side.
    pub(crate) fn have_more(&self) -> bool {
        self.places.iter().flatten().any(|client| client.has_more())
    }

    /// A place for a new connection: a free one, or else that of the connection that has been silent longest.
    pub(crate) fn place(&self) -> usize
        ensures { result < 200 }
    {
        let mut best = 0;
        let mut since = Duration::MAX;
        for (at, place) in self.places.iter().enumerate() {
            let heard = heard_at(place);
            if heard < since {
                best = at;
                since = heard;
            }
        }
        best
    }

    /// Puts a connection at a place, which is below 200. What was there is closed, and the others stay.
    pub(crate) fn insert(&mut self, place: usize, client: Client)
        requires { place < 200 }
        ensures { self.new.places.items ≡ slice_set self.old.places.items place (Some client) }
    {
        put(&mut self.places[place], Some(client));
    }
}

/// Notes that the socket at a place has something to read, or takes more.
fn note_ready(place: &mut Option<Client>) {
    if let Some(client) = place {
        client.note_ready();
    }
}

/// Closes the connection at a place if it is over.
fn close_if_over(place: &mut Option<Client>, now: Duration, has_room: bool) {
    if is_over(place, now, has_room) {
        put(place, None);
    }
}

/// Puts a connection at a place, or none. What was there is closed.
fn put(place: &mut Option<Client>, client: Option<Client>)
    ensures { place.new ≡ client }
{
    *place = client;
}

/// Whether the connection at a place is over.
fn is_over(place: &Option<Client>, now: Duration, has_room: bool) -> bool {
    match place {
        Some(client) => client.is_over(now, has_room),
        None => false,
    }
}

/// When something last came or went at a place; before all time where it is free.
fn heard_at(place: &Option<Client>) -> Duration {
    match place {
        Some(client) => client.heard().saturating_add(Duration::from_nanos(1)),
        None => Duration::ZERO,
    }
}
