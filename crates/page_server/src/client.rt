//! A connection that is open.

use super::endpoint::limits;
use super::pages::Pages;
use super::service::PageService;
use http_server::Connection;
use mio::net::TcpStream;
use std::alloc::Global;
use std::hash::RandomState;
use std::io;
use std::io::{ErrorKind, Read};
use std::net::Shutdown;
use std::time::Duration;

/// The time-out of a request, in seconds from its first byte.
const REQUEST_LIMIT: u64 = 10;

/// The idle time-out of a connection, in seconds: nothing is received, and nothing can be sent.
const SILENCE_LIMIT: u64 = 60;

/// The time-out, in seconds, of a connection that reads nothing of its answer while no further answers may be made.
const STUCK_LIMIT: u64 = 1;

/// For how many seconds received bytes are discarded after the last answer. If the connection were closed at once, that
/// answer could be lost (RFC 9112, section 9.6).
const LEAVE_LIMIT: u64 = 1;

/// How many reads and writes are done in a turn.
const MOVES: usize = 16;

/// A connection that is open, with its socket.
#[derive(Drop)]
pub(crate) struct Client {
    stream: TcpStream,
    connection: Connection,
    /// Whether the socket may have more to read, and whether it may take more.
    may_read: bool,
    may_write: bool,
    /// How many bytes of its answers wait to be sent, but for a few of their heads.
    waiting: u64,
    /// Whether further answers may be made, as of the last turn.
    has_room: bool,
    /// When something last came or went.
    heard: Duration,
    /// When the first byte of a request came that isn't answered yet.
    begun: Option<Duration>,
    /// When all was sent.
    left: Option<Duration>,
    is_over: bool,
}

impl Client {
    /// A connection of which nothing was read.
    pub(crate) fn new(
        alloc: Global,
        keys: RandomState,
        stream: TcpStream,
        now: Duration,
    ) -> Client {
        Client {
            stream,
            connection: Connection::new(alloc, keys, limits()),
            may_read: true,
            may_write: true,
            waiting: 0,
            has_room: true,
            heard: now,
            begun: None,
            left: None,
            is_over: false,
        }
    }

    /// Notes that the socket has something to read, or takes more, or has failed.
    pub(crate) fn note_ready(&mut self) {
        self.may_read = true;
        self.may_write = true;
    }

    /// When something last came or went.
    pub(crate) fn heard(&self) -> Duration {
        self.heard
    }

    /// How many bytes of its answers wait to be sent.
    pub(crate) fn waiting(&self) -> u64 {
        self.waiting
    }

    /// Whether there is something to do that doesn't wait for the other side, or for room.
    pub(crate) fn has_more(&self) -> bool {
        if self.left.is_some() {
            return self.may_read;
        }
        (self.may_write && self.connection.wants_write())
            || (self.may_read && self.has_room && self.connection.wants_read())
    }

    /// Whether the connection is to be closed: it failed, everything was sent and the other side has closed, or it
    /// timed out. The time-out is shorter while no further answers may be made.
    pub(crate) fn is_over(&self, now: Duration, has_room: bool) -> bool {
        self.is_over
            || (!has_room && self.waiting > 0 && is_past(Some(self.heard), STUCK_LIMIT, now))
            || is_past(self.begun, REQUEST_LIMIT, now)
            || is_past(self.left, LEAVE_LIMIT, now)
            || is_past(Some(self.heard), SILENCE_LIMIT, now)
    }

    /// Reads, answers and writes what can be done now, up to a few times. It reads only where there is room for more
    /// answers.
    pub(crate) fn work<P: Pages>(
        &mut self,
        service: &mut PageService<'_, P>,
        scratch: &mut [u8],
        now: Duration,
        has_room: bool,
    ) {
        self.has_room = has_room;
        for _ in 0..MOVES {
            if self.is_over || !self.has_more() {
                return;
            }
            if self.left.is_some() {
                self.drop_what_comes(scratch);
            } else {
                self.go_on(service, now);
            }
        }
    }

    /// Writes what waits, or else reads, and answers.
    fn go_on<P: Pages>(&mut self, service: &mut PageService<'_, P>, now: Duration) {
        if self.may_write && self.connection.wants_write() {
            self.write(now);
        } else {
            self.read(now);
        }
        self.answer(service);
        if self.connection.is_done() {
            self.leave(now);
        }
    }

    /// Answers what was read.
    fn answer<P: Pages>(&mut self, service: &mut PageService<'_, P>) {
        let made = service.made;
        self.connection.advance(service);
        let added = service.made.saturating_sub(made);
        if self.connection.wants_write() {
            self.waiting = self.waiting.saturating_add(added);
            self.begun = None;
        } else {
            self.waiting = 0;
        }
    }

    /// Reads once.
    fn read(&mut self, now: Duration) {
        match self.connection.read_from(&mut self.stream) {
            Ok(0) => self.may_read = false,
            Ok(_) => {
                self.heard = now;
                if self.begun.is_none() {
                    self.begun = Some(now);
                }
            }
            Err(error) => {
                self.may_read = is_interrupted(&error);
                self.note(&error);
            }
        }
    }

    /// Writes once.
    fn write(&mut self, now: Duration) {
        match self.connection.write_to(&mut self.stream) {
            Ok(0) => self.is_over = true,
            Ok(count) => {
                self.heard = now;
                self.waiting = self.waiting.saturating_sub(count as u64);
            }
            Err(error) => {
                self.may_write = is_interrupted(&error);
                self.note(&error);
            }
        }
    }

    /// Ends the connection, unless the error is `WouldBlock` or `Interrupted`.
    fn note(&mut self, error: &io::Error) {
        self.is_over = !is_waiting(error);
    }

    /// Says that nothing more is sent.
    fn leave(&mut self, now: Duration) {
        self.left = Some(now);
        self.is_over = self.stream.shutdown(Shutdown::Write).is_err();
    }

    /// Discards what is still received.
    fn drop_what_comes(&mut self, scratch: &mut [u8]) {
        match self.stream.read(scratch) {
            Ok(0) => self.is_over = true,
            Ok(_) => {}
            Err(error) => {
                self.may_read = is_interrupted(&error);
                self.note(&error);
            }
        }
    }
}

/// Whether a time is so many seconds ago.
fn is_past(since: Option<Duration>, limit: u64, now: Duration) -> bool {
    match since {
        Some(since) => now.saturating_sub(since) >= Duration::from_secs(limit),
        None => false,
    }
}

/// Whether a call was interrupted by a signal.
fn is_interrupted(error: &io::Error) -> bool {
    error.kind() == ErrorKind::Interrupted
}

/// Whether a call has to wait, or was interrupted.
fn is_waiting(error: &io::Error) -> bool {
    matches!(error.kind(), ErrorKind::WouldBlock | ErrorKind::Interrupted)
}
