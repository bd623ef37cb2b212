//! The listeners of a site, as the loop polls them.

use super::session::Connection;
use mio::net::{TcpListener, TcpStream, UnixListener};
use mio::{Interest, Poll, Token};
use site_net::Listener;
use std::alloc::Global;
use std::io;
use std::io::ErrorKind;
use std::os::fd::OwnedFd;

/// A non-blocking listener.
#[derive(Drop)]
enum Polled {
    Port(TcpListener),
    Socket(UnixListener),
    /// A port whose connections are sealed.
    Sealed(TcpListener),
}

/// All that a site listens at, which its poll reports under one token.
#[derive(Drop)]
pub(super) struct Listeners {
    all: Vec<Polled>,
    /// The place of the one that was asked last.
    last: usize,
}

impl Listeners {
    /// Has the poll report these listeners under a token. It fails where the system refuses that, or memory.
    pub(super) fn new(
        alloc: Global,
        poll: &Poll,
        token: Token,
        listeners: Vec<Listener>,
    ) -> io::Result<Listeners> {
        let mut all = Vec::with_capacity(alloc, listeners.len())?;
        for listener in listeners {
            let listener = registered(poll, token, listener)?;
            all.push(listener)?;
        }
        Ok(Listeners { all, last: 0 })
    }

    /// The next connection that waits at any of them, if one does; they are asked in turn, from the one after the last.
    /// It fails where the system refuses one that waits, as it does where no descriptor is left.
    pub(super) fn accept(&mut self) -> io::Result<Option<Connection>> {
        for _listener in 0..self.all.len() {
            let Some(listener) = self.next() else {
                return Ok(None);
            };
            match accepted(listener) {
                Ok(connection) => return Ok(Some(connection)),
                Err(error) => {
                    if !is_none(error.kind()) {
                        return Err(error);
                    }
                }
            }
        }
        Ok(None)
    }

    /// The one after that which was asked last.
    fn next(&mut self) -> Option<&Polled> {
        let next = self.last.saturating_add(1);
        self.last = if next < self.all.len() { next } else { 0 };
        self.all.get(self.last)
    }
}

/// Whether no connection waited, or the one that did has gone.
fn is_none(kind: ErrorKind) -> bool {
    matches!(
        kind,
        ErrorKind::WouldBlock | ErrorKind::Interrupted | ErrorKind::ConnectionAborted
    )
}

/// A listener that the poll reports.
fn registered(poll: &Poll, token: Token, listener: Listener) -> io::Result<Polled> {
    match listener {
        Listener::Port(listener) => Ok(Polled::Port(polled_port(poll, token, listener)?)),
        Listener::Sealed(listener) => Ok(Polled::Sealed(polled_port(poll, token, listener)?)),
        Listener::Socket(listener) => {
            listener.set_nonblocking(true)?;
            let mut listener = UnixListener::from_std(listener);
            poll.registry()
                .register(&mut listener, token, Interest::READABLE)?;
            Ok(Polled::Socket(listener))
        }
    }
}

/// The listener of a port, which the poll reports.
fn polled_port(
    poll: &Poll,
    token: Token,
    listener: std::net::TcpListener,
) -> io::Result<TcpListener> {
    listener.set_nonblocking(true)?;
    let mut listener = TcpListener::from_std(listener);
    poll.registry()
        .register(&mut listener, token, Interest::READABLE)?;
    Ok(listener)
}

/// The next connection that waits at a listener. One of a Unix socket is a stream like those of ports.
fn accepted(listener: &Polled) -> io::Result<Connection> {
    let (stream, is_locked) = match listener {
        Polled::Port(listener) => (accepted_at_port(listener)?, false),
        Polled::Sealed(listener) => (accepted_at_port(listener)?, true),
        Polled::Socket(listener) => {
            let (stream, _address) = listener.accept()?;
            (TcpStream::from(OwnedFd::from(stream)), false)
        }
    };
    Ok(Connection { stream, is_locked })
}

/// The next connection that waits at a port.
fn accepted_at_port(listener: &TcpListener) -> io::Result<TcpStream> {
    let (stream, _address) = listener.accept()?;
    let _nodelay = stream.set_nodelay(true);
    Ok(stream)
}
