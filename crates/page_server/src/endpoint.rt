//! The endpoint of the pages: where their connections come in.

ghost use Rattle.std.specs.Prelude.{◌≡◌};

use http_server::Config;
use http1::Limits;
use mio::net::TcpStream;
use mio::{Interest, Poll, Token, Waker};
use std::hash::RandomState;
use std::io;
use std::net::{Net, TcpListener};
use std::os::fd::OwnedFd;
use std::os::unix::net::UnixListener;
use std::random::RandomSource;
use thiserror::Error;

/// The poll's tokens: of the listener, and of the waker by which other threads wake the server.
pub(crate) const LISTENER: Token = Token(usize::MAX);

const WAKE: Token = Token(usize::MAX - 1);

/// Why pages can't be served.
#[derive(Clone, Copy, Debug, PartialEq, Eq, Drop, Error)]
pub enum PageFault {
    /// 1: memory was refused before the first request.
    #[error("NoMemory")]
    NoMemory,
}

/// A listener that is polled.
#[derive(Drop)]
enum Polled {
    /// At a port.
    Port(mio::net::TcpListener),
    /// At a Unix socket.
    Socket(mio::net::UnixListener),
}

/// Where the connections come in: a listener that is polled, and the keys of the maps of header fields.
#[derive(Drop)]
pub struct PageEndpoint {
    pub(crate) poll: Poll,
    listener: Polled,
    pub(crate) keys: RandomState,
}

/// The endpoint of a port's listener, and what wakes the thread that serves there: `Waker::wake`, after the stop was
/// asked, ends the wait at once. It fails where the system refuses a poll or has no random bytes.
pub fn open_endpoint<R: Net + RandomSource>(
    rt: &R,
    listener: TcpListener,
) -> io::Result<(PageEndpoint, Waker)> {
    listener.set_nonblocking(true)?;
    let poll = Poll::new(rt)?;
    let mut listener = mio::net::TcpListener::from_std(listener);
    poll.registry()
        .register(&mut listener, LISTENER, Interest::READABLE)?;
    opened(rt, poll, Polled::Port(listener))
}

/// The same for the listener of a Unix socket.
pub fn open_socket_endpoint<R: Net + RandomSource>(
    rt: &R,
    listener: UnixListener,
) -> io::Result<(PageEndpoint, Waker)> {
    listener.set_nonblocking(true)?;
    let poll = Poll::new(rt)?;
    let mut listener = mio::net::UnixListener::from_std(listener);
    poll.registry()
        .register(&mut listener, LISTENER, Interest::READABLE)?;
    opened(rt, poll, Polled::Socket(listener))
}

/// The endpoint of a listener that the poll reports, and what wakes the thread that serves there.
fn opened<R: RandomSource>(
    rt: &R,
    poll: Poll,
    listener: Polled,
) -> io::Result<(PageEndpoint, Waker)> {
    let waker = Waker::new(poll.registry(), WAKE)?;
    let keys = RandomState::new(rt)?;
    let endpoint = PageEndpoint {
        poll,
        listener,
        keys,
    };
    Ok((endpoint, waker))
}

impl PageEndpoint {
    /// The next connection that waits. One of a Unix socket is a stream like those of ports.
    pub(crate) fn accept(&self) -> io::Result<TcpStream> {
        match &self.listener {
            Polled::Port(listener) => {
                let (stream, _address) = listener.accept()?;
                let _nodelay = stream.set_nodelay(true);
                Ok(stream)
            }
            Polled::Socket(listener) => {
                let (stream, _address) = listener.accept()?;
                Ok(TcpStream::from(OwnedFd::from(stream)))
            }
        }
    }
}

/// The limits of a connection: a head of 8,192 bytes (414 where a request line is longer, else 431), a body of 1,024
/// bytes (413), and 65,536 bytes of answers that wait before the next request is read.
pub fn limits() -> Config
    ensures head { result.limits.max_head_len ≡ 8192 }
    ensures body { result.max_body_len ≡ 1024 }
    ensures pending { result.max_pending ≡ 65536 }
{
    Config {
        limits: Limits {
            max_head_len: 8_192,
            max_extensions_len: 1_024,
            max_trailers_len: 1_024,
        },
        max_body_len: 1_024,
        max_pending: 65_536,
        read_size: 4_096,
    }
}
