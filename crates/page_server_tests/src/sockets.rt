//! The server over sockets of this machine.

use super::shelf::{LONG, Shelf};
use mio::Waker;
use page_server::{PageEndpoint, open_endpoint, open_socket_endpoint, serve_pages};
use site_net::Stop;
use std::alloc::Global;
use std::io::{Read, Write};
use std::net::{Net, Shutdown, TcpListener, TcpStream};
use std::os::unix::net::{UnixListener, UnixStream};
use std::random::RandomSource;
use std::rt::Files;
use std::sync::Wait;
use std::thread::Threads;
use std::time::{Clock, Duration, Instant};
use std::{fs, io, thread};

const ASK: &str = "GET /healthz HTTP/1.1\r\nHost: localhost\r\nConnection: close\r\n\r\n";

const ASK_LONG: &str = "GET /metrics HTTP/1.1\r\nHost: localhost\r\nConnection: close\r\n\r\n";

/// How many clients ask for a long page and don't read it: more than the server makes pages for.
const DEAF: usize = 8;

/// Where the server has its Unix socket.
const SOCKET: &str = "./door.tmp";

/// How many clients are silent: more than the server keeps.
const SILENT: usize = 300;

/// A client of a server.
#[derive(Clone, Copy)]
enum Client {
    /// It ends its side at once.
    Half,
    /// It stops in its request, and others ask meanwhile.
    Slow,
    /// It stops in its request for good.
    Stuck,
    /// It asks for a long page and doesn't read it, and others ask meanwhile.
    Deaf,
    /// It is many of these, and then one who asks.
    DeafCrowd,
    /// It is many who are silent, and then one who asks.
    Crowd,
    /// It asks over the Unix socket.
    Near,
}

/// A server that can be begun, and its port, if it has one.
#[derive(Drop)]
struct Opened {
    endpoint: PageEndpoint,
    waker: Waker,
    port: u16,
}

/// A connection to a port, whose reads wait for 45 seconds at most.
fn patient<R: Net<Stream = TcpStream>>(rt: &R, port: u16) -> io::Result<TcpStream> {
    let stream = TcpStream::connect(rt, ("127.0.0.1", port))?;
    match stream.set_read_timeout(Some(Duration::from_secs(45))) {
        Ok(()) => Ok(stream),
        Err(error) => Err(error),
    }
}

/// A client that sends this and waits.
fn stall<R: Net<Stream = TcpStream>>(rt: &R, port: u16, sent: &str) -> io::Result<TcpStream> {
    let mut stream = patient(rt, port)?;
    match stream.write_all(sent.as_bytes()) {
        Ok(()) => Ok(stream),
        Err(error) => Err(error),
    }
}

/// Whether what comes until the end begins and ends so.
fn comes<S: Read + Drop>(alloc: Global, stream: S, begin: &str, end: &str) -> bool {
    match io::read_to_string(alloc, stream) {
        Ok(text) => text.as_str().starts_with(begin) && text.as_str().ends_with(end),
        Err(_) => false,
    }
}

/// Whether a page comes.
fn page_comes<S: Read + Drop>(alloc: Global, stream: S) -> bool {
    comes(alloc, stream, "HTTP/1.1 200 OK\r\n", "\r\n\r\nok\n")
}

/// Whether a client that asks, and ends its side then, is answered.
fn is_answered<R: Net<Stream = TcpStream>>(rt: &R, alloc: Global, port: u16) -> bool {
    match stall(rt, port, ASK) {
        Ok(stream) => is_half_answered(alloc, stream),
        Err(_) => false,
    }
}

/// Whether a client that has asked, and ends its side now, is answered.
fn is_half_answered(alloc: Global, stream: TcpStream) -> bool {
    let is_ended = stream.shutdown(Shutdown::Write).is_ok();
    page_comes(alloc, stream) && is_ended
}

/// Whether others are answered while a client stops in its request, and that one too once it goes on.
fn is_slow_answered<R: Net<Stream = TcpStream>>(rt: &R, alloc: Global, port: u16) -> bool {
    match stall(rt, port, "GET /heal") {
        Ok(slow) => goes_on(alloc, slow, is_answered(rt, alloc, port)),
        Err(_) => false,
    }
}

/// Whether others were answered, and so is a client that goes on now.
fn goes_on(alloc: Global, slow: TcpStream, others: bool) -> bool {
    let mut slow = slow;
    let rest = "thz HTTP/1.1\r\nHost: localhost\r\nConnection: close\r\n\r\n";
    let is_sent = slow.write_all(rest.as_bytes()).is_ok();
    page_comes(alloc, slow) && is_sent && others
}

/// Whether a client that stops in its request for good is left after about ten seconds.
fn is_stuck_left<R: Net<Stream = TcpStream> + Clock>(rt: &R, alloc: Global, port: u16) -> bool {
    match Instant::now(rt) {
        Ok(began) => is_stuck_ended(rt, alloc, port) && is_about_ten(began.elapsed(rt)),
        Err(_) => false,
    }
}

/// Whether a client that stops in its request for good gets nothing to the end.
fn is_stuck_ended<R: Net<Stream = TcpStream>>(rt: &R, alloc: Global, port: u16) -> bool {
    match stall(rt, port, "GET /heal") {
        Ok(stuck) => is_empty(io::read_to_string(alloc, stuck)),
        Err(_) => false,
    }
}

/// Whether a text was read that is empty.
fn is_empty(text: io::Result<String>) -> bool {
    match text {
        Ok(text) => text.as_str().is_empty(),
        Err(_) => false,
    }
}

/// Whether it took about ten seconds.
fn is_about_ten(waited: io::Result<Duration>) -> bool {
    match waited {
        Ok(waited) => 9_000 < waited.as_millis() && waited.as_millis() < 30_000,
        Err(_) => false,
    }
}

/// Whether others are answered while a client doesn't read its long page, and that one has it whole at the end.
fn is_deaf_served<R: Net<Stream = TcpStream>>(rt: &R, alloc: Global, port: u16) -> bool {
    match stall(rt, port, ASK_LONG) {
        Ok(deaf) => {
            let others = is_answered(rt, alloc, port);
            is_long(io::read_to_string(alloc, deaf)) && others
        }
        Err(_) => false,
    }
}

/// Whether a text was read that has the whole long page.
fn is_long(text: io::Result<String>) -> bool {
    match text {
        Ok(text) => text.len() > LONG && text.as_str().ends_with("mmmm"),
        Err(_) => false,
    }
}

/// So many clients who send this and wait.
fn crowd<R: Net<Stream = TcpStream>>(
    rt: &R,
    alloc: Global,
    port: u16,
    count: usize,
    sent: &str,
) -> io::Result<Vec<TcpStream>> {
    let mut crowd = Vec::new(alloc);
    for _ in 0..count {
        let waiting = stall(rt, port, sent)?;
        crowd.push(waiting)?;
    }
    Ok(crowd)
}

/// Whether a client is answered beside a crowd who don't read their long pages, of which the first is left before it
/// has its page.
fn is_deaf_crowd_beaten<R>(rt: &R, alloc: Global, port: u16) -> bool
where
    R: Net<Stream = TcpStream> + Clock,
{
    match crowd(rt, alloc, port, DEAF, ASK_LONG) {
        Ok(crowd) => is_page_cut(alloc, crowd, is_answered_later(rt, alloc, port)),
        Err(_) => false,
    }
}

/// Whether a client that comes three seconds later is answered.
fn is_answered_later<R>(rt: &R, alloc: Global, port: u16) -> bool
where
    R: Net<Stream = TcpStream> + Clock,
{
    thread::sleep(rt, Duration::from_secs(3));
    is_answered(rt, alloc, port)
}

/// Whether others were answered, and the first of a crowd gets its page in part.
fn is_page_cut(alloc: Global, crowd: Vec<TcpStream>, others: bool) -> bool {
    let mut crowd = crowd;
    match crowd.first_mut() {
        Some(first) => !is_long(io::read_to_string(alloc, first)) && others,
        None => false,
    }
}

/// Whether a client is answered beside a silent crowd, of which the first were left for the last.
fn is_crowd_beaten<R: Net<Stream = TcpStream>>(rt: &R, alloc: Global, port: u16) -> bool {
    match crowd(rt, alloc, port, SILENT, "") {
        Ok(crowd) => is_first_left(crowd, is_answered(rt, alloc, port)),
        Err(_) => false,
    }
}

/// Whether others were answered, and the first of a crowd was left.
fn is_first_left(crowd: Vec<TcpStream>, others: bool) -> bool {
    let mut crowd = crowd;
    match crowd.first_mut() {
        Some(first) => is_left(first) && others,
        None => false,
    }
}

/// Whether nothing more comes.
fn is_left(stream: &mut TcpStream) -> bool {
    let mut byte = [0u8];
    matches!(stream.read(&mut byte), Ok(0) | Err(_))
}

/// Whether a client is answered over the Unix socket.
fn is_near_answered<R: Net>(rt: &R, alloc: Global) -> bool {
    match near(rt) {
        Ok(stream) => page_comes(alloc, stream),
        Err(_) => false,
    }
}

/// A client that has asked over the Unix socket, whose reads wait for 45 seconds at most.
fn near<R: Net>(rt: &R) -> io::Result<UnixStream> {
    let mut stream = UnixStream::connect(rt, SOCKET)?;
    match asks(&mut stream) {
        Ok(()) => Ok(stream),
        Err(error) => Err(error),
    }
}

/// Asks over the Unix socket.
fn asks(stream: &mut UnixStream) -> io::Result<()> {
    stream.set_read_timeout(Some(Duration::from_secs(45)))?;
    stream.write_all(ASK.as_bytes())
}

/// Whether a client is served as it has to be.
fn is_served<R>(rt: &R, alloc: Global, port: u16, client: Client) -> bool
where
    R: Net<Stream = TcpStream> + Clock,
{
    match client {
        Client::Half => is_answered(rt, alloc, port),
        Client::Slow => is_slow_answered(rt, alloc, port),
        Client::Stuck => is_stuck_left(rt, alloc, port),
        Client::Deaf => is_deaf_served(rt, alloc, port),
        Client::DeafCrowd => is_deaf_crowd_beaten(rt, alloc, port),
        Client::Crowd => is_crowd_beaten(rt, alloc, port),
        Client::Near => is_near_answered(rt, alloc),
    }
}

/// A server at a port.
fn at_port<R>(rt: &R) -> io::Result<Opened>
where
    R: Net<Listener = TcpListener, Stream = TcpStream> + RandomSource,
{
    let listener = TcpListener::bind(rt, ("127.0.0.1", 0))?;
    let port = listener.local_addr()?.port();
    let (endpoint, waker) = open_endpoint(rt, listener)?;
    Ok(Opened {
        endpoint,
        waker,
        port,
    })
}

/// A server at the Unix socket.
fn at_socket<R: Net + Files + RandomSource>(rt: &R) -> io::Result<Opened> {
    let listener = UnixListener::bind(rt, SOCKET)?;
    let (endpoint, waker) = open_socket_endpoint(rt, listener)?;
    Ok(Opened {
        endpoint,
        waker,
        port: 0,
    })
}

/// Runs a server and a client beside it: whether that was served as it has to be, and the server ended well at once.
fn serves_beside<R>(rt: &R, alloc: Global, opened: Opened, client: Client) -> bool
where
    R: Net<Stream = TcpStream> + Threads + Wait + Clock + Sync,
{
    let Opened {
        endpoint,
        waker,
        port,
    } = opened;
    let stop = Stop::new();
    let (ended, served) = thread::join(
        rt,
        || serve_pages(rt, alloc, endpoint, &[], &stop, Shelf::new(alloc)).is_ok(),
        || {
            let served = is_served(rt, alloc, port, client);
            stop.ask(rt);
            let _woken = waker.wake();
            served
        },
    );
    ended && served
}

/// Runs a server at a port and a client beside it, as `serves_beside` does.
fn serves<R>(rt: &R, alloc: Global, client: Client) -> bool
where
    R: Net<Listener = TcpListener, Stream = TcpStream>
        + Threads
        + Wait
        + Clock
        + Sync
        + RandomSource,
{
    match at_port(rt) {
        Ok(opened) => serves_beside(rt, alloc, opened, client),
        Err(_) => false,
    }
}

/// Runs a server at the Unix socket and a client beside it, as `serves_beside` does.
fn serves_near<R>(rt: &R, alloc: Global) -> bool
where
    R: Net<Stream = TcpStream> + Files + Threads + Wait + Clock + Sync + RandomSource,
{
    let is_served = match at_socket(rt) {
        Ok(opened) => serves_beside(rt, alloc, opened, Client::Near),
        Err(_) => false,
    };
    fs::remove_file(rt, SOCKET).is_ok() && is_served
}

#[test]
fn a_half_open_client_is_answered(rt: HostRuntime) {
    let is_served = serves(&rt, rt.alloc(), Client::Half);
    assert!(rt; is_served);
}

#[test]
fn a_slow_client_holds_nobody_up(rt: HostRuntime) {
    let is_served = serves(&rt, rt.alloc(), Client::Slow);
    assert!(rt; is_served);
}

#[test]
fn a_stuck_client_is_left(rt: HostRuntime) {
    let is_served = serves(&rt, rt.alloc(), Client::Stuck);
    assert!(rt; is_served);
}

#[test]
fn a_client_that_does_not_read_holds_nobody_up(rt: HostRuntime) {
    let is_served = serves(&rt, rt.alloc(), Client::Deaf);
    assert!(rt; is_served);
}

#[test]
fn a_crowd_that_does_not_read_is_left(rt: HostRuntime) {
    let is_served = serves(&rt, rt.alloc(), Client::DeafCrowd);
    assert!(rt; is_served);
}

#[test]
fn a_silent_crowd_holds_nobody_up(rt: HostRuntime) {
    let is_served = serves(&rt, rt.alloc(), Client::Crowd);
    assert!(rt; is_served);
}

#[test]
fn a_client_is_answered_over_a_socket(rt: HostRuntime) {
    let is_served = serves_near(&rt, rt.alloc());
    assert!(rt; is_served);
}
