//! Opens the listeners of a site, for sessions and for browsers, and prints their addresses.

ghost use Rattle.std.specs.Prelude.{◌≡◌, ◌++◌, IfOk, codes, string_bytes};
ghost use Rattle.serve_command.specs.Listening.{bits_of, port_of};
ghost use Rattle.site_address.specs.Host.{host_port_text};

use super::command::Ended;
use super::fault::ProgramFault;
use super::file_number::FileNumber;
use byte_ends::{Ends, write_all};
use command_line::{PageAddress, ServeWords, SocketMode};
use console::Refusal;
use mio::Waker;
use page_server::{PageEndpoint, open_endpoint, open_socket_endpoint};
use site_address::HostPort;
use site_net::{Listener, listen_at_host, listen_at_path, listen_at_port};
use std::alloc::{AllocError, Global};
use std::io::Print;
use std::net::{Net, TcpListener, TcpStream};
use std::os::unix::net::UnixListener;
use std::random::RandomSource;
use std::rt::Files;
use std::{fs, io};

/// The listeners of a site.
#[derive(Drop)]
pub struct SiteListeners {
    /// For its sessions.
    pub listeners: Vec<Listener>,
    /// For browsers, where it shows itself to them, with what wakes the thread that serves there.
    pub page: Option<(PageEndpoint, Waker)>,
}

/// The listeners of a site, and the Unix sockets that it created for them.
#[derive(Drop)]
pub struct Listening<'a> {
    pub site_listeners: SiteListeners,
    pub sockets: Vec<MadeSocket<'a>>,
}

/// A Unix socket that a site made: its path, and which file it is, where that is known.
#[derive(Clone, Copy, Debug)]
pub struct MadeSocket<'a> {
    path: &'a str,
    number: Option<FileNumber>,
}

/// Listens at the port, the sockets and the hosts that the words name, at a port of this machine that the system
/// chooses where they name none; then for browsers, where the words print_line so. The address of each is printed. Where it
/// fails the sockets that it has made are removed.
pub fn listen<'a, R>(
    rt: &R,
    alloc: Global,
    words: &ServeWords<'a>,
) -> Result<Listening<'a>, Ended<'static>>
where
    R: Net<Listener = TcpListener, Stream = TcpStream> + RandomSource + Files + Print,
{
    let mut sockets = Vec::new(alloc);
    match site_listeners_of(rt, alloc, words, &mut sockets) {
        Ok(site_listeners) => Ok(Listening {
            site_listeners,
            sockets,
        }),
        Err(ended) => {
            remove_sockets(rt, sockets.as_slice());
            Err(ended)
        }
    }
}

/// Removes the Unix sockets that a site created. A socket that another site has created at the path meanwhile stays.
pub fn remove_sockets<R: Files>(rt: &R, sockets: &[MadeSocket<'_>]) {
    for socket in sockets {
        if FileNumber::at(rt, socket.path) == socket.number {
            let _gone = fs::remove_file(rt, socket.path);
        }
    }
}

/// Listens at all that the words name, for sessions and for browsers.
fn site_listeners_of<'a, R>(
    rt: &R,
    alloc: Global,
    words: &ServeWords<'a>,
    sockets: &mut Vec<MadeSocket<'a>>,
) -> Result<SiteListeners, Ended<'static>>
where
    R: Net<Listener = TcpListener, Stream = TcpStream> + RandomSource + Files + Print,
{
    let mut listeners = Vec::new(alloc);
    listen_at_all(rt, alloc, words, &mut listeners, sockets)?;
    match page_of(rt, alloc, words, sockets) {
        Ok(page) => Ok(SiteListeners { listeners, page }),
        Err(ended) => Err(ended),
    }
}

/// Listens for browsers where the words print_line so, and prints the address.
fn page_of<'a, R>(
    rt: &R,
    alloc: Global,
    words: &ServeWords<'a>,
    sockets: &mut Vec<MadeSocket<'a>>,
) -> Result<Option<(PageEndpoint, Waker)>, Ended<'static>>
where
    R: Net<Listener = TcpListener, Stream = TcpStream> + RandomSource + Files + Print,
{
    match words.http {
        None => Ok(None),
        Some(PageAddress::Port(port)) => {
            let listener = listen_at(rt, alloc, "http ", port)?;
            opened(open_endpoint(rt, listener))
        }
        Some(PageAddress::Path(path)) => {
            let listener = listen_at_socket(rt, alloc, "http ", path, words.mode, sockets)?;
            opened(open_socket_endpoint(rt, listener))
        }
    }
}

/// The endpoint of the pages, if it could be made.
fn opened(
    page: io::Result<(PageEndpoint, Waker)>,
) -> Result<Option<(PageEndpoint, Waker)>, Ended<'static>> {
    match page {
        Ok(page) => Ok(Some(page)),
        Err(_) => Err(Ended::Program(ProgramFault::NoBind)),
    }
}

/// Listens for sessions at all that the words name.
fn listen_at_all<'a, R>(
    rt: &R,
    alloc: Global,
    words: &ServeWords<'a>,
    listeners: &mut Vec<Listener>,
    sockets: &mut Vec<MadeSocket<'a>>,
) -> Result<(), Ended<'static>>
where
    R: Net<Listener = TcpListener, Stream = TcpStream> + Files + Print,
{
    let is_alone = words.sockets.is_empty() && words.hosts.is_empty();
    if let Some(port) = port_of(words.port, is_alone) {
        let listener = listen_at(rt, alloc, "", port)?;
        add(listeners, Listener::Port(listener))?;
    }
    for path in &words.sockets {
        let listener = listen_at_socket(rt, alloc, "", path, words.mode, sockets)?;
        add(listeners, Listener::Socket(listener))?;
    }
    listen_at_hosts(rt, alloc, words.hosts.as_slice(), listeners)
}

/// Listens at ports whose connections are sealed, and prints the address of each.
fn listen_at_hosts<R>(
    rt: &R,
    alloc: Global,
    hosts: &[HostPort<'_>],
    listeners: &mut Vec<Listener>,
) -> Result<(), Ended<'static>>
where
    R: Net<Listener = TcpListener, Stream = TcpStream> + Print,
{
    for at in hosts {
        let Ok(listener) = listen_at_host(rt, *at) else {
            return Err(Ended::Program(ProgramFault::NoBind));
        };
        let port = port_at(&listener)?;
        add(listeners, Listener::Sealed(listener))?;
        print_line(rt, place_line(alloc, HostPort { port, ..*at }))?;
    }
    Ok(())
}

/// The port that is listened at.
fn port_at(listener: &TcpListener) -> Result<u16, Ended<'static>> {
    match listener.local_addr() {
        Ok(address) => Ok(address.port()),
        Err(_) => Err(Ended::Program(ProgramFault::NoBind)),
    }
}

/// The line of a place that is listened at.
fn place_line(alloc: Global, at: HostPort<'_>) -> Result<String, AllocError>
    ensures { IfOk result (λ line. string_bytes line ≡ codes "listening " ++ host_port_text at.entry ++ codes "\n") }
{
    let mut line = String::from_str(alloc, "listening ")?;
    at.write(&mut line)?;
    line.push('\n')?;
    Ok(line)
}

/// The port that a site listens at: the one that is named; or, where it listens nowhere else, one that the system
/// chooses.
fn port_of(port: Option<u16>, is_alone: bool) -> Option<u16>
    ensures { result ≡ port_of port is_alone }
{
    match port {
        None if is_alone => Some(0),
        named => named,
    }
}

/// The permissions of a socket.
fn bits_of(mode: SocketMode) -> u32
    ensures { result ≡ bits_of mode }
{
    match mode {
        SocketMode::Owner => 0o600,
        SocketMode::Group => 0o660,
    }
}

/// Listens at a Unix socket, notes that it was made, and prints its path after what it is for.
fn listen_at_socket<'a, R>(
    rt: &R,
    alloc: Global,
    what: &str,
    path: &'a str,
    mode: SocketMode,
    sockets: &mut Vec<MadeSocket<'a>>,
) -> Result<UnixListener, Ended<'static>>
where
    R: Net<Listener = TcpListener, Stream = TcpStream> + Files + Print,
{
    let Ok(listener) = listen_at_path(rt, alloc, path, bits_of(mode)) else {
        return Err(Ended::Program(ProgramFault::NoBind));
    };
    let made = MadeSocket {
        path,
        number: FileNumber::at(rt, path),
    };
    if let Err(ended) = add(sockets, made) {
        remove_sockets(rt, [made].as_slice());
        return Err(ended);
    }
    print_line(rt, format!(in alloc; "listening {what}{path}\n"))?;
    Ok(listener)
}

/// Listens at a port, and prints it after what it is for.
fn listen_at<R>(rt: &R, alloc: Global, what: &str, port: u16) -> Result<TcpListener, Ended<'static>>
where
    R: Net<Listener = TcpListener, Stream = TcpStream> + Print,
{
    let Ok(listener) = listen_at_port(rt, port) else {
        return Err(Ended::Program(ProgramFault::NoBind));
    };
    let port = port_at(&listener)?;
    print_line(rt, format!(in alloc; "listening {what}{port}\n"))?;
    Ok(listener)
}

/// Adds one to those that are there.
fn add<T: Drop>(all: &mut Vec<T>, one: T) -> Result<(), Ended<'static>> {
    match all.push(one) {
        Ok(()) => Ok(()),
        Err(_) => Err(Ended::Refused(Refusal::Memory)),
    }
}

/// Prints a line.
fn print_line<R: Print>(rt: &R, line: Result<String, AllocError>) -> Result<(), Ended<'static>> {
    let Ok(line) = line else {
        return Err(Ended::Refused(Refusal::Memory));
    };
    match write_all(&mut Ends::new(io::writer(rt)), line.as_bytes()) {
        Ok(()) => Ok(()),
        Err(_) => Err(Ended::Refused(Refusal::Output)),
    }
}
