//! Connects to another site, of this machine or of another one.

use super::patience::Patience;
use site_address::{Address, HostPort};
use std::io;
use std::io::ErrorKind;
use std::net::{IpAddr, Ipv4Addr, Net, SocketAddr, TcpStream, ToSocketAddrs};
use std::os::fd::OwnedFd;
use std::os::unix::net::UnixStream;

/// A connection to what listens at an address of this machine. It fails where nothing does, or where what listens at a
/// port doesn't answer within the limit of the patience.
pub fn connected<R: Net<Stream = TcpStream>>(
    rt: &R,
    address: Address<'_>,
    patience: Patience,
) -> io::Result<TcpStream> {
    match address {
        Address::Port(port) => connected_at_port(rt, port, patience),
        Address::Path(path) => connected_at_path(rt, path),
    }
}

/// A connection to what listens at a port.
fn connected_at_port<R: Net<Stream = TcpStream>>(
    rt: &R,
    port: u16,
    patience: Patience,
) -> io::Result<TcpStream> {
    let address = SocketAddr::new(IpAddr::V4(Ipv4Addr::LOCALHOST), port);
    connected_at(rt, &address, patience)
}

/// A connection to what listens at a port of a host. It looks the host's name up, and tries each address that it has,
/// in turn, until one accepts. It fails where the name has no address, or where the last address is refused or doesn't
/// answer within the limit of the patience. How long a look-up takes is for the system alone.
pub fn connected_to_host<R: Net<Stream = TcpStream>>(
    rt: &R,
    at: HostPort<'_>,
    patience: Patience,
) -> io::Result<TcpStream> {
    let mut tried = Err(io::Error::from(ErrorKind::NotFound));
    for address in (at.host, at.port).to_socket_addrs(rt)? {
        tried = connected_at(rt, &address, patience);
        if tried.is_ok() {
            return tried;
        }
    }
    tried
}

/// A connection to what listens at an address of the net.
fn connected_at<R: Net<Stream = TcpStream>>(
    rt: &R,
    address: &SocketAddr,
    patience: Patience,
) -> io::Result<TcpStream> {
    let stream = TcpStream::connect_timeout(rt, address, patience.limit)?;
    stream.set_nodelay(true)?;
    Ok(stream)
}

/// A connection to what listens at a Unix socket, as a stream like those of ports.
fn connected_at_path<R: Net>(rt: &R, path: &str) -> io::Result<TcpStream> {
    let stream = UnixStream::connect(rt, path)?;
    Ok(TcpStream::from(OwnedFd::from(stream)))
}
