//! Listens for sessions, at a port or at a Unix socket.

use site_address::HostPort;
use std::alloc::Global;
use std::fs::Permissions;
use std::io::ErrorKind;
use std::net::{Net, TcpListener, TcpStream};
use std::os::unix::fs::{FileTypeExt, PermissionsExt};
use std::os::unix::net::{UnixListener, UnixStream};
use std::rt::Files;
use std::{fs, io};

/// What a site listens at.
#[derive(Drop)]
pub enum Listener {
    /// A port.
    Port(TcpListener),
    /// A Unix socket.
    Socket(UnixListener),
    /// A port whose connections are sealed.
    Sealed(TcpListener),
}

/// Listens at a port of 127.0.0.1; at one that the system chooses where it is 0. It fails where that isn't free.
pub fn listen_at_port<R: Net<Listener = TcpListener, Stream = TcpStream>>(
    rt: &R,
    port: u16,
) -> io::Result<TcpListener> {
    TcpListener::bind(rt, ("127.0.0.1", port))
}

/// Listens at a port of a host of this machine, whose name it looks up; at one that the system chooses where it is 0.
/// It fails where the host isn't this machine's, or the port isn't free.
pub fn listen_at_host<R: Net<Listener = TcpListener, Stream = TcpStream>>(
    rt: &R,
    at: HostPort<'_>,
) -> io::Result<TcpListener> {
    TcpListener::bind(rt, (at.host, at.port))
}

/// Listens at a Unix socket with this mode, which it makes at a path of at most 101 bytes. Nobody can connect to it
/// before it has the mode: it is made in a folder `PATH.new` that only its user may enter, and then renamed to the
/// path. An old socket there that nobody listens at any more is replaced. It fails where anything else is at the path,
/// a socket that answers too, or where the system refuses one of these steps.
pub fn listen_at_path<R: Net + Files>(
    rt: &R,
    alloc: Global,
    path: &str,
    mode: u32,
) -> io::Result<UnixListener> {
    if is_taken(rt, path)? {
        return Err(io::Error::from(ErrorKind::AddrInUse));
    }
    let folder = format!(in alloc; "{path}.new")?;
    let inside = format!(in alloc; "{folder}/s")?;
    make_folder(rt, folder.as_str(), inside.as_str())?;
    let made = made_at(rt, inside.as_str(), path, mode);
    let _left = fs::remove_dir(rt, folder.as_str());
    made
}

/// Whether something is at a path that isn't to be replaced.
fn is_taken<R: Net + Files>(rt: &R, path: &str) -> io::Result<bool> {
    match fs::symlink_metadata(rt, path) {
        Ok(found) if found.file_type().is_socket() => Ok(is_answered(rt, path)),
        Ok(_) => Ok(true),
        Err(error) if error.kind() == ErrorKind::NotFound => Ok(false),
        Err(error) => Err(error),
    }
}

/// Whether somebody listens at a socket, or it can't be known.
fn is_answered<R: Net>(rt: &R, path: &str) -> bool {
    match UnixStream::connect(rt, path) {
        Ok(_) => true,
        Err(error) => error.kind() != ErrorKind::ConnectionRefused,
    }
}

/// Makes a folder that only its user may enter, in place of one that a start left which was cut off.
fn make_folder<R: Files>(rt: &R, folder: &str, inside: &str) -> io::Result<()> {
    if rt.create_dir_with_mode(folder, 0o700).is_ok() {
        return Ok(());
    }
    let _absent = fs::remove_file(rt, inside);
    fs::remove_dir(rt, folder)?;
    rt.create_dir_with_mode(folder, 0o700)
}

/// Makes a socket inside such a folder, and renames it to its path once it has its mode.
fn made_at<R: Net + Files>(
    rt: &R,
    inside: &str,
    path: &str,
    mode: u32,
) -> io::Result<UnixListener> {
    let listener = UnixListener::bind(rt, inside)?;
    let named = fs::set_permissions(rt, inside, Permissions::from_mode(mode)).and_then(
        |()| fs::rename(rt, inside, path),
    );
    if let Err(error) = named {
        let _left = fs::remove_file(rt, inside);
        return Err(error);
    }
    Ok(listener)
}
