//! Checks whether a session has ended.

use std::io::ErrorKind;
use std::net::TcpStream;
use std::time::Duration;

/// How many milliseconds a look takes.
const LOOK_MS: u64 = 1;

/// Whether a session without an open request has ended: the site has closed it, or sends something unasked.
pub fn is_over(stream: &TcpStream) -> bool {
    if stream
        .set_read_timeout(Some(Duration::from_millis(LOOK_MS)))
        .is_err()
    {
        return true;
    }
    match stream.peek(&mut [0; 1]) {
        Ok(_) => true,
        Err(error) => !matches!(
            error.kind(),
            ErrorKind::WouldBlock | ErrorKind::TimedOut | ErrorKind::Interrupted
        ),
    }
}
