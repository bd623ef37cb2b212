//! Reads what the other side of a connection sends, line by line, as long as there is patience with it.

use super::patience::{Awaited, Patience};
use super::stop::Stop;
use std::io;
use std::io::{ErrorKind, Read};
use std::net::TcpStream;
use std::time::{Clock, Duration, Instant};

/// How many milliseconds a read waits before it looks again whether it is to go on.
const TICK_MS: u64 = 100;

/// What the other side of a connection sends, until there is no patience with it left, which is a failure, or the site
/// stops, which is the end.
#[derive(Drop)]
pub struct PatientReader<'a, R: Clock> {
    rt: &'a R,
    stream: &'a TcpStream,
    stop: &'a Stop,
    patience: Patience,
    awaited: Awaited,
    since: Instant,
}

impl<'a, R: Clock> PatientReader<'a, R> {
    /// A reader that awaits the first line from now on. It fails where the clock can't be read or the system sets no
    /// time limit for the socket.
    pub fn new(
        rt: &'a R,
        stream: &'a TcpStream,
        stop: &'a Stop,
        patience: Patience,
    ) -> io::Result<PatientReader<'a, R>> {
        stream.set_read_timeout(Some(Duration::from_millis(TICK_MS)))?;
        Ok(PatientReader {
            rt,
            stream,
            stop,
            patience,
            awaited: Awaited::FirstLine,
            since: Instant::now(rt)?,
        })
    }

    /// Notes what came: the wait for a line begins anew where one has ended or begun.
    fn note(&mut self, came: &[u8]) -> io::Result<()> {
        let next = match came.last() {
            Some(b'\n') => Awaited::NextLine,
            Some(_) => Awaited::RestOfLine,
            None => return Ok(()),
        };
        if self.awaited == Awaited::NextLine || came.contains(&b'\n') {
            self.since = Instant::now(self.rt)?;
            self.awaited = next;
            return Ok(());
        }
        self.end_if_over()
    }

    /// Fails where the patience is at its end.
    fn end_if_over(&self) -> io::Result<()> {
        if self
            .patience
            .is_over(self.awaited, self.since.elapsed(self.rt)?)
        {
            return Err(io::Error::from(ErrorKind::TimedOut));
        }
        Ok(())
    }
}

impl<'a, R: Clock> Read for PatientReader<'a, R> {
    fn read(&mut self, into: &mut [u8]) -> io::Result<usize> {
        for _ in 0..u64::MAX {
            if self.stop.is_asked() {
                return Ok(0);
            }
            let mut stream = self.stream;
            match stream.read(into) {
                Ok(count) => {
                    self.note(into.get(..count).unwrap_or(&[]))?;
                    return Ok(count);
                }
                Err(error) if is_tick(&error) => self.end_if_over()?,
                Err(error) => return Err(error),
            }
        }
        Err(io::Error::from(ErrorKind::TimedOut))
    }
}

/// Whether a call ended for the time alone, or for a signal.
pub(super) fn is_tick(error: &io::Error) -> bool {
    matches!(
        error.kind(),
        ErrorKind::WouldBlock | ErrorKind::TimedOut | ErrorKind::Interrupted
    )
}
