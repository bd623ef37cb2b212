//! Sends to the other side of a connection, as long as there is patience with it.

use super::patience::{Awaited, Patience};
use super::reader::is_tick;
use std::io;
use std::io::{ErrorKind, Write};
use std::net::TcpStream;
use std::time::{Clock, Duration, Instant};

/// How many milliseconds a write waits before it looks again whether it is to go on.
const TICK_MS: u64 = 100;

/// What is sent to the other side of a connection. It fails where the other side takes in nothing of a write for as
/// long as there is patience. A site that stops still sends the answers that it has begun.
#[derive(Drop)]
pub struct PatientWriter<'a, R: Clock> {
    rt: &'a R,
    stream: &'a TcpStream,
    patience: Patience,
}

impl<'a, R: Clock> PatientWriter<'a, R> {
    /// It fails where the system sets no time limit for the socket.
    pub fn new(
        rt: &'a R,
        stream: &'a TcpStream,
        patience: Patience,
    ) -> io::Result<PatientWriter<'a, R>> {
        stream.set_write_timeout(Some(Duration::from_millis(TICK_MS)))?;
        Ok(PatientWriter {
            rt,
            stream,
            patience,
        })
    }
}

impl<'a, R: Clock> Write for PatientWriter<'a, R> {
    fn write(&mut self, bytes: &[u8]) -> io::Result<usize> {
        let begun = Instant::now(self.rt)?;
        for _ in 0..u64::MAX {
            let mut stream = self.stream;
            match stream.write(bytes) {
                Err(error) if is_tick(&error) => {}
                done => return done,
            }
            let waited = begun.elapsed(self.rt)?;
            if self.patience.is_over(Awaited::RestOfLine, waited) {
                return Err(io::Error::from(ErrorKind::TimedOut));
            }
        }
        Err(io::Error::from(ErrorKind::TimedOut))
    }

    fn flush(&mut self) -> io::Result<()> {
        Ok(())
    }
}
