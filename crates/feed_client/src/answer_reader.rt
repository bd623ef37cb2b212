//! Reads the answers of a site, with a time-out.

use super::session::patience;
use site_net::{PatientReader, Stop};
use std::io;
use std::io::Read;
use std::net::TcpStream;
use std::sync::Wait;
use std::time::Clock;

/// The bytes that a site sends over a connection. The time-out of an answer begins with the first read of it, so that a
/// session may be idle between two answers for any time.
#[derive(Drop)]
pub struct AnswerReader<'a, R: Wait + Clock> {
    rt: &'a R,
    stream: &'a TcpStream,
    stop: &'a Stop,
    /// The wait that has begun.
    wait: Option<PatientReader<'a, R>>,
}

impl<'a, R: Wait + Clock> AnswerReader<'a, R> {
    /// A reader that waits for nothing yet.
    pub fn new(rt: &'a R, stream: &'a TcpStream, stop: &'a Stop) -> AnswerReader<'a, R> {
        AnswerReader {
            rt,
            stream,
            stop,
            wait: None,
        }
    }

    /// The wait that has begun, or one that begins now.
    fn waiting(&mut self) -> io::Result<PatientReader<'a, R>> {
        match self.wait.take() {
            Some(reader) => Ok(reader),
            None => PatientReader::new(self.rt, self.stream, self.stop, patience()),
        }
    }
}

impl<'a, R: Wait + Clock> Read for AnswerReader<'a, R> {
    fn read(&mut self, into: &mut [u8]) -> io::Result<usize> {
        let mut reader = self.waiting()?;
        let count = reader.read(into)?;
        if !ends_line(into, count) {
            self.wait = Some(reader);
        }
        Ok(count)
    }
}

/// Whether the first so many bytes end with the end of a line.
fn ends_line(bytes: &[u8], count: usize) -> bool {
    match bytes.get(..count) {
        Some(came) => came.last() == Some(&b'\n'),
        None => false,
    }
}
