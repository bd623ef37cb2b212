//! The standard error of a site, for which none of its threads waits.

use byte_ends::{Drain, Failed, write_all};
use crossbeam_channel::{Receiver, Sender, bounded};
use std::alloc::{AllocError, Global};
use std::sync::Wait;
use std::thread;
use std::thread::Threads;
use std::time::{Clock, Duration};

/// How many lines may wait to be written. One more is lost.
const LINES: usize = 1_024;

/// For how many milliseconds a site that ends waits until its lines are written.
const LAST_MS: u64 = 1_000;

/// A message to the thread that writes.
#[derive(Drop)]
enum Errand {
    /// A line that is to be written.
    Line(Vec<u8>),
    /// Replies once all lines before it were written.
    Wait(Sender<(), Global>),
}

/// Standard error, which is written by a thread of its own: each write is a line, and lines of several threads don't
/// mix. If standard error is blocked and too many lines wait, further lines are lost, so that no thread waits for a
/// reader.
#[derive(Drop)]
pub struct SharedErrors<R> {
    rt: R,
    alloc: Global,
    errands: Sender<Errand, Global>,
    failures: u64,
}

impl<R: Threads + Wait + Copy + Send + 'static> SharedErrors<R> {
    /// Starts the thread that writes to this end. None where the system refuses it.
    pub fn new<E>(rt: R, alloc: Global, end: E) -> Result<Option<SharedErrors<R>>, AllocError>
    where
        E: Drain + Send + Drop + 'static,
    {
        let (errands, given) = bounded(alloc, LINES)?;
        if thread::spawn(&rt, move || write_lines(&rt, given, end)).is_err() {
            return Ok(None);
        }
        Ok(Some(SharedErrors {
            rt,
            alloc,
            errands,
            failures: 0,
        }))
    }
}

impl<R: Wait + Clock + Copy> SharedErrors<R> {
    /// The same, for another thread.
    pub fn share(&self) -> Result<SharedErrors<R>, AllocError> {
        Ok(SharedErrors {
            rt: self.rt,
            alloc: self.alloc,
            errands: self.errands.clone()?,
            failures: 0,
        })
    }

    /// Waits until all lines so far are written, or were given up, for a second at most.
    pub fn finish(&self) {
        let Ok((written, is_written)) = bounded(self.alloc, 1) else {
            return;
        };
        if self
            .errands
            .try_send(&self.rt, Errand::Wait(written))
            .is_ok()
        {
            let _written = is_written.recv_timeout(&self.rt, Duration::from_millis(LAST_MS));
        }
    }

    /// Gives the thread a line. Whether there is room for it.
    fn give(&self, bytes: &[u8]) -> bool {
        match bytes.to_vec(self.alloc) {
            Ok(line) => self.errands.try_send(&self.rt, Errand::Line(line)).is_ok(),
            Err(_) => false,
        }
    }
}

impl<R: Wait + Clock + Copy> Drain for SharedErrors<R> {
    ghost use Rattle.std.specs.Prelude.{None};

    ghost taken = { λ shared. None };

    ghost failed = { λ shared. shared.failures };

    fn write(&mut self, bytes: &[u8]) -> Result<usize, Failed> {
        if self.give(bytes) {
            return Ok(bytes.len());
        }
        self.failures = self.failures.saturating_add(1);
        Err(Failed)
    }

    fn failures(&self) -> u64 {
        self.failures
    }
}

/// Writes one line after the other, until none comes any more. One that the end doesn't take is lost.
fn write_lines<R: Wait, E: Drain + Drop>(rt: &R, given: Receiver<Errand, Global>, end: E) {
    let mut end = end;
    for errand in given.iter(rt) {
        match errand {
            Errand::Line(line) => {
                let _lost = write_all(&mut end, line.as_slice());
            }
            Errand::Wait(written) => {
                let _gone = written.try_send(rt, ());
            }
        }
    }
}
