//! The standard output of a site, which can't delay its end.

use byte_ends::{Ends, write_all};
use crossbeam_channel::{Receiver, RecvTimeoutError, Sender, bounded};
use site_net::Stop;
use std::alloc::{AllocError, Global};
use std::io::{ErrorKind, Print, Write};
use std::sync::{Arc, Wait};
use std::thread::Threads;
use std::time::{Clock, Duration};
use std::{io, thread};

/// After how many milliseconds a waiting write checks again whether the site stops.
const TICK_MS: u64 = 100;

/// After how many such checks, from the stop on, a write is given up: 30 seconds.
const LAST_LOOKS: u32 = 300;

/// Standard output, written by a thread of its own. A write waits for it without end while the site runs; once the site
/// stops it is given up after 30 seconds, which is a failure.
#[derive(Drop)]
pub struct PatientOutput<R: Copy> {
    rt: R,
    alloc: Global,
    stop: Arc<Stop, Global>,
    texts: Sender<Vec<u8>, Global>,
    done: Receiver<bool, Global>,
}

impl<R: Print + Threads + Wait + Clock + Copy + Send + 'static> PatientOutput<R> {
    /// Starts the thread that writes. None where the system refuses it.
    pub fn new(
        rt: R,
        alloc: Global,
        stop: Arc<Stop, Global>,
    ) -> Result<Option<PatientOutput<R>>, AllocError> {
        let (texts, awaited) = bounded(alloc, 1)?;
        let (ended, done) = bounded(alloc, 1)?;
        if thread::spawn(&rt, move || write_texts(&rt, awaited, ended)).is_err() {
            return Ok(None);
        }
        Ok(Some(PatientOutput {
            rt,
            alloc,
            stop,
            texts,
            done,
        }))
    }
}

impl<R: Wait + Clock + Copy> Write for PatientOutput<R> {
    fn write(&mut self, bytes: &[u8]) -> io::Result<usize> {
        let text = bytes.to_vec(self.alloc)?;
        if self.texts.send(&self.rt, text).is_err() {
            return Err(io::Error::from(ErrorKind::BrokenPipe));
        }
        let mut looks = 0u32;
        for _ in 0..u64::MAX {
            match self
                .done
                .recv_timeout(&self.rt, Duration::from_millis(TICK_MS))
            {
                Ok(true) => return Ok(bytes.len()),
                Err(RecvTimeoutError::Timeout) => {}
                Ok(false) | Err(RecvTimeoutError::Disconnected) => break,
            }
            if self.stop.is_asked() {
                looks = looks.saturating_add(1);
            }
            if looks == LAST_LOOKS {
                return Err(io::Error::from(ErrorKind::TimedOut));
            }
        }
        Err(io::Error::from(ErrorKind::BrokenPipe))
    }

    fn flush(&mut self) -> io::Result<()> {
        Ok(())
    }
}

/// Writes one text after the other, and answers of each whether the output took it, until none comes any more.
fn write_texts<R: Print + Wait>(
    rt: &R,
    texts: Receiver<Vec<u8>, Global>,
    ended: Sender<bool, Global>,
) {
    let mut output = Ends::new(io::writer(rt));
    for text in texts.iter(rt) {
        let is_written = write_all(&mut output, text.as_slice()).is_ok();
        if ended.send(rt, is_written).is_err() {
            return;
        }
    }
}
