//! The wish that a site stops, which its threads share.

use std::sync::atomic::{AtomicBool, Ordering};
use std::sync::{Condvar, Mutex, Wait};
use std::time::{Clock, Duration};

/// Whether a site was asked to stop. Once it was, that stays so.
#[derive(Drop)]
pub struct Stop {
    is_asked: AtomicBool,
    rests: Mutex<()>,
    asked: Condvar,
}

impl Stop {
    /// Nobody has asked yet.
    pub fn new() -> Stop {
        Stop {
            is_asked: AtomicBool::new(false),
            rests: Mutex::new(()),
            asked: Condvar::new(),
        }
    }

    /// Asks the site to stop, and ends the rests of all threads.
    pub fn ask(&self, rt: &impl Wait) {
        self.is_asked.store(true, Ordering::SeqCst);
        let _rests = self.rests.lock(rt);
        self.asked.notify_all();
    }

    /// Whether somebody has asked.
    pub fn is_asked(&self) -> bool {
        self.is_asked.load(Ordering::SeqCst)
    }

    /// Rests for so long, or until somebody asks.
    pub fn rest<R: Wait + Clock>(&self, rt: &R, pause: Duration) {
        let rests = self.rests.lock(rt);
        let _ended = self
            .asked
            .wait_timeout_while(rt, rests, pause, |_| !self.is_asked());
    }
}
