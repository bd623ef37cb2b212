//! What wakes the thread that prints the reports of a site.

use std::sync::{Condvar, Mutex, Wait};
use std::time::{Clock, Duration};

/// A wake-up that one thread waits for. Once set it stays set until the thread has taken it, so that none is lost.
#[derive(Drop)]
pub struct Wakeup {
    is_set: Mutex<bool>,
    changed: Condvar,
}

impl Wakeup {
    /// One that isn't set yet.
    pub fn new() -> Wakeup {
        Wakeup {
            is_set: Mutex::new(false),
            changed: Condvar::new(),
        }
    }

    /// Sets it.
    pub fn set(&self, rt: &impl Wait) {
        let mut is_set = self.is_set.lock(rt);
        *is_set = true;
        self.changed.notify_all();
    }

    /// Waits until it is set, and clears it.
    pub fn wait(&self, rt: &impl Wait) {
        let is_set = self.is_set.lock(rt);
        let mut is_set = self.changed.wait_while(rt, is_set, |is_set| !*is_set);
        *is_set = false;
    }

    /// Waits until it is set, or for so long, and clears it. Answers whether it was set.
    pub fn wait_for<R: Wait + Clock>(&self, rt: &R, pause: Duration) -> bool {
        let is_set = self.is_set.lock(rt);
        let (mut is_set, _) = self
            .changed
            .wait_timeout_while(rt, is_set, pause, |is_set| !*is_set);
        let was_set = *is_set;
        *is_set = false;
        was_set
    }
}
