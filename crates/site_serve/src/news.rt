//! Notifies the thread that prints reports of what is new.

use super::reloads::Reloads;
use site_shared::{BrandedReceipt, Naming};
use std::alloc::Global;
use std::sync::{Arc, Mutex, Wait};
use std::time::{Clock, Duration};

/// What is new at a site. A newer receipt takes the place of one that nobody has looked at yet, so that whoever brings
/// it never waits.
#[derive(Drop)]
pub struct News<J: Naming> {
    slot: Mutex<Slot<J>>,
    /// The gates that are put in force at the site, whose wake-up wakes the thread that waits for news.
    reloads: Arc<Reloads, Global>,
}

/// The newest receipt, and whether others may come.
#[derive(Drop)]
struct Slot<J: Naming> {
    newest: Option<Arc<BrandedReceipt<J>, Global>>,
    is_closed: bool,
    /// Whether somebody waits for what is new, and wasn't woken yet.
    is_awaited: bool,
}

/// Why the thread is woken.
#[derive(Drop)]
pub enum Notice<J: Naming> {
    /// Something was published.
    Published(Arc<BrandedReceipt<J>, Global>),
    /// Another gate was put in force.
    Reloaded,
    /// Nothing new comes any more.
    Over,
}

impl<J: Naming> News<J> {
    /// No news yet, with the reloads whose wake-up wakes the thread.
    pub fn new(reloads: Arc<Reloads, Global>) -> News<J> {
        News {
            slot: Mutex::new(Slot {
                newest: None,
                is_closed: false,
                is_awaited: false,
            }),
            reloads,
        }
    }

    /// Notifies of a receipt. If memory is refused, the next receipt covers it.
    pub fn bring(&self, rt: &impl Wait, receipt: &Arc<BrandedReceipt<J>, Global>) {
        let Ok(newest) = Arc::try_clone(receipt) else {
            return;
        };
        if self.is_awaited_after(rt, newest) {
            self.reloads.wakeup().set(rt);
        }
    }

    /// Notes a receipt. Answers whether somebody waits for it.
    fn is_awaited_after(&self, rt: &impl Wait, newest: Arc<BrandedReceipt<J>, Global>) -> bool {
        let mut slot = self.slot.lock(rt);
        slot.newest = Some(newest);
        let is_awaited = slot.is_awaited;
        slot.is_awaited = false;
        is_awaited
    }

    /// Nothing new comes any more.
    pub fn close(&self, rt: &impl Wait) {
        self.note_closed(rt);
        self.reloads.wakeup().set(rt);
    }

    /// Notes that nothing new comes any more.
    fn note_closed(&self, rt: &impl Wait) {
        let mut slot = self.slot.lock(rt);
        slot.is_closed = true;
    }

    /// Rests for the pause, and then waits for a new receipt. Another gate and the end are noticed at once, also during
    /// the rest; after the end it doesn't rest.
    pub fn next<R: Wait + Clock>(&self, rt: &R, pause: Duration) -> Notice<J> {
        let wakeup = self.reloads.wakeup();
        if !self.is_closed(rt) && wakeup.wait_for(rt, pause) {
            return self.heard(rt).unwrap_or(Notice::Reloaded);
        }
        if let Some(notice) = self.known(rt) {
            return notice;
        }
        wakeup.wait(rt);
        self.heard(rt).unwrap_or(Notice::Reloaded)
    }

    /// Whether nothing new comes any more.
    fn is_closed(&self, rt: &impl Wait) -> bool {
        self.slot.lock(rt).is_closed
    }

    /// What is new already; if nothing is, notes that the thread waits.
    fn known(&self, rt: &impl Wait) -> Option<Notice<J>> {
        let mut slot = self.slot.lock(rt);
        slot.is_awaited = slot.newest.is_none();
        notice_of(&mut slot)
    }

    /// What is new after a wake-up; nothing where another gate was put in force.
    fn heard(&self, rt: &impl Wait) -> Option<Notice<J>> {
        let mut slot = self.slot.lock(rt);
        slot.is_awaited = false;
        notice_of(&mut slot)
    }
}

/// What a slot has that is new, which is taken.
fn notice_of<J: Naming>(slot: &mut Slot<J>) -> Option<Notice<J>> {
    match slot.newest.take() {
        Some(newest) => Some(Notice::Published(newest)),
        None if slot.is_closed => Some(Notice::Over),
        None => None,
    }
}
