//! Calls whose requests for memory are refused in turn.

use super::refusing::Refusing;
use std::alloc::Global;

/// More requests than a call of the tests makes.
const MOST: u32 = 100_000;

/// What is seen of a call, and of the same call made again with memory.
#[derive(Clone, Copy)]
pub struct Seen {
    /// Whether the call reported that memory was refused.
    pub failed: bool,
    /// Whether a request of the call was refused.
    pub refused: bool,
    /// Whether what has to hold after the call did.
    pub stated: bool,
    /// Whether the call made again gave the whole.
    pub whole: bool,
}

impl Seen {
    /// Whether a call reported so only where it was refused memory, and all was as it has to be. A call may do without
    /// what is refused, as a list that is collected does without room for all of it at once.
    fn is_right(self) -> bool {
        (self.refused || !self.failed) && self.stated && self.whole
    }
}

/// A call that is made in memory that nothing else was asked of.
pub trait Call: Copy {
    /// Makes the call where memory grants `granted` requests and refuses the next one, and then again: what is seen of
    /// it, where there is memory for what comes before it.
    fn seen(self, memory: &Refusing<Global>, granted: u32) -> Option<Seen>;
}

/// What is seen of a call in new memory.
fn seen_of<C: Call>(alloc: Global, call: C, granted: u32) -> Option<Seen> {
    let memory = Refusing::new(alloc);
    call.seen(&memory, granted)
}

/// Each request of the call is refused in turn, until none is: how many there are. None where a call wasn't right.
pub fn requests<C: Call>(alloc: Global, call: C) -> Option<u32> {
    for granted in 0..MOST {
        let seen = seen_of(alloc, call, granted)?;
        if !seen.is_right() {
            return None;
        }
        if !seen.refused {
            return Some(granted);
        }
    }
    None
}
