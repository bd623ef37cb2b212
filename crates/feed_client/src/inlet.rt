//! The input of a feed, which a thread of its own reads, so that the feed can look after its site while it is silent.

use byte_ends::Source;
use std::alloc::Global;
use std::sync::{Arc, Condvar, Mutex, Wait};
use std::thread;
use std::thread::Threads;
use std::time::{Clock, Duration};

/// How many bytes are read at once.
const BLOCK: usize = 65536;

/// What the thread brings next.
#[derive(Drop)]
pub enum Block {
    /// Some bytes.
    Bytes(Vec<u8>),
    /// The input has ended.
    End,
    /// It has failed, or memory was refused for reading it.
    Failed,
}

/// A channel for one block, from the thread that reads the input to the feed.
#[derive(Drop)]
pub struct Inlet {
    slot: Mutex<Slot>,
    changed: Condvar,
}

/// The block that waits, and whether nobody takes any more.
#[derive(Drop)]
struct Slot {
    block: Option<Block>,
    is_closed: bool,
}

impl Inlet {
    /// Nothing was read yet.
    pub fn new() -> Inlet {
        Inlet {
            slot: Mutex::new(Slot {
                block: None,
                is_closed: false,
            }),
            changed: Condvar::new(),
        }
    }

    /// Waits for so long, or until a block can be taken. Whether one can.
    pub fn await_block<R: Wait + Clock>(&self, rt: &R, pause: Duration) -> bool {
        let slot = self.slot.lock(rt);
        let (slot, _timed_out) = self
            .changed
            .wait_timeout_while(rt, slot, pause, |slot| slot.block.is_none());
        slot.block.is_some()
    }

    /// Whether some bytes can be taken.
    pub fn has_bytes(&self, rt: &impl Wait) -> bool {
        let slot = self.slot.lock(rt);
        matches!(slot.block, Some(Block::Bytes(_)))
    }

    /// The block that can be taken, if one can. The end and a failure stay.
    pub fn take(&self, rt: &impl Wait) -> Option<Block> {
        let mut slot = self.slot.lock(rt);
        let block = match slot.block.take() {
            Some(Block::Bytes(bytes)) => Some(Block::Bytes(bytes)),
            Some(Block::End) => {
                slot.block = Some(Block::End);
                Some(Block::End)
            }
            Some(Block::Failed) => {
                slot.block = Some(Block::Failed);
                Some(Block::Failed)
            }
            None => None,
        };
        self.changed.notify_all();
        block
    }

    /// Notes that no block will be taken any more.
    pub fn close(&self, rt: &impl Wait) {
        let mut slot = self.slot.lock(rt);
        slot.is_closed = true;
        self.changed.notify_all();
    }

    /// Leaves a block once the one before is taken. Whether it may be taken.
    fn leave(&self, rt: &impl Wait, block: Block) -> bool {
        let slot = self.slot.lock(rt);
        let mut slot = self
            .changed
            .wait_while(rt, slot, |slot| slot.block.is_some() && !slot.is_closed);
        if slot.is_closed {
            return false;
        }
        slot.block = Some(block);
        self.changed.notify_all();
        true
    }
}

/// Has a thread of its own read the input into an inlet. Nobody waits for that thread. Whether the system gave it.
pub fn start_reading<R, I>(rt: R, alloc: Global, input: I, inlet: Arc<Inlet, Global>) -> bool
where
    R: Threads + Wait + Copy + Send + 'static,
    I: Source + Send + Drop + 'static,
{
    thread::spawn(&rt, move || read_blocks(&rt, alloc, input, &inlet)).is_ok()
}

/// Reads the input into an inlet, up to its end.
fn read_blocks<R: Wait, I: Source + Drop>(rt: &R, alloc: Global, input: I, inlet: &Inlet) {
    let mut input = input;
    for _ in rt.forever() {
        let block = next_block(alloc, &mut input);
        let is_last = !matches!(block, Block::Bytes(_));
        if !inlet.leave(rt, block) || is_last {
            break;
        }
    }
}

/// Reads the input once.
fn next_block<I: Source>(alloc: Global, input: &mut I) -> Block {
    let Ok(mut bytes) = vec![in alloc; 0u8; BLOCK] else {
        return Block::Failed;
    };
    match input.read(bytes.as_mut_slice()) {
        Ok(0) => Block::End,
        Ok(count) => {
            bytes.truncate(count);
            Block::Bytes(bytes)
        }
        Err(_) => Block::Failed,
    }
}
