//! A tape in memory, which fails where a test wants it to.

ghost use Rattle.std.specs.Prelude.{◌≡◌, ◌≤◌, ◌+◌, ℕ, [], false, vec_len, take};
ghost use Rattle.byte_ends.specs.Failures.{OneFailed};

use crate::tape::{Feed, Tape};
use byte_ends::Failed;
use std::io::Read;

/// A tape in memory. What is past a cut, and what was written past what is synced, is there until a sync: a crash may
/// leave any prefix of it. Calls of it fail where that was asked for, and where memory is refused.
#[derive(Debug, Drop)]
pub struct MemoryTape {
    bytes: Vec<u8>,
    len: usize,
    synced: usize,
    is_doubted: bool,
    at: usize,
    failing: u64,
    tears: usize,
    failures: u64,
    ghost shorter: { len ≤ vec_len bytes },
    ghost kept: { synced ≤ len },
}

impl MemoryTape {
    ghost use Rattle.site_journal.specs.Memory.{memory_image, memory_left};

    /// A tape that was just opened, with these bytes, of which none is synced. No call of it fails.
    pub fn new(bytes: Vec<u8>) -> MemoryTape
        ensures image { memory_image result
            ≡ record { contents = bytes.items; synced = []; written = bytes.items; doubted = false } }
        ensures left { memory_left result ≡ bytes.items }
    {
        let len = bytes.len();
        MemoryTape {
            bytes,
            len,
            synced: 0,
            is_doubted: false,
            at: 0,
            failing: 0,
            tears: 0,
            failures: 0,
        }
    }

    /// Has the calls fail from now on of which the bits of a number are set, the lowest for the next one. An append
    /// that fails writes so many bytes.
    pub fn fail(&mut self, failing: u64, tears: usize)
        ensures image { memory_image self.new ≡ memory_image self.old }
        ensures left { memory_left self.new ≡ memory_left self.old }
    {
        self.failing = failing;
        self.tears = tears;
    }

    /// What it has.
    pub fn contents(&self) -> &[u8]
        ensures { result.now ≡ (memory_image self.now).contents }
    {
        &self.bytes[..self.len]
    }

    /// What was synced, which a crash leaves.
    pub fn synced(&self) -> &[u8]
        ensures { result.now ≡ (memory_image self.now).synced }
    {
        &self.bytes[..self.synced]
    }

    /// What was written, of which a crash leaves no more than all.
    pub fn written(&self) -> &[u8]
        ensures { result.now ≡ (memory_image self.now).written }
    {
        &self.bytes
    }
}

impl Feed for MemoryTape {
    ghost use Rattle.std.specs.Prelude.{Some};
    ghost use Rattle.site_journal.specs.Memory.{memory_image, memory_left};

    ghost image = { λ tape. Some (memory_image tape) };

    ghost left = { λ tape. Some (memory_left tape) };

    ghost failed = { λ tape. tape.failures };

    fn read(&mut self, into: &mut [u8]) -> Result<usize, Failed> {
        if comes_due(&mut self.failing) {
            return Err(counted(&mut self.failures));
        }
        let at = self.at.min(self.len);
        let mut rest = &self.bytes[at..self.len];
        match rest.read(into) {
            Ok(count) => {
                self.at = self.len - rest.len();
                Ok(count)
            }
            Err(_) => Err(counted(&mut self.failures)),
        }
    }
}

impl Tape for MemoryTape {
    fn append(&mut self, bytes: &[u8]) -> Result<(), Failed> {
        if comes_due(&mut self.failing) {
            let part = &bytes[..self.tears.min(bytes.len())];
            let _torn = self.bytes.extend_from_slice(part);
            self.len = self.bytes.len();
            return Err(counted(&mut self.failures));
        }
        if self.bytes.extend_from_slice(bytes).is_err() {
            return Err(counted(&mut self.failures));
        }
        self.len = self.bytes.len();
        Ok(())
    }

    fn sync(&mut self) -> Result<(), Failed> {
        if comes_due(&mut self.failing) {
            self.is_doubted = true;
            return Err(counted(&mut self.failures));
        }
        if !self.is_doubted {
            self.bytes.truncate(self.len);
            self.synced = self.len;
        }
        Ok(())
    }

    fn cut(&mut self, len: u64) -> Result<(), Failed> {
        if comes_due(&mut self.failing) {
            return Err(counted(&mut self.failures));
        }
        let len = len as usize;
        self.synced = self.synced.min(len);
        self.len = len;
        Ok(())
    }
}

/// Whether the next call fails, and those after it come next.
fn comes_due(failing: &mut u64) -> bool {
    let is_due = *failing % 2 == 1;
    *failing /= 2;
    is_due
}

/// Counts a failure.
fn counted(failures: &mut u64) -> Failed
    ensures { OneFailed failures.old failures.new }
{
    *failures = failures.saturating_add(1);
    Failed
}
