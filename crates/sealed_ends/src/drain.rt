//! Writes sealed lines.

ghost use Rattle.std.specs.Prelude.{◌≡◌, ◌<◌, ◌≤◌, ◌+◌, ◌++◌, ℕ, [], IfOk, OnErr, OnOk, false, length, option_map};
ghost use Rattle.std.specs.Prelude.{take};
ghost use Rattle.std.specs.Io.KnownBytes.{Appends, Keeps, WriteAppends};
ghost use Rattle.byte_ends.specs.Lines.{as_line};
ghost use Rattle.sealed_ends.specs.Sent.{IsTakenWhole};
ghost use Rattle.sealed_ends.specs.Written.{drain_within, seals_under, taken_by, writes_failed_by};

use super::bytes::{BATCH, batch_end};
use byte_ends::{Drain, Failed};
use line_reader::LINE_LIMIT;
use sealed_line::Seal;
use std::alloc::{AllocError, Global};

/// Seals the lines that are written: those that are written at once, up to 16,384 bytes or one line, as one text. What
/// is written is held until its line end comes, and that is taken once the drain within took the sealed line whole.
/// Where that fails, a line may have been sent in part: each write fails from then on.
#[derive(Drop)]
pub struct SealedDrain<D> {
    alloc: Global,
    drain: D,
    seal: Seal,
    /// The count of the first line.
    first: u64,
    /// What was taken of the line whose end didn't come.
    held: Vec<u8>,
    /// How many bytes the drain within took.
    sent: usize,
    /// Whether a line was sent in part.
    broken: bool,
    failures: u64,
}

impl<D: Drain> SealedDrain<D> {
    /// Seals lines with this seal, and writes them to a drain.
    pub fn new(alloc: Global, drain: D, seal: Seal) -> SealedDrain<D>
        ensures within { drain_within result ≡ drain }
        ensures seal { seals_under result ≡ seal }
        ensures taken { taken_by D.taken result ≡ option_map (λ _. []) (D.taken drain) }
        ensures failed { writes_failed_by result ≡ 0 }
    {
        let first = seal.count();
        SealedDrain {
            alloc,
            drain,
            seal,
            first,
            held: Vec::new(alloc),
            sent: 0,
            broken: false,
            failures: 0,
        }
    }

    /// Takes whole lines at the front, and seals them; or a piece of a line, and holds it.
    fn take(&mut self, bytes: &[u8]) -> Result<usize, Failed>
        requires { 0 < length bytes.now }
        ensures some { IfOk result (λ count. (0 < count) × (count ≤ length bytes.now)) }
        ensures bytes { WriteAppends (taken_by D.taken self.old) (taken_by D.taken self.new) result bytes.now }
        ensures counted { self.new.failures ≡ self.old.failures }
    {
        if self.broken {
            return Err(Failed);
        }
        match batch_end(bytes, BATCH.saturating_sub(self.held.len())) {
            Some(at) => self.end_lines(&bytes[..at]),
            None => self.hold(bytes),
        }
    }

    /// Holds more of a line.
    fn hold(&mut self, piece: &[u8]) -> Result<usize, Failed>
        ensures all { IfOk result (λ count. count ≡ length piece.now) }
        ensures bytes { WriteAppends (taken_by D.taken self.old) (taken_by D.taken self.new) result piece.now }
        ensures counted { self.new.failures ≡ self.old.failures }
    {
        if piece.len() > LINE_LIMIT.saturating_sub(self.held.len()) {
            return Err(Failed);
        }
        match self.held.extend_from_slice(piece) {
            Ok(()) => Ok(piece.len()),
            Err(_) => Err(Failed),
        }
    }

    /// Seals what is held and this piece, which a line end follows, and sends that.
    fn end_lines(&mut self, piece: &[u8]) -> Result<usize, Failed>
        requires { self.old.broken ≡ false }
        ensures all { IfOk result (λ count. count ≡ length piece.now + 1) }
        ensures ok { OnOk result (Appends (taken_by D.taken self.old) (taken_by D.taken self.new) (as_line piece.now)) }
        ensures err { OnErr result (Keeps (taken_by D.taken self.old) (taken_by D.taken self.new)) }
        ensures counted { self.new.failures ≡ self.old.failures }
    {
        let Ok(text) = joined(self.alloc, self.held.as_slice(), piece) else {
            return Err(Failed);
        };
        let mut line = Vec::new(self.alloc);
        let Ok(()) = self.seal.seal(self.alloc, text.as_slice(), &mut line) else {
            return Err(Failed);
        };
        match send(&mut self.drain, &mut self.sent, line.as_slice()) {
            Ok(()) => {
                self.held.clear();
                Ok(piece.len() + 1)
            }
            Err(failed) => {
                self.broken = true;
                Err(failed)
            }
        }
    }
}

/// A piece after what is held.
fn joined(alloc: Global, held: &[u8], piece: &[u8]) -> Result<Vec<u8>, AllocError>
    ensures { IfOk result (λ text. text.items ≡ held.now ++ piece.now) }
{
    let mut text = held.to_vec(alloc)?;
    text.extend_from_slice(piece)?;
    Ok(text)
}

/// Has a drain take a line, and counts the bytes that it took.
fn send<D: Drain>(drain: &mut D, sent: &mut usize, line: &[u8]) -> Result<(), Failed>
    ensures ok { OnOk result (IsTakenWhole (D.taken drain.old) (D.taken drain.new) sent.old sent.new line.now) }
    ensures err { OnErr result ((count : ℕ) × (count < length line.now)
        × IsTakenWhole (D.taken drain.old) (D.taken drain.new) sent.old sent.new (take count line.now)) }
{
    let mut rest = line;
    while !rest.is_empty() {
        if rest.len() > usize::MAX - *sent {
            return Err(Failed);
        }
        let count = drain.write(rest)?;
        *sent += count;
        rest = rest.split_at(count).1;
    }
    Ok(())
}

impl<D: Drain> Drain for SealedDrain<D> {
    ghost taken = { taken_by D.taken };

    ghost failed = { writes_failed_by };

    /// Takes whole lines at the front, which are sealed and sent; or a piece of a line, which is held.
    fn write(&mut self, bytes: &[u8]) -> Result<usize, Failed> {
        if bytes.is_empty() {
            return Ok(0);
        }
        match self.take(bytes) {
            Ok(count) => Ok(count),
            Err(failed) => {
                self.failures = self.failures.saturating_add(1);
                Err(failed)
            }
        }
    }

    fn failures(&self) -> u64 {
        self.failures
    }
}
