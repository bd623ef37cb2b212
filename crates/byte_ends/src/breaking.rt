//! Sources and drains that fail once, for tests.

ghost use Rattle.std.specs.Prelude.{◌≡◌, ℕ, ◌+◌, ◌≤◌, ◌<◌, ◌↔◌, List, length, fold, sum, true, false, IfOk, IsErr};
ghost use Rattle.std.specs.Io.{ReadsAtMost, WritesAtMost};
ghost use Rattle.std.specs.Io.KnownBytes.{ReadConsumes, WriteAppends};
ghost use Rattle.byte_ends.specs.Failures.{CountsFailure};
ghost use Rattle.byte_ends.specs.Broken.{broken_inner, broken_due, is_due, reach, due_after, moved, failed_with};

use super::faults::Failed;
use super::traits::{Drain, Source};

/// When an end fails once, counted from now on.
#[derive(Clone, Copy, Debug, PartialEq, Eq)]
pub enum Due {
    /// At this call, from 1. Never at 0.
    AtCall(u64),
    /// Before it moves this byte, from 1. Never at 0.
    BeforeByte(u64),
    /// It has failed.
    Past,
}

impl Due {
    /// Whether a call on this many bytes is the one that fails.
    fn is_now(self, length: usize) -> bool
        ensures { result ≡ is_due self length }
    {
        match self {
            Due::AtCall(n) => n == 1,
            Due::BeforeByte(n) => n == 1 && length > 0,
            Due::Past => false,
        }
    }

    /// How many of this many bytes a call may move.
    fn reach(self, length: usize) -> usize
        ensures { result ≡ reach self length }
    {
        match self {
            Due::BeforeByte(n) if n > 0 && n - 1 < length as u64 => (n - 1) as usize,
            _ => length,
        }
    }

    /// What is due after a call that moved this many bytes.
    fn after(self, moved: usize) -> Due
        ensures { result ≡ due_after self moved }
    {
        match self {
            Due::AtCall(n) => Due::AtCall(n.saturating_sub(1)),
            Due::BeforeByte(n) => Due::BeforeByte(n.saturating_sub(moved as u64)),
            Due::Past => Due::Past,
        }
    }

    /// How many calls have failed, where this many of the end within have.
    fn failures_with(self, inner: u64) -> u64
        ensures { result ≡ failed_with self inner }
    {
        match self {
            Due::Past => inner.saturating_add(1),
            _ => inner,
        }
    }
}

/// A source or a drain that fails once, at a call or before a byte, and goes on. Until then, and
/// from then on, it passes each call on; a call that would move the byte before which it fails is
/// cut short there. The call that fails takes nothing and loses nothing. It is for tests.
#[derive(Debug, Drop)]
pub struct Broken<T> {
    inner: T,
    due: Due,
}

impl<T> Broken<T> {
    /// Fails at its nth call, n from 1. At 0 it never does.
    pub fn at_call(inner: T, n: u64) -> Broken<T>
        ensures inner { broken_inner result ≡ inner }
        ensures due { broken_due result ≡ Due.AtCall n }
    {
        Broken {
            inner,
            due: Due::AtCall(n),
        }
    }

    /// Fails at the call that would move its nth byte, n from 1, once those before it have moved.
    /// At 0 it never does. It fails there too where no byte would come.
    pub fn before_byte(inner: T, n: u64) -> Broken<T>
        ensures inner { broken_inner result ≡ inner }
        ensures due { broken_due result ≡ Due.BeforeByte n }
    {
        Broken {
            inner,
            due: Due::BeforeByte(n),
        }
    }

    /// The end within, to look at.
    pub fn get_ref(&self) -> &T
        ensures { result.now ≡ broken_inner self.now }
    {
        &self.inner
    }

    /// The end within.
    pub fn into_inner(self) -> T
        ensures { result ≡ broken_inner self }
    {
        self.inner
    }
}

impl<S: Source> Source for Broken<S> {
    ghost left = { λ broken. S.left (broken_inner broken) };

    ghost failed = { λ broken. failed_with (broken_due broken) (S.failed (broken_inner broken)) };

    /// Reads from the source within, or fails where that is due.
    fn read(&mut self, into: &mut [u8]) -> Result<usize, Failed>
        ensures bound { ReadsAtMost result into.new }
        ensures bytes { ReadConsumes (S.left (broken_inner self.old))
            (S.left (broken_inner self.new)) result into.new }
        ensures counted { CountsFailure
            (failed_with (broken_due self.old) (S.failed (broken_inner self.old)))
            (failed_with (broken_due self.new) (S.failed (broken_inner self.new))) result }

        // The call that is due fails, and the source within isn't asked.
        ensures due { is_due (broken_due self.old) (length into.old) ≡ true
            → (IsErr result) × (broken_inner self.new ≡ broken_inner self.old)
            × (broken_due self.new ≡ Due.Past) }

        // Any other is the source's own, short of the byte that is due.
        ensures passes { is_due (broken_due self.old) (length into.old) ≡ false
            → CountsFailure (S.failed (broken_inner self.old))
            (S.failed (broken_inner self.new)) result }
        ensures after { is_due (broken_due self.old) (length into.old) ≡ false
            → broken_due self.new ≡ due_after (broken_due self.old) (moved result) }
        ensures short { IfOk result
            (λ count. count ≤ reach (broken_due self.old) (length into.old)) }
    {
        if self.due.is_now(into.len()) {
            self.due = Due::Past;
            return Err(Failed);
        }
        let reach = self.due.reach(into.len());
        match self.inner.read(&mut into[..reach]) {
            Ok(count) => {
                self.due = self.due.after(count);
                Ok(count)
            }
            Err(failed) => {
                self.due = self.due.after(0);
                Err(failed)
            }
        }
    }

    fn failures(&self) -> u64 {
        self.due.failures_with(self.inner.failures())
    }
}

impl<D: Drain> Drain for Broken<D> {
    ghost taken = { λ broken. D.taken (broken_inner broken) };

    ghost failed = { λ broken. failed_with (broken_due broken) (D.failed (broken_inner broken)) };

    /// Writes to the drain within, or fails where that is due.
    fn write(&mut self, bytes: &[u8]) -> Result<usize, Failed>
        ensures bound { WritesAtMost result bytes.now }
        ensures some { IfOk result (λ count. 0 < length bytes.now → 0 < count) }
        ensures bytes { WriteAppends (D.taken (broken_inner self.old))
            (D.taken (broken_inner self.new)) result bytes.now }
        ensures counted { CountsFailure
            (failed_with (broken_due self.old) (D.failed (broken_inner self.old)))
            (failed_with (broken_due self.new) (D.failed (broken_inner self.new))) result }

        // The call that is due fails, and the drain within isn't asked.
        ensures due { is_due (broken_due self.old) (length bytes.now) ≡ true
            → (IsErr result) × (broken_inner self.new ≡ broken_inner self.old)
            × (broken_due self.new ≡ Due.Past) }

        // Any other is the drain's own, short of the byte that is due.
        ensures passes { is_due (broken_due self.old) (length bytes.now) ≡ false
            → CountsFailure (D.failed (broken_inner self.old))
            (D.failed (broken_inner self.new)) result }
        ensures after { is_due (broken_due self.old) (length bytes.now) ≡ false
            → broken_due self.new ≡ due_after (broken_due self.old) (moved result) }
        ensures short { IfOk result
            (λ count. count ≤ reach (broken_due self.old) (length bytes.now)) }
    {
        if self.due.is_now(bytes.len()) {
            self.due = Due::Past;
            return Err(Failed);
        }
        let reach = self.due.reach(bytes.len());
        match self.inner.write(&bytes[..reach]) {
            Ok(count) => {
                self.due = self.due.after(count);
                Ok(count)
            }
            Err(failed) => {
                self.due = self.due.after(0);
                Err(failed)
            }
        }
    }

    fn failures(&self) -> u64 {
        self.due.failures_with(self.inner.failures())
    }
}

/// The one failure comes at the nth call, or at the first call on some bytes once n - 1 bytes have
/// moved, and no other comes. `moves` are how many bytes the calls before it have moved.
pub fn broken_fails_once()
    ensures call { (n : ℕ) (moves : List ℕ) (length_now : ℕ)
        → (is_due (fold due_after (Due.AtCall n) moves) length_now ≡ true)
        ↔ (length moves + 1 ≡ n) }
    ensures byte { (n : ℕ) (moves : List ℕ) (length_now : ℕ)
        → (is_due (fold due_after (Due.BeforeByte n) moves) length_now ≡ true)
        ↔ ((sum moves + 1 ≡ n) × (0 < length_now)) }
    ensures over { (moves : List ℕ) (length_now : ℕ)
        → is_due (fold due_after Due.Past moves) length_now ≡ false }
{}
