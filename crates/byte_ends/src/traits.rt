//! What bytes are read from, and what they are written to.

ghost use Rattle.std.specs.Prelude.{◌≡◌, ℕ, ◌<◌, ◌≤◌, List, length, IfOk, IsOk, Option, Result};
ghost use Rattle.std.specs.Io.{ReadsAtMost, WritesAtMost};
ghost use Rattle.std.specs.Io.KnownBytes.{ReadConsumes, WriteAppends};
ghost use Rattle.byte_ends.specs.Failures.{CountsFailure, NoneFailed, most_failures};
ghost use Rattle.byte_ends.specs.declared.faults.Failed.{Failed};

use super::faults::Failed;

/// What bytes are read from.
pub trait Source {
    /// The bytes that reads will give from here on, where they are known.
    ghost left: { Self → Option (List ℕ) };

    /// How many reads have failed. The count stays at `u64::MAX`.
    ghost failed: { Self → ℕ };

    /// Reads some bytes into the front of the slice, and answers how many. 0 on a slice that isn't
    /// empty is the end. A read that fails has taken nothing, and the next one may succeed.
    fn read(&mut self, into: &mut [u8]) -> Result<usize, Failed>
        ensures bound { ReadsAtMost result into.new }
        ensures bytes { ReadConsumes (left self.old) (left self.new) result into.new }
        ensures counted { CountsFailure (failed self.old) (failed self.new) result };

    /// How many reads have failed. The count stays at `u64::MAX`.
    fn failures(&self) -> u64
        ensures { result ≡ failed self.now };
}

/// What bytes are written to.
pub trait Drain {
    /// The bytes that were taken so far, where they are known.
    ghost taken: { Self → Option (List ℕ) };

    /// How many writes have failed. The count stays at `u64::MAX`.
    ghost failed: { Self → ℕ };

    /// Takes bytes from the front of the slice, at least one where there is one, and answers how many.
    /// A write that fails has taken nothing, and the next one may succeed.
    fn write(&mut self, bytes: &[u8]) -> Result<usize, Failed>
        ensures bound { WritesAtMost result bytes.now }
        ensures some { IfOk result (λ count. 0 < length bytes.now → 0 < count) }
        ensures bytes { WriteAppends (taken self.old) (taken self.new) result bytes.now }
        ensures counted { CountsFailure (failed self.old) (failed self.new) result };

    /// How many writes have failed. The count stays at `u64::MAX`.
    fn failures(&self) -> u64
        ensures { result ≡ failed self.now };
}

/// A mutable borrow of a source is a source.
impl<S: Source> Source for &mut S {
    ghost left = { λ source. S.left source.now };

    ghost failed = { λ source. S.failed source.now };

    fn read(&mut self, into: &mut [u8]) -> Result<usize, Failed> {
        Source::read(&mut **self, into)
    }

    fn failures(&self) -> u64 {
        Source::failures(&**self)
    }
}

/// A mutable borrow of a drain is a drain.
impl<D: Drain> Drain for &mut D {
    ghost taken = { λ drain. D.taken drain.now };

    ghost failed = { λ drain. D.failed drain.now };

    fn write(&mut self, bytes: &[u8]) -> Result<usize, Failed> {
        Drain::write(&mut **self, bytes)
    }

    fn failures(&self) -> u64 {
        Drain::failures(&**self)
    }
}

/// What a caller learns from two counts of failures: where they are equal, below the greatest, each
/// call between them answered `Ok`; and a count never falls.
pub fn none_failed_means_ok()
    ensures ok { (old new : ℕ) (answer : Result ℕ Failed)
        → CountsFailure old new answer → NoneFailed old new → IsOk answer }
    ensures between { (old mid new : ℕ)
        → old ≤ mid → mid ≤ new → NoneFailed old new → NoneFailed old mid × NoneFailed mid new }
    ensures rises { (old new : ℕ) (answer : Result ℕ Failed)
        → old ≤ most_failures → CountsFailure old new answer → old ≤ new }
{}
