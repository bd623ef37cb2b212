//! Sources and drains over the readers and writers of std.

ghost use Rattle.std.specs.Prelude.{◌≡◌};
ghost use Rattle.byte_ends.specs.Ends.{ends_inner, ends_failed};
ghost use Rattle.byte_ends.specs.Failures.{OneFailed};

use super::faults::Failed;
use super::traits::{Drain, Source};
use std::io::{Read, Write};

/// A source over any reader of std's, and a drain over any writer. Its bytes are known where
/// those of the reader or writer are. Each error of it is `Failed`, `Interrupted` too, and so is a write that
/// takes nothing of a slice that isn't empty. Reads and writes that failed share one count.
#[derive(Debug, Drop)]
pub struct Ends<T> {
    inner: T,
    failures: u64,
}

impl<T> Ends<T> {
    /// Over this reader or writer, with no failure counted.
    pub fn new(inner: T) -> Ends<T>
        ensures inner { ends_inner result ≡ inner }
        ensures failures { ends_failed result ≡ 0 }
    {
        Ends { inner, failures: 0 }
    }

    /// The reader or writer, to look at.
    pub fn get_ref(&self) -> &T
        ensures { result.now ≡ ends_inner self.now }
    {
        &self.inner
    }

    /// The reader or writer.
    pub fn into_inner(self) -> T
        ensures { result ≡ ends_inner self }
    {
        self.inner
    }

    /// Counts a failure.
    fn failed(&mut self) -> Failed
        ensures inner { ends_inner self.new ≡ ends_inner self.old }
        ensures failures { OneFailed (ends_failed self.old) (ends_failed self.new) }
    {
        self.failures = self.failures.saturating_add(1);
        Failed
    }
}

impl<R: Read> Source for Ends<R> {
    ghost left = { λ ends. R.remaining (ends_inner ends) };

    ghost failed = { ends_failed };

    fn read(&mut self, into: &mut [u8]) -> Result<usize, Failed> {
        match self.inner.read(into) {
            Ok(count) => Ok(count),
            Err(_) => Err(self.failed()),
        }
    }

    fn failures(&self) -> u64 {
        self.failures
    }
}

impl<W: Write> Drain for Ends<W> {
    ghost taken = { λ ends. W.contents (ends_inner ends) };

    ghost failed = { ends_failed };

    fn write(&mut self, bytes: &[u8]) -> Result<usize, Failed> {
        match self.inner.write(bytes) {
            Ok(count) if count > 0 || bytes.is_empty() => Ok(count),
            _ => Err(self.failed()),
        }
    }

    fn failures(&self) -> u64 {
        self.failures
    }
}
