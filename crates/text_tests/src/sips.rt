//! A source that gives few bytes at once, or bytes without end.

ghost use Rattle.std.specs.Prelude.{◌≤◌, length};

use byte_ends::{Failed, Source};

/// The bytes of a text, of which each read gives so many at most, and where it is endless whatever is in the slice
/// after them.
#[derive(Drop)]
pub(super) struct Sips<'a> {
    rest: &'a [u8],
    most: usize,
    is_endless: bool,
}

impl<'a> Sips<'a> {
    /// The text, in sips.
    pub(super) fn new(text: &'a [u8], most: usize) -> Sips<'a> {
        Sips {
            rest: text,
            most,
            is_endless: false,
        }
    }

    /// The text and what never ends.
    pub(super) fn endless(text: &'a [u8]) -> Sips<'a> {
        Sips {
            rest: text,
            most: usize::MAX,
            is_endless: true,
        }
    }

    /// Puts the bytes that come next into the slice, and says how many.
    fn sip(&mut self, into: &mut [u8]) -> usize
        ensures { result ≤ length into.new }
    {
        let count = self.most.min(self.rest.len()).min(into.len());
        let (now, later) = self.rest.split_at(count);
        self.rest = later;
        into[..count].copy_from_slice(now);
        count
    }
}

impl<'a> Source for Sips<'a> {
    ghost use Rattle.std.specs.Prelude.{None};

    ghost left = { λ _. None };

    ghost failed = { λ _. 0 };

    fn read(&mut self, into: &mut [u8]) -> Result<usize, Failed> {
        if self.is_endless && self.rest.is_empty() {
            return Ok(into.len());
        }
        Ok(self.sip(into))
    }

    fn failures(&self) -> u64 {
        0
    }
}
