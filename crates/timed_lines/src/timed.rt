//! A drain whose lines begin with the time at which they are written.

ghost use Rattle.std.specs.Prelude.{◌≡◌, ◌++◌, ◌<◌, ◌≤◌, ℕ, [], IfOk, List, None, Ok, OnErr, false, length, take};
ghost use Rattle.std.specs.Io.{WritesAtMost};
ghost use Rattle.std.specs.Io.KnownBytes.{Appends, WriteAppends};
ghost use Rattle.byte_ends.specs.Failures.{CountsFailure};
ghost use Rattle.timed_lines.specs.Times.{IsWithinLine, Stamps, WritesFront, WritesPart, is_open};

use super::moments::Moments;
use super::stamp::{FRONT, joined, stamp_of};
use byte_ends::{Drain, Failed, write_all};
use memchr::memchr;

/// A drain whose lines begin with the time: before each line the clock is read, and the moment is written in RFC 3339,
/// in UTC, with milliseconds, and a space, and the line after it in the same write, up to 4,056 bytes of it. Where the
/// clock can't be read the line goes without. A line that is handed over in pieces, or doesn't end, has one time.
#[derive(Drop)]
pub struct Timed<M, D> {
    moments: M,
    inner: D,
    /// Whether a line was begun that hasn't ended.
    is_in_line: bool,
}

impl<M: Moments, D: Drain> Timed<M, D> {
    /// Over a drain whose last line has ended.
    pub fn new(moments: M, inner: D) -> Timed<M, D>
        ensures ends { (result.moments ≡ moments) × (result.inner ≡ inner) }
        ensures line { result.is_in_line ≡ false }
    {
        Timed {
            moments,
            inner,
            is_in_line: false,
        }
    }

    /// Writes the time, and after it the front of a line, at least a byte of it. Answers how many of the line's bytes
    /// these were.
    fn begin(&mut self, line: &[u8]) -> Result<usize, Failed>
        requires { 0 < length line.now }
        ensures few { IfOk result (λ count. (0 < count) × (count ≤ length line.now)) }
        ensures begun { IfOk result (λ count. (stamp : List ℕ)
            × Stamps M.reads false self.old.moments stamp self.new.moments
            × Appends (D.taken self.old.inner) (D.taken self.new.inner) (stamp ++ take count line.now)) }
        ensures cut { OnErr result ((stamp : List ℕ) × (count : ℕ)
            × Stamps M.reads false self.old.moments stamp self.new.moments
            × Appends (D.taken self.old.inner) (D.taken self.new.inner) (take count (stamp ++ line.now))) }
        ensures same { self.new.is_in_line ≡ self.old.is_in_line }
        ensures counted { CountsFailure (D.failed self.old.inner) (D.failed self.new.inner) result }
    {
        let stamp = stamp_of(self.moments.moment());
        let front = &line[..line.len().min(FRONT)];
        let text = joined(stamp.as_str().as_bytes(), front);
        write_all(&mut self.inner, text.as_slice())?;
        Ok(front.len())
    }
}

impl<M: Moments + Drop, D: Drain> Timed<M, D> {
    /// The drain.
    pub fn into_inner(self) -> D
        ensures { result ≡ self.inner }
    {
        let Timed { inner, .. } = self;
        inner
    }
}

impl<M: Moments, D: Drain> Drain for Timed<M, D> {
    ghost taken = { λ timed. None };

    ghost failed = { λ timed. D.failed timed.inner };

    /// Writes of one line at most, after the time where the line begins.
    fn write(&mut self, bytes: &[u8]) -> Result<usize, Failed>
        ensures bound { WritesAtMost result bytes.now }
        ensures some { IfOk result (λ count. 0 < length bytes.now → 0 < count) }
        ensures bytes { WriteAppends None None result bytes.now }
        ensures counted { CountsFailure (D.failed self.old.inner) (D.failed self.new.inner) result }
        ensures empty { bytes.now ≡ [] → (result ≡ Ok 0) × (self.new ≡ self.old) }
        ensures part { IfOk result (λ count. 0 < length bytes.now → WritesPart M.reads bytes.now count
            self.old.is_in_line self.old.moments (D.taken self.old.inner)
            self.new.is_in_line self.new.moments (D.taken self.new.inner)) }
        ensures cut { OnErr result (WritesFront M.reads bytes.now
            self.old.is_in_line self.old.moments (D.taken self.old.inner)
            self.new.is_in_line self.new.moments (D.taken self.new.inner)) }
    {
        if bytes.is_empty() {
            return Ok(0);
        }
        let line = line_part(bytes);
        let count = if self.is_in_line {
            self.inner.write(line)?
        } else {
            self.begin(line)?
        };
        self.is_in_line = is_open(&line[..count]);
        Ok(count)
    }

    fn failures(&self) -> u64 {
        self.inner.failures()
    }
}

/// The front of some bytes up to their first LF, and with it, or all of them.
fn line_part(bytes: &[u8]) -> &[u8]
    requires { 0 < length bytes.now }
    ensures front { result.now ≡ take (length result.now) bytes.now }
    ensures some { 0 < length result.now }
    ensures few { length result.now ≤ length bytes.now }
    ensures line { IsWithinLine bytes.now (length result.now) }
{
    match memchr(b'\n', bytes) {
        Some(at) => &bytes[..at + 1],
        None => bytes,
    }
}

/// Whether a part of a line leaves the line open.
fn is_open(part: &[u8]) -> bool
    requires { 0 < length part.now }
    ensures { result ≡ is_open part.now }
{
    part[part.len() - 1] != b'\n'
}
