//! Reads sealed lines.

ghost use Rattle.std.specs.Prelude.{◌≡◌, ◌≢◌, ◌<◌, ◌≤◌, ◌-◌, ◌++◌, [], List, ℕ, IfErr, IfOk, None, OnErr, OnOk, Ok, false, true, drop, length};
ghost use Rattle.std.specs.Io.{ReadsAtMost};
ghost use Rattle.std.specs.Io.KnownBytes.{IsAtEnd, Keeps, ReadConsumes};
ghost use Rattle.byte_ends.specs.Failures.{CountsFailure};
ghost use Rattle.line_reader.specs.Lines.{HasNoLf};
ghost use Rattle.sealed_ends.specs.Opened.{FailsBy, failed_by, fault_by, held_by, left_by, left_of, opens_under, source_within};
ghost use Rattle.sealed_ends.specs.Unread.{CountsOpenRead, IsNoBlockRead, IsFrontUnopened, IsUnreadSeal};

use super::bytes::drop_front;
use super::fault::OpenFault;
use byte_ends::{Failed, Source};
use line_reader::first_lf;
use sealed_line::{SEALED_LIMIT, Seal};
use std::alloc::Global;

/// How many bytes are read at once.
const BLOCK: usize = 4096;

/// The texts of a source's sealed lines, each with its line end. A line that isn't sealed as it has to be, one that
/// lacks its end and one that is too long fail each read from then on; they are never the end.
#[derive(Drop)]
pub struct SealedSource<S> {
    alloc: Global,
    source: S,
    seal: Seal,
    /// What was read and isn't opened.
    held: Vec<u8>,
    /// What was opened and isn't read.
    ready: Vec<u8>,
    failures: u64,
    /// Why the last read that failed did.
    fault: Option<OpenFault>,
}

impl<S: Source> SealedSource<S> {
    /// The texts of a source's lines, which are opened by this seal.
    pub fn new(alloc: Global, source: S, seal: Seal) -> SealedSource<S>
        ensures within { source_within result ≡ source }
        ensures seal { opens_under result ≡ seal }
        ensures left { left_by S.left result ≡ left_of [] seal [] (S.left source) }
        ensures failed { failed_by result ≡ 0 }
        ensures fault { fault_by result ≡ None }
    {
        SealedSource {
            alloc,
            source,
            seal,
            held: Vec::new(alloc),
            ready: Vec::new(alloc),
            failures: 0,
            fault: None,
        }
    }

    /// Why the last read that failed did; nothing where none has.
    pub fn fault(&self) -> Option<OpenFault>
        ensures { result ≡ fault_by self.now }
    {
        self.fault
    }

    /// Opens a line, where none is ready; none is ready after that only at the end.
    fn fill(&mut self) -> Result<(), OpenFault>
        ensures kept { Keeps (left_of self.old.ready.items self.old.seal self.old.held.items (S.left self.old.source))
            (left_of self.new.ready.items self.new.seal self.new.held.items (S.left self.new.source)) }
        ensures counted { self.new.failures ≡ self.old.failures }
        ensures end { OnOk result (self.new.ready.items ≡ [] → (self.new.held.items ≡ []) × IsAtEnd (S.left self.new.source)) }
        ensures why { IfErr result (IsUnreadSeal self.new.seal self.new.held.items (S.left self.new.source)) }
        ensures read { CountsOpenRead (S.failed self.old.source) (S.failed self.new.source) result }
    {
        if !self.ready.is_empty() {
            return Ok(());
        }
        match self.hold_line() {
            Ok(true) => self.open_line(),
            Ok(false) => Ok(()),
            Err(fault) => Err(fault),
        }
    }

    /// Reads on until a line is held whole; false at the end, where nothing is held.
    fn hold_line(&mut self) -> Result<bool, OpenFault>
        ensures kept { Keeps (left_of self.old.ready.items self.old.seal self.old.held.items (S.left self.old.source))
            (left_of self.new.ready.items self.new.seal self.new.held.items (S.left self.new.source)) }
        ensures counted { self.new.failures ≡ self.old.failures }
        ensures same { self.new.ready.items ≡ self.old.ready.items }
        ensures end { result ≡ Ok false → (self.new.held.items ≡ []) × IsAtEnd (S.left self.new.source) }
        ensures whole { result ≡ Ok true → ¬ HasNoLf self.new.held.items }
        ensures why { IfErr result (IsUnreadSeal self.new.seal self.new.held.items (S.left self.new.source)) }
        ensures read { CountsOpenRead (S.failed self.old.source) (S.failed self.new.source) result }
    {
        if first_lf(self.held.as_slice()).is_some() {
            return Ok(true);
        }
        while self.held.len() <= SEALED_LIMIT {
            let count = match self.read_block() {
                Ok(count) => count,
                Err(fault) => return Err(fault),
            };
            if count == 0 {
                return self.at_end();
            }
            if self.has_lf(count) {
                return Ok(true);
            }
        }
        Err(OpenFault::LongLine)
    }

    /// Whether an LF is among so many bytes that are held last.
    fn has_lf(&self, count: usize) -> bool
        requires { count ≤ length self.now.held.items }
        ensures yes { result ≡ true → ¬ HasNoLf self.now.held.items }
        ensures plain { result ≡ false → HasNoLf (drop (length self.now.held.items - count) self.now.held.items) }
    {
        let (_, last) = self.held.as_slice().split_at(self.held.len() - count);
        match first_lf(last) {
            Some(_) => true,
            None => false,
        }
    }

    /// Says that the source is at its end, unless a line lacks its own.
    fn at_end(&self) -> Result<bool, OpenFault>
        ensures empty { result ≡ Ok false → self.now.held.items ≡ [] }
        ensures never { result ≢ Ok true }
        ensures cut { IfErr result (λ fault. (fault ≡ OpenFault.CutLine) × (self.now.held.items ≢ [])) }
    {
        if self.held.is_empty() {
            return Ok(false);
        }
        Err(OpenFault::CutLine)
    }

    /// Reads once, and holds what came.
    fn read_block(&mut self) -> Result<usize, OpenFault>
        ensures kept { Keeps (left_of self.old.ready.items self.old.seal self.old.held.items (S.left self.old.source))
            (left_of self.new.ready.items self.new.seal self.new.held.items (S.left self.new.source)) }
        ensures counted { self.new.failures ≡ self.old.failures }
        ensures same { self.new.ready.items ≡ self.old.ready.items }
        ensures held { IfOk result (λ count. (came : List ℕ) × (length came ≡ count) × (self.new.held.items ≡ self.old.held.items ++ came)) }
        ensures lost { OnErr result (self.new.held.items ≡ self.old.held.items) }
        ensures end { result ≡ Ok 0 → IsAtEnd (S.left self.new.source) }
        ensures fault { IfErr result IsNoBlockRead }
        ensures read { CountsOpenRead (S.failed self.old.source) (S.failed self.new.source) result }
    {
        let mut block = [0; BLOCK];
        if self.held.try_reserve(BLOCK).is_err() {
            return Err(OpenFault::NoMemory);
        }
        let Ok(count) = self.source.read(&mut block) else {
            return Err(OpenFault::ReadFault);
        };
        if self.held.extend_from_slice(&block[..count]).is_err() {
            unreachable!()
        }
        Ok(count)
    }

    /// Opens the first line that is held.
    fn open_line(&mut self) -> Result<(), OpenFault>
        requires none { self.old.ready.items ≡ [] }
        requires whole { ¬ HasNoLf self.old.held.items }
        ensures kept { Keeps (left_of self.old.ready.items self.old.seal self.old.held.items (S.left self.old.source))
            (left_of self.new.ready.items self.new.seal self.new.held.items (S.left self.new.source)) }
        ensures counted { self.new.failures ≡ self.old.failures }
        ensures some { OnOk result (self.new.ready.items ≢ []) }
        ensures why { IfErr result (IsFrontUnopened self.new.seal self.new.held.items) }
        ensures read { S.failed self.new.source ≡ S.failed self.old.source }
    {
        let Some(at) = first_lf(self.held.as_slice()) else {
            unreachable!()
        };
        match self
            .seal
            .open(self.alloc, &self.held[..at], &mut self.ready)
        {
            Ok(()) => {
                drop_front(&mut self.held, at + 1);
                Ok(())
            }
            Err(fault) => Err(OpenFault::of(fault)),
        }
    }
}

impl<S: Source> Source for SealedSource<S> {
    ghost left = { left_by S.left };

    ghost failed = { failed_by };

    /// Reads from what is opened. Where it says that the end is there, the source within is at its end, and no line
    /// lacks its own. Where it fails, `fault` says why from then on.
    fn read(&mut self, into: &mut [u8]) -> Result<usize, Failed>
        ensures bound { ReadsAtMost result into.new }
        ensures bytes { ReadConsumes (left_by S.left self.old) (left_by S.left self.new) result into.new }
        ensures counted { CountsFailure (failed_by self.old) (failed_by self.new) result }
        ensures honest { result ≡ Ok 0 → 0 < length into.old
            → (held_by self.new ≡ []) × IsAtEnd (S.left (source_within self.new)) }
        ensures why { OnErr result (FailsBy S.left S.failed self.old self.new) }
    {
        if let Err(fault) = self.fill() {
            self.failures = self.failures.saturating_add(1);
            self.fault = Some(fault);
            return Err(Failed);
        }
        let count = self.ready.as_slice().len().min(into.len());
        into[..count].copy_from_slice(&self.ready[..count]);
        drop_front(&mut self.ready, count);
        Ok(count)
    }

    fn failures(&self) -> u64 {
        self.failures
    }
}
