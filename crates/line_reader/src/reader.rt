//! Reads a source in blocks, and hands out its lines.

ghost use Rattle.std.specs.Prelude.{◌≡◌, ◌≢◌, ◌++◌, List, ℕ, false, [], Ok, length, IfOk, IfErr, IsErrOf, OnErr};
ghost use Rattle.std.specs.Io.KnownBytes.{Consumes, IsAtEnd, Keeps};
ghost use Rattle.byte_ends.specs.ReadAll.{CountsRead};
ghost use Rattle.line_reader.specs.Lines.{HasNoLf, HasFirstLf, Hands, PassesLine, PassesHeld};

use super::cut::first_lf;
use byte_ends::{BytesFault, Source, without_cr};
use lattice_core::NoMemory;
use std::alloc::{Allocator, Global};
use std::marker::Model;

/// How many bytes are read at once.
const BLOCK: usize = 65536;

/// Cuts what comes from a source into lines: each ends at an LF, and one carriage return before it is dropped. Bytes
/// that were read past the line that was handed out last are held for the next ones. Contracts see the limit, that
/// line, and what is held.
#[derive(Drop)]
pub struct LineReader<A: Allocator + Copy = Global> {
    bytes: Vec<u8, A>,
    start: usize,
    end: usize,
    next: usize,
    limit: usize,
    block: Vec<u8, A>,
}

impl<A: Allocator + Copy> Model for LineReader<A> {
    ghost use Rattle.std.specs.Prelude.{◌≤◌, ◌-◌, ◌<◌, take, drop, vec_len};
    ghost use Rattle.line_reader.specs.Lines.{Reading, IsPlaced};

    ghost Value = { Reading };

    ghost view = { λ r. record { limit = r.limit; line = take (r.end - r.start) (drop r.start r.bytes.items); held = drop r.next r.bytes.items } };

    ghost invariant = { λ r. IsPlaced r.start r.end r.next (vec_len r.bytes) (vec_len r.block) };
}

impl<A: Allocator + Copy> LineReader<A> {
    /// A reader of lines of at most `limit` bytes, without their LF, that holds nothing yet.
    pub fn new(alloc: A, limit: usize) -> Result<LineReader<A>, NoMemory>
        ensures { IfOk result (λ reader. reader ≡ record { limit = limit; line = []; held = [] }) }
    {
        let block = vec![in alloc; 0u8; BLOCK]?;
        Ok(LineReader {
            bytes: Vec::new(alloc),
            start: 0,
            end: 0,
            next: 0,
            limit,
            block,
        })
    }

    /// Reads the next line, and says whether there is one: where not, the source is at its end, and what is held is a
    /// line without its LF. Refusals: 6 `TooLong`, more than the limit's bytes came with no LF among them; 7
    /// `ReadFault`, the source failed; 8 `NoMemory`. What was read stays held. Where a whole line is held already the
    /// source isn't asked. It costs O(n) for n bytes, each of which is looked at twice at most.
    pub fn next_line<S: Source>(&mut self, source: &mut S) -> Result<bool, BytesFault>
        ensures hands { (came : List ℕ) × Consumes (S.left source.old) (S.left source.new) came
            × Hands self.old came result self.new }
        ensures end { result ≡ Ok false → IsAtEnd (S.left source.new) }
        ensures limit { self.new.limit ≡ self.old.limit }
        ensures prompt { ¬ HasNoLf self.old.held → source.new ≡ source.old }
        ensures counted { CountsRead (S.failed source.old) (S.failed source.new) result }
    {
        if let Some(length) = first_lf(self.held()) {
            return self.hand_out(length);
        }
        self.drop_front();
        self.read_line(source)
    }

    /// Passes over what comes up to the next LF, as the rest of a line that is too long, and says whether there was an
    /// LF: where not, the source is at its end. What was passed over isn't held: beside what was held before a block of
    /// the source is held at most. Where an LF is held already the source isn't asked. Refusals: 6 `TooLong`, no LF was
    /// among 2^64 - 1 blocks, each of at least a byte; 7 `ReadFault`, the source failed; 8 `NoMemory`. What was read until
    /// then is passed over. It costs O(n) for n bytes.
    pub fn pass_over<S: Source>(&mut self, source: &mut S) -> Result<bool, BytesFault>
        ensures passes { (came : List ℕ) × Consumes (S.left source.old) (S.left source.new) came
            × PassesLine self.old.held came result self.new.held }
        ensures end { result ≡ Ok false → IsAtEnd (S.left source.new) }
        ensures limit { self.new.limit ≡ self.old.limit }
        ensures prompt { ¬ HasNoLf self.old.held → source.new ≡ source.old }
        ensures counted { CountsRead (S.failed source.old) (S.failed source.new) result }
    {
        if self.pass_held() {
            return Ok(true);
        }
        for _block in 0..u64::MAX {
            if self.read_block(source)? == 0 {
                return Ok(false);
            }
            if self.pass_held() {
                return Ok(true);
            }
        }
        Err(BytesFault::TooLong)
    }

    /// What was read past the line that was handed out last. It takes no memory.
    pub fn held(&self) -> &[u8]
        ensures { result.now ≡ self.now.held }
    {
        &self.bytes[self.next..]
    }

    /// The line that was handed out last. It takes no memory.
    pub fn line(&self) -> &[u8]
        ensures { result.now ≡ self.now.line }
    {
        &self.bytes[self.start..self.end]
    }
}

impl<A: Allocator + Copy> LineReader<A> {
    /// Drops the bytes before the held ones.
    fn drop_front(&mut self)
        ensures held { self.new.held ≡ self.old.held }
        ensures limit { self.new.limit ≡ self.old.limit }
    {
        self.bytes.drain(..self.next);
        self.start = 0;
        self.end = 0;
        self.next = 0;
    }

    /// Drops the held bytes up to the first LF. Returns whether there was one.
    fn pass_held(&mut self) -> bool
        ensures passes { PassesHeld self.old.held result self.new.held }
        ensures limit { self.new.limit ≡ self.old.limit }
    {
        match first_lf(self.held()) {
            Some(length) => {
                self.next += length + 1;
                true
            }
            None => {
                self.next = self.bytes.len();
                self.drop_front();
                false
            }
        }
    }

    /// Hands out the line of this length that is held, unless it is too long.
    fn hand_out(&mut self, length: usize) -> Result<bool, BytesFault>
        requires { HasFirstLf self.old.held length }
        ensures hands { Hands self.old [] result self.new }
        ensures whole { result ≢ Ok false }
        ensures limit { self.new.limit ≡ self.old.limit }
        ensures fault { IfErr result (λ fault. fault ≡ BytesFault.TooLong) }
    {
        if length > self.limit {
            return Err(BytesFault::TooLong);
        }
        let line = without_cr(&self.held()[..length]).len();
        self.start = self.next;
        self.end = self.next + line;
        self.next += length + 1;
        Ok(true)
    }

    /// Reads on until a line is held, and hands it out.
    fn read_line<S: Source>(&mut self, source: &mut S) -> Result<bool, BytesFault>
        requires { HasNoLf self.old.held }
        ensures hands { (came : List ℕ) × Consumes (S.left source.old) (S.left source.new) came
            × Hands self.old came result self.new }
        ensures end { result ≡ Ok false → IsAtEnd (S.left source.new) }
        ensures limit { self.new.limit ≡ self.old.limit }
        ensures counted { CountsRead (S.failed source.old) (S.failed source.new) result }
    {
        while self.held().len() <= self.limit {
            let scanned = self.held().len();
            if self.read_block(source)? == 0 {
                return Ok(false);
            }
            if let Some(at) = first_lf(&self.held()[scanned..]) {
                return self.hand_out(scanned + at);
            }
        }
        Err(BytesFault::TooLong)
    }

    /// Reads once, and holds what came. 0 is the end.
    fn read_block<S: Source>(&mut self, source: &mut S) -> Result<usize, BytesFault>
        ensures read { IfOk result (λ count. (came : List ℕ) × (length came ≡ count)
            × (self.new.held ≡ self.old.held ++ came)
            × Consumes (S.left source.old) (S.left source.new) came) }
        ensures end { result ≡ Ok 0 → IsAtEnd (S.left source.new) }
        ensures kept { OnErr result ((self.new.held ≡ self.old.held) × Keeps (S.left source.old) (S.left source.new)) }
        ensures limit { self.new.limit ≡ self.old.limit }
        ensures fault { IsErrOf result BytesFault.TooLong → ⊥ }
        ensures counted { CountsRead (S.failed source.old) (S.failed source.new) result }
    {
        if self.bytes.try_reserve(self.block.len()).is_err() {
            return Err(BytesFault::NoMemory);
        }
        let Ok(count) = source.read(self.block.as_mut_slice()) else {
            return Err(BytesFault::ReadFault);
        };
        if self.bytes.extend_from_slice(&self.block[..count]).is_err() {
            unreachable!()
        }
        Ok(count)
    }
}
