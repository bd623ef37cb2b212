//! Reads the text of a snapshot, block by block.

ghost use Rattle.std.specs.Prelude.{◌≡◌, ◌≤◌, ◌<◌, ◌+◌, ◌-◌, ◌^◌, ◌∷◌, ◌++◌, [], ℕ, List, length, IfOk, IfErr, OnOk};
ghost use Rattle.std.specs.Prelude.{IsTrue};
ghost use Rattle.byte_ends.specs.Lines.{as_line, lines_of, without_cr};
ghost use Rattle.line_reader.specs.Lines.{HasNoLf};
ghost use Rattle.review_ops.specs.Operation.{Operation};
ghost use Rattle.replica_core.specs.Journal.{all_arrived};
ghost use Rattle.snapshot_text.specs.Progress.{HasCut, HasRead, HasTaken, IsFaultIn};
ghost use Rattle.snapshot_text.specs.Snapshot.{SaysOperations};

use super::fault::SnapFault;
use super::progress::{Progress, Stage};
use byte_ends::Lines;
use line_batches::{Batches, past_first_lf, past_last_lf};
use line_reader::first_lf;
use replica_core::Gathering;
use std::alloc::Global;

/// How far the text of a snapshot was read, or its first fault, after which nothing more of it is kept.
#[derive(Drop)]
pub(super) struct Blocks {
    pub(super) cutter: Cutter,
    pub(super) fault: Option<SnapFault>,
}

impl Blocks {
    /// Before the text: operations will arrive after what was gathered.
    pub(super) fn onto(gathering: Gathering) -> Blocks
        ensures read { HasRead gathering [] result }
        ensures count { result.cutter.progress.count ≡ 0 }
    {
        Blocks {
            cutter: Cutter::onto(gathering),
            fault: None,
        }
    }

    /// Reads the bytes that come next.
    pub(super) fn take_block<B: Batches>(&mut self, batches: &B, block: &[u8])
        requires { self.old.cutter.progress.count + length block.now < 2 ^ 64 - 2 }
        ensures read { (base : List Operation) → (came : List ℕ) → HasRead base came self.old
            → HasRead base (came ++ block.now) self.new }
        ensures few { self.new.cutter.progress.count ≤ self.old.cutter.progress.count + length block.now }
    {
        if self.fault.is_some() {
            return;
        }
        self.fault = self.cutter.take_block(batches, block).err();
    }

    /// All that was gathered, where no byte is left.
    pub(super) fn end(self) -> Result<Gathering, SnapFault>
        requires { self.cutter.progress.count < 2 ^ 64 - 2 }
        ensures ok { IfOk result (λ both. (base : List Operation) → (came : List ℕ) → HasRead base came self
            → (ops : List Operation) × SaysOperations (lines_of came) ops × (both ≡ all_arrived base ops)) }
        ensures err { IfErr result (λ fault. (base : List Operation) → (came : List ℕ) → HasRead base came self
            → IsFaultIn (lines_of came) fault) }
    {
        let Blocks { cutter, fault } = self;
        match fault {
            Some(fault) => Err(fault),
            None => cutter.end(),
        }
    }
}

/// Cuts what comes into lines, and holds the beginning of the next one.
#[derive(Drop)]
pub(super) struct Cutter {
    pub(super) progress: Progress,
    pub(super) held: Vec<u8>,
}

impl Cutter {
    /// Before the text.
    fn onto(gathering: Gathering) -> Cutter
        ensures cut { HasCut gathering [] result }
        ensures count { result.progress.count ≡ 0 }
    {
        let alloc = gathering.allocator();
        Cutter {
            progress: Progress::onto(gathering),
            held: Vec::new(alloc),
        }
    }

    /// Takes the lines that end in the bytes that come next: the first one by itself, since its beginning may be held,
    /// and those after it at once where they are operations'.
    fn take_block<B: Batches>(&mut self, batches: &B, block: &[u8]) -> Result<(), SnapFault>
        requires { self.old.progress.count + length block.now < 2 ^ 64 - 2 }
        ensures ok { OnOk result ((base : List Operation) → (came : List ℕ) → HasCut base came self.old
            → HasCut base (came ++ block.now) self.new) }
        ensures err { IfErr result (λ fault. (base : List Operation) → (came : List ℕ) → HasCut base came self.old
            → (later : List ℕ) → IsFaultIn (lines_of ((came ++ block.now) ++ later)) fault) }
        ensures few { self.new.progress.count ≤ self.old.progress.count + length block.now }
    {
        let (first, rest) = block.split_at(past_first_lf(block));
        self.take_lines(first)?;
        let (whole, last) = rest.split_at(past_last_lf(rest));
        self.take_whole(batches, whole)?;
        self.take_lines(last)
    }

    /// Takes whole lines, at once where they are operations'.
    fn take_whole<B: Batches>(&mut self, batches: &B, lines: &[u8]) -> Result<(), SnapFault>
        requires { self.old.progress.count + length lines.now < 2 ^ 64 - 2 }
        ensures ok { OnOk result ((base : List Operation) → (came : List ℕ) → HasCut base came self.old
            → HasCut base (came ++ lines.now) self.new) }
        ensures err { IfErr result (λ fault. (base : List Operation) → (came : List ℕ) → HasCut base came self.old
            → (later : List ℕ) → IsFaultIn (lines_of ((came ++ lines.now) ++ later)) fault) }
        ensures few { self.new.progress.count ≤ self.old.progress.count + length lines.now }
    {
        if !self.is_at_operations(lines) {
            return self.take_lines(lines);
        }
        match self.progress.take_batch(batches, lines) {
            Ok(true) => Ok(()),
            Ok(false) => self.take_lines(lines),
            Err(fault) => Err(fault),
        }
    }

    /// Whether whole lines may be read at once: there are some, none is begun, and they come where operations do.
    fn is_at_operations(&self, lines: &[u8]) -> bool
        ensures { IsTrue result → (self.now.held.items ≡ []) × (self.now.progress.stage ≡ Stage.Operations) }
    {
        !lines.is_empty() && self.held.is_empty() && self.progress.is_among_operations()
    }

    /// Takes the lines that end in the bytes that come next, one after the other.
    fn take_lines(&mut self, block: &[u8]) -> Result<(), SnapFault>
        requires { self.old.progress.count + length block.now < 2 ^ 64 - 2 }
        ensures ok { OnOk result ((base : List Operation) → (came : List ℕ) → HasCut base came self.old
            → HasCut base (came ++ block.now) self.new) }
        ensures err { IfErr result (λ fault. (base : List Operation) → (came : List ℕ) → HasCut base came self.old
            → (later : List ℕ) → IsFaultIn (lines_of ((came ++ block.now) ++ later)) fault) }
        ensures few { self.new.progress.count ≤ self.old.progress.count + length block.now }
    {
        let mut rest = block;
        while let Some(at) = first_lf(rest) {
            self.take_piece(rest.split_at(at).0)?;
            rest = rest.split_at(at + 1).1;
        }
        self.hold(rest)
    }

    /// Takes a line, of which what isn't held yet comes with its LF.
    fn take_piece(&mut self, piece: &[u8]) -> Result<(), SnapFault>
        requires plain { HasNoLf piece.now }
        requires few { self.old.progress.count < 2 ^ 64 - 2 }
        ensures ok { OnOk result ((base : List Operation) → (came : List ℕ) → HasCut base came self.old
            → HasCut base (came ++ as_line piece.now) self.new) }
        ensures err { IfErr result (λ fault. (base : List Operation) → (came : List ℕ) → HasCut base came self.old
            → (later : List ℕ) → IsFaultIn (lines_of ((came ++ as_line piece.now) ++ later)) fault) }
        ensures few { self.new.progress.count ≤ self.old.progress.count + 1 }
    {
        if self.held.is_empty() {
            return self.progress.take_line(line_of(piece));
        }
        self.hold(piece)?;
        self.take_held()
    }

    /// Takes the line that is held, whose LF came.
    fn take_held(&mut self) -> Result<(), SnapFault>
        requires { self.old.progress.count < 2 ^ 64 - 2 }
        ensures ok { OnOk result ((base : List Operation) → (came : List ℕ) → HasCut base came self.old
            → HasCut base (came ++ 10 ∷ []) self.new) }
        ensures err { IfErr result (λ fault. (base : List Operation) → (came : List ℕ) → HasCut base came self.old
            → (later : List ℕ) → IsFaultIn (lines_of ((came ++ 10 ∷ []) ++ later)) fault) }
        ensures few { self.new.progress.count ≤ self.old.progress.count + 1 }
    {
        self.progress.take_line(line_of(self.held.as_slice()))?;
        self.held.clear();
        Ok(())
    }

    /// Holds more of the next line.
    fn hold(&mut self, piece: &[u8]) -> Result<(), SnapFault>
        requires { HasNoLf piece.now }
        ensures ok { OnOk result ((base : List Operation) → (came : List ℕ) → HasCut base came self.old
            → HasCut base (came ++ piece.now) self.new) }
        ensures err { IfErr result (λ fault. fault ≡ SnapFault.NoMemory) }
        ensures same { self.new.progress ≡ self.old.progress }
    {
        match self.held.extend_from_slice(piece) {
            Ok(()) => Ok(()),
            Err(_) => Err(SnapFault::NoMemory),
        }
    }

    /// All that was gathered: what is held is the last line, which has no LF.
    fn end(mut self) -> Result<Gathering, SnapFault>
        requires { self.progress.count < 2 ^ 64 - 2 }
        ensures ok { IfOk result (λ both. (base : List Operation) → (came : List ℕ) → HasCut base came self
            → (ops : List Operation) × SaysOperations (lines_of came) ops × (both ≡ all_arrived base ops)) }
        ensures err { IfErr result (λ fault. (base : List Operation) → (came : List ℕ) → HasCut base came self
            → IsFaultIn (lines_of came) fault) }
    {
        self.take_last()?;
        self.progress.end()
    }

    /// Takes what is held as the last line, unless nothing is.
    fn take_last(&mut self) -> Result<(), SnapFault>
        requires { self.old.progress.count < 2 ^ 64 - 2 }
        ensures ok { OnOk result ((base : List Operation) → (came : List ℕ) → HasCut base came self.old
            → HasTaken base (lines_of came) self.new.progress) }
        ensures err { IfErr result (λ fault. (base : List Operation) → (came : List ℕ) → HasCut base came self.old
            → IsFaultIn (lines_of came) fault) }
    {
        if self.held.is_empty() {
            return Ok(());
        }
        self.progress.take_line(line_of(self.held.as_slice()))
    }
}

/// The line of a piece without an LF: one carriage return at its end is dropped.
fn line_of(piece: &[u8]) -> &[u8]
    ensures { HasNoLf piece.now → result.now ≡ without_cr piece.now }
{
    match Lines::new(piece).next_line() {
        Some(line) => line,
        None => piece,
    }
}
