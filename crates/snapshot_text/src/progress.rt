//! Takes the lines of a snapshot, one after the other.

ghost use Rattle.std.specs.Prelude.{◌≡◌, ◌≢◌, ◌↔◌, ◌≤◌, ◌<◌, ◌+◌, ◌-◌, ◌^◌, ◌∷◌, ◌++◌, [], ℕ, List, IsTrue, IfOk};
ghost use Rattle.std.specs.Prelude.{IfErr, MatchResult, OnOk, false, length, true};
ghost use Rattle.review_ops.specs.Operation.{Operation};
ghost use Rattle.line_batches.specs.Batches.{IsBatch};
ghost use Rattle.op_text.specs.Spelling.{SpellsOperation};
ghost use Rattle.replica_core.specs.Journal.{arrived, all_arrived};
ghost use Rattle.snapshot_text.specs.Progress.{HasTaken, IsFaultIn};
ghost use Rattle.snapshot_text.specs.Reading.{IsLineFault, line_fault_of};
ghost use Rattle.snapshot_text.specs.Snapshot.{IsHeader, SaysOperations};

use super::end_line::claimed;
use super::fault::SnapFault;
use line_batches::{Batches, Pipeline};
use op_text::{OpTextFault, read_op};
use replica_core::Gathering;
use review_ops::Op;
use std::alloc::Global;

/// Which line comes next.
#[derive(Clone, Copy)]
pub(super) enum Stage {
    /// The first line, which says the version.
    Header,
    /// An operation's line or the end line.
    Operations,
    /// None: the end line came.
    Ended,
}

/// What was taken of a snapshot's lines so far: their operations, and how many lines of operations there were.
#[derive(Drop)]
pub(super) struct Progress {
    pub(super) gathering: Pipeline,
    pub(super) stage: Stage,
    pub(super) count: u64,
}

impl Progress {
    /// Before the first line: operations will arrive after what was gathered.
    pub(super) fn onto(gathering: Gathering) -> Progress
        ensures taken { HasTaken gathering [] result }
        ensures count { result.count ≡ 0 }
    {
        Progress {
            gathering: Pipeline::onto(gathering),
            stage: Stage::Header,
            count: 0,
        }
    }

    /// Takes the next line.
    pub(super) fn take_line(&mut self, line: &[u8]) -> Result<(), SnapFault>
        requires { self.old.count < 2 ^ 64 - 2 }
        ensures ok { OnOk result ((base : List Operation) → (lines : List (List ℕ)) → HasTaken base lines self.old
            → HasTaken base (lines ++ line.now ∷ []) self.new) }
        ensures err { IfErr result (λ fault. (base : List Operation) → (lines : List (List ℕ))
            → HasTaken base lines self.old
            → (later : List (List ℕ)) → IsFaultIn (lines ++ line.now ∷ later) fault) }
        ensures few { self.new.count ≤ self.old.count + 1 }
    {
        match self.stage {
            Stage::Header => self.take_header(line),
            Stage::Operations => match claimed(line) {
                Some(said) => self.take_end(said),
                None => self.take_operation(line),
            },
            Stage::Ended => Err(SnapFault::AfterEnd),
        }
    }

    /// Whether the next line may be an operation's.
    pub(super) fn is_among_operations(&self) -> bool
        ensures { result ≡ true → self.now.stage ≡ Stage.Operations }
    {
        matches!(self.stage, Stage::Operations)
    }

    /// Takes the operations of whole lines that come next, and answers true; or takes nothing, where they aren't read
    /// at once.
    pub(super) fn take_batch<B: Batches>(
        &mut self,
        batches: &B,
        lines: &[u8],
    ) -> Result<bool, SnapFault>
        requires { self.old.count + length lines.now < 2 ^ 64 - 2 }
        ensures read { IfOk result (λ read. read ≡ true → (ops : List Operation) × IsBatch lines.now ops
            × (self.new ≡ record self.old {
              gathering = all_arrived self.old.gathering ops;
              count = self.old.count + length ops;
            })) }
        ensures left { IfOk result (λ read. read ≡ false → self.new ≡ self.old) }
        ensures err { IfErr result (λ fault. fault ≡ SnapFault.NoMemory) }
        ensures few { self.new.count ≤ self.old.count + length lines.now }
    {
        match self.gathering.take_lines(batches, lines) {
            Ok(Some(count)) => {
                self.count += count as u64;
                Ok(true)
            }
            Ok(None) => Ok(false),
            Err(_) => Err(SnapFault::NoMemory),
        }
    }

    /// All that was gathered, where no line is left.
    pub(super) fn end(self) -> Result<Gathering, SnapFault>
        ensures ok { IfOk result (λ both. (base : List Operation) → (lines : List (List ℕ))
            → HasTaken base lines self
            → (ops : List Operation) × SaysOperations lines ops × (both ≡ all_arrived base ops)) }
        ensures err { IfErr result (λ fault. (base : List Operation) → (lines : List (List ℕ))
            → HasTaken base lines self → IsFaultIn lines fault) }
    {
        match self.stage {
            Stage::Header => Err(SnapFault::BadHeader),
            Stage::Operations => Err(SnapFault::NoEnd),
            Stage::Ended => filed(self.gathering),
        }
    }

    /// Takes the first line.
    fn take_header(&mut self, line: &[u8]) -> Result<(), SnapFault>
        ensures header { MatchResult result
            (λ _. IsHeader line.now × (self.new ≡ record self.old { stage = Stage.Operations }))
            (λ fault. (¬ IsHeader line.now) × (fault ≡ SnapFault.BadHeader)) }
        ensures count { self.new.count ≡ self.old.count }
    {
        if !is_header(line) {
            return Err(SnapFault::BadHeader);
        }
        self.stage = Stage::Operations;
        Ok(())
    }

    /// Takes an end line that says this number.
    fn take_end(&mut self, said: u128) -> Result<(), SnapFault>
        ensures end { MatchResult result
            (λ _. (said ≡ self.old.count) × (self.new ≡ record self.old { stage = Stage.Ended }))
            (λ fault. (said ≢ self.old.count) × (fault ≡ SnapFault.BadCount)) }
        ensures count { self.new.count ≡ self.old.count }
    {
        if said != u128::from(self.count) {
            return Err(SnapFault::BadCount);
        }
        self.stage = Stage::Ended;
        Ok(())
    }

    /// Takes the line of an operation, whose number is that of those before it and two more.
    fn take_operation(&mut self, line: &[u8]) -> Result<(), SnapFault>
        requires { self.old.count < 2 ^ 64 - 2 }
        ensures ok { OnOk result ((op : Operation) × SpellsOperation line.now op
            × (self.new ≡ record self.old { gathering = arrived self.old.gathering op; count = self.old.count + 1 })) }
        ensures err { IfErr result (IsLineFault line.now (self.old.count + 2)) }
        ensures count { self.new.count ≤ self.old.count + 1 }
    {
        take_op(&mut self.gathering, line, self.count + 2)?;
        self.count += 1;
        Ok(())
    }
}

/// All that came, filed.
fn filed(gathering: Pipeline) -> Result<Gathering, SnapFault>
    ensures ok { IfOk result (λ both. both ≡ gathering) }
    ensures err { IfErr result (λ fault. fault ≡ SnapFault.NoMemory) }
{
    match gathering.end() {
        Ok(both) => Ok(both),
        Err(_) => Err(SnapFault::NoMemory),
    }
}

/// Takes the operation of the line with this number.
fn take_op(gathering: &mut Pipeline, line: &[u8], number: u64) -> Result<(), SnapFault>
    ensures ok { OnOk result ((op : Operation) × SpellsOperation line.now op
        × (gathering.new ≡ arrived gathering.old op)) }
    ensures err { IfErr result (IsLineFault line.now number) }
{
    let op = match read_op(gathering.allocator(), line) {
        Ok(op) => op,
        Err(cause) => return Err(line_fault(number, cause)),
    };
    arrive(gathering, op)
}

/// Takes an operation.
fn arrive(gathering: &mut Pipeline, op: Op) -> Result<(), SnapFault>
    ensures ok { OnOk result (gathering.new ≡ arrived gathering.old op) }
    ensures err { IfErr result (λ fault. fault ≡ SnapFault.NoMemory) }
{
    match gathering.take(op) {
        Ok(_) => Ok(()),
        Err(_) => Err(SnapFault::NoMemory),
    }
}

/// How it is reported that the line with this number isn't read.
fn line_fault(number: u64, cause: OpTextFault) -> SnapFault
    ensures { result ≡ line_fault_of number cause }
{
    match cause {
        OpTextFault::NoMemory => SnapFault::NoMemory,
        cause => SnapFault::BadLine(number, cause),
    }
}

/// Whether a line is the header of a version that is read.
fn is_header(line: &[u8]) -> bool
    ensures { IsTrue result ↔ IsHeader line.now }
{
    line == b"reviewgate 1".as_slice() || line == b"reviewgate 2".as_slice()
}
