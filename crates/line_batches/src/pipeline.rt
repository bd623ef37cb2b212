//! A gathering into which operations are filed while the lines after theirs are read.

ghost use Rattle.std.specs.Prelude.{◌≡◌, ◌≤◌, ◌∷◌, ◌++◌, [], List, IfOk, IfSome, MatchOption, OnErr, OnOk, length};
ghost use Rattle.line_batches.specs.Batches.{IsBatch};
ghost use Rattle.review_ops.specs.Operation.{Operation};
ghost use Rattle.replica_core.specs.Journal.{all_arrived, arrived};

use super::batches::Batches;
use lattice_core::NoMemory;
use replica_core::Gathering;
use review_ops::Op;
use std::alloc::Global;
use std::marker::Model;
use std::mem;

/// A gathering, and operations that were read and wait to be filed into it. Contracts see the arrivals of both.
#[derive(Drop)]
pub struct Pipeline {
    gathering: Gathering,
    waiting: Vec<Op>,
}

impl Model for Pipeline {
    ghost use Rattle.std.specs.Prelude.{List};
    ghost use Rattle.review_ops.specs.Operation.{Operation};
    ghost use Rattle.replica_core.specs.Journal.{all_arrived};

    ghost Value = { List Operation };

    ghost view = { λ p. all_arrived p.gathering p.waiting.items };
}

impl Pipeline {
    /// What was gathered, after which operations will come.
    pub fn onto(gathering: Gathering) -> Pipeline
        ensures { result ≡ gathering }
    {
        let waiting = Vec::new(gathering.allocator());
        Pipeline { gathering, waiting }
    }

    /// The allocator that it takes memory from.
    pub fn allocator(&self) -> Global {
        self.gathering.allocator()
    }

    /// Takes an operation. If memory is refused nothing changes. It costs what a gathering's `take` costs.
    pub fn take(&mut self, op: Op) -> Result<(), NoMemory>
        ensures ok { OnOk result (self.new ≡ arrived self.old op) }
        ensures err { OnErr result (self.new ≡ self.old) }
    {
        if self.waiting.is_empty() {
            return file(&mut self.gathering, op);
        }
        wait(&mut self.waiting, op)
    }

    /// Takes the operations of whole lines, in their order, and answers how many they are; or takes nothing, where
    /// `batches` leaves them to be read one by one. Those that came before are filed meanwhile. If memory is refused
    /// all that came is dropped.
    pub fn take_lines<B: Batches>(
        &mut self,
        batches: &B,
        lines: &[u8],
    ) -> Result<Option<usize>, NoMemory>
        ensures ok { IfOk result (λ read. MatchOption read (self.new ≡ self.old)
            (λ count. (ops : List Operation) × IsBatch lines.now ops × (count ≡ length ops)
            × (self.new ≡ all_arrived self.old ops))) }
        ensures few { IfOk result (λ read. IfSome read (λ count. count ≤ length lines.now)) }
        ensures err { OnErr result (self.new ≡ []) }
    {
        let alloc = self.allocator();
        let gathering = mem::replace(&mut self.gathering, Gathering::new(alloc));
        let waiting = mem::replace(&mut self.waiting, Vec::new(alloc));
        let (gathering, read) = batches.file_and_read(gathering, waiting, lines)?;
        self.gathering = gathering;
        let Some(ops) = read else {
            return Ok(None);
        };
        let count = ops.len();
        self.waiting = ops;
        Ok(Some(count))
    }

    /// All that came, filed.
    pub fn end(self) -> Result<Gathering, NoMemory>
        ensures { IfOk result (λ gathering. gathering ≡ self) }
    {
        let Pipeline { gathering, waiting } = self;
        filed(gathering, waiting)
    }
}

/// Files an operation into a gathering.
fn file(gathering: &mut Gathering, op: Op) -> Result<(), NoMemory>
    ensures ok { OnOk result (gathering.new ≡ arrived gathering.old op) }
    ensures err { OnErr result (gathering.new ≡ gathering.old) }
{
    match gathering.take(op) {
        Ok(_) => Ok(()),
        Err(refused) => Err(refused),
    }
}

/// Has an operation wait after others.
fn wait(waiting: &mut Vec<Op>, op: Op) -> Result<(), NoMemory>
    ensures ok { OnOk result (waiting.new.items ≡ waiting.old.items ++ op ∷ []) }
    ensures err { OnErr result (waiting.new.items ≡ waiting.old.items) }
{
    match waiting.push(op) {
        Ok(()) => Ok(()),
        Err(_) => Err(NoMemory),
    }
}

/// A gathering with these operations after its own.
pub(super) fn filed(gathering: Gathering, ops: Vec<Op>) -> Result<Gathering, NoMemory>
    ensures { IfOk result (λ both. both ≡ all_arrived gathering ops.items) }
{
    let mut both = gathering;
    for op in ops {
        file(&mut both, op)?;
    }
    Ok(both)
}
