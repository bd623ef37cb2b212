//! How the operations of many lines are read, and their effects joined, at once.

ghost use Rattle.std.specs.Prelude.{◌≡◌, ◌++◌, ◌<◌, ◌≤◌, IfOk, IfSome, List, map};
ghost use Rattle.line_batches.specs.Batches.{IsBatch};
ghost use Rattle.replica_core.specs.Journal.{all_arrived};
ghost use Rattle.review_ops.specs.Operation.{Operation};
ghost use Rattle.state_core.specs.State.{state_of};

use super::parts::{consume_parts, join_parts, joined};
use super::pipeline::filed;
use super::reading::{Beside, read_beside};
use lattice_core::NoMemory;
use replica_core::{EffectJoiner, Gathering};
use review_ops::Op;
use state_core::State;
use std::alloc::Global;
use std::thread::Threads;

/// How many bytes are read at once where lines are read one by one: 64 KiB.
const SMALL: usize = 65_536;

/// How many bytes are read at once where they are read side by side: 8 MiB.
const LARGE: usize = 8_388_608;

/// The fewest bytes that are worth threads: 128 KiB.
const LEAST: usize = 131_072;

/// The fewest operations whose effects are worth threads.
const FEWEST: usize = 16_384;

/// In how many parts lines are read and effects joined side by side.
const PARTS: usize = 4;

/// Reads the operations of many lines at once, or leaves them to be read one by one; and joins the effects of many
/// operations.
pub trait Batches: EffectJoiner {
    /// How many bytes it wants at once, from 1 to 8 MiB.
    fn size(&self) -> usize
        ensures { (0 < result) × (result ≤ 8388608) };

    /// Files operations into a gathering, and meanwhile reads those of whole lines, in their order. The latter are
    /// `None` where a line isn't whole, is longer than 524,288 bytes, or isn't an operation's from its first brace to
    /// its last; where memory is refused for them; or where they are left to be read one by one.
    fn file_and_read(
        &self,
        gathering: Gathering,
        ops: Vec<Op>,
        lines: &[u8],
    ) -> Result<(Gathering, Option<Vec<Op>>), NoMemory>
        ensures { IfOk result (λ both. (both.0 ≡ all_arrived gathering ops.items)
            × IfSome both.1 (λ read. IsBatch lines.now read.items)) };
}

/// Leaves all lines to be read one by one, and joins effects in the thread that calls.
#[derive(Clone, Copy)]
pub struct OneByOne;

impl EffectJoiner for OneByOne {}

impl Batches for OneByOne {
    fn size(&self) -> usize {
        SMALL
    }

    fn file_and_read(
        &self,
        gathering: Gathering,
        ops: Vec<Op>,
        _lines: &[u8],
    ) -> Result<(Gathering, Option<Vec<Op>>), NoMemory> {
        match filed(gathering, ops) {
            Ok(both) => Ok((both, None)),
            Err(refused) => Err(refused),
        }
    }
}

/// Reads lines by three threads while a fourth one files, and joins effects by four.
#[derive(Drop)]
pub struct SideBySide<R: Drop> {
    rt: R,
}

impl<R: Threads + Drop> SideBySide<R> {
    /// By this thread and three that `rt` starts.
    pub fn new(rt: R) -> SideBySide<R> {
        SideBySide { rt }
    }
}

impl<R: Threads + Drop> Batches for SideBySide<R> {
    fn size(&self) -> usize {
        LARGE
    }

    fn file_and_read(
        &self,
        gathering: Gathering,
        ops: Vec<Op>,
        lines: &[u8],
    ) -> Result<(Gathering, Option<Vec<Op>>), NoMemory> {
        let others = if lines.len() < LEAST { 0 } else { PARTS - 1 };
        let Beside { filed, read } = read_beside(&self.rt, gathering, ops, lines, others);
        match filed {
            Ok(both) => Ok((both, read)),
            Err(refused) => Err(refused),
        }
    }
}

impl<R: Threads + Drop> EffectJoiner for SideBySide<R> {
    fn join_effects(
        &self,
        alloc: Global,
        state: State,
        ops: &[(u32, &Op)],
    ) -> Result<State, NoMemory> {
        if ops.len() < FEWEST {
            return OneByOne.join_effects(alloc, state, ops);
        }
        let more = join_parts(&self.rt, alloc, ops, PARTS)?;
        joined(state, more)
    }

    fn consume_effects(
        &self,
        alloc: Global,
        state: State,
        ops: Vec<(u32, &mut Op)>,
    ) -> Result<State, NoMemory> {
        if ops.len() < FEWEST {
            return OneByOne.consume_effects(alloc, state, ops);
        }
        let more = consume_parts(&self.rt, alloc, ops, PARTS)?;
        joined(state, more)
    }
}
