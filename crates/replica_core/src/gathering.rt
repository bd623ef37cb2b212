//! A journal to which many operations are added before its state is joined.

ghost use Rattle.std.specs.Prelude.{◌≡◌, ◌++◌, [], List, IfOk, OnOk, OnErr, length, map};
ghost use Rattle.std.specs.List.Sorted.{IsPermutation};
ghost use Rattle.review_ops.specs.Operation.{Operation};
ghost use Rattle.replica_core.specs.Journal.{AreApart, arrived, has, taken_of};
ghost use Rattle.state_core.specs.State.{state_of};

use super::arrivals::{Arrivals, Iter};
use super::arriving::{Later, arrive};
use super::joiner::{EffectJoiner, move_each, take_each};
use super::line::Line;
use super::replica::Replica;
use super::taken::Taken;
use chunk_list::ChunkList;
use lattice_core::NoMemory;
use review_ops::Op;
use state_core::State;
use std::alloc::{Allocator, Global};
use std::marker::Model;

/// A replica to which many operations are added before its state is needed: `take` adds each to the journal only, and
/// `joined` joins all effects at the end, change by change. Contracts see the arrivals, as those of a replica.
#[derive(Drop)]
pub struct Gathering<A: Allocator + Copy = Global> {
    arrivals: Arrivals<A>,
    lines: ChunkList<Line<A>, A>,
    latest: u64,
    state: State<A>,
    joined: usize,
    alloc: A,
}

impl<A: Allocator + Copy> Model for Gathering<A> {
    ghost use Rattle.std.specs.Prelude.{List};
    ghost use Rattle.review_ops.specs.Operation.{Operation};
    ghost use Rattle.replica_core.specs.Record.{IsGathered};

    ghost Value = { List Operation };

    ghost view = { λ g. g.arrivals.items };

    ghost invariant = { λ g. IsGathered g.arrivals.items g.lines g.latest g.state g.joined };
}

impl<A: Allocator + Copy> Gathering<A> {
    /// The gathering of the empty journal. It takes no memory.
    pub fn new(alloc: A) -> Gathering<A>
        ensures { result ≡ [] }
    {
        Gathering::onto(Replica::new(alloc))
    }

    /// The gathering of a replica's journal, with its state as the joined part. It takes no memory.
    pub fn onto(replica: Replica<A>) -> Gathering<A>
        ensures { result ≡ replica }
    {
        let Replica {
            arrivals,
            lines,
            latest,
            state,
            alloc,
        } = replica;
        let joined = arrivals.len();
        Gathering {
            arrivals,
            lines,
            latest,
            state,
            joined,
            alloc,
        }
    }

    /// Adds an operation to the journal, as a replica's `take` does, and leaves its effect for `joined`. If memory is
    /// refused nothing changes. It costs O(log n) for n operations, in whatever order they come.
    pub fn take(&mut self, op: Op<A>) -> Result<Taken, NoMemory>
        ensures ok { IfOk result (λ taken. (self.new ≡ arrived self.old op) × (taken ≡ taken_of (has self.old op))) }
        ensures err { OnErr result (self.new ≡ self.old) }
    {
        arrive(
            &mut self.lines,
            &mut self.arrivals,
            &mut self.latest,
            &mut Later,
            self.alloc,
            op,
        )
    }

    /// How many operations the journal has.
    pub fn len(&self) -> usize
        ensures { result ≡ length self.now }
    {
        self.arrivals.len()
    }

    /// The operations of the journal, each once, in the order in which they first came.
    pub fn iter(&self) -> Iter<'_, A>
        ensures arrivals { result ≡ self.now }
        ensures apart { AreApart self.now }
    {
        self.arrivals.iter()
    }

    /// The allocator that the journal and the state take memory from.
    pub fn allocator(&self) -> A {
        self.alloc
    }

    /// The replica of the gathered journal. If memory is refused everything is dropped. It sorts references to the
    /// operations that came since `onto`, which takes O(n) memory and costs O(n log n) for n operations, and what the
    /// state's `take` costs for each.
    pub fn joined(self) -> Result<Replica<A>, NoMemory>
        ensures { IfOk result (λ replica. replica ≡ self) }
    {
        let Gathering {
            arrivals,
            lines,
            latest,
            state,
            joined,
            alloc,
        } = self;
        let later = arrivals.since(joined);
        let state = join_later(alloc, state, later, arrivals.len() - joined)?;
        Ok(Replica {
            arrivals,
            lines,
            latest,
            state,
            alloc,
        })
    }

    /// The state of the gathered journal, for callers that don't need the journal: the texts of operations are moved
    /// into the state, and the journal's memory is freed. If memory is refused everything is dropped. It costs what
    /// `joined` costs, without the copies of texts.
    pub fn into_state(self) -> Result<State<A>, NoMemory>
        ensures { IfOk result (λ state. state ≡ state_of self) }
    {
        let Gathering {
            arrivals,
            lines,
            latest: _,
            state,
            joined,
            alloc,
        } = self;
        drop(lines);
        let mut arrivals = arrivals.into_vec(alloc)?;
        let came = arrivals.as_mut_slice().split_at_mut(joined).1;
        let state = consume_later(alloc, state, came)?;
        Ok(state)
    }
}

impl Gathering {
    /// The replica of the gathered journal, as `joined` gives it; `joiner` joins the effects.
    pub fn joined_by<J: EffectJoiner>(self, joiner: &J) -> Result<Replica, NoMemory>
        ensures { IfOk result (λ replica. replica ≡ self) }
    {
        let Gathering {
            arrivals,
            lines,
            latest,
            state,
            joined,
            alloc,
        } = self;
        let later = arrivals.since(joined);
        let state = join_later_by(joiner, alloc, state, later, arrivals.len() - joined)?;
        Ok(Replica {
            arrivals,
            lines,
            latest,
            state,
            alloc,
        })
    }

    /// The state of the gathered journal, as `into_state` gives it; `joiner` joins the effects.
    pub fn into_state_by<J: EffectJoiner>(self, joiner: &J) -> Result<State, NoMemory>
        ensures { IfOk result (λ state. state ≡ state_of self) }
    {
        let Gathering {
            arrivals,
            lines,
            latest: _,
            state,
            joined,
            alloc,
        } = self;
        drop(lines);
        let mut arrivals = arrivals.into_vec(alloc)?;
        let came = arrivals.as_mut_slice().split_at_mut(joined).1;
        let state = consume_later_by(joiner, alloc, state, came)?;
        Ok(state)
    }
}

/// Joins the effects of operations into the state of those before, change by change, by this joiner.
fn join_later_by<J: EffectJoiner>(
    joiner: &J,
    alloc: Global,
    state: State,
    ops: Iter<'_>,
    room: usize,
) -> Result<State, NoMemory>
    ensures { IfOk result (λ joined. (before : List Operation) → state ≡ state_of before
        → joined ≡ state_of (before ++ ops.entry)) }
{
    let sorted = by_change(alloc, ops, room)?;
    joiner.join_effects(alloc, state, sorted.as_slice())
}

/// Joins the effects of operations into the state of those before, change by change, with their texts, by this joiner.
fn consume_later_by<J: EffectJoiner>(
    joiner: &J,
    alloc: Global,
    state: State,
    ops: &mut [Op],
) -> Result<State, NoMemory>
    ensures { IfOk result (λ joined. (before : List Operation) → state ≡ state_of before
        → joined ≡ state_of (before ++ ops.old)) }
{
    let sorted = each_by_change(alloc, ops)?;
    joiner.consume_effects(alloc, state, sorted)
}

/// Joins the effects of operations into the state of those before, change by change.
fn join_later<A: Allocator + Copy>(
    alloc: A,
    state: State<A>,
    ops: Iter<'_, A>,
    room: usize,
) -> Result<State<A>, NoMemory>
    ensures { IfOk result (λ joined. (before : List Operation) → state ≡ state_of before
        → joined ≡ state_of (before ++ ops.entry)) }
{
    let sorted = by_change(alloc, ops, room)?;
    take_each(state, sorted.as_slice())
}

/// References to the operations, sorted by change, in a vector of this capacity.
fn by_change<'a, A: Allocator + Copy>(
    alloc: A,
    ops: Iter<'a, A>,
    room: usize,
) -> Result<Vec<(u32, &'a Op<A>), A>, NoMemory>
    ensures { IfOk result (λ sorted. IsPermutation ops.entry (map (λ one. one.1.now) sorted.items)) }
{
    let mut sorted = Vec::with_capacity(alloc, room)?;
    for op in ops {
        sorted.push((op.body().change(), op))?;
    }
    sorted.sort_unstable_by_key(|one| one.0);
    Ok(sorted)
}

/// Joins the effects of operations into the state of those before, change by change, with their texts.
fn consume_later<A: Allocator + Copy>(
    alloc: A,
    state: State<A>,
    ops: &mut [Op<A>],
) -> Result<State<A>, NoMemory>
    ensures { IfOk result (λ joined. (before : List Operation) → state ≡ state_of before
        → joined ≡ state_of (before ++ ops.old)) }
{
    let sorted = each_by_change(alloc, ops)?;
    move_each(alloc, state, sorted)
}

/// Mutable references to the operations in the order of their changes.
fn each_by_change<A: Allocator + Copy>(
    alloc: A,
    ops: &mut [Op<A>],
) -> Result<Vec<(u32, &mut Op<A>), A>, NoMemory>
    ensures { IfOk result (λ sorted. IsPermutation ops.old (map (λ one. one.1.now) sorted.items)) }
{
    let mut sorted = Vec::with_capacity(alloc, ops.len())?;
    for op in ops {
        sorted.push((op.body().change(), op))?;
    }
    sorted.sort_unstable_by_key(|one| one.0);
    Ok(sorted)
}
