//! The replica of a site: its journal, and the state of that.

ghost use Rattle.std.specs.Prelude.{◌≡◌, ◌↔◌, ◌<◌, Some, IsTrue, IfOk, slice_get, MatchResult, List, drop, take, OnOk, OnErr};
ghost use Rattle.std.specs.Prelude.{[], length, ℕ, slice_index_or, if◌then◌else◌};
ghost use Rattle.std.specs.List.{Contains};
ghost use Rattle.review_ops.specs.Operation.{Operation};
ghost use Rattle.replica_core.specs.Journal.{AreApart, all_arrived, has, has_stamp, arrived, taken_of};
ghost use Rattle.replica_core.specs.InOrder.{IsInOrderOf};
ghost use Rattle.replica_core.specs.Lines.{rows_of, row_of, IsFiled, IsLine, AreLines};
ghost use Rattle.replica_core.specs.Searches.{with_place};
ghost use Rattle.state_core.specs.State.{state_of, with_effect};

use super::arrivals::{Arrivals, Iter};
use super::arriving::arrive;
use super::front::Row;
use super::line::Line;
use super::lines::{find_line, row_of};
use super::taken::{Partly, Taken};
use chunk_list::ChunkList;
use lattice_core::{Join, NoMemory};
use review_ops::{Op, Stamp};
use state_core::State;
use std::alloc::{Allocator, Global};
use std::marker::Model;

/// The journal of a site, and the state that it joins to. Contracts see the arrivals: each operation of the journal
/// once, in the order in which it first came. Beside the arrivals it keeps for each row (a site and a start) an index,
/// the row's line, so that only `absorb` and `copy` visit all operations.
#[derive(Drop)]
pub struct Replica<A: Allocator + Copy = Global> {
    pub(super) arrivals: Arrivals<A>,
    pub(super) lines: ChunkList<Line<A>, A>,
    pub(super) latest: u64,
    pub(super) state: State<A>,
    pub(super) alloc: A,
}

impl<A: Allocator + Copy> Model for Replica<A> {
    ghost use Rattle.std.specs.Prelude.{List};
    ghost use Rattle.review_ops.specs.Operation.{Operation};
    ghost use Rattle.replica_core.specs.Record.{IsRecord};

    ghost Value = { List Operation };

    ghost view = { λ r. r.arrivals.items };

    ghost invariant = { λ r. IsRecord r.arrivals.items r.lines r.latest r.state };
}

impl<A: Allocator + Copy> Replica<A> {
    /// The replica with an empty journal.
    pub fn new(alloc: A) -> Replica<A>
        ensures { result ≡ [] }
    {
        Replica {
            arrivals: Arrivals::new(alloc),
            lines: ChunkList::new(alloc),
            latest: 0,
            state: State::new(alloc),
            alloc,
        }
    }

    /// Adds an operation to the journal and joins it into the state of its change, in place. If memory is refused
    /// nothing changes. It costs O(log n) for n operations, in whatever order they come, and what the state's `take`
    /// costs: an index that is the last of its row is pushed; any other moves at most the 512 indices of its chunk, and
    /// once in 256 times the list of the row's chunks.
    pub fn take(&mut self, op: Op<A>) -> Result<Taken, NoMemory>
        ensures ok { IfOk result (λ taken. (self.new ≡ arrived self.old op) × (taken ≡ taken_of (has self.old op))) }
        ensures err { OnErr result (self.new ≡ self.old) }
    {
        arrive(
            &mut self.lines,
            &mut self.arrivals,
            &mut self.latest,
            &mut self.state,
            self.alloc,
            op,
        )
    }

    /// Takes every operation of another replica, in the order of operations. If memory is refused, exactly the first
    /// `taken` of them were taken, not all. It sorts the n arrivals of the other replica (in place, without memory, if
    /// they aren't shared), in O(n log n), or O(n) if they came in order, and then takes one after the other.
    pub fn absorb(&mut self, other: Replica<A>) -> Result<(), Partly>
        ensures { (whole : List Operation) × IsInOrderOf other whole × MatchResult result
            (λ _. self.new ≡ all_arrived self.old whole)
            (λ partly. (self.new ≡ all_arrived self.old (take partly.taken whole)) × (partly.taken < length whole)) }
    {
        let Replica {
            arrivals,
            lines: _,
            latest: _,
            state: _,
            alloc,
        } = other;
        match arrivals.into_vec(alloc) {
            Ok(ops) => self.take_in_order(ops),
            Err(_) => Err(Partly { taken: 0 }),
        }
    }

    /// Takes distinct operations, in the order of operations, as `absorb` does.
    fn take_in_order(&mut self, mut ops: Vec<Op<A>, A>) -> Result<(), Partly>
        requires { AreApart ops.items }
        ensures { (whole : List Operation) × IsInOrderOf ops.items whole × MatchResult result
            (λ _. self.new ≡ all_arrived self.old whole)
            (λ partly. (self.new ≡ all_arrived self.old (take partly.taken whole)) × (partly.taken < length whole)) }
    {
        ops.sort_unstable();
        ops.reverse();
        let mut taken = 0;
        while let Some(op) = ops.pop() {
            if self.take(op).is_err() {
                return Err(Partly { taken });
            }
            taken += 1;
        }
        Ok(())
    }

    /// Whether the journal has this operation. It costs O(log r + log n) for r rows and n operations of its row.
    pub fn has(&self, op: &Op<A>) -> bool
        ensures { result ≡ has self.now op.now }
    {
        match find_line(&self.lines, row_of(op)) {
            Some(line) => line.has(&self.arrivals, op),
            None => false,
        }
    }

    /// Whether the journal has an operation with this stamp. It costs O(log r + log n) for r rows and n operations of
    /// its row.
    pub fn has_stamp(&self, stamp: Stamp) -> bool
        ensures { result ≡ has_stamp self.now stamp }
    {
        let row = Row {
            site: stamp.site(),
            start: stamp.start(),
        };
        match find_line(&self.lines, row) {
            Some(line) => line.has_stamp(&self.arrivals, stamp),
            None => false,
        }
    }

    /// Whether the two have equal states. Their journals may differ.
    pub fn same_state(&self, other: &Replica<A>) -> bool
        ensures { IsTrue result ↔ (state_of self.now ≡ state_of other.now) }
    {
        self.state.same(&other.state)
    }

    /// Makes the present operations shared by later copies, unless some are shared already. If memory is refused
    /// nothing is shared. It costs O(1).
    pub fn share(&mut self) -> Result<(), NoMemory>
        ensures { self.new ≡ self.old }
    {
        self.arrivals.share(self.alloc)
    }

    /// A copy: the same arrivals in the same order. It shares the states of changes and the operations that `share`
    /// made shared, and copies the other operations. It costs O(n + b) for n operations and changes and b bytes of
    /// copied operations.
    pub fn copy(&self) -> Result<Replica<A>, NoMemory>
        ensures { IfOk result (λ copied. copied ≡ self.now) }
    {
        let arrivals = self.arrivals.copy(self.alloc)?;
        let lines = copy_lines(self.alloc, &self.lines)?;
        let state = self.state.copy()?;
        Ok(Replica {
            arrivals,
            lines,
            latest: self.latest,
            state,
            alloc: self.alloc,
        })
    }

    /// How many operations the journal has.
    pub fn len(&self) -> usize
        ensures { result ≡ length self.now }
    {
        self.arrivals.len()
    }

    /// The operation at an index, from 0, in the order of arrival.
    pub fn arrival(&self, place: usize) -> &Op<A>
        requires { place < length self.now }
        ensures operation { slice_get self.now place ≡ Some result.now }
        ensures apart { AreApart self.now }
    {
        self.arrivals.at(place)
    }

    /// The operations of the journal, each once, in the order in which they first came.
    pub fn iter(&self) -> Iter<'_, A>
        ensures arrivals { result ≡ self.now }
        ensures apart { AreApart self.now }
    {
        self.arrivals.iter()
    }

    /// The operations after the first `count`, in the order of arrival.
    pub fn since(&self, count: usize) -> Iter<'_, A>
        ensures { result ≡ drop count self.now }
    {
        self.arrivals.since(count)
    }

    /// The allocator that the journal and the state take memory from.
    pub fn allocator(&self) -> A {
        self.alloc
    }

    /// The state that the journal joins to.
    pub fn state(&self) -> &State<A>
        ensures { result.now ≡ state_of self.now }
    {
        &self.state
    }
}

/// Copies the lines, in their order.
fn copy_lines<A: Allocator + Copy>(
    alloc: A,
    lines: &ChunkList<Line<A>, A>,
) -> Result<ChunkList<Line<A>, A>, NoMemory>
    ensures { IfOk result (λ copies. copies ≡ lines.now) }
{
    let mut copies = ChunkList::new(alloc);
    for line in lines.iter() {
        copies.push(line.copy(alloc)?)?;
    }
    Ok(copies)
}
