//! Effects that are joined into a state a few at a time.

ghost use Rattle.std.specs.Prelude.{◌≡◌, IfOk, OnOk, fold};
ghost use Rattle.state_core.specs.State.{with_effect};

use lattice_core::NoMemory;
use review_ops::Op;
use state_core::State;
use std::alloc::Allocator;
use std::marker::Model;
use std::{cmp, mem};

/// How many operations are collected before their effects are joined.
const GROUP: usize = 16;

/// A state into which the effects of operations are joined in groups. Sorted by change, the operations of a record are
/// scattered in memory, and each access is a cache miss: in groups, the processor overlaps the misses. Contracts see
/// the state with the effects of all that came.
#[derive(Drop)]
pub(super) struct Joining<A: Allocator + Copy> {
    state: State<A>,
    group: Vec<Op<A>, A>,
    alloc: A,
}

impl<A: Allocator + Copy> Model for Joining<A> {
    ghost use Rattle.std.specs.Prelude.{fold};
    ghost use Rattle.state_core.specs.State.{State, state_code, with_effect};

    ghost Value = { State };

    ghost coded = { state_code };

    ghost view = { λ j. fold with_effect j.state j.group.items };
}

impl<A: Allocator + Copy> Joining<A> {
    /// Begins with a state, and allocates room for `room` operations, at most for a group; no memory if `room` is 0.
    pub(super) fn new(alloc: A, state: State<A>, room: usize) -> Result<Joining<A>, NoMemory>
        ensures { IfOk result (λ joining. joining ≡ state) }
    {
        Ok(Joining {
            state,
            group: Vec::with_capacity(alloc, cmp::min(room, GROUP))?,
            alloc,
        })
    }

    /// Joins the effect of one more operation, with its texts.
    pub(super) fn add(&mut self, op: Op<A>) -> Result<(), NoMemory>
        ensures { OnOk result (self.new ≡ with_effect self.old op) }
    {
        self.group.push(op)?;
        if self.group.len() < GROUP {
            return Ok(());
        }
        let next = Vec::with_capacity(self.alloc, GROUP)?;
        consume_each(&mut self.state, mem::replace(&mut self.group, next))
    }

    /// The state with all effects.
    pub(super) fn end(self) -> Result<State<A>, NoMemory>
        ensures { IfOk result (λ state. state ≡ self) }
    {
        let Joining {
            mut state,
            group,
            alloc: _,
        } = self;
        consume_each(&mut state, group)?;
        Ok(state)
    }
}

/// Joins the effects of operations, with their texts.
fn consume_each<A: Allocator + Copy>(
    state: &mut State<A>,
    ops: Vec<Op<A>, A>,
) -> Result<(), NoMemory>
    ensures { OnOk result (state.new ≡ fold with_effect state.old ops.items) }
{
    for op in ops {
        state.consume(op)?;
    }
    Ok(())
}
