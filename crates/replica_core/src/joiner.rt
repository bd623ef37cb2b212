//! How the effects of many operations are joined into a state: one after the other, or in another way.

ghost use Rattle.std.specs.Prelude.{◌≡◌, ◌++◌, IfOk, List, map};
ghost use Rattle.review_ops.specs.Operation.{Operation};
ghost use Rattle.state_core.specs.State.{state_of};

use super::joining::Joining;
use lattice_core::NoMemory;
use review_ops::{Body, Draft, Op};
use state_core::State;
use std::alloc::{Allocator, Global};
use std::mem;

/// Joins the effects of many operations into a state: one after the other, in the thread that calls, unless an
/// implementation does it in another way. The order of the operations doesn't matter to the result; they come sorted by
/// change, each with the number of its change, so that the state of each change is visited once.
pub trait EffectJoiner {
    /// The state to which the effects of the operations are joined. Their texts are copied. If memory is refused the
    /// state is dropped.
    fn join_effects(
        &self,
        _alloc: Global,
        state: State,
        ops: &[(u32, &Op)],
    ) -> Result<State, NoMemory>
        ensures { IfOk result (λ joined. (before : List Operation) → state ≡ state_of before
            → joined ≡ state_of (before ++ map (λ one. one.1.now) ops.now)) }
    {
        take_each(state, ops)
    }

    /// The state to which the effects of the operations are joined, with their texts: operations without texts stay in
    /// their places. If memory is refused the state is dropped.
    fn consume_effects(
        &self,
        alloc: Global,
        state: State,
        ops: Vec<(u32, &mut Op)>,
    ) -> Result<State, NoMemory>
        ensures { IfOk result (λ joined. (before : List Operation) → state ≡ state_of before
            → joined ≡ state_of (before ++ map (λ one. one.1.now) ops.entry.items)) }
    {
        move_each(alloc, state, ops)
    }
}

/// Joins the effects of operations, whose texts are copied.
pub(super) fn take_each<A: Allocator + Copy>(
    state: State<A>,
    ops: &[(u32, &Op<A>)],
) -> Result<State<A>, NoMemory>
    ensures { IfOk result (λ joined. (before : List Operation) → state ≡ state_of before
        → joined ≡ state_of (before ++ map (λ one. one.1.now) ops.now)) }
{
    let mut joined = state;
    for (_, op) in ops {
        joined.take(op)?;
    }
    Ok(joined)
}

/// Joins the effects of operations, with their texts.
pub(super) fn move_each<A: Allocator + Copy>(
    alloc: A,
    state: State<A>,
    ops: Vec<(u32, &mut Op<A>), A>,
) -> Result<State<A>, NoMemory>
    ensures { IfOk result (λ joined. (before : List Operation) → state ≡ state_of before
        → joined ≡ state_of (before ++ map (λ one. one.1.now) ops.entry.items)) }
{
    let mut joining = Joining::new(alloc, state, ops.len())?;
    for (_, op) in ops {
        joining.add(taken_out(op))?;
    }
    let joined = joining.end()?;
    Ok(joined)
}

/// Moves an operation out of a journal that is about to be dropped, and leaves one without texts in its place.
fn taken_out<A: Allocator + Copy>(op: &mut Op<A>) -> Op<A>
    ensures { result ≡ op.old }
{
    let change = op.body().change();
    let Ok(body) = Body::checked(Draft::Abandon { change }) else {
        unreachable!()
    };
    let stamp = op.stamp();
    mem::replace(op, Op::new(stamp, body))
}
