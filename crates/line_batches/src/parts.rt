//! Joins the effects of operations in parts, each of which becomes a state in a thread of its own.

ghost use Rattle.std.specs.Prelude.{◌≡◌, ◌++◌, IfOk, List, map};
ghost use Rattle.review_ops.specs.Operation.{Operation};
ghost use Rattle.state_core.specs.State.{state_of};

use super::batches::OneByOne;
use lattice_core::{Join, NoMemory};
use replica_core::EffectJoiner;
use review_ops::Op;
use state_core::State;
use std::alloc::Global;
use std::thread::{Threads, join};

/// The state of operations, whose texts are copied, in so many parts, each of which but the last is joined by another
/// thread.
#[cycle(joins)]
pub(super) fn join_parts<R: Threads>(
    rt: &R,
    alloc: Global,
    ops: &[(u32, &Op)],
    parts: usize,
) -> Result<State, NoMemory>
    ensures { IfOk result (λ state. state ≡ state_of (map (λ one. one.1.now) ops.now)) }
{
    if parts <= 1 {
        return join_part(alloc, ops);
    }
    let fewer = parts - 1;
    let (front, back) = ops.split_at(ops.len() / parts);
    let first = || -> Result<State, NoMemory>
        ensures { IfOk result (λ state. state ≡ state_of (map (λ one. one.1.now) front.entry.now)) }
    { join_part(alloc, front) };
    let rest = || -> Result<State, NoMemory>
        ensures { IfOk result (λ state. state ≡ state_of (map (λ one. one.1.now) back.entry.now)) }
    { join_parts(rt, alloc, back, fewer) };
    let (first, rest) = join(rt, first, rest);
    both(first, rest)
}

/// The state of operations, whose texts are copied.
fn join_part(alloc: Global, ops: &[(u32, &Op)]) -> Result<State, NoMemory>
    ensures { IfOk result (λ state. state ≡ state_of (map (λ one. one.1.now) ops.now)) }
{
    OneByOne.join_effects(alloc, State::new(alloc), ops)
}

/// The state of operations, with their texts, in so many parts, each of which but the last is joined by another thread.
#[cycle(consumes)]
pub(super) fn consume_parts<R: Threads>(
    rt: &R,
    alloc: Global,
    ops: Vec<(u32, &mut Op)>,
    parts: usize,
) -> Result<State, NoMemory>
    ensures { IfOk result (λ state. state ≡ state_of (map (λ one. one.1.now) ops.entry.items)) }
{
    if parts <= 1 {
        return consume_part(alloc, ops);
    }
    let fewer = parts - 1;
    let mut front = ops;
    let back = front.split_off(front.len() / parts)?;
    let first = move || -> Result<State, NoMemory>
        ensures { IfOk result (λ state. state ≡ state_of (map (λ one. one.1.now) front.entry.items)) }
    { consume_part(alloc, front) };
    let rest = move || -> Result<State, NoMemory>
        ensures { IfOk result (λ state. state ≡ state_of (map (λ one. one.1.now) back.entry.items)) }
    { consume_parts(rt, alloc, back, fewer) };
    let (first, rest) = join(rt, first, rest);
    both(first, rest)
}

/// The state of operations, with their texts.
fn consume_part(alloc: Global, ops: Vec<(u32, &mut Op)>) -> Result<State, NoMemory>
    ensures { IfOk result (λ state. state ≡ state_of (map (λ one. one.1.now) ops.entry.items)) }
{
    OneByOne.consume_effects(alloc, State::new(alloc), ops)
}

/// The state of the operations of both, where both are there.
fn both(first: Result<State, NoMemory>, rest: Result<State, NoMemory>) -> Result<State, NoMemory>
    ensures { (front back : List Operation) → IfOk first (λ state. state ≡ state_of front)
        → IfOk rest (λ state. state ≡ state_of back) → IfOk result (λ state. state ≡ state_of (front ++ back)) }
{
    match (first, rest) {
        (Ok(first), Ok(rest)) => joined(first, rest),
        _ => Err(NoMemory),
    }
}

/// The state of the operations of both. It costs what the changes of `first` cost.
pub(super) fn joined(first: State, rest: State) -> Result<State, NoMemory>
    ensures { IfOk result (λ state. (front back : List Operation) → first ≡ state_of front → rest ≡ state_of back
        → state ≡ state_of (front ++ back)) }
{
    let mut state = rest;
    state.join(first)?;
    Ok(state)
}
