//! Reads whole lines of operations in other threads, while this one files those that came before.

ghost use Rattle.std.specs.Prelude.{◌≡◌, ◌≤◌, ◌<◌, ◌-◌, ◌∷◌, ◌++◌, ℕ, IfOk, IfSome, List, length, slice_index};
ghost use Rattle.std.specs.Prelude.{true};
ghost use Rattle.line_reader.specs.Lines.{HasNoLf};
ghost use Rattle.line_batches.specs.Batches.{IsBatch, IsPlainLine};
ghost use Rattle.replica_core.specs.Journal.{all_arrived};

use super::cuts::past_first_lf;
use super::pipeline::filed;
use lattice_core::NoMemory;
use line_reader::{LINE_LIMIT, first_lf};
use op_text::read_op;
use replica_core::Gathering;
use review_ops::Op;
use std::alloc::Global;
use std::thread::{Threads, join};

/// A gathering into which operations were filed, and the operations that were read meanwhile.
#[derive(Drop)]
pub(super) struct Beside {
    pub(super) filed: Result<Gathering, NoMemory>,
    pub(super) read: Option<Vec<Op>>,
}

/// Files operations into a gathering, while so many other threads each read a part of whole lines.
#[cycle(beside)]
pub(super) fn read_beside<R: Threads>(
    rt: &R,
    gathering: Gathering,
    ops: Vec<Op>,
    lines: &[u8],
    others: usize,
) -> Beside
    ensures filed { IfOk result.filed (λ both. both ≡ all_arrived gathering ops.items) }
    ensures read { IfSome result.read (λ read. IsBatch lines.now read.items) }
{
    let alloc = gathering.allocator();
    if others == 0 {
        return Beside {
            filed: filed(gathering, ops),
            read: read_in_turn(alloc, lines),
        };
    }
    let fewer = others - 1;
    let (front, back) = lines.split_at(near_share(lines, others));
    let first = || -> Option<Vec<Op>>
        ensures { IfSome result (λ read. IsBatch front.entry.now read.items) }
    { read_in_turn(alloc, front) };
    let rest = move || -> Beside
        ensures filed { IfOk result.filed (λ both. both ≡ all_arrived gathering ops.items) }
        ensures read { IfSome result.read (λ read. IsBatch back.entry.now read.items) }
    { read_beside(rt, gathering, ops, back, fewer) };
    let (first, rest) = join(rt, first, rest);
    with_front(first, rest)
}

/// The same with what was read before.
fn with_front(front: Option<Vec<Op>>, rest: Beside) -> Beside
    ensures filed { result.filed ≡ rest.filed }
    ensures read { (lines more : List ℕ) → IfSome front (λ ops. IsBatch lines ops.items)
        → IfSome rest.read (λ ops. IsBatch more ops.items) → IfSome result.read (λ ops. IsBatch (lines ++ more) ops.items) }
{
    let Beside { filed, read } = rest;
    Beside {
        filed,
        read: both(front, read),
    }
}

/// The operations of both, where both are there.
fn both(first: Option<Vec<Op>>, second: Option<Vec<Op>>) -> Option<Vec<Op>>
    ensures { (front : List ℕ) → (back : List ℕ) → IfSome first (λ ops. IsBatch front ops.items)
        → IfSome second (λ ops. IsBatch back ops.items) → IfSome result (λ ops. IsBatch (front ++ back) ops.items) }
{
    match (first, second) {
        (Some(first), Some(second)) => joined(first, second),
        _ => None,
    }
}

/// The operations of both.
fn joined(first: Vec<Op>, second: Vec<Op>) -> Option<Vec<Op>>
    ensures { IfSome result (λ ops. ops.items ≡ first.items ++ second.items) }
{
    let mut ops = first;
    let mut more = second;
    match ops.append(&mut more) {
        Ok(()) => Some(ops),
        Err(_) => None,
    }
}

/// The place behind the first LF after one of so many equal parts, or the end.
fn near_share(lines: &[u8], parts: usize) -> usize
    requires { 0 < parts }
    ensures { result ≤ length lines.now }
{
    let share = lines.len() / parts;
    share + past_first_lf(lines.split_at(share).1)
}

/// The operations of whole lines, one after the other.
fn read_in_turn(alloc: Global, lines: &[u8]) -> Option<Vec<Op>>
    ensures { IfSome result (λ ops. IsBatch lines.now ops.items) }
{
    let mut ops = Vec::new(alloc);
    let mut rest = lines;
    while let Some(at) = first_lf(rest) {
        let op = plain_op(alloc, rest.split_at(at).0)?;
        ops.push(op).ok()?;
        rest = rest.split_at(at + 1).1;
    }
    if !rest.is_empty() {
        return None;
    }
    Some(ops)
}

/// The operation of a line of the form in which lines are written.
fn plain_op(alloc: Global, piece: &[u8]) -> Option<Op>
    requires { HasNoLf piece.now }
    ensures { IfSome result (IsPlainLine piece.now) }
{
    if piece.len() > LINE_LIMIT || !is_braced(piece) {
        return None;
    }
    read_op(alloc, piece).ok()
}

/// Whether the bytes begin and end with a brace.
fn is_braced(piece: &[u8]) -> bool
    ensures { result ≡ true → ((rest : List ℕ) × (piece.now ≡ 123 ∷ rest))
        × (slice_index piece.now (length piece.now - 1) ≡ 125) }
{
    if piece.is_empty() {
        return false;
    }
    piece[0] == b'{' && piece[piece.len() - 1] == b'}'
}
