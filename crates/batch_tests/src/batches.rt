//! Lines that are read at once.

use super::asserts::assert_found;
use super::texts::{FIRST, MEMORY, SECOND, many_lines, text_of};
use line_batches::{Batches, OneByOne, Pipeline, SideBySide, first_room, next_room};
use op_text::read_op;
use replica_core::Gathering;
use std::alloc::Global;

/// How many lines are enough for four threads.
const MANY: u64 = 6_000;

/// The operations of lines, read by a reader of each line.
fn read_each(alloc: Global, lines: &[u8]) -> Option<Gathering> {
    let mut ops = Gathering::new(alloc);
    for line in lines.split(|byte| *byte == b'\n') {
        if !line.is_empty() {
            let _new = ops.take(read_op(alloc, line).ok()?).ok()?;
        }
    }
    Some(ops)
}

/// How many operations are read at once of lines, and whether they are those that are read one by one.
fn read_at_once<B: Batches>(batches: &B, alloc: Global, lines: &[u8]) -> Option<(usize, bool)> {
    let mut pipeline = Pipeline::onto(Gathering::new(alloc));
    let count = pipeline.take_lines(batches, lines).ok()??;
    let ops = pipeline.end().ok()?;
    Some((count, ops.iter().eq(read_each(alloc, lines)?.iter())))
}

#[test]
fn plain_lines_are_read_in_their_order(rt: HostRuntime) {
    let alloc = rt.alloc();
    let lines = text_of(alloc, &[FIRST, b"\n", SECOND, b"\n"]).expect(&rt, MEMORY);
    let found = read_at_once(&SideBySide::new(rt), alloc, lines.as_slice());
    assert_found(&rt, found, Some((2, true)));
    let found = read_at_once(&SideBySide::new(rt), alloc, b"");
    assert_found(&rt, found, Some((0, true)));
}

#[test]
fn many_lines_are_read_in_their_order(rt: HostRuntime) {
    let alloc = rt.alloc();
    let lines = many_lines(alloc, MANY).expect(&rt, MEMORY);
    let found = read_at_once(&SideBySide::new(rt), alloc, lines.as_slice());
    assert_found(&rt, found, Some((6_000, true)));
}

/// What isn't whole lines of operations, each from its first brace to its last, after a line that is one.
const OTHERS: &[&[u8]] = &[
    SECOND,
    b"\n",
    b"end 1\n",
    b"{}\n",
    b" {\"change\":101,\"op\":\"abandon\",\"seq\":1,\"site\":2,\"start\":1,\"time\":3}\n",
    b"{\"change\":101,\"op\":\"abandon\",\"seq\":1,\"site\":2,\"start\":1,\"time\":3} \n",
    b"{\"change\":101,\"op\":\"abandon\",\"seq\":1,\"site\":2,\"start\":1,\"time\":3}\r\n",
    b"{\"change\":0,\"op\":\"abandon\",\"seq\":1,\"site\":2,\"start\":1,\"time\":3}\n",
];

#[test]
fn other_lines_are_left_to_be_read_one_by_one(rt: HostRuntime) {
    let alloc = rt.alloc();
    for other in OTHERS {
        let lines = text_of(alloc, &[FIRST, b"\n", *other]).expect(&rt, MEMORY);
        let found = read_at_once(&SideBySide::new(rt), alloc, lines.as_slice());
        assert_found(&rt, found, None);
    }
}

// Of many lines the last one alone is none of an operation.
#[test]
fn all_lines_are_left_where_one_is_another(rt: HostRuntime) {
    let alloc = rt.alloc();
    let many = many_lines(alloc, MANY).expect(&rt, MEMORY);
    let lines = text_of(alloc, &[many.as_slice(), b"end 1\n"]).expect(&rt, MEMORY);
    let found = read_at_once(&SideBySide::new(rt), alloc, lines.as_slice());
    assert_found(&rt, found, None);
}

#[test]
fn one_by_one_nothing_is_read_at_once(rt: HostRuntime) {
    let alloc = rt.alloc();
    let lines = text_of(alloc, &[FIRST, b"\n"]).expect(&rt, MEMORY);
    assert_found(&rt, read_at_once(&OneByOne, alloc, lines.as_slice()), None);
    assert_found(&rt, OneByOne.size(), 65_536);
    assert_found(&rt, SideBySide::new(rt).size(), 8_388_608);
}

/// How many bytes the first room has, and the one after so many bytes came.
fn rooms<B: Batches>(batches: &B, alloc: Global, seen: u64) -> Option<(usize, usize)> {
    let first = first_room(alloc, batches).ok()?;
    let len = first.len();
    Some((len, next_room(alloc, batches, first, seen).ok()?.len()))
}

#[test]
fn room_grows_once_many_bytes_came(rt: HostRuntime) {
    let (alloc, batches) = (rt.alloc(), SideBySide::new(rt));
    let found = rooms(&batches, alloc, 8_388_607);
    assert_found(&rt, found, Some((1_048_576, 1_048_576)));
    let found = rooms(&batches, alloc, 8_388_608);
    assert_found(&rt, found, Some((1_048_576, 8_388_608)));
    let found = rooms(&OneByOne, alloc, 8_388_608);
    assert_found(&rt, found, Some((65_536, 65_536)));
}

/// Takes the operation of a line that is read by itself.
fn take_one(pipeline: &mut Pipeline, alloc: Global, line: &[u8]) -> Option<()> {
    pipeline.take(read_op(alloc, line).ok()?).ok()
}

/// How many operations came where lines are read at once, by themselves, at once again and in vain; and whether they are
/// in the order of their lines.
fn taken_in_turn<B: Batches>(batches: &B, alloc: Global) -> Option<(usize, bool)> {
    let lines = many_lines(alloc, MANY)?;
    let (front, back) = lines.as_slice().split_at(lines.len() / 2);
    let begun = front.len() - front.iter().rev().position(|byte| *byte == b'\n')?;
    let (front, begun) = front.split_at(begun);
    let ended = back.iter().position(|byte| *byte == b'\n')?;
    let (ended, back) = back.split_at(ended);
    let middle = text_of(alloc, &[begun, ended])?;
    let mut pipeline = Pipeline::onto(Gathering::new(alloc));
    take_one(&mut pipeline, alloc, SECOND)?;
    pipeline.take_lines(batches, front).ok()??;
    take_one(&mut pipeline, alloc, middle.as_slice())?;
    pipeline
        .take_lines(batches, back.strip_prefix(b"\n")?)
        .ok()??;
    if pipeline.take_lines(batches, b"end 1\n").ok()?.is_some() {
        return None;
    }
    take_one(&mut pipeline, alloc, FIRST)?;
    let ops = pipeline.end().ok()?;
    let whole = text_of(alloc, &[SECOND, b"\n", lines.as_slice(), FIRST])?;
    Some((
        ops.len(),
        ops.iter().eq(read_each(alloc, whole.as_slice())?.iter()),
    ))
}

#[test]
fn operations_arrive_in_the_order_of_their_lines(rt: HostRuntime) {
    let found = taken_in_turn(&SideBySide::new(rt), rt.alloc());
    assert_found(&rt, found, Some((6_002, true)));
}
