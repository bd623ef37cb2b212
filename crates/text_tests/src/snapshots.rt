//! Snapshots worked out by hand, and what is answered where an end fails or memory is refused.

use super::asserts::assert_found;
use super::found::{MEMORY, assert_bytes};
use super::sips::Sips;
use byte_ends::{Broken, Ends, Source};
use op_text::OpTextFault;
use replica_core::{Gathering, Iter, Replica};
use snapshot_text::{
    SnapFault, WriteSnapFault, gather_onto, lines_have_one_reading, read_snapshot, snapshot_of,
    snapshot_onto, snapshots_are_one, snapshots_say_their_operations, write_gathered,
    write_snapshot,
};
use std::alloc::Global;
use std::process::Abort;

const FIRST: &str =
    r#"{"change":101,"label":"verified","op":"vote","seq":2,"set":1,"site":1,"start":1,"time":2,"value":1,"voter":"zuul"}"#;

const SECOND: &str = r#"{"change":101,"op":"abandon","seq":1,"site":2,"start":1,"time":3}"#;

/// The most bytes of a text of these tests that is read without a source.
const LONGEST: usize = 1_000;

/// The first fault of what a source has: its number, line and cause.
fn fault_in<S: Source>(alloc: Global, source: &mut S) -> (u8, u64, u8) {
    match read_snapshot(alloc, source) {
        Ok(_) => (0, 0, 0),
        Err(SnapFault::BadLine(line, cause)) => (2, line, cause.number()),
        Err(fault) => (fault.number(), 0, 0),
    }
}

/// The first fault of a text.
fn fault_of(alloc: Global, text: &[u8]) -> (u8, u64, u8) {
    fault_in(alloc, &mut Ends::new(text))
}

/// Texts, each with its first fault.
const FAULTS: &[(&[u8], (u8, u64, u8))] = &[
    (b"", (1, 0, 0)),
    (b"\n", (1, 0, 0)),
    (b"reviewgate 3\nend 0\n", (1, 0, 0)),
    (b"reviewgate 2", (3, 0, 0)),
    (b"reviewgate 2\n", (3, 0, 0)),
    (b"reviewgate 2\nend 1\n", (4, 0, 0)),
    (b"reviewgate 2\nend 0\n\n", (5, 0, 0)),
    (b"reviewgate 2\nend 1\n\n", (4, 0, 0)),
    (b"reviewgate 2\n{\"change\":1\nend 1\n", (2, 2, 1)),
    (b"reviewgate 2\n\xFF\nend 1\n", (2, 2, 1)),
    (b"reviewgate 2\nend 0x\n", (2, 2, 1)),
    (b"reviewgate 2\nend \n", (2, 2, 1)),
    (b"reviewgate 2\n{}\n\nend 1\n", (2, 2, 2)),
    (b"reviewgate 2\nend 000000000000000000001\n", (2, 2, 1)),
    (b"reviewgate 2\nend 99999999999999999999\n", (4, 0, 0)),
    (b"reviewgate 2\nend 00000000000000000000\n", (0, 0, 0)),
    (b"reviewgate 1\r\nend 0\r\n", (0, 0, 0)),
    (b"reviewgate 2\nend 0", (0, 0, 0)),
];

#[test]
fn the_first_fault_stands(rt: HostRuntime) {
    for (text, fault) in FAULTS {
        assert_found(&rt, fault_of(rt.alloc(), text), *fault);
    }
}

// However few bytes a read gives, so that each line lies across reads, and a line end is cut off its line.
#[test]
fn the_first_fault_stands_in_sips(rt: HostRuntime) {
    for (text, fault) in FAULTS {
        for most in 1..4usize {
            assert_found(
                &rt,
                fault_in(rt.alloc(), &mut Sips::new(text, most)),
                *fault,
            );
        }
    }
}

/// Whether operations have these times, in their order.
fn have_times(ops: Iter<'_>, times: &[u64]) -> bool {
    ops.map(|op| op.stamp().time()).eq(times.iter().copied())
}

/// Whether the operations that a text brings have these times, in their order.
fn reads(alloc: Global, text: &[u8], times: &[u64]) -> Option<bool> {
    let replica = read_snapshot(alloc, &mut Ends::new(text)).ok()?;
    Some(have_times(replica.iter(), times))
}

/// The operations that a text brings have these times, in their order.
fn assert_read(rt: &impl Abort, alloc: Global, text: &[u8], times: &[u64]) {
    assert_found(rt, reads(alloc, text, times), Some(true));
}

/// The snapshot of a replica.
fn written(alloc: Global, replica: &Replica) -> Option<Vec<u8>> {
    let mut drain = Ends::new(Vec::new(alloc));
    write_snapshot(alloc, replica, &mut drain).ok()?;
    Some(drain.into_inner())
}

/// The snapshot of the operations that a text brings.
fn rewritten(alloc: Global, text: &[u8]) -> Option<Vec<u8>> {
    let replica = read_snapshot(alloc, &mut Ends::new(text)).ok()?;
    written(alloc, &replica)
}

/// Whether a replica has each operation of another one.
fn has_each(replica: &Replica, other: &Replica) -> bool {
    for op in other.iter() {
        if !replica.has(op) {
            return false;
        }
    }
    true
}

/// Whether a text brings each operation that another one brings.
fn brings_each(alloc: Global, text: &[u8], other: &[u8]) -> Option<bool> {
    let replica = read_snapshot(alloc, &mut Ends::new(text)).ok()?;
    let wanted = read_snapshot(alloc, &mut Ends::new(other)).ok()?;
    Some(has_each(&replica, &wanted))
}

/// A text of two operations, not in their order, and one of them twice.
fn unordered(alloc: Global) -> Option<String> {
    format!(in alloc; "reviewgate 1\n{SECOND}\n{FIRST}\n{SECOND}\nend 3\n").ok()
}

/// The snapshot of these operations.
fn ordered(alloc: Global) -> Option<String> {
    format!(in alloc; "reviewgate 2\n{FIRST}\n{SECOND}\nend 2\n").ok()
}

#[test]
fn operations_in_any_order_are_written_in_order(rt: HostRuntime) {
    let text = unordered(rt.alloc()).expect(&rt, MEMORY);
    let wanted = ordered(rt.alloc()).expect(&rt, MEMORY);
    assert_read(&rt, rt.alloc(), text.as_bytes(), &[3, 2]);
    assert_bytes(
        &rt,
        rewritten(rt.alloc(), text.as_bytes()),
        wanted.as_bytes(),
    );
    assert_read(&rt, rt.alloc(), wanted.as_bytes(), &[2, 3]);
    let brings = brings_each(rt.alloc(), wanted.as_bytes(), text.as_bytes());
    assert_found(&rt, brings, Some(true));
}

/// The number of a fault, and 0 where there is none.
fn number_of<T: Drop>(answer: Result<T, SnapFault>) -> u8 {
    match answer {
        Ok(_) => 0,
        Err(fault) => fault.number(),
    }
}

/// A snapshot of both operations without a line end after it.
fn unended(alloc: Global) -> Option<String> {
    format!(in alloc; "reviewgate 2\n{FIRST}\n{SECOND}\nend 2").ok()
}

/// Whether the operations of a snapshot that was read elsewhere have these times, in their order.
fn is_snapshot_of(alloc: Global, text: &[u8], times: &[u64]) -> Option<bool> {
    if text.len() > LONGEST {
        return None;
    }
    let replica = snapshot_of(alloc, text).ok()?;
    Some(have_times(replica.iter(), times))
}

// The bytes of a snapshot that were read elsewhere.
#[test]
fn a_text_is_read_as_its_source_is(rt: HostRuntime) {
    let text = unended(rt.alloc()).expect(&rt, MEMORY);
    let is_read = is_snapshot_of(rt.alloc(), text.as_bytes(), &[2, 3]);
    assert_found(&rt, is_read, Some(true));
}

/// Adds the first operation so many times.
fn push_first(text: &mut String, times: u32) -> Option<()> {
    for _ in 0..times {
        text.push_str(FIRST).ok()?;
        text.push_str("\r\n").ok()?;
    }
    Some(())
}

/// A snapshot of several blocks, which has the first operation 2000 times.
fn long(alloc: Global) -> Option<String> {
    let mut text = String::from_str(alloc, "reviewgate 2\n").ok()?;
    push_first(&mut text, 2000)?;
    text.push_str(SECOND).ok()?;
    text.push_str("\nend 2001\n").ok()?;
    Some(text)
}

// Lines that lie across blocks of a source: so many of them that there are several blocks.
#[test]
fn lines_lie_across_blocks(rt: HostRuntime) {
    let text = long(rt.alloc()).expect(&rt, MEMORY);
    assert_read(&rt, rt.alloc(), text.as_bytes(), &[2, 3]);
}

/// Whether the operations of a text, of which each read gives so many bytes, are those of a replica.
fn is_read_in_sips(alloc: Global, text: &[u8], most: usize, whole: &Replica) -> Option<bool> {
    let replica = read_snapshot(alloc, &mut Sips::new(text, most)).ok()?;
    Some(replica.iter().eq(whole.iter()) && replica.same_state(whole))
}

// Whatever a read gives: the same operations come.
#[test]
fn a_source_is_read_in_sips(rt: HostRuntime) {
    let text = unordered(rt.alloc()).expect(&rt, MEMORY);
    let whole = read_snapshot(rt.alloc(), &mut Ends::new(text.as_bytes())).ok();
    let whole = whole.expect(&rt, MEMORY);
    for most in 1..9usize {
        let is_read = is_read_in_sips(rt.alloc(), text.as_bytes(), most, &whole);
        assert_found(&rt, (most, is_read), (most, Some(true)));
    }
}

#[test]
fn an_empty_text_has_no_header(rt: HostRuntime) {
    assert_found(&rt, number_of(snapshot_of(rt.alloc(), b"")), 1);
}

/// A snapshot of the second operation, and one of both of which the first comes twice.
fn one_and_both(alloc: Global) -> Option<(String, String)> {
    let one = format!(in alloc; "reviewgate 2\n{SECOND}\nend 1").ok()?;
    let both = format!(in alloc; "reviewgate 2\n{FIRST}\n{SECOND}\n{FIRST}\nend 3").ok()?;
    Some((one, both))
}

/// The replica of a text onto which another one was read.
fn read_onto(alloc: Global, one: &[u8], both: &[u8]) -> Option<Replica> {
    if one.len() > LONGEST || both.len() > LONGEST {
        return None;
    }
    snapshot_onto(snapshot_of(alloc, one).ok()?, both).ok()
}

// A snapshot is read into a replica that has operations already: they keep their places, and what both have comes once.
#[test]
fn a_text_is_read_onto_a_replica(rt: HostRuntime) {
    let (one, both) = one_and_both(rt.alloc()).expect(&rt, MEMORY);
    let replica = read_onto(rt.alloc(), one.as_bytes(), both.as_bytes()).expect(&rt, MEMORY);
    assert_found(&rt, have_times(replica.iter(), &[3, 2]), true);
    let fault = number_of(snapshot_onto(replica, b"reviewgate 2\n"));
    assert_found(&rt, fault, 3);
}

/// What two texts bring, gathered.
fn gathered(alloc: Global, one: &[u8], both: &[u8]) -> Option<Gathering> {
    let first = gather_onto(Gathering::new(alloc), &mut Ends::new(one)).ok()?;
    gather_onto(first, &mut Ends::new(both)).ok()
}

/// The snapshot of what was gathered.
fn written_gathered(alloc: Global, gathering: &Gathering) -> Option<Vec<u8>> {
    let mut drain = Ends::new(Vec::new(alloc));
    write_gathered(alloc, gathering, &mut drain).ok()?;
    Some(drain.into_inner())
}

// Two texts are gathered and written, with no state between.
#[test]
fn what_is_gathered_is_written(rt: HostRuntime) {
    let (one, both) = one_and_both(rt.alloc()).expect(&rt, MEMORY);
    let gathering = gathered(rt.alloc(), one.as_bytes(), both.as_bytes()).expect(&rt, MEMORY);
    assert_found(&rt, have_times(gathering.iter(), &[3, 2]), true);
    let wanted = ordered(rt.alloc()).expect(&rt, MEMORY);
    assert_bytes(
        &rt,
        written_gathered(rt.alloc(), &gathering),
        wanted.as_bytes(),
    );
}

/// The number of the fault of a text whose reader fails before this byte.
fn fault_before(alloc: Global, text: &[u8], byte: u64) -> u8 {
    let mut source = Broken::before_byte(Ends::new(text), byte);
    number_of(read_snapshot(alloc, &mut source))
}

// The reader fails before each byte in turn.
#[test]
fn a_failing_reader_is_refused(rt: HostRuntime) {
    let text = unordered(rt.alloc()).expect(&rt, MEMORY);
    for byte in 1..=text.len() as u64 {
        assert_found(&rt, fault_before(rt.alloc(), text.as_bytes(), byte), 7);
    }
}

// A line that is refused doesn't hide that the reader fails after it.
#[test]
fn a_failing_reader_is_refused_after_a_bad_line(rt: HostRuntime) {
    for byte in 15..=23u64 {
        assert_found(
            &rt,
            fault_before(rt.alloc(), b"reviewgate 2\n{\nend 1\n\n", byte),
            7,
        );
    }
}

// Nor that there are more bytes than the limit.
#[test]
fn too_much_is_refused_after_a_bad_line(rt: HostRuntime) {
    let mut endless = Sips::endless(b"reviewgate 2\n{\nend 1\n");
    assert_found(&rt, number_of(read_snapshot(rt.alloc(), &mut endless)), 6);
}

/// What writing no operations to a writer that fails before this byte answers, and how many bytes the writer took.
fn written_before(alloc: Global, byte: u64) -> (Result<(), WriteSnapFault>, u64) {
    let mut drain = Broken::before_byte(Ends::new(Vec::new(alloc)), byte);
    let answer = write_snapshot(alloc, &Replica::new(alloc), &mut drain);
    (answer, drain.into_inner().into_inner().len() as u64)
}

// The writer fails before each byte in turn, and has taken those before it.
#[test]
fn a_failing_writer_is_reported(rt: HostRuntime) {
    for byte in 1..20u64 {
        let wanted = (Err(WriteSnapFault::WriteFault), byte.wrapping_sub(1));
        assert_found(&rt, written_before(rt.alloc(), byte), wanted);
    }
}

#[test]
fn faults_have_numbers_and_names(rt: HostRuntime) {
    snapshots_say_their_operations();
    snapshots_are_one();
    lines_have_one_reading();
    let bad_line = SnapFault::BadLine(2, OpTextFault::NotJson);
    assert_found(&rt, bad_line.number(), 2);
    assert_found(&rt, bad_line.name(), "BadLine");
    assert_found(&rt, WriteSnapFault::WriteFault.number(), 1);
    assert_found(&rt, WriteSnapFault::NoMemory.name(), "NoMemory");
}
