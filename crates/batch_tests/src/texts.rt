//! Snapshots and journals of many lines, read in batches and one by one.

use super::asserts::assert_found;
use byte_ends::Ends;
use lattice_core::NoMemory;
use line_batches::{Batches, OneByOne, SideBySide};
use replica_core::{EffectJoiner, Gathering, Replica};
use review_ops::Op;
use site_journal::{Journal, JournalFault, MemoryTape};
use snapshot_text::{SnapFault, gather_by};
use std::alloc::Global;
use std::thread::Threads;

/// What a test lacks that can't go on.
pub const MEMORY: &str = "memory";

/// Two operations.
pub const FIRST: &[u8] =
    br#"{"change":101,"label":"verified","op":"vote","seq":2,"set":1,"site":1,"start":1,"time":2,"value":1,"voter":"zuul"}"#;

pub const SECOND: &[u8] = br#"{"change":101,"op":"abandon","seq":1,"site":2,"start":1,"time":3}"#;

/// Twice so many lines are several blocks of a quarter of a MiB.
const MANY: u64 = 9_000;

/// So many lines are enough for threads.
const SOME: u64 = 2_500;

/// Reads side by side, but wants only a quarter of a MiB at once.
#[derive(Drop)]
struct SmallBlocks<R: Drop> {
    whole: SideBySide<R>,
}

impl<R: Drop> EffectJoiner for SmallBlocks<R> {}

impl<R: Threads + Drop> Batches for SmallBlocks<R> {
    fn size(&self) -> usize {
        262_144
    }

    fn file_and_read(
        &self,
        gathering: Gathering,
        ops: Vec<Op>,
        lines: &[u8],
    ) -> Result<(Gathering, Option<Vec<Op>>), NoMemory> {
        self.whole.file_and_read(gathering, ops, lines)
    }
}

/// The bytes of all of them.
pub fn text_of(alloc: Global, parts: &[&[u8]]) -> Option<Vec<u8>> {
    let mut text = Vec::new(alloc);
    for part in parts {
        text.extend_from_slice(*part).ok()?;
    }
    Some(text)
}

/// So many lines, each of another operation.
pub fn many_lines(alloc: Global, count: u64) -> Option<Vec<u8>> {
    let mut lines = Vec::new(alloc);
    for seq in 1..count.saturating_add(1) {
        let line = format!(in alloc;
            "{{\"change\":{},\"op\":\"merged\",\"seq\":{seq},\"site\":1,\"start\":1,\"time\":{seq}}}\n",
            seq % 1_000 + 1
        )
        .ok()?;
        lines.extend_from_slice(line.as_bytes()).ok()?;
    }
    Some(lines)
}

/// The record of a snapshot of these lines, or the line of its fault and its number.
fn gathered<B: Batches>(batches: &B, alloc: Global, lines: &[u8]) -> Result<Replica, (u64, u8)> {
    let Some(text) = text_of(alloc, &[b"reviewgate 2\n", lines]) else {
        return Err((0, 8));
    };
    let mut source = Ends::new(text.as_slice());
    match gather_by(batches, Gathering::new(alloc), &mut source) {
        Ok(gathering) => gathering.joined().map_err(|_| (0, 8)),
        Err(SnapFault::BadLine(line, cause)) => Err((line, cause.number())),
        Err(fault) => Err((0, fault.number())),
    }
}

/// The record of a journal of these lines and how many bytes of it are torn, or the line of its fault and its number.
fn opened<B: Batches>(
    batches: &B,
    alloc: Global,
    lines: &[u8],
) -> Result<(Replica, usize), (u64, u8)> {
    let Some(text) = text_of(alloc, &[b"reviewgate 2\n", lines]) else {
        return Err((0, 5));
    };
    match Journal::open_by(alloc, batches, MemoryTape::new(text)) {
        Ok(started) => Ok((started.replica, started.torn)),
        Err(JournalFault::BadLine(line, _)) => Err((line, 2)),
        Err(fault) => Err((0, fault.number())),
    }
}

/// How many operations a record has that was read, or the fault; and whether what was read in batches is what was read
/// line by line.
fn compared(
    found: Result<Replica, (u64, u8)>,
    wanted: Result<Replica, (u64, u8)>,
) -> (Result<usize, (u64, u8)>, bool) {
    match (found, wanted) {
        (Ok(found), Ok(wanted)) => (Ok(found.len()), found.iter().eq(wanted.iter())),
        (Err(found), Err(wanted)) => (Err(found), found == wanted),
        (Ok(found), Err(_)) => (Ok(found.len()), false),
        (Err(found), Ok(_)) => (Err(found), false),
    }
}

/// What is found of a snapshot with so many lines, these, the same lines once more, and the end.
fn found_in_snapshot(
    rt: impl Threads + Sync + Drop,
    alloc: Global,
    count: u64,
    between: &[u8],
    end: &[u8],
) -> Option<(Result<usize, (u64, u8)>, bool)> {
    let many = many_lines(alloc, count)?;
    let lines = text_of(alloc, &[many.as_slice(), between, many.as_slice(), end])?;
    let blocks = SmallBlocks {
        whole: SideBySide::new(rt),
    };
    let found = gathered(&blocks, alloc, lines.as_slice());
    Some(compared(found, gathered(&OneByOne, alloc, lines.as_slice())))
}

#[test]
fn a_long_snapshot_is_read_as_line_by_line(rt: HostRuntime) {
    let found = found_in_snapshot(rt, rt.alloc(), MANY, b"", b"end 18000\n");
    assert_found(&rt, found, Some((Ok(9_000), true)));
}

/// Lines within a long snapshot, with the fault that it has with them.
const BETWEEN: &[(&[u8], (u64, u8))] = &[
    (b"x\n", (2_502, 1)),
    (b"\n", (2_502, 1)),
    (
        b"{\"change\":0,\"op\":\"merged\",\"seq\":1,\"site\":1,\"start\":1,\"time\":1}\n",
        (2_502, 3),
    ),
    (b"end 2500\n", (0, 5)),
    (b"end 2499\n", (0, 4)),
];

#[test]
fn a_fault_of_a_long_snapshot_is_at_its_line(rt: HostRuntime) {
    for (between, fault) in BETWEEN {
        let found = found_in_snapshot(rt, rt.alloc(), SOME, *between, b"end 5000\n");
        assert_found(&rt, found, Some((Err(*fault), true)));
    }
}

// What isn't in the form in which it is written is read, too: blanks, a carriage return before the line end.
#[test]
fn other_forms_of_a_long_snapshot_are_read(rt: HostRuntime) {
    let alloc = rt.alloc();
    let between = text_of(alloc, &[b" ", SECOND, b"\r\n"]).expect(&rt, MEMORY);
    let found = found_in_snapshot(rt, alloc, MANY, between.as_slice(), b"end 18001");
    assert_found(&rt, found, Some((Ok(9_001), true)));
}

/// What is found of a journal with so many lines and these bytes after them, and how many bytes are torn.
fn found_in_journal(
    rt: impl Threads + Sync + Drop,
    alloc: Global,
    count: u64,
    end: &[u8],
) -> Option<(Result<usize, (u64, u8)>, bool, usize)> {
    let many = many_lines(alloc, count)?;
    let lines = text_of(alloc, &[many.as_slice(), end])?;
    let blocks = SmallBlocks {
        whole: SideBySide::new(rt),
    };
    let found = opened(&blocks, alloc, lines.as_slice());
    let wanted = opened(&OneByOne, alloc, lines.as_slice());
    let torn = found.as_ref().map_or(0, |found| found.1);
    let (found, is_same) = compared(found.map(|found| found.0), wanted.map(|wanted| wanted.0));
    Some((found, is_same, torn))
}

#[test]
fn a_long_journal_is_read_as_line_by_line(rt: HostRuntime) {
    let found = found_in_journal(rt, rt.alloc(), MANY.saturating_mul(2), b"");
    assert_found(&rt, found, Some((Ok(18_000), true, 0)));
}

#[test]
fn a_torn_line_of_a_long_journal_is_left(rt: HostRuntime) {
    let found = found_in_journal(rt, rt.alloc(), SOME, b"{\"change\":1");
    assert_found(&rt, found, Some((Ok(2_500), true, 11)));
}

#[test]
fn a_fault_of_a_long_journal_is_at_its_line(rt: HostRuntime) {
    let found = found_in_journal(rt, rt.alloc(), SOME, b"{\"change\":1\n");
    assert_found(&rt, found, Some((Err((2_502, 2)), true, 0)));
}
