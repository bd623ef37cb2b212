//! Journals over tapes in memory.

use super::asserts::assert_found;
use super::talks::MEMORY;
use byte_ends::{Broken, Ends};
use op_text::read_op;
use review_ops::Op;
use site_journal::{
    Journal, JournalFault, KeepFault, LeftOut, LineCause, MemoryTape, RecoverFault, Started,
    open_tape, recover,
};
use site_ledger::{Keeps, NoJournal};
use snapshot_text::WriteSnapFault;
use std::alloc::Global;

/// Three operations, in the order of arrival.
const FIRST: &[u8] = br#"{"change":5,"op":"merged","seq":1,"site":1,"start":2,"time":1}"#;

const SECOND: &[u8] = br#"{"change":6,"op":"merged","seq":2,"site":1,"start":2,"time":2}"#;

const THIRD: &[u8] = br#"{"change":7,"op":"merged","seq":3,"site":1,"start":2,"time":3}"#;

/// The operations of these texts.
fn ops_of(alloc: Global, texts: &[&[u8]]) -> Option<Vec<Op>> {
    let mut ops = Vec::new(alloc);
    for text in texts {
        let op = read_op(alloc, *text).ok()?;
        ops.push(op).ok()?;
    }
    Some(ops)
}

/// A journal that was opened over these bytes, none of them synced before.
fn journal_over(alloc: Global, bytes: &[u8]) -> Option<Started<MemoryTape>> {
    let tape = MemoryTape::new(bytes.to_vec(alloc).ok()?);
    Journal::open(alloc, tape).ok()
}

/// How many operations a journal with these bytes has.
fn operations_in(alloc: Global, bytes: &[u8]) -> Option<usize> {
    let started = journal_over(alloc, bytes)?;
    Some(started.replica.len())
}

/// An empty journal.
fn empty_journal(alloc: Global) -> Option<Journal<MemoryTape>> {
    let started = journal_over(alloc, b"")?;
    Some(started.journal)
}

/// The bytes that are synced of a journal once it kept operations.
fn synced_of(alloc: Global, mut journal: Journal<MemoryTape>, ops: &[Op]) -> Option<Vec<u8>> {
    keep_all(&mut journal, ops).ok()?;
    journal.tape().synced().to_vec(alloc).ok()
}

/// The bytes of a journal that kept the operations of these texts.
fn journal_of(alloc: Global, texts: &[&[u8]]) -> Option<Vec<u8>> {
    let ops = ops_of(alloc, texts)?;
    synced_of(alloc, empty_journal(alloc)?, ops.as_slice())
}

/// Whatever keeps operations keeps these.
fn keep_all<K: Keeps>(keeper: &mut K, ops: &[Op]) -> Result<(), KeepFault> {
    keeper.keep(ops)
}

/// Whether a journal with these bytes has these operations, and how many bytes of it are torn.
fn found_in(alloc: Global, bytes: &[u8], ops: &[Op]) -> Option<(bool, usize)> {
    let started = journal_over(alloc, bytes)?;
    Some((started.replica.iter().eq(ops.iter()), started.torn))
}

#[test]
fn what_is_appended_is_found_again(rt: HostRuntime) {
    let alloc = rt.alloc();
    let ops = ops_of(alloc, &[FIRST, SECOND, THIRD]).expect(&rt, MEMORY);
    let text = journal_of(alloc, &[FIRST, SECOND, THIRD]).expect(&rt, MEMORY);
    let found = found_in(alloc, text.as_slice(), ops.as_slice());
    assert_found(&rt, found, Some((true, 0)));
}

#[test]
fn without_a_journal_nothing_is_refused(rt: HostRuntime) {
    assert_found(&rt, keep_all(&mut NoJournal, &[]).is_ok(), true);
}

/// Whether all that a journal has is synced, and counted, that was opened over so many bytes, with the torn ones as
/// many as before.
fn is_synced(journal: &Journal<MemoryTape>, torn: usize, length: usize) -> bool {
    let synced = journal.tape().synced();
    let is_all = synced.len().checked_add(torn) == Some(length);
    let is_counted = journal.len() == synced.len() as u64;
    synced == journal.tape().contents() && is_counted && (is_all || length < 13)
}

/// How many operations a journal has once it took another one.
fn after_another(alloc: Global, journal: &mut Journal<MemoryTape>) -> Option<usize> {
    let more = ops_of(alloc, &[THIRD])?;
    journal.append(more.as_slice()).ok()?;
    operations_in(alloc, journal.tape().synced())
}

/// How many operations are found in the first so many bytes of a journal, and in what it has once it was opened and
/// took another one; and whether all that it had once it was opened was synced, with the torn bytes as many as before.
fn cut_at(alloc: Global, whole: &[u8], length: usize) -> Option<(usize, usize, bool)> {
    let left = whole.get(..length)?;
    let mut started = journal_over(alloc, left)?;
    let is_synced = is_synced(&started.journal, started.torn, length);
    let after = after_another(alloc, &mut started.journal)?;
    Some((started.replica.len(), after, is_synced))
}

/// How many whole lines the first so many bytes have after the first one.
fn lines_in(whole: &[u8], length: usize) -> usize {
    let bytes = whole.iter().take(length);
    let ends = bytes.filter(|byte| **byte == b'\n').count();
    ends.saturating_sub(1)
}

/// Cut at any byte a journal opens with the operations of its whole lines, all of them synced, and takes another one.
#[test]
fn a_journal_is_opened_wherever_it_is_cut(rt: HostRuntime) {
    let alloc = rt.alloc();
    let whole = journal_of(alloc, &[FIRST, SECOND]).expect(&rt, MEMORY);
    for length in 0..whole.len() {
        let lines = lines_in(whole.as_slice(), length);
        let wanted = (lines, lines.saturating_add(1), true);
        assert_found(&rt, cut_at(alloc, whole.as_slice(), length), Some(wanted));
    }
}

/// A journal of one operation over a tape whose calls fail by the bits of a number.
fn failing_journal(alloc: Global, failing: u64) -> Option<Journal<MemoryTape>> {
    let mut tape = MemoryTape::new(journal_of(alloc, &[FIRST])?);
    tape.fail(failing.saturating_mul(16), 20);
    let started = Journal::open(alloc, tape).ok()?;
    Some(started.journal)
}

/// How many operations a crash leaves on a tape at least and at most: those that are synced, and those written.
fn left_on(alloc: Global, tape: &MemoryTape) -> Option<(usize, usize)> {
    let synced = operations_in(alloc, tape.synced())?;
    let written = operations_in(alloc, tape.written())?;
    Some((synced, written))
}

/// What an append to a journal answers, how many operations are then synced and how many written, and whether the next
/// append finds the journal spoiled.
fn appended(
    alloc: Global,
    mut journal: Journal<MemoryTape>,
    ops: &[Op],
) -> Option<(bool, usize, usize, bool)> {
    let is_kept = journal.append(ops).is_ok();
    let left = left_on(alloc, journal.tape());
    let is_spoiled = journal.append(ops) == Err(KeepFault::Spoiled);
    let (synced, written) = left?;
    Some((is_kept, synced, written, is_spoiled))
}

/// The same over a tape whose calls fail by the bits of a number. An operation was kept before; the append is of two
/// more.
fn append_failing(alloc: Global, failing: u64) -> Option<(bool, usize, usize, bool)> {
    let ops = ops_of(alloc, &[SECOND, THIRD])?;
    appended(alloc, failing_journal(alloc, failing)?, ops.as_slice())
}

/// Whichever calls of an append fail, what was acknowledged before is synced, and what is left opens. After the
/// opening's calls an append has two: it writes and syncs. Where the first fails it cuts and syncs, where the second
/// fails too.
#[test]
fn appends_that_fail_lose_nothing(rt: HostRuntime) {
    for (failing, wanted) in [
        (0b0000, (true, 3, 3, false)),
        (0b0001, (false, 1, 1, false)),
        (0b0010, (false, 1, 3, true)),
        (0b0011, (false, 1, 1, true)),
        (0b0101, (false, 1, 1, true)),
        (0b0110, (false, 1, 3, true)),
        (0b1110, (false, 1, 3, true)),
    ] {
        let found = append_failing(rt.alloc(), failing);
        assert_found(&rt, (failing, found), (failing, Some(wanted)));
    }
}

/// A journal of the operations of these texts, with a torn line at its end.
fn torn_journal(alloc: Global, texts: &[&[u8]]) -> Option<Vec<u8>> {
    let mut text = journal_of(alloc, texts)?;
    text.extend_from_slice(b"{\"chan").ok()?;
    Some(text)
}

/// Whether an opening of two whole lines and a torn one is refused where one of its calls fails, counted from 0, and
/// how many operations a crash then leaves at least and at most.
fn opening_failing(alloc: Global, call: u32) -> Option<(bool, usize, usize)> {
    let mut tape = MemoryTape::new(torn_journal(alloc, &[FIRST, SECOND])?);
    tape.fail(1u64.wrapping_shl(call), 0);
    let is_refused = matches!(open_tape(alloc, &mut tape), Err(JournalFault::Failed));
    let (synced, written) = left_on(alloc, &tape)?;
    Some((is_refused, synced, written))
}

/// An opening reads, here three times, then cuts and syncs. Whichever of these fails, the whole lines are still there;
/// a sixth call there is none.
#[test]
fn openings_that_fail_lose_nothing(rt: HostRuntime) {
    let alloc = rt.alloc();
    for call in 0..5u32 {
        assert_found(&rt, opening_failing(alloc, call), Some((true, 0, 2)));
    }
    assert_found(&rt, opening_failing(alloc, 5), Some((false, 2, 2)));
}

/// Whether an opening is refused for another first line, and whether for a line that is no operation, the second one.
fn is_other(fault: Option<JournalFault>) -> (bool, bool) {
    match fault {
        Some(JournalFault::BadHeader) => (true, false),
        Some(JournalFault::BadLine(2, LineCause::Text(_))) => (false, true),
        _ => (false, false),
    }
}

/// Why a tape with these bytes isn't opened, and whether it then has them still.
fn refused(alloc: Global, bytes: &[u8]) -> Option<((bool, bool), bool)> {
    let mut tape = MemoryTape::new(bytes.to_vec(alloc).ok()?);
    let fault = open_tape(alloc, &mut tape).err();
    let is_kept = tape.contents() == bytes;
    Some((is_other(fault), is_kept))
}

#[test]
fn other_texts_are_refused_and_stay(rt: HostRuntime) {
    let other = refused(rt.alloc(), b"reviewgate 1\n");
    assert_found(&rt, other, Some(((true, false), true)));
    let bad = refused(rt.alloc(), b"reviewgate 2\n{}\n");
    assert_found(&rt, bad, Some(((false, true), true)));
}

/// How many torn bytes a recovery leaves out, and whether it writes three operations.
fn recovered(alloc: Global, text: &[u8]) -> Option<(usize, bool)> {
    let mut drain = Ends::new(Vec::new(alloc));
    let nothing = LeftOut::nothing(alloc);
    let torn = recover(alloc, Ends::new(text), &nothing, &mut drain).ok()?;
    Some((torn, drain.get_ref().as_slice().ends_with(b"end 3\n")))
}

#[test]
fn a_torn_end_is_left_out_of_a_recovery(rt: HostRuntime) {
    let text = torn_journal(rt.alloc(), &[FIRST, SECOND, THIRD]).expect(&rt, MEMORY);
    assert_found(&rt, recovered(rt.alloc(), text.as_slice()), Some((6, true)));
}

/// Whether a recovery from a source that fails at its first call tells so.
fn is_source_told(alloc: Global, text: &[u8]) -> bool {
    let source = Broken::at_call(Ends::new(text), 1);
    let nothing = LeftOut::nothing(alloc);
    let fault = recover(alloc, source, &nothing, &mut Ends::new(Vec::new(alloc))).err();
    matches!(&fault, Some(RecoverFault::Journal(JournalFault::Failed)))
}

/// Whether a recovery to a drain that fails at its first call tells so.
fn is_drain_told(alloc: Global, text: &[u8]) -> bool {
    let mut drain = Broken::at_call(Ends::new(Vec::new(alloc)), 1);
    let nothing = LeftOut::nothing(alloc);
    let fault = recover(alloc, Ends::new(text), &nothing, &mut drain).err();
    matches!(
        &fault,
        Some(RecoverFault::Snapshot(WriteSnapFault::WriteFault))
    )
}

#[test]
fn a_recovery_tells_which_end_failed(rt: HostRuntime) {
    let text = journal_of(rt.alloc(), &[FIRST]).expect(&rt, MEMORY);
    let is_source = is_source_told(rt.alloc(), text.as_slice());
    let is_drain = is_drain_told(rt.alloc(), text.as_slice());
    assert_found(&rt, (is_source, is_drain), (true, true));
}

/// The words of a fault.
fn words_of(alloc: Global, fault: &JournalFault) -> Option<String> {
    let mut words = String::new(alloc);
    fault.write_words(&mut words).ok()?;
    Some(words)
}

#[test]
fn faults_have_numbers_and_words(rt: HostRuntime) {
    let fault = JournalFault::BadLine(7, LineCause::TooLong);
    let words = words_of(rt.alloc(), &fault);
    assert_found(&rt, words.as_deref(), Some("BadLine 7 TooLong"));
    let found = (fault.number(), JournalFault::NoMemory.name());
    assert_found(&rt, found, (2, "NoMemory"));
}
