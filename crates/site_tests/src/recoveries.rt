//! Journals that are recovered as a command: what is printed, what is reported, and the status.

use super::asserts::assert_found;
use super::talks::MEMORY;
use byte_ends::{Broken, Drain, Ends, Source};
use console::show_torn;
use recover_command::{recover_named, recover_to, show_journal_fault};
use site_journal::{JournalFault, LeftOut, LineCause, RecoverFault, recover};
use std::alloc::Global;
use std::fs;
use std::process::Abort;
use std::rt::Files;
use std::test::Fail;

/// A journal of three lines, of which the last says what the first does, and the snapshot of it.
const JOURNAL: &[u8] =
    b"reviewgate 2\n{\"change\":6,\"op\":\"merged\",\"seq\":2,\"site\":1,\"start\":2,\"time\":2}\n{\"change\":5,\"op\":\"merged\",\"seq\":1,\"site\":1,\"start\":2,\"time\":1}\n{\"change\":6,\"op\":\"merged\",\"seq\":2,\"site\":1,\"start\":2,\"time\":2}\n";

const SNAPSHOT: &[u8] =
    b"reviewgate 2\n{\"change\":5,\"op\":\"merged\",\"seq\":1,\"site\":1,\"start\":2,\"time\":1}\n{\"change\":6,\"op\":\"merged\",\"seq\":2,\"site\":1,\"start\":2,\"time\":2}\nend 2\n";

/// What a recovery printed, what it reported, and the status that it ended with.
type Recovery = (Vec<u8>, Vec<u8>, u8);

/// The recovery of a journal from this source.
fn recovery_of<S: Source + Drop>(alloc: Global, source: S) -> Recovery {
    let mut output = Ends::new(Vec::new(alloc));
    let mut errors = Ends::new(Vec::new(alloc));
    let nothing = LeftOut::nothing(alloc);
    let status = recover_to(alloc, source, &nothing, &mut output, &mut errors);
    (output.into_inner(), errors.into_inner(), status)
}

/// The same, as slices.
fn said(recovery: &Recovery) -> (&[u8], &[u8], u8) {
    (recovery.0.as_slice(), recovery.1.as_slice(), recovery.2)
}

/// Recovering a journal with these bytes prints and reports this, and ends with this status.
fn assert_recovers(
    rt: &impl Abort,
    alloc: Global,
    journal: &[u8],
    printed: &[u8],
    reported: &[u8],
    status: u8,
) {
    let recovery = recovery_of(alloc, Ends::new(journal));
    assert_found(rt, said(&recovery), (printed, reported, status));
}

#[test]
fn each_operation_is_printed_once_and_in_order(rt: HostRuntime) {
    assert_recovers(&rt, rt.alloc(), JOURNAL, SNAPSHOT, b"", 0);
}

/// How many bytes are past the last line end.
fn torn_of(bytes: &[u8]) -> usize {
    bytes
        .iter()
        .rev()
        .take_while(|byte| **byte != b'\n')
        .count()
}

/// What `site_journal` recovers of a journal with these bytes.
fn snapshot_of(alloc: Global, journal: &[u8]) -> Result<Vec<u8>, RecoverFault> {
    let mut snapshot = Ends::new(Vec::new(alloc));
    let nothing = LeftOut::nothing(alloc);
    let _torn = recover(alloc, Ends::new(journal), &nothing, &mut snapshot)?;
    Ok(snapshot.into_inner())
}

/// The line that reports a torn line of so many bytes, if any.
fn torn_line(alloc: Global, torn: usize) -> Option<String> {
    match torn {
        0 => Some(String::new(alloc)),
        torn => format!(in alloc; "reviewgate: journal 6 Torn {torn}\n").ok(),
    }
}

/// What is to be printed and reported of what is left of a journal.
fn wanted_of(alloc: Global, left: &[u8]) -> Option<(Vec<u8>, String)> {
    let printed = snapshot_of(alloc, left).ok()?;
    let line = torn_line(alloc, torn_of(left))?;
    Some((printed, line))
}

/// Cut at any byte a journal is recovered as `site_journal` does it, and a torn line is reported by its length.
#[test]
fn a_journal_is_recovered_wherever_it_is_cut(rt: HostRuntime) {
    let alloc = rt.alloc();
    for length in 0..=JOURNAL.len() {
        let left = JOURNAL.get(..length).unwrap_or(JOURNAL);
        let (printed, line) = wanted_of(alloc, left).expect(&rt, MEMORY);
        assert_recovers(&rt, alloc, left, printed.as_slice(), line.as_bytes(), 0);
    }
}

/// The journal with a torn line at its end.
fn torn_journal(alloc: Global) -> Option<Vec<u8>> {
    let mut journal = JOURNAL.to_vec(alloc).ok()?;
    journal.extend_from_slice(b"{\"chan").ok()?;
    Some(journal)
}

#[test]
fn a_torn_line_is_left_out(rt: HostRuntime) {
    let journal = torn_journal(rt.alloc()).expect(&rt, MEMORY);
    let line = b"reviewgate: journal 6 Torn 6\n";
    assert_recovers(&rt, rt.alloc(), journal.as_slice(), SNAPSHOT, line, 0);
}

#[test]
fn what_is_no_journal_is_refused_and_nothing_is_printed(rt: HostRuntime) {
    let cases: [(&[u8], &[u8]); 3] = [
        (b"reviewgate 1\n", b"reviewgate: journal 1 BadHeader\n"),
        (
            b"reviewgate 2\n{}\n",
            b"reviewgate: journal 2 BadLine 2 BadShape op\n",
        ),
        (SNAPSHOT, b"reviewgate: journal 2 BadLine 4 NotJson\n"),
    ];
    for (journal, line) in cases {
        assert_recovers(&rt, rt.alloc(), journal, b"", line, 1);
    }
}

/// What is written to standard error if a journal is recovered to this output, and the exit status.
fn reported_to<O: Drain>(alloc: Global, output: &mut O) -> (Vec<u8>, u8) {
    let mut errors = Ends::new(Vec::new(alloc));
    let nothing = LeftOut::nothing(alloc);
    let status = recover_to(alloc, Ends::new(JOURNAL), &nothing, output, &mut errors);
    (errors.into_inner(), status)
}

/// What an output took that fails before its 40th byte, and what is reported then.
fn broken_recovery(alloc: Global) -> Recovery {
    let mut output = Broken::before_byte(Ends::new(Vec::new(alloc)), 40);
    let (reported, status) = reported_to(alloc, &mut output);
    (output.into_inner().into_inner(), reported, status)
}

#[test]
fn an_output_that_fails_has_taken_a_front(rt: HostRuntime) {
    let recovery = broken_recovery(rt.alloc());
    let printed = SNAPSHOT.get(..39).unwrap_or(SNAPSHOT);
    let reported = b"reviewgate: output 1 WriteFault\n".as_slice();
    assert_found(&rt, said(&recovery), (printed, reported, 1));
}

#[test]
fn a_source_that_fails_is_a_journal_that_is_not_read(rt: HostRuntime) {
    let source = Broken::before_byte(Ends::new(JOURNAL), 50);
    let recovery = recovery_of(rt.alloc(), source);
    let reported = b"reviewgate: journal 4 Failed\n".as_slice();
    assert_found(&rt, said(&recovery), (b"".as_slice(), reported, 1));
}

/// The recovery of the journal of a name, beside an input that has a torn first line.
fn recovery_named<R: Files>(rt: &R, alloc: Global, name: &str) -> Recovery {
    let mut output = Ends::new(Vec::new(alloc));
    let mut errors = Ends::new(Vec::new(alloc));
    let input = Ends::new(b"reviewgate".as_slice());
    let nothing = LeftOut::nothing(alloc);
    let status = recover_named(rt, alloc, name, input, &nothing, &mut output, &mut errors);
    (output.into_inner(), errors.into_inner(), status)
}

/// Recovering the journal of a name prints and reports this, and ends with this status.
fn assert_named<R: Files + Abort>(
    rt: &R,
    alloc: Global,
    name: &str,
    printed: &[u8],
    reported: &[u8],
    status: u8,
) {
    let recovery = recovery_named(rt, alloc, name);
    let wanted = (name, (printed, reported, status));
    assert_found(rt, (name, said(&recovery)), wanted);
}

// A file that is there, the input, one that isn't there, and a folder.
#[test]
fn journals_are_recovered_by_name(rt: HostRuntime) -> Result<(), Fail> {
    let alloc = rt.alloc();
    let empty = b"reviewgate 2\nend 0\n";
    let failed = b"reviewgate: journal 4 Failed\n";
    fs::write(&rt, "recovered.tmp", JOURNAL)?;
    assert_named(&rt, alloc, "recovered.tmp", SNAPSHOT, b"", 0);
    assert_named(
        &rt,
        alloc,
        "-",
        empty,
        b"reviewgate: journal 6 Torn 10\n",
        0,
    );
    assert_named(&rt, alloc, "no/such/file", b"", failed, 1);
    assert_named(&rt, alloc, ".", b"", failed, 1);
    assert_found(&rt, fs::read(&rt, "recovered.tmp")?.as_slice(), JOURNAL);
    fs::remove_file(&rt, "recovered.tmp")?;
    Ok(())
}

/// What is reported of a bad line, of a whole one and of a torn one.
fn reported_lines(alloc: Global) -> Vec<u8> {
    let mut errors = Ends::new(Vec::new(alloc));
    let fault = JournalFault::BadLine(7, LineCause::TooLong);
    show_journal_fault(alloc, &fault, &mut errors);
    show_torn(alloc, 0, &mut errors);
    show_torn(alloc, 3, &mut errors);
    errors.into_inner()
}

#[test]
fn faults_and_torn_lines_have_a_line_each(rt: HostRuntime) {
    let lines = b"reviewgate: journal 2 BadLine 7 TooLong\nreviewgate: journal 6 Torn 3\n";
    assert_found(&rt, reported_lines(rt.alloc()).as_slice(), lines.as_slice());
}

/// A journal of two sites, of which the second has two starts, and the four operations in order.
const TWO_SITES: &[u8] = b"reviewgate 2\n\
    {\"change\":5,\"op\":\"merged\",\"seq\":1,\"site\":1,\"start\":2,\"time\":1}\n\
    {\"change\":6,\"op\":\"merged\",\"seq\":1,\"site\":2,\"start\":2,\"time\":2}\n\
    {\"change\":7,\"op\":\"merged\",\"seq\":1,\"site\":2,\"start\":4294967295,\"time\":3}\n\
    {\"change\":8,\"op\":\"merged\",\"seq\":2,\"site\":1,\"start\":2,\"time\":18446744073709551615}\n";

const OP_5: &str = "{\"change\":5,\"op\":\"merged\",\"seq\":1,\"site\":1,\"start\":2,\"time\":1}\n";

const OP_6: &str = "{\"change\":6,\"op\":\"merged\",\"seq\":1,\"site\":2,\"start\":2,\"time\":2}\n";

const OP_7: &str =
    "{\"change\":7,\"op\":\"merged\",\"seq\":1,\"site\":2,\"start\":4294967295,\"time\":3}\n";

const OP_8: &str =
    "{\"change\":8,\"op\":\"merged\",\"seq\":2,\"site\":1,\"start\":2,\"time\":18446744073709551615}\n";

/// What is recovered of that journal without what is left out.
fn recovered_without(alloc: Global, left_out: &LeftOut) -> Vec<u8> {
    let mut output = Ends::new(Vec::new(alloc));
    let mut errors = Ends::new(Vec::new(alloc));
    let source = Ends::new(TWO_SITES);
    let _status = recover_to(alloc, source, left_out, &mut output, &mut errors);
    output.into_inner()
}

/// What is recovered of that journal without these sites and starts, and what is above a time.
fn left_of(alloc: Global, rows: &[(u16, u32)], until: Option<u64>) -> Option<Vec<u8>> {
    let rows = rows.to_vec(alloc).ok()?;
    Some(recovered_without(alloc, &LeftOut { rows, until }))
}

/// Adds lines.
fn push_lines(text: &mut String, lines: &[&str]) -> Option<()> {
    for line in lines {
        text.push_str(line).ok()?;
    }
    Some(())
}

/// A snapshot of these lines.
fn snapshot_with(alloc: Global, lines: &[&str]) -> Option<String> {
    let mut text = String::from_str(alloc, "reviewgate 2\n").ok()?;
    push_lines(&mut text, lines)?;
    let count = lines.len();
    write!(text, "end {count}\n").ok()?;
    Some(text)
}

/// What is recovered of that journal without what is left out is the snapshot of these lines.
fn assert_left(
    rt: &impl Abort,
    alloc: Global,
    rows: &[(u16, u32)],
    until: Option<u64>,
    lines: &[&str],
) {
    let wanted = snapshot_with(alloc, lines).expect(rt, MEMORY);
    let printed = left_of(alloc, rows, until);
    assert_found(rt, printed.as_deref(), Some(wanted.as_bytes()));
}

// What is left out is left out, and exactly that: of a site under a start, not under another, and not of another site
// under the same start; and what is above a time, not what is at it.
#[test]
fn what_is_left_out_is_left_out_and_nothing_else(rt: HostRuntime) {
    let alloc = rt.alloc();
    let cases: [(&[(u16, u32)], Option<u64>, &[&str]); 7] = [
        (&[], None, &[OP_5, OP_6, OP_7, OP_8]),
        (&[(2, 4_294_967_295)], None, &[OP_5, OP_6, OP_8]),
        (&[(2, 2)], None, &[OP_5, OP_7, OP_8]),
        (&[(1, 2), (2, 4_294_967_295)], None, &[OP_6]),
        (&[(3, 2), (2, 3)], None, &[OP_5, OP_6, OP_7, OP_8]),
        (&[], Some(2), &[OP_5, OP_6]),
        (&[(2, 2)], Some(18_446_744_073_709_551_614), &[OP_5, OP_7]),
    ];
    for (rows, until, lines) in cases {
        assert_left(&rt, alloc, rows, until, lines);
    }
}
