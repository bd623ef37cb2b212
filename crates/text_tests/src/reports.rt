//! Texts of reports, worked out by hand, and what is written where the writer fails.

use super::asserts::assert_found;
use super::found::{MEMORY, assert_bytes};
use byte_ends::{Broken, Ends};
use gate_rules::{Clause, Condition, Side};
use ready_core::{Left, Refusal, Verdicts};
use report_text::{
    WriteReportFault, equal_states_print_equal_reports, reports_have_one_reading, write_report,
};
use state_core::Item;
use std::alloc::{AllocError, Global};
use std::process::Abort;

/// The item with the longest text.
const LONGEST: Item = Item {
    change: u32::MAX,
    set: u32::MAX,
};

/// Conditions, with their words.
const CONDITIONS: [(Side, Clause, &str); 6] = [
    (Side::Require, Clause::OpenState, "require open"),
    (Side::Require, Clause::StatusIn, "require status"),
    (Side::Require, Clause::Approval(1), "require approval 1"),
    (Side::Reject, Clause::CurrentSet, "reject current-patchset"),
    (Side::Reject, Clause::Approval(2), "reject approval 2"),
    (
        Side::Require,
        Clause::Approval(usize::MAX),
        "require approval 18446744073709551615",
    ),
];

/// Other refusals, with their words.
const OTHERS: [(Refusal, &str); 3] = [
    (Refusal::Cycle, "cycle"),
    (Refusal::Unknown(7), "unknown 7"),
    (Refusal::Dependency(9), "dependency 9"),
];

/// The verdicts of one item that is ready, and of one that is left out for a refusal.
fn verdicts_with(alloc: Global, refusal: Refusal) -> Result<Verdicts, AllocError> {
    let left = Left {
        item: LONGEST,
        refusal,
        rank: 0,
    };
    let item = Item {
        change: 101,
        set: 2,
    };
    Ok(Verdicts::new(vec![in alloc; item; 1]?, vec![in alloc; left; 1]?))
}

/// The report of one item that is ready, and of one that is left out for a refusal.
fn report_of(alloc: Global, refusal: Refusal) -> Option<Vec<u8>> {
    let verdicts = verdicts_with(alloc, refusal).ok()?;
    let mut written = Ends::new(Vec::new(alloc));
    write_report(&verdicts, &mut written).ok()?;
    Some(written.into_inner())
}

/// The report of the two items, with these words for the one that is left out.
fn report_with(alloc: Global, words: &str) -> Option<String> {
    format!(in alloc; "ready 101,2\nout 4294967295,4294967295 {words}\nend 1 1\n").ok()
}

/// The report has these words for a refusal.
fn assert_words(rt: &impl Abort, alloc: Global, refusal: Refusal, words: &str) {
    let wanted = report_with(alloc, words).expect(rt, MEMORY);
    assert_bytes(rt, report_of(alloc, refusal), wanted.as_bytes());
}

#[test]
fn refusals_have_their_words(rt: HostRuntime) {
    for (side, clause, words) in CONDITIONS {
        let refusal = Refusal::Own(Condition { side, clause });
        assert_words(&rt, rt.alloc(), refusal, words);
    }
    for (refusal, words) in OTHERS {
        assert_words(&rt, rt.alloc(), refusal, words);
    }
}

/// The verdicts of so many items that are ready, whose lines have 28 bytes each, of which a page takes 143.
fn many(alloc: Global, items: usize) -> Option<Verdicts> {
    let ready = vec![in alloc; LONGEST; items].ok()?;
    Some(Verdicts::new(ready, Vec::new(alloc)))
}

/// A writer that fails once.
type Failing = Broken<Ends<Vec<u8>>>;

/// How the writing of a report to a failing writer ends, and how many bytes the writer has taken then.
fn written_to(verdicts: &Verdicts, mut drain: Failing) -> (Result<(), WriteReportFault>, u64) {
    let written = write_report(verdicts, &mut drain);
    (written, drain.into_inner().into_inner().len() as u64)
}

/// Where the writer fails at this page, it has taken the pages before it.
fn assert_fails_at(rt: &impl Abort, alloc: Global, verdicts: &Verdicts, page: u64) {
    let drain = Broken::at_call(Ends::new(Vec::new(alloc)), page);
    let taken = page.saturating_sub(1).saturating_mul(143 * 28);
    let wanted = (Err(WriteReportFault::WriteFault), taken);
    assert_found(rt, written_to(verdicts, drain), wanted);
}

/// Where the writer fails before this byte of the report, it has taken those before the byte.
fn assert_fails_before(rt: &impl Abort, alloc: Global, verdicts: &Verdicts, byte: u64) {
    let drain = Broken::before_byte(Ends::new(Vec::new(alloc)), byte);
    let wanted = (Err(WriteReportFault::WriteFault), byte.saturating_sub(1));
    assert_found(rt, written_to(verdicts, drain), wanted);
}

// A report of four pages fails at each page in turn, and one of two lines before each byte.
#[test]
fn a_failing_writer_has_taken_what_came_before(rt: HostRuntime) {
    let long = many(rt.alloc(), 500).expect(&rt, MEMORY);
    for page in 1..=4u64 {
        assert_fails_at(&rt, rt.alloc(), &long, page);
    }
    let short = many(rt.alloc(), 1).expect(&rt, MEMORY);
    for byte in 1..=36u64 {
        assert_fails_before(&rt, rt.alloc(), &short, byte);
    }
}

#[test]
fn reports_have_their_laws(rt: HostRuntime) {
    let _alloc = rt.alloc();
    reports_have_one_reading();
    equal_states_print_equal_reports();
}
