//! Which rows a list has, and which of them a page has.

use super::record::{Question, Record, is_so};
use page_routes::{Choice, Reason, Shown};
use page_text::{ROWS, Row, chosen_rows, pages_are_the_report, rows_of};
use ready_core::Verdicts;
use state_core::{Item, State};
use std::alloc::{AllocError, Global};

/// Verdicts that so many changes are ready.
fn many(alloc: Global, items: u32) -> Option<Verdicts> {
    let mut ready = Vec::new(alloc);
    for change in 0..items {
        ready.push(Item { change, set: 1 }).ok()?;
    }
    Some(Verdicts::new(ready, Vec::new(alloc)))
}

/// How many rows this page of the list of so many items has, and the place of its first one.
fn page(alloc: Global, items: u32, number: u32) -> Option<(usize, usize)> {
    let verdicts = many(alloc, items)?;
    let state = State::new(alloc);
    let choice = Choice {
        shown: Shown::Open,
        reason: None,
        words: None,
        page: number,
    };
    match chosen_rows(alloc, &state, &verdicts, &choice) {
        Ok(rows) => Some(on_page(rows.as_slice(), number)),
        Err(_) => None,
    }
}

/// How many of some rows are on this page, and the place of the first one of them.
fn on_page(rows: &[Row], number: u32) -> (usize, usize) {
    let shown = rows_of(rows, number);
    let first = match shown.first() {
        Some(Row::Enters(_, place)) => *place,
        Some(Row::Waits(_)) | None => 0,
    };
    (shown.len(), first)
}

/// The pages of 250 items: the number of each, how many rows it has, and the place of the first one.
const PAGES: [(u32, usize, usize); 6] = [
    (0, 100, 1),
    (1, 100, 1),
    (2, 100, 101),
    (3, 50, 201),
    (4, 0, 0),
    (u32::MAX, 0, 0),
];

/// Whether a page of 250 items has so many rows, the first one at this place.
fn is_paged(alloc: Global, number: u32, rows: usize, first: usize) -> bool {
    page(alloc, 250, number) == Some((rows, first))
}

/// Whether each of those pages is so.
fn are_paged(alloc: Global) -> bool {
    let mut are_so = ROWS == 100;
    for (number, rows, first) in PAGES {
        are_so = is_paged(alloc, number, rows, first) && are_so;
    }
    are_so
}

#[test]
fn a_page_has_a_hundred_rows(rt: HostRuntime) {
    let are_paged = are_paged(rt.alloc());
    assert!(rt; are_paged);
    pages_are_the_report();
}

/// A choice of this kind of items, for this reason and with these words.
fn choice_of(
    alloc: Global,
    shown: Shown,
    reason: Option<Reason>,
    words: Option<&str>,
) -> Option<Choice> {
    let words = match words {
        Some(words) => Some(String::from_str(alloc, words).ok()?),
        None => None,
    };
    Some(Choice {
        shown,
        reason,
        words,
        page: 1,
    })
}

/// Whether a choice of this kind of items, for this reason and with these words, has these changes.
pub fn are_chosen_by(
    alloc: Global,
    state: &State,
    verdicts: &Verdicts,
    asked: (Shown, Option<Reason>, Option<&'static str>),
    changes: &str,
) -> bool {
    match choice_of(alloc, asked.0, asked.1, asked.2) {
        Some(choice) => are_rows(alloc, state, verdicts, &choice, changes),
        None => false,
    }
}

/// Whether a choice has rows of these changes.
fn are_rows(
    alloc: Global,
    state: &State,
    verdicts: &Verdicts,
    choice: &Choice,
    changes: &str,
) -> bool {
    match chosen_rows(alloc, state, verdicts, choice) {
        Ok(rows) => are_changes(alloc, rows.as_slice(), changes),
        Err(_) => false,
    }
}

/// Whether rows have these changes.
fn are_changes(alloc: Global, rows: &[Row], changes: &str) -> bool {
    match changes_of(alloc, rows) {
        Ok(text) => text.as_str() == changes,
        Err(_) => false,
    }
}

/// The numbers of the changes of rows, one after the other, with a blank behind each.
fn changes_of(alloc: Global, rows: &[Row]) -> Result<String, AllocError> {
    let mut text = String::new(alloc);
    for row in rows {
        let change = row.item().change;
        write!(text, "{change} ")?;
    }
    Ok(text)
}

/// Choices, with the changes that they have.
const CHOICES: [(Shown, Option<Reason>, Option<&'static str>, &'static str); 11] = [
    (Shown::Open, None, None, "101 102 103 "),
    (Shown::Ready, None, None, "101 "),
    (Shown::All, None, None, "101 102 103 104 "),
    (Shown::Open, Some(Reason::Require), None, "103 "),
    (Shown::All, Some(Reason::Require), None, "103 104 "),
    (Shown::All, Some(Reason::Dependency), None, "102 "),
    (Shown::All, Some(Reason::Cycle), None, ""),
    (Shown::Open, None, Some("THE d"), "101 "),
    (Shown::All, None, Some("04"), "104 "),
    (Shown::All, None, Some("10"), "101 102 103 104 "),
    (Shown::All, None, Some("squeaks"), ""),
];

/// Whether each of those choices has its changes.
fn are_chosen(alloc: Global) -> bool {
    let mut are_so = true;
    for (shown, reason, words, changes) in CHOICES {
        let question = Question::Chooses(shown, reason, words, changes);
        are_so = is_so(alloc, Record::Given, question) && are_so;
    }
    are_so
}

#[test]
fn lists_have_what_is_asked_for(rt: HostRuntime) {
    let are_chosen = are_chosen(rt.alloc());
    assert!(rt; are_chosen);
}

/// Two hundred letters that are searched for, of which a long subject has as many at its end; and those with another
/// last one.
const LONG_WORDS: &str = concat!(
    "aaaaaaaaaaaaaaaaaaaaaaaaaaaaaaaaaaaaaaaaaaaaaaaaaaaaaaaaaaaaaaaaaaaaaaaaaaaaaaaaaaaaaaaaaaaaaaaaaaaa",
    "AAAAAAAAAAAAAAAAAAAAAAAAAAAAAAAAAAAAAAAAAAAAAAAAAAAAAAAAAAAAAAAAAAAAAAAAAAAAAAAAAAAAAAAAAAAAAAAAAAA",
    "b",
);

const OTHER_LONG_WORDS: &str = concat!(
    "aaaaaaaaaaaaaaaaaaaaaaaaaaaaaaaaaaaaaaaaaaaaaaaaaaaaaaaaaaaaaaaaaaaaaaaaaaaaaaaaaaaaaaaaaaaaaaaaaaaa",
    "aaaaaaaaaaaaaaaaaaaaaaaaaaaaaaaaaaaaaaaaaaaaaaaaaaaaaaaaaaaaaaaaaaaaaaaaaaaaaaaaaaaaaaaaaaaaaaaaaaa",
    "c",
);

/// Words, with the changes that have them in their subjects or numbers.
const SEARCHES: [(&str, &str); 14] = [
    (LONG_WORDS, "1 "),
    (OTHER_LONG_WORDS, ""),
    ("", "1 2 3 4 5 6 17 "),
    ("7", "17 "),
    ("aab", "1 2 "),
    ("aAAB", "1 2 "),
    ("ababac", "3 "),
    ("the door", "4 "),
    ("doors", ""),
    ("PAINT", "17 "),
    ("der tür", "5 "),
    ("ÄRGER", "5 "),
    ("ärger", ""),
    ("hidden", ""),
];

/// Whether each of those words has its changes.
fn are_found(alloc: Global) -> bool {
    let mut are_so = true;
    for (words, changes) in SEARCHES {
        let question = Question::Chooses(Shown::All, None, Some(words), changes);
        are_so = is_so(alloc, Record::Subjects, question) && are_so;
    }
    are_so
}

#[test]
fn words_are_found_anywhere_in_either_case(rt: HostRuntime) {
    let are_found = are_found(rt.alloc());
    assert!(rt; are_found);
}
