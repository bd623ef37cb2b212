//! Operations, their bodies and stamps: what is valid, how they are ordered, and copies, with expected values worked
//! out by hand.
//!
//! Each test compares the results of small functions, which return `None` if memory is refused.

use super::asserts::assert_found;
use super::lattices::is_copied;
use deeds::{Deed, draft_of};
use review_ops::{Body, Draft, Op, Stamp};
use std::alloc::Global;

/// The numbers of a stamp.
type Numbers = (u64, u16, u32, u64);

/// The stamp of these numbers, where there is one.
fn stamp(numbers: Numbers) -> Option<Stamp> {
    let (time, site, start, seq) = numbers;
    Stamp::new(time, site, start, seq)
}

/// The numbers of a stamp.
fn numbers_of(stamp: Stamp) -> Numbers {
    (stamp.time(), stamp.site(), stamp.start(), stamp.seq())
}

#[test]
fn a_sequence_number_of_0_is_refused(rt: HostRuntime) {
    assert_found(&rt, Stamp::new(1, 1, 1, 0).is_none(), true);
}

/// The greatest stamp of the first sequence number.
const LAST: Numbers = (18446744073709551615, 65535, 4294967295, 1);

#[test]
fn a_stamp_has_its_numbers(rt: HostRuntime) {
    assert_found(&rt, stamp(LAST).map(numbers_of), Some(LAST));
}

/// Whether a stamp is printed so.
fn is_printed(alloc: Global, stamp: Stamp, text: &str) -> bool {
    match stamp.to_string(alloc) {
        Ok(printed) => printed.as_str() == text,
        Err(_) => false,
    }
}

/// Whether a stamp is printed so, and is equal to its copy.
fn printed_and_copied(alloc: Global, stamp: Stamp, text: &str) -> (bool, bool) {
    (is_printed(alloc, stamp, text), is_copied(&stamp))
}

#[test]
fn a_stamp_prints_its_numbers(rt: HostRuntime) {
    let text = "18446744073709551615,65535,4294967295,1";
    let found = stamp(LAST).map(|stamp| printed_and_copied(rt.alloc(), stamp, text));
    assert_found(&rt, found, Some((true, true)));
}

/// Whether both are there, and the first is the lesser.
fn is_less<T: Ord + Drop>(lesser: Option<T>, greater: Option<T>) -> bool {
    match (lesser, greater) {
        (Some(lesser), Some(greater)) => lesser < greater,
        _ => false,
    }
}

/// Stamps of which the first is the earlier one: by time, then site, start and seq.
const STAMPS: [(Numbers, Numbers); 4] = [
    ((0, 9, 9, 9), (1, 0, 0, 1)),
    ((1, 1, 9, 9), (1, 2, 0, 1)),
    ((1, 1, 1, 9), (1, 1, 2, 1)),
    ((1, 1, 1, 1), (1, 1, 1, 2)),
];

#[test]
fn stamps_are_in_order(rt: HostRuntime) {
    for (earlier, later) in STAMPS {
        assert_found(&rt, is_less(stamp(earlier), stamp(later)), true);
    }
}

/// A text of `length` equal characters, where memory suffices for it.
fn text_of(alloc: Global, letter: char, length: usize) -> Option<String> {
    let mut text = String::new(alloc);
    for _ in 0..length {
        text.push(letter).ok()?;
    }
    Some(text)
}

/// The number and the name of a fault.
type Fault = (u8, &'static str);

/// The fault of a draft, where there are both.
fn fault_of(draft: Option<Draft>) -> Option<Fault> {
    let fault = Body::checked(draft?).err()?;
    Some((fault.number(), fault.name()))
}

/// Patch sets with parent 0, by their change and number, and their faults: the least number wins.
const BAD_SETS: [(u32, u32, Fault); 3] = [
    (0, 0, (1, "BadChange")),
    (1, 0, (2, "BadSet")),
    (1, 1, (7, "BadParent")),
];

#[test]
fn faults_of_numbers(rt: HostRuntime) {
    for (change, set, fault) in BAD_SETS {
        let draft = draft_of(rt.alloc(), change, Deed::PatchSet(set, "m", Some(0)));
        assert_found(&rt, fault_of(draft), Some(fault));
    }
}

#[test]
fn a_fault_of_a_merge(rt: HostRuntime) {
    let draft = Draft::Merged { change: 0 };
    assert_found(&rt, fault_of(Some(draft)), Some((1, "BadChange")));
}

/// The first patch set of a change, with a message of so many letters, where memory suffices for it.
fn long_set(alloc: Global, change: u32, length: usize, parent: u32) -> Option<Draft> {
    let message = text_of(alloc, 'm', length)?;
    Some(Draft::PatchSet {
        change,
        set: 1,
        message,
        parent: Some(parent),
    })
}

#[test]
fn a_long_message(rt: HostRuntime) {
    let draft = long_set(rt.alloc(), 1, 65537, 0);
    assert_found(&rt, fault_of(draft), Some((5, "LongMessage")));
}

#[test]
fn faults_of_a_vote_on_no_patch_set(rt: HostRuntime) {
    let draft = draft_of(rt.alloc(), 1, Deed::Vote(0, "", "", 0));
    assert_found(&rt, fault_of(draft), Some((2, "BadSet")));
}

/// The fault of a vote of this label and voter, and that of a withdrawal of it.
fn word_faults(
    alloc: Global,
    label: &'static str,
    voter: &'static str,
) -> (Option<Fault>, Option<Fault>) {
    let vote = fault_of(draft_of(alloc, 1, Deed::Vote(1, label, voter, 1)));
    let withdrawal = fault_of(draft_of(alloc, 1, Deed::Withdraw(1, label, voter)));
    (vote, withdrawal)
}

const BAD_LABEL: Fault = (3, "BadLabel");

const BAD_VOTER: Fault = (4, "BadVoter");

/// Labels and voters at fault: the label is looked at first.
const BAD_WORDS: [(&str, &str, Fault); 4] = [
    ("Code_Review", "", BAD_LABEL),
    ("", "ann", BAD_LABEL),
    ("Verified", "", BAD_VOTER),
    ("Verified", "a b", BAD_VOTER),
];

#[test]
fn faults_of_words(rt: HostRuntime) {
    for (label, voter, fault) in BAD_WORDS {
        let found = word_faults(rt.alloc(), label, voter);
        assert_found(&rt, found, (Some(fault), Some(fault)));
    }
}

/// A word of 65 letters, one more than a label or a voter may have.
const WIDE: &str = "vvvvvvvvvvvvvvvvvvvvvvvvvvvvvvvvvvvvvvvvvvvvvvvvvvvvvvvvvvvvvvvvv";

/// The longest voter, of 64 letters.
const LONGEST: &str = "~~~~~~~~~~~~~~~~~~~~~~~~~~~~~~~~~~~~~~~~~~~~~~~~~~~~~~~~~~~~~~~~";

/// Labels and voters that are too long.
const WIDE_WORDS: [(&str, &str, Fault); 2] = [
    (WIDE, "ann", BAD_LABEL),
    ("Verified", WIDE, BAD_VOTER),
];

#[test]
fn faults_of_long_words(rt: HostRuntime) {
    assert_found(&rt, (WIDE.len(), LONGEST.len()), (65, 64));
    for (label, voter, fault) in WIDE_WORDS {
        let found = word_faults(rt.alloc(), label, voter);
        assert_found(&rt, found, (Some(fault), Some(fault)));
    }
}

/// The body of a draft, where there is one and it is good.
fn checked(draft: Option<Draft>) -> Option<Body> {
    Body::checked(draft?).ok()
}

/// Whether the body has this message and no label.
fn has_message(body: &Body, message: &str) -> bool {
    body.draft().message() == Some(message) && body.draft().label().is_none()
}

/// Whether the body of a patch set has its message of so many letters, where memory suffices for it.
fn keeps_message(alloc: Global, length: usize) -> Option<bool> {
    let body = checked(long_set(alloc, 4294967295, length, 7))?;
    let message = text_of(alloc, 'm', length)?;
    Some(has_message(&body, message.as_str()))
}

// The longest message is accepted.
#[test]
fn a_long_patch_set(rt: HostRuntime) {
    assert_found(&rt, keeps_message(rt.alloc(), 65536), Some(true));
}

/// The change of a body, its patch set and its parent.
fn set_of(body: Body) -> (u32, Option<u32>, Option<u32>) {
    (body.change(), body.draft().set(), body.draft().parent())
}

#[test]
fn a_patch_set(rt: HostRuntime) {
    let draft = draft_of(rt.alloc(), 4294967295, Deed::PatchSet(1, "m", Some(7)));
    assert_found(
        &rt,
        checked(draft).map(set_of),
        Some((4294967295, Some(1), Some(7))),
    );
}

/// Whether a body has this label, and whether it has this voter.
fn words_are(body: Body, label: &str, voter: &str) -> (bool, bool) {
    let draft = body.draft();
    (draft.label() == Some(label), draft.voter() == Some(voter))
}

/// A vote of the longest voter.
const VOTE: Deed = Deed::Vote(2, "Code-Review9", LONGEST, -128);

// The longest voter is accepted, and a label is kept in lower case.
#[test]
fn a_vote(rt: HostRuntime) {
    let body = checked(draft_of(rt.alloc(), 1, VOTE));
    let found = body.map(|body| words_are(body, "code-review9", LONGEST));
    assert_found(&rt, found, Some((true, true)));
}

/// Whether the first is there, and is the same as the second.
fn is_same<T: PartialEq + Drop>(first: Option<T>, second: &T) -> bool {
    match first {
        Some(first) => first == *second,
        None => false,
    }
}

/// Whether the copy of a body is equal to it, and whether the body is taken apart into this draft.
fn copied_and_apart(body: Body, draft: Option<Draft>) -> (bool, bool) {
    let copied = is_same(body.copy().ok(), &body);
    (copied, is_same(draft, &body.into_draft()))
}

#[test]
fn a_vote_is_copied_and_taken_apart(rt: HostRuntime) {
    let alloc = rt.alloc();
    let wanted = Deed::Vote(2, "code-review9", LONGEST, -128);
    let body = checked(draft_of(alloc, 1, VOTE));
    let found = body.map(|body| copied_and_apart(body, draft_of(alloc, 1, wanted)));
    assert_found(&rt, found, Some((true, true)));
}

/// What is stamped on a change, with what its order depends on.
type Kind = (u32, Deed);

/// The body of what is done to a change.
fn body_of(alloc: Global, kind: Kind) -> Option<Body> {
    checked(draft_of(alloc, kind.0, kind.1))
}

/// The operation with this time.
fn op_of(alloc: Global, time: u64, kind: Kind) -> Option<Op> {
    let stamp = Stamp::new(time, 1, 1, 1)?;
    Some(Op::new(stamp, body_of(alloc, kind)?))
}

/// Whether operations with different stamps differ, also where their bodies are equal.
fn differ_by_stamp(early: &Op, late: &Op) -> bool {
    early.body() == late.body() && early != late
}

/// Whether two operations of one kind with different stamps differ, where memory suffices for both.
fn stamp_counts(alloc: Global, kind: Kind) -> Option<bool> {
    let early = op_of(alloc, 1, kind)?;
    Some(differ_by_stamp(&early, &op_of(alloc, 2, kind)?))
}

const SET: Deed = Deed::PatchSet(9, "m", None);

const SET_ON_1: Deed = Deed::PatchSet(9, "m", Some(1));

/// Pairs of which the first is the lesser: by kind, then field by field; no parent is least.
const ORDERED: [(Kind, Kind); 8] = [
    ((9, SET), (9, SET_ON_1)),
    ((9, SET_ON_1), (9, Deed::PatchSet(9, "mm", None))),
    ((9, SET), (1, Deed::Vote(1, "a", "z", 1))),
    (
        (1, Deed::Vote(1, "a", "z", 1)),
        (1, Deed::Vote(1, "b", "a", -1)),
    ),
    (
        (1, Deed::Vote(1, "b", "a", -1)),
        (1, Deed::Vote(1, "b", "a", 0)),
    ),
    ((1, Deed::Withdraw(1, "a", "a")), (1, Deed::Abandon)),
    ((1, Deed::Abandon), (1, Deed::Restore)),
    ((2, Deed::Restore), (1, Deed::Merged)),
];

/// Whether the first draft is the lesser as a body and as an operation, and whether the greater draft with an earlier
/// stamp is the lesser operation.
fn in_order(alloc: Global, lesser: Kind, greater: Kind) -> (bool, bool, bool) {
    (
        is_less(body_of(alloc, lesser), body_of(alloc, greater)),
        is_less(op_of(alloc, 2, lesser), op_of(alloc, 2, greater)),
        is_less(op_of(alloc, 1, greater), op_of(alloc, 2, lesser)),
    )
}

// The first draft is the lesser, as a body and as an operation, unless the other's stamp is earlier.
#[test]
fn orders(rt: HostRuntime) {
    for (lesser, greater) in ORDERED {
        assert_found(
            &rt,
            in_order(rt.alloc(), lesser, greater),
            (true, true, true),
        );
        assert_found(&rt, stamp_counts(rt.alloc(), greater), Some(true));
    }
}
