//! What findings add to a record, which changes have to be queried, and which have vanished, worked out by hand.

use super::asserts::assert_found;
use deeds::{Deed, draft_of, op_of};
use event_filter::{
    asked, brought, is_moot, lowering_first, nothing_is_above_both, vanished,
    what_a_row_says_is_what_the_record_says, what_comes_first_raises_nothing,
    what_is_met_is_what_the_record_says, what_is_nothing_new_brings_nothing,
};
use footer_text::Bases;
use gerrit_events::{
    Ballot, EventFault, EventKey, Finding, Known, Listing, ParsedLine, Part, Projects, read_event,
};
use op_text::write_body;
use review_ops::Body;
use state_core::State;
use std::alloc::Global;
use std::collections::BTreeSet;
use std::process::Abort;
use std::slice;

/// Takes the operation of a deed on a change, where memory suffices for it.
fn take(alloc: Global, state: &mut State, time: u64, change: u32, deed: Deed) -> Option<()> {
    let op = op_of(alloc, time, change, deed)?;
    state.take(&op).ok()
}

/// The state of deeds on changes, one after the other.
fn state_of(alloc: Global, deeds: &[(u32, Deed)]) -> Option<State> {
    let mut state = State::new(alloc);
    for (time, (change, deed)) in (1u64..).zip(deeds) {
        take(alloc, &mut state, time, *change, *deed)?;
    }
    Some(state)
}

/// The body of a deed on a change.
fn body_of(alloc: Global, change: u32, deed: Deed) -> Option<Body> {
    Body::checked(draft_of(alloc, change, deed)?).ok()
}

/// A finding in a few words.
#[derive(Clone, Copy)]
enum Found {
    Brings(u32, Deed),
    Shows(u32, Deed),
    /// All votes of a patch set: the change, the patch set, and the labels and voters.
    Lists(u32, u32, &'static [(&'static str, &'static str)]),
    Refuses,
}

/// A ballot.
fn ballot_of(alloc: Global, label: &str, voter: &str) -> Option<Ballot> {
    let label = String::from_str(alloc, label).ok()?;
    let voter = String::from_str(alloc, voter).ok()?;
    Some(Ballot { label, voter })
}

/// The ballots.
fn ballots_of(alloc: Global, votes: &[(&str, &str)]) -> Option<Vec<Ballot>> {
    let mut ballots = Vec::new(alloc);
    for (label, voter) in votes {
        ballots.push(ballot_of(alloc, label, voter)?).ok()?;
    }
    Some(ballots)
}

/// A listing of these ballots.
fn listing_of(alloc: Global, change: u32, set: u32, votes: &[(&str, &str)]) -> Option<Listing> {
    let ballots = ballots_of(alloc, votes)?;
    Some(Listing {
        change,
        set,
        ballots,
    })
}

/// The finding.
fn finding_of(alloc: Global, found: Found) -> Option<Finding> {
    match found {
        Found::Brings(change, deed) => Some(Finding::Brings(body_of(alloc, change, deed)?)),
        Found::Shows(change, deed) => Some(Finding::Shows(body_of(alloc, change, deed)?)),
        Found::Lists(change, set, votes) => {
            Some(Finding::Lists(listing_of(alloc, change, set, votes)?))
        }
        Found::Refuses => Some(Finding::Refuses(EventFault::BadEvent(EventKey::Value))),
    }
}

/// Adds bodies, each on a line.
fn push_bodies(alloc: Global, text: &mut String, bodies: &[Body]) -> Option<()> {
    for body in bodies {
        let written = write_body(alloc, body).ok()?;
        text.push_str(written.as_str()).ok()?;
        text.push('\n').ok()?;
    }
    Some(())
}

/// Bodies, each on a line.
fn text_of(alloc: Global, bodies: &[Body]) -> Option<String> {
    let mut text = String::new(alloc);
    push_bodies(alloc, &mut text, bodies)?;
    Some(text)
}

/// What a finding brings to the record of these deeds, a body a line.
fn brought_by(alloc: Global, record: &[(u32, Deed)], found: Found) -> Option<String> {
    let state = state_of(alloc, record)?;
    let finding = finding_of(alloc, found)?;
    let bodies = brought(alloc, &state, finding).ok()?;
    text_of(alloc, bodies.as_slice())
}

/// A record, a finding, and what it brings.
type Case = (&'static [(u32, Deed)], Found, &'static str);

/// Each finding brings to its record what it is to bring.
fn assert_brought(rt: &impl Abort, alloc: Global, cases: &[Case]) {
    for (number, case) in (1u64..).zip(cases) {
        let (record, found, wanted) = *case;
        let text = brought_by(alloc, record, found);
        assert_found(rt, (number, text.as_deref()), (number, Some(wanted)));
    }
}

const COMMIT: Deed = Deed::PatchSet(1, "m", Some(5));

const FIRST: (u32, Deed) = (7, COMMIT);

const FIRST_TEXT: &str =
    "{\"change\":7,\"message\":\"m\",\"op\":\"patchset\",\"parent\":5,\"set\":1}\n";

/// Patch sets that a line says, and that an event shows.
const PATCH_SETS: &[Case] = &[
    (&[], Found::Brings(7, COMMIT), FIRST_TEXT),
    (&[FIRST], Found::Brings(7, COMMIT), ""),
    (
        &[FIRST],
        Found::Brings(7, Deed::PatchSet(1, "m", None)),
        "{\"change\":7,\"message\":\"m\",\"op\":\"patchset\",\"set\":1}\n",
    ),
    (&[], Found::Shows(7, COMMIT), FIRST_TEXT),
    (&[FIRST], Found::Shows(7, COMMIT), ""),
    (&[FIRST], Found::Shows(7, Deed::PatchSet(1, "m", None)), ""),
    (
        &[FIRST],
        Found::Shows(7, Deed::PatchSet(1, "n", Some(6))),
        "",
    ),
    (
        &[(7, Deed::PatchSet(1, "m", None))],
        Found::Shows(7, COMMIT),
        FIRST_TEXT,
    ),
    (
        &[(7, Deed::PatchSet(2, "n", None))],
        Found::Shows(7, COMMIT),
        "",
    ),
    (
        &[FIRST],
        Found::Shows(7, Deed::PatchSet(2, "n", None)),
        "{\"change\":7,\"message\":\"n\",\"op\":\"patchset\",\"set\":2}\n",
    ),
    (&[], Found::Refuses, ""),
];

#[test]
fn a_patch_set_is_brought_where_it_is_new(rt: HostRuntime) {
    assert_brought(&rt, rt.alloc(), PATCH_SETS);
}

const VETO: (u32, Deed) = (7, Deed::Vote(1, "code-review", "bob", -2));

const APPROVED: (u32, Deed) = (7, Deed::Vote(1, "verified", "zuul", 1));

const NO_VETO: &str =
    "{\"change\":7,\"label\":\"code-review\",\"op\":\"withdraw\",\"set\":1,\"voter\":\"bob\"}\n";

/// Votes that a row lists, and that it doesn't list.
const LISTINGS: &[Case] = &[
    (&[], Found::Lists(7, 1, &[]), ""),
    (&[VETO], Found::Lists(7, 1, &[]), NO_VETO),
    (
        &[VETO, APPROVED],
        Found::Lists(7, 1, &[("verified", "zuul")]),
        NO_VETO,
    ),
    (
        &[VETO, APPROVED],
        Found::Lists(7, 1, &[("verified", "zuul"), ("code-review", "bob")]),
        "",
    ),
    (&[VETO], Found::Lists(7, 2, &[]), ""),
    (&[VETO], Found::Lists(8, 1, &[]), ""),
    (
        &[VETO],
        Found::Lists(7, 1, &[("code-review", "ann"), ("verified", "bob")]),
        NO_VETO,
    ),
    (
        &[VETO, (7, Deed::Withdraw(1, "code-review", "bob"))],
        Found::Lists(7, 1, &[]),
        "",
    ),
];

#[test]
fn who_is_not_listed_is_withdrawn(rt: HostRuntime) {
    assert_brought(&rt, rt.alloc(), LISTINGS);
}

/// Votes that an event takes back, and that it shows as 0 alone.
const ZEROS: &[Case] = &[
    (
        &[VETO],
        Found::Brings(7, Deed::Withdraw(1, "code-review", "bob")),
        NO_VETO,
    ),
    (
        &[VETO],
        Found::Shows(7, Deed::Withdraw(1, "code-review", "bob")),
        "",
    ),
    (
        &[],
        Found::Shows(7, Deed::Withdraw(1, "code-review", "bob")),
        "",
    ),
];

#[test]
fn a_vote_that_is_shown_as_0_stays(rt: HostRuntime) {
    assert_brought(&rt, rt.alloc(), ZEROS);
}

const MERGED: (u32, Deed) = (7, Deed::Merged);

/// What is said of the status of changes, merged ones and others.
const STATUSES: &[Case] = &[
    (&[], Found::Brings(7, Deed::Restore), ""),
    (
        &[],
        Found::Brings(7, Deed::Abandon),
        "{\"change\":7,\"op\":\"abandon\"}\n",
    ),
    (&[MERGED], Found::Brings(7, Deed::Restore), ""),
    (&[MERGED], Found::Brings(7, Deed::Abandon), ""),
    (
        &[FIRST],
        Found::Brings(7, Deed::Merged),
        "{\"change\":7,\"op\":\"merged\"}\n",
    ),
];

#[test]
fn a_merged_change_stays_so(rt: HostRuntime) {
    assert_brought(&rt, rt.alloc(), STATUSES);
}

/// Whether a deed can't count where the record has these.
fn moot(alloc: Global, record: &[(u32, Deed)], deed: Deed) -> Option<bool> {
    let state = state_of(alloc, record)?;
    Some(is_moot(&state, &body_of(alloc, 7, deed)?))
}

#[test]
fn what_comes_after_a_merge_is_moot(rt: HostRuntime) {
    for (deed, wanted) in [
        (Deed::Abandon, true),
        (Deed::Restore, true),
        (Deed::Merged, false),
        (VETO.1, false),
    ] {
        assert_found(&rt, moot(rt.alloc(), &[MERGED], deed), Some(wanted));
        assert_found(&rt, moot(rt.alloc(), &[FIRST], deed), Some(false));
    }
}

/// The findings.
fn findings_of(alloc: Global, found: &[Found]) -> Option<Vec<Finding>> {
    let mut findings = Vec::new(alloc);
    for one in found {
        findings.push(finding_of(alloc, *one)?).ok()?;
    }
    Some(findings)
}

/// What is asked for where a line is to be met by a record.
fn asked_of(alloc: Global, state: &State, parsed: &ParsedLine) -> Option<BTreeSet<u32>> {
    let bases = Bases::new(alloc, &["https://r/"]).ok()?;
    asked(alloc, state, Some(&bases), parsed).ok()
}

/// Numbers, in their order.
fn numbers_of(alloc: Global, asks: BTreeSet<u32>) -> Option<Vec<u32>> {
    let mut numbers = Vec::new(alloc);
    for number in &asks {
        numbers.push(*number).ok()?;
    }
    Some(numbers)
}

/// What is asked for where a line with these findings is to be met by the record of these deeds.
fn asks_of(alloc: Global, record: &[(u32, Deed)], part: Part, found: &[Found]) -> Option<Vec<u32>> {
    let state = state_of(alloc, record)?;
    let findings = findings_of(alloc, found)?;
    numbers_of(
        alloc,
        asked_of(alloc, &state, &ParsedLine { part, findings })?,
    )
}

const NEEDY: Deed = Deed::PatchSet(
    1,
    "m\n\nDepends-On: https://r/4\nDepends-On: https://r/3\n",
    Some(5),
);

const OPEN: Found = Found::Brings(7, Deed::Restore);

/// Change 5, its open child, one that was abandoned, one that has another parent now, and one that is merged.
const FAMILY: &[(u32, Deed)] = &[
    (5, Deed::PatchSet(1, "p", None)),
    (8, Deed::PatchSet(1, "m", Some(5))),
    (9, Deed::PatchSet(1, "m", Some(5))),
    (9, Deed::Abandon),
    (10, Deed::PatchSet(1, "m", Some(5))),
    (10, Deed::PatchSet(2, "m", Some(4))),
    (11, Deed::PatchSet(1, "m", Some(5))),
    (11, Deed::Merged),
];

/// A change with a vote on a patch set that was replaced.
const REPLACED: &[(u32, Deed)] = &[
    FIRST,
    (7, Deed::Vote(1, "l", "ann", 1)),
    (7, Deed::PatchSet(2, "m", Some(5))),
];

/// A parent's second patch set that a query brought, and a child; and a third one.
const REBASED: &[(u32, Deed)] = &[
    (5, Deed::PatchSet(1, "p", None)),
    (8, Deed::PatchSet(1, "m", Some(5))),
    (5, Deed::PatchSet(2, "p", None)),
];

const REBASED_AGAIN: &[(u32, Deed)] = &[
    (8, Deed::PatchSet(1, "m", Some(5))),
    (5, Deed::PatchSet(2, "p", None)),
    (5, Deed::PatchSet(3, "p", None)),
];

/// A record, what a line is, what is found in it, and what is asked for.
type Question = (
    &'static [(u32, Deed)],
    Part,
    &'static [Found],
    &'static [u32],
);

/// Events and rows of changes that need others, of which the record has some.
const QUESTIONS: &[Question] = &[
    (
        &[],
        Part::Event(Some(7)),
        &[Found::Shows(7, NEEDY)],
        &[3, 4, 5, 7],
    ),
    (
        &[],
        Part::Event(Some(7)),
        &[Found::Brings(7, NEEDY)],
        &[3, 4, 5, 7],
    ),
    (
        &[(7, NEEDY)],
        Part::Event(Some(7)),
        &[Found::Shows(7, NEEDY)],
        &[],
    ),
    (
        &[
            (3, Deed::Merged),
            (4, Deed::PatchSet(1, "n", None)),
            (5, Deed::Abandon),
        ],
        Part::Event(Some(7)),
        &[Found::Brings(7, NEEDY)],
        &[5, 7],
    ),
    (
        FAMILY,
        Part::Event(Some(5)),
        &[Found::Shows(5, Deed::PatchSet(2, "p", None))],
        &[5, 8],
    ),
    (
        FAMILY,
        Part::Event(Some(5)),
        &[Found::Shows(5, Deed::PatchSet(1, "p", None))],
        &[],
    ),
    (
        REBASED,
        Part::Event(Some(5)),
        &[Found::Shows(5, Deed::PatchSet(2, "p", None))],
        &[8],
    ),
    (
        REBASED,
        Part::Event(Some(5)),
        &[Found::Shows(5, Deed::PatchSet(1, "p", None))],
        &[],
    ),
    (
        REBASED_AGAIN,
        Part::Event(Some(5)),
        &[Found::Shows(5, Deed::PatchSet(2, "p", None))],
        &[],
    ),
    (
        FAMILY,
        Part::Event(Some(4)),
        &[Found::Shows(4, Deed::PatchSet(1, "p", None))],
        &[4],
    ),
    (
        FAMILY,
        Part::Row(Some(5)),
        &[Found::Brings(5, Deed::PatchSet(2, "p", None)), OPEN],
        &[],
    ),
    (
        FAMILY,
        Part::Event(Some(9)),
        &[Found::Brings(9, Deed::Restore)],
        &[9],
    ),
    (
        FAMILY,
        Part::Event(Some(8)),
        &[Found::Brings(8, Deed::Restore)],
        &[],
    ),
    (&[], Part::Event(Some(7)), &[Found::Refuses], &[7]),
    (&[], Part::Event(None), &[Found::Refuses], &[]),
    (
        &[],
        Part::Event(Some(7)),
        &[Found::Brings(7, Deed::Merged)],
        &[],
    ),
    (
        &[(7, NEEDY)],
        Part::Row(Some(7)),
        &[Found::Brings(7, NEEDY), OPEN],
        &[3, 4, 5],
    ),
    (
        &[],
        Part::Row(Some(7)),
        &[Found::Brings(7, NEEDY), Found::Brings(7, Deed::Merged)],
        &[],
    ),
    (&[], Part::Row(Some(7)), &[Found::Refuses, OPEN], &[]),
    (
        REPLACED,
        Part::Event(Some(7)),
        &[Found::Brings(7, Deed::Vote(1, "l", "bob", -2))],
        &[7],
    ),
    (
        REPLACED,
        Part::Event(Some(7)),
        &[Found::Brings(7, Deed::Withdraw(1, "l", "ann"))],
        &[7],
    ),
    (
        REPLACED,
        Part::Event(Some(7)),
        &[Found::Brings(7, Deed::Vote(1, "l", "ann", 1))],
        &[],
    ),
    (
        REPLACED,
        Part::Event(Some(7)),
        &[Found::Brings(7, Deed::Vote(2, "l", "bob", -2))],
        &[],
    ),
    (
        REPLACED,
        Part::Row(Some(7)),
        &[Found::Brings(7, Deed::Vote(1, "l", "bob", -2)), OPEN],
        &[],
    ),
    (
        &[VETO],
        Part::Event(Some(7)),
        &[Found::Shows(7, Deed::Withdraw(1, "code-review", "bob"))],
        &[7],
    ),
    (
        &[VETO],
        Part::Event(Some(7)),
        &[
            Found::Shows(7, Deed::Withdraw(1, "code-review", "ann")),
            Found::Shows(7, Deed::Withdraw(1, "workflow", "bob")),
            Found::Shows(7, Deed::Withdraw(2, "code-review", "bob")),
            Found::Shows(8, Deed::Withdraw(1, "code-review", "bob")),
        ],
        &[],
    ),
    (
        &[VETO],
        Part::Event(Some(7)),
        &[Found::Brings(7, Deed::Withdraw(1, "code-review", "bob"))],
        &[],
    ),
    (&[], Part::Stats { more: false }, &[Found::Refuses], &[]),
];

#[test]
fn what_is_unknown_is_asked_for(rt: HostRuntime) {
    for (number, question) in (1u64..).zip(QUESTIONS) {
        let (record, part, found, wanted) = *question;
        let asks = asks_of(rt.alloc(), record, part, found);
        assert_found(&rt, (number, asks.as_deref()), (number, Some(wanted)));
    }
}

/// The bodies that the findings bring, each on a line.
fn brought_of_all(alloc: Global, state: &State, findings: Vec<Finding>) -> Option<String> {
    let mut text = String::new(alloc);
    for finding in findings {
        push_bodies(
            alloc,
            &mut text,
            brought(alloc, state, finding).ok()?.as_slice(),
        )?;
    }
    Some(text)
}

/// What a line of Gerrit's brings to the record of these deeds, and what is asked for.
fn brought_by_line(
    alloc: Global,
    record: &[(u32, Deed)],
    line: &str,
) -> Option<(String, Vec<u32>)> {
    let mut known = Known::new(alloc);
    let state = state_of(alloc, record)?;
    let parsed = read_event(alloc, &mut known, &Projects::all(), line.as_bytes()).ok()?;
    let asks = numbers_of(alloc, asked_of(alloc, &state, &parsed)?)?;
    Some((brought_of_all(alloc, &state, parsed.findings)?, asks))
}

/// A change whose second patch set has a veto that Gerrit copied to it.
const COPIED_VETO: &[(u32, Deed)] = &[
    (7, Deed::PatchSet(1, "m", None)),
    (7, Deed::Vote(1, "code-review", "bob", -2)),
    (7, Deed::PatchSet(2, "m", None)),
    (7, Deed::Vote(2, "code-review", "bob", -2)),
];

/// The event of a push that sets one label, which shows the others as 0, and that of a veto that is taken back.
const ZERO_LINES: &[(&str, &str, &[u32])] = &[
    (
        r#"{"type":"comment-added","change":{"number":7},"patchSet":{"number":2},"author":{"username":"bob"},"approvals":[{"type":"Code-Review","value":"0"},{"type":"Workflow","value":"1","oldValue":"0"}]}"#,
        "{\"change\":7,\"label\":\"workflow\",\"op\":\"vote\",\"set\":2,\"value\":1,\"voter\":\"bob\"}\n",
        &[7],
    ),
    (
        r#"{"type":"comment-added","change":{"number":7},"patchSet":{"number":2},"author":{"username":"bob"},"approvals":[{"type":"Code-Review","value":"0","oldValue":"-2"},{"type":"Workflow","value":"0"}]}"#,
        "{\"change\":7,\"label\":\"code-review\",\"op\":\"withdraw\",\"set\":2,\"voter\":\"bob\"}\n",
        &[],
    ),
];

#[test]
fn a_copied_veto_stays_until_it_is_taken_back(rt: HostRuntime) {
    for (line, wanted, wanted_asks) in ZERO_LINES {
        let met = brought_by_line(rt.alloc(), COPIED_VETO, *line);
        let found = met.as_ref().map(|met| (met.0.as_str(), met.1.as_slice()));
        assert_found(&rt, found, Some((*wanted, *wanted_asks)));
    }
}

/// The bodies of findings that bring one, each on a line.
fn bodies_in(alloc: Global, findings: &[Finding]) -> Option<String> {
    let mut text = String::new(alloc);
    for finding in findings {
        if let Finding::Brings(body) = finding {
            push_bodies(alloc, &mut text, slice::from_ref(body))?;
        }
    }
    Some(text)
}

/// The bodies of findings, in the order in which the record of these deeds processes them: those that are put first, and
/// then those of all findings.
fn met_of(alloc: Global, record: &[(u32, Deed)], found: &[Found]) -> Option<(String, String)> {
    let state = state_of(alloc, record)?;
    let met = lowering_first(alloc, &state, findings_of(alloc, found)?).ok()?;
    let count = met.len().checked_sub(found.len())?;
    let (first, rest) = met.as_slice().split_at_checked(count)?;
    Some((bodies_in(alloc, first)?, bodies_in(alloc, rest)?))
}

#[test]
fn votes_below_0_are_met_first(rt: HostRuntime) {
    let met = met_of(
        rt.alloc(),
        &[],
        &[
            Found::Brings(7, COMMIT),
            Found::Lists(7, 1, &[("l", "ann"), ("l", "bob")]),
            Found::Brings(7, Deed::Vote(1, "l", "ann", 1)),
            Found::Brings(7, Deed::Vote(1, "l", "bob", -2)),
            Found::Brings(7, Deed::Withdraw(1, "l", "eve")),
            Found::Refuses,
        ],
    );
    let first = met.as_ref().map(|met| met.0.as_str());
    assert_found(&rt, first, Some(VETO_TEXT));
    let rest = met.as_ref().map(|met| met.1.as_str());
    let wanted = text_of_lines(rt.alloc(), &[FIRST_TEXT, VOTE_TEXT, VETO_TEXT, GONE_TEXT]);
    assert_found(&rt, rest, wanted.as_deref());
}

/// A record, what is found in a line, and the bodies that are put first.
type Order = (&'static [(u32, Deed)], &'static [Found], &'static str);

const NO_APPROVAL: &str =
    "{\"change\":7,\"label\":\"verified\",\"op\":\"withdraw\",\"set\":1,\"voter\":\"zuul\"}\n";

const LESS: &str =
    "{\"change\":7,\"label\":\"verified\",\"op\":\"vote\",\"set\":1,\"value\":0,\"voter\":\"zuul\"}\n";

const ABANDON_TEXT: &str = "{\"change\":7,\"op\":\"abandon\"}\n";

/// What lowers an item, and what doesn't.
const ORDERS: &[Order] = &[
    // A row lists neither the veto nor the approval, but a new approval.
    (
        &[VETO, APPROVED],
        &[
            Found::Brings(7, Deed::Vote(1, "workflow", "ann", 1)),
            Found::Lists(7, 1, &[("workflow", "ann")]),
        ],
        NO_APPROVAL,
    ),
    // An event takes both back.
    (
        &[VETO, APPROVED],
        &[
            Found::Brings(7, Deed::Withdraw(1, "code-review", "bob")),
            Found::Brings(7, Deed::Withdraw(1, "verified", "zuul")),
        ],
        NO_APPROVAL,
    ),
    // A veto becomes a vote of -1, and an approval one of 0.
    (
        &[VETO, APPROVED],
        &[
            Found::Brings(7, Deed::Vote(1, "code-review", "bob", -1)),
            Found::Brings(7, Deed::Vote(1, "verified", "zuul", 0)),
        ],
        LESS,
    ),
    // What is recorded lowers nothing.
    (
        &[VETO, APPROVED],
        &[
            Found::Brings(7, Deed::Vote(1, "code-review", "bob", -2)),
            Found::Brings(7, Deed::Vote(1, "verified", "zuul", 1)),
            Found::Shows(7, COMMIT),
        ],
        "",
    ),
    (
        &[FIRST],
        &[
            Found::Brings(7, Deed::Vote(1, "verified", "zuul", 1)),
            Found::Brings(7, Deed::Abandon),
        ],
        ABANDON_TEXT,
    ),
    (
        &[FIRST, (7, Deed::Abandon)],
        &[Found::Brings(7, Deed::Abandon)],
        "",
    ),
    (&[MERGED], &[Found::Brings(7, Deed::Abandon)], ""),
    (
        &[FIRST, (7, Deed::Abandon)],
        &[Found::Brings(7, Deed::Restore)],
        "",
    ),
    (&[FIRST], &[Found::Brings(7, Deed::Merged)], ""),
];

#[test]
fn what_lowers_an_item_is_met_first(rt: HostRuntime) {
    for (number, case) in (1u64..).zip(ORDERS) {
        let (record, found, wanted) = *case;
        let met = met_of(rt.alloc(), record, found);
        let first = met.as_ref().map(|met| met.0.as_str());
        assert_found(&rt, (number, first), (number, Some(wanted)));
    }
}

/// Lines, one after the other.
fn text_of_lines(alloc: Global, lines: &[&str]) -> Option<String> {
    let mut text = String::new(alloc);
    for line in lines {
        text.push_str(line).ok()?;
    }
    Some(text)
}

const VOTE_TEXT: &str =
    "{\"change\":7,\"label\":\"l\",\"op\":\"vote\",\"set\":1,\"value\":1,\"voter\":\"ann\"}\n";

const GONE_TEXT: &str =
    "{\"change\":7,\"label\":\"l\",\"op\":\"withdraw\",\"set\":1,\"voter\":\"eve\"}\n";

const VETO_TEXT: &str =
    "{\"change\":7,\"label\":\"l\",\"op\":\"vote\",\"set\":1,\"value\":-2,\"voter\":\"bob\"}\n";

/// The numbers as a set.
fn set_of(alloc: Global, listed: &[u32]) -> Option<BTreeSet<u32>> {
    let mut numbers = BTreeSet::new(alloc);
    for number in listed {
        numbers.insert(*number).ok()?;
    }
    Some(numbers)
}

/// The abandons of what has vanished from an answer that lists these changes, a body a line.
fn vanished_from(alloc: Global, record: &[(u32, Deed)], listed: &[u32]) -> Option<String> {
    let state = state_of(alloc, record)?;
    let numbers = set_of(alloc, listed)?;
    let bodies = vanished(alloc, &state, &numbers).ok()?;
    text_of(alloc, bodies.as_slice())
}

const SEVERAL: &[(u32, Deed)] = &[
    (3, Deed::Merged),
    (4, Deed::Abandon),
    (5, Deed::PatchSet(1, "m", None)),
    (6, Deed::Vote(1, "l", "ann", 1)),
    FIRST,
];

#[test]
fn open_changes_that_are_not_listed_have_vanished(rt: HostRuntime) {
    for (listed, wanted) in [
        (
            [].as_slice(),
            "{\"change\":5,\"op\":\"abandon\"}\n{\"change\":6,\"op\":\"abandon\"}\n{\"change\":7,\"op\":\"abandon\"}\n",
        ),
        (
            [5u32, 7, 9].as_slice(),
            "{\"change\":6,\"op\":\"abandon\"}\n",
        ),
        ([5u32, 6, 7].as_slice(), ""),
    ] {
        let text = vanished_from(rt.alloc(), SEVERAL, listed);
        assert_found(&rt, text.as_deref(), Some(wanted));
    }
}

#[test]
fn laws_are_called() {
    nothing_is_above_both();
    what_a_row_says_is_what_the_record_says();
    what_comes_first_raises_nothing();
    what_is_met_is_what_the_record_says();
    what_is_nothing_new_brings_nothing();
}
