//! Patch sets whose commit messages are too long for a record.

use super::asserts::assert_found;
use deeds::{Deed, op_of};
use event_filter::{
    brought, what_is_kept_of_a_message_fits_a_body, what_is_kept_of_a_message_names_the_same,
};
use gerrit_events::{EventFault, EventKey, Finding, Known, Projects, read_event};
use review_ops::{Body, Op, Stamp};
use state_core::State;
use std::alloc::{AllocError, Global};

/// Adds a text so many times.
fn push_times(into: &mut String, text: &str, times: usize) -> Result<(), AllocError> {
    for _ in 0..times {
        into.push_str(text)?;
    }
    Ok(())
}

/// The event of the second patch set of change 7, whose message is this text so many times, as JSON has it, and then
/// another one.
fn event_of(alloc: Global, text: &str, times: usize, last: &str) -> Result<String, AllocError> {
    let mut line = String::from_str(
        alloc,
        r#"{"type":"patchset-created","patchSet":{"number":2},"change":{"number":7,"commitMessage":""#,
    )?;
    push_times(&mut line, text, times)?;
    line.push_str(last)?;
    line.push_str(r#""}}"#)?;
    Ok(line)
}

/// The record of the first patch set of change 7, which is approved.
fn approved(alloc: Global) -> Option<State> {
    let mut state = State::new(alloc);
    let first = op_of(alloc, 1, 7, Deed::PatchSet(1, "m", None))?;
    state.take(&first).ok()?;
    let vote = op_of(alloc, 2, 7, Deed::Vote(1, "workflow", "ann", 1))?;
    state.take(&vote).ok()?;
    Some(state)
}

/// Takes bodies in, one after the other.
fn take_bodies(state: &mut State, bodies: Vec<Body>) -> Option<()> {
    for (time, body) in (3u64..).zip(bodies) {
        let stamp = Stamp::new(time, 1, 1, time)?;
        state.consume(Op::new(stamp, body)).ok()?;
    }
    Some(())
}

/// What was found, with what it brings taken in, in a few letters: `m` is that of the message something is lost.
fn meet(alloc: Global, state: &mut State, finding: Finding) -> Option<char> {
    match finding {
        Finding::Refuses(EventFault::BadEvent(EventKey::CommitMessage)) => Some('m'),
        Finding::Refuses(_) => Some('!'),
        finding => {
            let bodies = brought(alloc, state, finding).ok()?;
            take_bodies(state, bodies)?;
            Some('.')
        }
    }
}

/// The same of all findings, in order.
fn meet_all(alloc: Global, state: &mut State, findings: Vec<Finding>) -> Option<String> {
    let mut met = String::new(alloc);
    for finding in findings {
        met.push(meet(alloc, state, finding)?).ok()?;
    }
    Some(met)
}

/// The current patch set of change 7, how many bytes of its message are kept, and whether it has votes.
type Current = (u32, usize, bool);

fn current(state: &State) -> Option<Current> {
    let change = state.change(7)?;
    let set = change.current()?;
    let mut votes = change.votes(set);
    let has_votes = votes.next().is_some();
    Some((set, change.message(set)?.len(), has_votes))
}

/// What was found in the line, and what change 7 is once it was met.
fn met_by(alloc: Global, line: &str) -> Option<(String, Current)> {
    let mut known = Known::new(alloc);
    let mut state = approved(alloc)?;
    let parsed = read_event(alloc, &mut known, &Projects::all(), line.as_bytes()).ok()?;
    let met = meet_all(alloc, &mut state, parsed.findings)?;
    Some((met, current(&state)?))
}

/// A footer of 62 bytes, with its line end as JSON has it.
const FOOTER: &str = r"Depends-On: https://review.example.org/c/group/project/+/10001\n";

/// A line that is no footer, of 60 bytes.
const OTHER: &str = r"Depends on what is said at https://review.example.org/10001.\n";

/// A text so many times and another one, and what is found and kept of a message that is these.
type Case = (&'static str, usize, &'static str, &'static str, Current);

/// Of 1,300 footers 1,040 are kept: with the next one they would have more than 65,536 bytes. A short footer that
/// would fit isn't kept behind one that doesn't. What has 65,536 bytes is kept whole.
const CASES: &[Case] = &[
    (FOOTER, 1300, "", ".m", (2, 1040 * 63, false)),
    (FOOTER, 1300, "Depends-On:1", ".m", (2, 1040 * 63, false)),
    (FOOTER, 1040, r"Depends-On:1234\ny", ".", (2, 65_536, false)),
    (
        FOOTER,
        1040,
        r"Depends-On:12345\ny",
        ".m",
        (2, 1040 * 63, false),
    ),
    (OTHER, 1300, FOOTER, ".", (2, 63, false)),
    ("y", 65_536, "", ".", (2, 65_536, false)),
    ("y", 65_537, "", ".", (2, 0, false)),
];

/// What is found and kept of a case.
fn met_in(alloc: Global, case: &Case) -> Option<(String, Current)> {
    let (text, times, last, _found, _kept) = *case;
    let line = event_of(alloc, text, times, last).ok()?;
    met_by(alloc, line.as_str())
}

/// Whether that is what it is to be.
fn is_met(alloc: Global, case: &Case) -> Option<bool> {
    let (_text, _times, _last, found, kept) = *case;
    let (met, current) = met_in(alloc, case)?;
    Some(met.as_str() == found && current == kept)
}

// A patch set whose message is too long is the current one all the same, and has no votes.
#[test]
fn a_long_message_hides_no_patch_set(rt: HostRuntime) {
    for (number, case) in (1u64..).zip(CASES) {
        let found = is_met(rt.alloc(), case);
        assert_found(&rt, (number, found), (number, Some(true)));
    }
}

/// What is met of a message that is a single footer of so many bytes.
fn met_footer(alloc: Global, bytes: usize) -> Option<(String, Current)> {
    let mut footer = String::from_str(alloc, "Depends-On:").ok()?;
    push_times(&mut footer, "9", bytes.saturating_sub(11)).ok()?;
    let line = event_of(alloc, footer.as_str(), 1, "").ok()?;
    met_by(alloc, line.as_str())
}

// Nothing is kept of a footer that doesn't fit.
#[test]
fn a_long_footer_hides_no_patch_set(rt: HostRuntime) {
    let found = met_footer(rt.alloc(), 70_000);
    let (met, kept) = found.expect(&rt, "memory");
    assert_found(&rt, (met.as_str(), kept), (".m", (2, 0, false)));
    what_is_kept_of_a_message_names_the_same();
    what_is_kept_of_a_message_fits_a_body();
}
