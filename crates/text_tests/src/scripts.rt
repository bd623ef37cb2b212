//! What the lines of scripts say, worked out by hand.

use super::asserts::assert_found;
use super::found::{MEMORY, assert_answer};
use gate_rules::Gate;
use script_text::{ScriptFault, Step, read_script};
use std::alloc::{AllocError, Global};
use std::process::Abort;
use world_core::Event;

/// A gate that wants open changes.
const GATE: &[u8] = br#"{"bases":["https://r/"],"require":{"gerrit":{"open":true}}}"#;

/// An event in words.
fn event_in_words(alloc: Global, event: &Event) -> Result<String, AllocError> {
    match event {
        Event::Intake { site, draft } => {
            let change = draft.change();
            format!(in alloc; "{site} takes in change {change}")
        }
        Event::Send { site, front } => {
            let rows = front.rows().len();
            format!(in alloc; "{site} packs what {rows} rows lack")
        }
        Event::Deliver { packet, site } => format!(in alloc; "packet {packet} comes to {site}"),
        Event::Save { site } => format!(in alloc; "{site} saves"),
        Event::Restart { site, start } => format!(in alloc; "{site} restarts as {start}"),
    }
}

/// A step in words.
fn in_words(alloc: Global, step: &Step<'_>) -> Result<String, AllocError> {
    match step {
        Step::Happens(event) => event_in_words(alloc, event),
        Step::SendTo { site, receiver } => format!(in alloc; "{site} packs what {receiver} lacks"),
        Step::State { site } => format!(in alloc; "the state of {site}"),
        Step::Front { site } => format!(in alloc; "the front of {site}"),
        Step::Ready { site, .. } => format!(in alloc; "the report of {site}"),
    }
}

/// The first of the steps in words, or that there is nothing.
fn first_in_words(alloc: Global, steps: &[Step<'_>]) -> Result<String, AllocError> {
    match steps.first() {
        Some(step) => in_words(alloc, step),
        None => String::from_str(alloc, "nothing"),
    }
}

/// A line behind `sites 1`.
fn behind_sites(alloc: Global, line: &str) -> Option<String> {
    let mut text = String::from_str(alloc, "sites 1\n").ok()?;
    text.push_str(line).ok()?;
    Some(text)
}

/// What the first step of a text says, in words.
fn first_said(alloc: Global, text: &[u8], gate: Option<&Gate>) -> Option<String> {
    let script = read_script(alloc, text, gate).ok()?;
    first_in_words(alloc, script.steps.as_slice()).ok()
}

/// What a line says behind `sites 1`, in words.
fn said(alloc: Global, line: &str, gate: Option<&Gate>) -> Option<String> {
    let text = behind_sites(alloc, line)?;
    first_said(alloc, text.as_bytes(), gate)
}

/// A line says this behind `sites 1`.
fn assert_said(rt: &impl Abort, alloc: Global, line: &str, gate: Option<&Gate>, words: &str) {
    assert_answer(rt, line, said(alloc, line, gate), words);
}

/// Lines, with the steps that they say.
const STEPS: &[(&str, &str)] = &[
    (
        "intake 65535 {\"change\":7,\"op\":\"merged\"}",
        "65535 takes in change 7",
    ),
    ("send 1 []", "1 packs what 0 rows lack"),
    ("send 1 [[1,1,5],[2,1,3]]", "1 packs what 2 rows lack"),
    ("send 2 @3", "2 packs what 3 lacks"),
    (
        "deliver 18446744073709551615 2",
        "packet 18446744073709551615 comes to 2",
    ),
    ("save 00000000000000000001", "1 saves"),
    ("restart 1 4294967295", "1 restarts as 4294967295"),
    ("state 2\r\n", "the state of 2"),
    ("\n# a comment\nfront 3\n", "the front of 3"),
];

#[test]
fn lines_say_their_steps(rt: HostRuntime) {
    for (line, words) in STEPS {
        assert_said(&rt, rt.alloc(), line, None, words);
    }
}

/// Lines that say no step.
const OTHERS: &[&str] = &[
    "sites 1",
    "state",
    "state  1",
    "state 1 ",
    "state +1",
    "state 65536",
    "state 000000000000000000001",
    "intake 1 {\"change\":7}",
    "send 1 @",
    "deliver 18446744073709551616 1",
    "restart 1 4294967296",
    "State 1",
];

#[test]
fn other_lines_say_nothing(rt: HostRuntime) {
    for line in OTHERS {
        assert_said(&rt, rt.alloc(), line, None, "nothing");
    }
}

#[test]
fn reports_are_asked_for_under_a_gate(rt: HostRuntime) {
    let gate = Gate::read(rt.alloc(), GATE).ok().expect(&rt, MEMORY);
    assert_said(&rt, rt.alloc(), "ready 1", Some(&gate), "the report of 1");
    assert_said(&rt, rt.alloc(), "ready 1", None, "nothing");
}

/// The sites of a script, how many steps it has, and its bad line.
fn counts(alloc: Global, text: &[u8]) -> Option<(u16, usize, Option<u64>)> {
    let script = read_script(alloc, text, None).ok()?;
    Some((script.sites, script.steps.len(), script.bad_line))
}

#[test]
fn a_bad_line_ends_a_script(rt: HostRuntime) {
    let text = b"# two\nsites 2\n\nstate 1\nstate\nstate 2\n".as_slice();
    assert_found(&rt, counts(rt.alloc(), text), Some((2, 1, Some(5))));
}

/// The refusal of a script.
fn refusal_of(alloc: Global, text: &str) -> Option<ScriptFault> {
    read_script(alloc, text.as_bytes(), None).err()
}

#[test]
fn a_script_begins_with_its_sites(rt: HostRuntime) {
    for text in [
        "",
        "# none\n",
        "sites 0\n",
        "sites 65\n",
        "state 1\nsites 1\n",
    ] {
        let refusal = refusal_of(rt.alloc(), text);
        assert_found(&rt, (text, refusal), (text, Some(ScriptFault::BadSites)));
    }
}
