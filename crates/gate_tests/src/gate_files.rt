//! Gate files and their faults, and own conditions, worked out by hand.

use super::asserts::assert_found;
use super::record::takes_deed;
use deeds::Deed;
use gate_rules::{Clause, Condition, Gate, GateFault, Side, the_first_fault_is_found};
use state_core::{Item, State};
use std::alloc::Global;
use std::process::Abort;

/// The words of a fault, where memory suffices for them.
fn words_of(alloc: Global, fault: &GateFault) -> Option<String> {
    let mut words = String::new(alloc);
    fault.write_words(&mut words).ok()?;
    Some(words)
}

/// A number of one digit, as it is written.
fn digit(number: u8) -> &'static str {
    match number {
        1 => "1",
        2 => "2",
        3 => "3",
        4 => "4",
        _ => "another number",
    }
}

/// Whether a fault is said so, as reports print it: its number, a blank, and its words, which begin with its name.
fn is_said(alloc: Global, fault: &GateFault, wanted: &str) -> bool {
    let number = digit(fault.number());
    match words_of(alloc, fault) {
        Some(words) => {
            let words = words.as_str();
            words.starts_with(fault.name()) && wanted.split_once(' ') == Some((number, words))
        }
        None => false,
    }
}

/// Whether reading a gate gives this answer: `read`, or the fault.
fn is_answer(alloc: Global, text: &[u8], wanted: &str) -> bool {
    match Gate::read(alloc, text) {
        Ok(_) => wanted == "read",
        Err(fault) => is_said(alloc, &fault, wanted),
    }
}

/// How many of these texts, from the first on, are read.
fn read(alloc: Global, texts: &[&str]) -> usize {
    let mut count = 0usize;
    for text in texts {
        if !is_answer(alloc, text.as_bytes(), "read") {
            return count;
        }
        count = count.saturating_add(1);
    }
    count
}

/// How many of these texts, from the first on, are given the answer beside them.
fn answered(alloc: Global, rows: &[(&str, &str)]) -> usize {
    let mut count = 0usize;
    for (text, wanted) in rows {
        if !is_answer(alloc, text.as_bytes(), wanted) {
            return count;
        }
        count = count.saturating_add(1);
    }
    count
}

/// Reading each of these texts gives the answer beside it.
fn assert_answers(rt: &impl Abort, alloc: Global, rows: &[(&str, &str)]) {
    assert_found(rt, answered(alloc, rows), rows.len());
}

/// Gates of the worked examples, and those at the limits of what is accepted.
const GOOD_GATES: &[&str] = &[
    TWO_APPROVALS,
    r#"{"allow-circular-dependencies":true,"bases":["https://review.example.org/"],"reject":{"gerrit":{"approval":[{"Code-Review":-2}]}},"require":{"gerrit":{"open":true,"current-patchset":true,"approval":[{"Workflow":1},{"Verified":[1,2],"username":"zuul"}]}}}"#,
    r#"{"bases":["https://r/"]}"#,
    r#"{"bases":["https://r/"],"require":{"gerrit":{"approval":{},"status":["MERGED","NEW"]}}}"#,
    r#"{"bases":["https://r/"],"reject":{"gerrit":{"open":false}}}"#,
    r#"{"bases":["https://r/"],"require":{},"reject":{}}"#,
    r#"{"bases":["https://r/"],"connection":"a b","require":{"a b":{}}}"#,
    r#"{"bases":["https://r/"],"require":{"gerrit":{"status":"NEW"}}}"#,
    r#"{"bases":["https://r/"],"require":{"gerrit":{"status":[]}}}"#,
    r#"{"bases":["https://r/"],"require":{"gerrit":{"status":["x"]}}}"#,
    r#"{"bases":["https://r/"],"require":{"gerrit":{"approval":[]}}}"#,
    r#"{"bases":["https://r/"],"require":{"gerrit":{"approval":{}}}}"#,
    r#"{"bases":["https://r/"],"require":{"gerrit":{"approval":{"Verified":[]}}}}"#,
    r#"{"bases":["https://r/"],"require":{"gerrit":{"approval":{"Verified":-128,"verified":127}}}}"#,
    r#"{"bases":["https://r/"],"require":{"gerrit":{"approval":{"aaaaaaaaaaaaaaaaaaaaaaaaaaaaaaaaaaaaaaaaaaaaaaaaaaaaaaaaaaaaaaaa":0}}}}"#,
    r#"{"bases":["https://r/"],"require":{"gerrit":{"approval":{"Email":1}}}}"#,
    r#"{"bases":["https://r0/","https://r1/","https://r2/","https://r3/","https://r4/","https://r5/","https://r6/","https://r7/"]}"#,
];

#[test]
fn good_gates(rt: HostRuntime) {
    assert_found(&rt, read(rt.alloc(), GOOD_GATES), GOOD_GATES.len());
}

// Each faulty gate names the first fault of the walk.

/// Texts that are no gate, and worked examples with a fault.
const FAULTY_TEXTS: &[(&str, &str)] = &[
    (r#"{}"#, "3 BadValue bases"),
    (r#"["#, "1 NotJson 1 2"),
    (r#""#, "1 NotJson 1 1"),
    (r#"[]"#, "1 NotJson 1 1"),
    (r#""a""#, "1 NotJson 1 1"),
    (r#"{"bases":["https://r/"]} x"#, "1 NotJson 1 26"),
    (
        r#"{"bases":["https://review.example.org"]}"#,
        "3 BadValue bases 1 NoSlash",
    ),
    (
        r#"{"allow-circular-dependencies":false,"bases":["https://review.example.org/"],"reject":{"gerrit":{"approval":[{"Code-Review":-2}]}},"require":{"gerrit":{"open":true,"current-patchset":true,"approval":[{"Workflow":1,"older-than":"1d"},{"Verified":[1,2],"username":"zuul"}]}}}"#,
        "4 Unsupported older-than",
    ),
    (
        r#"{"allow-circular-dependencies":false,"bases":["https://review.example.org/"],"reject":{"gerrit":{"approval":[{"Code-Review":-2}]}},"require":{"gerrit":{"open":true,"current-patchset":true,"approval":[{"Workflow":1},{"Verified":[1,2],"username":"zuul"}]}},"trigger":{}}"#,
        "2 UnknownKey trigger",
    ),
];

#[test]
fn faulty_texts(rt: HostRuntime) {
    assert_answers(&rt, rt.alloc(), FAULTY_TEXTS);
}

/// Faulty bases, connections and words on cycles.
const FAULTY_SETTINGS: &[(&str, &str)] = &[
    (r#"{"bases":[]}"#, "3 BadValue bases"),
    (r#"{"bases":"https://r/"}"#, "3 BadValue bases"),
    (r#"{"bases":[1]}"#, "3 BadValue bases 1 NotText"),
    (
        r#"{"bases":["https://r/",null]}"#,
        "3 BadValue bases 2 NotText",
    ),
    (r#"{"bases":["https://r/",""]}"#, "3 BadValue bases 2 Empty"),
    (
        r#"{"bases":["/","https://r /"]}"#,
        "3 BadValue bases 2 BadByte",
    ),
    (
        r#"{"bases":["/","/","https://é/",7]}"#,
        "3 BadValue bases 3 BadByte",
    ),
    (r#"{"bases":["/","r"],"aa":1}"#, "2 UnknownKey aa"),
    (
        r#"{"bases":["r"],"connection":"bases","require":{"bases":1}}"#,
        "3 BadValue bases 1 NoSlash",
    ),
    (
        r#"{"bases":["/"],"connection":"bases","require":{"bases":1}}"#,
        "3 BadValue bases",
    ),
    (
        r#"{"bases":["https://r0/","https://r1/","https://r2/","https://r3/","https://r4/","https://r5/","https://r6/","https://r7/","https://r8/"]}"#,
        "3 BadValue bases 9 TooMany",
    ),
    (
        r#"{"bases":["https://r/"],"connection":1}"#,
        "3 BadValue connection",
    ),
    (
        r#"{"bases":["https://r/"],"connection":null}"#,
        "3 BadValue connection",
    ),
    (
        r#"{"bases":["https://r/"],"allow-circular-dependencies":"true"}"#,
        "3 BadValue allow-circular-dependencies",
    ),
    (
        r#"{"allow-circular-dependencies":0}"#,
        "3 BadValue allow-circular-dependencies",
    ),
];

#[test]
fn faulty_settings(rt: HostRuntime) {
    assert_answers(&rt, rt.alloc(), FAULTY_SETTINGS);
}

/// Faults of what is required or rejected, and unknown keys.
const FAULTY_SIDES: &[(&str, &str)] = &[
    (
        r#"{"bases":["https://r/"],"require":[]}"#,
        "3 BadValue require",
    ),
    (
        r#"{"bases":["https://r/"],"reject":true}"#,
        "3 BadValue reject",
    ),
    (
        r#"{"bases":["https://r/"],"require":{"github":{}}}"#,
        "4 Unsupported github",
    ),
    (
        r#"{"bases":["https://r/"],"connection":"g","require":{"gerrit":{}}}"#,
        "4 Unsupported gerrit",
    ),
    (
        r#"{"bases":["https://r/"],"require":{"gerrit":1}}"#,
        "3 BadValue gerrit",
    ),
    (
        r#"{"bases":["https://r/"],"require":{"gerrit":null,"a":{}}}"#,
        "4 Unsupported a",
    ),
    (r#"{"Bases":["https://r/"]}"#, "2 UnknownKey Bases"),
    (r#"{"":1}"#, "2 UnknownKey "),
];

#[test]
fn faulty_sides(rt: HostRuntime) {
    assert_answers(&rt, rt.alloc(), FAULTY_SIDES);
}

/// Faulty clauses other than approvals.
const FAULTY_CLAUSES: &[(&str, &str)] = &[
    (
        r#"{"bases":["https://r/"],"require":{"gerrit":{"open":1}}}"#,
        "3 BadValue open",
    ),
    (
        r#"{"bases":["https://r/"],"reject":{"gerrit":{"open":null}}}"#,
        "3 BadValue open",
    ),
    (
        r#"{"bases":["https://r/"],"require":{"gerrit":{"current-patchset":"yes"}}}"#,
        "3 BadValue current-patchset",
    ),
    (
        r#"{"bases":["https://r/"],"require":{"gerrit":{"status":1}}}"#,
        "3 BadValue status",
    ),
    (
        r#"{"bases":["https://r/"],"require":{"gerrit":{"status":["NEW",1]}}}"#,
        "3 BadValue status",
    ),
    (
        r#"{"bases":["https://r/"],"require":{"gerrit":{"status":[["NEW"]]}}}"#,
        "3 BadValue status",
    ),
    (
        r#"{"bases":["https://r/"],"require":{"gerrit":{"status":{}}}}"#,
        "3 BadValue status",
    ),
    (
        r#"{"bases":["https://r/"],"require":{"gerrit":{"wip":true}}}"#,
        "4 Unsupported wip",
    ),
    (
        r#"{"bases":["https://r/"],"require":{"gerrit":{"hashtags":[]}}}"#,
        "4 Unsupported hashtags",
    ),
    (
        r#"{"bases":["https://r/"],"require":{"gerrit":{"Open":true}}}"#,
        "2 UnknownKey Open",
    ),
    (
        r#"{"bases":["https://r/"],"require":{"gerrit":{"username":"a"}}}"#,
        "2 UnknownKey username",
    ),
];

#[test]
fn faulty_clauses(rt: HostRuntime) {
    assert_answers(&rt, rt.alloc(), FAULTY_CLAUSES);
}

/// Faulty approvals.
const FAULTY_APPROVALS: &[(&str, &str)] = &[
    (
        r#"{"bases":["https://r/"],"require":{"gerrit":{"approval":1}}}"#,
        "3 BadValue approval",
    ),
    (
        r#"{"bases":["https://r/"],"require":{"gerrit":{"approval":"x"}}}"#,
        "3 BadValue approval",
    ),
    (
        r#"{"bases":["https://r/"],"require":{"gerrit":{"approval":[1]}}}"#,
        "3 BadValue approval",
    ),
    (
        r#"{"bases":["https://r/"],"require":{"gerrit":{"approval":[[{}]]}}}"#,
        "3 BadValue approval",
    ),
    (
        r#"{"bases":["https://r/"],"require":{"gerrit":{"approval":[{},{"email":"x"}]}}}"#,
        "4 Unsupported email",
    ),
    (
        r#"{"bases":["https://r/"],"require":{"gerrit":{"approval":{"newer-than":1}}}}"#,
        "4 Unsupported newer-than",
    ),
    (
        r#"{"bases":["https://r/"],"require":{"gerrit":{"approval":{"username":1}}}}"#,
        "3 BadValue username",
    ),
    (
        r#"{"bases":["https://r/"],"require":{"gerrit":{"approval":{"username":["a"]}}}}"#,
        "3 BadValue username",
    ),
];

#[test]
fn faulty_approvals(rt: HostRuntime) {
    assert_answers(&rt, rt.alloc(), FAULTY_APPROVALS);
}

/// Faulty labels and votes in approvals.
const FAULTY_VOTES: &[(&str, &str)] = &[
    (
        r#"{"bases":["https://r/"],"require":{"gerrit":{"approval":{"Verified":"1"}}}}"#,
        "3 BadValue Verified",
    ),
    (
        r#"{"bases":["https://r/"],"require":{"gerrit":{"approval":{"Verified":128}}}}"#,
        "3 BadValue Verified",
    ),
    (
        r#"{"bases":["https://r/"],"require":{"gerrit":{"approval":{"Verified":-129}}}}"#,
        "3 BadValue Verified",
    ),
    (
        r#"{"bases":["https://r/"],"require":{"gerrit":{"approval":{"Verified":1.0}}}}"#,
        "3 BadValue Verified",
    ),
    (
        r#"{"bases":["https://r/"],"require":{"gerrit":{"approval":{"Verified":[1,true]}}}}"#,
        "3 BadValue Verified",
    ),
    (
        r#"{"bases":["https://r/"],"require":{"gerrit":{"approval":{"Verified":[[1]]}}}}"#,
        "3 BadValue Verified",
    ),
    (
        r#"{"bases":["https://r/"],"require":{"gerrit":{"approval":{"Verified":null}}}}"#,
        "3 BadValue Verified",
    ),
    (
        r#"{"bases":["https://r/"],"require":{"gerrit":{"approval":{"a_b":1}}}}"#,
        "2 UnknownKey a_b",
    ),
    (
        r#"{"bases":["https://r/"],"require":{"gerrit":{"approval":{"":1}}}}"#,
        "2 UnknownKey ",
    ),
    (
        r#"{"bases":["https://r/"],"require":{"gerrit":{"approval":{"aaaaaaaaaaaaaaaaaaaaaaaaaaaaaaaaaaaaaaaaaaaaaaaaaaaaaaaaaaaaaaaaa":1}}}}"#,
        "2 UnknownKey aaaaaaaaaaaaaaaaaaaaaaaaaaaaaaaaaaaaaaaaaaaaaaaaaaaaaaaaaaaaaaaaa",
    ),
];

#[test]
fn faulty_votes(rt: HostRuntime) {
    assert_answers(&rt, rt.alloc(), FAULTY_VOTES);
}

/// A gate with one base of `count` letters and what ends it, where memory suffices for it.
fn gate_of_base(alloc: Global, count: usize, last: &str) -> Option<String> {
    let letters = "r".repeat(alloc, count).ok()?;
    format!(in alloc; "{{\"bases\":[\"{letters}{last}\"]}}").ok()
}

/// Whether reading such a gate gives this answer, where memory suffices for the gate.
fn is_base_answer(alloc: Global, count: usize, last: &str, wanted: &str) -> Option<bool> {
    let text = gate_of_base(alloc, count, last)?;
    Some(is_answer(alloc, text.as_bytes(), wanted))
}

#[test]
fn a_base_has_256_bytes_at_most(rt: HostRuntime) {
    for (count, last, wanted) in [
        (255, "/", "read"),
        (256, "/", "3 BadValue bases 1 TooLong"),
        (256, "", "3 BadValue bases 1 NoSlash"),
    ] {
        let found = is_base_answer(rt.alloc(), count, last, wanted);
        assert_found(&rt, found, Some(true));
    }
}

/// Gates with several faults: the first one of the walk is named.
const FIRST_FAULTS: &[(&str, &str)] = &[
    (
        r#"{"bases":[],"zeta":1,"connection":2}"#,
        "3 BadValue bases",
    ),
    (r#"{"zeta":1,"connection":2}"#, "3 BadValue connection"),
    (r#"{"zeta":1}"#, "2 UnknownKey zeta"),
    (
        r#"{"bases":["https://r/"],"require":{"gerrit":{"open":1}},"reject":{"gerrit":{"wip":1}}}"#,
        "4 Unsupported wip",
    ),
    (
        r#"{"bases":["https://r/"],"require":{"gerrit":{"approval":[{"b":true,"a":"x"},5]}}}"#,
        "3 BadValue a",
    ),
    (
        r#"{"bases":["https://r/"],"require":{"gerrit":{"status":5,"approval":[{"email":1}]}}}"#,
        "4 Unsupported email",
    ),
    (r#"{"require":{"gerrit":{"open":1}}}"#, "3 BadValue open"),
    (
        r#"{"require":{"gerrit":{"open":true}}}"#,
        "3 BadValue bases",
    ),
];

#[test]
fn first_faults(rt: HostRuntime) {
    assert_answers(&rt, rt.alloc(), FIRST_FAULTS);
}

#[test]
fn faults_have_a_law(rt: HostRuntime) {
    let _alloc = rt.alloc();
    the_first_fault_is_found();
}

// Bytes that are no text.
#[test]
fn a_gate_that_is_no_text(rt: HostRuntime) {
    let one = is_answer(rt.alloc(), &[123, 255, 125], "1 NotJson 1 2");
    let other = is_answer(rt.alloc(), &[123, 10, 10, 195, 168, 195], "1 NotJson 3 3");
    assert_found(&rt, one && other, true);
}

/// Texts that stop being JSON, or are no object, and the line and the column where that shows.
const BROKEN_TEXTS: &[(&str, &str)] = &[
    (" \n\n", "1 NotJson 3 1"),
    ("\n [1]", "1 NotJson 2 2"),
    ("\u{feff}{}", "1 NotJson 1 1"),
    // A comma is missing, between two lines and in one.
    (
        "{\n  \"bases\": [\"https://r/\"],\n  \"connection\": \"g\"\n  \"reject\": {}\n}\n",
        "1 NotJson 4 3",
    ),
    (
        "{\n\"bases\":[\"https://r/\"],\n\"reject\":{} \"require\":{}}\n",
        "1 NotJson 3 13",
    ),
    ("{\"bases\":[\"https://r/\"],}", "1 NotJson 1 25"),
    // A control character in a string, and a string without an end.
    ("{\"bases\":[\"a\tb\"]}", "1 NotJson 1 11"),
    ("{\"bases\":[\"a", "1 NotJson 1 13"),
    ("{\n\"bases\":tru}", "1 NotJson 2 9"),
];

#[test]
fn a_gate_that_is_no_json_is_placed(rt: HostRuntime) {
    assert_answers(&rt, rt.alloc(), BROKEN_TEXTS);
}

/// Whether a gate allows cycles, and whether it has the base of the examples.
fn settings(gate: &Gate) -> (bool, bool) {
    let has_base = gate.bases().get(0) == Some("https://review.example.org/");
    (gate.cycles(), has_base)
}

/// The settings of a gate, and those of a copy of it, where memory suffices for both.
fn settings_twice(alloc: Global) -> Option<((bool, bool), (bool, bool))> {
    let gate = Gate::read(alloc, CYCLES_GATE.as_bytes()).ok()?;
    let copy = gate.copy().ok()?;
    Some((settings(&gate), settings(&copy)))
}

// A copy has the settings of the gate.
#[test]
fn copies(rt: HostRuntime) {
    let wanted = ((true, true), (true, true));
    assert_found(&rt, settings_twice(rt.alloc()), Some(wanted));
}

/// The gate of the first worked examples.
const TWO_APPROVALS: &str =
    r#"{"allow-circular-dependencies":false,"bases":["https://review.example.org/"],"reject":{"gerrit":{"approval":[{"Code-Review":-2}]}},"require":{"gerrit":{"open":true,"current-patchset":true,"approval":[{"Workflow":1},{"Verified":[1,2],"username":"zuul"}]}}}"#;

/// The same gate, but that it lets items on a cycle in.
const CYCLES_GATE: &str =
    r#"{"allow-circular-dependencies":true,"bases":["https://review.example.org/"],"reject":{"gerrit":{"approval":[{"Code-Review":-2}]}},"require":{"gerrit":{"open":true,"current-patchset":true,"approval":[{"Workflow":1},{"Verified":[1,2],"username":"zuul"}]}}}"#;

/// A gate that wants any approval and a status.
const ANY_APPROVAL: &str =
    r#"{"bases":["https://r/"],"require":{"gerrit":{"approval":{},"status":["MERGED","NEW"]}}}"#;

/// A gate that rejects closed changes.
const NOT_CLOSED: &str = r#"{"bases":["https://r/"],"reject":{"gerrit":{"open":false}}}"#;

/// A gate that rejects what is current, and what is new.
const NOT_NEW: &str =
    r#"{"bases":["https://r/"],"reject":{"gerrit":{"status":"NEW","current-patchset":true}}}"#;

/// A gate that rejects by five patterns, of which the first four match nothing that bob votes on `a`.
const NOT_BY_BOB: &str =
    r#"{"bases":["https://r/"],"reject":{"gerrit":{"approval":[{"a":1,"A":1},{"b":0},{"a":[]},{"username":"Bob"},{"username":"bob"}]}}}"#;

/// The own condition of a patch set, if any; none at all where there is no such item.
type Answer = Option<Option<Condition>>;

const NO_ITEM: Answer = None;

const NONE: Answer = Some(None);

const REQUIRE_SET: Answer = Some(Some(Condition {
    side: Side::Require,
    clause: Clause::CurrentSet,
}));

const REQUIRE_STATUS: Answer = Some(Some(Condition {
    side: Side::Require,
    clause: Clause::StatusIn,
}));

const REQUIRE_APPROVAL_1: Answer = Some(Some(Condition {
    side: Side::Require,
    clause: Clause::Approval(1),
}));

const REQUIRE_APPROVAL_2: Answer = Some(Some(Condition {
    side: Side::Require,
    clause: Clause::Approval(2),
}));

const REJECT_OPEN: Answer = Some(Some(Condition {
    side: Side::Reject,
    clause: Clause::OpenState,
}));

const REJECT_SET: Answer = Some(Some(Condition {
    side: Side::Reject,
    clause: Clause::CurrentSet,
}));

const REJECT_STATUS: Answer = Some(Some(Condition {
    side: Side::Reject,
    clause: Clause::StatusIn,
}));

const REJECT_APPROVAL_1: Answer = Some(Some(Condition {
    side: Side::Reject,
    clause: Clause::Approval(1),
}));

const REJECT_APPROVAL_5: Answer = Some(Some(Condition {
    side: Side::Reject,
    clause: Clause::Approval(5),
}));

/// What comes to a record of change 101: an operation at a time, or a look at an own condition.
#[derive(Clone, Copy)]
enum Step {
    /// At this time a patch set with this number.
    PatchSet(u64, u32),
    /// At this time a vote on the first patch set, by label, voter and value.
    Vote(u64, &'static str, &'static str, i8),
    Abandon(u64),
    Merged(u64),
    /// Under this gate the patch set with this number has this own condition.
    Own(&'static str, u32, Answer),
}

use Step::{Abandon, Merged, Own, PatchSet, Vote};

/// The own condition of a patch set under the gate.
fn own(gate: &Gate, state: &State, set: u32) -> Answer {
    let Some(change) = state.change(101) else {
        return None;
    };
    if !change.has_set(set) {
        return None;
    }
    let item = Item { change: 101, set };
    Some(gate.own(state, item))
}

/// The own condition of a patch set under the gate that a text spells, where memory suffices for the gate.
fn own_under(alloc: Global, text: &str, state: &State, set: u32) -> Option<Answer> {
    let gate = Gate::read(alloc, text.as_bytes()).ok()?;
    Some(own(&gate, state, set))
}

/// Plays one step: whether it comes to pass.
fn plays_step(alloc: Global, state: &mut State, step: Step) -> bool {
    match step {
        PatchSet(time, set) => {
            takes_deed(alloc, state, time, 101, Deed::PatchSet(set, "m\n", None))
        }
        Vote(time, label, voter, value) => {
            takes_deed(alloc, state, time, 101, Deed::Vote(1, label, voter, value))
        }
        Abandon(time) => takes_deed(alloc, state, time, 101, Deed::Abandon),
        Merged(time) => takes_deed(alloc, state, time, 101, Deed::Merged),
        Own(gate, set, wanted) => own_under(alloc, gate, state, set) == Some(wanted),
    }
}

/// Plays the steps, one after the other, in a new record: how many, from the first on, come to pass.
fn played(alloc: Global, steps: &[Step]) -> usize {
    let mut state = State::new(alloc);
    let mut count = 0usize;
    for step in steps {
        if !plays_step(alloc, &mut state, *step) {
            return count;
        }
        count = count.saturating_add(1);
    }
    count
}

/// The steps come to pass, one after the other, in a new record.
fn play(rt: &impl Abort, alloc: Global, steps: &[Step]) {
    assert_found(rt, played(alloc, steps), steps.len());
}

// Two approvals make an item ready; one of them by another voter doesn't, nor do they once another patch set is
// current.
const BOTH_APPROVALS: &[Step] = &[
    PatchSet(1, 1),
    Vote(2, "Workflow", "ann", 1),
    Own(TWO_APPROVALS, 1, REQUIRE_APPROVAL_2),
    Vote(3, "Verified", "ann", 1),
    Own(TWO_APPROVALS, 1, REQUIRE_APPROVAL_2),
    Vote(4, "Verified", "zuul", 1),
    Own(TWO_APPROVALS, 1, NONE),
    PatchSet(5, 2),
    Own(TWO_APPROVALS, 1, REQUIRE_SET),
    Own(TWO_APPROVALS, 2, REQUIRE_APPROVAL_1),
    Own(TWO_APPROVALS, 3, NO_ITEM),
];

#[test]
fn both_approvals_on_the_current_patch_set(rt: HostRuntime) {
    play(&rt, rt.alloc(), BOTH_APPROVALS);
}

// A rejected score leaves an item out, whoever else votes.
const A_REJECTED_SCORE: &[Step] = &[
    PatchSet(1, 1),
    Vote(2, "Workflow", "ann", 1),
    Vote(3, "Verified", "zuul", 1),
    Vote(4, "Code-Review", "bob", -2),
    Vote(5, "Code-Review", "ann", 2),
    Own(TWO_APPROVALS, 1, REJECT_APPROVAL_1),
];

#[test]
fn a_rejected_score(rt: HostRuntime) {
    play(&rt, rt.alloc(), A_REJECTED_SCORE);
}

// A vote of 0 takes an approval back.
const A_VOTE_OF_0: &[Step] = &[
    PatchSet(1, 1),
    Vote(5, "Workflow", "ann", 1),
    Own(TWO_APPROVALS, 1, REQUIRE_APPROVAL_2),
    Own(ANY_APPROVAL, 1, NONE),
    Vote(6, "Workflow", "ann", 0),
    Own(TWO_APPROVALS, 1, REQUIRE_APPROVAL_1),
    Own(ANY_APPROVAL, 1, REQUIRE_APPROVAL_1),
];

#[test]
fn a_vote_of_0(rt: HostRuntime) {
    play(&rt, rt.alloc(), A_VOTE_OF_0);
}

// The empty approval takes any score; a status counts before it, and so does what is required before what is rejected.
const ANY_SCORE_AND_A_STATUS: &[Step] = &[
    PatchSet(1, 1),
    Own(ANY_APPROVAL, 1, REQUIRE_APPROVAL_1),
    Vote(2, "x", "bob", -1),
    Own(ANY_APPROVAL, 1, NONE),
    Own(NOT_CLOSED, 1, NONE),
    Abandon(3),
    Own(ANY_APPROVAL, 1, REQUIRE_STATUS),
    Own(NOT_CLOSED, 1, REJECT_OPEN),
];

#[test]
fn any_score_and_a_status(rt: HostRuntime) {
    play(&rt, rt.alloc(), ANY_SCORE_AND_A_STATUS);
}

// The current patch set counts before the status, and votes on another one don't count.
const WHAT_IS_REJECTED_IN_ITS_ORDER: &[Step] = &[
    PatchSet(1, 1),
    Own(NOT_NEW, 1, REJECT_SET),
    PatchSet(4, 2),
    Own(NOT_NEW, 1, REJECT_STATUS),
    Merged(5),
    Own(NOT_NEW, 1, NONE),
    Own(NOT_NEW, 2, REJECT_SET),
];

#[test]
fn what_is_rejected_in_its_order(rt: HostRuntime) {
    play(&rt, rt.alloc(), WHAT_IS_REJECTED_IN_ITS_ORDER);
}

// Two label keys, a value of 0, an empty list and another spelling of the voter match nothing.
const PATTERNS_THAT_MATCH_NOTHING: &[Step] = &[
    PatchSet(1, 1),
    Vote(2, "a", "bob", 1),
    Own(NOT_BY_BOB, 1, REJECT_APPROVAL_5),
    PatchSet(3, 2),
    Own(NOT_BY_BOB, 1, NONE),
];

#[test]
fn patterns_that_match_nothing(rt: HostRuntime) {
    play(&rt, rt.alloc(), PATTERNS_THAT_MATCH_NOTHING);
}
