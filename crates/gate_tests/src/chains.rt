//! Items that are left out, and the lines that say why.

ghost use Rattle.gate_rules.specs.Spelling.{SpellsGate};

use super::asserts::assert_found;
use super::record::{Patch, is_text, takes_deed, takes_patch};
use deeds::Deed;
use gate_rules::Gate;
use ready_core::evaluate;
use state_core::{Item, State};
use std::alloc::Global;
use std::process::Abort;
use why_text::{conditions_text, item_asked, why_text};

/// A gate that wants two approvals on the current patch set of an open change.
const GATE: &str = r#"{"bases":["https://r/"],
"reject":{"gerrit":{"approval":{"Code-Review":[-2]},"status":"HELD"}},
"require":{"gerrit":{"status":["NEW","MERGED"],"open":true,"current-patchset":true,
"approval":[{"Workflow":1},{"username":"zuul","Verified":[1,2]}]}}}"#;

/// What comes to a review.
#[derive(Clone, Copy)]
enum Step {
    /// A patch set of this change with this number, whose message has a footer for each of these changes.
    PatchSet(u32, u32, &'static [u32]),
    /// A vote on a patch set of this change.
    Vote(u32, u32, &'static str, &'static str, i8),
    /// The two approvals that the gate wants on this patch set of this change.
    Both(u32, u32),
    Abandon(u32),
}

use Step::{Abandon, Both, PatchSet, Vote};

/// Takes the two approvals that the gate wants in, of which the last has this time.
fn takes_both(alloc: Global, state: &mut State, time: u64, change: u32, set: u32) -> bool {
    let before = time.saturating_sub(1);
    let workflow = Deed::Vote(set, "workflow", "ann", 1);
    let verified = Deed::Vote(set, "verified", "zuul", 2);
    takes_deed(alloc, state, before, change, workflow)
        && takes_deed(alloc, state, time, change, verified)
}

/// Takes a step in, whose last operation has this time.
fn takes_step(alloc: Global, state: &mut State, time: u64, step: Step) -> bool {
    match step {
        PatchSet(change, set, needs) => {
            let parent = None;
            let patch = Patch {
                change,
                set,
                needs,
                parent,
            };
            takes_patch(alloc, state, time, patch)
        }
        Vote(change, set, label, voter, value) => {
            let vote = Deed::Vote(set, label, voter, value);
            takes_deed(alloc, state, time, change, vote)
        }
        Both(change, set) => takes_both(alloc, state, time, change, set),
        Abandon(change) => takes_deed(alloc, state, time, change, Deed::Abandon),
    }
}

/// The state of steps, one after the other, where memory suffices for it.
fn state_of(alloc: Global, steps: &[Step]) -> Option<State> {
    let mut state = State::new(alloc);
    let mut time = 0u64;
    let mut are_taken = true;
    for step in steps {
        time = time.saturating_add(2);
        are_taken = takes_step(alloc, &mut state, time, *step) && are_taken;
    }
    if are_taken { Some(state) } else { None }
}

/// The item that is asked for: a change, and one of its patch sets or the current one.
type Asked = (u32, Option<u32>);

/// The lines of the item that is asked for in a state, where there is one and memory suffices for them.
fn lines_of(alloc: Global, file: &[u8], gate: &Gate, state: &State, asked: Asked) -> Option<String>
    requires { SpellsGate file.now gate.now }
{
    let item = item_asked(state, asked.0, asked.1)?;
    let verdicts = evaluate(alloc, state, gate).ok()?;
    why_text(alloc, file, gate, state, &verdicts, item).ok()
}

/// Whether the lines of the item that is asked for, after these steps, are this text under a gate file.
fn has_lines(
    alloc: Global,
    file: &[u8],
    steps: &[Step],
    asked: Asked,
    lines: &str,
) -> Option<bool> {
    let state = state_of(alloc, steps)?;
    let gate = Gate::read(alloc, file).ok()?;
    let found = lines_of(alloc, file, &gate, &state, asked);
    Some(is_text(found, lines))
}

/// Under the gate that wants two approvals the lines of the item that is asked for, after these steps, are this text.
fn assert_why(rt: &impl Abort, alloc: Global, steps: &[Step], asked: Asked, lines: &str) {
    assert_found(
        rt,
        has_lines(alloc, GATE.as_bytes(), steps, asked, lines),
        Some(true),
    );
}

/// Change 101 waits for 98, 98 for 97, whose current patch set lacks a vote of zuul; an older one had it.
const CHAIN: [Step; 9] = [
    PatchSet(101, 1, &[98]),
    Both(101, 1),
    PatchSet(98, 3, &[97]),
    Both(98, 3),
    PatchSet(97, 1, &[]),
    Both(97, 1),
    PatchSet(97, 2, &[]),
    Vote(97, 2, "workflow", "ann", 1),
    Vote(97, 2, "code-review", "bob", -1),
];

/// Why change 101 is left out.
const REASON: &str = r#"101,1 dependency 98
98,3 dependency 97
97,2 require approval 2
want {"Verified":[1,2],"username":"zuul"}
have code-review bob -1
have workflow ann 1
"#;

#[test]
fn a_chain_leads_to_what_is_asked(rt: HostRuntime) {
    assert_why(&rt, rt.alloc(), CHAIN.as_slice(), (101, Some(1)), REASON);
    assert_why(&rt, rt.alloc(), CHAIN.as_slice(), (101, None), REASON);
}

#[test]
fn an_older_patch_set_is_not_current(rt: HostRuntime) {
    let lines = "97,1 require current-patchset\nwant true\nhave 2\n";
    assert_why(&rt, rt.alloc(), CHAIN.as_slice(), (97, Some(1)), lines);
}

/// Change 1 is ready, 2 is abandoned, 3 is rejected by a vote, 4 waits for an unknown change, 5 for itself over 7 and
/// 6, and 8 for that cycle.
const RECORD: [Step; 18] = [
    PatchSet(1, 1, &[]),
    Both(1, 1),
    PatchSet(2, 1, &[]),
    Abandon(2),
    PatchSet(3, 1, &[]),
    Both(3, 1),
    Vote(3, 1, "code-review", "cat", -2),
    PatchSet(4, 1, &[9]),
    Both(4, 1),
    PatchSet(6, 1, &[5]),
    Both(6, 1),
    PatchSet(5, 1, &[]),
    PatchSet(5, 2, &[7]),
    Both(5, 2),
    PatchSet(7, 1, &[6, 1]),
    Both(7, 1),
    PatchSet(8, 1, &[7]),
    Both(8, 1),
];

/// Why change 3 is left out.
const REJECTED: &str = r#"3,1 reject approval 1
want {"Code-Review":[-2]}
have code-review cat -2
have verified zuul 2
have workflow ann 1
"#;

/// Each condition of the gate, as change 3 meets or breaks it.
const ALL: &str = r#"meets require open
want true
have NEW
meets require current-patchset
want true
have 1
meets require status
want ["NEW","MERGED"]
have NEW
meets require approval 1
want {"Workflow":1}
have code-review cat -2
have verified zuul 2
have workflow ann 1
meets require approval 2
want {"Verified":[1,2],"username":"zuul"}
have code-review cat -2
have verified zuul 2
have workflow ann 1
meets reject status
want "HELD"
have NEW
breaks reject approval 1
want {"Code-Review":[-2]}
have code-review cat -2
have verified zuul 2
have workflow ann 1
"#;

/// Whether these are the lines of all conditions of the gate for change 3, where memory suffices for them.
fn has_conditions(
    alloc: Global,
    file: &[u8],
    gate: &Gate,
    state: &State,
    lines: &str,
) -> Option<bool>
    requires { SpellsGate file.now gate.now }
{
    let item = item_asked(state, 3, None)?;
    let text = conditions_text(alloc, file, gate, state, item).ok()?;
    Some(text.as_str() == lines)
}

/// How many conditions the gate has for change 3, and how many of them it breaks.
fn counts(alloc: Global, gate: &Gate, state: &State) -> Option<(usize, usize)> {
    let item = item_asked(state, 3, None)?;
    let tried = gate.conditions(alloc, state, item).ok()?;
    let broken = tried.iter().filter(|tried| tried.is_broken).count();
    Some((tried.len(), broken))
}

/// Whether the lines of all conditions are as they are to be, and how many there are and how many are broken.
fn conditions(alloc: Global, file: &[u8]) -> Option<(Option<bool>, Option<(usize, usize)>)> {
    let gate = Gate::read(alloc, file).ok()?;
    let state = state_of(alloc, RECORD.as_slice())?;
    let lines = has_conditions(alloc, file, &gate, &state, ALL);
    Some((lines, counts(alloc, &gate, &state)))
}

#[test]
fn each_condition_is_met_or_broken(rt: HostRuntime) {
    assert_found(
        &rt,
        conditions(rt.alloc(), GATE.as_bytes()),
        Some((Some(true), Some((7, 1)))),
    );
}

#[test]
fn each_cause_has_its_lines(rt: HostRuntime) {
    let cases = [
        (1, "1,1 ready\n"),
        (2, "2,1 require open\nwant true\nhave ABANDONED\n"),
        (3, REJECTED),
        (4, "4,1 unknown 9\n"),
        (5, "5,2 cycle\nwith 6,1\nwith 7,1\n"),
        (7, "7,1 cycle\nwith 5,2\nwith 6,1\n"),
        (8, "8,1 dependency 7\n7,1 cycle\nwith 5,2\nwith 6,1\n"),
    ];
    for (change, lines) in cases {
        assert_why(&rt, rt.alloc(), RECORD.as_slice(), (change, None), lines);
    }
}

/// A gate that rejects some statuses.
const STATUS: &str = r#"{"reject":{"gerrit":{"status":["NEW","HELD"]}},"bases":["https://r/"]}"#;

#[test]
fn a_status_is_shown(rt: HostRuntime) {
    let lines = "1,1 reject status\nwant [\"NEW\",\"HELD\"]\nhave NEW\n";
    let found = has_lines(
        rt.alloc(),
        STATUS.as_bytes(),
        &[PatchSet(1, 1, &[])],
        (1, None),
        lines,
    );
    assert_found(&rt, found, Some(true));
}

/// Which item it is that is asked for in the chain, where memory suffices for that.
fn item_of(alloc: Global, asked: Asked) -> Option<Option<Item>> {
    let state = state_of(alloc, CHAIN.as_slice())?;
    Some(item_asked(&state, asked.0, asked.1))
}

#[test]
fn items_that_are_not_known(rt: HostRuntime) {
    let older = Item { change: 97, set: 1 };
    let cases = [
        ((1, None), None),
        ((97, Some(3)), None),
        ((97, Some(0)), None),
        ((0, Some(1)), None),
        ((97, Some(1)), Some(older)),
    ];
    for (asked, item) in cases {
        assert_found(&rt, item_of(rt.alloc(), asked), Some(item));
    }
}
