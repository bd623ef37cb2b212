//! Pictures of small records, drawn by hand.

use super::asserts::assert_found;
use super::record::{Patch, is_text, takes_deed, takes_patch};
use deeds::Deed;
use gate_rules::Gate;
use graph_text::graph_text;
use state_core::State;
use std::alloc::Global;
use std::process::Abort;

/// A gate that wants open changes and no vote of -2.
const GATE: &str =
    r#"{"bases":["https://r/"],"require":{"gerrit":{"open":true,"current-patchset":true}},
"reject":{"gerrit":{"approval":{"Code-Review":-2}}}}"#;

/// What comes to a review.
#[derive(Clone, Copy)]
enum Step {
    /// A patch set of this change with this number, whose message has a footer for each of these changes.
    PatchSet(u32, u32, &'static [u32]),
    /// A vote of -2 on a patch set of this change.
    Rejected(u32, u32),
    Merged(u32),
}

use Step::{Merged, PatchSet, Rejected};

/// Takes a step in with this time. The voter's name has a quote and a backslash.
fn takes_step(alloc: Global, state: &mut State, time: u64, step: Step) -> bool {
    match step {
        PatchSet(change, set, needs) => {
            let parent = None;
            let patch = Patch {
                change,
                set,
                needs,
                parent,
            };
            takes_patch(alloc, state, time, patch)
        }
        Rejected(change, set) => {
            let vote = Deed::Vote(set, "code-review", "a\"b\\", -2);
            takes_deed(alloc, state, time, change, vote)
        }
        Merged(change) => takes_deed(alloc, state, time, change, Deed::Merged),
    }
}

/// The state of steps, one after the other, where memory suffices for it.
fn state_of(alloc: Global, steps: &[Step]) -> Option<State> {
    let mut state = State::new(alloc);
    let mut are_taken = true;
    for (time, step) in (1u64..).zip(steps) {
        are_taken = takes_step(alloc, &mut state, time, *step) && are_taken;
    }
    if are_taken { Some(state) } else { None }
}

/// The picture of a state around a change, where memory suffices for it.
fn drawn(alloc: Global, state: &State, around: Option<u32>) -> Option<String> {
    let gate = Gate::read(alloc, GATE.as_bytes()).ok()?;
    graph_text(alloc, &gate, state, around).ok()
}

/// The picture of these steps around a change is this text.
fn assert_text(rt: &impl Abort, alloc: Global, steps: &[Step], around: Option<u32>, text: &str) {
    let picture = state_of(alloc, steps).and_then(|state| drawn(alloc, &state, around));
    assert_found(rt, is_text(picture, text), true);
}

/// Change 1 is merged, 2 waits for it, 3 is rejected, 4 waits for 2 and 3, 5 and 6 for each other, 7 for 6 and an
/// unknown change, 8 has an older patch set.
const RECORD: [Step; 11] = [
    PatchSet(1, 1, &[]),
    Merged(1),
    PatchSet(2, 1, &[1]),
    PatchSet(3, 1, &[]),
    Rejected(3, 1),
    PatchSet(4, 1, &[3, 2]),
    PatchSet(5, 1, &[6]),
    PatchSet(6, 1, &[5]),
    PatchSet(7, 1, &[90, 6, 9]),
    PatchSet(8, 1, &[2]),
    PatchSet(8, 2, &[2, 9]),
];

/// The picture of the whole record.
const WHOLE: &str = r#"digraph reviewgate {
  node [shape=box];
  "2,1" [color=green label="2,1"];
  "3,1" [color=red label="3,1\nreject approval 1"];
  "4,1" [color=red label="4,1\ndependency 3"];
  subgraph "cluster_5,1" { "5,1" [color=red label="5,1\ncycle"]; }
  subgraph "cluster_5,1" { "6,1" [color=red label="6,1\ncycle"]; }
  "7,1" [color=red label="7,1\nunknown 9"];
  "8,1" [color=red label="8,1\nrequire current-patchset"];
  "8,2" [color=red label="8,2\nunknown 9"];
  "9" [style=dashed];
  "90" [style=dashed];
  "4,1" -> "2,1";
  "4,1" -> "3,1";
  "5,1" -> "6,1";
  "6,1" -> "5,1";
  "7,1" -> "6,1";
  "7,1" -> "9";
  "7,1" -> "90";
  "8,1" -> "2,1";
  "8,2" -> "2,1";
  "8,2" -> "9";
}
"#;

#[test]
fn a_record_is_drawn(rt: HostRuntime) {
    assert_text(&rt, rt.alloc(), RECORD.as_slice(), None, WHOLE);
}

/// What leads to change 2. What else these items wait for isn't drawn.
const AROUND_2: &str = r#"digraph reviewgate {
  node [shape=box];
  "2,1" [color=green label="2,1"];
  "4,1" [color=red label="4,1\ndependency 3"];
  "8,1" [color=red label="8,1\nrequire current-patchset"];
  "8,2" [color=red label="8,2\nunknown 9"];
  "4,1" -> "2,1";
  "8,1" -> "2,1";
  "8,2" -> "2,1";
}
"#;

/// What change 7 leads to.
const AROUND_7: &str = r#"digraph reviewgate {
  node [shape=box];
  subgraph "cluster_5,1" { "5,1" [color=red label="5,1\ncycle"]; }
  subgraph "cluster_5,1" { "6,1" [color=red label="6,1\ncycle"]; }
  "7,1" [color=red label="7,1\nunknown 9"];
  "9" [style=dashed];
  "90" [style=dashed];
  "5,1" -> "6,1";
  "6,1" -> "5,1";
  "7,1" -> "6,1";
  "7,1" -> "9";
  "7,1" -> "90";
}
"#;

#[test]
fn what_is_near_a_change_is_drawn(rt: HostRuntime) {
    assert_text(&rt, rt.alloc(), RECORD.as_slice(), Some(2), AROUND_2);
    assert_text(&rt, rt.alloc(), RECORD.as_slice(), Some(7), AROUND_7);
}

/// A picture of nothing.
const NOTHING: &str = "digraph reviewgate {\n  node [shape=box];\n}\n";

#[test]
fn nothing_is_drawn_of_no_item(rt: HostRuntime) {
    assert_text(&rt, rt.alloc(), &[], None, NOTHING);
    assert_text(&rt, rt.alloc(), RECORD.as_slice(), Some(1), NOTHING);
    assert_text(&rt, rt.alloc(), RECORD.as_slice(), Some(9), NOTHING);
}
