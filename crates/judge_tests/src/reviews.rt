//! Records with the verdicts on them, worked out by hand.

use gate_rules::Gate;
use ready_core::{Verdicts, evaluate};
use review_ops::{Body, Draft, Op, Stamp};
use state_core::State;
use std::alloc::Global;
use std::process::Abort;
use std::test::Fail;
use verdict_lines::lines_of;

// A gate that wants two approvals on the current patch set of an open change, and one that also lets items on a cycle
// in.
pub(super) const GATE: &str =
    r#"{"bases":["https://review.example.org/"],"reject":{"gerrit":{"approval":[{"Code-Review":-2}]}},"require":{"gerrit":{"open":true,"current-patchset":true,"approval":[{"Workflow":1},{"Verified":[1,2],"username":"zuul"}]}}}"#;

pub(super) const CYCLES: &str =
    r#"{"allow-circular-dependencies":true,"bases":["https://review.example.org/"],"reject":{"gerrit":{"approval":[{"Code-Review":-2}]}},"require":{"gerrit":{"open":true,"current-patchset":true,"approval":[{"Workflow":1},{"Verified":[1,2],"username":"zuul"}]}}}"#;

/// What comes to a review: an operation, or a look at its report.
#[derive(Clone, Copy)]
enum Step {
    /// A patch set of this change with this number, whose message has a footer for each of these changes, on this
    /// parent.
    PatchSet(u32, u32, &'static [u32], Option<u32>),
    /// A vote on the first patch set of this change.
    Vote(u32, &'static str, &'static str, i8),
    /// The two approvals that the gate wants on the first patch set of this change.
    Both(u32),
    /// A first patch set of this change that needs these changes, with both approvals.
    Approved(u32, &'static [u32]),
    Merged(u32),
    Abandon(u32),
    Restore(u32),
    /// Under the first gate the verdicts are these.
    Report(&'static str),
    /// Under the gate that allows cycles the verdicts are these.
    CyclesReport(&'static str),
}

use Step::{Abandon, Approved, Both, CyclesReport, Merged, PatchSet, Report, Restore, Vote};

/// A record whose operations come one after the other.
#[derive(Drop)]
pub(super) struct Review {
    pub(super) state: State,
    alloc: Global,
    time: u64,
}

impl Review {
    pub(super) fn new(alloc: Global) -> Review {
        Review {
            state: State::new(alloc),
            alloc,
            time: 0,
        }
    }

    /// Takes in the next operation.
    pub(super) fn take(&mut self, draft: Draft) -> Result<(), Fail> {
        self.time = self.time.saturating_add(1);
        let stamp = Stamp::new(self.time, 1, 1, self.time).ok_or("a stamp")?;
        self.state.take(&Op::new(stamp, Body::checked(draft)?))?;
        Ok(())
    }

    /// A patch set whose message has a footer for each of these changes.
    pub(super) fn patch_set(
        &mut self,
        change: u32,
        set: u32,
        needs: &[u32],
        parent: Option<u32>,
    ) -> Result<(), Fail> {
        let mut message = String::new(self.alloc);
        for need in needs {
            write!(message, "Depends-On: https://review.example.org/{need}\n")?;
        }
        self.take(Draft::PatchSet {
            change,
            set,
            message,
            parent,
        })
    }

    fn vote(&mut self, change: u32, label: &str, voter: &str, value: i8) -> Result<(), Fail> {
        let label = String::from_str(self.alloc, label)?;
        let voter = String::from_str(self.alloc, voter)?;
        self.take(Draft::Vote {
            change,
            set: 1,
            label,
            voter,
            value,
        })
    }

    /// The two approvals that the gate wants on a first patch set.
    pub(super) fn both(&mut self, change: u32) -> Result<(), Fail> {
        self.vote(change, "Workflow", "ann", 1)?;
        self.vote(change, "Verified", "zuul", 1)
    }

    /// A first patch set that needs these changes, with both approvals.
    fn approved(&mut self, change: u32, needs: &[u32]) -> Result<(), Fail> {
        self.patch_set(change, 1, needs, None)?;
        self.both(change)
    }

    /// Plays one step.
    fn step(&mut self, rt: &impl Abort, step: Step) -> Result<(), Fail> {
        match step {
            PatchSet(change, set, needs, parent) => self.patch_set(change, set, needs, parent),
            Vote(change, label, voter, value) => self.vote(change, label, voter, value),
            Both(change) => self.both(change),
            Approved(change, needs) => self.approved(change, needs),
            Merged(change) => self.take(Draft::Merged { change }),
            Abandon(change) => self.take(Draft::Abandon { change }),
            Restore(change) => self.take(Draft::Restore { change }),
            Report(want) => assert_report(rt, self, GATE, want),
            CyclesReport(want) => assert_report(rt, self, CYCLES, want),
        }
    }

    /// The verdicts under the gate.
    pub(super) fn verdicts(&self, gate: &str) -> Result<Verdicts, Fail> {
        let gate = Gate::read(self.alloc, gate.as_bytes())?;
        Ok(evaluate(self.alloc, &self.state, &gate)?)
    }

    /// The verdicts under the gate as a text.
    fn report(&self, gate: &str) -> Result<String, Fail> {
        let verdicts = self.verdicts(gate)?;
        Ok(lines_of(self.alloc, &verdicts)?)
    }
}

/// The record has these verdicts under the gate.
fn assert_report(rt: &impl Abort, review: &Review, gate: &str, want: &str) -> Result<(), Fail> {
    let got = review.report(gate)?;
    assert_eq!(rt; got.as_str(), want);
    Ok(())
}

/// Plays the steps, one after the other, in a new review.
fn play(rt: &impl Abort, alloc: Global, steps: &[Step]) -> Result<(), Fail> {
    let mut review = Review::new(alloc);
    for step in steps {
        review.step(rt, *step)?;
    }
    Ok(())
}

#[test]
fn nothing(rt: HostRuntime) -> Result<(), Fail> {
    play(&rt, rt.alloc(), &[Report("")])
}

const APPROVALS: &[Step] = &[
    Approved(101, &[]),
    Report("ready 101,1\n"),
    PatchSet(101, 2, &[], None),
    Report("out 101,1 require current-patchset 0\nout 101,2 require approval 1 0\n"),
];

#[test]
fn approvals(rt: HostRuntime) -> Result<(), Fail> {
    play(&rt, rt.alloc(), APPROVALS)
}

const A_REJECTED_VOTE: &[Step] = &[
    Approved(101, &[]),
    Vote(101, "Code-Review", "bob", -2),
    Vote(101, "Code-Review", "ann", 2),
    Report("out 101,1 reject approval 1 0\n"),
];

#[test]
fn a_rejected_vote(rt: HostRuntime) -> Result<(), Fail> {
    play(&rt, rt.alloc(), A_REJECTED_VOTE)
}

// A merged dependency is satisfied, and a merged change isn't open, also after a restore.
const A_MERGED_DEPENDENCY: &[Step] = &[
    PatchSet(5, 1, &[], None),
    Merged(5),
    Restore(5),
    Merged(4),
    Approved(6, &[4, 5]),
    Report("ready 6,1\nout 5,1 require open 0\n"),
];

#[test]
fn a_merged_dependency(rt: HostRuntime) -> Result<(), Fail> {
    play(&rt, rt.alloc(), A_MERGED_DEPENDENCY)
}

const A_CYCLE: &[Step] = &[
    Approved(1, &[2]),
    Approved(2, &[1]),
    CyclesReport("ready 1,1\nready 2,1\n"),
    Report("out 1,1 cycle 0\nout 2,1 cycle 0\n"),
];

#[test]
fn a_cycle(rt: HostRuntime) -> Result<(), Fail> {
    play(&rt, rt.alloc(), A_CYCLE)
}

// A cycle that waits for a change that isn't approved: the lines lead out of the cycle.
const A_CYCLE_WITH_A_TAIL: &[Step] = &[
    Approved(1, &[2]),
    Approved(2, &[1, 3]),
    PatchSet(3, 1, &[], None),
    Vote(3, "Workflow", "ann", 1),
    CyclesReport("out 1,1 dependency 2 2\nout 2,1 dependency 3 1\nout 3,1 require approval 2 0\n"),
    Report("out 1,1 cycle 0\nout 2,1 cycle 0\nout 3,1 require approval 2 0\n"),
];

#[test]
fn a_cycle_with_a_tail(rt: HostRuntime) -> Result<(), Fail> {
    play(&rt, rt.alloc(), A_CYCLE_WITH_A_TAIL)
}

const AN_UNKNOWN_CHANGE: &[Step] = &[
    Both(7),
    Approved(6, &[9, 7]),
    Report("out 6,1 unknown 7 0\n"),
    PatchSet(7, 1, &[], None),
    Report("ready 7,1\nout 6,1 unknown 9 0\n"),
    Merged(9),
    Report("ready 7,1\nready 6,1\n"),
];

#[test]
fn an_unknown_change(rt: HostRuntime) -> Result<(), Fail> {
    play(&rt, rt.alloc(), AN_UNKNOWN_CHANGE)
}

const A_CHAIN_FROM_ITS_END: &[Step] = &[
    Approved(3, &[1]),
    Approved(1, &[2]),
    Approved(2, &[]),
    Report("ready 2,1\nready 1,1\nready 3,1\n"),
];

#[test]
fn a_chain_from_its_end(rt: HostRuntime) -> Result<(), Fail> {
    play(&rt, rt.alloc(), A_CHAIN_FROM_ITS_END)
}

const A_CYCLE_AFTER_WHAT_NEEDS_NOTHING: &[Step] = &[
    Approved(1, &[3]),
    Approved(2, &[]),
    Approved(3, &[1]),
    Approved(4, &[]),
    CyclesReport("ready 2,1\nready 4,1\nready 1,1\nready 3,1\n"),
];

#[test]
fn a_cycle_after_what_needs_nothing(rt: HostRuntime) -> Result<(), Fail> {
    play(&rt, rt.alloc(), A_CYCLE_AFTER_WHAT_NEEDS_NOTHING)
}

const TWO_CYCLES_STAND_APART: &[Step] = &[
    Approved(1, &[4]),
    Approved(2, &[3]),
    Approved(3, &[2]),
    Approved(4, &[1]),
    CyclesReport("ready 1,1\nready 4,1\nready 2,1\nready 3,1\n"),
];

#[test]
fn two_cycles_are_apart(rt: HostRuntime) -> Result<(), Fail> {
    play(&rt, rt.alloc(), TWO_CYCLES_STAND_APART)
}

// A cycle is named before an unknown change, and an own condition before both.
const THE_FIRST_CAUSE: &[Step] = &[
    Approved(1, &[2, 9]),
    PatchSet(2, 1, &[1, 9], None),
    Report("out 1,1 cycle 0\nout 2,1 require approval 1 0\n"),
    CyclesReport("out 1,1 unknown 9 0\nout 2,1 require approval 1 0\n"),
];

#[test]
fn the_first_cause(rt: HostRuntime) -> Result<(), Fail> {
    play(&rt, rt.alloc(), THE_FIRST_CAUSE)
}

const AN_ABANDONED_DEPENDENCY: &[Step] = &[
    Approved(1, &[]),
    Abandon(1),
    Approved(2, &[1]),
    Report("out 1,1 require open 0\nout 2,1 dependency 1 1\n"),
    Restore(1),
    Report("ready 1,1\nready 2,1\n"),
];

#[test]
fn an_abandoned_dependency(rt: HostRuntime) -> Result<(), Fail> {
    play(&rt, rt.alloc(), AN_ABANDONED_DEPENDENCY)
}

// The change that is named begins a shortest walk, though a lesser one is left out, too.
const THE_NEAREST_CAUSE: &[Step] = &[
    Approved(1, &[3, 4]),
    Approved(3, &[5]),
    PatchSet(4, 1, &[], None),
    PatchSet(5, 1, &[], None),
    Report(
        "out 1,1 dependency 4 1\nout 3,1 dependency 5 1\nout 4,1 require approval 1 0\nout 5,1 require approval 1 0\n",
    ),
];

#[test]
fn the_nearest_cause(rt: HostRuntime) -> Result<(), Fail> {
    play(&rt, rt.alloc(), THE_NEAREST_CAUSE)
}

// An item waits for the current patch set of its dependency, not for an older one.
const A_NEWER_PATCH_SET: &[Step] = &[
    Approved(1, &[]),
    Approved(2, &[1]),
    PatchSet(1, 2, &[], None),
    Report(
        "out 1,1 require current-patchset 0\nout 1,2 require approval 1 0\nout 2,1 dependency 1 1\n",
    ),
];

#[test]
fn a_newer_patch_set(rt: HostRuntime) -> Result<(), Fail> {
    play(&rt, rt.alloc(), A_NEWER_PATCH_SET)
}

const A_PARENT: &[Step] = &[
    PatchSet(1, 1, &[], None),
    PatchSet(2, 1, &[], Some(1)),
    Both(2),
    Report("out 1,1 require approval 1 0\nout 2,1 dependency 1 1\n"),
    Merged(1),
    Report("ready 2,1\nout 1,1 require open 0\n"),
];

#[test]
fn a_parent(rt: HostRuntime) -> Result<(), Fail> {
    play(&rt, rt.alloc(), A_PARENT)
}

const AN_UNKNOWN_PARENT_AND_AN_OWN_ONE: &[Step] = &[
    PatchSet(2, 1, &[], Some(7)),
    PatchSet(3, 1, &[], Some(3)),
    Both(2),
    Both(3),
    Report("ready 3,1\nout 2,1 unknown 7 0\n"),
];

#[test]
fn an_unknown_parent_and_an_own_one(rt: HostRuntime) -> Result<(), Fail> {
    play(&rt, rt.alloc(), AN_UNKNOWN_PARENT_AND_AN_OWN_ONE)
}
