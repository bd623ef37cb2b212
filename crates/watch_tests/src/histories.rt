//! Histories of a record: after each part of one the verdicts that are kept up to date are those that are wanted, and
//! those of the whole record.

ghost use Rattle.std.specs.Prelude.{IfSome, OnSome};
ghost use Rattle.watch_core.specs.Watching.{Extends, FollowsJournal, Precedes};

use super::asserts::assert_found;
use deeds::{Deed, draft_of};
use gate_rules::Gate;
use ready_core::{Verdicts, evaluate};
use replica_core::Replica;
use review_ops::{Body, Draft, Op, Stamp};
use std::alloc::Global;
use verdict_lines::lines_of;
use watch_core::{
    Evaluator, GateJudge, Judge, untouched_changes_stay, verdicts_are_brought_up,
    verdicts_are_local, what_is_not_reached_stays,
};

// A gate that wants two approvals on the current patch set of an open change, and one that also lets items on a cycle
// in.
pub(super) const GATE: &str =
    r#"{"bases":["https://review.example.org/"],"require":{"gerrit":{"open":true,"current-patchset":true,"approval":[{"Workflow":1},{"Verified":[1,2],"username":"zuul"}]}}}"#;

pub(super) const CYCLES: &str =
    r#"{"allow-circular-dependencies":true,"bases":["https://review.example.org/"],"require":{"gerrit":{"open":true,"current-patchset":true,"approval":[{"Workflow":1},{"Verified":[1,2],"username":"zuul"}]}}}"#;

/// What comes to a record.
#[derive(Clone, Copy)]
pub(super) enum Step {
    /// A patch set of this change with this number, whose message has a footer for each of these changes, on this
    /// parent.
    PatchSet(u32, u32, &'static [u32], Option<u32>),
    /// A vote on the first patch set of this change.
    Vote(u32, &'static str, &'static str, i8),
    Merged(u32),
    Abandon(u32),
    Restore(u32),
}

use Step::{Abandon, Merged, PatchSet, Restore, Vote};

/// A part of a history: what comes, the verdicts after it, and how often the judge is asked for them.
#[derive(Clone, Copy)]
pub(super) struct Part {
    pub(super) steps: &'static [Step],
    wanted: &'static str,
    asked: u64,
}

/// A message that has a footer for each of these changes, where memory suffices for it.
fn footers(alloc: Global, needs: &[u32]) -> Option<String> {
    let mut message = String::new(alloc);
    for need in needs {
        write!(message, "Depends-On: https://review.example.org/{need}\n").ok()?;
    }
    Some(message)
}

/// A patch set of a change whose message has a footer for each of these changes, where memory suffices for it.
pub(super) fn patch_set(
    alloc: Global,
    change: u32,
    set: u32,
    needs: &[u32],
    parent: Option<u32>,
) -> Option<Draft> {
    let message = footers(alloc, needs)?;
    Some(Draft::PatchSet {
        change,
        set,
        message,
        parent,
    })
}

/// The draft of a step, where memory suffices for it.
fn step_draft(alloc: Global, step: Step) -> Option<Draft> {
    match step {
        PatchSet(change, set, needs, parent) => patch_set(alloc, change, set, needs, parent),
        Vote(change, label, voter, value) => {
            draft_of(alloc, change, Deed::Vote(1, label, voter, value))
        }
        Merged(change) => draft_of(alloc, change, Deed::Merged),
        Abandon(change) => draft_of(alloc, change, Deed::Abandon),
        Restore(change) => draft_of(alloc, change, Deed::Restore),
    }
}

/// The operation of a draft under a time that is its sequence number, too, where both are good.
fn op_at(time: u64, draft: Option<Draft>) -> Option<Op> {
    let stamp = Stamp::new(time, 1, 1, time)?;
    let body = Body::checked(draft?).ok()?;
    Some(Op::new(stamp, body))
}

/// Takes in the operation of a draft, whose time is one more than how many came before it, where memory suffices for
/// it.
pub(super) fn take(replica: &mut Replica, draft: Option<Draft>) -> Option<()>
    ensures { OnSome result (Extends replica.old replica.new) }
{
    let time = (replica.len() as u64).saturating_add(1);
    let op = op_at(time, draft)?;
    replica.take(op).ok()?;
    Some(())
}

/// Takes in what comes, where memory suffices for it.
pub(super) fn take_all(alloc: Global, replica: &mut Replica, steps: &[Step]) -> Option<()>
    ensures { OnSome result (Extends replica.old replica.new) }
{
    for step in steps {
        take(replica, step_draft(alloc, *step))?;
    }
    Some(())
}

/// Brings the verdicts up to date: how often the judge was asked for them, where memory suffices for them.
fn update(evaluator: &mut Evaluator, replica: &Replica) -> Option<u64>
    requires { Precedes evaluator.old replica.now }
    ensures { OnSome result (Precedes evaluator.new replica.now) }
{
    let mut judge = GateJudge::new();
    evaluator.update_with(replica, &mut judge).ok()?;
    Some(judge.asked())
}

/// The verdicts as a text, where there are any and memory suffices for it.
pub(super) fn text_of(alloc: Global, verdicts: Option<&Verdicts>) -> Option<String> {
    lines_of(alloc, verdicts?).ok()
}

/// The verdicts of the whole record as a text, where memory suffices for them.
fn whole_text(alloc: Global, gate: &Gate, replica: &Replica) -> Option<String> {
    let whole = evaluate(alloc, replica.state(), gate).ok()?;
    text_of(alloc, Some(&whole))
}

/// Whether there is a text, and it is this one.
fn is_text(text: Option<String>, wanted: &str) -> bool {
    match text {
        Some(text) => text.as_str() == wanted,
        None => false,
    }
}

/// Whether the evaluator has the verdicts of the whole record, and they are these.
fn are_verdicts(
    alloc: Global,
    gate: &Gate,
    evaluator: &Evaluator,
    replica: &Replica,
    wanted: &str,
) -> bool {
    let kept = text_of(alloc, evaluator.verdicts());
    let whole = whole_text(alloc, gate, replica);
    is_text(kept, wanted) && is_text(whole, wanted)
}

/// Plays a part of a history, where all comes to pass that it says.
fn play_part(
    alloc: Global,
    gate: &Gate,
    evaluator: &mut Evaluator,
    replica: &mut Replica,
    part: Part,
) -> Option<()>
    requires { Precedes evaluator.old replica.old }
    ensures { OnSome result (Precedes evaluator.new replica.new) }
{
    take_all(alloc, replica, part.steps)?;
    let asked = update(evaluator, replica)?;
    if are_verdicts(alloc, gate, evaluator, replica, part.wanted) && asked == part.asked {
        Some(())
    } else {
        None
    }
}

/// Plays the parts of a history: how many of them, from the first on, come to pass.
fn play_parts(
    alloc: Global,
    gate: &Gate,
    evaluator: &mut Evaluator,
    replica: &mut Replica,
    parts: &[Part],
) -> usize
    requires { Precedes evaluator.old replica.old }
{
    let mut count = 0usize;
    for part in parts {
        if play_part(alloc, gate, evaluator, replica, *part).is_none() {
            return count;
        }
        count = count.saturating_add(1);
    }
    count
}

/// An evaluator with the verdicts of a gate on a replica, where memory suffices for it.
pub(super) fn fresh(gate: &Gate, replica: &Replica) -> Option<Evaluator>
    ensures { IfSome result (λ evaluator. FollowsJournal evaluator replica.now) }
{
    let copied = gate.copy().ok()?;
    Evaluator::fresh(copied, replica).ok()
}

/// Plays a history under a gate from an empty record on: how many of its parts, from the first on, come to pass.
fn play_under(alloc: Global, gate: &Gate, parts: &[Part]) -> usize {
    let mut replica = Replica::new(alloc);
    match fresh(gate, &replica) {
        Some(mut evaluator) => play_parts(alloc, gate, &mut evaluator, &mut replica, parts),
        None => 0,
    }
}

/// The same under the gate that a text spells, where memory suffices for it.
fn play(alloc: Global, gate: &str, parts: &[Part]) -> Option<usize> {
    let gate = Gate::read(alloc, gate.as_bytes()).ok()?;
    Some(play_under(alloc, &gate, parts))
}

// A dependency that was unknown comes, is merged, and what waited for it loses a vote. Where nothing comes nobody is
// asked.
pub(super) const A_DEPENDENCY_COMES_AND_GOES: &[Part] = &[
    Part {
        steps: &[
            Vote(7, "Workflow", "ann", 1),
            Vote(7, "Verified", "zuul", 1),
            PatchSet(6, 1, &[7], None),
            Vote(6, "Workflow", "ann", 1),
            Vote(6, "Verified", "zuul", 1),
        ],
        wanted: "out 6,1 unknown 7 0\n",
        asked: 1,
    },
    Part {
        steps: &[PatchSet(7, 1, &[], None)],
        wanted: "ready 7,1\nready 6,1\n",
        asked: 1,
    },
    Part {
        steps: &[Merged(7)],
        wanted: "ready 6,1\nout 7,1 require open 0\n",
        asked: 1,
    },
    Part {
        steps: &[Vote(6, "Verified", "zuul", 0)],
        wanted: "out 6,1 require approval 2 0\nout 7,1 require open 0\n",
        asked: 1,
    },
    Part {
        steps: &[],
        wanted: "out 6,1 require approval 2 0\nout 7,1 require open 0\n",
        asked: 0,
    },
];

#[test]
fn a_dependency_comes_and_goes(rt: HostRuntime) {
    assert_found(
        &rt,
        play(rt.alloc(), GATE, A_DEPENDENCY_COMES_AND_GOES),
        Some(A_DEPENDENCY_COMES_AND_GOES.len()),
    );
}

// A cycle that waits for another change goes in once that is approved, for which that change alone is asked.
const A_CYCLE_GOES_IN: &[Part] = &[
    Part {
        steps: &[
            PatchSet(1, 1, &[2], None),
            PatchSet(2, 1, &[1, 3], None),
            PatchSet(3, 1, &[], None),
            Vote(1, "Workflow", "ann", 1),
            Vote(1, "Verified", "zuul", 1),
            Vote(2, "Workflow", "ann", 1),
            Vote(2, "Verified", "zuul", 1),
            Vote(3, "Workflow", "ann", 1),
        ],
        wanted: "out 1,1 dependency 2 2\nout 2,1 dependency 3 1\nout 3,1 require approval 2 0\n",
        asked: 3,
    },
    Part {
        steps: &[Vote(3, "Verified", "zuul", 1)],
        wanted: "ready 3,1\nready 1,1\nready 2,1\n",
        asked: 1,
    },
];

#[test]
fn a_cycle_goes_in(rt: HostRuntime) {
    assert_found(
        &rt,
        play(rt.alloc(), CYCLES, A_CYCLE_GOES_IN),
        Some(A_CYCLE_GOES_IN.len()),
    );
}

// A newer patch set closes a cycle, one more opens it; a change is abandoned and restored.
const A_CYCLE_CLOSES_AND_OPENS: &[Part] = &[
    Part {
        steps: &[
            PatchSet(1, 1, &[], Some(2)),
            Vote(1, "Workflow", "ann", 1),
            Vote(1, "Verified", "zuul", 1),
            PatchSet(2, 1, &[], None),
            Vote(2, "Workflow", "ann", 1),
            Vote(2, "Verified", "zuul", 1),
        ],
        wanted: "ready 2,1\nready 1,1\n",
        asked: 2,
    },
    Part {
        steps: &[PatchSet(2, 2, &[1], None)],
        wanted: "out 1,1 cycle 0\nout 2,1 require current-patchset 0\nout 2,2 require approval 1 0\n",
        asked: 2,
    },
    Part {
        steps: &[PatchSet(2, 3, &[], None), Abandon(1)],
        wanted: "out 1,1 require open 0\nout 2,1 require current-patchset 0\nout 2,2 require current-patchset 0\nout 2,3 require approval 1 0\n",
        asked: 4,
    },
    Part {
        steps: &[Restore(1)],
        wanted: "out 1,1 dependency 2 1\nout 2,1 require current-patchset 0\nout 2,2 require current-patchset 0\nout 2,3 require approval 1 0\n",
        asked: 1,
    },
];

#[test]
fn a_cycle_closes_and_opens(rt: HostRuntime) {
    assert_found(
        &rt,
        play(rt.alloc(), GATE, A_CYCLE_CLOSES_AND_OPENS),
        Some(A_CYCLE_CLOSES_AND_OPENS.len()),
    );
}

// The laws are there, and calling them does nothing.
#[test]
fn laws_are_called(rt: HostRuntime) {
    let _alloc = rt.alloc();
    untouched_changes_stay();
    verdicts_are_local();
    what_is_not_reached_stays();
    verdicts_are_brought_up();
}
