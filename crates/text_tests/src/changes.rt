//! Texts of what changed from one report to the next, worked out by hand.

use super::asserts::assert_found;
use super::found::{MEMORY, assert_bytes};
use byte_ends::{Broken, Ends};
use deeds::{Deed, op_of};
use gate_rules::{Clause, Condition, Gate, Side};
use ready_core::{Left, Refusal, evaluate};
use report_changes::{
    Line, Listed, WriteChangesFault, groups_give_what_is_listed, groups_have_one_reading, is_over,
    lines_of, verdicts_name_each_once, write_changes, write_group,
};
use state_core::{Item, State};
use std::alloc::Global;
use std::process::Abort;

/// A gate that wants open changes, current patch sets and a vote.
const GATE: &str =
    r#"{"bases":["https://r/"],"require":{"gerrit":{"open":true,"current-patchset":true,
"approval":[{"Workflow":1}]}}}"#;

/// The vote that is wanted on a first patch set.
const YES: Deed = Deed::Vote(1, "Workflow", "ann", 1);

/// A first patch set.
const FIRST: Deed = Deed::PatchSet(1, "m", None);

/// What is done one after the other, and the group that is printed then.
const GROUPS: &[(&[(u32, Deed)], &str)] = &[
    // Nothing is listed.
    (&[], ""),
    // The first group has all that is listed: 103 is merged when it is first seen.
    (
        &[
            (101, FIRST),
            (101, YES),
            (102, Deed::PatchSet(1, "m", Some(101))),
            (103, FIRST),
            (103, Deed::Merged),
        ],
        "+ready 101,1\nout 102,1 require approval 1\nend 1 1\n",
    ),
    // A vote makes an item ready, and another one changes nothing.
    (&[(102, YES)], "+ready 102,1\nend 2 0\n"),
    (&[(101, Deed::Vote(1, "Verified", "zuul", 1))], ""),
    // A new patch set: the old one is gone, and what depends on the change waits.
    (
        &[(101, Deed::PatchSet(2, "m", None))],
        "-ready 101,1\n-ready 102,1\nout 101,2 require approval 1\nout 102,1 dependency 101\ngone 101,1\nend 0 2\n",
    ),
    (
        &[(101, Deed::Vote(2, "Workflow", "ann", 1))],
        "+ready 101,2\n+ready 102,1\nend 2 0\n",
    ),
    // A merge, an abandon and its end.
    (
        &[(101, Deed::Merged)],
        "-ready 101,2\ngone 101,2\nend 1 0\n",
    ),
    (
        &[(102, Deed::Abandon)],
        "-ready 102,1\ngone 102,1\nend 0 0\n",
    ),
    (&[(102, Deed::Restore)], "+ready 102,1\nend 1 0\n"),
    // An item that waits has another refusal, and then is gone.
    (
        &[(
            104,
            Deed::PatchSet(1, "m\n\nDepends-On: https://r/999\n", None),
        )],
        "out 104,1 require approval 1\nend 1 1\n",
    ),
    (&[(104, YES)], "out 104,1 unknown 999\nend 1 1\n"),
    (&[(104, Deed::Abandon)], "gone 104,1\nend 1 0\n"),
    // What is ready comes after what it waits for.
    (
        &[
            (
                106,
                Deed::PatchSet(1, "m\n\nDepends-On: https://r/107\n", None),
            ),
            (107, FIRST),
            (106, YES),
            (107, YES),
        ],
        "+ready 107,1\n+ready 106,1\nend 3 0\n",
    ),
];

/// A record that is followed, and what was listed of it.
#[derive(Drop)]
struct Followed {
    alloc: Global,
    gate: Gate,
    state: State,
    time: u64,
    listed: Listed,
}

impl Followed {
    /// An empty record.
    fn new(alloc: Global) -> Option<Followed> {
        let gate = Gate::read(alloc, GATE.as_bytes()).ok()?;
        Some(Followed {
            alloc,
            gate,
            state: State::new(alloc),
            time: 0,
            listed: Listed::new(alloc),
        })
    }

    /// Does one thing to a change.
    fn take_one(&mut self, change: u32, deed: Deed) -> Option<()> {
        self.time = self.time.wrapping_add(1);
        let op = op_of(self.alloc, self.time, change, deed)?;
        self.state.take(&op).ok()
    }

    /// Does so, one after the other.
    fn take(&mut self, deeds: &[(u32, Deed)]) -> Option<()> {
        for (change, deed) in deeds {
            self.take_one(*change, *deed)?;
        }
        Some(())
    }

    /// What is listed of the record.
    fn look(&self) -> Option<Listed> {
        let verdicts = evaluate(self.alloc, &self.state, &self.gate).ok()?;
        Listed::of(self.alloc, &verdicts).ok()
    }

    /// The group of what changed from what was listed last to what is listed.
    fn group_to(&self, listed: &Listed) -> Option<Vec<u8>> {
        let mut written = Ends::new(Vec::new(self.alloc));
        write_changes(self.alloc, &self.listed, listed, &mut written).ok()?;
        Some(written.into_inner())
    }

    /// The group of what changed since the last one.
    fn group(&mut self) -> Option<Vec<u8>> {
        let listed = self.look()?;
        let group = self.group_to(&listed);
        self.listed = listed;
        group
    }

    /// The group after deeds.
    fn group_after(&mut self, deeds: &[(u32, Deed)]) -> Option<Vec<u8>> {
        self.take(deeds)?;
        self.group()
    }
}

#[test]
fn groups_say_what_changed(rt: HostRuntime) {
    let mut followed = Followed::new(rt.alloc()).expect(&rt, MEMORY);
    for (deeds, wanted) in GROUPS {
        assert_bytes(&rt, followed.group_after(deeds), wanted.as_bytes());
    }
}

/// The record of the first groups.
fn begun(alloc: Global) -> Option<Followed> {
    let mut followed = Followed::new(alloc)?;
    let (deeds, _) = GROUPS.get(1)?;
    followed.take(deeds)?;
    Some(followed)
}

/// The item that is ready.
const READY: Item = Item {
    change: 101,
    set: 1,
};

/// The item that is merged.
const MERGED: Item = Item {
    change: 103,
    set: 1,
};

/// Whether one item alone is ready and listed, without a refusal, and the merged one isn't listed.
fn is_found_ready(listed: &Listed) -> [bool; 5] {
    [
        listed.ready() == [READY].as_slice(),
        listed.is_ready(READY),
        listed.is_listed(READY),
        !listed.is_listed(MERGED),
        listed.refusal(READY).is_none(),
    ]
}

/// Whether what waits is found with its refusal.
fn is_found_out(listed: &Listed, left: Left) -> [bool; 2] {
    [
        listed.refusal(left.item) == Some(left.refusal),
        listed.is_out_for(left),
    ]
}

/// The lines of the first group.
fn first_lines(followed: &Followed, listed: &Listed) -> Option<Vec<Line>> {
    lines_of(followed.alloc, &followed.listed, listed).ok()
}

/// How many bytes these lines are as a group.
fn group_len(alloc: Global, lines: &[Line]) -> Option<usize> {
    let mut written = Ends::new(Vec::new(alloc));
    write_group(lines, 1, 1, &mut written).ok()?;
    Some(written.into_inner().len())
}

// What is listed is found by item, and the lines of a group are known before they are written.
#[test]
fn a_listing_is_searched(rt: HostRuntime) {
    let followed = begun(rt.alloc()).expect(&rt, MEMORY);
    let listed = followed.look().expect(&rt, MEMORY);
    assert_found(&rt, is_found_ready(&listed), [true, true, true, true, true]);
    let left = listed.out().first().copied().expect(&rt, "one that waits");
    assert_found(&rt, is_found_out(&listed, left), [true, true]);
    let lines = first_lines(&followed, &listed).expect(&rt, MEMORY);
    let wanted = [Line::Ready(READY), Line::Out(left)];
    assert_found(&rt, lines.as_slice(), wanted.as_slice());
    assert_found(&rt, group_len(rt.alloc(), lines.as_slice()), Some(50));
}

/// How the writing of the first group to a writer that fails ends, and how many bytes the writer has taken then.
fn written_to(
    followed: &Followed,
    listed: &Listed,
    mut drain: Broken<Ends<Vec<u8>>>,
) -> (Result<(), WriteChangesFault>, u64) {
    let written = write_changes(followed.alloc, &followed.listed, listed, &mut drain);
    (written, drain.into_inner().into_inner().len() as u64)
}

/// Where the writer fails before this byte of the first group, it has taken those before the byte.
fn assert_fails_before(rt: &impl Abort, followed: &Followed, listed: &Listed, byte: u64) {
    let drain = Broken::before_byte(Ends::new(Vec::new(followed.alloc)), byte);
    let wanted = (Err(WriteChangesFault::WriteFault), byte.saturating_sub(1));
    assert_found(rt, written_to(followed, listed, drain), wanted);
}

#[test]
fn a_failing_writer_has_taken_what_came_before(rt: HostRuntime) {
    let followed = begun(rt.alloc()).expect(&rt, MEMORY);
    let listed = followed.look().expect(&rt, MEMORY);
    for byte in [1, 30, 50] {
        assert_fails_before(&rt, &followed, &listed, byte);
    }
}

#[test]
fn refusals_say_what_is_over(rt: HostRuntime) {
    for (clause, wanted) in [
        (Clause::OpenState, true),
        (Clause::CurrentSet, true),
        (Clause::StatusIn, true),
        (Clause::Approval(1), false),
    ] {
        let side = Side::Reject;
        assert_found(
            &rt,
            is_over(Refusal::Own(Condition { side, clause })),
            wanted,
        );
    }
    assert_found(
        &rt,
        !is_over(Refusal::Cycle) && !is_over(Refusal::Unknown(7)),
        true,
    );
    groups_give_what_is_listed();
    groups_have_one_reading();
    verdicts_name_each_once();
}
