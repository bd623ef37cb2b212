//! Random histories: the verdicts that are kept up to date beside those of an evaluation of the whole record.

ghost use Rattle.std.specs.Prelude.{◌<◌, ◌^◌, OnSome};
ghost use Rattle.watch_core.specs.Watching.{Extends, Precedes};

use super::asserts::assert_found;
use super::histories::{CYCLES, GATE, fresh, patch_set, take};
use deeds::{Deed, draft_of};
use gate_rules::Gate;
use ready_core::{Verdicts, evaluate};
use replica_core::Replica;
use review_ops::Draft;
use std::alloc::Global;
use watch_core::Evaluator;

/// How many histories are played.
const HISTORIES: u64 = 5_000;

/// How often each of them is brought up to date.
const UPDATES: u32 = 8;

/// Numbers without order, one after the other.
#[derive(Clone, Copy)]
struct Numbers {
    last: u64,
}

impl Numbers {
    /// The next number, which is below a bound.
    fn below(&mut self, bound: u64) -> u32
        requires low { 0 < bound }
        requires high { bound < 2 ^ 32 }
        ensures { result < bound }
    {
        self.last = self
            .last
            .wrapping_mul(6_364_136_223_846_793_005)
            .wrapping_add(1_442_695_040_888_963_407);
        (self.last / 65_536 % bound) as u32
    }

    /// One of six changes.
    fn change(&mut self) -> u32 {
        1 + self.below(6)
    }
}

/// A first or second patch set of a change that needs up to two others, and may have a parent.
fn set_of(alloc: Global, numbers: &mut Numbers, change: u32) -> Option<Draft> {
    let others = [numbers.change(), numbers.change()];
    let needs = numbers.below(3) as usize;
    let parent = match numbers.below(4) {
        0 => Some(numbers.change()),
        _ => None,
    };
    let set = 1 + numbers.below(8) / 6;
    patch_set(alloc, change, set, &others[..needs], parent)
}

/// One of the votes that the gates look at.
fn vote(numbers: &mut Numbers) -> Deed {
    let (label, voter) = match numbers.below(2) {
        0 => ("Workflow", "ann"),
        _ => ("Verified", "zuul"),
    };
    let value = match numbers.below(8) {
        0 => 0,
        _ => 1,
    };
    Deed::Vote(1 + numbers.below(8) / 6, label, voter, value)
}

/// The draft of a patch set, most of the rest votes.
fn draft(alloc: Global, numbers: &mut Numbers) -> Option<Draft> {
    let change = numbers.change();
    match numbers.below(16) {
        0 => draft_of(alloc, change, Deed::Merged),
        1 => draft_of(alloc, change, Deed::Abandon),
        2 | 3 => draft_of(alloc, change, Deed::Restore),
        4..=7 => set_of(alloc, numbers, change),
        _ => draft_of(alloc, change, vote(numbers)),
    }
}

/// Takes in up to seven operations, where memory suffices for them.
fn take_some(alloc: Global, replica: &mut Replica, numbers: &mut Numbers) -> Option<()>
    ensures { OnSome result (Extends replica.old replica.new) }
{
    for _taken in 0..numbers.below(8) {
        take(replica, draft(alloc, numbers))?;
    }
    Some(())
}

/// Whether two have the same verdicts.
fn are_same(verdicts: &Verdicts, whole: &Verdicts) -> bool {
    verdicts.ready() == whole.ready() && verdicts.out() == whole.out()
}

/// Whether these are the verdicts of the record, where memory suffices for those.
fn are_whole(
    alloc: Global,
    gate: &Gate,
    verdicts: Option<&Verdicts>,
    replica: &Replica,
) -> Option<bool> {
    let verdicts = verdicts?;
    let whole = evaluate(alloc, replica.state(), gate).ok()?;
    Some(are_same(verdicts, &whole))
}

/// Plays a part of a history, where the evaluator then has the verdicts of the record.
fn play_part(
    alloc: Global,
    gate: &Gate,
    evaluator: &mut Evaluator,
    replica: &mut Replica,
    numbers: &mut Numbers,
) -> Option<()>
    requires { Precedes evaluator.old replica.old }
    ensures { OnSome result (Precedes evaluator.new replica.new) }
{
    take_some(alloc, replica, numbers)?;
    evaluator.update(replica).ok()?;
    if are_whole(alloc, gate, evaluator.verdicts(), replica) == Some(true) {
        Some(())
    } else {
        None
    }
}

/// Plays a history, where the evaluator has the verdicts of the record after each part.
fn play_parts(
    alloc: Global,
    gate: &Gate,
    evaluator: &mut Evaluator,
    replica: &mut Replica,
    seed: u64,
) -> Option<()>
    requires { Precedes evaluator.old replica.old }
{
    let mut numbers = Numbers { last: seed };
    for _update in 0..UPDATES {
        play_part(alloc, gate, evaluator, replica, &mut numbers)?;
    }
    Some(())
}

/// Plays one history from an empty record on, where the evaluator has the verdicts of the record after each part.
fn play(alloc: Global, gate: &Gate, seed: u64) -> Option<()> {
    let mut replica = Replica::new(alloc);
    match fresh(gate, &replica) {
        Some(mut evaluator) => play_parts(alloc, gate, &mut evaluator, &mut replica, seed),
        None => None,
    }
}

/// How many histories, from the first on, are played with the verdicts of the record after each part.
fn played(alloc: Global, gate: &str) -> Option<u64> {
    let gate = Gate::read(alloc, gate.as_bytes()).ok()?;
    let mut count = 0;
    for seed in 0..HISTORIES {
        if play(alloc, &gate, seed).is_none() {
            break;
        }
        count = seed + 1;
    }
    Some(count)
}

#[test]
fn updates_give_what_an_evaluation_does(rt: HostRuntime) {
    assert_found(&rt, played(rt.alloc(), GATE), Some(HISTORIES));
    assert_found(&rt, played(rt.alloc(), CYCLES), Some(HISTORIES));
}
