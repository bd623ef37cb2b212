//! A slow plain program, without graphs and walks, that the search is compared with.

use super::reviews::{CYCLES, GATE, Review};
use gate_rules::{Clause, Condition, Side};
use lattice_core::NoMemory;
use ready_core::{Left, Refusal, Verdicts};
use review_ops::Draft;
use state_core::Item;
use std::alloc::Global;
use std::process::Abort;
use std::test::Fail;

/// Changes with the numbers from 1 on, each with one patch set, and which of them needs which.
#[derive(Drop)]
struct Case {
    changes: u32,
    approved: Vec<bool>,
    merged: Vec<bool>,
    edges: Vec<(u32, u32)>,
    cycles: bool,
    alloc: Global,
}

/// What is listed for a change.
fn listed<T: Copy>(list: &[T], change: u32) -> Option<T> {
    if change == 0 {
        return None;
    }
    list.get(change as usize - 1).copied()
}

/// The first condition of the gate's side that a change breaks.
fn required(clause: Clause) -> Option<Refusal> {
    Some(Refusal::Own(Condition {
        side: Side::Require,
        clause,
    }))
}

impl Case {
    /// So many changes, of which nothing is listed yet.
    fn new(alloc: Global, changes: u32, cycles: bool) -> Case {
        Case {
            changes,
            approved: Vec::new(alloc),
            merged: Vec::new(alloc),
            edges: Vec::new(alloc),
            cycles,
            alloc,
        }
    }

    /// Whether the first change waits for the second.
    fn waits(&self, from: u32, to: u32) -> bool {
        from != to && listed(self.merged.as_slice(), to) != Some(true)
    }

    /// Whether a change comes back to itself, by repeated relaxing.
    fn comes_back(&self, change: u32) -> Result<bool, NoMemory> {
        let mut reached = Vec::new(self.alloc);
        reached.push(change)?;
        let mut back = false;
        for _ in 0..self.approved.len() {
            for (from, to) in &self.edges {
                if self.waits(*from, *to) && reached.as_slice().contains(from) {
                    back = back || *to == change;
                    reached.push(*to)?;
                }
            }
            reached.sort_unstable();
            reached.dedup();
        }
        Ok(back)
    }

    /// The least of the changes that a change waits for and that pass the test.
    fn least(&self, change: u32, passes: &[bool], wanted: bool) -> Option<u32> {
        let mut least = None;
        for (from, to) in &self.edges {
            let passed = listed(passes, *to).unwrap_or(false) == wanted;
            if *from == change && self.waits(*from, *to) && passed {
                least = Some(least.map_or(*to, |other: u32| other.min(*to)));
            }
        }
        least
    }

    /// Why a change's item isn't eligible.
    fn cause(&self, change: u32, known: &[bool]) -> Result<Option<Refusal>, NoMemory> {
        if listed(self.merged.as_slice(), change) == Some(true) {
            return Ok(required(Clause::OpenState));
        }
        if listed(self.approved.as_slice(), change) != Some(true) {
            return Ok(required(Clause::Approval(1)));
        }
        if !self.cycles && self.comes_back(change)? {
            return Ok(Some(Refusal::Cycle));
        }
        Ok(self.least(change, known, false).map(Refusal::Unknown))
    }

    /// The refusals of the changes whose items aren't eligible.
    fn first_refusals(&self) -> Result<Vec<Option<(Refusal, usize)>>, NoMemory> {
        let known = vec![in self.alloc; true; self.approved.len()]?;
        let mut refusals = Vec::new(self.alloc);
        for change in 1..=self.changes {
            let cause = self.cause(change, known.as_slice())?;
            refusals.push(cause.map(|refusal| (refusal, 0)))?;
        }
        Ok(refusals)
    }

    /// Each change that has no refusal yet and waits for one that was refused in the round before is refused, round by
    /// round, until there is no such change.
    fn refusals(&self) -> Result<Vec<Option<(Refusal, usize)>>, NoMemory> {
        let mut refusals = self.first_refusals()?;
        for rank in 0..self.approved.len() {
            refusals = self.next_round(refusals.as_slice(), rank)?;
        }
        Ok(refusals)
    }

    /// Which changes were refused in the round of this rank.
    fn newest(
        &self,
        refusals: &[Option<(Refusal, usize)>],
        rank: usize,
    ) -> Result<Vec<bool>, NoMemory> {
        let mut newest = Vec::new(self.alloc);
        for refusal in refusals {
            newest.push(matches!(refusal, Some((_, of)) if *of == rank))?;
        }
        Ok(newest)
    }

    fn next_round(
        &self,
        refusals: &[Option<(Refusal, usize)>],
        rank: usize,
    ) -> Result<Vec<Option<(Refusal, usize)>>, NoMemory> {
        let newest = self.newest(refusals, rank)?;
        let mut next = Vec::new(self.alloc);
        for (change, refusal) in (1u32..).zip(refusals) {
            let waits = self.least(change, newest.as_slice(), true);
            let waiting = waits.map(|number| (Refusal::Dependency(number), rank.saturating_add(1)));
            next.push(refusal.or(waiting))?;
        }
        Ok(next)
    }

    /// The changes that a change waits for, over others, itself among them, by repeated relaxing.
    fn led_to(&self, change: u32) -> Result<Vec<u32>, NoMemory> {
        let mut led = Vec::new(self.alloc);
        led.push(change)?;
        for _ in 0..self.approved.len() {
            for (from, to) in &self.edges {
                if self.waits(*from, *to) && led.as_slice().contains(from) {
                    led.push(*to)?;
                }
            }
            led.sort_unstable();
            led.dedup();
        }
        Ok(led)
    }

    /// How many changes a change waits for, itself among them, the least of these that wait for it, and itself.
    fn rank(&self, change: u32) -> Result<(usize, u32, u32), NoMemory> {
        let led = self.led_to(change)?;
        let mut first = change;
        for other in &led {
            if self.led_to(*other)?.as_slice().contains(&change) {
                first = first.min(*other);
            }
        }
        Ok((led.len(), first, change))
    }

    /// The items of the changes that have no refusal, in the order of their ranks.
    fn ready(&self, refusals: &[Option<(Refusal, usize)>]) -> Result<Vec<Item>, NoMemory> {
        let mut ranks = Vec::new(self.alloc);
        for (change, refusal) in (1u32..).zip(refusals) {
            if refusal.is_none() {
                ranks.push(self.rank(change)?)?;
            }
        }
        ranks.sort_unstable();
        let mut ready = Vec::new(self.alloc);
        for (_, _, change) in &ranks {
            ready.push(Item {
                change: *change,
                set: 1,
            })?;
        }
        Ok(ready)
    }

    /// What a change needs.
    fn needs(&self, change: u32) -> Result<Vec<u32>, NoMemory> {
        let mut needs = Vec::new(self.alloc);
        for (from, to) in &self.edges {
            if *from == change {
                needs.push(*to)?;
            }
        }
        Ok(needs)
    }

    /// Adds a change's patch set to a review.
    fn add_patch_set(&self, review: &mut Review, change: u32) -> Result<(), Fail> {
        let needs = self.needs(change)?;
        review.patch_set(change, 1, needs.as_slice(), None)
    }

    /// Adds a change's operations to a review.
    fn add(&self, review: &mut Review, change: u32) -> Result<(), Fail> {
        self.add_patch_set(review, change)?;
        if listed(self.approved.as_slice(), change) == Some(true) {
            review.both(change)?;
        }
        if listed(self.merged.as_slice(), change) == Some(true) {
            review.take(Draft::Merged { change })?;
        }
        Ok(())
    }

    /// The operations of the case.
    fn review(&self) -> Result<Review, Fail> {
        let mut review = Review::new(self.alloc);
        for change in 1..=self.changes {
            self.add(&mut review, change)?;
        }
        Ok(review)
    }

    /// What the search says of the case.
    fn verdicts(&self) -> Result<Verdicts, Fail> {
        let review = self.review()?;
        review.verdicts(if self.cycles { CYCLES } else { GATE })
    }
}

/// The items of the changes that have a refusal.
fn out_of(alloc: Global, refusals: &[Option<(Refusal, usize)>]) -> Result<Vec<Left>, NoMemory> {
    let mut out = Vec::new(alloc);
    for (change, refusal) in (1u32..).zip(refusals) {
        if let Some((refusal, rank)) = *refusal {
            let item = Item { change, set: 1 };
            out.push(Left {
                item,
                refusal,
                rank,
            })?;
        }
    }
    Ok(out)
}

/// These items are ready in both programs, in the same order.
fn assert_ready(
    rt: &impl Abort,
    case: &Case,
    ready: &[Item],
    refusals: &[Option<(Refusal, usize)>],
) -> Result<(), Fail> {
    let wanted = case.ready(refusals)?;
    assert_eq!(rt; ready, wanted.as_slice());
    Ok(())
}

/// These items are left out in both programs.
fn assert_out(
    rt: &impl Abort,
    alloc: Global,
    out: &[Left],
    refusals: &[Option<(Refusal, usize)>],
) -> Result<(), Fail> {
    let wanted = out_of(alloc, refusals)?;
    assert_eq!(rt; out, wanted.as_slice());
    Ok(())
}

/// Both say the same of a case.
fn assert_plain(rt: &impl Abort, case: &Case) -> Result<(), Fail> {
    let verdicts = case.verdicts()?;
    let refusals = case.refusals()?;
    assert_ready(rt, case, verdicts.ready(), refusals.as_slice())?;
    assert_out(rt, case.alloc, verdicts.out(), refusals.as_slice())
}

/// The next binary digit of a number.
fn digit(number: &mut u32) -> bool {
    let odd = *number % 2 == 1;
    *number /= 2;
    odd
}

/// Lists of a change by digits whether it is approved, and what it needs.
fn list_numbered(case: &mut Case, digits: &mut u32, change: u32) -> Result<(), NoMemory> {
    case.approved.push(digit(digits))?;
    case.merged.push(false)?;
    for to in 1..=case.changes {
        if to != change && digit(digits) {
            case.edges.push((change, to))?;
        }
    }
    if digit(digits) {
        case.edges.push((change, 9))?;
    }
    Ok(())
}

/// The case whose edges, approvals and gate are the binary digits of a number. The changes may need each other and one
/// that isn't known.
fn numbered(alloc: Global, changes: u32, number: u32) -> Result<Case, NoMemory> {
    let mut digits = number;
    let mut case = Case::new(alloc, changes, digit(&mut digits));
    for change in 1..=changes {
        list_numbered(&mut case, &mut digits, change)?;
    }
    Ok(case)
}

fn assert_numbered(rt: &impl Abort, alloc: Global, changes: u32, cases: u32) -> Result<(), Fail> {
    for number in 0..cases {
        let case = numbered(alloc, changes, number)?;
        assert_plain(rt, &case)?;
    }
    Ok(())
}

#[test]
fn all_graphs_of_three_items_as_the_plain_program(rt: HostRuntime) -> Result<(), Fail> {
    assert_numbered(&rt, rt.alloc(), 1, 8)?;
    assert_numbered(&rt, rt.alloc(), 2, 128)?;
    assert_numbered(&rt, rt.alloc(), 3, 8192)
}

/// The next number of a fixed row of numbers, below a limit.
fn next_below(state: &mut u64, limit: u32) -> u32 {
    *state = state
        .wrapping_mul(6_364_136_223_846_793_005)
        .wrapping_add(1_442_695_040_888_963_407);
    ((*state >> 33) as u32).checked_rem(limit).unwrap_or(0)
}

/// Lists of each change whether it is approved, and whether it is merged.
fn list_some(case: &mut Case, state: &mut u64) -> Result<(), NoMemory> {
    for _ in 0..case.changes {
        case.approved.push(next_below(state, 4) != 0)?;
        case.merged.push(next_below(state, 8) == 0)?;
    }
    Ok(())
}

/// Lists some of what the changes need.
fn list_some_edges(case: &mut Case, state: &mut u64) -> Result<(), NoMemory> {
    for _ in 0..next_below(state, 14) {
        let from = next_below(state, case.changes).saturating_add(1);
        let to = next_below(state, 9).saturating_add(1);
        case.edges.push((from, to))?;
    }
    Ok(())
}

/// A case of up to eight changes, of which some are merged, some are not approved, and some need one that isn't known.
fn some_case(alloc: Global, state: &mut u64) -> Result<Case, NoMemory> {
    let changes = next_below(state, 9);
    let cycles = next_below(state, 2) == 0;
    let mut case = Case::new(alloc, changes, cycles);
    list_some(&mut case, state)?;
    list_some_edges(&mut case, state)?;
    Ok(case)
}

fn assert_some_case(rt: &impl Abort, alloc: Global, state: &mut u64) -> Result<(), Fail> {
    let case = some_case(alloc, state)?;
    assert_plain(rt, &case)
}

#[test]
fn four_hundred_graphs_as_the_plain_program(rt: HostRuntime) -> Result<(), Fail> {
    let mut state = 3;
    for _ in 0..400 {
        assert_some_case(&rt, rt.alloc(), &mut state)?;
    }
    Ok(())
}
