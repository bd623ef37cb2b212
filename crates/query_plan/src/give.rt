//! The query that is given next.

ghost use Rattle.std.specs.Prelude.{◌≡◌, ◌≤◌, ◌<◌, ◌/◌, IfOk, None, OnErr, if◌then◌else◌, nat_lt};
ghost use Rattle.std.specs.List.{filter};
ghost use Rattle.query_plan.specs.Giving.{BeginsTurn, GivesQuery, GoesOnWithTurn, HasSame, picked, portion_of};
ghost use Rattle.query_plan.specs.Plan.{is_awake_by, is_known_by};

use super::marks::Marks;
use super::plan::{Plan, kept_of};
use super::schedule::{PORTION, Query};
use lattice_core::NoMemory;
use std::alloc::Global;
use std::collections::BTreeMap;

impl Plan {
    /// The query that is given at this time. Between two turns that is the one of all changes if it is due, else one of
    /// changes if some wait and are due, else none. Within a turn it is one of changes, as long as some wait that don't
    /// rest and the turn may query more; then the turn ends with none. The changes that it names are `named`, and none of
    /// them rests: those that are known alone if one of them waits, else the others; all of them that the turn may query;
    /// where there are more, the first ones, and in a turn that may query 50 in all as many of the last ones. They wait
    /// until the query's end. Refusal: memory was refused, and nothing changed. It costs O(n log m), for n changes that
    /// wait and m of which something is kept.
    pub fn next(&mut self, alloc: Global, now: u64) -> Result<Query, NoMemory>
        ensures gives { IfOk result (λ given. GivesQuery now self.old given self.new) }
        ensures refused { OnErr result (self.new ≡ self.old) }
    {
        match self.schedule.left {
            Some(left) => self.go_on(alloc, now, left),
            None => self.begin(alloc, now),
        }
    }

    /// Begins a turn, if something is due.
    fn begin(&mut self, alloc: Global, now: u64) -> Result<Query, NoMemory>
        ensures gives { IfOk result (λ given. BeginsTurn now self.old given self.new × HasSame self.old self.new) }
        ensures refused { OnErr result (self.new ≡ self.old) }
    {
        if self.schedule.all_due <= now {
            self.schedule = self.schedule.given_all(now);
            return Ok(Query::All);
        }
        if self.waiting.is_empty() || now < self.schedule.waiting_due {
            return Ok(Query::Nothing);
        }
        self.go_on(alloc, now, self.schedule.most)
    }

    /// Goes on with a turn that may query this many changes, or ends it.
    fn go_on(&mut self, alloc: Global, now: u64, left: usize) -> Result<Query, NoMemory>
        ensures gives { IfOk result
            (λ given. GoesOnWithTurn now left self.old given self.new × HasSame self.old self.new) }
        ensures refused { OnErr result (self.new ≡ self.old) }
    {
        let round = self.schedule.round;
        let awake = awake_among(alloc, self.waiting.as_slice(), &self.marks, now, round)?;
        if left == 0 || awake.is_empty() {
            self.schedule = self.schedule.turn_ended(now);
            return Ok(Query::Nothing);
        }
        let named = self.portion(alloc, awake.as_slice(), left)?;
        self.schedule = self.schedule.given_changes(left, named.len());
        self.named = named;
        Ok(Query::Changes)
    }

    /// The changes of a list to be named by a query of so many at most.
    fn portion(&self, alloc: Global, awake: &[u32], left: usize) -> Result<Vec<u32>, NoMemory>
        ensures { IfOk result (λ named. named.items ≡ portion_of left self.now awake.now) }
    {
        let known = known_among(alloc, awake, &self.marks)?;
        let last = last_ones(self.schedule.most, left);
        if known.is_empty() {
            return picked(alloc, awake, left, last);
        }
        picked(alloc, known.as_slice(), left, last)
    }
}

/// The changes of a list that don't rest at this time, in this round, in its order.
fn awake_among(
    alloc: Global,
    changes: &[u32],
    marks: &BTreeMap<u32, Marks>,
    now: u64,
    round: u64,
) -> Result<Vec<u32>, NoMemory>
    ensures { IfOk result (λ awake. awake.items ≡ filter (is_awake_by now round marks.now) changes.now) }
{
    let mut awake = Vec::new(alloc);
    for change in changes {
        if is_awake(marks, *change, now, round) {
            awake.push(*change)?;
        }
    }
    Ok(awake)
}

/// Whether a change doesn't rest.
fn is_awake(marks: &BTreeMap<u32, Marks>, change: u32, now: u64, round: u64) -> bool
    ensures { result ≡ is_awake_by now round marks.now change }
{
    !kept_of(marks, change).rests(now, round)
}

/// How many of so many changes are the last ones that wait.
fn last_ones(most: usize, left: usize) -> usize
    ensures share { result ≡ (if nat_lt most 50 then 0 else left / 2) }
    ensures within { result ≤ left }
{
    if most < PORTION { 0 } else { left / 2 }
}

/// The changes of a list that are known, in its order.
fn known_among(
    alloc: Global,
    changes: &[u32],
    marks: &BTreeMap<u32, Marks>,
) -> Result<Vec<u32>, NoMemory>
    ensures { IfOk result (λ known. known.items ≡ filter (is_known_by marks.now) changes.now) }
{
    let mut known = Vec::new(alloc);
    for change in changes {
        if is_known(marks, *change) {
            known.push(*change)?;
        }
    }
    Ok(known)
}

/// Whether a change is known.
fn is_known(marks: &BTreeMap<u32, Marks>, change: u32) -> bool
    ensures { result ≡ is_known_by marks.now change }
{
    kept_of(marks, change).is_known
}

/// All changes of a list that has at most so many, else its first ones and so many of its last ones, so many in all.
fn picked(alloc: Global, changes: &[u32], most: usize, last: usize) -> Result<Vec<u32>, NoMemory>
    requires { last ≤ most }
    ensures { IfOk result (λ chosen. chosen.items ≡ picked changes.now most last) }
{
    if changes.len() <= most {
        return Ok(Vec::from_slice(alloc, changes)?);
    }
    let mut picked = Vec::from_slice(alloc, &changes[..most - last])?;
    picked.extend_from_slice(&changes[changes.len() - last..])?;
    Ok(picked)
}
