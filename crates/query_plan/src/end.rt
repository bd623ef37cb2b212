//! How queries end.

ghost use Rattle.std.specs.Prelude.{◌≡◌, ℕ, IfOk, OnOk, not, ◌==◌, ◌&&◌, if◌then◌else◌};
ghost use Rattle.std.specs.List.{filter};
ghost use Rattle.std.specs.Ordering.{nat_cmp};
ghost use Rattle.std.specs.BTreeSet.{contains};
ghost use Rattle.query_plan.specs.Ending.{AreChangesRefused, ChangesFail, EndsBadly, EndsWell, HasSameQuery, IsPaused};
ghost use Rattle.query_plan.specs.Ending.{IsChangeRefused, KeepsBut, Lists, given_up, stays};
ghost use Rattle.query_plan.specs.Marks.{as_listed, as_unlisted};
ghost use Rattle.query_plan.specs.Plan.{is_on_list, marks_at};
ghost use Rattle.query_plan.specs.Schedule.{brought_forward};

use super::marks::Marks;
use super::notice::Notice;
use super::plan::{Plan, kept_of};
use super::schedule::{Failure, Query};
use lattice_core::NoMemory;
use std::alloc::Global;
use std::collections::{BTreeMap, BTreeSet};
use std::mem;

/// The seconds for which a change rests that was queried in vain.
const IN_VAIN: u64 = 3600;

/// How often the query of a known change alone is repeated.
const REPEATS: u8 = 2;

impl Plan {
    /// The answer to the query under way lists a change. Refusal: memory was refused; the plan is no use from then on.
    /// It costs O(log n) for n changes that were listed.
    pub fn list(&mut self, change: u32) -> Result<(), NoMemory>
        ensures { OnOk result (Lists change self.old self.new) }
    {
        self.listed.insert(change)?;
        Ok(())
    }

    /// The answer to the query under way was whole: the changes that it listed, and those that the query named, don't
    /// wait any more. Those that were listed don't rest; those that were named and not listed rest for an hour. Those
    /// that a query of all changes listed are known. Refusal: memory was refused; the plan may have changed in part, and
    /// is no use from then on. It costs O(n log m) for n changes that wait, were named or were listed, and m of which
    /// something is kept.
    pub fn end_well(&mut self, alloc: Global, now: u64) -> Result<(), NoMemory>
        ensures { OnOk result (EndsWell now self.old self.new) }
    {
        let is_all = self.schedule.query == Query::All;
        mark_listed(&mut self.marks, &self.listed, is_all)?;
        let until = now.saturating_add(IN_VAIN);
        mark_unlisted(&mut self.marks, self.named.as_slice(), &self.listed, until)?;
        self.waiting = staying(
            alloc,
            self.waiting.as_slice(),
            self.named.as_slice(),
            &self.listed,
        )?;
        self.named = Vec::new(alloc);
        self.listed = BTreeSet::new(alloc);
        self.schedule = if is_all {
            self.schedule.whole_all(now)
        } else {
            self.schedule.whole_changes()
        };
        Ok(())
    }

    /// The query under way failed; what becomes of it is returned. The query of all changes is made again after a pause.
    /// The changes that were named wait on. One that was named alone rests, unless no answer came, or it is known and its
    /// query wasn't repeated twice: for an hour if Gerrit took too long and answered another query since it did last,
    /// else until the next query of all changes. If it is known, that comes within a minute, and the change rests for an
    /// hour or until its next event; else it waits no more. Refusal: memory was refused; the plan may have changed in
    /// part, and is no use from then on. It costs O(log m) for m changes of which something is kept, and O(n) for n that
    /// wait.
    pub fn end_badly(
        &mut self,
        alloc: Global,
        now: u64,
        failure: Failure,
    ) -> Result<Notice, NoMemory>
        ensures { IfOk result (λ notice. EndsBadly now failure self.old notice self.new) }
    {
        let named = mem::replace(&mut self.named, Vec::new(alloc));
        self.listed = BTreeSet::new(alloc);
        match self.schedule.query {
            Query::All => Ok(self.pause(now)),
            Query::Nothing | Query::Changes => {
                self.fail_changes(alloc, now, named.as_slice(), failure)
            }
        }
    }

    /// The query of all changes is made again after a pause.
    fn pause(&mut self, now: u64) -> Notice
        ensures paused { IsPaused now self.old result self.new }
        ensures same { (self.new.named ≡ self.old.named) × (self.new.listed ≡ self.old.listed) }
    {
        let notice = Notice::Paused(self.schedule.all_pause);
        self.schedule = self.schedule.paused_all(now);
        notice
    }

    /// What becomes of the changes that were named.
    fn fail_changes(
        &mut self,
        alloc: Global,
        now: u64,
        named: &[u32],
        failure: Failure,
    ) -> Result<Notice, NoMemory>
        ensures { IfOk result (λ notice. ChangesFail now failure named.now self.old notice self.new
            × HasSameQuery self.old self.new) }
    {
        match failure {
            Failure::Lost => {
                self.schedule = self.schedule.lost_changes(now);
                Ok(Notice::Repeated(named.len()))
            }
            Failure::Refused => self.refuse_changes(alloc, now, named, false),
            Failure::Late => self.refuse_changes(alloc, now, named, true),
        }
    }

    /// What becomes of the changes that were named, because Gerrit took too long for them or refused them.
    fn refuse_changes(
        &mut self,
        alloc: Global,
        now: u64,
        named: &[u32],
        is_late: bool,
    ) -> Result<Notice, NoMemory>
        ensures { IfOk result (λ notice. AreChangesRefused now is_late named.now self.old notice self.new
            × HasSameQuery self.old self.new) }
    {
        let [change] = named else {
            self.schedule = self.schedule.refused_changes(now, named.len(), is_late);
            return Ok(Notice::Halved(named.len()));
        };
        self.refuse_one(alloc, now, *change, is_late)
    }

    /// What becomes of a change that was named alone.
    fn refuse_one(
        &mut self,
        alloc: Global,
        now: u64,
        change: u32,
        is_late: bool,
    ) -> Result<Notice, NoMemory>
        ensures { IfOk result (λ notice. IsChangeRefused now change is_late self.old notice self.new
            × HasSameQuery self.old self.new) }
    {
        let is_slow = is_late && self.schedule.is_well;
        let marks = self.marks_of(change);
        self.schedule = self.schedule.refused_changes(now, 1, is_late);
        if marks.is_known && marks.repeats < REPEATS {
            self.marks.insert(change, marks.repeated())?;
            return Ok(Notice::Repeated(1));
        }
        self.give_up(alloc, now, change, marks, is_slow)?;
        Ok(if is_slow {
            Notice::Slow(change)
        } else {
            Notice::Failed(change)
        })
    }

    /// Lets a change rest whose own query failed.
    fn give_up(
        &mut self,
        alloc: Global,
        now: u64,
        change: u32,
        marks: Marks,
        is_slow: bool,
    ) -> Result<(), NoMemory>
        requires { marks ≡ marks_at self.old.marks change }
        ensures waits { OnOk result (self.new.waiting.items ≡ (if marks.is_known then self.old.waiting.items
            else filter (λ other. not (other == change)) self.old.waiting.items)) }
        ensures kept { OnOk result
            (KeepsBut change (given_up is_slow now self.old.schedule.round marks) self.old self.new) }
        ensures planned { OnOk result (self.new.schedule
            ≡ (if marks.is_known then brought_forward now self.old.schedule else self.old.schedule)) }
        ensures same { HasSameQuery self.old self.new }
    {
        let until = now.saturating_add(IN_VAIN);
        let resting = if is_slow {
            marks.slow(until)
        } else {
            marks.failed(self.schedule.round, until)
        };
        self.marks.insert(change, resting)?;
        if marks.is_known {
            self.schedule = self.schedule.brought_forward(now);
        } else {
            self.waiting = without(alloc, self.waiting.as_slice(), change)?;
        }
        Ok(())
    }
}

/// Marks the changes that a whole answer listed.
fn mark_listed(
    marks: &mut BTreeMap<u32, Marks>,
    listed: &BTreeSet<u32>,
    is_all: bool,
) -> Result<(), NoMemory>
    ensures { OnOk result ((change : ℕ) → marks_at marks.new change
        ≡ (if contains nat_cmp listed.now change then as_listed is_all (marks_at marks.old change)
        else marks_at marks.old change)) }
{
    for change in listed {
        mark_one_listed(marks, *change, is_all)?;
    }
    Ok(())
}

/// Marks a change that a whole answer listed.
fn mark_one_listed(
    marks: &mut BTreeMap<u32, Marks>,
    change: u32,
    is_all: bool,
) -> Result<(), NoMemory>
    ensures { OnOk result ((other : ℕ) → marks_at marks.new other
        ≡ (if other == change then as_listed is_all (marks_at marks.old other) else marks_at marks.old other)) }
{
    let kept = kept_of(marks, change);
    marks.insert(change, kept.listed(is_all))?;
    Ok(())
}

/// Marks the changes that a query named and its whole answer didn't list.
fn mark_unlisted(
    marks: &mut BTreeMap<u32, Marks>,
    named: &[u32],
    listed: &BTreeSet<u32>,
    until: u64,
) -> Result<(), NoMemory>
    ensures { OnOk result ((change : ℕ) → marks_at marks.new change
        ≡ (if is_on_list named.now change && not (contains nat_cmp listed.now change)
        then as_unlisted until (marks_at marks.old change) else marks_at marks.old change)) }
{
    for change in named {
        mark_one_unlisted(marks, *change, listed, until)?;
    }
    Ok(())
}

/// Marks a change that a query named, unless its whole answer listed it.
fn mark_one_unlisted(
    marks: &mut BTreeMap<u32, Marks>,
    change: u32,
    listed: &BTreeSet<u32>,
    until: u64,
) -> Result<(), NoMemory>
    ensures { OnOk result ((other : ℕ) → marks_at marks.new other
        ≡ (if (other == change) && not (contains nat_cmp listed.now other)
        then as_unlisted until (marks_at marks.old other) else marks_at marks.old other)) }
{
    if listed.contains(&change) {
        return Ok(());
    }
    let kept = kept_of(marks, change);
    marks.insert(change, kept.unlisted(until))?;
    Ok(())
}

/// The changes that wait on after a whole answer.
fn staying(
    alloc: Global,
    waiting: &[u32],
    named: &[u32],
    listed: &BTreeSet<u32>,
) -> Result<Vec<u32>, NoMemory>
    ensures { IfOk result (λ staying. staying.items ≡ filter (stays named.now listed.now) waiting.now) }
{
    let mut staying = Vec::new(alloc);
    for change in waiting {
        if !named.contains(change) && !listed.contains(change) {
            staying.push(*change)?;
        }
    }
    Ok(staying)
}

/// The changes of a list without one.
fn without(alloc: Global, waiting: &[u32], gone: u32) -> Result<Vec<u32>, NoMemory>
    ensures { IfOk result (λ staying. staying.items ≡ filter (λ other. not (other == gone)) waiting.now) }
{
    let mut staying = Vec::new(alloc);
    for change in waiting {
        if *change != gone {
            staying.push(*change)?;
        }
    }
    Ok(staying)
}
