//! The plan of a feed's queries.

ghost use Rattle.std.specs.Prelude.{◌≡◌};
ghost use Rattle.query_plan.specs.Plan.{IsNewPlan, marks_at};

use super::marks::Marks;
use super::schedule::{Schedule, Settings};
use std::alloc::Global;
use std::collections::{BTreeMap, BTreeSet};

/// Which changes wait to be queried, what is kept of each change, and when what is due.
#[derive(Drop)]
pub struct Plan {
    /// The changes that wait, in the order in which they were asked for.
    pub waiting: Vec<u32>,
    /// What is kept of changes; of one that isn't there nothing is.
    pub marks: BTreeMap<u32, Marks>,
    /// The changes that the query of changes named that is under way.
    pub named: Vec<u32>,
    /// The changes that its answer listed until now.
    pub listed: BTreeSet<u32>,
    pub schedule: Schedule,
}

impl Plan {
    /// Nothing waits, and all changes are due.
    pub fn new(alloc: Global, settings: Settings) -> Plan
        ensures { IsNewPlan settings result }
    {
        Plan {
            waiting: Vec::new(alloc),
            marks: BTreeMap::new(alloc),
            named: Vec::new(alloc),
            listed: BTreeSet::new(alloc),
            schedule: Schedule::new(settings),
        }
    }

    /// What is kept of a change.
    pub fn marks_of(&self, change: u32) -> Marks
        ensures { result ≡ marks_at self.now.marks change }
    {
        kept_of(&self.marks, change)
    }
}

/// What is kept of a change.
pub fn kept_of(marks: &BTreeMap<u32, Marks>, change: u32) -> Marks
    ensures { result ≡ marks_at marks.now change }
{
    match marks.get(&change) {
        Some(kept) => *kept,
        None => Marks::none(),
    }
}
