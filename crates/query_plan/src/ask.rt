//! What feeds ask for.

ghost use Rattle.std.specs.Prelude.{◌≡◌, OnOk};
ghost use Rattle.query_plan.specs.Plan.{IsAskedFor, WantsAll, marks_asked};

use super::marks::Marks;
use super::plan::Plan;
use lattice_core::NoMemory;

/// The greatest number of a change that Gerrit takes.
pub const GREATEST: u32 = 2_147_483_647;

impl Plan {
    /// A feed asks for a change at this time: because it read an event of it, or because another change needs it. One
    /// that had an event is there, and no longer rests because an answer didn't list it. Unless it rests, or waits
    /// already, it waits from now on, behind all others. A number above 2147483647, which no change of Gerrit's has,
    /// changes nothing. Refusal: memory was refused; the plan may have changed in part, and is no use from then on. It
    /// costs O(log m), for m changes of which something is kept.
    pub fn ask(&mut self, now: u64, change: u32, is_event: bool) -> Result<(), NoMemory>
        ensures { OnOk result (IsAskedFor now change is_event self.old self.new) }
    {
        if change > GREATEST {
            return Ok(());
        }
        let marks = asked(self.marks_of(change), is_event);
        if marks.rests(now, self.schedule.round) || marks.waits {
            self.marks.insert(change, marks)?;
            return Ok(());
        }
        if self.waiting.is_empty() {
            self.schedule = self.schedule.gathered(now);
        }
        self.marks.insert(change, marks.waiting())?;
        self.waiting.push(change)?;
        Ok(())
    }

    /// All changes are to be queried at once, also if they are being queried.
    pub fn want_all(&mut self)
        ensures { WantsAll self.old self.new }
    {
        self.schedule.all_due = 0;
    }
}

/// What is kept of a change that is asked for.
fn asked(marks: Marks, is_event: bool) -> Marks
    ensures { result ≡ marks_asked is_event marks }
{
    if is_event { marks.with_event() } else { marks }
}
