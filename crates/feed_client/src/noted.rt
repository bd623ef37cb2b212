//! Which changes an answer lists.

ghost use Rattle.std.specs.Prelude.{◌≡◌, OnOk};
ghost use Rattle.feed_client.specs.Listing.{IsUnnoted, Notes};

use gerrit_events::Part;
use lattice_core::NoMemory;
use std::alloc::Global;
use std::collections::BTreeSet;

/// The changes in the rows of an answer so far, whether every line could be read, and the number of the last line.
#[derive(Drop)]
pub struct Noted {
    pub changes: BTreeSet<u32>,
    pub is_sure: bool,
    pub last: u64,
}

impl Noted {
    /// Nothing is noted yet.
    pub fn new(alloc: Global) -> Noted
        ensures { IsUnnoted result }
    {
        Noted {
            changes: BTreeSet::new(alloc),
            is_sure: true,
            last: 0,
        }
    }

    /// Notes what the line of this number lists.
    pub fn note(&mut self, number: u64, part: Part) -> Result<(), NoMemory>
        ensures { OnOk result (Notes number part self.old self.new) }
    {
        self.last = number;
        match part {
            Part::Row(Some(change)) => {
                self.changes.insert(change)?;
            }
            Part::Row(None) | Part::Nothing => self.is_sure = false,
            Part::Event(_) | Part::Stats { .. } | Part::Error => {}
        }
        Ok(())
    }
}
