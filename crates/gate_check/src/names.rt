//! The labels and the voters of a record.

ghost use Rattle.std.specs.Prelude.{◌≡◌, OnOk, IfOk, map, string_bytes};
ghost use Rattle.std.specs.BTreeSet.{insert_key};
ghost use Rattle.std.specs.Cmp.Lexicographic.{slice_cmp};
ghost use Rattle.std.specs.FinMap as finite;
ghost use Rattle.std.specs.Ordering.{nat_cmp};
ghost use Rattle.change_core.specs.Parts.{votes_shown};
ghost use Rattle.state_core.specs.State.{state_shown};
ghost use Rattle.gate_check.specs.Names.{has_known, known_labels, names_in, voters_of, with_each};
ghost use Rattle.gate_check.specs.Shown.{names_shown};

use change_core::VoteSlot;
use chunk_list::JoinList;
use lattice_core::{JoinMap, NoMemory, Register};
use review_ops::Stamp;
use state_core::{SharedChange, State};
use std::alloc::Global;
use std::collections::BTreeSet;

/// The labels and the voters of a record: those that some vote has, be it withdrawn or not.
#[derive(Drop)]
pub struct Names {
    labels: BTreeSet<String>,
    voters: BTreeSet<String>,
}

impl Names {
    /// Those of a state. It costs O(v log n) for v votes and n labels and voters.
    pub fn of(alloc: Global, state: &State) -> Result<Names, NoMemory>
        ensures { IfOk result (λ names. names_shown names ≡ names_in state.now) }
    {
        Names::of_changes(alloc, state.changes())
    }

    /// Those of changes.
    fn of_changes(
        alloc: Global,
        changes: &JoinMap<u32, SharedChange, Global>,
    ) -> Result<Names, NoMemory>
        ensures { IfOk result (λ names. names_shown names ≡ names_in (state_shown changes.now)) }
    {
        let mut names = Names {
            labels: BTreeSet::new(alloc),
            voters: BTreeSet::new(alloc),
        };
        for (number, change) in changes {
            let _of = number;
            names.add_votes(alloc, change.get().all_votes())?;
        }
        Ok(names)
    }

    /// Adds those of votes.
    fn add_votes(
        &mut self,
        alloc: Global,
        votes: &JoinList<VoteSlot, Register<Stamp, i8>>,
    ) -> Result<(), NoMemory>
        ensures labels { OnOk result ((names_shown self.new).labels ≡ with_each (names_shown self.old).labels
            (known_labels (map (λ register. register.0) (finite.entries (votes_shown votes.now))))) }
        ensures voters { OnOk result ((names_shown self.new).voters ≡ with_each (names_shown self.old).voters
            (voters_of (map (λ register. register.0) (finite.entries (votes_shown votes.now))))) }
    {
        for (slot, register) in votes {
            let _value = register;
            add(alloc, &mut self.labels, slot.label.as_str())?;
            add(alloc, &mut self.voters, slot.voter.as_str())?;
        }
        Ok(())
    }

    /// The labels.
    pub fn labels(&self) -> &BTreeSet<String>
        ensures { map string_bytes result.now.keys ≡ (names_shown self.now).labels }
    {
        &self.labels
    }

    /// The voters.
    pub fn voters(&self) -> &BTreeSet<String>
        ensures { map string_bytes result.now.keys ≡ (names_shown self.now).voters }
    {
        &self.voters
    }
}

/// Adds a text to a set.
pub fn add(alloc: Global, texts: &mut BTreeSet<String>, text: &str) -> Result<(), NoMemory>
    ensures { OnOk result (map string_bytes texts.new.keys
        ≡ insert_key (slice_cmp nat_cmp) (map string_bytes texts.old.keys) text.now) }
{
    texts.insert(String::from_str(alloc, text)?)?;
    Ok(())
}

/// Whether a text is in a set.
pub fn has(texts: &BTreeSet<String>, text: &str) -> bool
    ensures { result ≡ has_known (map string_bytes texts.now.keys) text.now }
{
    texts.contains(text)
}
