//! The verdicts on the items of a state.

ghost use Rattle.std.specs.Prelude.{◌≡◌, ◌≤◌, length, map};
ghost use Rattle.ready_core.specs.ItemRanks.{to_rank};
ghost use Rattle.ready_core.specs.Words.{refusal_word};

use super::ranked::{ItemRank, Ranked};
use gate_rules::Condition;
use state_core::Item;
use std::marker::Model;

/// Why an item is left out.
#[derive(Clone, Copy, Debug, PartialEq, Eq)]
pub enum Refusal {
    /// It breaks this condition of its own.
    Own(Condition),
    /// It is on a cycle, and the gate allows none.
    Cycle,
    /// It waits for this change, of which no patch set is known.
    Unknown(u32),
    /// It waits for this change, whose current item is left out, too.
    Dependency(u32),
}

impl Refusal {
    /// The first word of the refusal in a report; that of an own condition is its side's.
    pub fn word(self) -> &'static str
        ensures word { result.now ≡ refusal_word self }
        ensures short { length result.now ≤ 10 }
    {
        match self {
            Refusal::Own(condition) => condition.side.name(),
            Refusal::Cycle => "cycle",
            Refusal::Unknown(_) => "unknown",
            Refusal::Dependency(_) => "dependency",
        }
    }
}

/// An item that is left out.
#[derive(Clone, Copy, Debug, PartialEq, Eq)]
pub struct Left {
    pub item: Item,
    pub refusal: Refusal,
    /// How many items are between this one and what is wrong: 0 where the item itself isn't eligible, and one more than
    /// that of the change that a `Dependency` names.
    pub rank: usize,
}

/// What evaluating a state gives. Contracts see the two lists.
#[derive(Debug, Drop)]
pub struct Verdicts {
    ready: Vec<Item>,
    out: Vec<Left>,
}

impl Model for Verdicts {
    ghost use Rattle.ready_core.specs.Verdicts.{Judged};

    ghost Value = { Judged };

    ghost view = { λ verdicts. record { ready = verdicts.ready.items; out = verdicts.out.items } };
}

impl Verdicts {
    /// The verdicts of these lists.
    pub fn new(ready: Vec<Item>, out: Vec<Left>) -> Verdicts
        ensures { result ≡ record { ready = ready.items; out = out.items } }
    {
        Verdicts { ready, out }
    }

    /// The verdicts with these ranks in place of the ready items.
    pub(crate) fn with_ranks(self, ranks: Vec<ItemRank>) -> Ranked
        ensures { result ≡ record { ranks = map to_rank ranks.items; out = self.out } }
    {
        Ranked::new(ranks, self.out)
    }

    /// The ready items and the others, as `ready` and `out` have them.
    pub fn into_lists(self) -> (Vec<Item>, Vec<Left>)
        ensures ready { result.0.items ≡ self.ready }
        ensures out { result.1.items ≡ self.out }
    {
        (self.ready, self.out)
    }

    /// The items that are ready, in gate order: each after what it waits for, but for its cycle. Takes no memory, as
    /// `out`.
    pub fn ready(&self) -> &[Item]
        ensures { result.now ≡ self.now.ready }
    {
        &self.ready
    }

    /// The other items, by change and patch set, each with its refusal and its rank.
    pub fn out(&self) -> &[Left]
        ensures { result.now ≡ self.now.out }
    {
        &self.out
    }
}
