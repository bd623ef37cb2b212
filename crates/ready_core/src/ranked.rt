//! Verdicts with what each ready item is ordered by.

ghost use Rattle.std.specs.Prelude.{◌≡◌, IfOk, map};
ghost use Rattle.ready_core.specs.ItemRanks.{to_rank};
ghost use Rattle.ready_core.specs.RankedVerdicts.{judged};

use super::verdicts::{Left, Verdicts};
use lattice_core::NoMemory;
use state_core::Item;
use std::alloc::Global;
use std::marker::Model;

/// What ready items are ordered by, in this order.
#[derive(Clone, Copy, Debug, PartialEq, Eq)]
pub struct ItemRank {
    /// How many ready items the item waits for, over others, itself among them.
    pub count: usize,
    /// The first item of its cycle, or the item itself where it is on none.
    pub first: Item,
    /// The item.
    pub node: Item,
}

/// Verdicts with what each ready item is ordered by. Contracts see the ranks of the ready items, in gate order, and the
/// items that are left out.
#[derive(Debug, Drop)]
pub struct Ranked {
    ranks: Vec<ItemRank>,
    out: Vec<Left>,
}

impl Model for Ranked {
    ghost use Rattle.std.specs.Prelude.{map};
    ghost use Rattle.ready_core.specs.ItemRanks.{to_rank};
    ghost use Rattle.ready_core.specs.RankedVerdicts.{RankedVerdicts};

    ghost Value = { RankedVerdicts };

    ghost view = { λ ranked. record { ranks = map to_rank ranked.ranks.items; out = ranked.out.items } };
}

impl Ranked {
    /// Verdicts of ready items with their ranks, and of those that are left out.
    pub(crate) fn new(ranks: Vec<ItemRank>, out: Vec<Left>) -> Ranked
        ensures { result ≡ record { ranks = map to_rank ranks.items; out = out.items } }
    {
        Ranked { ranks, out }
    }

    /// The ranks and the items that are left out.
    pub fn into_lists(self) -> (Vec<ItemRank>, Vec<Left>)
        ensures ranks { map to_rank result.0.items ≡ self.ranks }
        ensures out { result.1.items ≡ self.out }
    {
        (self.ranks, self.out)
    }

    /// The verdicts alone.
    pub fn into_verdicts(self, alloc: Global) -> Result<Verdicts, NoMemory>
        ensures { IfOk result (λ verdicts. verdicts ≡ judged self) }
    {
        let ready = items_of(alloc, self.ranks.as_slice())?;
        Ok(Verdicts::new(ready, self.out))
    }
}

/// The items of some ranks.
pub fn items_of(alloc: Global, ranks: &[ItemRank]) -> Result<Vec<Item>, NoMemory>
    ensures { IfOk result (λ items. items.items ≡ map (λ rank. rank.node) ranks.now) }
{
    let items = ranks.iter().map(|rank| rank.node).collect(alloc)?;
    Ok(items)
}
