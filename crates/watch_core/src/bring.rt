//! Verdicts of which those of some items are found anew.

ghost use Rattle.std.specs.Prelude.{◌≡◌, IfOk, OnOk, [], map};
ghost use Rattle.std.specs.List.Sorted.{IsStrictlySortedBy};
ghost use Rattle.walk_core.specs.Ranks.{rank_cmp};
ghost use Rattle.state_core.specs.Items.{item_cmp};
ghost use Rattle.ready_core.specs.Verdicts.{items_out};
ghost use Rattle.ready_core.specs.ItemRanks.{to_rank};
ghost use Rattle.watch_core.specs.BroughtUp.{IsBroughtUp};
ghost use Rattle.watch_core.specs.Namers.{is_again};
ghost use Rattle.watch_core.specs.Placed.{AreLists, FindsAgain, HasNew, IsFoundAgain, IsOneEach, StandOnce, left_item};
ghost use Rattle.watch_core.specs.Placed.{node_of};

use super::puts::{put_left, put_ready};
use super::reach::Reach;
use lattice_core::NoMemory;
use ready_core::{ItemRank, Left, Ranked, Verdicts, items_of};
use state_core::Item;
use std::alloc::Global;
use std::collections::BTreeSet;

/// Puts what is found of the items that are judged again in the place of what was kept of them. For each, of n items in
/// all, it costs O(log n), what an insertion and a removal move, and, where it was ready, O(n) to look through the
/// ready items. Where all items are judged again, what was found is taken whole.
pub fn put_in_place(
    alloc: Global,
    reach: &Reach,
    touched: &BTreeSet<u32>,
    kept: Verdicts,
    ranks: &mut Vec<ItemRank>,
    found: Ranked,
) -> Result<Verdicts, NoMemory>
    requires lists { AreLists kept.ready ranks.old.items kept.out }
    requires once { StandOnce found }
    requires rising { IsStrictlySortedBy (rank_cmp item_cmp) found.ranks }
    requires out_in_order { IsStrictlySortedBy item_cmp (items_out found.out) }
    requires finds { FindsAgain (is_again touched.now reach.now.all reach.now.items)
        (record { ranks = map to_rank ranks.old.items; out = kept.out }) found }
    ensures lists { IfOk result (λ verdicts. AreLists verdicts.ready ranks.new.items verdicts.out) }
    ensures up { IfOk result (λ verdicts. IsBroughtUp (is_again touched.now reach.now.all reach.now.items)
        (record { ranks = map to_rank ranks.old.items; out = kept.out }) found
        (record { ranks = map to_rank ranks.new.items; out = verdicts.out })) }
{
    if reach.all {
        return taken_whole(alloc, ranks, found);
    }
    let (mut ready, mut out) = kept.into_lists();
    let (new_ranks, new_out) = found.into_lists();
    put_all_ready(
        reach,
        touched,
        &mut ready,
        ranks,
        &mut out,
        new_ranks.as_slice(),
    )?;
    put_all_left(
        reach,
        touched,
        &mut ready,
        ranks,
        &mut out,
        new_out.as_slice(),
    )?;
    Ok(Verdicts::new(ready, out))
}

/// What was found of all items.
fn taken_whole(
    alloc: Global,
    ranks: &mut Vec<ItemRank>,
    found: Ranked,
) -> Result<Verdicts, NoMemory>
    requires once { StandOnce found }
    requires rising { IsStrictlySortedBy (rank_cmp item_cmp) found.ranks }
    requires out_in_order { IsStrictlySortedBy item_cmp (items_out found.out) }
    ensures lists { IfOk result (λ verdicts. AreLists verdicts.ready ranks.new.items verdicts.out) }
    ensures ranks { OnOk result (map to_rank ranks.new.items ≡ found.ranks) }
    ensures out { IfOk result (λ verdicts. verdicts.out ≡ found.out) }
{
    let (new_ranks, out) = found.into_lists();
    let ready = items_of(alloc, new_ranks.as_slice())?;
    *ranks = new_ranks;
    Ok(Verdicts::new(ready, out))
}

/// Puts the items that are judged again and found ready to their places.
fn put_all_ready(
    reach: &Reach,
    touched: &BTreeSet<u32>,
    ready: &mut Vec<Item>,
    ranks: &mut Vec<ItemRank>,
    out: &mut Vec<Left>,
    found: &[ItemRank],
) -> Result<(), NoMemory>
    requires lists { AreLists ready.old.items ranks.old.items out.old.items }
    requires one_each { IsOneEach node_of found.now }
    ensures lists { OnOk result (AreLists ready.new.items ranks.new.items out.new.items) }
    ensures ranks { OnOk result
        (HasNew node_of (IsFoundAgain node_of (is_again touched.now reach.now.all reach.now.items) found.now)
        found.now ranks.old.items ranks.new.items) }
    ensures out { OnOk result
        (HasNew left_item (IsFoundAgain node_of (is_again touched.now reach.now.all reach.now.items) found.now)
        [] out.old.items out.new.items) }
{
    for rank in found {
        if !reach.has(touched, rank.node) {
            continue;
        }
        put_ready(ready, ranks, out, *rank)?;
    }
    Ok(())
}

/// Puts the items that are judged again and left out to their places.
fn put_all_left(
    reach: &Reach,
    touched: &BTreeSet<u32>,
    ready: &mut Vec<Item>,
    ranks: &mut Vec<ItemRank>,
    out: &mut Vec<Left>,
    found: &[Left],
) -> Result<(), NoMemory>
    requires lists { AreLists ready.old.items ranks.old.items out.old.items }
    requires one_each { IsOneEach left_item found.now }
    ensures lists { OnOk result (AreLists ready.new.items ranks.new.items out.new.items) }
    ensures ranks { OnOk result
        (HasNew node_of (IsFoundAgain left_item (is_again touched.now reach.now.all reach.now.items) found.now)
        [] ranks.old.items ranks.new.items) }
    ensures out { OnOk result
        (HasNew left_item (IsFoundAgain left_item (is_again touched.now reach.now.all reach.now.items) found.now)
        found.now out.old.items out.new.items) }
{
    for left in found {
        if !reach.has(touched, left.item) {
            continue;
        }
        put_left(ready, ranks, out, *left)?;
    }
    Ok(())
}
