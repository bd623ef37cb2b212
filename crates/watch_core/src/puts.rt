//! What is found of an item is put in the place of what was kept of it.

ghost use Rattle.std.specs.Prelude.{◌≡◌, OnOk, Contains, [], ◌∷◌};
ghost use Rattle.std.specs.List.Sorted.{IsStrictlySortedBy};
ghost use Rattle.state_core.specs.Items.{item_cmp};
ghost use Rattle.ready_core.specs.declared.ranked.ItemRank.{ItemRank};
ghost use Rattle.ready_core.specs.declared.verdicts.Left.{Left};
ghost use Rattle.ready_core.specs.Verdicts.{items_out};
ghost use Rattle.watch_core.specs.Placed.{AreLists, AreReady, HasNew, left_item, node_of};

use super::places::{has_rank, place_for_left, place_for_rank, place_in};
use lattice_core::NoMemory;
use ready_core::{ItemRank, Left, place_out};
use state_core::Item;

/// Puts a ready item, with what it is ordered by, to its place, and takes out what was kept of it.
pub fn put_ready(
    ready: &mut Vec<Item>,
    ranks: &mut Vec<ItemRank>,
    out: &mut Vec<Left>,
    rank: ItemRank,
) -> Result<(), NoMemory>
    requires { AreLists ready.old.items ranks.old.items out.old.items }
    ensures lists { OnOk result (AreLists ready.new.items ranks.new.items out.new.items) }
    ensures ranks { OnOk result
        (HasNew node_of (λ item. item ≡ rank.node) (rank ∷ []) ranks.old.items ranks.new.items) }
    ensures out { OnOk result (HasNew left_item (λ item. item ≡ rank.node) [] out.old.items out.new.items) }
{
    if has_rank(ranks.as_slice(), rank) {
        return Ok(());
    }
    take_item(ready, ranks, out, rank.node);
    insert_rank(ready, ranks, rank)
}

/// Puts an item that is left out to its place, and takes out what was kept of it.
pub fn put_left(
    ready: &mut Vec<Item>,
    ranks: &mut Vec<ItemRank>,
    out: &mut Vec<Left>,
    left: Left,
) -> Result<(), NoMemory>
    requires { AreLists ready.old.items ranks.old.items out.old.items }
    ensures lists { OnOk result (AreLists ready.new.items ranks.new.items out.new.items) }
    ensures ranks { OnOk result (HasNew node_of (λ item. item ≡ left.item) [] ranks.old.items ranks.new.items) }
    ensures out { OnOk result (HasNew left_item (λ item. item ≡ left.item) (left ∷ []) out.old.items out.new.items) }
{
    let Some(place) = place_out(out.as_slice(), left.item) else {
        take_ready(ready, ranks, left.item);
        return insert_left(out, left);
    };
    out[place] = left;
    Ok(())
}

/// Takes out what was kept of an item.
fn take_item(ready: &mut Vec<Item>, ranks: &mut Vec<ItemRank>, out: &mut Vec<Left>, item: Item)
    requires { AreLists ready.old.items ranks.old.items out.old.items }
    ensures lists { AreLists ready.new.items ranks.new.items out.new.items }
    ensures ranks { HasNew node_of (λ other. other ≡ item) [] ranks.old.items ranks.new.items }
    ensures out { HasNew left_item (λ other. other ≡ item) [] out.old.items out.new.items }
{
    let Some(place) = place_out(out.as_slice(), item) else {
        return take_ready(ready, ranks, item);
    };
    out.remove(place);
}

/// Takes out an item that is ready, if it is.
fn take_ready(ready: &mut Vec<Item>, ranks: &mut Vec<ItemRank>, item: Item)
    requires { AreReady ready.old.items ranks.old.items }
    ensures ready { AreReady ready.new.items ranks.new.items }
    ensures ranks { HasNew node_of (λ other. other ≡ item) [] ranks.old.items ranks.new.items }
{
    let Some(place) = place_in(ready.as_slice(), item) else {
        return;
    };
    ready.remove(place);
    ranks.remove(place);
}

/// Puts a ready item that isn't among them to its place.
fn insert_rank(
    ready: &mut Vec<Item>,
    ranks: &mut Vec<ItemRank>,
    rank: ItemRank,
) -> Result<(), NoMemory>
    requires ready { AreReady ready.old.items ranks.old.items }
    requires none { (other : ItemRank) → Contains ranks.old.items other → ¬ (other.node ≡ rank.node) }
    ensures ready { OnOk result (AreReady ready.new.items ranks.new.items) }
    ensures ranks { OnOk result
        (HasNew node_of (λ item. item ≡ rank.node) (rank ∷ []) ranks.old.items ranks.new.items) }
{
    let place = place_for_rank(ranks.as_slice(), rank);
    ranks.insert(place, rank)?;
    ready.insert(place, rank.node)?;
    Ok(())
}

/// Puts an item that isn't left out yet to its place.
fn insert_left(out: &mut Vec<Left>, left: Left) -> Result<(), NoMemory>
    requires in_order { IsStrictlySortedBy item_cmp (items_out out.old.items) }
    requires none { (other : Left) → Contains out.old.items other → ¬ (other.item ≡ left.item) }
    ensures in_order { OnOk result (IsStrictlySortedBy item_cmp (items_out out.new.items)) }
    ensures out { OnOk result (HasNew left_item (λ item. item ≡ left.item) (left ∷ []) out.old.items out.new.items) }
{
    let place = place_for_left(out.as_slice(), left.item);
    out.insert(place, left)?;
    Ok(())
}
