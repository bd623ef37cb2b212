//! Where items are in the lists of verdicts.

ghost use Rattle.std.specs.Prelude.{◌≡◌, IsTrue, MatchOption, Contains, Some, map, slice_get};
ghost use Rattle.std.specs.Ordering.{is_lt};
ghost use Rattle.std.specs.List.Sorted.{IsStrictlySortedBy};
ghost use Rattle.walk_core.specs.Ranks.{rank_cmp};
ghost use Rattle.state_core.specs.Items.{item_cmp};
ghost use Rattle.ready_core.specs.declared.ranked.ItemRank.{ItemRank};
ghost use Rattle.ready_core.specs.declared.verdicts.Left.{Left};
ghost use Rattle.ready_core.specs.ItemRanks.{to_rank};
ghost use Rattle.ready_core.specs.Verdicts.{items_out};
ghost use Rattle.watch_core.specs.Placed.{IsPlaceFor, left_item};

use ready_core::{ItemRank, Left};
use state_core::Item;

/// Whether a rank comes before another.
pub fn is_lower(rank: ItemRank, other: ItemRank) -> bool
    ensures { result ≡ is_lt (rank_cmp item_cmp (to_rank rank) (to_rank other)) }
{
    if rank.count != other.count {
        return rank.count < other.count;
    }
    if rank.first != other.first {
        return rank.first < other.first;
    }
    rank.node < other.node
}

/// The place to which an item belongs that isn't left out yet, by binary search.
pub fn place_for_left(out: &[Left], item: Item) -> usize
    requires in_order { IsStrictlySortedBy item_cmp (items_out out.now) }
    requires none { (left : Left) → Contains out.now left → ¬ (left.item ≡ item) }
    ensures { IsPlaceFor left_item item_cmp out.now item result }
{
    out.partition_point(|left| left.item < item)
}

/// The place to which the rank of an item belongs that isn't ready yet, by binary search.
pub fn place_for_rank(ranks: &[ItemRank], rank: ItemRank) -> usize
    requires in_order { IsStrictlySortedBy (rank_cmp item_cmp) (map to_rank ranks.now) }
    requires none { (other : ItemRank) → Contains ranks.now other → ¬ (other.node ≡ rank.node) }
    ensures { IsPlaceFor to_rank (rank_cmp item_cmp) ranks.now (to_rank rank) result }
{
    ranks.partition_point(|other| is_lower(*other, rank))
}

/// The place of an item in a list that isn't in the order of items, by trying each.
pub fn place_in(items: &[Item], item: Item) -> Option<usize>
    ensures { MatchOption result (¬ Contains items.now item) (λ place. slice_get items.now place ≡ Some item) }
{
    for place in 0..items.len() {
        if items[place] == item {
            return Some(place);
        }
    }
    None
}

/// Whether a rank is at its place.
pub fn has_rank(ranks: &[ItemRank], rank: ItemRank) -> bool
    ensures { IsTrue result → Contains ranks.now rank }
{
    let place = ranks.partition_point(|other| is_lower(*other, rank));
    match ranks.get(place) {
        Some(other) => *other == rank,
        None => false,
    }
}
