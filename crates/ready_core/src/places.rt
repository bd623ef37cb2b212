//! Where an item is among those that are left out.

ghost use Rattle.std.specs.Prelude.{◌≡◌, MatchOption, Contains};
ghost use Rattle.std.specs.List.Sorted.{IsStrictlySortedBy};
ghost use Rattle.state_core.specs.Items.{item_cmp};
ghost use Rattle.ready_core.specs.declared.verdicts.Left.{Left};
ghost use Rattle.ready_core.specs.Verdicts.{IsOutAt, items_out};

use super::verdicts::Left;
use state_core::Item;

/// The place at which an item is left out, if it is. The list is in the order of its items. It costs O(log n) for n
/// items.
pub fn place_out(out: &[Left], item: Item) -> Option<usize>
    requires { IsStrictlySortedBy item_cmp (items_out out.now) }
    ensures { MatchOption result ((left : Left) → Contains out.now left → ¬ (left.item ≡ item)) (IsOutAt out.now item) }
{
    let place = out.partition_point(|left| left.item < item);
    let left = out.get(place)?;
    if left.item != item {
        return None;
    }
    Some(place)
}
