//! The verdict on one item.

ghost use Rattle.std.specs.Prelude.{◌≡◌, Contains, IfSome, Some, slice_get};
ghost use Rattle.std.specs.List.Sorted.{IsStrictlySortedBy};
ghost use Rattle.state_core.specs.Items.{item_cmp};
ghost use Rattle.ready_core.specs.Verdicts.{items_out};
ghost use Rattle.page_text.specs.Rows.{all_rows, row_item};

use super::chain::left_at;
use super::rows::Row;
use ready_core::Verdicts;
use state_core::Item;

/// The row of an item, if it is among the verdicts. It costs O(n) for n ready items.
pub fn verdict_on(verdicts: &Verdicts, item: Item) -> Option<Row>
    requires { IsStrictlySortedBy item_cmp (items_out verdicts.now.out) }
    ensures there { IfSome result (Contains (all_rows verdicts.now)) }
    ensures of { IfSome result (λ row. row_item row ≡ item) }
{
    match place_of(verdicts.ready(), item) {
        Some(place) => Some(Row::Enters(item, place + 1)),
        None => Some(Row::Waits(left_at(verdicts.out(), item)?)),
    }
}

/// The place of an item among some, from 0, if it is among them.
fn place_of(items: &[Item], item: Item) -> Option<usize>
    ensures { IfSome result (λ place. slice_get items.now place ≡ Some item) }
{
    for (place, other) in items.iter().enumerate() {
        if *other == item {
            return Some(place);
        }
    }
    None
}
