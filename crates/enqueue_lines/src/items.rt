//! Items that can be looked up.

ghost use Rattle.std.specs.Prelude.{◌≡◌, ◌<◌, ◌+◌, ℕ, [], Bool, IfOk, MatchBool, MatchOption, filter, length, not};
ghost use Rattle.std.specs.List.{list_any};
ghost use Rattle.std.specs.List.Sorted.{IsPermutation, IsSorted};
ghost use Rattle.state_core.specs.declared.item.Item.{Item};
ghost use Rattle.state_core.specs.Items.{item_cmp};
ghost use Rattle.enqueue_lines.specs.Groups.{AreNamedOnce, is_among};

use state_core::Item;
use std::alloc::{AllocError, Global};
use std::marker::Model;

/// Items in an order of their own, which can be looked up. Contracts see the list of them.
#[derive(Debug, Drop)]
pub struct ItemSet {
    /// In their own order.
    items: Vec<Item>,
    /// The same in item order.
    ordered: Vec<Item>,
}

impl Model for ItemSet {
    ghost use Rattle.std.specs.Prelude.{List};
    ghost use Rattle.enqueue_lines.specs.Keeping.{AreSortedItems};
    ghost use Rattle.state_core.specs.declared.item.Item.{Item};

    ghost Value = { List Item };

    ghost view = { λ kept. kept.items.items };

    ghost invariant = { λ kept. AreSortedItems kept.items.items kept.ordered.items };
}

impl ItemSet {
    /// No item. It takes no memory.
    pub fn new(alloc: Global) -> ItemSet
        ensures { result ≡ [] }
    {
        ItemSet {
            items: Vec::new(alloc),
            ordered: Vec::new(alloc),
        }
    }

    /// These items; none where an item is among them twice. It costs O(n log n) for n items.
    pub fn of(alloc: Global, items: Vec<Item>) -> Result<Option<ItemSet>, AllocError>
        ensures { IfOk result (λ made. MatchOption made (¬ AreNamedOnce items.items)
            (λ kept. (kept ≡ items.items) × AreNamedOnce items.items)) }
    {
        let ordered = in_order(alloc, items.as_slice())?;
        if has_twice(ordered.as_slice()) {
            return Ok(None);
        }
        Ok(Some(ItemSet { items, ordered }))
    }

    /// These items, of which one may be there twice. It costs O(n log n) for n items.
    pub fn listed(alloc: Global, items: Vec<Item>) -> Result<ItemSet, AllocError>
        ensures { IfOk result (λ kept. kept ≡ items.items) }
    {
        let ordered = in_order(alloc, items.as_slice())?;
        Ok(ItemSet { items, ordered })
    }

    /// The items, in their own order.
    pub fn as_slice(&self) -> &[Item]
        ensures { result.now ≡ self.now }
    {
        &self.items
    }

    /// Whether an item is among them. It costs O(log n) for n items.
    pub fn has(&self, item: Item) -> bool
        ensures { result ≡ is_among self.now item }
    {
        has_item(self.ordered.as_slice(), item)
    }
}

/// Whether an item is among some in order. It costs O(log n) for n items.
pub fn has_item(ordered: &[Item], item: Item) -> bool
    requires { IsSorted item_cmp ordered.now }
    ensures { result ≡ is_among ordered.now item }
{
    ordered.binary_search(&item).is_ok()
}

/// The items in their order. It costs O(n log n) for n items.
pub fn in_order(alloc: Global, items: &[Item]) -> Result<Vec<Item>, AllocError>
    ensures moved { IfOk result (λ ordered. IsPermutation items.now ordered.items) }
    ensures same { IfOk result (λ ordered. (test : Item → Bool)
        → list_any test ordered.items ≡ list_any test items.now) }
    ensures ordered { IfOk result (λ ordered. IsSorted item_cmp ordered.items) }
{
    let mut ordered = items.to_vec(alloc)?;
    ordered.sort_unstable();
    Ok(ordered)
}

/// Whether one of some items in order is there twice.
fn has_twice(ordered: &[Item]) -> bool
    requires { IsSorted item_cmp ordered.now }
    ensures { MatchBool result (¬ AreNamedOnce ordered.now) (AreNamedOnce ordered.now) }
{
    for index in 1..ordered.len() {
        if ordered[index - 1] == ordered[index] {
            return true;
        }
    }
    false
}
