//! The items that wait for a change.

ghost use Rattle.std.specs.Prelude.{◌≡◌, map};
ghost use Rattle.graph_core.specs.ItemGraph.{namers_of};

use state_core::Item;
use std::marker::Model;

/// The items that wait for a change, in order. Contracts see those that are left. It takes no memory, and costs O(m)
/// for m changes that items wait for, all together.
#[derive(Drop)]
pub struct Namers<'a> {
    change: u32,
    items: &'a [Item],
    targets: &'a [Vec<u32>],
}

impl<'a> Model for Namers<'a> {
    ghost use Rattle.std.specs.Prelude.{List, map};
    ghost use Rattle.state_core.specs.declared.item.Item.{Item as GivenItem};
    ghost use Rattle.graph_core.specs.ItemGraph.{namers_of};

    ghost Value = { List GivenItem };

    ghost view = { λ namers. namers_of namers.items.now (map (λ row. row.items) namers.targets.now) namers.change };
}

impl<'a> Namers<'a> {
    /// The items among these that wait for a change; each row has what the item at its index waits for.
    pub(crate) fn among(items: &'a [Item], targets: &'a [Vec<u32>], change: u32) -> Namers<'a>
        ensures { result ≡ namers_of items.now (map (λ row. row.items) targets.now) change }
    {
        Namers {
            change,
            items,
            targets,
        }
    }
}

impl<'a> Iterator for Namers<'a> {
    ghost use Rattle.std.specs.Iterator.{YieldsFirst, item_count};

    type Item = Item;

    ghost next_gives = { YieldsFirst (λ namers. namers) };

    ghost remaining = { item_count (λ namers. namers) };

    fn next(&mut self) -> Option<Item> {
        while let Some((item, items)) = self.items.split_first() {
            let (row, targets) = self.targets.split_first()?;
            self.items = items;
            self.targets = targets;
            if row.contains(&self.change) {
                return Some(*item);
            }
        }
        None
    }
}
