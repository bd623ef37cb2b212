//! What is drawn of an item.

use ready_core::Refusal;
use state_core::Item;

/// An item with what is drawn of it: why it is left out, if it is; the first item of its cycle, if it is on one; the
/// items that it waits for; and the changes that it waits for and of which no patch set is known.
#[derive(Drop)]
pub struct Node {
    pub item: Item,
    pub refusal: Option<Refusal>,
    pub cycle: Option<Item>,
    pub needs: Vec<Item>,
    pub unknown: Vec<u32>,
}
