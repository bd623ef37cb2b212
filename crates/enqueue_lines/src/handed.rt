//! The items that were handed over before.

ghost use Rattle.std.specs.Prelude.{IfErr, IfOk};
ghost use Rattle.std.specs.List.{AllZip};
ghost use Rattle.byte_ends.specs.Lines.{lines_of};
ghost use Rattle.enqueue_lines.specs.Handed.{IsItemLine, IsNoItem, IsRefusedHanded};

use super::fault::EnqueueFault;
use super::items::ItemSet;
use super::site_line::read_item;
use byte_ends::Lines;
use state_core::Item;
use std::alloc::Global;

/// The items that a text lists, as `101,2`, one a line; an item may be there more than once. Refusals: 10 `BadHanded`,
/// the line of this number is the first one that is no item; 5 `NoMemory`. It costs O(n log n) for n bytes.
pub fn read_handed(alloc: Global, text: &[u8]) -> Result<ItemSet, EnqueueFault>
    ensures read { IfOk result (λ items. AllZip IsItemLine (lines_of text.now) items) }
    ensures refused { IfErr result (IsRefusedHanded (lines_of text.now)) }
{
    let items = items_in(alloc, text)?;
    Ok(ItemSet::listed(alloc, items)?)
}

/// The same in a list.
fn items_in(alloc: Global, text: &[u8]) -> Result<Vec<Item>, EnqueueFault>
    ensures read { IfOk result (λ items. AllZip IsItemLine (lines_of text.now) items.items) }
    ensures refused { IfErr result (IsRefusedHanded (lines_of text.now)) }
{
    let mut items = Vec::new(alloc);
    let mut lines = Lines::new(text);
    let mut number = 0u64;
    while let Some(line) = lines.next_line() {
        number = number.saturating_add(1);
        let item = match item_in(alloc, number, line) {
            Ok(item) => item,
            Err(fault) => return Err(fault),
        };
        if items.push(item).is_err() {
            return Err(EnqueueFault::NoMemory);
        }
    }
    Ok(items)
}

/// The item that the line of this number is.
fn item_in(alloc: Global, number: u64, line: &[u8]) -> Result<Item, EnqueueFault>
    ensures item { IfOk result (IsItemLine line.now) }
    ensures refused { IfErr result (IsNoItem number line.now) }
{
    match read_item(alloc, line) {
        Ok(Some(item)) => Ok(item),
        Ok(None) => Err(EnqueueFault::BadHanded(number)),
        Err(_) => Err(EnqueueFault::NoMemory),
    }
}
