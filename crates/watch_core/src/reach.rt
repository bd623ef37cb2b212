//! Which items are judged again: those of changes with a new operation, and all that reach one of them.

ghost use Rattle.std.specs.Prelude.{◌≡◌, IfOk, IsTrue, OnOk, Contains, map};
ghost use Rattle.std.specs.Ordering.{nat_cmp};
ghost use Rattle.std.specs.BTreeMap.{get};
ghost use Rattle.review_ops.specs.Deed.{change_of};
ghost use Rattle.state_core.specs.Items.{IsCurrentItem};
ghost use Rattle.watch_core.specs.Namers.{AddsWaiting, HoldNamers, is_again, is_reached, items_at};

use super::namers::Namers;
use lattice_core::NoMemory;
use replica_core::Iter;
use state_core::{Item, State};
use std::alloc::Global;
use std::collections::BTreeSet;

/// How many changes are looked at for what waits for them. Where there are more, all items are judged again.
const WIDEST: usize = 256;

/// Items beside those of the touched changes: all, or some, each by its change and its patch set.
#[derive(Drop)]
pub struct Reach {
    pub all: bool,
    pub items: BTreeSet<(u32, u32)>,
}

impl Reach {
    /// Whether an item is of a touched change or among the others.
    pub fn has(&self, touched: &BTreeSet<u32>, item: Item) -> bool
        ensures { result ≡ is_again touched.now self.now.all self.now.items item }
    {
        touched.contains(&item.change) || self.all || self.items.contains(&(item.change, item.set))
    }
}

/// What reaches a change with a new operation, by the items that are kept as waiting for each.
pub fn reach_of(
    alloc: Global,
    state: &State,
    namers: &Namers,
    later: Iter<'_>,
) -> Result<Reach, NoMemory>
    ensures { IfOk result
        (λ reach. HoldNamers state.now namers.now later.entry (is_reached later.entry reach.all reach.items)) }
{
    let mut items = BTreeSet::new(alloc);
    let mut ahead = changes_of(alloc, later)?;
    for _ in 0..WIDEST {
        let Some(number) = ahead.pop() else {
            return Ok(Reach { all: false, items });
        };
        add_all(state, namers_at(namers, number), &mut items, &mut ahead)?;
    }
    Ok(Reach { all: true, items })
}

/// The changes that operations are on.
fn changes_of(alloc: Global, later: Iter<'_>) -> Result<Vec<u32>, NoMemory>
    ensures { IfOk result (λ numbers. numbers.items ≡ map (λ op. change_of op.deed) later.entry) }
{
    let mut numbers = Vec::new(alloc);
    for op in later {
        numbers.push(op.body().change())?;
    }
    Ok(numbers)
}

/// The items that are kept as waiting for a change.
fn namers_at(namers: &Namers, number: u32) -> &[Item]
    ensures { result.now ≡ items_at (get nat_cmp namers.now number) }
{
    match namers.get(&number) {
        Some(items) => items.as_slice(),
        None => &[],
    }
}

/// Adds some items, and puts ahead the changes of those that are new and current.
fn add_all(
    state: &State,
    row: &[Item],
    items: &mut BTreeSet<(u32, u32)>,
    ahead: &mut Vec<u32>,
) -> Result<(), NoMemory>
    ensures { OnOk result (AddsWaiting state.now (Contains row.now) items.old ahead.old.items items.new ahead.new.items) }
{
    for item in row {
        add_item(state, *item, items, ahead)?;
    }
    Ok(())
}

/// Adds an item, and puts its change ahead where it is new and current.
fn add_item(
    state: &State,
    item: Item,
    items: &mut BTreeSet<(u32, u32)>,
    ahead: &mut Vec<u32>,
) -> Result<(), NoMemory>
    ensures { OnOk result (AddsWaiting state.now (λ other. other ≡ item) items.old ahead.old.items items.new ahead.new.items) }
{
    if !items.insert((item.change, item.set))? {
        return Ok(());
    }
    if !is_current(state, item) {
        return Ok(());
    }
    ahead.push(item.change)?;
    Ok(())
}

/// Whether an item is the current one of its change.
fn is_current(state: &State, item: Item) -> bool
    ensures { IsCurrentItem state.now item → IsTrue result }
{
    let Some(change) = state.change(item.change) else {
        return false;
    };
    change.current() == Some(item.set)
}
