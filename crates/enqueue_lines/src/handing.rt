//! What is ready by the groups so far, and what each group makes ready.

ghost use Rattle.std.specs.Prelude.{◌≡◌, ◌++◌, ◌||◌, [], ℕ, List, Contains, IfOk, MatchOption, OnErr, OnOk};
ghost use Rattle.std.specs.Prelude.{filter, flat_map, length, not};
ghost use Rattle.enqueue_lines.specs.Groups.{Fits, ReadySoFar, StaysReady, GroupItems, added_by, ready_following, fresh};
ghost use Rattle.enqueue_lines.specs.Groups.{handed_over, is_among};
ghost use Rattle.enqueue_lines.specs.Groups.{ready_first, is_one_kind, is_report, listed_by, ready_after, removed_by};
ghost use Rattle.enqueue_lines.specs.Groups.{items_of_lines};
ghost use Rattle.enqueue_lines.specs.KeptGroup.{group_items};
ghost use Rattle.std.specs.List.Sorted.{IsSorted};
ghost use Rattle.state_core.specs.declared.item.Item.{Item};
ghost use Rattle.state_core.specs.Items.{item_cmp};

use super::items::{ItemSet, has_item, in_order};
use super::site_line::SiteLine;
use state_core::Item;
use std::alloc::{AllocError, Global};
use std::marker::Model;

/// What is ready by the lines so far. Contracts see it as a list, with that of the items that were handed over before
/// the first line.
#[derive(Debug, Drop)]
pub struct Handing {
    ready: ItemSet,
    earlier: ItemSet,
}

impl Model for Handing {
    ghost use Rattle.enqueue_lines.specs.Groups.{ReadySoFar};

    ghost Value = { ReadySoFar };

    ghost view = { λ handing. record { ready = handing.ready; earlier = handing.earlier } };
}

impl Handing {
    /// No line has come, and these items were handed over before.
    pub fn new(alloc: Global, earlier: ItemSet) -> Handing
        ensures { result ≡ record { ready = []; earlier = earlier } }
    {
        Handing {
            ready: ItemSet::new(alloc),
            earlier,
        }
    }

    /// Takes a group, of these lines before its end line, which says how many items are ready. Answers the items that
    /// are ready now and weren't before, in gate order; or none, where the end line doesn't fit the lines: they are
    /// both of a report and of changes, another number of items is ready by them, or one item twice. Then nothing
    /// changes, and neither does it where memory is refused. It costs O(n log n) for n items.
    pub fn take(
        &mut self,
        alloc: Global,
        lines: &[SiteLine],
        count: u64,
    ) -> Result<Option<Vec<Item>>, AllocError>
        ensures taken { IfOk result (λ made. MatchOption made
            ((¬ Fits self.old.ready (items_of_lines lines.now) count) × (self.new ≡ self.old))
            (λ items. Fits self.old.ready (items_of_lines lines.now) count
            × (items.items ≡ fresh self.old (ready_after self.old.ready (items_of_lines lines.now) count))
            × (self.new ≡ ready_first (ready_after self.old.ready (items_of_lines lines.now) count)))) }
        ensures kept { OnErr result (self.new ≡ self.old) }
    {
        let group = Group::of(alloc, lines)?;
        let Some(ready) = self.ready_after(alloc, group, count)? else {
            return Ok(None);
        };
        let items = self.fresh(alloc, ready.as_slice())?;
        self.ready = ready;
        self.earlier = ItemSet::new(alloc);
        Ok(Some(items))
    }

    /// The items that are ready after a group, where its end fits.
    fn ready_after(
        &self,
        alloc: Global,
        group: Group,
        count: u64,
    ) -> Result<Option<ItemSet>, AllocError>
        ensures { IfOk result (λ made. MatchOption made
            (¬ Fits self.now.ready (group_items group) count)
            (λ ready. Fits self.now.ready (group_items group) count
            × (ready ≡ ready_after self.now.ready (group_items group) count))) }
    {
        if !group.is_one_kind(count) {
            return Ok(None);
        }
        let ready = group.ready_after(alloc, &self.ready, count)?;
        if ready.len() as u64 != count {
            return Ok(None);
        }
        ItemSet::of(alloc, ready)
    }

    /// Those of some items that weren't ready before.
    fn fresh(&self, alloc: Global, now: &[Item]) -> Result<Vec<Item>, AllocError>
        ensures { IfOk result (λ items. items.items ≡ fresh self.now now.now) }
    {
        fresh_of(alloc, &self.ready, &self.earlier, now)
    }
}

/// Those of some items that are neither of these.
fn fresh_of(
    alloc: Global,
    ready: &ItemSet,
    earlier: &ItemSet,
    now: &[Item],
) -> Result<Vec<Item>, AllocError>
    ensures { IfOk result (λ items. items.items
        ≡ filter (λ item. not (is_among ready.now item || is_among earlier.now item)) now.now) }
{
    let mut items = Vec::new(alloc);
    for item in now {
        if !(ready.has(*item) || earlier.has(*item)) {
            items.push(*item)?;
        }
    }
    Ok(items)
}

/// What the lines of a group say: the items that they list as ready, say to be ready now, and say not to be any more.
#[derive(Debug, Drop)]
struct Group {
    listed: Vec<Item>,
    added: Vec<Item>,
    removed: Vec<Item>,
}

impl Group {
    /// What these lines say.
    fn of(alloc: Global, lines: &[SiteLine]) -> Result<Group, AllocError>
        ensures { IfOk result (λ group. group_items group ≡ items_of_lines lines.now) }
    {
        Ok(Group {
            listed: listed_in(alloc, lines)?,
            added: added_in(alloc, lines)?,
            removed: removed_in(alloc, lines)?,
        })
    }

    /// Whether the lines are those of a whole report, where so many items are ready after them.
    fn is_report(&self, count: u64) -> bool
        ensures { result ≡ is_report (group_items self.now) count }
    {
        count == 0 || !self.listed.is_empty()
    }

    /// Whether the lines are of one kind.
    fn is_one_kind(&self, count: u64) -> bool
        ensures { result ≡ is_one_kind (group_items self.now) count }
    {
        !self.is_report(count)
            || (self.added.is_empty() && (self.listed.is_empty() || self.removed.is_empty()))
    }

    /// The items that are ready after the group, where these were before.
    fn ready_after(
        self,
        alloc: Global,
        before: &ItemSet,
        count: u64,
    ) -> Result<Vec<Item>, AllocError>
        ensures { IfOk result (λ ready. ready.items ≡ ready_after before.now (group_items self) count) }
    {
        if self.is_report(count) {
            return Ok(self.listed);
        }
        changed(
            alloc,
            before.as_slice(),
            self.removed.as_slice(),
            self.added.as_slice(),
        )
    }
}

/// Some items without those that are removed, and then those that are added.
fn changed(
    alloc: Global,
    before: &[Item],
    removed: &[Item],
    added: &[Item],
) -> Result<Vec<Item>, AllocError>
    ensures { IfOk result (λ now. now.items
        ≡ filter (λ item. not (is_among removed.now item)) before.now ++ added.now) }
{
    let ordered = in_order(alloc, removed)?;
    let mut now = without(alloc, before, ordered.as_slice())?;
    now.extend_from_slice(added)?;
    Ok(now)
}

/// Some items without those in order.
fn without(alloc: Global, before: &[Item], ordered: &[Item]) -> Result<Vec<Item>, AllocError>
    requires { IsSorted item_cmp ordered.now }
    ensures { IfOk result (λ now. now.items ≡ filter (λ item. not (is_among ordered.now item)) before.now) }
{
    let mut now = Vec::new(alloc);
    for item in before {
        if !has_item(ordered, *item) {
            now.push(*item)?;
        }
    }
    Ok(now)
}

/// The items that lines list as ready.
fn listed_in(alloc: Global, lines: &[SiteLine]) -> Result<Vec<Item>, AllocError>
    ensures { IfOk result (λ items. items.items ≡ flat_map listed_by lines.now) }
{
    let mut items = Vec::new(alloc);
    for parsed in lines {
        if let SiteLine::Ready(item) = parsed {
            items.push(*item)?;
        }
    }
    Ok(items)
}

/// The items that lines say to be ready now.
fn added_in(alloc: Global, lines: &[SiteLine]) -> Result<Vec<Item>, AllocError>
    ensures { IfOk result (λ items. items.items ≡ flat_map added_by lines.now) }
{
    let mut items = Vec::new(alloc);
    for parsed in lines {
        if let SiteLine::NowReady(item) = parsed {
            items.push(*item)?;
        }
    }
    Ok(items)
}

/// The items that lines say not to be ready any more.
fn removed_in(alloc: Global, lines: &[SiteLine]) -> Result<Vec<Item>, AllocError>
    ensures { IfOk result (λ items. items.items ≡ flat_map removed_by lines.now) }
{
    let mut items = Vec::new(alloc);
    for parsed in lines {
        if let SiteLine::NotReady(item) = parsed {
            items.push(*item)?;
        }
    }
    Ok(items)
}

/// A law: an item that is ready is handed over no more while it stays so, however many groups come.
pub fn ready_items_are_handed_over_once()
    ensures { (item : Item) → (held : ReadySoFar) → (later : List (List Item)) → Contains held.ready item
        → StaysReady item later → ¬ Contains (handed_over held later) item }
{}
