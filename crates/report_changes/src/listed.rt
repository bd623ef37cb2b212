//! What is listed of verdicts.

ghost use Rattle.std.specs.Prelude.{◌≡◌, [], Bool, Contains, IfOk, MatchOption, filter};
ghost use Rattle.std.specs.List.{list_any};
ghost use Rattle.std.specs.List.Sorted.{IsSorted, IsStrictlySortedBy};
ghost use Rattle.state_core.specs.declared.item.Item.{Item};
ghost use Rattle.state_core.specs.Items.{item_cmp};
ghost use Rattle.ready_core.specs.Verdicts.{items_out};
ghost use Rattle.report_changes.specs.Listing.{IsLeftOutFor, is_listed, is_out_for, is_ready, is_waiting, listed_of};
ghost use Rattle.report_changes.specs.Listing.{is_same_item, same_refusal};

use super::over::is_over;
use ready_core::{Left, Refusal, Verdicts, place_out};
use state_core::Item;
use std::alloc::{AllocError, Global};
use std::marker::Model;

/// What is listed of verdicts: the items that are ready, and the others that aren't over, each with its refusal.
/// Contracts see both lists, as verdicts with no others.
#[derive(Debug, Drop)]
pub struct Listed {
    /// In gate order.
    ready: Vec<Item>,
    /// The same in item order.
    ordered: Vec<Item>,
    /// In item order.
    out: Vec<Left>,
}

impl Model for Listed {
    ghost use Rattle.ready_core.specs.Verdicts.{Judged};
    ghost use Rattle.report_changes.specs.Keeping.{AreSortedListings};

    ghost Value = { Judged };

    ghost view = { λ listed. record { ready = listed.ready.items; out = listed.out.items } };

    ghost invariant = { λ listed. AreSortedListings listed.ready.items listed.ordered.items listed.out.items };
}

impl Listed {
    /// Nothing is listed yet. It takes no memory.
    pub fn new(alloc: Global) -> Listed
        ensures { result ≡ record { ready = []; out = [] } }
    {
        Listed {
            ready: Vec::new(alloc),
            ordered: Vec::new(alloc),
            out: Vec::new(alloc),
        }
    }

    /// What is listed of verdicts whose others are in item order, as those of `evaluate` are. It costs O(n log n) for n
    /// items.
    pub fn of(alloc: Global, verdicts: &Verdicts) -> Result<Listed, AllocError>
        requires { IsStrictlySortedBy item_cmp (items_out verdicts.now.out) }
        ensures { IfOk result (λ listed. listed ≡ listed_of verdicts.now) }
    {
        let ready = verdicts.ready().to_vec(alloc)?;
        let ordered = in_order(alloc, verdicts.ready())?;
        let out = waiting(alloc, verdicts.out())?;
        Ok(Listed {
            ready,
            ordered,
            out,
        })
    }

    /// The items that are ready, in gate order.
    pub fn ready(&self) -> &[Item]
        ensures { result.now ≡ self.now.ready }
    {
        &self.ready
    }

    /// The others that aren't over, in item order, each with its refusal.
    pub fn out(&self) -> &[Left]
        ensures { result.now ≡ self.now.out }
    {
        &self.out
    }

    /// Whether an item is ready. It costs O(log n) for n items, as the next three.
    pub fn is_ready(&self, item: Item) -> bool
        ensures { result ≡ is_ready self.now item }
    {
        has_item(self.ordered.as_slice(), item)
    }

    /// The refusal of an item that is left out, if it is.
    pub fn refusal(&self, item: Item) -> Option<Refusal>
        ensures { MatchOption result (¬ Contains (items_out self.now.out) item) (IsLeftOutFor self.now.out item) }
    {
        refusal_in(self.out.as_slice(), item)
    }

    /// Whether an item is left out for the same refusal.
    pub fn is_out_for(&self, left: Left) -> bool
        ensures { result ≡ is_out_for self.now left }
    {
        match refusal_in(self.out.as_slice(), left.item) {
            Some(refusal) => is_same(left.refusal, refusal),
            None => false,
        }
    }

    /// Whether an item is listed: ready, or left out.
    pub fn is_listed(&self, item: Item) -> bool
        ensures { result ≡ is_listed self.now item }
    {
        self.is_ready(item) || self.refusal(item).is_some()
    }
}

/// The refusal of an item among those that are left out, if it is among them.
fn refusal_in(out: &[Left], item: Item) -> Option<Refusal>
    requires { IsStrictlySortedBy item_cmp (items_out out.now) }
    ensures { MatchOption result (¬ Contains (items_out out.now) item) (IsLeftOutFor out.now item) }
{
    let place = place_out(out, item)?;
    let left = &out[place];
    Some(left.refusal)
}

/// Whether two refusals are one.
fn is_same(a: Refusal, b: Refusal) -> bool
    ensures { result ≡ same_refusal a b }
{
    a == b
}

/// Whether an item is among some in order.
fn has_item(ordered: &[Item], item: Item) -> bool
    requires { IsSorted item_cmp ordered.now }
    ensures { result ≡ list_any (is_same_item item) ordered.now }
{
    ordered.binary_search(&item).is_ok()
}

/// The items in their order.
fn in_order(alloc: Global, items: &[Item]) -> Result<Vec<Item>, AllocError>
    ensures same { IfOk result (λ ordered. (test : Item → Bool)
        → list_any test ordered.items ≡ list_any test items.now) }
    ensures ordered { IfOk result (λ ordered. IsSorted item_cmp ordered.items) }
{
    let mut ordered = items.to_vec(alloc)?;
    ordered.sort_unstable();
    Ok(ordered)
}

/// Those that are left out and aren't over.
fn waiting(alloc: Global, out: &[Left]) -> Result<Vec<Left>, AllocError>
    ensures { IfOk result (λ waiting. waiting.items ≡ filter is_waiting out.now) }
{
    out.iter()
        .copied()
        .filter(|left| !is_over(left.refusal))
        .collect(alloc)
}
