//! The first item of the list of bases that is refused.

ghost use Rattle.std.specs.Prelude.{◌≡◌, Some, IfSome, MatchOption, map};
ghost use Rattle.serde_json.specs.View.{view, members_view};
ghost use Rattle.gate_rules.specs.BadItems.{IsBadItem, IsFirstRefused, IsRefusedFor, IsTaken, item_flaw_name};
ghost use Rattle.gate_rules.specs.declared.bad_base.BadBase.{BadBase as Bad};

use super::value::found;
use footer_text::{BaseFlaw, MOST_BASES, base_flaw, bases_have_no_flaw};
use serde_json::{Map, Value};

/// Why an item of the list of bases is refused. Of several the first one counts.
#[derive(Clone, Copy, Debug, PartialEq, Eq)]
pub enum ItemFlaw {
    /// There are eight before it.
    TooMany,
    /// It isn't a text.
    NotText,
    /// It is a text that is no base.
    NoBase(BaseFlaw),
}

impl ItemFlaw {
    /// The flaw's name in reports.
    pub fn name(self) -> &'static str
        ensures { result.now ≡ item_flaw_name self }
    {
        match self {
            ItemFlaw::TooMany => "TooMany",
            ItemFlaw::NotText => "NotText",
            ItemFlaw::NoBase(flaw) => flaw.name(),
        }
    }
}

/// The first item of the list of bases that is refused.
#[derive(Clone, Copy, Debug, PartialEq, Eq)]
pub struct BadBase {
    /// Its place in the list, from 1.
    pub item: usize,
    /// Why it is refused.
    pub flaw: ItemFlaw,
}

/// The first item of the list of bases that is refused, where there is such a list and an item of it is. It costs O(n)
/// for n bytes.
pub fn bad_base(members: &Map<String, Value>) -> Option<BadBase>
    ensures found { IfSome result (IsBadItem (members_view members.now.entries)) }
    ensures only { (bad : Bad) → IsBadItem (members_view members.now.entries) bad → result ≡ Some bad }
{
    let value = found(members, "bases")?;
    let items = value.as_array()?;
    first_refused(items.as_slice())
}

/// The first of these items that is refused.
fn first_refused(items: &[Value]) -> Option<BadBase>
    ensures found { IfSome result (IsFirstRefused (map view items.now)) }
    ensures only { (bad : Bad) → IsFirstRefused (map view items.now) bad → result ≡ Some bad }
{
    bases_have_no_flaw();
    for place in 0..items.len() {
        if let Some(flaw) = item_flaw(place, &items[place]) {
            return Some(BadBase {
                item: place + 1,
                flaw,
            });
        }
    }
    None
}

/// Why the item at a place, from 0, is refused, where it is.
fn item_flaw(place: usize, item: &Value) -> Option<ItemFlaw>
    ensures { MatchOption result
        (IsTaken place (view item.now)) (IsRefusedFor place (view item.now)) }
{
    if place >= MOST_BASES {
        return Some(ItemFlaw::TooMany);
    }
    let Some(text) = item.as_str() else {
        return Some(ItemFlaw::NotText);
    };
    match base_flaw(text) {
        Some(flaw) => Some(ItemFlaw::NoBase(flaw)),
        None => None,
    }
}
