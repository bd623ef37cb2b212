//! The item that a question is about.

ghost use Rattle.std.specs.Prelude.{IfSome, MatchOption};
ghost use Rattle.state_core.specs.Items.{IsItem};
ghost use Rattle.state_core.specs.declared.item.Item.{Item};
ghost use Rattle.why_text.specs.Asked.{IsItemAsked};

use state_core::{Item, State};

/// The item of a change that a question names: that of a patch set, or the change's current one where none is named. It
/// is none where that isn't known. In O(log n) for n changes and patch sets.
pub fn item_asked(state: &State, change: u32, set: Option<u32>) -> Option<Item>
    ensures asked { MatchOption result
        ((item : Item) → ¬ IsItemAsked state.now change set item) (IsItemAsked state.now change set) }
    ensures there { IfSome result (IsItem state.now) }
{
    let about = state.change(change)?;
    let Some(set) = set else {
        let set = about.current()?;
        return Some(Item { change, set });
    };
    if !about.has_set(set) {
        return None;
    }
    Some(Item { change, set })
}
