//! The subject of an item.

ghost use Rattle.std.specs.Prelude.{◌≡◌};
ghost use Rattle.page_text.specs.Subject.{first_line, subject_of};

use state_core::{Item, State};

/// The subject of an item: the first line of its commit message. It is empty where the item isn't known. It costs
/// O(log n + m) for n changes and patch sets and a line of m bytes.
pub fn subject_of(state: &State, item: Item) -> &str
    ensures { result.now ≡ subject_of state.now item }
{
    let Some(change) = state.change(item.change) else {
        return "";
    };
    match change.message(item.set) {
        Some(message) => first_line(message),
        None => "",
    }
}

/// The first line of a text, without its end.
pub fn first_line(text: &str) -> &str
    ensures { result.now ≡ first_line text.now }
{
    match text.split_once('\n') {
        Some((line, _)) => line,
        None => text,
    }
}
