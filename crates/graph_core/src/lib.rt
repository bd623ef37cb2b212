//! The items of a state as a graph: each item, the changes that it waits for, and which items are on a cycle.
//!
//! Its tests are in the crate `gate_tests`.
//!
//! It is a crate of its own so that dependencies are independent of the gate's conditions on reviews. Not taken: edges
//! to merged changes, over which the whole history would be reached; a graph that is updated in place, which costs as
//! much as updating the verdicts.
//!
//! An item is a known patch set of a change. It names the changes in the `Depends-On:` footers of its message, and the
//! change of its Git parent, unless that is its own. Those of them that aren't merged are its targets. The edge to a
//! known target ends at its current patch set.
//!
//! An example of its use:
//!
//! ```
//! let gate = Gate::read(alloc, br#"{"bases":["https://r/"]}"#)?;
//! let message = String::from_str(alloc, "Fix\n\nDepends-On: https://r/98\n")?;
//! let draft = Draft::PatchSet { change: 101, set: 1, message, parent: None };
//! let stamp = Stamp::new(1, 1, 1, 1).ok_or("a stamp")?;
//! let mut state = State::new(alloc);
//! state.take(&Op::new(stamp, Body::checked(draft)?))?;
//! let graph = Graph::build(alloc, &state, &gate)?;
//! assert_eq!(rt; graph.targets(Item { change: 101, set: 1 }), [98u32].as_slice());
//! ```
#![tactic(auto)]

mod graph;
mod items;
mod namers;
mod part;
mod targets;

pub use graph::Graph;
pub use items::{add_items, items_of};
pub use namers::Namers;
pub use part::part_with;
pub use targets::names_of;
