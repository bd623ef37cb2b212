//! Which items of a state are ready under a gate, and why each other one isn't.
//!
//! Its tests are in the crate `judge_tests`.
//!
//! It is a crate of its own so that the rule of a dependent pipeline is one definition, a greatest set, beside the
//! search that computes it. Not taken: removing items until nothing changes (a loop over all for each level; it is the
//! slow program of the tests), and recursion over dependencies, which doesn't end on cycles.
//!
//! An item is eligible where it breaks no condition of its own, waits for no unknown change, and is on no cycle, unless
//! the gate allows cycles. The ready items are the union of all sets of eligible items that hold the current items of
//! what their members wait for. Each other item has one refusal and a rank, by the first of these causes:
//!
//! | Refusal | Cause | Rank |
//! |---|---|---|
//! | `Own` | the first condition that the item breaks | 0 |
//! | `Cycle` | it is on a cycle, and the gate allows none | 0 |
//! | `Unknown` | the least change that it waits for and of which no patch set is known | 0 |
//! | `Dependency` | the least change that begins a shortest walk to an item that isn't eligible | that walk's length |
//!
//! The ready items are in gate order: by how many ready items an item waits for, over others, itself among them; then
//! by the least item of its cycle; then by change and patch set. So what an item waits for comes before it, and the
//! items of an allowed cycle are side by side.
//!
//! An example of its use:
//!
//! ```
//! let gate = Gate::read(alloc, br#"{"bases":["https://r/"]}"#)?;
//! let message = String::from_str(alloc, "Fix\n\nDepends-On: https://r/98\n")?;
//! let draft = Draft::PatchSet { change: 101, set: 1, message, parent: None };
//! let stamp = Stamp::new(1, 1, 1, 1).ok_or("a stamp")?;
//! let mut state = State::new(alloc);
//! state.take(&Op::new(stamp, Body::checked(draft)?))?;
//! let verdicts = evaluate(alloc, &state, &gate)?;
//! assert_eq!(rt; verdicts.out()[0].refusal, Refusal::Unknown(98));
//! ```
#![tactic(auto)]

mod causes;
mod judge;
mod laws;
mod places;
mod ranked;
mod verdicts;

pub use causes::own_conditions;
pub use judge::{evaluate, ranked_on, verdicts_on};
pub use laws::{
    closed_sets_are_safe, dependencies_lead_to_a_cause, ready_items_are_in_gate_order,
    ready_items_are_the_greatest_closed_set, safe_nodes_are_closed, verdicts_are_unique,
};
pub use places::place_out;
pub use ranked::{ItemRank, Ranked, items_of};
pub use verdicts::{Left, Refusal, Verdicts};
