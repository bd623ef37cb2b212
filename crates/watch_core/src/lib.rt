//! Verdicts that are kept up to date with a replica. When operations come, a change without a new operation keeps what
//! the gate asks of it by itself, and an item from which no change with a new operation can be reached keeps its
//! verdict.
//!
//! Its tests are in the crate `watch_tests`.
//!
//! It is a crate of its own so that incremental evaluation has one contract: the verdicts that it keeps equal an
//! evaluation of the whole record. Not taken: an evaluation of the whole record for each publish, and caches of single
//! conditions, since most of an evaluation's time goes into the graph.
//!
//! An example of its use:
//!
//! ```
//! let mut replica = Replica::new(alloc);
//! let gate = Gate::read(alloc, br#"{"bases":["https://r/"]}"#)?;
//! let mut evaluator = Evaluator::fresh(gate, &replica)?;
//! let stamp = replica.next_stamp(1, 1)?;
//! let message = String::from_str(alloc, "Fix")?;
//! let draft = Draft::PatchSet { change: 101, set: 1, message, parent: None };
//! replica.take(Op::new(stamp, Body::checked(draft)?))?;
//! evaluator.update(&replica)?;
//! assert_eq!(rt; evaluator.verdicts().ok_or("verdicts")?.ready().len(), 1);
//! ```
#![tactic(auto)]

mod again;
mod bring;
mod evaluator;
mod judge;
mod kept;
mod laws;
mod namers;
mod places;
mod puts;
mod reach;
mod seeds;
mod touched;

pub use evaluator::Evaluator;
pub use judge::{GateJudge, Judge};
pub use laws::{
    untouched_changes_stay, verdicts_are_brought_up, verdicts_are_local, what_is_not_reached_stays,
};
