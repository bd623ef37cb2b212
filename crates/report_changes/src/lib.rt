//! What changed from one report to the next, as lines.
//!
//! Its tests are in the crate `text_tests`.
//!
//! It is a crate of its own so that the law on its readers (whoever applies each group has the present list) is proved
//! without sites. Not taken: a difference of two texts, line by line, which would be long wherever the gate order
//! changes, and of which a reader couldn't say what holds of an item.
//!
//! The ready items are listed, and each other item with its refusal, except items that are over: those whose change
//! has another status than the gate asks for, or that aren't its current patch set. A group of lines is the
//! difference from the previous list; applying the groups in order gives the present list.
//!
//! An example of its use:
//!
//! ```
//! let gate = Gate::read(alloc, br#"{"bases":["https://r/"]}"#)?;
//! let before = Listed::new(alloc);
//! let listed = Listed::of(alloc, &evaluate(alloc, &State::new(alloc), &gate)?)?;
//! let mut printed = Ends::new(Vec::new(alloc));
//! write_changes(alloc, &before, &listed, &mut printed)?;
//! assert!(rt; printed.get_ref().is_empty());
//! ```
#![tactic(auto)]

mod fault;
mod laws;
mod lines;
mod listed;
mod over;
mod text;

pub use fault::WriteChangesFault;
pub use laws::{groups_give_what_is_listed, groups_have_one_reading, verdicts_name_each_once};
pub use lines::{Line, lines_of};
pub use listed::Listed;
pub use over::is_over;
pub use text::{write_changes, write_group};
