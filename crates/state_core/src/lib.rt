//! The state of all changes of a review record: a finite map from their numbers to their states, joined as a lattice,
//! and its items.
//!
//! Its tests are in the crate `record_tests`.
//!
//! It is a crate of its own so that the crates that judge take a state and no journal: their signatures show that equal
//! states give equal reports. Not taken: a `Vec` sorted by change, in which each new change moves all that follow; a
//! hash map, whose order isn't that of reports.
//!
//! An example of its use:
//!
//! ```
//! let stamp = Stamp::new(5, 1, 1, 1).ok_or("a stamp")?;
//! let op = Op::new(stamp, Body::checked(Draft::Merged { change: 101 })?);
//! let mut state = State::new(alloc);
//! state.take(&op)?;
//! assert!(rt; state.is_merged(101));
//! assert!(rt; !state.is_known(101));
//! ```
#![tactic(auto)]

mod item;
mod laws;
mod shared;
mod state;

pub use item::Item;
pub use laws::{a_journal_has_one_state, equal_journals_have_equal_states};
pub use shared::SharedChange;
pub use state::State;
