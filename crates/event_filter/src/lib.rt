//! What a record has already, so that a feed needn't send it again: the same commit of a patch set, the same score of a
//! voter (a withdrawn vote and no vote both count as 0), and the same status.
//!
//! Its tests are in the crate `record_tests`.
//!
//! It is a crate of its own so that 'what the record lacks' is a law over states, without sockets. Not taken: sending
//! everything again, with which each query would add an operation for every vote that it lists.
//!
//! An example of its use:
//!
//! ```
//! let mut state = State::new(alloc);
//! let stamp = Stamp::new(1, 1, 1, 1).ok_or("a stamp")?;
//! let op = Op::new(stamp, Body::checked(Draft::Merged { change: 101 })?);
//! assert!(rt; !is_recorded(&state, op.body())?);
//! state.take(&op)?;
//! assert!(rt; is_recorded(&state, op.body())?);
//! ```
#![tactic(auto)]

mod asking;
mod bringing;
mod laws;
mod lowering;
mod recorded;
mod vanishing;

pub use asking::asked;
pub use bringing::{brought, is_moot};
pub use laws::{
    nothing_is_above_both, what_a_row_says_is_what_the_record_says,
    what_comes_first_raises_nothing, what_is_kept_of_a_message_fits_a_body,
    what_is_kept_of_a_message_names_the_same, what_is_met_is_what_the_record_says,
    what_is_nothing_new_brings_nothing, what_is_recorded_changes_no_view,
    what_is_taken_in_is_recorded,
};
pub use lowering::{lowering_first, parted};
pub use recorded::is_recorded;
pub use vanishing::vanished;
