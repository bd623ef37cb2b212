//! The state of one Gerrit change: last-writer-wins registers and a grow-only flag, joined as a lattice.
//!
//! Its tests are in the crate `change_tests`.
//!
//! It is a crate of its own so that the rules of one change are proved apart from maps and journals. Not taken: votes
//! as a set of tagged additions (an OR-set), in which a withdrawn vote could come back with an old copy; a log that is
//! replayed for each question.
//!
//! An example of its use:
//!
//! ```
//! let stamp = Stamp::new(5, 1, 1, 1).ok_or("a stamp")?;
//! let op = Op::new(stamp, Body::checked(Draft::Abandon { change: 101 })?);
//! let mut change = ChangeState::new(alloc);
//! change.take(&op)?;
//! assert_eq!(rt; change.status(), Status::Abandoned);
//! ```
#![tactic(auto)]

mod commit;
mod laws;
mod life;
mod state;
mod vote_slot;
mod votes;

pub use commit::Commit;
pub use laws::operations_add_up;
pub use life::{Life, Status};
pub use state::ChangeState;
pub use vote_slot::VoteSlot;
pub use votes::{Approval, Approvals, Vote, VotedSets, Votes};
