//! The record of one site: a journal of operations and the state that they join to.
//!
//! Its tests are in the crate `record_tests`.
//!
//! It is a crate of its own so that the record of a site is one value with one law: it is the list of the operations
//! that arrived. Not taken: shipping states in place of operations (a state of 100,000 changes for each vote), and a
//! version vector without starts, with which a site that lost its disk would repeat stamps.
//!
//! An example of its use:
//!
//! ```
//! let mut replica = Replica::new(alloc);
//! let stamp = replica.next_stamp(1, 1)?;
//! let op = Op::new(stamp, Body::checked(Draft::Merged { change: 101 })?);
//! assert_eq!(rt; replica.take(op.copy()?)?, Taken::New);
//! assert_eq!(rt; replica.take(op)?, Taken::Known);
//! let missing = replica.missing(&Front::new(alloc), 256)?;
//! assert_eq!(rt; missing.ops.len(), 1);
//! ```
#![tactic(auto)]

mod arrivals;
mod arriving;
mod clock;
mod front;
mod gapless;
mod gathering;
mod joiner;
mod joining;
mod laws;
mod line;
mod lines;
mod missing;
mod probes;
mod replica;
mod starts;
mod taken;

pub use arrivals::Iter;
pub use front::{Front, Reach, Row};
pub use gathering::Gathering;
pub use joiner::EffectJoiner;
pub use laws::{equal_journals_agree, operations_arrive_as_a_set};
pub use missing::Missing;
pub use replica::Replica;
pub use starts::latest_start;
pub use taken::{ClockSpent, Partly, Taken};
