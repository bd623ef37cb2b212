//! Review operations: what a site records about a Gerrit change, when, and in which order.
//!
//! Its tests are in the crate `change_tests`.
//!
//! It is a crate of its own so that the meaning of an operation is independent of its storage and its text. Not taken:
//! wall-clock stamps (a site whose clock is wrong would win every register) and one counter for all sites (which needs
//! agreement).
//!
//! An operation is a stamp and a body. The body is one step of a review: a patch set is uploaded, a vote is cast or
//! withdrawn, or a change is abandoned, restored or merged. Operations are ordered by stamp, then by body, and two
//! operations that compare equal are the same operation.
//!
//! An example of its use:
//!
//! ```
//! let stamp = Stamp::new(5, 1, 1, 1).ok_or("a stamp")?;
//! let op: Op = Op::new(stamp, Body::checked(Draft::Abandon { change: 101 })?);
//! assert_eq!(rt; op.body().change(), 101);
//! let nobody: Draft = Draft::Abandon { change: 0 };
//! assert!(rt; Body::checked(nobody).is_err());
//! ```
#![tactic(auto)]

mod body;
mod draft;
mod fault;
mod operation;
mod stamp;
mod word;

pub use body::Body;
pub use draft::Draft;
pub use fault::BodyFault;
pub use operation::{Op, operations_are_ordered};
pub use stamp::Stamp;
pub use word::is_voter;
