//! For tests: an allocator that refuses one allocation, and calls in which each allocation fails in turn.
//!
//! An example of its use:
//!
//! ```
//! let memory = Refusing::new(alloc);
//! let mut numbers = Vec::new(&memory);
//! memory.refuse_after(0);
//! assert!(rt; numbers.push(1u8).is_err());
//! assert!(rt; memory.grant_all());
//! numbers.push(1u8)?;
//! ```
#![tactic(auto)]

mod refusing;
mod turns;

pub use refusing::Refusing;
pub use turns::{Call, Seen, requests};
