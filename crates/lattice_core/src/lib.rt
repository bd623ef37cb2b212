//! Join-semilattices, the states that replicas merge: the result is the same in whatever order, grouping and number
//! states are joined.
//!
//! Its tests are in the crate `change_tests`.
//!
//! It is a crate of its own so that convergence rests on a few laws that are independent of reviews. Not taken:
//! operation-based counters and sequences (CRDTs that need causal delivery, which gossip that loses and repeats doesn't
//! give), and a join as a bare function, whose laws each user would prove again.
//!
//! `Join` is the trait of such states, with its laws. `Flag`, `Register` and `Greatest` are the least of them; `Both`
//! and `JoinMap` are made of others, and their laws follow from those of their parts. `Keep` is the trait of the keys
//! and values that they hold: types with an exact order. Contracts speak of shapes, which are values without their
//! addresses in memory.
//!
//! An example of its use:
//!
//! ```
//! let mut scores = JoinMap::new(alloc);
//! scores.join_at(7u32, Register::new(1u64, 2u32))?;
//! scores.join_at(7, Register::new(5, 1))?;
//! let score = scores.get(&7).ok_or("a score")?;
//! assert_eq!(rt; *score.value(), 1);
//! ```
#![tactic(auto)]

mod both;
mod flag;
mod greatest;
mod join;
mod join_map;
mod keep;
mod laws;
mod memory;
mod register;

pub use both::Both;
pub use flag::Flag;
pub use greatest::Greatest;
pub use join::{Join, join_all};
pub use join_map::JoinMap;
pub use keep::Keep;
pub use laws::{
    covering_is_the_order_of_the_join, lists_join_in_any_order, maps_join_key_by_key,
    registers_join_to_the_greatest,
};
pub use memory::NoMemory;
pub use register::Register;
