//! Sorted lists, in an order that the caller gives, stored in chunks, so that inserting or removing an item at any
//! place takes about logarithmic time.
//!
//! Its tests are in the crate `change_tests`.
//!
//! It is a crate of its own because a change usually has two patch sets and five votes, and sometimes 100,000. Not
//! taken: `std`'s `BTreeMap`, whose leaves have room for fifteen; one `Vec`, in which an insertion moves all that
//! follows; `smallvec`, which keeps short lists well and long ones as a `Vec` does.
//!
//! An example of its use:
//!
//! ```
//! let mut list = ChunkList::new(alloc);
//! list.push(1u32)?;
//! list.push(2)?;
//! assert_eq!(rt; *list.last().ok_or("an item")?, 2);
//! ```
#![tactic(auto)]

mod edits;
mod entry;
mod into_iter;
mod iter;
mod join_list;
mod list;
mod probe;
mod spot;

pub use entry::Entry;
pub use into_iter::IntoIter;
pub use iter::Iter;
pub use join_list::{Entries, JoinList};
pub use list::ChunkList;
pub use probe::Probe;
