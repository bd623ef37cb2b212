//! The texts of snapshots: how the operations of a replica are written, and what a text says.
//!
//! Its tests are in the crate `text_tests`.
//!
//! It is a crate of its own so that a record is exchanged as one text that ends with the number of its operations. Not
//! taken: an SQLite file, which would store the state a second time beside the operations, and compression, which other
//! programs do.
//!
//! An example of its use:
//!
//! ```
//! let line = r#"{"change":101,"op":"merged","seq":1,"site":1,"start":1,"time":1}"#;
//! let text = format!(in alloc; "reviewgate 2\n{line}\nend 1\n")?;
//! let replica = snapshot_of(alloc, text.as_bytes())?;
//! let mut written = Ends::new(Vec::new(alloc));
//! write_snapshot(alloc, &replica, &mut written)?;
//! assert_eq!(rt; written.get_ref().as_slice(), text.as_bytes());
//! ```
#![tactic(auto)]

mod blocks;
mod end_line;
mod fault;
mod laws;
mod progress;
mod read;
mod write;

pub use fault::{SnapFault, WriteSnapFault};
pub use laws::{lines_have_one_reading, snapshots_are_one, snapshots_say_their_operations};
pub use read::{gather_by, gather_onto, read_onto, read_snapshot, snapshot_of, snapshot_onto};
pub use write::{write_gathered, write_snapshot};
