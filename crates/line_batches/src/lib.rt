//! Reads the operations of many whole lines, and joins their effects, in parallel threads.
//!
//! Its tests are in the crate `batch_tests`.
//!
//! A reader of snapshots or journals splits its text into lines and checks each line itself. Before that it may hand a
//! block of whole lines to a `Pipeline`: if all lines are in exactly the form that is written, that takes their
//! operations, in order; else it takes nothing, the reader reads the lines one by one, and reports the first bad one
//! itself. While the lines of one block are read the operations of the block before are filed.
//!
//! An example of its use:
//!
//! ```
//! use line_batches::{OneByOne, Pipeline, SideBySide};
//! use replica_core::Gathering;
//! let line = r#"{"change":101,"op":"merged","seq":1,"site":1,"start":1,"time":1}"#;
//! let lines = format!(in alloc; "{line}\n")?;
//! let mut pipeline = Pipeline::onto(Gathering::new(alloc));
//! let read = pipeline.take_lines(&SideBySide::new(rt), lines.as_bytes())?;
//! assert_eq!(rt; read, Some(1));
//! let read = pipeline.take_lines(&OneByOne, lines.as_bytes())?;
//! assert_eq!(rt; read, None);
//! assert_eq!(rt; pipeline.end()?.len(), 1);
//! ```
#![tactic(auto)]

mod batches;
mod cuts;
mod parts;
mod pipeline;
mod reading;
mod rooms;

pub use batches::{Batches, OneByOne, SideBySide};
pub use cuts::{past_first_lf, past_last_lf};
pub use pipeline::Pipeline;
pub use rooms::{first_room, next_room};
