//! The line that is written to standard error when a part of the program refuses something.
//!
//! Its tests are in the crate `command_tests`.
//!
//! It is a crate of its own so that one function makes all of these lines. Not taken: each fault's `Display` (a fault
//! doesn't know which part reports it) and the crate `log`, whose records have no number.
//!
//! An example of its use:
//!
//! ```
//! let line = refusal_line(alloc, Part::Script, 2, "BadLine 5")?;
//! assert_eq!(rt; line.as_str(), "reviewgate: script 2 BadLine 5\n");
//! ```
#![tactic(auto)]

mod line;
mod part;

pub use line::{memory_line, refusal_line};
pub use part::Part;
