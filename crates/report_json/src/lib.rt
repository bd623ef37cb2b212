//! The report of a record as JSON, whole or of one item, and why an item waits.
//!
//! Its tests are in the crate `command_tests`.
//!
//! It is a crate of its own so that `report_text`, which a running site uses, needs no JSON. Not taken: writing the
//! JSON in pages, since a command prints it once, at its end.
//!
//! An example of its use:
//!
//! ```
//! let gate = Gate::read(alloc, br#"{"bases":["https://r/"]}"#)?;
//! let verdicts = evaluate(alloc, &State::new(alloc), &gate)?;
//! let line = report_line(alloc, &verdicts)?;
//! assert_eq!(rt; line.as_slice(), b"{\"ready\":[],\"out\":[]}\n".as_slice());
//! ```
#![tactic(auto)]

mod asked;
mod conditions;
mod items;
mod report;
mod why;

pub use items::{out_item_line, ready_item_line};
pub use report::report_line;
pub use why::{full_why_line, why_line};
