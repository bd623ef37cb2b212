//! All commands except `serve`, `recover`, `events`, `queries` and `enqueue`, under one law: the inputs are read and
//! checked one after the other, and the answer is printed whole, or a proper prefix of it if the output failed.
//!
//! Its tests are in the crate `command_tests`.
//!
//! It is a crate of its own so that all commands meet one law, in which each is one row. Not taken: a contract for each
//! command by itself, which would have to repeat which input is refused first.
//!
//! `run_words` parses and runs a command line over any ends and files, and `run_asked` runs a parsed one: `run_command`
//! runs a command; `print_text` prints help or the version, and `report_usage` and `report` write the line of a usage
//! error or of a refusal.
//!
//! An example of its use:
//!
//! ```
//! let mut output = Ends::new(Vec::new(alloc));
//! let mut errors = Ends::new(Vec::new(alloc));
//! assert_eq!(rt; print_text(alloc, "reviewgate 0.2.0\n", &mut output, &mut errors), 0);
//! assert_eq!(rt; report(alloc, &Err(Refusal::NoItem(103, None)), &mut errors), 1);
//! let line = b"reviewgate: item 1 NoItem 103\n".as_slice();
//! assert_eq!(rt; errors.get_ref().as_slice(), line);
//! ```
#![tactic(auto)]

mod check;
mod footers;
mod graph;
mod item;
mod merge;
mod ready;
mod record;
mod run;
mod simulate;
mod why;
mod words;

pub use run::{print_text, report, report_usage, run_command};
pub use words::{run_asked, run_words};
