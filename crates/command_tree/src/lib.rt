//! The program's commands and their arguments, and how `clap` parses a command line. No other crate uses `clap`.
//!
//! Its tests are in the crate `words_tests`.
//!
//! It is a crate of its own so that no other crate's proofs depend on those about `clap`. Not taken: a parser of its
//! own, whose help and messages would differ from the usual ones.
//!
//! An example of its use:
//!
//! ```
//! let words = ["ready", "gate.json", "record.snapshot"];
//! let Parsed::Command(name, values) = parse(alloc, &words) else {
//!     return Err(Fail::from("a command"));
//! };
//! assert_eq!(rt; name, "ready");
//! assert_eq!(rt; values.text("GATE"), Some("gate.json"));
//! ```
#![tactic(auto)]

mod arguments;
mod building;
mod enqueue_options;
mod feed_options;
mod parsing;
mod program;
mod query_options;
mod site_options;
mod values;

pub use arguments::{
    AROUND, CHANGE, CONNECTIONS, EVERY, GATHER, IDLE, Number, PAUSE, PORT, QUERY_PAUSE, SESSIONS,
    SITE, SITES, START, UNTIL, WORKERS,
};
pub use parsing::{Parsed, parse};
pub use values::Values;
