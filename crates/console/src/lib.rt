//! The console of a command: its input, its output, and the files and running sites that it names, as one value; how
//! the inputs are read and limited; and the refusals that are written to standard error.
//!
//! Its tests are in the crate `command_tests`.
//!
//! It is a crate of its own so that the inputs of all commands are read, limited and refused in one way. Not taken:
//! `std`'s streams as separate arguments, with which no contract could say that one was read before the other.
//!
//! The name `-` means standard input, which is read once: a second `-` is empty. Each kind of input has a size limit. A
//! script, a gate file or a message is parsed once it is read, and a snapshot while it is read, in blocks. In place of
//! a snapshot, the name `@ADDRESS` means the record of the running site at that address, which is pulled.
//!
//! An example of its use:
//!
//! ```
//! let refusal = Refusal::NoItem(103, Some(2));
//! let line = refusal.line(alloc)?;
//! assert_eq!(rt; line.as_str(), "reviewgate: item 1 NoItem 103,2\n");
//! ```
#![tactic(auto)]

mod addresses;
mod files;
mod inputs;
mod pulls;
mod refusals;
mod showing;
mod streams;

pub use files::Named;
pub use inputs::{
    GateFile, read_any_gate, read_gate, read_gate_file, read_message, read_record, read_script,
    read_snapshot,
};
pub use pulls::PullFault;
pub use refusals::Refusal;
pub use showing::{show, show_line, show_refusal, show_torn};
pub use streams::{Console, Streams};
