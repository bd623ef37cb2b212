//! What a command line asks for: a command with the values of its arguments, help, the version, or a usage error.
//!
//! Its tests are in the crate `words_tests`.
//!
//! It is a crate of its own so that a parsed command line is one enum with a contract. Not taken: passing `clap`'s
//! matches to each command, which would look up arguments by name.
//!
//! An example of its use:
//!
//! ```
//! let words = ["ready", "gate.json", "record.snapshot"];
//! let asked = read_words(alloc, &words);
//! assert!(rt; matches!(asked, Asked::Run(Command::Ready(ReadyCommand { gate: "gate.json", .. }))));
//! ```
#![tactic(auto)]

mod addresses;
mod asked;
mod enqueues;
mod feeds;
mod files;
mod numbers;
mod queries;
mod sites;
mod words;

pub use asked::{
    Answer, Asked, CheckCommand, Command, Detail, EnqueueWords, EventWords, FootersCommand,
    GraphCommand, MergeCommand, OutputFormat, PageAddress, Printing, QueryWords, ReadyCommand,
    ReadyItemCommand, RecoverWords, ServeWords, SimulateCommand, SocketMode, Strictness,
    WhyCommand,
};
pub use words::read_words;
