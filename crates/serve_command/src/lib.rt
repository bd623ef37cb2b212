//! `serve`: runs a site as a program, from reading its files and listening to saving its snapshot.
//!
//! Its tests are texts for the running program, in `plays`.
//!
//! It is a crate of its own so that the order of steps at a site's start and end is proved over any tape and any
//! output. Not taken: daemon mode, privileges and log files, which systemd does.
//!
//! An example of its use:
//!
//! ```
//! use record_pull::SystemFiles;
//! let words = ["serve", "-", "--site", "1", "--start", "1"];
//! let Asked::Serve(words) = read_words(alloc, &words) else {
//!     return Err(Fail::from("a site"));
//! };
//! let input = Ends::new(b"no gate file".as_slice());
//! let errors = Ends::new(Vec::new(alloc));
//! let ended = serve(rt, alloc, words, input, SystemFiles::new(rt), errors, &NoKeys);
//! assert!(rt; matches!(ended, Ended::Refused(Refusal::Gate(_))));
//! ```
#![tactic(auto)]

mod command;
mod fault;
mod file_number;
mod finished;
mod input_commands;
mod input_thread;
mod journal;
mod keys;
mod late_clock;
mod laws;
mod listening;
mod output;
mod prepared;
mod running;
mod save;
mod shared_errors;
mod start;
mod tape;

pub use command::{Ended, serve};
pub use fault::ProgramFault;
pub use laws::{sites_that_begin_again_have_all, what_a_site_left_is_there_again};
