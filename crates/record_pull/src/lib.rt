//! The files and the running sites of this machine that commands name, and the pull of a record from a running site.
//!
//! Its tests are in the crate `site_tests`.
//!
//! Those over sockets are plays of running sites, in `plays`.
//!
//! It is a crate of its own so that `console`, and with it all commands, need no sockets. Not taken: a session command
//! that sends a snapshot (a pull does the same, and every site answers it), and a pull that starts from the front of a
//! record that was read before, which would miss operations with a known stamp and another body.
//!
//! An example of its use:
//!
//! ```
//! let mut source = Ends::new(b"hello 2\ndone\n".as_slice());
//! let mut asked = Ends::new(Vec::new(alloc));
//! let pulled = pull_record(alloc, &mut source, &mut asked);
//! assert!(rt; matches!(&pulled, Ok(replica) if replica.len() == 0));
//! assert_eq!(rt; asked.get_ref().as_slice(), b"hello 2\nfront []\nquit\n".as_slice());
//! ```
#![tactic(auto)]

mod connection;
mod files;
mod joining;
mod pull;
mod record;

pub use connection::pull_from;
pub use files::SystemFiles;
pub use pull::pull_record;
