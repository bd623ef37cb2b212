//! `recover`: prints the snapshot of a journal file, and the lines about a journal file on standard error.
//!
//! Its tests are in the crate `site_tests`.
//!
//! It is a crate of its own because it is outside the law of the other commands: a journal file has no size limit, and
//! its last line may be torn. Not taken: repairing the file in place, which couldn't be undone.
//!
//! The journal is read block by block, and neither locked nor changed. A torn last line is left out, and its length is
//! reported. Operations of given sites and starts, or above a given time, can be left out, too.
//!
//! An example of its use:
//!
//! ```
//! let mut output = Ends::new(Vec::new(alloc));
//! let mut errors = Ends::new(Vec::new(alloc));
//! let nothing = LeftOut::nothing(alloc);
//! let journal = Ends::new(b"reviewgate 2\n{\"change".as_slice());
//! assert_eq!(rt; recover_to(alloc, journal, &nothing, &mut output, &mut errors), 0);
//! assert_eq!(rt; output.get_ref().as_slice(), b"reviewgate 2\nend 0\n".as_slice());
//! assert_eq!(rt; errors.get_ref().as_slice(), b"reviewgate: journal 6 Torn 8\n".as_slice());
//! ```
#![tactic(auto)]

mod lines;
mod named;
mod recovering;

pub use lines::show_journal_fault;
pub use named::recover_named;
pub use recovering::recover_to;
