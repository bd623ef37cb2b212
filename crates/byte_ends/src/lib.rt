//! The ends through which bytes come in and go out: a source is read, a drain is written to. Each counts the calls that
//! failed, so that a contract can say that an error is returned only if an end failed.
//!
//! Its tests are in the crate `text_tests`.
//!
//! It is a crate of its own because `std`'s `Read` and `Write` don't count failures, which contracts need. Not taken:
//! `std`'s `BufRead` and `bytes`, for the same reason.
//!
//! An example of its use:
//!
//! ```
//! let mut source = Ends::new(b"two\r\nlines".as_slice());
//! let text = read_all(alloc, &mut source, 80)?;
//! let mut lines = Lines::new(text.as_slice());
//! assert_eq!(rt; lines.next_line().ok_or("a line")?, b"two".as_slice());
//! assert_eq!(rt; lines.next_line().ok_or("a line")?, b"lines".as_slice());
//! ```
#![tactic(auto)]

mod breaking;
mod cut;
mod faults;
mod over_std;
mod traits;
mod whole;

pub use breaking::{Broken, Due, broken_fails_once};
pub use cut::{Lines, without_cr};
pub use faults::{BytesFault, Failed};
pub use over_std::Ends;
pub use traits::{Drain, Source, none_failed_means_ok};
pub use whole::{read_all, write_all};
