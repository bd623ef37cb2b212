//! The ends of a connection of sealed lines: a source from which only verified lines are read, and a drain that seals
//! each line written to it.
//!
//! Its tests are in the crate `seal_tests`.
//!
//! It is a crate of its own so that sessions and pulls read and write sealed lines as they do plain ones. Not taken:
//! reporting a line with a bad seal as the end of the input, after which a session would seem to have ended well.
//!
//! An example of its use:
//!
//! ```
//! let mut ours = Seal::new(&[1; 32], &[2; 32]);
//! let mut lines = Vec::new(alloc);
//! ours.seal(alloc, b"hello 2", &mut lines)?;
//! let mut source = SealedSource::new(alloc, Ends::new(lines.as_slice()), Seal::new(&[1; 32], &[2; 32]));
//! let text = read_all(alloc, &mut source, 80)?;
//! assert_eq!(rt; text.as_slice(), b"hello 2\n".as_slice());
//! ```
#![tactic(auto)]

mod bytes;
mod drain;
mod fault;
mod link;
mod source;

pub use bytes::{BATCH, batch_end};
pub use drain::SealedDrain;
pub use fault::OpenFault;
pub use link::{LinkDrain, LinkSource};
pub use source::SealedSource;
