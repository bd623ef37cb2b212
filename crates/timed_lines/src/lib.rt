//! Lines that begin with the time at which they are written.
//!
//! Its tests are in the crate `serve_tests`.
//!
//! It is a crate of its own so that the code that makes lines needs no clock: `Timed` wraps the drain that the lines
//! are written to. The time is written as `jiff` writes it. Not taken: the crate `log`, whose records have no number,
//! and local time, which differs from machine to machine.
//!
//! An example of its use:
//!
//! ```
//! let moments = SystemMoments::new(rt, true);
//! let mut timed = Timed::new(moments, Ends::new(Vec::new(alloc)));
//! write_all(&mut timed, b"reviewgate: serve 1 NoBind\n".as_slice())?;
//! let written = timed.into_inner().into_inner();
//! assert!(rt; written.as_slice().ends_with(b"Z reviewgate: serve 1 NoBind\n".as_slice()));
//! ```
#![tactic(auto)]

mod moments;
mod stamp;
mod timed;

pub use moments::{Moments, SystemMoments};
pub use timed::Timed;
