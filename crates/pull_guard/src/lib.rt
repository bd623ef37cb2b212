//! Which operations a site accepts from its peers: those of listed sites whose times and starts aren't far ahead of its
//! record.
//!
//! Its tests are in the crate `site_tests`.
//!
//! It is a crate of its own so that all sinks, and the code that chooses starts, share one rule. Not taken: a limit by
//! the time of day (times are counters), and a list of trusted operations, which would have to be signed.
//!
//! | Bar | Of the first operation that isn't allowed |
//! |---|---|
//! | 11 `NotListed` | its site is neither the guard's own nor in the list |
//! | 12 `FarAhead` | its time is more than 2^40 above the record's greatest, or its start is 4,294,967,295 |
//!
//! An example of its use:
//!
//! ```
//! let mut sites = Vec::new(alloc);
//! sites.push(2u16)?;
//! let guard = Guard { own: 1, sites };
//! let stamp = Stamp::new(7, 3, 1, 1).ok_or("a stamp")?;
//! let op = Op::new(stamp, Body::checked(Draft::Merged { change: 101 })?);
//! let latest = latest_time(&Replica::new(alloc));
//! assert_eq!(rt; guard.admit(latest, &[op]), Err(Bar::NotListed));
//! ```
#![tactic(auto)]

mod clock;
mod guard;

pub use clock::latest_time;
pub use guard::{Bar, FURTHEST, Guard, LAST_START};
