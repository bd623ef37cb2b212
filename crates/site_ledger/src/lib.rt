//! A ledger: the desk of a running site together with its keeper, the journal or none. Every operation is kept before
//! it is published.
//!
//! Its tests are in the crate `site_tests`.
//!
//! It is a crate of its own so that "kept before published" is the invariant of one struct, over any keeper. Not taken:
//! publishing first and syncing later, which answers `ok` for what a crash loses.
//!
//! An example of its use, without a journal:
//!
//! ```
//! let (desk, windows) = open_site(&rt, 1, 1, 1, Replica::new(alloc))?;
//! let mut ledger = Ledger::new(desk, NoJournal);
//! let stamp = ledger.hold(Draft::Merged { change: 101 });
//! let receipt = ledger.publish(&rt);
//! let Remains { keeper: _, shown } = ledger.end(&rt);
//! assert!(rt; stamp.is_ok() && receipt.is_ok() && shown.len() == 1);
//! ```
#![tactic(auto)]

mod keeps;
mod ledger;

pub use keeps::{Keeps, NoJournal};
pub use ledger::{Ledger, LedgerFault, Remains};
