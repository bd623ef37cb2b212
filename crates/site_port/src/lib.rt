//! The traits of a site as sessions (`Port`) and pulls (`Sink`) see it, and the plain site that implements both.
//!
//! Its tests are in the crate `site_tests`.
//!
//! It is a crate of its own so that the contract of a session holds over any site: the plain one of the tests, and one
//! that threads share. Not taken: sessions over a replica itself, whose contract would say nothing about a running
//! site.
//!
//! | Fault | Where |
//! |---|---|
//! | 1 `ClockSpent`, 2 `BadBody` | of an intake alone |
//! | 3 `NoMemory` | memory was refused |
//! | 4 `Closed` | the site has ended |
//! | 11 `NotListed`, 12 `FarAhead` | of a guarded sink alone: it is handed an operation that isn't allowed |
//!
//! An example of its use:
//!
//! ```
//! use site_port::Port;
//! let gate = Gate::read(alloc, br#"{"bases":["https://r/"]}"#)?;
//! let mut port = OwnPort::new(Replica::new(alloc), gate, 1, 1);
//! let stamp = port.intake(Draft::Merged { change: 101 })?;
//! assert_eq!(rt; stamp.seq(), 1);
//! ```
#![tactic(auto)]

mod fault;
mod guarded;
mod laws;
mod own;
mod port;

pub use fault::{PortFault, SinkFault};
pub use guarded::Guarded;
pub use laws::own_replies_are_one;
pub use own::{OwnPort, take_each};
pub use port::{Port, Sink};
