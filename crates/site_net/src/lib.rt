//! The connections of a site: listeners, ends with time-outs, and the flag that asks a site to stop.
//!
//! Its tests are in the crate `serve_tests`.
//!
//! It is a crate of its own so that every wait of a site for another machine has a time-out. Not taken: `tokio`, whose
//! tasks would have to carry the desk between threads; sockets without time-outs, with which a silent peer would block
//! a pull forever.
//!
//! An example of its use:
//!
//! ```
//! use std::time::Duration;
//! let patience = Patience { limit: Duration::from_secs(10), idle: None };
//! assert!(rt; patience.is_over(Awaited::FirstLine, Duration::from_secs(11)));
//! assert!(rt; !patience.is_over(Awaited::NextLine, Duration::from_secs(11)));
//! let stop = Stop::new();
//! stop.ask(&rt);
//! assert!(rt; stop.is_asked());
//! ```
#![tactic(auto)]

mod connect;
mod listener;
mod patience;
mod reader;
mod stop;
mod writer;

pub use connect::{connected, connected_to_host};
pub use listener::{Listener, listen_at_host, listen_at_path, listen_at_port};
pub use patience::{Awaited, Patience};
pub use reader::PatientReader;
pub use stop::Stop;
pub use writer::PatientWriter;
