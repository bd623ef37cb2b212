//! A running site: it answers sessions over sockets, pulls from its peers, and prints its report whenever that changes.
//!
//! Its tests are in the crate `serve_tests`.
//!
//! Those over a running program are plays, in `plays`.
//!
//! It is a crate of its own so that threads and sockets are in one place. Not taken: a thread for each session (silent
//! clients would use up the threads), `tokio` and `hyper` (a runtime of futures around one loop over `mio`), and a
//! second thread between sockets and desk, which would have to be woken for each `take`.
//!
//! An example of its use:
//!
//! ```
//! use std::sync::Arc;
//! #[derive(Drop)]
//! struct Quiet;
//! impl SessionHooks for Quiet {
//!     fn before(&self, _session: u64) {}
//!     fn after(&self, _session: u64) {}
//! }
//! impl KeyReader for Quiet {
//!     fn keys(&self, name: &str) -> Result<Keys, KeyFault> {
//!         NoKeys.keys(name)
//!     }
//!     fn nonce(&self) -> Result<[u8; 16], KeyFault> {
//!         NoKeys.nonce()
//!     }
//! }
//!
//! let listener = listen_at_port(&rt, 0)?;
//! let setup = Setup {
//!     gate: Gate::read(alloc, br#"{"bases":["https://r/"]}"#)?,
//!     reloads: Arc::new(alloc, Reloads::new())?,
//!     replica: Replica::new(alloc),
//!     site: 1,
//!     start: 1,
//!     peers: Vec::new(alloc),
//!     keys: None,
//!     workers: 1,
//!     pause_ms: 1000,
//!     sessions: 0,
//!     idle_ms: 0,
//!     connections: 1024,
//!     prints: Prints::Report,
//!     sites: Vec::new(alloc),
//!     page: None,
//! };
//! let stop = Stop::new();
//! stop.ask(&rt);
//! let (output, errors) = (Ends::new(Vec::new(alloc)), Ends::new(Vec::new(alloc)));
//! let served = serve_run(&rt, alloc, listener, setup, &stop, output, errors, &Quiet)?;
//! assert_eq!(rt; served.replica.len(), 0);
//! ```
#![tactic(auto)]

mod admission;
mod ask;
mod channel;
mod ended;
mod errors;
mod event_loop;
mod gate_follower;
mod gossip;
mod group_commit;
mod inbox;
mod jobs;
mod kept_verdicts;
mod laws;
mod lines;
mod listeners;
mod metrics;
mod news;
mod opening;
mod outbox;
mod pages;
mod places;
mod port;
mod reloads;
mod reports;
mod requests;
mod run;
mod session;
mod session_fault;
mod setup;
mod site_context;
mod thread_ends;
mod threads;
mod wakeup;
mod workers;

pub use ended::EndedSite;
pub use laws::{
    answered_stamps_survive, pulls_of_sites_pass_on_all, sites_that_pulled_print_the_same,
};
pub use reloads::Reloads;
pub use run::{serve_keeping, serve_run};
pub use setup::{PageSetup, Prints, ServeFault, Served, SessionHooks, Setup};
