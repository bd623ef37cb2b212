//! The addresses at which a site is reached, and how a command-line argument names one.
//!
//! Its tests are in the crate `words_tests`.
//!
//! It is a crate of its own so that `serve`, `events` and all commands that read the record of a running site accept
//! the same addresses. Not taken: `std::net::SocketAddr`, which names no Unix socket and no host; a host without a key,
//! since a plain session has neither confidentiality nor integrity on a network.
//!
//! An example of its use:
//!
//! ```
//! assert!(rt; matches!(address_of("8101"), Some(Address::Port(8_101))));
//! assert!(rt; matches!(address_of("./8101"), Some(Address::Path("./8101"))));
//! assert!(rt; address_of("8101x").is_none());
//! let at = HostPort { host: "gate.example.org", port: 8_101 };
//! assert!(rt; peer_of("site-2@gate.example.org:8101") == Some(PeerAddress::There { key: "site-2", at }));
//! ```
#![tactic(auto)]

mod address;
mod host;
mod peer;

pub use address::{Address, address_of, has_slash};
pub use host::{HostPort, host_port_of};
pub use peer::{PeerAddress, is_there, peer_of};
