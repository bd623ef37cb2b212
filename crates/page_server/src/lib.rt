//! Serves the page of a site over HTTP/1.1, to browsers and programs of this machine.
//!
//! Its tests are in the crate `page_server_tests`.
//!
//! It is a crate of its own so that responses are proved independently of sockets: `PageService` is a service of
//! `http_server`, over requests and responses as values, and `serve_pages` only moves bytes. Not taken: a thread for
//! each connection, which would need a lock around the pages; `hyper`, whose futures would need an executor; TLS and
//! passwords, since it listens on this machine alone; entity tags for pages, since each page is generated per request
//! (the style, the script and the icon have entity tags); long-lived event streams, since a short answer with a `retry`
//! interval suffices.
//!
//! A site gives its pages by `Pages`, makes an endpoint of a listener, and serves there in a thread of its own until it
//! is asked to stop.
//!
//! An example of its use:
//!
//! ```
//! let hosts = [String::from_str(alloc, "gate.example.org")?];
//! assert!(rt; is_own(hosts.as_slice(), b"Gate.Example.org:8443"));
//! assert!(rt; is_own(hosts.as_slice(), b"127.0.0.1"));
//! assert!(rt; !is_own(hosts.as_slice(), b"127.0.0.1.example.org"));
//! assert_eq!(rt; Refusal::OtherHost.text(false), b"421 Misdirected Request\n".as_slice());
//! ```
#![tactic(auto)]

mod asked;
mod client;
mod clients;
mod endpoint;
mod fields;
mod hosts;
mod page_loop;
mod pages;
mod refusal;
mod service;
mod tag;

pub use asked::{Asked, asked_for};
pub use endpoint::{PageEndpoint, PageFault, limits, open_endpoint, open_socket_endpoint};
pub use hosts::is_own;
pub use page_loop::serve_pages;
pub use pages::Pages;
pub use refusal::Refusal;
pub use service::PageService;
