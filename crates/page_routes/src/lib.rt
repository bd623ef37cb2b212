//! The routes of a site's pages: how the target of a request is matched to a route, and the type of the page that
//! answers it.
//!
//! Its tests are in the crate `page_server_tests`.
//!
//! It is a crate of its own so that the crate that writes the pages and the one that serves them share only these
//! types, and the table of routes is proved independently of both. Not taken: a router with patterns, whose precedence
//! a reader would have to know; its own decoding of query strings and percent-encoding, which `form_urlencoded` has;
//! request bodies in JSON, since the pages are read-only.
//!
//! An example of its use:
//!
//! ```
//! let route = route_of(alloc, "/change/103,1", None)?;
//! assert!(rt; route == Some(Route::Change(Place { change: 103, set: Some(1) })));
//! assert!(rt; route_of(alloc, "/change/0103", None)?.is_none());
//! ```
#![tactic(auto)]

mod asked;
mod choice;
mod form;
mod number;
mod page;
mod route;

pub use asked::route_of;
pub use page::{Kind, Page, Status};
pub use route::{Choice, Place, Reason, Route, Shown};
