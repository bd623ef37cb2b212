//! Feeds Gerrit's output to a site on this machine or, over a sealed connection, on another one: sends what
//! `event_feed` reads of each line to a session of the site, except what the site's record has already. The feed first
//! pulls the record, and then keeps its state in step with what it sends and with what others bring to the site.
//!
//! Its tests are in the crate `feed_tests`.
//!
//! It is a crate of its own so that a feed is a client like any other, and a site doesn't depend on Gerrit. Not taken:
//! Gerrit's REST API and an SSH library: `ssh` itself is better maintained, and its output can be recorded and
//! replayed.
//!
//! | Line on standard error | Meaning |
//! |---|---|
//! | `reviewgate: events 1 BadEvent n KEY` | line n is no event, lacks what its kind needs, or has a bad body |
//! | `reviewgate: events 1 BadEvent n status` | line n abandons or restores a change that is merged |
//! | `reviewgate: events 2 Dropped n` | line n says that Gerrit dropped events; the feed ends |
//! | `reviewgate: events 6 Refused n NUMBER NAME` | the site answered `no NUMBER NAME` to a body of line n |
//!
//! | Line of the output | Where |
//! |---|---|
//! | `pulled N` | the record of N operations is pulled, and the input is read from now on |
//! | `ask N` | change N has to be queried: for an event of it, or since a whole answer doesn't list it |
//! | `need N` | change N has to be queried: for a line of another change |
//!
//! An example of its use:
//!
//! ```
//! assert!(rt; read_answer(alloc, b"ok 5,1,1,2").is_ok());
//! let mut front = Front::new(alloc);
//! let first = Stamp::new(5, 1, 1, 1).ok_or("a stamp")?;
//! go_on(&mut front, first)?;
//! assert_eq!(rt; front.reach(Row { site: 1, start: 1 }), 1);
//! ```
#![tactic(auto)]

mod answer;
mod answer_reader;
mod connection;
mod holding;
mod inlet;
mod inlet_reader;
mod intake;
mod link;
mod listing;
mod meet;
mod noted;
mod pull;
mod session;
mod site_feed;
mod watch;

pub use answer::read_answer;
pub use connection::{FeedOrder, Feeds, feed_to};
pub use holding::{AnswerFeed, HeldLine, feed_answer};
pub use intake::{Intake, IntakeFault, Refusal};
pub use link::FedSite;
pub use listing::{Listing, complete_site};
pub use noted::Noted;
pub use pull::{fronts_have_no_gap, go_on, pull_all};
pub use site_feed::{SiteFeed, feed_site};
