//! The pages of a running site: the HTML, JSON or text that answers each route.
//!
//! Its tests are in the crate `page_tests`.
//!
//! It is a crate of its own so that a page is a function of the record, the gate, the verdicts and a few facts of the
//! site, apart from sockets and clocks. Not taken: a page that a script builds from JSON, which shows nothing where no
//! script runs; one long list, which a browser can't show of 100,000 items.
//!
//! An example of its use:
//!
//! ```
//! let gate = Gate::read(alloc, br#"{"bases":["https://r/"]}"#)?;
//! let replica = Replica::new(alloc);
//! let verdicts = evaluate(alloc, replica.state(), &gate)?;
//! let facts = Facts {
//!     site: 1,
//!     start: 1,
//!     age_ms: 0,
//!     news_ms: None,
//!     peers: Vec::new(alloc),
//!     sessions: 0,
//!     publishes: 0,
//!     requests: 1,
//!     refused_hosts: 0,
//!     update_us: 0,
//!     workers: 1,
//!     busy_workers: 0,
//!     session_faults: 0,
//!     refused_connections: 0,
//!     journal: None,
//!     heard_ms: None,
//! };
//! let page = page_of(alloc, &Route::Health, &gate, &replica, &verdicts, &facts)?;
//! assert_eq!(rt; page.body.as_slice(), b"ok\n".as_slice());
//! ```
#![tactic(auto)]

mod answer;
mod chain;
mod change;
mod conditions;
mod counts;
mod drawing;
mod durations;
mod facts;
mod form;
mod frame;
mod held;
mod json_change;
mod json_items;
mod json_status;
mod labels;
mod laws;
mod lines;
mod links;
mod list;
mod metrics;
mod metrics_peers;
mod metrics_work;
mod names;
mod needs;
mod reached;
mod rows;
mod samples;
mod search;
mod sheet;
mod statuses;
mod style;
mod subject;
mod table;
mod template;
mod unknown;
mod verdict;
mod waiting;
mod words;

pub use answer::{page_of, same_page};
pub use facts::{Facts, JournalFacts, PeerFacts};
pub use laws::pages_are_the_report;
pub use reached::reached_from;
pub use rows::{ROWS, Row, chosen_rows, rows_of};
pub use style::{SCRIPT, STYLE};
pub use waiting::waiting_for;
