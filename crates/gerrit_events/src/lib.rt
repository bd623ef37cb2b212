//! What Gerrit's lines add to a review record: those of its event stream ("stream-events") and of the answers to its
//! queries ("query"), whose attributes are those of "JSON Data". A line is one JSON object; `docs/FORMATS.md` has the
//! table of everything that is read of it.
//!
//! Its tests are in the crate `text_tests`.
//!
//! It is a crate of its own so that Gerrit's formats are known in one place. Not taken: `serde`'s derives over Gerrit's
//! attributes, since Gerrit leaves keys out and adds others from version to version.
//!
//! | `type` | What it brings |
//! |---|---|
//! | `patchset-created` | the patch set |
//! | `comment-added` | the votes of the author |
//! | `vote-deleted`, `reviewer-deleted` | the votes of the reviewer that stay, and the withdrawn ones |
//! | `change-abandoned`, `change-deleted` | an abandon |
//! | `change-restored` | a restore |
//! | `change-merged` | a merge |
//! | `wip-state-changed`, `private-state-changed` | a vote of the reserved voter `gerrit`, or its withdrawal |
//! | `dropped-output` | that events are lost |
//! | `stats`, `error` | nothing: the answer to a query ends |
//! | none | a row of a query: its patch set, all votes, and the status |
//!
//! Each event but `dropped-output` shows its patch set first, unless this run has brought it.
//!
//! An example of its use:
//!
//! ```
//! let line = br#"{"type":"change-abandoned","change":{"number":101}}"#;
//! let mut known = Known::new(alloc);
//! let parsed = read_event(alloc, &mut known, &Projects::all(), line)?;
//! assert_eq!(rt; parsed.findings.len(), 1);
//! ```
#![tactic(auto)]

mod claim;
mod event;
mod fault;
mod finding;
mod kind;
mod known;
mod line;
mod listing;
mod mark;
mod message;
mod number;
mod parsed_line;
mod part;
mod patch;
mod projects;
mod read;
mod row;
mod tree;
mod value;

pub use fault::{EventFault, EventKey};
pub use finding::Finding;
pub use known::Known;
pub use listing::{Ballot, Listing};
pub use parsed_line::ParsedLine;
pub use part::Part;
pub use projects::Projects;
pub use read::read_event;
pub use row::{ChangePlace, QueryLine, read_query_line};
