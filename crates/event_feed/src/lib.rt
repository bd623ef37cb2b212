//! Feeds Gerrit's output, line by line: its event stream, or its answer to a query. Each line is parsed, and the result
//! handed to a taker, before the next line is read; `events_run` turns it into the lines of a session with a site. Its
//! output is what a client of the session sends, `hello 2` and then a line `take BODY` for each body. What is lost of a
//! line is reported on standard error.
//!
//! Its tests are in the crate `text_tests`.
//!
//! It is a crate of its own so that a printed feed and a feed of a site share one reader. Not taken: asynchronous
//! streams of `futures`, for one input that is read line by line.
//!
//! | Line on standard error | Meaning |
//! |---|---|
//! | `reviewgate: events 1 BadEvent n KEY` | line n is no event, lacks what its kind needs, or has a bad body |
//! | `reviewgate: events 2 Dropped n` | line n says that Gerrit dropped events; the feed ends |
//!
//! An example of its use:
//!
//! ```
//! let line = b"{\"type\":\"change-abandoned\",\"change\":{\"number\":101}}\n".as_slice();
//! let mut source = Ends::new(line);
//! let mut writer = EventWriter {
//!     alloc,
//!     output: Ends::new(Vec::new(alloc)),
//!     errors: Ends::new(Vec::new(alloc)),
//! };
//! events_run(alloc, Input::Stream, &Projects::all(), &mut source, &mut writer)?;
//! let lines = b"hello 2\ntake {\"change\":101,\"op\":\"abandon\"}\n".as_slice();
//! assert_eq!(rt; writer.output.get_ref().as_slice(), lines);
//! ```
#![tactic(auto)]

mod events;
mod fault;
mod feed;
mod handing_over;
mod progress;
mod taker;
mod texts;

pub use events::{EventWriter, events_run, send};
pub use fault::FeedFault;
pub use feed::{feed_lines, feed_most};
pub use progress::{Input, Progress, answers_end_with_statistics};
pub use taker::Taker;
pub use texts::fault_line;
