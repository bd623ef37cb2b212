//! Lines that come from a source: each is handed out once its LF was read, whatever pieces the bytes come in.
//!
//! Its tests are in the crate `site_tests`.
//!
//! It is a crate of its own because lines from a socket have a maximum length, and a longer line is skipped without
//! being held in memory. Not taken: `BufRead::read_line`, which has no limit, and `tokio_util`'s `LinesCodec`, which
//! brings a runtime of futures.
//!
//! An example of its use:
//!
//! ```
//! let mut source = Ends::new(b"one\r\ntwo\n".as_slice());
//! let mut reader = LineReader::new(alloc, 80)?;
//! assert!(rt; reader.next_line(&mut source)?);
//! assert_eq!(rt; reader.line(), b"one".as_slice());
//! ```
#![tactic(auto)]

mod cut;
mod reader;

pub use cut::first_lf;
pub use reader::LineReader;

/// How many bytes a line of a session or of a journal may have, without its line end.
pub const LINE_LIMIT: usize = 524_288;
