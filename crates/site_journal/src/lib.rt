//! A journal on disk: the meaning of its file, how it is opened, and the guarantee that acknowledged operations survive
//! a crash.
//!
//! Its tests are in the crate `site_tests`.
//!
//! It is a crate of its own so that its crash guarantee is stated over an abstract tape, without files. Not taken:
//! `sqlite`, whose own journal would be a second one, and a database of keys and values: the record is a list that only
//! grows.
//!
//! The first line is `reviewgate 2`; each further line is one operation, in the order in which they arrived. Bytes
//! after the last line end are a line that a crash tore, and are ignored.
//!
//! An example of its use:
//!
//! ```
//! let tape = MemoryTape::new(Vec::new(alloc));
//! let mut started = Journal::open(alloc, tape)?;
//! let stamp = started.replica.next_stamp(1, 1)?;
//! let op = Op::new(stamp, Body::checked(Draft::Merged { change: 101 })?);
//! let line = r#"{"change":101,"op":"merged","seq":1,"site":1,"start":1,"time":1}"#;
//! started.journal.append(&[op])?;
//! let text = format!(in alloc; "reviewgate 2\n{line}\n")?;
//! assert_eq!(rt; started.journal.tape().synced(), text.as_bytes());
//! ```
#![tactic(auto)]

mod fault;
mod journal;
mod laws;
mod leaving;
mod memory;
mod opening;
mod reading;
mod recovery;
mod tape;

pub use fault::{JournalFault, KeepFault, LineCause};
pub use journal::{Journal, Started};
pub use laws::{
    crashes_lose_nothing_acknowledged, journals_have_one_reading, journals_say_their_operations,
};
pub use leaving::LeftOut;
pub use memory::MemoryTape;
pub use opening::{Opened, open_tape};
pub use recovery::{RecoverFault, recover};
pub use tape::{Feed, SourceFeed, Tape};
