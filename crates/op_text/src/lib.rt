//! The JSON texts of operations, bodies and fronts.
//!
//! Its tests are in the crate `text_tests`.
//!
//! It is a crate of its own so that snapshots, journals, sessions and scripts share one text format for operations. Not
//! taken: a binary format, which people and other tools can't read; `serde`'s derives, since a refusal has to name the
//! first bad key. A text in exactly the form that is written is read in one pass, and any other by `serde_json`.
//!
//! An operation is one JSON object (RFC 8259), read as serde_json's `Value` reads it and written compactly, with its
//! members in byte order of their keys, on one line. `op` says the kind; a body is the same object without `seq`,
//! `site`, `start` and `time`.
//!
//! | `op` | Keys beside `op`, `seq`, `site`, `start`, `time` |
//! |---|---|
//! | `patchset` | `change`, `message`, `set`, and `parent` where there is one |
//! | `vote` | `change`, `label`, `set`, `value`, `voter` |
//! | `withdraw` | `change`, `label`, `set`, `voter` |
//! | `abandon`, `restore`, `merged` | `change` |
//!
//! `time` is a whole number below 2^64, `seq` one from 1 on, `site` one below 2^16, `start`, `change`, `set` and
//! `parent` are below 2^32, `value` is from -128 to 127, the others are texts. A label is read in any case, and kept
//! and written in lower case. A front is a list of lists `[site,start,n]`.
//!
//! An example of its use:
//!
//! ```
//! let body = Body::checked(read_body(alloc, br#"{"op":"merged","change":101}"#)?)?;
//! let text = write_body(alloc, &body)?;
//! assert_eq!(rt; text.as_str(), r#"{"change":101,"op":"merged"}"#);
//! ```
#![tactic(auto)]

mod canonical;
mod fault;
mod field;
mod front;
mod laws;
mod parts;
mod read;
mod shape;
mod write;

pub use fault::OpTextFault;
pub use front::{read_front, write_front};
pub use laws::{bodies_are_spelled, operations_are_spelled, texts_spell_once};
pub use read::{read_body, read_op};
pub use write::{append_op, write_body, write_op};
