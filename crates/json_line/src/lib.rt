//! Writes a JSON object on one line, member by member.
//!
//! Its tests are in the crate `command_tests`.
//!
//! It is a crate of its own so that every answer in JSON is written by the same few functions. Not taken: a tree of
//! values that is printed at the end, which would hold a long list in memory twice.
//!
//! An example of its use:
//!
//! ```
//! use json::Writer;
//! let mut out = Writer::new(Vec::new(alloc));
//! open_object(&mut out)?;
//! put_number(&mut out, "change", 101)?;
//! close_object(&mut out)?;
//! assert_eq!(rt; line_of(out)?.as_slice(), b"{\"change\":101}\n".as_slice());
//! ```
#![tactic(auto)]

mod lists;
mod members;
mod nested;

pub use lists::{put_numbers, put_texts, put_words};
pub use members::{
    close_list, close_object, line_of, open_list, open_member, open_object, put_flag, put_null,
    put_number, put_option, put_signed, put_text,
};
pub use nested::put_json;
