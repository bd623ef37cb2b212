//! Opens the file of keys, which has to be owned by the user, without permissions for others.
//!
//! Its tests are in the crate `seal_tests`.
//!
//! It is a crate of its own so that `key_file`, which parses the text, needs no file system. Not taken: a check of the
//! owner by the file's name before it is opened, since the file could be replaced in between.
//!
//! An example of its use:
//!
//! ```
//! let keys = open_keys(&rt, rt.alloc(), "/home/site/keys")?;
//! assert!(rt; keys.dialing(b"site-2").is_some());
//! ```
#![tactic(auto)]

mod files;
mod line;
mod owned;
mod reader;

pub use files::open_keys;
pub use line::keys_line;
pub use owned::{FileOwner, owned_keys};
pub use reader::{KeyReader, NoKeys, SystemKeys};
