//! The file of the keys that a site accepts, and that it uses as a client.
//!
//! Its tests are in the crate `seal_tests`.
//!
//! It is a crate of its own because client and server have to name a key without disclosing it; removing its line from
//! the file revokes it. Not taken: TOML, whose parse errors quote the values.
//!
//! An example of its use:
//!
//! ```
//! let text = b"# keys\nsite-2 feed 000102030405060708090a0b0c0d0e0f101112131415161718191a1b1c1d1e1f\n";
//! let keys = read_keys(alloc, text)?;
//! let key = keys.dialing(b"site-2").ok_or("a key")?;
//! assert!(rt; key.role() == Role::Feed);
//! assert!(rt; keys.letting_in(&key_id(key.secret())).is_some());
//! ```
#![tactic(auto)]

mod fault;
mod key;
mod keys;
mod line;

pub use fault::KeyFault;
pub use key::{Key, Role};
pub use keys::{Keys, read_keys};
