//! HMAC-SHA-256 (RFC 2104, RFC 4231): authentication tags.
//!
//! Its tests are in the crate `seal_tests`.
//!
//! It is a crate of its own because the toolchain has SHA-256 but no HMAC. Not taken: SHA-256 of the key and the
//! message, which allows length-extension attacks.
//!
//! An example of its use:
//!
//! ```
//! let mac = Mac::new(&[7; 32]);
//! let tag = mac.tag(b"one ", b"message");
//! assert!(rt; mac.is_tag(b"one ", b"message", tag.as_slice()));
//! assert!(rt; !mac.is_tag(b"another", b"message", tag.as_slice()));
//! ```
#![tactic(auto)]

mod mac;

pub use mac::{Mac, Tag, is_same};
