//! Lines between sites on different machines, encrypted and authenticated under keys that only these have. A line that
//! was changed, inserted or replayed isn't opened, nor is any line after a dropped one; a truncation at the end of a
//! connection isn't detected.
//!
//! Its tests are in the crate `seal_tests`.
//!
//! It is a crate of its own because the toolchain has no TLS. It is built on the toolchain's SHA-256, ChaCha20 block
//! function, base64 and hex. Not taken: a cipher without a tag, which allows bit-flipping; one key for both directions,
//! which allows reflection.
//!
//! An example of its use:
//!
//! ```
//! let mut ours = Seal::new(&[1; 32], &[2; 32]);
//! let mut line = Vec::new(alloc);
//! ours.seal(alloc, b"hello 2", &mut line)?;
//! let mut theirs = Seal::new(&[1; 32], &[2; 32]);
//! let mut text = Vec::new(alloc);
//! let length = line.len() - 1;
//! theirs.open(alloc, &line[..length], &mut text)?;
//! assert_eq!(rt; text.as_slice(), b"hello 2\n".as_slice());
//! ```
#![tactic(auto)]

mod cross;
mod digits;
mod fault;
mod greeting;
mod keys;
mod laws;
mod seal;

pub use digits::lower_hex;
pub use fault::SealFault;
pub use greeting::{Answer, Greeting, Reply, last_word};
pub use keys::{KeyId, SessionKeys, key_id, session_keys};
pub use laws::{no_block_twice, opening_gives_back};
pub use seal::Seal;

/// How many bytes a sealed line may have, without its line end: what a line of 524,288 bytes is sealed to.
pub const SEALED_LIMIT: usize = 699_096;
