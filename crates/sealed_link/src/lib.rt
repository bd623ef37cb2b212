//! The handshake of a sealed connection on both sides, and the sealed lines of the server side, for a loop that polls
//! sockets.
//!
//! Its tests are in the crate `seal_tests`.
//!
//! It is a crate of its own so that the client, the server and the loop that polls a site's sockets share one
//! handshake. Not taken: nonces generated here: the caller passes them, so that the handshake is a function of its
//! arguments.
//!
//! An example of its use:
//!
//! ```
//! let keys = read_keys(alloc, b"site-2 feed 000102030405060708090a0b0c0d0e0f101112131415161718191a1b1c1d1e1f\n")?;
//! let key = keys.dialing(b"site-2").ok_or("a key")?;
//! let greeting = Greeting { site: 2, id: key_id(key.secret()), nonce: [1; 16] };
//! let admitted = admit(alloc, &keys, &greeting, 1, [2; 16])?.ok_or("a key")?;
//! let mut sent = Vec::new(alloc);
//! let mut source = Ends::new(admitted.answer.as_slice());
//! let dialed = dial(alloc, key.secret(), 2, [1; 16], &mut source, &mut Ends::new(&mut sent))?;
//! ```
#![tactic(auto)]

mod admitting;
mod dialing;
mod fault;
mod laws;
mod wire;

pub use admitting::{Admitted, admit, refusal_line};
pub use dialing::{dial, dialed};
pub use fault::{DialFault, WireFault};
pub use laws::what_is_sealed_is_opened;
pub use wire::Wire;
