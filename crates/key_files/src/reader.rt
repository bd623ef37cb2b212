//! What reads the keys of a site.

use super::files::open_keys;
use key_file::{KeyFault, Keys};
use std::alloc::Global;
use std::random::RandomSource;
use std::rt::Files;

/// What reads the keys of a site, and makes the nonces of its connections.
pub trait KeyReader {
    /// The keys of the file of a name. Refusals: those of `open_keys`.
    fn keys(&self, name: &str) -> Result<Keys, KeyFault>;

    /// Sixteen random bytes, other ones each time. Refusal: 4 `ReadFault`, there are none.
    fn nonce(&self) -> Result<[u8; 16], KeyFault>;
}

/// Reads none: there is no file of keys.
#[derive(Clone, Copy, Debug, PartialEq, Eq)]
pub struct NoKeys;

impl KeyReader for NoKeys {
    fn keys(&self, _name: &str) -> Result<Keys, KeyFault> {
        Err(KeyFault::ReadFault)
    }

    fn nonce(&self) -> Result<[u8; 16], KeyFault> {
        Err(KeyFault::ReadFault)
    }
}

/// The files of the system, and its random bytes. No contract can say what they are.
#[derive(Drop)]
pub struct SystemKeys<R: Drop> {
    rt: R,
}

impl<R: Drop> SystemKeys<R> {
    /// The files that `rt` opens.
    pub fn new(rt: R) -> SystemKeys<R> {
        SystemKeys { rt }
    }
}

impl<R: Files + RandomSource + AllocGlobal + Drop> KeyReader for SystemKeys<R> {
    fn keys(&self, name: &str) -> Result<Keys, KeyFault> {
        let alloc: Global = self.rt.alloc();
        open_keys(&self.rt, alloc, name)
    }

    fn nonce(&self) -> Result<[u8; 16], KeyFault> {
        let mut nonce = [0; 16];
        match self.rt.fill_bytes(&mut nonce) {
            Ok(()) => Ok(nonce),
            Err(_) => Err(KeyFault::ReadFault),
        }
    }
}
