//! Judges the keys of a site before it runs, and reads them while it does.

use super::command::Ended;
use command_line::ServeWords;
use key_file::{KeyFault, Keys};
use key_files::KeyReader;
use site_address::PeerAddress;
use site_serve::SessionHooks;

/// The hooks of a site that does nothing before and after a session, and reads keys with this reader.
#[derive(Drop)]
pub struct KeyHooks<'a, L: KeyReader> {
    pub reader: &'a L,
}

impl<L: KeyReader> KeyReader for KeyHooks<'_, L> {
    fn keys(&self, name: &str) -> Result<Keys, KeyFault> {
        self.reader.keys(name)
    }

    fn nonce(&self) -> Result<[u8; 16], KeyFault> {
        self.reader.nonce()
    }
}

impl<L: KeyReader> SessionHooks for KeyHooks<'_, L> {
    fn before(&self, _session: u64) {}

    fn after(&self, _session: u64) {}
}

/// Judges the file of keys that the words name, if they name one: it has to be read, and to have a key of each name
/// that a peer is to be dialed with.
pub fn judge_keys<'a, L: KeyReader>(reader: &L, words: &ServeWords<'a>) -> Result<(), Ended<'a>> {
    let Some(name) = words.keys else {
        return Ok(());
    };
    let keys = match reader.keys(name) {
        Ok(keys) => keys,
        Err(fault) => return Err(Ended::Keys(fault, name)),
    };
    match first_without_key(&keys, words.peers.as_slice()) {
        Some(lacking) => Err(Ended::Keys(KeyFault::NoKey, lacking)),
        None => Ok(()),
    }
}

/// The first name that a peer is to be dialed with of which there is no key.
fn first_without_key<'a>(keys: &Keys, peers: &[PeerAddress<'a>]) -> Option<&'a str> {
    for peer in peers {
        if let PeerAddress::There { key, at: _ } = peer
            && keys.dialing(key.as_bytes()).is_none()
        {
            return Some(*key);
        }
    }
    None
}
