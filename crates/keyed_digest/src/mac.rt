//! Makes tags, and compares them.

ghost use Rattle.std.specs.Prelude.{◌≡◌, ◌++◌, ◌↔◌, List, ℕ, IsTrue};
ghost use Rattle.sha2.specs.Hashers.{Holds256};
ghost use Rattle.sha2.specs.Sha256.{sha256};
ghost use Rattle.keyed_digest.specs.Hmac.{hmac, pad};

use sha2::{Digest, Sha256};
use std::marker::Model;

/// A tag: 32 bytes. Compare tags by `Mac::is_tag` or `is_same`, which look at each byte, wherever they differ.
pub type Tag = [u8; 32];

/// How many bytes a block of SHA-256 has.
const BLOCK: usize = 64;

/// The bytes of RFC 2104 with which the key is crossed.
const INNER: u8 = 0x36;

const OUTER: u8 = 0x5C;

/// A key under which tags are made. Contracts see the key; nothing prints it. What hashed its pads is kept, so that no
/// tag hashes them again.
#[derive(Drop)]
pub struct Mac {
    key: [u8; 32],
    /// What has hashed the inner pad.
    inner: Sha256,
    /// What has hashed the outer pad.
    outer: Sha256,
}

impl Model for Mac {
    ghost use Rattle.std.specs.Prelude.{List, ℕ};
    ghost use Rattle.keyed_digest.specs.Pads.{HavePads};

    ghost Value = { List ℕ };

    ghost view = { λ mac. mac.key };

    ghost invariant = { λ mac. HavePads mac.key mac.inner mac.outer };
}

impl Mac {
    /// Makes tags under this key. RFC 2104 fills a shorter one up with zeros.
    pub fn new(key: &[u8; 32]) -> Mac
        ensures { result ≡ key.now }
    {
        Mac {
            key: *key,
            inner: Sha256::new_with_prefix(padded(key, INNER).as_slice()),
            outer: Sha256::new_with_prefix(padded(key, OUTER).as_slice()),
        }
    }

    /// The tag of a message, which is given in two parts: HMAC-SHA-256 of the one followed by the other. It takes no
    /// memory, and costs O(n) for n bytes.
    pub fn tag(&self, first: &[u8], second: &[u8]) -> Tag
        ensures { result ≡ hmac self.now (first.now ++ second.now) }
    {
        let inner = digest_after(&self.inner, first, second);
        digest_after(&self.outer, inner.as_slice(), &[])
    }

    /// Whether these bytes are the tag of a message in two parts. It looks at each byte of a tag, wherever the first
    /// difference is.
    pub fn is_tag(&self, first: &[u8], second: &[u8], given: &[u8]) -> bool
        ensures { IsTrue result ↔ (given.now ≡ hmac self.now (first.now ++ second.now)) }
    {
        let tag = self.tag(first, second);
        is_same(given, tag.as_slice())
    }
}

/// Whether two byte strings are the same. Where they have one length it looks at each byte, wherever the first
/// difference is.
pub fn is_same(left: &[u8], right: &[u8]) -> bool
    ensures { IsTrue result ↔ (left.now ≡ right.now) }
{
    if left.len() != right.len() {
        return false;
    }
    let mut difference: u8 = 0;
    for (i, byte) in left.iter().enumerate() {
        difference |= byte ^ right[i];
    }
    difference == 0
}

/// SHA-256 of what was hashed and of two parts after that.
fn digest_after(hashed: &Sha256, first: &[u8], second: &[u8]) -> [u8; 32]
    ensures { (before : List ℕ) → Holds256 hashed.now before → result ≡ sha256 (before ++ first.now ++ second.now) }
{
    let Ok(mut hasher) = hashed.clone() else {
        unreachable!()
    };
    hasher.update(first);
    hasher.update(second);
    hasher.finalize()
}

/// The key, filled up with zeros to a block, with each byte crossed with this one.
fn padded(key: &[u8; 32], byte: u8) -> [u8; BLOCK]
    ensures { result ≡ pad byte key.now }
{
    let mut block = [byte; BLOCK];
    for (i, of_key) in key.iter().enumerate() {
        block[i] = of_key ^ byte;
    }
    block
}
