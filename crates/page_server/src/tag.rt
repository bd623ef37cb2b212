//! Entity tags: whether a browser has kept a text.

ghost use Rattle.std.specs.Prelude.{◌≡◌, ◌++◌, ◌↔◌, IfOk, IsTrue, codes, string_bytes};
ghost use Rattle.page_server.specs.Tags.{IsNamed, IsNamedIn, tag_text};

use http::header::{HeaderMap, HeaderValue, IF_NONE_MATCH};
use memchr::memmem;
use sha2::{Digest, Sha256};
use std::alloc::{AllocError, Global};

/// The entity tag of a text: the SHA-256 of its bytes, in quotation marks. It costs O(n) for n bytes.
pub(crate) fn tag_of(alloc: Global, text: &[u8]) -> Result<String, AllocError>
    ensures { IfOk result (λ tag. string_bytes tag ≡ tag_text text.now) }
{
    let digest = hex::encode(alloc, Sha256::digest(text).as_slice())?;
    quoted(alloc, digest.as_str())
}

/// A text in quotation marks.
fn quoted(alloc: Global, text: &str) -> Result<String, AllocError>
    ensures { IfOk result (λ tag. string_bytes tag ≡ codes "\"" ++ text.now ++ codes "\"") }
{
    format!(in alloc; "\"{text}\"")
}

/// Whether a request names an entity tag, of any text or of this one: then who sends it has kept that text.
pub(crate) fn is_named(headers: &HeaderMap<HeaderValue>, tag: &[u8]) -> bool
    ensures { IsTrue result ↔ IsNamed tag.now headers.now }
{
    for value in headers.get_all(IF_NONE_MATCH).iter() {
        if is_named_in(value.as_bytes(), tag) {
            return true;
        }
    }
    false
}

/// Whether a value of the field names an entity tag.
fn is_named_in(value: &[u8], tag: &[u8]) -> bool
    ensures { IsTrue result ↔ IsNamedIn tag.now value.now }
{
    if value == b"*".as_slice() {
        return true;
    }
    match memmem::find(value, tag) {
        Some(_) => true,
        None => false,
    }
}
