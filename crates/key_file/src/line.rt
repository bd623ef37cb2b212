//! A line of the file.

ghost use Rattle.std.specs.Prelude.{◌≡◌, ◌≢◌, ◌⊎◌, ◌↔◌, ◌++◌, ◌∷◌, [], List, ℕ, IfErr, IfOk, IsTrue, MatchOption, MatchResult, All};
ghost use Rattle.std.specs.List.{list_all};
ghost use Rattle.site_address.specs.Host.{is_plain_byte};
ghost use Rattle.site_address.specs.Peer.{IsName};
ghost use Rattle.key_file.specs.Files.{KeyEntry as AnyEntry, IsPassedOver, SaysKey, role_text};
ghost use Rattle.key_file.specs.declared.fault.KeyFault.{KeyFault};
ghost use Rattle.key_file.specs.declared.key.Role.{Role as AnyRole};

use super::key::{Key, Role};
use keyed_digest::is_same;
use sealed_line::{last_word, lower_hex};
use std::alloc::{AllocError, Global};

/// Whether a line is passed over: it is empty, or begins with `#`.
pub(super) fn is_passed_over(line: &[u8]) -> bool
    ensures { IsTrue result ↔ IsPassedOver line.now }
{
    match line.first() {
        None => true,
        Some(byte) => *byte == b'#',
    }
}

/// The key that a line says; nothing where it says none.
pub(super) fn key_of(alloc: Global, line: &[u8]) -> Result<Option<Key>, AllocError>
    ensures { IfOk result (λ key. MatchOption key ((entry : AnyEntry) → ¬ SaysKey line.now entry) (SaysKey line.now)) }
{
    let Some((front, secret)) = last_word(line, 64) else {
        return Ok(None);
    };
    let Some((name, role)) = last_word(front, 4) else {
        return Ok(None);
    };
    let Some(role) = role_of(role) else {
        return Ok(None);
    };
    let Some(secret) = lower_hex(secret) else {
        return Ok(None);
    };
    if !is_name(name) {
        return Ok(None);
    }
    match Vec::from_slice(alloc, name) {
        Ok(name) => Ok(Some(Key::of(name, role, secret))),
        Err(error) => Err(error),
    }
}

/// The role that a word says.
fn role_of(word: &[u8]) -> Option<Role>
    ensures { MatchOption result ((role : AnyRole) → word.now ≢ role_text role) (λ role. word.now ≡ role_text role) }
{
    if is_same(word, b"read") {
        return Some(Role::Read);
    }
    if is_same(word, b"feed") {
        return Some(Role::Feed);
    }
    None
}

/// Whether a word is a name: 1 to 64 letters, digits, `-`, `.` or `_`.
fn is_name(word: &[u8]) -> bool
    ensures { IsTrue result ↔ IsName word.now }
{
    if word.is_empty() {
        return false;
    }
    if word.len() > 64 {
        return false;
    }
    is_plain(word)
}

/// Whether a name may have each byte of a word.
fn is_plain(word: &[u8]) -> bool
    ensures { result ≡ list_all is_plain_byte word.now }
{
    word.iter().all(|byte| is_name_byte(*byte))
}

/// Whether a name may have a byte.
fn is_name_byte(byte: u8) -> bool
    ensures { result ≡ is_plain_byte byte }
{
    matches!(byte, b'0'..=b'9' | b'A'..=b'Z' | b'a'..=b'z' | b'-' | b'.' | b'_')
}
