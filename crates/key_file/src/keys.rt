//! All keys of a file.

ghost use Rattle.std.specs.Prelude.{◌≡◌, ◌≢◌, ◌++◌, ◌∷◌, List, ℕ, All, IfErr, IfOk, MatchBool, MatchOption, MatchResult};
ghost use Rattle.byte_ends.specs.Lines.{lines_of};
ghost use Rattle.key_file.specs.Files.{KeyEntry, IsBad, IsFirstKey, AreUnreadKeys, Say, SaysMore};
ghost use Rattle.key_file.specs.declared.fault.KeyFault.TheVariants.{NoKey};
ghost use Rattle.sealed_line.specs.Keys.{id_under};

use super::fault::KeyFault;
use super::key::Key;
use super::line::{is_passed_over, key_of};
use byte_ends::Lines;
use keyed_digest::is_same;
use sealed_line::{KeyId, key_id};
use std::alloc::{AllocError, Global};
use std::marker::Model;

/// The keys of a file, in the order of its lines.
#[derive(Drop)]
pub struct Keys {
    keys: Vec<Key>,
}

impl Model for Keys {
    ghost use Rattle.std.specs.Prelude.{List};
    ghost use Rattle.key_file.specs.Files.{KeyEntry};

    ghost Value = { List KeyEntry };

    ghost view = { λ keys. keys.keys.items };
}

impl Keys {
    /// The key with which a name is dialed: the first one under that name. It takes no memory.
    pub fn dialing(&self, name: &[u8]) -> Option<&Key>
        ensures { MatchOption result (All (λ key. key.name ≢ name.now) self.now)
            (λ found. IsFirstKey (λ key. key.name ≡ name.now) self.now found.now) }
    {
        first_named(self.keys.as_slice(), name)
    }

    /// The secret with which a name is dialed: that of the first key under it. Refusal: 3 `NoKey`, no key has the name.
    /// It takes no memory.
    pub fn secret_of(&self, name: &[u8]) -> Result<[u8; 32], KeyFault>
        ensures { MatchResult result
            (λ secret. (key : KeyEntry) × IsFirstKey (λ key. key.name ≡ name.now) self.now key × (secret ≡ key.secret))
            (λ fault. (fault ≡ NoKey) × All (λ key. key.name ≢ name.now) self.now) }
    {
        match self.dialing(name) {
            Some(key) => Ok(*key.secret()),
            None => Err(KeyFault::NoKey),
        }
    }

    /// The key that is let in by this ID: the first one whose secret has it. It takes no memory.
    pub fn letting_in(&self, id: &KeyId) -> Option<&Key>
        ensures { MatchOption result (All (λ key. id_under key.secret ≢ id.now) self.now)
            (λ found. IsFirstKey (λ key. id_under key.secret ≡ id.now) self.now found.now) }
    {
        first_with(self.keys.as_slice(), id)
    }
}

/// The first key under a name.
fn first_named<'a>(keys: &'a [Key], name: &[u8]) -> Option<&'a Key>
    ensures { MatchOption result (All (λ key. key.name ≢ name.now) keys.now)
        (λ found. IsFirstKey (λ key. key.name ≡ name.now) keys.now found.now) }
{
    for key in keys {
        if is_same(key.name(), name) {
            return Some(key);
        }
    }
    None
}

/// The first key whose secret has an ID.
fn first_with<'a>(keys: &'a [Key], id: &KeyId) -> Option<&'a Key>
    ensures { MatchOption result (All (λ key. id_under key.secret ≢ id.now) keys.now)
        (λ found. IsFirstKey (λ key. id_under key.secret ≡ id.now) keys.now found.now) }
{
    for key in keys {
        if is_same(key_id(key.secret()).as_slice(), id.as_slice()) {
            return Some(key);
        }
    }
    None
}

/// Reads the text of a file of keys. Refusals: 2 `BadLine n`, line n, counted from 1, is the first that is neither
/// passed over nor a key; 5 `NoMemory`. It costs O(n) for n bytes.
pub fn read_keys(alloc: Global, text: &[u8]) -> Result<Keys, KeyFault>
    ensures ok { IfOk result (λ keys. Say (lines_of text.now) keys) }
    ensures err { IfErr result (AreUnreadKeys (lines_of text.now)) }
{
    let mut keys = Vec::new(alloc);
    let mut lines = Lines::new(text);
    let mut number: u64 = 0;
    while let Some(line) = lines.next_line() {
        number += 1;
        match read_line(alloc, line, &mut keys) {
            Ok(true) => {}
            Ok(false) => return Err(KeyFault::BadLine(number)),
            Err(_) => return Err(KeyFault::NoMemory),
        }
    }
    Ok(Keys { keys })
}

/// Adds the key that a line says, unless it is passed over; false where it is bad.
fn read_line(alloc: Global, line: &[u8], keys: &mut Vec<Key>) -> Result<bool, AllocError>
    ensures { IfOk result (λ is_good. MatchBool is_good (SaysMore line.now keys.old.items keys.new.items) (IsBad line.now)) }
{
    if is_passed_over(line) {
        return Ok(true);
    }
    match key_of(alloc, line)? {
        Some(key) => {
            keys.push(key)?;
            Ok(true)
        }
        None => Ok(false),
    }
}
