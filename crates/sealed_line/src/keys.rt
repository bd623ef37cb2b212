//! The keys of a connection.

ghost use Rattle.std.specs.Prelude.{◌≡◌, ◌++◌, IfOk, codes};
ghost use Rattle.keyed_digest.specs.Hmac.{hmac};
ghost use Rattle.sealed_line.specs.Greetings.{greeting_text, key_reply_text};
ghost use Rattle.sealed_line.specs.Keys.{AreKeys, both_lines, id_under, sealing_under};

use super::greeting::{Greeting, Reply};
use super::seal::Seal;
use keyed_digest::{Mac, Tag};
use std::alloc::{AllocError, Allocator};

/// The ID of a key, which names it without disclosing it: eight bytes.
pub type KeyId = [u8; 8];

/// What both sides of a connection have: the proof that who answers knows the secret, the seal of the lines of who
/// comes in, and that of the lines of who answers.
#[derive(Drop)]
pub struct SessionKeys {
    pub proof: Tag,
    pub inward: Seal,
    pub outward: Seal,
}

/// By what a key with this secret is named. It takes no memory.
pub fn key_id(secret: &[u8; 32]) -> KeyId
    ensures { result ≡ id_under secret.now }
{
    let tag = Mac::new(secret).tag(b"reviewgate keyid", b"");
    let mut id = [0; 8];
    id.copy_from_slice(&tag[..8]);
    id
}

/// The keys of a connection that begins with these two lines, under a secret. Each side sends another nonce each time,
/// so that no two connections have the same keys.
pub fn session_keys<A: Allocator + Copy>(
    alloc: A,
    secret: &[u8; 32],
    greeting: &Greeting,
    reply: &Reply,
) -> Result<SessionKeys, AllocError>
    ensures { IfOk result (AreKeys secret.now (both_lines greeting.now reply.now)) }
{
    let mut lines = Vec::new(alloc);
    greeting.write(&mut lines)?;
    lines.push(b'\n')?;
    reply.write(&mut lines)?;
    Ok(keys_over(&Mac::new(secret), lines.as_slice()))
}

/// The keys over both lines.
fn keys_over(mac: &Mac, lines: &[u8]) -> SessionKeys
    ensures { AreKeys mac.now lines.now result }
{
    SessionKeys {
        proof: mac.tag(b"reviewgate proof", lines),
        inward: seal_over(mac, lines, b"reviewgate tags>", b"reviewgate ciph>"),
        outward: seal_over(mac, lines, b"reviewgate tags<", b"reviewgate ciph<"),
    }
}

/// The seal of one direction, by the labels of its keys.
fn seal_over(mac: &Mac, lines: &[u8], tags: &[u8], cipher: &[u8]) -> Seal
    ensures { result ≡ sealing_under mac.now lines.now tags.now cipher.now }
{
    Seal::new(&mac.tag(tags, lines), &mac.tag(cipher, lines))
}
