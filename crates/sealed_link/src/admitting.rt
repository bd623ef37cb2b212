//! The server side of the handshake.

ghost use Rattle.std.specs.Prelude.{◌≡◌, ◌≢◌, ◌++◌, All, IfOk, MatchOption, codes};
ghost use Rattle.byte_ends.specs.Lines.{as_line};
ghost use Rattle.key_file.specs.Files.{KeyEntry, IsFirstKey};
ghost use Rattle.sealed_line.specs.Greetings.{key_answer_text};
ghost use Rattle.sealed_line.specs.Keys.{id_under};
ghost use Rattle.sealed_link.specs.Admits.{IsAdmitted};

use super::wire::Wire;
use key_file::{Key, Keys, Role};
use sealed_line::{Answer, Greeting, Reply, session_keys};
use std::alloc::{AllocError, Global};

/// An admitted client: the role of its key, the answer line, with its line end, and the wire of the connection.
#[derive(Drop)]
pub struct Admitted {
    pub role: Role,
    pub answer: Vec<u8>,
    pub wire: Wire,
}

/// Admits a client whose greeting has the ID of one of these keys; `None` if no key has that ID. The nonce is random
/// bytes, different ones each time. It costs O(keys).
pub fn admit(
    alloc: Global,
    keys: &Keys,
    greeting: &Greeting,
    site: u16,
    nonce: [u8; 16],
) -> Result<Option<Admitted>, AllocError>
    ensures { IfOk result (λ found. MatchOption found (All (λ key. id_under key.secret ≢ greeting.now.id) keys.now)
        (λ admitted. (key : KeyEntry) × IsFirstKey (λ key. id_under key.secret ≡ greeting.now.id) keys.now key
        × IsAdmitted key greeting.now (record { site = site; nonce = nonce }) admitted)) }
{
    match keys.letting_in(&greeting.id) {
        Some(key) => match let_in(alloc, key, greeting, &Reply { site, nonce }) {
            Ok(admitted) => Ok(Some(admitted)),
            Err(error) => Err(error),
        },
        None => Ok(None),
    }
}

/// Admits a client with this key.
fn let_in(
    alloc: Global,
    key: &Key,
    greeting: &Greeting,
    reply: &Reply,
) -> Result<Admitted, AllocError>
    ensures { IfOk result (IsAdmitted key.now greeting.now reply.now) }
{
    let session = session_keys(alloc, key.secret(), greeting, reply)?;
    let answer = line_of(alloc, &Answer::Proved(*reply, session.proof))?;
    Ok(Admitted {
        role: key.role(),
        answer,
        wire: Wire::new(alloc, session),
    })
}

/// The answer to a client without a key, `no 12 NoKey`, with its line end.
pub fn refusal_line(alloc: Global) -> Result<Vec<u8>, AllocError>
    ensures { IfOk result (λ line. line.items ≡ as_line (codes "no 12 NoKey")) }
{
    line_of(alloc, &Answer::NoKey)
}

/// An answer as a line, with its line end.
fn line_of(alloc: Global, answer: &Answer) -> Result<Vec<u8>, AllocError>
    ensures { IfOk result (λ line. line.items ≡ as_line (key_answer_text answer.now)) }
{
    let mut line = Vec::new(alloc);
    answer.write(&mut line)?;
    line.push(b'\n')?;
    Ok(line)
}
