//! The first lines of a sealed connection.

ghost use Rattle.std.specs.Prelude.{◌≡◌, ◌≢◌, ◌<◌, ◌≤◌, ◌^◌, ◌++◌, ◌∷◌, List, ℕ, MatchOption, OnOk, codes, decimal, length};
ghost use Rattle.sealed_line.specs.Greetings.{IsKeyAnswer, IsGreeting, key_answer_text, greeting_front, greeting_text, key_reply_text, then_hex};
ghost use Rattle.sealed_line.specs.declared.greeting.Answer.{Answer as AnyAnswer};
ghost use Rattle.sealed_line.specs.declared.greeting.Greeting.{Greeting as AnyGreeting};

use super::digits::lower_hex;
use itoa::Buffer;
use keyed_digest::is_same;
use std::alloc::{AllocError, Allocator};
use std::str;

/// The client's first line.
#[derive(Clone, Copy, Debug, PartialEq, Eq)]
pub struct Greeting {
    /// Its site, or 0 where it is none: a feed, or a command.
    pub site: u16,
    /// By what its key is named.
    pub id: [u8; 8],
    /// Random bytes, other ones each time.
    pub nonce: [u8; 16],
}

/// The server's first line, without its proof.
#[derive(Clone, Copy, Debug, PartialEq, Eq)]
pub struct Reply {
    /// Its site.
    pub site: u16,
    /// Random bytes, other ones each time.
    pub nonce: [u8; 16],
}

/// The server's first line.
#[derive(Clone, Copy, Debug, PartialEq, Eq)]
pub enum Answer {
    /// It has the key, as the proof shows.
    Proved(Reply, [u8; 32]),
    /// It has no key of that name.
    NoKey,
}

impl Greeting {
    /// Adds the line, `key 1 SITE ID NONCE`, without its line end.
    pub fn write<A: Allocator + Copy>(&self, into: &mut Vec<u8, A>) -> Result<(), AllocError>
        ensures { OnOk result (into.new.items ≡ into.old.items ++ greeting_text self.now) }
    {
        write_front(into, self.site)?;
        write_hex(into, self.id.as_slice())?;
        write_hex(into, self.nonce.as_slice())
    }

    /// Reads such a line, given without its line end; nothing where it is none. It takes no memory.
    pub fn read(line: &[u8]) -> Option<Greeting>
        ensures { MatchOption result ((greeting : AnyGreeting) → IsGreeting greeting → line.now ≢ greeting_text greeting)
            (λ greeting. IsGreeting greeting × (line.now ≡ greeting_text greeting)) }
    {
        let Some((before, nonce)) = last_word(line, 32) else {
            return None;
        };
        let Some((front, id)) = last_word(before, 16) else {
            return None;
        };
        let Some(site) = site_of(front) else {
            return None;
        };
        let Some(id) = lower_hex(id) else {
            return None;
        };
        let Some(nonce) = lower_hex(nonce) else {
            return None;
        };
        Some(Greeting { site, id, nonce })
    }
}

impl Reply {
    /// Adds the beginning of the line of who answers, `key 1 SITE NONCE`.
    pub fn write<A: Allocator + Copy>(&self, into: &mut Vec<u8, A>) -> Result<(), AllocError>
        ensures { OnOk result (into.new.items ≡ into.old.items ++ key_reply_text self.now) }
    {
        write_front(into, self.site)?;
        write_hex(into, self.nonce.as_slice())
    }
}

impl Answer {
    /// Adds the line, `key 1 SITE NONCE PROOF` or `no 12 NoKey`, without its line end.
    pub fn write<A: Allocator + Copy>(&self, into: &mut Vec<u8, A>) -> Result<(), AllocError>
        ensures { OnOk result (into.new.items ≡ into.old.items ++ key_answer_text self.now) }
    {
        match self {
            Answer::Proved(reply, proof) => {
                reply.write(into)?;
                write_proof(into, proof)
            }
            Answer::NoKey => into.extend_from_slice(b"no 12 NoKey"),
        }
    }

    /// Reads such a line, given without its line end; nothing where it is none. It takes no memory.
    pub fn read(line: &[u8]) -> Option<Answer>
        ensures { MatchOption result ((answer : AnyAnswer) → IsKeyAnswer answer → line.now ≢ key_answer_text answer)
            (λ answer. IsKeyAnswer answer × (line.now ≡ key_answer_text answer)) }
    {
        if is_same(line, b"no 12 NoKey") {
            return Some(Answer::NoKey);
        }
        let Some((before, proof)) = last_word(line, 64) else {
            return None;
        };
        let Some((front, nonce)) = last_word(before, 32) else {
            return None;
        };
        let Some(site) = site_of(front) else {
            return None;
        };
        let Some(nonce) = lower_hex(nonce) else {
            return None;
        };
        let Some(proof) = lower_hex(proof) else {
            return None;
        };
        Some(Answer::Proved(Reply { site, nonce }, proof))
    }
}

/// Adds the version and a site.
fn write_front<A: Allocator + Copy>(into: &mut Vec<u8, A>, site: u16) -> Result<(), AllocError>
    ensures { OnOk result (into.new.items ≡ into.old.items ++ greeting_front site) }
{
    into.extend_from_slice(b"key 1 ")?;
    into.extend_from_slice(Buffer::new().format(site).as_bytes())
}

/// Adds a blank, and bytes in hex.
fn write_hex<A: Allocator + Copy>(into: &mut Vec<u8, A>, bytes: &[u8]) -> Result<(), AllocError>
    requires { length bytes.now ≤ 32 }
    ensures { OnOk result (into.new.items ≡ then_hex into.old.items bytes.now) }
{
    let size = 2 * bytes.len();
    let mut digits = [0; 64];
    if hex::encode_to_slice(bytes, &mut digits[..size]).is_err() {
        unreachable!()
    }
    into.push(b' ')?;
    into.extend_from_slice(&digits[..size])
}

/// Adds a blank, and a proof.
fn write_proof<A: Allocator + Copy>(
    into: &mut Vec<u8, A>,
    proof: &[u8; 32],
) -> Result<(), AllocError>
    ensures { OnOk result (into.new.items ≡ then_hex into.old.items proof.now) }
{
    write_hex(into, proof.as_slice())
}

/// What comes before the last word of a text, and that word, which has this length and a blank before it; nothing
/// where no such word is last. It takes no memory.
pub fn last_word(text: &[u8], size: usize) -> Option<(&[u8], &[u8])>
    ensures { MatchOption result ((front last : List ℕ) → length last ≡ size → text.now ≢ front ++ 32 ∷ last)
        (λ words. (text.now ≡ words.0.now ++ 32 ∷ words.1.now) × (length words.1.now ≡ size)) }
{
    let (before, last) = text.split_at(text.len().checked_sub(size)?);
    let (blank, front) = before.split_last()?;
    if *blank != b' ' {
        return None;
    }
    Some((front, last))
}

/// The site that follows the version.
fn site_of(text: &[u8]) -> Option<u16>
    ensures { MatchOption result ((site : ℕ) → site < 2 ^ 16 → text.now ≢ greeting_front site)
        (λ site. text.now ≡ greeting_front site) }
{
    let Some(digits) = text.strip_prefix(b"key 1 ") else {
        return None;
    };
    number_of(digits)
}

/// A number that is written as this project writes it: no sign, and no zero before it.
fn number_of(digits: &[u8]) -> Option<u16>
    ensures { MatchOption result ((site : ℕ) → site < 2 ^ 16 → digits.now ≢ decimal site) (λ site. digits.now ≡ decimal site) }
{
    let Ok(text) = str::from_utf8(digits) else {
        return None;
    };
    let Ok(site) = text.parse::<u16>() else {
        return None;
    };
    if is_same(Buffer::new().format(site).as_bytes(), digits) {
        return Some(site);
    }
    None
}
