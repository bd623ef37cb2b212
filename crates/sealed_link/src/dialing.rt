//! The client side of the handshake.

ghost use Rattle.std.specs.Prelude.{◌≡◌, ◌≢◌, ◌++◌, [], ◌∷◌, List, ℕ, Err, IfErr, IfOk, MatchOption, MatchResult, OnErr, OnOk, Some};
ghost use Rattle.std.specs.Io.KnownBytes.{Consumes, IsAtEnd, Keeps};
ghost use Rattle.byte_ends.specs.Lines.{as_line};
ghost use Rattle.line_reader.specs.Lines.{HasNoLf};
ghost use Rattle.sealed_line.specs.Greetings.{IsKeyAnswer, key_answer_text, greeting_text};
ghost use Rattle.sealed_link.specs.Begins.{AreSealedEnds, CountsReads, CountsWrites, Dials, DialsEnds, GreetsByKey, IsUnanswered, IsUnsentGreeting, Judges, greeting_of};
ghost use Rattle.sealed_line.specs.declared.greeting.Answer.TheVariants.{Proved};

use super::fault::DialFault;
use byte_ends::{Drain, Source, write_all};
use keyed_digest::is_same;
use sealed_ends::{LinkDrain, LinkSource, SealedDrain, SealedSource};
use sealed_line::{Answer, Greeting, Reply, SessionKeys, key_id, session_keys};
use std::alloc::{AllocError, Global};

/// How many bytes the line of who answers may have, without its line end.
const ANSWER_LIMIT: usize = 256;

/// Begins a sealed connection as who comes in: sends `key 1 SITE ID NONCE`, reads the line of who answers, and nothing
/// past its line end, and looks at each byte of its proof, wherever the first difference is. The nonce is random
/// bytes, other ones each time. Refusals: `ReadFault`, `WriteFault`, an end failed; `BadAnswer`, what came is no line
/// of who answers, or has more than 256 bytes, or the end came before its line end; `NoKey`, it answered `no 12 NoKey`;
/// `NotProved`, its proof isn't that of this secret over both lines; `NoMemory`. Where it is refused the connection is
/// of no further use.
pub fn dial<S: Source, D: Drain>(
    alloc: Global,
    secret: &[u8; 32],
    site: u16,
    nonce: [u8; 16],
    source: &mut S,
    drain: &mut D,
) -> Result<SessionKeys, DialFault>
    ensures reads { (came : List ℕ) × Consumes (S.left source.old) (S.left source.new) came
        × Dials secret.now (greeting_of secret.now site nonce) came (S.left source.new) result }
    ensures writes { GreetsByKey (as_line (greeting_text (greeting_of secret.now site nonce))) (D.taken drain.old) (D.taken drain.new) result }
    ensures read_faults { CountsReads (S.failed source.old) (S.failed source.new) result }
    ensures write_faults { CountsWrites (D.failed drain.old) (D.failed drain.new) result }
{
    let greeting = Greeting {
        site,
        id: key_id(secret),
        nonce,
    };
    match greet(alloc, &greeting, drain) {
        Ok(()) => answered(alloc, secret, &greeting, source),
        Err(fault) => Err(fault),
    }
}

/// The same, and returns the ends of the connection: what is written is sealed as the client's lines, and what is read
/// is opened as the server's.
pub fn dialed<S: Source + Drop, D: Drain + Drop>(
    alloc: Global,
    secret: &[u8; 32],
    site: u16,
    nonce: [u8; 16],
    source: S,
    drain: D,
) -> Result<(LinkSource<S>, LinkDrain<D>), DialFault>
    ensures { (came : List ℕ) × (later : S) × (end : D) × Consumes (S.left source) (S.left later) came
        × GreetsByKey (as_line (greeting_text (greeting_of secret.now site nonce))) (D.taken drain) (D.taken end) result
        × DialsEnds S.left D.taken secret.now (greeting_of secret.now site nonce) came later end result
        × CountsReads (S.failed source) (S.failed later) result
        × CountsWrites (D.failed drain) (D.failed end) result }
{
    let mut source = source;
    let mut drain = drain;
    match dial(alloc, secret, site, nonce, &mut source, &mut drain) {
        Ok(keys) => Ok(sealed_over(alloc, keys, source, drain)),
        Err(fault) => Err(fault),
    }
}

/// The ends of who comes in, sealed with these keys.
fn sealed_over<S: Source, D: Drain>(
    alloc: Global,
    keys: SessionKeys,
    source: S,
    drain: D,
) -> (LinkSource<S>, LinkDrain<D>)
    ensures { AreSealedEnds S.left D.taken keys source drain result.0 result.1 }
{
    let SessionKeys {
        proof: _,
        inward,
        outward,
    } = keys;
    (
        LinkSource::Sealed(SealedSource::new(alloc, source, outward)),
        LinkDrain::Sealed(SealedDrain::new(alloc, drain, inward)),
    )
}

/// Sends the first line.
fn greet<D: Drain>(alloc: Global, greeting: &Greeting, drain: &mut D) -> Result<(), DialFault>
    ensures took { GreetsByKey (as_line (greeting_text greeting.now)) (D.taken drain.old) (D.taken drain.new) result }
    ensures counted { CountsWrites (D.failed drain.old) (D.failed drain.new) result }
    ensures fault { IfErr result IsUnsentGreeting }
{
    let Ok(line) = greeting_line(alloc, greeting) else {
        return Err(DialFault::NoMemory);
    };
    match write_all(drain, line.as_slice()) {
        Ok(()) => Ok(()),
        Err(_) => Err(DialFault::WriteFault),
    }
}

/// A greeting as a line, with its line end.
fn greeting_line(alloc: Global, greeting: &Greeting) -> Result<Vec<u8>, AllocError>
    ensures { IfOk result (λ line. line.items ≡ as_line (greeting_text greeting.now)) }
{
    let mut line = Vec::new(alloc);
    greeting.write(&mut line)?;
    line.push(b'\n')?;
    Ok(line)
}

/// Reads the line of who answers, and makes the keys of the connection.
fn answered<S: Source>(
    alloc: Global,
    secret: &[u8; 32],
    greeting: &Greeting,
    source: &mut S,
) -> Result<SessionKeys, DialFault>
    ensures reads { (came : List ℕ) × Consumes (S.left source.old) (S.left source.new) came
        × Dials secret.now greeting.now came (S.left source.new) result }
    ensures counted { CountsReads (S.failed source.old) (S.failed source.new) result }
    ensures other { result ≢ Err DialFault.WriteFault }
{
    match answer_line(alloc, source) {
        Ok(line) => keys_of(alloc, secret, greeting, line.as_slice()),
        Err(fault) => Err(fault),
    }
}

/// The line of who answers, without its line end, byte by byte.
fn answer_line<S: Source>(alloc: Global, source: &mut S) -> Result<Vec<u8>, DialFault>
    ensures reads { (came : List ℕ) × Consumes (S.left source.old) (S.left source.new) came
        × MatchResult result (λ line. (came ≡ as_line line.items) × HasNoLf line.items) (IsUnanswered came (S.left source.new)) }
    ensures counted { CountsReads (S.failed source.old) (S.failed source.new) result }
    ensures other { result ≢ Err DialFault.WriteFault }
{
    let mut line = Vec::new(alloc);
    while line.len() <= ANSWER_LIMIT {
        match next_byte(source)? {
            Some(b'\n') => return Ok(line),
            Some(byte) => {
                if line.push(byte).is_err() {
                    return Err(DialFault::NoMemory);
                }
            }
            None => return Err(DialFault::BadAnswer),
        }
    }
    Err(DialFault::BadAnswer)
}

/// The next byte of a source; nothing at its end.
fn next_byte<S: Source>(source: &mut S) -> Result<Option<u8>, DialFault>
    ensures ok { IfOk result (λ next. MatchOption next (Consumes (S.left source.old) (S.left source.new) [] × IsAtEnd (S.left source.new))
        (λ byte. Consumes (S.left source.old) (S.left source.new) (byte ∷ []))) }
    ensures err { OnErr result (Keeps (S.left source.old) (S.left source.new)) }
    ensures fault { IfErr result (λ fault. fault ≡ DialFault.ReadFault) }
    ensures counted { CountsReads (S.failed source.old) (S.failed source.new) result }
{
    let mut byte = [0];
    match source.read(&mut byte) {
        Ok(0) => Ok(None),
        Ok(_) => Ok(Some(byte[0])),
        Err(_) => Err(DialFault::ReadFault),
    }
}

/// The keys of the connection, by the line that answered.
fn keys_of(
    alloc: Global,
    secret: &[u8; 32],
    greeting: &Greeting,
    line: &[u8],
) -> Result<SessionKeys, DialFault>
    ensures { Judges secret.now greeting.now line.now result }
{
    match Answer::read(line) {
        Some(answer) => judged(alloc, secret, greeting, &answer),
        None => Err(DialFault::BadAnswer),
    }
}

/// The keys of the connection, by the answer.
fn judged(
    alloc: Global,
    secret: &[u8; 32],
    greeting: &Greeting,
    answer: &Answer,
) -> Result<SessionKeys, DialFault>
    requires { IsKeyAnswer answer.now }
    ensures { Judges secret.now greeting.now (key_answer_text answer.now) result }
{
    match answer {
        Answer::Proved(reply, proof) => proved_keys(alloc, secret, greeting, reply, proof),
        Answer::NoKey => Err(DialFault::NoKey),
    }
}

/// The keys of the connection, where the proof is that of the secret over both lines.
fn proved_keys(
    alloc: Global,
    secret: &[u8; 32],
    greeting: &Greeting,
    reply: &Reply,
    proof: &[u8; 32],
) -> Result<SessionKeys, DialFault>
    requires { IsKeyAnswer (Proved reply.now proof.now) }
    ensures { Judges secret.now greeting.now (key_answer_text (Proved reply.now proof.now)) result }
{
    let Ok(keys) = session_keys(alloc, secret, greeting, reply) else {
        return Err(DialFault::NoMemory);
    };
    if !is_same(keys.proof.as_slice(), proof.as_slice()) {
        return Err(DialFault::NotProved);
    }
    Ok(keys)
}
