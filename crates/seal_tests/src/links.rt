//! A connection from its first lines on: who dials against who lets in.

use super::bytes::without_end;
use byte_ends::{Broken, Drain, Ends, Source, read_all, write_all};
use key_file::{Keys, Role, read_keys};
use sealed_line::{Greeting, Seal};
use sealed_link::{Admitted, DialFault, admit, dial, dialed, refusal_line};
use std::alloc::Global;
use std::process::Abort;
use std::test::Fail;

/// A file with one key.
const FILE: &str = "site-2 feed 0102030405060708090a0b0c0d0e0f101112131415161718191a1b1c1d1e1f20\n";

/// The secret of that key.
const SECRET: [u8; 32] = [
    1, 2, 3, 4, 5, 6, 7, 8, 9, 10, 11, 12, 13, 14, 15, 16, 17, 18, 19, 20, 21, 22, 23, 24, 25, 26,
    27, 28, 29, 30, 31, 32,
];

/// The nonce of who comes in.
const NONCE_IN: [u8; 16] = [0, 1, 2, 3, 4, 5, 6, 7, 8, 9, 10, 11, 12, 13, 14, 15];

/// The nonce of who answers.
const NONCE_OUT: [u8; 16] = [
    240, 241, 242, 243, 244, 245, 246, 247, 248, 249, 250, 251, 252, 253, 254, 255,
];

/// What who dials sends first.
const GREETING: &str = "key 1 2 c1195cb0daeb3343 000102030405060708090a0b0c0d0e0f\n";

/// The answer to that.
const ANSWER: &str =
    "key 1 1 f0f1f2f3f4f5f6f7f8f9fafbfcfdfeff f5aac47e5c45ef60649aa02d3087468a181d800e39abdbb22df21d7200a1df56\n";

/// Who is let in by the greeting.
fn admitted(alloc: Global, keys: &Keys) -> Result<Admitted, Fail> {
    let greeting = Greeting::read(without_end(GREETING.as_bytes())).ok_or("a greeting")?;
    Ok(admit(alloc, keys, &greeting, 1, NONCE_OUT)?.ok_or("a key")?)
}

#[test]
fn who_has_a_key_is_let_in(rt: HostRuntime) -> Result<(), Fail> {
    let alloc = rt.alloc();
    let keys = read_keys(alloc, FILE.as_bytes())?;
    let admitted = admitted(alloc, &keys)?;
    assert!(rt; admitted.role == Role::Feed);
    assert_eq!(rt; admitted.answer.as_slice(), ANSWER.as_bytes());
    assert!(rt; admitted.wire.waiting().is_empty());
    Ok(())
}

#[test]
fn dialing_sends_the_greeting_and_takes_the_answer(rt: HostRuntime) -> Result<(), Fail> {
    let alloc = rt.alloc();
    let mut sent = Ends::new(Vec::new(alloc));
    let mut source = Ends::new(ANSWER.as_bytes());
    let dialed = dial(alloc, &SECRET, 2, NONCE_IN, &mut source, &mut sent).is_ok();
    assert!(rt; dialed);
    assert_eq!(rt; sent.get_ref().as_slice(), GREETING.as_bytes());
    Ok(())
}

/// Dials over these ends, writes two lines, and reads what comes.
fn spoken<S: Source + Drop, D: Drain + Drop>(
    alloc: Global,
    source: S,
    drain: D,
) -> Result<Vec<u8>, Fail> {
    let (source, drain) = dialed(alloc, &SECRET, 2, NONCE_IN, source, drain)?;
    let mut drain = drain;
    if write_all(&mut drain, b"hello 2\nfront\n").is_err() {
        return Err(Fail::from("a drain"));
    }
    let mut source = source;
    Ok(read_all(alloc, &mut source, 80)?)
}

/// The answer of a site, and the lines that it seals.
fn site_lines(alloc: Global, site: &mut Admitted) -> Result<Vec<u8>, Fail> {
    let mut came = site.answer.as_slice().to_vec(alloc)?;
    let wire = &mut site.wire;
    if wire.seal(b"welcome\nback\nrest")? != 13 {
        return Err(Fail::from("two lines"));
    }
    came.extend_from_slice(wire.waiting())?;
    Ok(came)
}

#[test]
fn lines_go_both_ways(rt: HostRuntime) -> Result<(), Fail> {
    let alloc = rt.alloc();
    let keys = read_keys(alloc, FILE.as_bytes())?;
    let mut site = admitted(alloc, &keys)?;
    let came = site_lines(alloc, &mut site)?;
    let mut sent = Ends::new(Vec::new(alloc));
    let text = spoken(alloc, Ends::new(came.as_slice()), &mut sent)?;
    assert_eq!(rt; text.as_slice(), b"welcome\nback\n".as_slice());
    let lines = sent
        .get_ref()
        .as_slice()
        .strip_prefix(GREETING.as_bytes())
        .ok_or("a greeting")?;
    let mut texts = Vec::new(alloc);
    let wire = &mut site.wire;
    assert!(rt; wire.open(lines, &mut texts).is_ok());
    assert_eq!(rt; texts.as_slice(), b"hello 2\nfront\n".as_slice());
    Ok(())
}

#[test]
fn who_has_no_key_is_told(rt: HostRuntime) -> Result<(), Fail> {
    let alloc = rt.alloc();
    let keys = read_keys(alloc, b"")?;
    let greeting = Greeting::read(without_end(GREETING.as_bytes())).ok_or("a greeting")?;
    assert!(rt; admit(alloc, &keys, &greeting, 1, NONCE_OUT)?.is_none());
    let line = refusal_line(alloc)?;
    assert_eq!(rt; line.as_slice(), b"no 12 NoKey\n".as_slice());
    let mut sent = Ends::new(Vec::new(alloc));
    let mut source = Ends::new(line.as_slice());
    let refused = dial(alloc, &SECRET, 2, NONCE_IN, &mut source, &mut sent).err();
    assert_eq!(rt; refused, Some(DialFault::NoKey));
    Ok(())
}

/// Why dialing is refused where these bytes come.
fn refused(alloc: Global, came: &[u8]) -> Option<DialFault> {
    let mut sent = Ends::new(Vec::new(alloc));
    let mut source = Ends::new(came);
    dial(alloc, &SECRET, 2, NONCE_IN, &mut source, &mut sent).err()
}

#[test]
fn other_answers_are_refused(rt: HostRuntime) {
    let alloc = rt.alloc();
    assert_eq!(rt; refused(alloc, b""), Some(DialFault::BadAnswer));
    assert_eq!(rt; refused(alloc, b"\n"), Some(DialFault::BadAnswer));
    assert_eq!(rt; refused(alloc, b"hello 2\n"), Some(DialFault::BadAnswer));
    assert_eq!(rt;
        refused(alloc, GREETING.as_bytes()),
        Some(DialFault::BadAnswer)
    );
    assert_eq!(rt; refused(alloc, b"no 12 NoKey"), Some(DialFault::BadAnswer));
    assert_eq!(rt;
        refused(alloc, b"no 12 NoKey\r\n"),
        Some(DialFault::BadAnswer)
    );
    assert_eq!(rt; refused(alloc, &[b'k'; 400]), Some(DialFault::BadAnswer));
}

#[test]
fn another_secret_or_line_is_not_proved(rt: HostRuntime) -> Result<(), Fail> {
    let alloc = rt.alloc();
    let mut sent = Ends::new(Vec::new(alloc));
    let mut source = Ends::new(ANSWER.as_bytes());
    let other = dial(alloc, &[9; 32], 2, NONCE_IN, &mut source, &mut sent).err();
    let mut again = Ends::new(ANSWER.as_bytes());
    let nonce = dial(alloc, &SECRET, 2, NONCE_OUT, &mut again, &mut sent).err();
    let mut third = Ends::new(ANSWER.as_bytes());
    let site = dial(alloc, &SECRET, 3, NONCE_IN, &mut third, &mut sent).err();
    assert_eq!(rt; other, Some(DialFault::NotProved));
    assert_eq!(rt; nonce, Some(DialFault::NotProved));
    assert_eq!(rt; site, Some(DialFault::NotProved));
    Ok(())
}

#[test]
fn nothing_past_the_answer_is_read(rt: HostRuntime) -> Result<(), Fail> {
    let alloc = rt.alloc();
    let mut came = ANSWER.as_bytes().to_vec(alloc)?;
    came.extend_from_slice(b"more")?;
    let mut sent = Ends::new(Vec::new(alloc));
    let mut source = Ends::new(came.as_slice());
    let proved = dial(alloc, &SECRET, 2, NONCE_IN, &mut source, &mut sent).is_ok();
    let rest = read_all(alloc, &mut source, 80)?;
    assert!(rt; proved);
    assert_eq!(rt; rest.as_slice(), b"more".as_slice());
    Ok(())
}

#[test]
fn failing_ends_are_told(rt: HostRuntime) -> Result<(), Fail> {
    let alloc = rt.alloc();
    let mut sent = Ends::new(Vec::new(alloc));
    let mut source = Broken::before_byte(Ends::new(ANSWER.as_bytes()), 30);
    let read = dial(alloc, &SECRET, 2, NONCE_IN, &mut source, &mut sent).err();
    let mut whole = Ends::new(ANSWER.as_bytes());
    let mut drain = Broken::before_byte(Ends::new(Vec::new(alloc)), 30);
    let write = dial(alloc, &SECRET, 2, NONCE_IN, &mut whole, &mut drain).err();
    assert_eq!(rt; read, Some(DialFault::ReadFault));
    assert_eq!(rt; write, Some(DialFault::WriteFault));
    Ok(())
}
