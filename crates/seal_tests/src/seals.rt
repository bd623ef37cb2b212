//! Sealing and opening.

use super::bytes::{key_of, times, without_end};
use base64::engine::general_purpose::STANDARD;
use sealed_line::{Seal, SealFault};
use std::alloc::Global;
use std::test::Fail;

/// The cipher of so many zeros under a key, at count 0: the keystream, in hex.
fn keystream(alloc: Global, key: &[u8; 32], count: usize) -> Result<String, Fail> {
    let mut seal = Seal::new(&[1; 32], key);
    let mut line = Vec::new(alloc);
    let zeros = times(alloc, 0, count)?;
    seal.seal(alloc, zeros.as_slice(), &mut line)?;
    let body = STANDARD.decode(alloc, without_end(line.as_slice()))?;
    Ok(hex::encode(alloc, body.as_slice())?)
}

/// Whether a keystream has this block, counted from 0.
fn has_block(stream: &str, block: usize, wanted: &str) -> bool {
    stream
        .get(block.saturating_mul(128)..)
        .is_some_and(|rest| rest.starts_with(wanted))
}

#[test]
fn the_keystream_is_that_of_rfc_8439(rt: HostRuntime) -> Result<(), Fail> {
    let alloc = rt.alloc();
    let zeros = keystream(alloc, &[0; 32], 128)?;
    assert!(rt;
        has_block(
            zeros.as_str(),
            0,
            "76b8e0ada0f13d90405d6ae55386bd28bdd219b8a08ded1aa836efcc8b770dc7da41597c5157488d7724e03fb8d84a376a43b8f41518a11cc387b669b2ee6586"
        )
    );
    assert!(rt;
        has_block(
            zeros.as_str(),
            1,
            "9f07e7be5551387a98ba977c732d080dcb0f29a048e3656912c6533e32ee7aed29b721769ce64e43d57133b074d839d531ed1f28510afb45ace10a1f4b794d6f"
        )
    );
    let mut last = [0; 32];
    last[31] = 1;
    let one = keystream(alloc, &last, 128)?;
    assert!(rt;
        has_block(
            one.as_str(),
            1,
            "3aeb5224ecf849929b9d828db1ced4dd832025e8018b8160b82284f3c949aa5a8eca00bbb4a73bdad192b5c42f73f2fd4e273644c8b36125a64addeb006c13a0"
        )
    );
    let two = keystream(alloc, &key_of(b"\x00\xff"), 192)?;
    assert!(rt;
        has_block(
            two.as_str(),
            2,
            "72d54dfbf12ec44b362692df94137f328fea8da73990265ec1bbbea1ae9af0ca13b25aa26cb4a648cb9b9d1be65b2c0924a66c54d545ec1b7374f4872e99f096"
        )
    );
    Ok(())
}

#[test]
fn what_was_sealed_is_opened(rt: HostRuntime) -> Result<(), Fail> {
    let alloc = rt.alloc();
    let mut ours = Seal::new(&[1; 32], &[2; 32]);
    let mut theirs = Seal::new(&[1; 32], &[2; 32]);
    let mut texts = Vec::new(alloc);
    for text in [b"hello 2".as_slice(), b"", b"quit"] {
        let mut line = Vec::new(alloc);
        ours.seal(alloc, text, &mut line)?;
        theirs.open(alloc, without_end(line.as_slice()), &mut texts)?;
    }
    assert_eq!(rt; texts.as_slice(), b"hello 2\n\nquit\n".as_slice());
    Ok(())
}

#[test]
fn a_line_comes_once_and_in_its_order(rt: HostRuntime) -> Result<(), Fail> {
    let alloc = rt.alloc();
    let mut ours = Seal::new(&[1; 32], &[2; 32]);
    let mut first = Vec::new(alloc);
    let mut second = Vec::new(alloc);
    ours.seal(alloc, b"same", &mut first)?;
    ours.seal(alloc, b"same", &mut second)?;
    assert!(rt; first.as_slice() != second.as_slice());
    let mut theirs = Seal::new(&[1; 32], &[2; 32]);
    let mut text = Vec::new(alloc);
    let early = theirs.open(alloc, without_end(second.as_slice()), &mut text);
    let good = theirs.open(alloc, without_end(first.as_slice()), &mut text);
    let again = theirs.open(alloc, without_end(first.as_slice()), &mut text);
    assert_eq!(rt; early, Err(SealFault::BadSeal));
    assert_eq!(rt; good, Ok(()));
    assert_eq!(rt; again, Err(SealFault::BadSeal));
    assert_eq!(rt; text.as_slice(), b"same\n".as_slice());
    Ok(())
}

#[test]
fn other_lines_are_refused(rt: HostRuntime) -> Result<(), Fail> {
    let alloc = rt.alloc();
    let mut seal = Seal::new(&[1; 32], &[2; 32]);
    let mut text = Vec::new(alloc);
    let mut line = Vec::new(alloc);
    Seal::new(&[2; 32], &[2; 32]).seal(alloc, b"other tags", &mut line)?;
    let foreign = seal.open(alloc, without_end(line.as_slice()), &mut text);
    let plain = seal.open(alloc, b"hello 2", &mut text);
    let short = seal.open(alloc, b"AAAA", &mut text);
    let empty = seal.open(alloc, b"", &mut text);
    assert_eq!(rt; foreign, Err(SealFault::BadSeal));
    assert_eq!(rt; plain, Err(SealFault::BadSeal));
    assert_eq!(rt; short, Err(SealFault::BadSeal));
    assert_eq!(rt; empty, Err(SealFault::BadSeal));
    assert!(rt; text.is_empty());
    Ok(())
}

#[test]
fn lines_have_a_limit(rt: HostRuntime) -> Result<(), Fail> {
    let alloc = rt.alloc();
    let mut seal = Seal::new(&[1; 32], &[2; 32]);
    let mut line = Vec::new(alloc);
    let long = times(alloc, b'x', 524_289)?;
    let refused = seal.seal(alloc, long.as_slice(), &mut line);
    assert_eq!(rt; refused, Err(SealFault::LongLine));
    assert!(rt; line.is_empty());
    Ok(())
}
