//! The vectors of RFC 4231.

use super::bytes::{key_of, times};
use keyed_digest::{Mac, is_same};
use sha2::{Digest, Sha256};
use std::process::Abort;
use std::test::Fail;

/// The tag of a message under a key is this one, in hex.
fn assert_tag(
    rt: &impl Abort,
    alloc: std::alloc::Global,
    key: &[u8; 32],
    message: &[u8],
    wanted: &str,
) -> Result<(), Fail> {
    let mac = Mac::new(key);
    let tag = mac.tag(message, b"");
    assert_eq!(rt; hex::encode(alloc, tag.as_slice())?.as_str(), wanted);
    assert!(rt; mac.is_tag(b"", message, tag.as_slice()));
    Ok(())
}

#[test]
fn short_keys(rt: HostRuntime) -> Result<(), Fail> {
    let alloc = rt.alloc();
    let first = key_of(times(alloc, 0x0b, 20)?.as_slice());
    assert_tag(
        &rt,
        alloc,
        &first,
        b"Hi There",
        "b0344c61d8db38535ca8afceaf0bf12b881dc200c9833da726e9376c2e32cff7",
    )?;
    let second = key_of(b"Jefe");
    assert_tag(
        &rt,
        alloc,
        &second,
        b"what do ya want for nothing?",
        "5bdcc146bf60754e6a042426089575c75a003f089d2739839dec58b964ec3843",
    )?;
    let third = key_of(times(alloc, 0xaa, 20)?.as_slice());
    let data = times(alloc, 0xdd, 50)?;
    assert_tag(
        &rt,
        alloc,
        &third,
        data.as_slice(),
        "773ea91e36800e46854db8ebd09181a72959098b3ef8c122d9635514ced565fe",
    )
}

#[test]
fn longer_keys(rt: HostRuntime) -> Result<(), Fail> {
    let alloc = rt.alloc();
    let fourth = [
        1, 2, 3, 4, 5, 6, 7, 8, 9, 10, 11, 12, 13, 14, 15, 16, 17, 18, 19, 20, 21, 22, 23, 24, 25,
        0, 0, 0, 0, 0, 0, 0,
    ];
    let data = times(alloc, 0xcd, 50)?;
    assert_tag(
        &rt,
        alloc,
        &fourth,
        data.as_slice(),
        "82558a389a443c0ea4cc819899f2083a85f0faa3e578f8077a2e3ff46729665b",
    )?;
    let hashed = Sha256::digest(times(alloc, 0xaa, 131)?.as_slice());
    assert_tag(
        &rt,
        alloc,
        &hashed,
        b"Test Using Larger Than Block-Size Key - Hash Key First",
        "60e431591ee0b67f0d8a26aacbf5b77f8e0bc6213728c5140546040f0ee37f54",
    )?;
    assert_tag(
        &rt,
        alloc,
        &hashed,
        b"This is a test using a larger than block-size key and a larger than block-size data. The key needs to be hashed before being used by the HMAC algorithm.",
        "9b09ffa71b942fcb27635fbcd5b0e944bfdc63644f0713938a7f51535c3a35e2",
    )
}

#[test]
fn a_message_comes_in_two_parts(rt: HostRuntime) {
    let mac = Mac::new(&[7; 32]);
    assert_eq!(rt; mac.tag(b"one ", b"message"), mac.tag(b"one message", b""));
    assert!(rt; mac.tag(b"one ", b"message") != mac.tag(b"one", b"message"));
}

#[test]
fn each_byte_of_a_tag_counts(rt: HostRuntime) {
    let mac = Mac::new(&[7; 32]);
    let tag = mac.tag(b"message", b"");
    let mut taken = 0;
    for i in 0..32 {
        let mut other = tag;
        other[i] ^= 1;
        if mac.is_tag(b"message", b"", other.as_slice()) {
            taken += 1;
        }
    }
    assert_eq!(rt; taken, 0);
    assert!(rt; !mac.is_tag(b"message", b"", b"a short one"));
    assert!(rt; !is_same(b"a", b"ab"));
    assert!(rt; is_same(b"", b""));
}
