//! The rows that `bench/seal.py` prints, a program of its own over Python's hmac and hashlib.

use super::bytes::{times, without_end};
use sealed_line::{Answer, Greeting, Reply, Seal, SessionKeys, key_id, session_keys};
use std::alloc::Global;
use std::process::Abort;
use std::test::Fail;

/// The bytes 1 to 32.
const SECRET: [u8; 32] = [
    1, 2, 3, 4, 5, 6, 7, 8, 9, 10, 11, 12, 13, 14, 15, 16, 17, 18, 19, 20, 21, 22, 23, 24, 25, 26,
    27, 28, 29, 30, 31, 32,
];

const GREETING: &str = "key 1 2 c1195cb0daeb3343 000102030405060708090a0b0c0d0e0f";

const ANSWER: &str =
    "key 1 1 f0f1f2f3f4f5f6f7f8f9fafbfcfdfeff f5aac47e5c45ef60649aa02d3087468a181d800e39abdbb22df21d7200a1df56";

/// The lines of who comes in.
const INWARD: [&str; 3] = [
    "iLLCtmquYum3mTgeUiFwRbhmRAtjxM2XFOfSbGTwofG/XI2jJXcq",
    "eSq3BObTwJNltgV9nunPOsjq9bPGukwIZYDFM+p1TdXP8hYAbXaCCNcAQAk5wvaGk6k=",
    "E22wLvAfNhcHKt2MN0XPK+VYfQEqY7SF7pvJgyj8TVA88QDwDpBEQHeqqqfp4Z0xWi1sY0hmN8MmHhNKslE9Ol3lVySV3eAzGdrsBfxxl1/LEk77x8UNrKBo1Ckk809vCVZ12zWmvIsb1Loip7KQHH/XJrbsKo2aqTO0i/a7iqXf6/d3",
];

/// The lines of who answers.
const OUTWARD: [&str; 3] = [
    "angTktEnPROXAs+lbJ4xqQH01Z4K8atWXdcGeYupbm6Tq58TDO4C",
    "60J9pDI6AcH0A3YUmYKnZ2eWKQLYnfWlPyiPchJmBX6qmV1lNq/CW0XRINoKqj3IUNg=",
    "F1y2A4OYq6hs/oespGlOL+DwLKN3zMK4c1rmSVX9kqY2SPVLC4RIB5rritl3Z716qsmlvSvxqP0W0CjUySDJU3ZHIKPp3FKbyRGWZUuU9IIEGYsR0I4rnqJgxNzAZZJb6zUN0CaRid+Pp0CAd0bOHxQ31D89MNgfvtt8NUXGzmKZghwd",
];

/// The first line of who comes in.
fn greeting() -> Greeting {
    Greeting {
        site: 2,
        id: key_id(&SECRET),
        nonce: [0, 1, 2, 3, 4, 5, 6, 7, 8, 9, 10, 11, 12, 13, 14, 15],
    }
}

/// What who answers says before its proof.
fn reply() -> Reply {
    Reply {
        site: 1,
        nonce: [
            240, 241, 242, 243, 244, 245, 246, 247, 248, 249, 250, 251, 252, 253, 254, 255,
        ],
    }
}

/// The keys of the connection.
fn keys(alloc: Global) -> Result<SessionKeys, Fail> {
    Ok(session_keys(alloc, &SECRET, &greeting(), &reply())?)
}

#[test]
fn the_first_lines_are_these(rt: HostRuntime) -> Result<(), Fail> {
    let alloc = rt.alloc();
    let mut line = Vec::new(alloc);
    greeting().write(&mut line)?;
    assert_eq!(rt; line.as_slice(), GREETING.as_bytes());
    let mut line = Vec::new(alloc);
    Answer::Proved(reply(), keys(alloc)?.proof).write(&mut line)?;
    assert_eq!(rt; line.as_slice(), ANSWER.as_bytes());
    Ok(())
}

/// The next line of a seal is this one.
fn assert_next(
    rt: &impl Abort,
    alloc: Global,
    seal: &mut Seal,
    text: &[u8],
    wanted: &str,
) -> Result<(), Fail> {
    let mut line = Vec::new(alloc);
    seal.seal(alloc, text, &mut line)?;
    assert_eq!(rt; without_end(line.as_slice()), wanted.as_bytes());
    Ok(())
}

/// The three texts are sealed to these lines.
fn assert_sealed(
    rt: &impl Abort,
    alloc: Global,
    mut seal: Seal,
    lines: &[&str; 3],
) -> Result<(), Fail> {
    let long = times(alloc, b'x', 100)?;
    assert_next(rt, alloc, &mut seal, b"hello 2", lines[0])?;
    assert_next(rt, alloc, &mut seal, b"front {\"reach\":[]}", lines[1])?;
    assert_next(rt, alloc, &mut seal, long.as_slice(), lines[2])
}

#[test]
fn the_lines_of_who_comes_in_are_these(rt: HostRuntime) -> Result<(), Fail> {
    let alloc = rt.alloc();
    assert_sealed(&rt, alloc, keys(alloc)?.inward, &INWARD)
}

#[test]
fn the_lines_of_who_answers_are_these(rt: HostRuntime) -> Result<(), Fail> {
    let alloc = rt.alloc();
    assert_sealed(&rt, alloc, keys(alloc)?.outward, &OUTWARD)
}

#[test]
fn a_line_that_is_sent_back_is_refused(rt: HostRuntime) -> Result<(), Fail> {
    let alloc = rt.alloc();
    let SessionKeys {
        proof: _,
        mut inward,
        mut outward,
    } = keys(alloc)?;
    let mut text = Vec::new(alloc);
    assert!(rt;
        outward
            .open(alloc, INWARD[0].as_bytes(), &mut text)
            .is_err()
    );
    inward.open(alloc, INWARD[0].as_bytes(), &mut text)?;
    assert_eq!(rt; text.as_slice(), b"hello 2\n".as_slice());
    Ok(())
}
