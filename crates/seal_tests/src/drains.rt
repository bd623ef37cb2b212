//! Drains of sealed lines, and the ends of a connection over failing ones.

use byte_ends::{Broken, BytesFault, Drain, Ends, Source, read_all, write_all};
use sealed_ends::{LinkDrain, LinkSource, SealedDrain, SealedSource};
use sealed_line::Seal;
use std::alloc::Global;
use std::test::Fail;

/// A seal of these tests.
fn seal() -> Seal {
    Seal::new(&[1; 32], &[2; 32])
}

/// What some bytes that were sent open to.
fn opened(alloc: Global, bytes: &[u8]) -> Result<Vec<u8>, BytesFault> {
    let mut source = SealedSource::new(alloc, Ends::new(bytes), seal());
    read_all(alloc, &mut source, 400)
}

/// Writes some pieces to a drain: whether each was taken, and how many writes failed.
fn write_pieces<D: Drain + Drop>(drain: D, pieces: &[&[u8]]) -> (bool, u64) {
    let mut drain = drain;
    let mut all = true;
    for piece in pieces {
        all &= write_all(&mut drain, piece).is_ok();
    }
    (all, drain.failures())
}

#[test]
fn what_is_written_is_read(rt: HostRuntime) -> Result<(), Fail> {
    let alloc = rt.alloc();
    let mut sent = Ends::new(Vec::new(alloc));
    let pieces = [b"hel".as_slice(), b"lo 2\n\nquit\nno line".as_slice()];
    let written = write_pieces(SealedDrain::new(alloc, &mut sent, seal()), &pieces);
    assert_eq!(rt; written, (true, 0));
    let text = opened(alloc, sent.get_ref().as_slice())?;
    assert_eq!(rt; text.as_slice(), b"hello 2\n\nquit\n".as_slice());
    let lines = sent.get_ref().iter().filter(|byte| **byte == b'\n');
    assert_eq!(rt; lines.count(), 1);
    Ok(())
}

/// What a drain answered that fails within once, before a byte or at a call: whether the first line and the second were
/// taken, and how many writes failed.
#[derive(Drop)]
struct Broke {
    first: bool,
    second: bool,
    failures: u64,
}

/// Two lines over a drain that fails once.
fn two_lines<D: Drain>(alloc: Global, drain: D) -> Broke
where
    D: Drop,
{
    let mut drain = SealedDrain::new(alloc, drain, seal());
    let first = write_all(&mut drain, b"hello 2\n").is_ok();
    let second = write_all(&mut drain, b"quit\n").is_ok();
    Broke {
        first,
        second,
        failures: drain.failures(),
    }
}

#[test]
fn a_drain_that_failed_takes_no_more(rt: HostRuntime) -> Result<(), Fail> {
    let alloc = rt.alloc();
    let mut sent = Ends::new(Vec::new(alloc));
    let at_once = two_lines(alloc, Broken::at_call(&mut sent, 1));
    assert!(rt; !at_once.first);
    assert!(rt; !at_once.second);
    assert_eq!(rt; at_once.failures, 2);
    assert!(rt; sent.get_ref().is_empty());
    let in_a_line = two_lines(alloc, Broken::before_byte(&mut sent, 20));
    assert!(rt; !in_a_line.first);
    assert!(rt; !in_a_line.second);
    assert_eq!(rt; sent.get_ref().len(), 19);
    assert!(rt; opened(alloc, sent.get_ref().as_slice()).is_err());
    Ok(())
}

#[test]
fn the_first_line_is_sent_before_the_second_fails(rt: HostRuntime) -> Result<(), Fail> {
    let alloc = rt.alloc();
    let mut sent = Ends::new(Vec::new(alloc));
    let later = two_lines(alloc, Broken::at_call(&mut sent, 2));
    assert!(rt; later.first);
    assert!(rt; !later.second);
    assert_eq!(rt; later.failures, 1);
    let text = opened(alloc, sent.get_ref().as_slice())?;
    assert_eq!(rt; text.as_slice(), b"hello 2\n".as_slice());
    Ok(())
}

/// A line of the most bytes, and one byte more: whether the line was taken, and whether the byte was, before its end.
fn longest<D: Drain + Drop>(alloc: Global, drain: D) -> Result<(bool, bool), Fail> {
    let most = super::bytes::times(alloc, b'x', 524_288)?;
    let mut drain = SealedDrain::new(alloc, drain, seal());
    let whole = write_all(&mut drain, most.as_slice()).is_ok();
    let over = drain.write(b"x").is_ok();
    let ended = drain.write(b"\n").is_ok();
    Ok((whole && ended, over))
}

#[test]
fn a_line_that_is_too_long_is_not_taken(rt: HostRuntime) -> Result<(), Fail> {
    let mut sent = Ends::new(Vec::new(rt.alloc()));
    let taken = longest(rt.alloc(), &mut sent)?;
    assert_eq!(rt; taken, (true, false));
    assert_eq!(rt; sent.get_ref().len(), 699_097);
    Ok(())
}

#[test]
fn a_source_that_failed_may_go_on(rt: HostRuntime) -> Result<(), Fail> {
    let alloc = rt.alloc();
    let mut ours = seal();
    let mut lines = Vec::new(alloc);
    ours.seal(alloc, b"hello 2", &mut lines)?;
    let broken = Broken::at_call(Ends::new(lines.as_slice()), 1);
    let mut source = LinkSource::Sealed(SealedSource::new(alloc, broken, seal()));
    let mut block = [0; 80];
    let failed = source.read(&mut block).is_err();
    let count = source.read(&mut block).ok();
    let failures = source.failures();
    assert!(rt; failed);
    assert_eq!(rt; count, Some(8));
    assert_eq!(rt; failures, 1);
    Ok(())
}

#[test]
fn plain_ends_are_as_they_are(rt: HostRuntime) -> Result<(), Fail> {
    let alloc = rt.alloc();
    let mut sent = Ends::new(Vec::new(alloc));
    let written = write_pieces(LinkDrain::Plain(&mut sent), &[b"hello 2\nq".as_slice()]);
    assert_eq!(rt; written, (true, 0));
    let mut source = LinkSource::Plain(Ends::new(sent.get_ref().as_slice()));
    let text = read_all(alloc, &mut source, 80)?;
    assert_eq!(rt; text.as_slice(), b"hello 2\nq".as_slice());
    Ok(())
}
