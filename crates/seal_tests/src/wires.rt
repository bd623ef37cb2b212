//! Wires: bytes that come in pieces, and lines that aren't sealed as they have to be.

use super::bytes::times;
use sealed_line::{Greeting, Reply, Seal, SessionKeys, key_id, session_keys};
use sealed_link::{Wire, WireFault};
use std::alloc::Global;
use std::test::Fail;

/// The secret of these tests.
const SECRET: [u8; 32] = [7; 32];

/// The keys of a connection.
fn keys(alloc: Global) -> Result<SessionKeys, Fail> {
    let greeting = Greeting {
        site: 2,
        id: key_id(&SECRET),
        nonce: [1; 16],
    };
    let reply = Reply {
        site: 1,
        nonce: [2; 16],
    };
    Ok(session_keys(alloc, &SECRET, &greeting, &reply)?)
}

/// The wire of who answers.
fn wire(alloc: Global) -> Result<Wire, Fail> {
    Ok(Wire::new(alloc, keys(alloc)?))
}

/// The wire of who comes in: its keys are those of who answers, the other way round.
fn other_wire(alloc: Global) -> Result<Wire, Fail> {
    let SessionKeys {
        proof,
        inward,
        outward,
    } = keys(alloc)?;
    Ok(Wire::new(
        alloc,
        SessionKeys {
            proof,
            inward: outward,
            outward: inward,
        },
    ))
}

/// What seals the lines of who comes in.
fn inward(alloc: Global) -> Result<Seal, Fail> {
    let SessionKeys {
        proof: _,
        inward,
        outward: _,
    } = keys(alloc)?;
    Ok(inward)
}

/// The first sealed lines of who comes in.
#[derive(Drop)]
struct Three {
    first: Vec<u8>,
    second: Vec<u8>,
    third: Vec<u8>,
}

/// Two sealed lines of who comes in, and a third.
fn lines(alloc: Global) -> Result<Three, Fail> {
    let mut seal = inward(alloc)?;
    let mut first = Vec::new(alloc);
    let mut second = Vec::new(alloc);
    let mut third = Vec::new(alloc);
    seal.seal(alloc, b"hello 2", &mut first)?;
    seal.seal(alloc, b"front", &mut second)?;
    seal.seal(alloc, b"quit", &mut third)?;
    Ok(Three {
        first,
        second,
        third,
    })
}

/// What a wire answers to some bytes, what it adds, and what it answers to the third line after that.
#[derive(Drop)]
struct Answered {
    first: Result<(), WireFault>,
    then: Result<(), WireFault>,
    text: Vec<u8>,
}

/// What a wire answers to pieces of bytes, up to the first that it refuses.
fn open_pieces(wire: &mut Wire, pieces: &[&[u8]], text: &mut Vec<u8>) -> Result<(), WireFault> {
    for piece in pieces {
        wire.open(piece, text)?;
    }
    Ok(())
}

/// What a new wire answers to pieces of bytes, and then to the third line.
fn opened_by(alloc: Global, pieces: &[&[u8]]) -> Result<Answered, Fail> {
    let mut wire = wire(alloc)?;
    let mut text = Vec::new(alloc);
    let first = open_pieces(&mut wire, pieces, &mut text);
    let three = lines(alloc)?;
    let then = wire.open(three.third.as_slice(), &mut text);
    Ok(Answered { first, then, text })
}

#[test]
fn lines_are_opened_however_they_come(rt: HostRuntime) -> Result<(), Fail> {
    let alloc = rt.alloc();
    let three = lines(alloc)?;
    let whole = opened_by(alloc, &[three.first.as_slice(), three.second.as_slice()])?;
    assert!(rt; whole.first.is_ok());
    assert_eq!(rt; whole.text.as_slice(), b"hello 2\nfront\nquit\n".as_slice());
    let (front, back) = three.first.as_slice().split_at(three.first.len() / 2);
    let halves = opened_by(alloc, &[front, back, three.second.as_slice()])?;
    assert_eq!(rt;
        halves.text.as_slice(),
        b"hello 2\nfront\nquit\n".as_slice()
    );
    Ok(())
}

#[test]
fn bytes_come_one_by_one(rt: HostRuntime) -> Result<(), Fail> {
    let alloc = rt.alloc();
    let mut wire = wire(alloc)?;
    let mut text = Vec::new(alloc);
    let mut failed = false;
    let three = lines(alloc)?;
    for line in [&three.first, &three.second, &three.third] {
        for byte in line.as_slice() {
            failed |= wire.open(&[*byte], &mut text).is_err();
        }
    }
    assert!(rt; !failed);
    assert_eq!(rt; text.as_slice(), b"hello 2\nfront\nquit\n".as_slice());
    Ok(())
}

/// A line with one bit of a byte flipped.
fn flipped(alloc: Global, line: &[u8], at: usize) -> Result<Vec<u8>, Fail> {
    let mut other = line.to_vec(alloc)?;
    if let Some(byte) = other.get_mut(at) {
        *byte ^= 1;
    }
    Ok(other)
}

#[test]
fn each_flipped_bit_is_seen(rt: HostRuntime) -> Result<(), Fail> {
    let alloc = rt.alloc();
    let three = lines(alloc)?;
    let mut right: usize = 0;
    for at in 0..three.second.len().saturating_sub(1) {
        let other = flipped(alloc, three.second.as_slice(), at)?;
        let answered = opened_by(alloc, &[three.first.as_slice(), other.as_slice()])?;
        if answered.then == Err(WireFault::BadLine)
            && answered.text.as_slice() == b"hello 2\n".as_slice()
        {
            right = right.saturating_add(1);
        }
    }
    assert!(rt; right > 40);
    assert_eq!(rt; right, three.second.len().saturating_sub(1));
    Ok(())
}

#[test]
fn lines_come_once_and_in_their_order(rt: HostRuntime) -> Result<(), Fail> {
    let alloc = rt.alloc();
    let three = lines(alloc)?;
    let swapped = opened_by(alloc, &[three.second.as_slice(), three.first.as_slice()])?;
    assert_eq!(rt; swapped.first, Err(WireFault::BadLine));
    assert_eq!(rt; swapped.then, Err(WireFault::BadLine));
    assert!(rt; swapped.text.is_empty());
    let again = opened_by(alloc, &[three.first.as_slice(), three.first.as_slice()])?;
    assert_eq!(rt; again.first, Err(WireFault::BadLine));
    assert_eq!(rt; again.text.as_slice(), b"hello 2\n".as_slice());
    let dropped = opened_by(alloc, &[three.first.as_slice()])?;
    assert_eq!(rt; dropped.then, Err(WireFault::BadLine));
    Ok(())
}

#[test]
fn own_lines_are_not_taken_back(rt: HostRuntime) -> Result<(), Fail> {
    let alloc = rt.alloc();
    let mut wire = wire(alloc)?;
    let sealed = wire.seal(b"hello 2\n")?;
    assert_eq!(rt; sealed, 8);
    let own = wire.waiting().to_vec(alloc)?;
    let mut text = Vec::new(alloc);
    assert_eq!(rt;
        wire.open(own.as_slice(), &mut text),
        Err(WireFault::BadLine)
    );
    assert!(rt; text.is_empty());
    Ok(())
}

#[test]
fn lines_have_a_limit_before_their_end_comes(rt: HostRuntime) -> Result<(), Fail> {
    let alloc = rt.alloc();
    let most = times(alloc, b'A', 699_096)?;
    let held = opened_by(alloc, &[most.as_slice()])?;
    assert_eq!(rt; held.first, Ok(()));
    let over = opened_by(alloc, &[most.as_slice(), b"A"])?;
    assert_eq!(rt; over.first, Err(WireFault::LongLine));
    assert_eq!(rt; over.then, Err(WireFault::LongLine));
    let whole = opened_by(alloc, &[most.as_slice(), b"\n"])?;
    assert_eq!(rt; whole.first, Err(WireFault::BadLine));
    Ok(())
}

#[test]
fn plain_and_cut_lines_are_refused(rt: HostRuntime) -> Result<(), Fail> {
    let alloc = rt.alloc();
    let three = lines(alloc)?;
    let plain = opened_by(alloc, &[b"hello 2\n"])?;
    assert_eq!(rt; plain.first, Err(WireFault::BadLine));
    let (front, _) = three.first.as_slice().split_at(three.first.len() / 2);
    let cut = opened_by(alloc, &[front, b"\n"])?;
    assert_eq!(rt; cut.first, Err(WireFault::BadLine));
    let empty = opened_by(alloc, &[b"\n"])?;
    assert_eq!(rt; empty.first, Err(WireFault::BadLine));
    assert!(rt; empty.text.is_empty());
    Ok(())
}

/// All that waits was sent.
fn note_all(wire: &mut Wire) {
    let waits = wire.waiting().len();
    wire.note_sent(waits);
}

/// So many bytes, of which each thousandth is a line end.
fn lines_of_a_thousand(alloc: Global, count: usize) -> Result<Vec<u8>, Fail> {
    let mut text = times(alloc, b'x', count)?;
    for at in 0..count {
        if at % 1000 == 999
            && let Some(byte) = text.get_mut(at)
        {
            *byte = b'\n';
        }
    }
    Ok(text)
}

#[test]
fn what_waits_is_bounded(rt: HostRuntime) -> Result<(), Fail> {
    let alloc = rt.alloc();
    let mut wire = wire(alloc)?;
    let text = lines_of_a_thousand(alloc, 89_999)?;
    let all = wire.seal(text.as_slice())?;
    let waits = wire.waiting().len();
    let full = wire.seal(text.as_slice())?;
    assert_eq!(rt; all, 64_000);
    assert_eq!(rt; waits, 85_508);
    assert_eq!(rt; full, 0);
    note_all(&mut wire);
    assert!(rt; wire.waiting().is_empty());
    assert_eq!(rt; wire.seal(text.as_slice())?, 64_000);
    Ok(())
}

/// The sealed lines that a new wire makes of a text: how many bytes of it were sealed, the lines, and what they open
/// to.
#[derive(Drop)]
struct Sent {
    count: usize,
    lines: usize,
    text: Vec<u8>,
}

/// What a new wire makes of a text, opened by the seal of the other side.
fn sent_of(alloc: Global, text: &[u8]) -> Result<Sent, Fail> {
    let mut wire = wire(alloc)?;
    let count = wire.seal(text)?;
    let waits = wire.waiting();
    let lines = waits.iter().filter(|byte| **byte == b'\n').count();
    let mut other = other_wire(alloc)?;
    let mut text = Vec::new(alloc);
    other.open(waits, &mut text)?;
    Ok(Sent { count, lines, text })
}

#[test]
fn lines_are_sealed_at_once(rt: HostRuntime) -> Result<(), Fail> {
    let alloc = rt.alloc();
    let short = sent_of(alloc, b"one\ntwo\n\nthree")?;
    assert_eq!(rt; (short.count, short.lines), (9, 1));
    assert_eq!(rt; short.text.as_slice(), b"one\ntwo\n\n".as_slice());
    let text = lines_of_a_thousand(alloc, 40_000)?;
    let long = sent_of(alloc, text.as_slice())?;
    assert_eq!(rt; (long.count, long.lines), (40_000, 3));
    assert_eq!(rt; long.text.as_slice(), text.as_slice());
    let mut one = times(alloc, b'y', 30_000)?;
    one.extend_from_slice(b"\nlast\n")?;
    let mixed = sent_of(alloc, one.as_slice())?;
    assert_eq!(rt; (mixed.count, mixed.lines), (30_006, 2));
    assert_eq!(rt; mixed.text.as_slice(), one.as_slice());
    Ok(())
}

#[test]
fn a_long_line_is_not_sealed(rt: HostRuntime) -> Result<(), Fail> {
    let alloc = rt.alloc();
    let mut wire = wire(alloc)?;
    let mut text = times(alloc, b'x', 524_290)?;
    if let Some(byte) = text.get_mut(524_289) {
        *byte = b'\n';
    }
    assert_eq!(rt; wire.seal(text.as_slice()), Err(WireFault::LongLine));
    assert!(rt; wire.waiting().is_empty());
    assert_eq!(rt; wire.seal(b"no line end"), Ok(0));
    Ok(())
}
