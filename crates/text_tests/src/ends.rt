//! Sources and drains, those that fail among them, worked out by hand.

use super::asserts::assert_found;
use super::found::{MEMORY, assert_bytes};
use byte_ends::{
    Broken, BytesFault, Drain, Ends, Failed, Lines, Source, broken_fails_once,
    none_failed_means_ok, read_all, write_all,
};
use std::alloc::Global;
use std::process::Abort;

#[test]
fn laws_are_called(rt: HostRuntime) {
    none_failed_means_ok();
    broken_fails_once();
    assert_found(&rt, (Failed.number(), Failed.name()), (1, "Failed"));
}

#[test]
fn faults_of_bytes_have_numbers_and_names(rt: HostRuntime) {
    for (fault, number, name) in [
        (BytesFault::TooLong, 6, "TooLong"),
        (BytesFault::ReadFault, 7, "ReadFault"),
        (BytesFault::NoMemory, 8, "NoMemory"),
    ] {
        assert_found(&rt, (fault.number(), fault.name()), (number, name));
    }
}

/// All that a source has, and how often the source has failed then.
fn all_of<S: Source>(alloc: Global, source: &mut S, limit: usize) -> (Option<Vec<u8>>, u64) {
    let bytes = read_all(alloc, source, limit).ok();
    (bytes, source.failures())
}

/// All of a text within a limit is read, and no read has failed.
fn assert_read(rt: &impl Abort, alloc: Global, text: &[u8], limit: usize) {
    let (bytes, failures) = all_of(alloc, &mut Ends::new(text), limit);
    assert_bytes(rt, bytes, text);
    assert_found(rt, failures, 0);
}

// A body that always returns `NoMemory` would meet the contract of `read_all`: this shows that with enough memory the
// bytes come.
#[test]
fn reads_all_within_the_limit(rt: HostRuntime) {
    assert_read(&rt, rt.alloc(), b"abc".as_slice(), 3);
    assert_read(&rt, rt.alloc(), b"".as_slice(), 0);
}

// A borrowed source is a source, too.
#[test]
fn reads_all_of_a_lent_source(rt: HostRuntime) {
    let mut lent = Ends::new(b"abc".as_slice());
    let bytes = read_all(rt.alloc(), &mut &mut lent, 3).ok();
    assert_bytes(&rt, bytes, b"abc".as_slice());
}

/// Why a text isn't read within a limit, and how many bytes of it are left then.
fn refused_past(alloc: Global, text: &[u8], limit: usize) -> (Option<BytesFault>, usize) {
    let mut source = Ends::new(text);
    let fault = read_all(alloc, &mut source, limit).err();
    (fault, source.get_ref().len())
}

#[test]
fn a_text_past_the_limit_is_too_long(rt: HostRuntime) {
    let wanted = (Some(BytesFault::TooLong), 0);
    assert_found(&rt, refused_past(rt.alloc(), b"abcd".as_slice(), 3), wanted);
    assert_found(&rt, refused_past(rt.alloc(), b"a".as_slice(), 0), wanted);
}

// More than one piece, and the greatest limit.
#[test]
fn reads_many_pieces(rt: HostRuntime) {
    let text = vec![in rt.alloc(); 7u8; 200_000].ok().expect(&rt, MEMORY);
    let bytes = read_all(rt.alloc(), &mut Ends::new(text.as_slice()), usize::MAX).ok();
    assert_bytes(&rt, bytes, text.as_slice());
}

// A text that fails once.
type BrokenText<'a> = Broken<Ends<&'a [u8]>>;

/// Why a source isn't read, and how often it has failed then.
fn failed(alloc: Global, source: &mut BrokenText<'_>) -> (Option<BytesFault>, u64) {
    let fault = read_all(alloc, source, 9).err();
    (fault, source.failures())
}

/// How many bytes a source still has, and how often it has failed then.
fn gone_on(alloc: Global, source: &mut BrokenText<'_>) -> (Option<usize>, u64) {
    let (bytes, failures) = all_of(alloc, source, 9);
    (len_of(bytes), failures)
}

/// How many bytes there are, where there are any.
fn len_of(bytes: Option<Vec<u8>>) -> Option<usize> {
    match bytes {
        Some(bytes) => Some(bytes.len()),
        None => None,
    }
}

// The source fails before each byte in turn, and before the end; then it goes on.
#[test]
fn reading_fails_before_each_byte(rt: HostRuntime) {
    for (byte, rest) in [(1, 4), (2, 3), (3, 2), (4, 1), (5, 0)] {
        let mut source = Broken::before_byte(Ends::new(b"abcd".as_slice()), byte);
        assert_found(
            &rt,
            failed(rt.alloc(), &mut source),
            (Some(BytesFault::ReadFault), 1),
        );
        assert_found(&rt, gone_on(rt.alloc(), &mut source), (Some(rest), 1));
    }
}

#[test]
fn reading_ends_before_a_later_failure(rt: HostRuntime) {
    let mut whole = Broken::before_byte(Ends::new(b"abcd".as_slice()), 6);
    let bytes = read_all(rt.alloc(), &mut whole, 9).ok();
    assert_bytes(&rt, bytes, b"abcd".as_slice());
}

/// What reading into a piece gives, and the piece's first byte then.
fn read_into(source: &mut BrokenText<'_>, piece: &mut [u8; 3]) -> (Result<usize, Failed>, u8) {
    let moved = source.read(piece.as_mut_slice());
    (moved, piece[0])
}

/// Reads into a piece give these, one after the other, each with the piece's first byte then.
fn assert_reads(
    rt: &impl Abort,
    source: &mut BrokenText<'_>,
    piece: &mut [u8; 3],
    wanted: &[(Result<usize, Failed>, u8)],
) {
    for read in wanted {
        assert_found(rt, read_into(source, piece), *read);
    }
}

/// What a read without room gives.
fn read_nothing(source: &mut BrokenText<'_>) -> Result<usize, Failed> {
    source.read(&mut [])
}

/// How often a source has failed.
fn failures_of(source: &BrokenText<'_>) -> u64 {
    Source::failures(source)
}

// A source fails at its second call.
#[test]
fn a_source_that_breaks_at_a_call_goes_on(rt: HostRuntime) {
    let mut piece = [0u8; 3];
    let mut source = Broken::at_call(Ends::new(b"abcd".as_slice()), 2);
    assert_reads(
        &rt,
        &mut source,
        &mut piece,
        &[
            (Ok(3), b'a'),
            (Err(Failed), b'a'),
            (Ok(1), b'd'),
            (Ok(0), b'd'),
        ],
    );
    assert_found(&rt, failures_of(&source), 1);
}

// A source fails before its third byte. A read without room moves nothing.
#[test]
fn a_source_that_breaks_before_a_byte_goes_on(rt: HostRuntime) {
    let mut piece = [0u8; 3];
    let mut source = Broken::before_byte(Ends::new(b"abcd".as_slice()), 3);
    assert_reads(&rt, &mut source, &mut piece, &[(Ok(2), b'a')]);
    assert_found(&rt, read_nothing(&mut source), Ok(0));
    assert_reads(
        &rt,
        &mut source,
        &mut piece,
        &[(Err(Failed), b'a'), (Ok(2), b'c')],
    );
    assert_found(&rt, failures_of(&source), 1);
}

#[test]
fn a_source_that_never_breaks(rt: HostRuntime) {
    let mut piece = [0u8; 3];
    let mut never = Broken::at_call(Ends::new(b"abcd".as_slice()), 0);
    assert_reads(&rt, &mut never, &mut piece, &[(Ok(3), b'a'), (Ok(1), b'd')]);
}

// A drain that fails once.
type BrokenDrain = Broken<Ends<Vec<u8>>>;

/// Writing these bytes ends so.
fn assert_write(
    rt: &impl Abort,
    drain: &mut BrokenDrain,
    bytes: &[u8],
    wanted: Result<(), Failed>,
) {
    assert_found(rt, write_all(drain, bytes), wanted);
}

/// How often a drain has failed, and the drain under it.
fn drain_failures(drain: &BrokenDrain) -> (u64, u64) {
    (Drain::failures(drain), drain.get_ref().failures())
}

/// A drain has taken these bytes.
fn assert_written(rt: &impl Abort, drain: BrokenDrain, wanted: &[u8]) {
    let written = drain.into_inner().into_inner();
    assert_found(rt, written.as_slice(), wanted);
}

/// The result of writing no bytes to a borrowed drain.
fn write_nothing(drain: &mut BrokenDrain) -> Result<(), Failed> {
    write_all(&mut &mut *drain, b"")
}

// The drain fails at its second call, and goes on.
#[test]
fn a_drain_that_breaks_at_a_call_goes_on(rt: HostRuntime) {
    let mut drain = Broken::at_call(Ends::new(Vec::new(rt.alloc())), 2);
    assert_write(&rt, &mut drain, b"ab".as_slice(), Ok(()));
    assert_write(&rt, &mut drain, b"cd".as_slice(), Err(Failed));
    assert_found(&rt, write_nothing(&mut drain), Ok(()));
    assert_write(&rt, &mut drain, b"ef".as_slice(), Ok(()));
    assert_found(&rt, drain_failures(&drain), (1, 0));
    assert_written(&rt, drain, b"abef".as_slice());
}

// The drain fails before its second byte, and goes on.
#[test]
fn a_drain_that_breaks_before_a_byte_goes_on(rt: HostRuntime) {
    let mut cut = Broken::before_byte(Ends::new(Vec::new(rt.alloc())), 2);
    assert_write(&rt, &mut cut, b"abc".as_slice(), Err(Failed));
    assert_write(&rt, &mut cut, b"bc".as_slice(), Ok(()));
    assert_written(&rt, cut, b"abc".as_slice());
}

/// What writing these bytes moves, and how often the drain has failed then.
fn write_some(drain: &mut Ends<&mut [u8]>, bytes: &[u8]) -> (Result<usize, Failed>, u64) {
    let moved = drain.write(bytes);
    (moved, Drain::failures(drain))
}

// A writer that takes nothing more.
#[test]
fn a_full_writer_fails(rt: HostRuntime) {
    let mut room = [0u8; 2];
    let mut drain = Ends::new(room.as_mut_slice());
    assert_found(&rt, write_some(&mut drain, b"abc"), (Ok(2), 0));
    assert_found(&rt, write_some(&mut drain, b"c"), (Err(Failed), 1));
    assert_found(&rt, write_some(&mut drain, b""), (Ok(0), 1));
}

#[test]
fn lines_end_before_a_line_feed(rt: HostRuntime) {
    let mut lines = Lines::new(b"one\r\n\ntwo\r".as_slice());
    for wanted in [
        Some(b"one".as_slice()),
        Some(b"".as_slice()),
        Some(b"two".as_slice()),
        None,
    ] {
        assert_found(&rt, lines.next_line(), wanted);
    }
}

#[test]
fn an_empty_text_has_no_line(rt: HostRuntime) {
    let mut lines = Lines::new(b"".as_slice());
    assert_found(&rt, lines.next_line(), None);
}
