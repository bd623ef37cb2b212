//! Lines of sources, worked out by hand.

use super::asserts::assert_found;
use super::talks::MEMORY;
use byte_ends::{Broken, BytesFault, Ends, Source};
use line_reader::LineReader;
use linked_list_allocator::LocalHeap;
use std::alloc::Global;
use std::process::Abort;
use std::test::Fail;

/// The next line is this one.
fn assert_line<S: Source>(rt: &impl Abort, reader: &mut LineReader, source: &mut S, line: &[u8]) {
    assert_found(rt, reader.next_line(source), Ok(true));
    assert_found(rt, reader.line(), line);
}

/// A reader of lines of three bytes at most.
fn reader(rt: &impl Abort, alloc: Global) -> LineReader {
    LineReader::new(alloc, 3).ok().expect(rt, MEMORY)
}

/// The lines come, and then this is answered.
fn assert_lines(
    rt: &impl Abort,
    alloc: Global,
    text: &[u8],
    lines: &[&[u8]],
    end: Result<bool, BytesFault>,
) {
    let mut reader = reader(rt, alloc);
    let mut source = Ends::new(text);
    for line in lines {
        assert_line(rt, &mut reader, &mut source, line);
    }
    assert_found(rt, reader.next_line(&mut source), end);
}

#[test]
fn lines_come_one_by_one(rt: HostRuntime) {
    assert_lines(
        &rt,
        rt.alloc(),
        b"ab\r\n\nabc\nab",
        &[b"ab", b"", b"abc"],
        Ok(false),
    );
}

#[test]
fn a_line_may_be_too_long(rt: HostRuntime) {
    let too_long = Err(BytesFault::TooLong);
    assert_lines(&rt, rt.alloc(), b"\nabcd\n", &[b""], too_long);
    assert_lines(&rt, rt.alloc(), b"abcd", &[], Err(BytesFault::TooLong));
}

#[test]
fn a_source_that_fails_may_be_asked_again(rt: HostRuntime) {
    let mut reader = reader(&rt, rt.alloc());
    let mut source = Broken::before_byte(Ends::new(b"abc\n".as_slice()), 3);
    assert_found(
        &rt,
        reader.next_line(&mut source),
        Err(BytesFault::ReadFault),
    );
    assert_line(&rt, &mut reader, &mut source, b"abc");
}

#[test]
fn refused_memory_is_reported(rt: HostRuntime) -> Result<(), Fail> {
    let small = LocalHeap::new(rt.alloc(), 1024)?;
    assert_found(&rt, LineReader::new(&small, 3).is_err(), true);
    let heap = LocalHeap::new(rt.alloc(), 70000)?;
    let mut reader = LineReader::new(&heap, 3)?;
    let mut source = Ends::new(b"abc\n".as_slice());
    assert_found(
        &rt,
        reader.next_line(&mut source),
        Err(BytesFault::NoMemory),
    );
    Ok(())
}

/// The next line is too long, passing over it is answered so, and this is held then.
fn assert_passes<S: Source>(
    rt: &impl Abort,
    reader: &mut LineReader,
    source: &mut S,
    answer: Result<bool, BytesFault>,
    held: &[u8],
) {
    assert_found(rt, reader.next_line(source), Err(BytesFault::TooLong));
    assert_found(rt, reader.pass_over(source), answer);
    assert_found(rt, reader.held(), held);
}

#[test]
fn a_long_line_is_passed_over(rt: HostRuntime) {
    let mut reader = reader(&rt, rt.alloc());
    let mut source = Ends::new(b"abcdefg\nab\nabcd".as_slice());
    assert_passes(&rt, &mut reader, &mut source, Ok(true), b"ab\nabcd");
    assert_line(&rt, &mut reader, &mut source, b"ab");
    assert_passes(&rt, &mut reader, &mut source, Ok(false), b"");
    assert_found(&rt, reader.next_line(&mut source), Ok(false));
}

/// A line of three blocks and one byte more, and another one.
fn many_blocks(alloc: Global) -> Option<Vec<u8>> {
    let mut text = vec![in alloc; b'a'; 3 * 65536].ok()?;
    text.extend_from_slice(b"a\nbc\n").ok()?;
    Some(text)
}

#[test]
fn a_line_of_many_blocks_is_passed_over(rt: HostRuntime) {
    let text = many_blocks(rt.alloc()).expect(&rt, MEMORY);
    let mut reader = reader(&rt, rt.alloc());
    let mut source = Broken::at_call(Ends::new(text.as_slice()), 3);
    let fault = Err(BytesFault::ReadFault);
    assert_passes(&rt, &mut reader, &mut source, fault, b"");
    assert_found(&rt, reader.pass_over(&mut source), Ok(true));
    assert_line(&rt, &mut reader, &mut source, b"bc");
}
