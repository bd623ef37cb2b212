//! Whole texts and lines that are read.

use super::turns::{Call, Memory, Seen, assert_each};
use byte_ends::{BytesFault, Ends, Source, read_all};
use line_reader::LineReader;

/// A text of one line.
const TEXT: &[u8] = b"abcdefghijklmnopqrstuvwxyz\n";

/// The text is read whole.
#[derive(Clone, Copy)]
struct Wholes;

/// The fault of a reading, if there was one; whether all was read; and whether the source failed.
fn read(memory: &Memory) -> (Option<BytesFault>, bool, u64) {
    let mut source = Ends::new(TEXT);
    let read = read_all(memory, &mut source, 100);
    let fault = read.as_ref().err().copied();
    let is_whole = read.is_ok_and(|bytes| bytes.as_slice() == TEXT);
    (fault, is_whole, source.failures())
}

impl Call for Wholes {
    fn seen(self, memory: &Memory, granted: u32) -> Option<Seen> {
        memory.refuse_after(granted);
        let (fault, is_whole, failures) = read(memory);
        let refused = memory.grant_all();
        let failed = fault == Some(BytesFault::NoMemory);
        Some(Seen {
            failed,
            refused,
            stated: is_whole != failed && failures == 0,
            whole: read(memory) == (None, true, 0),
        })
    }
}

/// A reader of lines is made.
#[derive(Clone, Copy)]
struct Readers;

impl Call for Readers {
    fn seen(self, memory: &Memory, granted: u32) -> Option<Seen> {
        memory.refuse_after(granted);
        let failed = LineReader::new(memory, 100).is_err();
        let refused = memory.grant_all();
        Some(Seen {
            failed,
            refused,
            stated: true,
            whole: LineReader::new(memory, 100).is_ok(),
        })
    }
}

/// A line is read. What was read before memory was refused is held.
#[derive(Clone, Copy)]
struct Lines;

impl Call for Lines {
    fn seen(self, memory: &Memory, granted: u32) -> Option<Seen> {
        let reader = LineReader::new(memory, 100).ok()?;
        Some(handed_out(memory, reader, granted))
    }
}

/// What is seen of a line of the text.
fn handed_out<'a>(memory: &'a Memory, mut reader: LineReader<&'a Memory>, granted: u32) -> Seen {
    let mut source = Ends::new(TEXT);
    memory.refuse_after(granted);
    let read = reader.next_line(&mut source);
    let refused = memory.grant_all();
    let failed = read == Err(BytesFault::NoMemory);
    let is_read = read == Ok(true) || reader.next_line(&mut source) == Ok(true);
    Seen {
        failed,
        refused,
        stated: failed || read == Ok(true),
        whole: is_read && reader.line() == b"abcdefghijklmnopqrstuvwxyz".as_slice(),
    }
}

#[test]
fn what_is_read_is_whole_or_refused(rt: HostRuntime) {
    assert_each(&rt, rt.alloc(), Wholes, 1);
    assert_each(&rt, rt.alloc(), Readers, 1);
    assert_each(&rt, rt.alloc(), Lines, 1);
}
