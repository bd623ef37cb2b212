//! Lines that begin with the time at which they are written.

use super::asserts::assert_found;
use byte_ends::{Ends, write_all};
use jiff::Timestamp;
use std::io;
use std::io::Write;
use std::test::Fail;
use timed_lines::{Moments, SystemMoments, Timed};

/// A clock that shows one second more each time, from the second after 1970 began on, and at the third time nothing.
#[derive(Drop)]
struct Counted {
    count: i64,
}

impl Moments for Counted {
    ghost reads = { λ old moment new. Unit {0} };

    fn moment(&mut self) -> Option<Timestamp> {
        self.count = self.count.saturating_add(1);
        if self.count == 3 {
            return None;
        }
        Timestamp::from_millisecond(self.count.saturating_mul(1_001)).ok()
    }
}

/// Each line begins with the time that was read before it, also one that is written in pieces; a line before which the
/// clock can't be read goes without, and an empty one has a time.
#[test]
fn each_line_begins_with_its_time(rt: HostRuntime) -> Result<(), Fail> {
    let mut timed = Timed::new(Counted { count: 0 }, Ends::new(Vec::new(rt.alloc())));
    for text in ["one\nt", "wo", "\nthree\n\n", "five"] {
        write_all(&mut timed, text.as_bytes())?;
    }
    let wanted = "1970-01-01T00:00:01.001Z one\n1970-01-01T00:00:02.002Z two\nthree\n\
        1970-01-01T00:00:04.004Z \n1970-01-01T00:00:05.005Z five";
    assert_found(
        &rt,
        timed.into_inner().into_inner().as_slice(),
        wanted.as_bytes(),
    );
    Ok(())
}

/// Without a clock nothing is added.
#[test]
fn lines_without_a_clock_have_no_time(rt: HostRuntime) -> Result<(), Fail> {
    let moments = SystemMoments::new(rt, false);
    let mut timed = Timed::new(moments, Ends::new(Vec::new(rt.alloc())));
    write_all(&mut timed, b"one\ntwo\n".as_slice())?;
    assert_found(
        &rt,
        timed.into_inner().into_inner().as_slice(),
        b"one\ntwo\n".as_slice(),
    );
    Ok(())
}

/// An end that shows where each write ends, by a bar; the write of this number fails.
#[derive(Drop)]
struct Barred {
    written: Vec<u8>,
    writes: u64,
    failing: u64,
}

impl Write for Barred {
    fn write(&mut self, bytes: &[u8]) -> io::Result<usize> {
        self.writes = self.writes.saturating_add(1);
        if self.writes == self.failing {
            return Err(io::Error::from(io::ErrorKind::StorageFull));
        }
        self.written.extend_from_slice(bytes)?;
        self.written.push(b'|')?;
        Ok(bytes.len())
    }

    fn flush(&mut self) -> io::Result<()> {
        Ok(())
    }
}

/// A time is written together with its line. A line that isn't taken is lost, and the next one has a time.
#[test]
fn a_time_and_its_line_are_one_write(rt: HostRuntime) -> Result<(), Fail> {
    let end = Barred {
        written: Vec::new(rt.alloc()),
        writes: 0,
        failing: 2,
    };
    let mut timed = Timed::new(Counted { count: 3 }, Ends::new(end));
    write_all(&mut timed, b"one\n".as_slice())?;
    let is_refused = write_all(&mut timed, b"two\n".as_slice()).is_err();
    assert_found(&rt, is_refused, true);
    write_all(&mut timed, b"three\nfour\n".as_slice())?;
    let wanted = "1970-01-01T00:00:04.004Z one\n|1970-01-01T00:00:06.006Z three\n|\
        1970-01-01T00:00:07.007Z four\n|";
    assert_found(
        &rt,
        timed.into_inner().into_inner().written.as_slice(),
        wanted.as_bytes(),
    );
    Ok(())
}

/// Of a line of 5,000 bytes 4,056 are written with the time, and then the rest.
#[test]
fn a_long_line_has_one_time(rt: HostRuntime) -> Result<(), Fail> {
    let end = Barred {
        written: Vec::new(rt.alloc()),
        writes: 0,
        failing: 0,
    };
    let mut line = [b'a'; 5_000];
    line[4_999] = b'\n';
    let mut timed = Timed::new(Counted { count: 3 }, Ends::new(end));
    write_all(&mut timed, line.as_slice())?;
    let written = timed.into_inner().into_inner().written;
    assert_found(&rt, written.len(), 5_027);
    assert_found(
        &rt,
        written.iter().position(|byte| *byte == b'|'),
        Some(4_081),
    );
    Ok(())
}
