//! Reads a source line by line, and hands each parsed line to a taker.

ghost use Rattle.std.specs.Prelude.{◌≡◌};
ghost use Rattle.event_feed.specs.Feed.{Feeds, gerrit_line_limit};
ghost use Rattle.event_feed.specs.Progress.{end_of};
ghost use Rattle.event_feed.specs.Steps.{Moves, PassesOver, Rests, Steps, with_more};

use super::fault::FeedFault;
use super::handing_over::{Learned, end_lines, refuse_last, refuse_line, take_line};
use super::progress::{Input, Progress};
use super::taker::Taker;
use byte_ends::{BytesFault, Source};
use gerrit_events::{Known, Projects};
use line_reader::LineReader;
use memchr::memchr;
use std::alloc::Global;

/// How many bytes a line may have: 64 MiB.
const LINE_LIMIT: usize = 67_108_864;

/// Reads the lines of a source, one after the other, and hands each parsed line to a taker, with its number, counted
/// from 1, before the next one is read. Whenever more of the source has to be read, the taker's `rest` is called first.
/// A line of more than 67,108,864 bytes is skipped without being held, and is reported as no event, as is a last line
/// without an LF. Succeeds at the end of the source. Refusals: 2 `Dropped`, a line says that Gerrit dropped events; 3
/// `ReadFault`, the source failed, or gave 2^64 - 1 lines or blocks of one line; 5 `NoMemory`, memory was refused for a
/// line, which wasn't handed over; 9 `Incomplete`, Gerrit answered with an error, or the source ended within the answer
/// to a query, or before an answer that is required; and those of the taker. It costs O(n) for n bytes, and what the
/// taker costs.
pub fn feed_lines<S: Source, T: Taker>(
    alloc: Global,
    input: Input,
    projects: &Projects,
    source: &mut S,
    taker: &mut T,
) -> Result<(), FeedFault>
    ensures { Feeds T.rests T.takes input projects.now gerrit_line_limit 18446744073709551615 (S.left source.old)
        (S.failed source.old) taker.old (S.left source.new) (S.failed source.new) taker.new result }
{
    feed_most(alloc, input, projects, LINE_LIMIT, u64::MAX, source, taker)
}

/// Feeds as `feed_lines` does, from lines of at most `limit` bytes, and of at most `most` lines. Refusals: as there,
/// with these in place of its limits.
pub fn feed_most<S: Source, T: Taker>(
    alloc: Global,
    input: Input,
    projects: &Projects,
    limit: usize,
    most: u64,
    source: &mut S,
    taker: &mut T,
) -> Result<(), FeedFault>
    ensures { Feeds T.rests T.takes input projects.now limit most (S.left source.old) (S.failed source.old) taker.old
        (S.left source.new) (S.failed source.new) taker.new result }
{
    let Ok(mut reader) = LineReader::new(alloc, limit) else {
        return Err(FeedFault::NoMemory);
    };
    let mut learned = Learned {
        known: Known::new(alloc),
        progress: Progress::Unbegun,
    };
    for number in 0..most {
        if !next_line(
            alloc,
            input,
            projects,
            number + 1,
            &mut reader,
            &mut learned,
            source,
            taker,
        )? {
            return Ok(());
        }
        reader = renewed(alloc, limit, reader);
    }
    Err(FeedFault::ReadFault)
}

/// A reader in the same state. If nothing is held it is a new one, so that the memory of a long line is freed.
fn renewed(alloc: Global, limit: usize, reader: LineReader) -> LineReader
    requires { reader.limit ≡ limit }
    ensures limit { result.limit ≡ limit }
    ensures held { result.held ≡ reader.held }
{
    if !reader.held().is_empty() {
        return reader;
    }
    match LineReader::new(alloc, limit) {
        Ok(fresh) => fresh,
        Err(_) => reader,
    }
}

/// Takes the next line. Returns whether there was one.
fn next_line<S: Source, T: Taker>(
    alloc: Global,
    input: Input,
    projects: &Projects,
    number: u64,
    reader: &mut LineReader,
    learned: &mut Learned,
    source: &mut S,
    taker: &mut T,
) -> Result<bool, FeedFault>
    ensures limit { reader.new.limit ≡ reader.old.limit }
    ensures step { Steps T.rests T.takes input projects.now reader.old.limit number
        (record {
          source = record { left = S.left source.old; failed = S.failed source.old; held = reader.old.held };
          known = learned.old.known;
          progress = learned.old.progress;
          taker = taker.old;
        })
        (record {
          source = record { left = S.left source.new; failed = S.failed source.new; held = reader.new.held };
          known = learned.new.known;
          progress = learned.new.progress;
          taker = taker.new;
        })
        result }
{
    match await_more(reader.held(), taker) {
        Ok(()) => read_line(
            alloc, input, projects, number, reader, learned, source, taker,
        ),
        Err(fault) => Err(fault),
    }
}

/// Lets the taker rest, unless a whole line is held.
fn await_more<T: Taker>(held: &[u8], taker: &mut T) -> Result<(), FeedFault>
    ensures { Rests T.rests held.now taker.old taker.new result }
{
    match memchr(b'\n', held) {
        Some(_at) => Ok(()),
        None => taker.rest(),
    }
}

/// Reads the next line and takes it. Returns whether there was one.
fn read_line<S: Source, T: Taker>(
    alloc: Global,
    input: Input,
    projects: &Projects,
    number: u64,
    reader: &mut LineReader,
    learned: &mut Learned,
    source: &mut S,
    taker: &mut T,
) -> Result<bool, FeedFault>
    ensures limit { reader.new.limit ≡ reader.old.limit }
    ensures moves { Moves T.takes input projects.now reader.old.limit number
        (record {
          source = record { left = S.left source.old; failed = S.failed source.old; held = reader.old.held };
          known = learned.old.known;
          progress = learned.old.progress;
          taker = taker.old;
        })
        (record {
          source = record { left = S.left source.new; failed = S.failed source.new; held = reader.new.held };
          known = learned.new.known;
          progress = learned.new.progress;
          taker = taker.new;
        })
        result }
{
    match reader.next_line(source) {
        Ok(true) => take_line(alloc, projects, number, reader.line(), learned, taker),
        Ok(false) => and_more(
            end_lines(
                alloc,
                number,
                reader.held(),
                input.end(learned.progress),
                taker,
            ),
            false,
        ),
        Err(BytesFault::TooLong) => {
            pass_line(alloc, input, number, reader, learned, source, taker)
        }
        Err(BytesFault::ReadFault) => Err(FeedFault::ReadFault),
        Err(BytesFault::NoMemory) => Err(FeedFault::NoMemory),
    }
}

/// `more`, unless the call failed.
fn and_more(done: Result<(), FeedFault>, more: bool) -> Result<bool, FeedFault>
    ensures { result ≡ with_more more done }
{
    match done {
        Ok(()) => Ok(more),
        Err(fault) => Err(fault),
    }
}

/// Skips a line that is too long, and hands over that it is no event. Returns whether its LF came.
fn pass_line<S: Source, T: Taker>(
    alloc: Global,
    input: Input,
    number: u64,
    reader: &mut LineReader,
    learned: &mut Learned,
    source: &mut S,
    taker: &mut T,
) -> Result<bool, FeedFault>
    ensures limit { reader.new.limit ≡ reader.old.limit }
    ensures known { learned.new.known ≡ learned.old.known }
    ensures passes { PassesOver T.takes number
        (record { left = S.left source.old; failed = S.failed source.old; held = reader.old.held })
        (record { left = S.left source.new; failed = S.failed source.new; held = reader.new.held })
        learned.old.progress learned.new.progress taker.old taker.new (end_of input learned.old.progress) result }
{
    match reader.pass_over(source) {
        Ok(true) => refuse_line(alloc, number, &mut learned.progress, taker),
        Ok(false) => and_more(
            refuse_last(alloc, number, input.end(learned.progress), taker),
            false,
        ),
        Err(BytesFault::NoMemory) => Err(FeedFault::NoMemory),
        Err(BytesFault::ReadFault) => Err(FeedFault::ReadFault),
        Err(BytesFault::TooLong) => Err(FeedFault::ReadFault),
    }
}
