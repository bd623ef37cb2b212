//! Runs a session.

ghost use Rattle.std.specs.Prelude.{◌≡◌, IfErr};
ghost use Rattle.line_reader.specs.Lines.{line_limit};
ghost use Rattle.gossip_line.specs.Answers.{Sends};
ghost use Rattle.gossip_line.specs.Session.{EndsUnread, Moment, Session};

use super::answer::answer;
use super::fault::LineFault;
use super::step::say_too_long;
use byte_ends::{BytesFault, Drain, Source};
use line_reader::{LINE_LIMIT, LineReader};
use site_port::Port;
use std::alloc::Global;

/// How many lines a session may have.
const LINES: usize = 1000000;

/// Answers the lines of a source, one after the other, until one ends the session or the source ends; an unfinished
/// last line isn't answered. Each answer is made whole before its first byte is written. Refusals: 1 `LongLine`, a line
/// has more than 524,288 bytes, which is answered, too; 2 `BadVersion`, the first line isn't `hello 2`, or another
/// version is named, which is answered, too; 3 `ReadFault`, the source failed, or 1,000,000 lines were answered and
/// none ended the session; 4 `WriteFault`, the drain failed: what was taken in stays so; 5 `NoMemory`, memory was
/// refused for reading a line. If memory is refused for an answer, `no 5 NoMemory` is answered, and the session goes
/// on. It costs what the port's answers cost, and O(n) for n bytes that are read and written.
pub fn session_run<S: Source, D: Drain, P: Port>(
    alloc: Global,
    source: &mut S,
    drain: &mut D,
    port: &mut P,
) -> Result<(), LineFault>
    ensures { Session P.gives line_limit 1000000
        (record { port = port.old; left = S.left source.old; taken = D.taken drain.old; unread = S.failed source.old; unwritten = D.failed drain.old })
        (record { port = port.new; left = S.left source.new; taken = D.taken drain.new; unread = S.failed source.new; unwritten = D.failed drain.new })
        result }
{
    answer_lines(alloc, LINE_LIMIT, LINES, source, drain, port)
}

/// Answers a session as `session_run` does, whose lines have at most `limit` bytes, and of which at most `most` lines
/// are answered. Refusals: as there, with these in place of its limits.
pub fn answer_lines<S: Source, D: Drain, P: Port>(
    alloc: Global,
    limit: usize,
    most: usize,
    source: &mut S,
    drain: &mut D,
    port: &mut P,
) -> Result<(), LineFault>
    ensures { Session P.gives limit most
        (record { port = port.old; left = S.left source.old; taken = D.taken drain.old; unread = S.failed source.old; unwritten = D.failed drain.old })
        (record { port = port.new; left = S.left source.new; taken = D.taken drain.new; unread = S.failed source.new; unwritten = D.failed drain.new })
        result }
{
    let Ok(mut reader) = LineReader::new(alloc, limit) else {
        return Err(LineFault::NoMemory);
    };
    for number in 0..most {
        match reader.next_line(source) {
            Ok(true) => {}
            Ok(false) => return Ok(()),
            Err(fault) => return end_unread(fault, drain),
        }
        if !answer(alloc, number == 0, reader.line(), drain, port)? {
            return Ok(());
        }
    }
    Err(LineFault::ReadFault)
}

/// How a session ends where no line is read. Of a line that is too long that is answered.
fn end_unread<D: Drain>(fault: BytesFault, drain: &mut D) -> Result<(), LineFault>
    ensures { EndsUnread fault (D.taken drain.old) (D.taken drain.new) (D.failed drain.old)
        (D.failed drain.new) result }
{
    match fault {
        BytesFault::TooLong => say_too_long(drain),
        BytesFault::ReadFault => Err(LineFault::ReadFault),
        BytesFault::NoMemory => Err(LineFault::NoMemory),
    }
}
