//! Runs a pull.

ghost use Rattle.std.specs.Prelude.{Bool, ◌≡◌, ◌++◌, ◌+◌, ◌<◌, ◌≤◌, ℕ, List, IfErr, IfNone, IfOk, IfSome, MatchOption};
ghost use Rattle.std.specs.Prelude.{MatchResult, Ok, OnOk, length, ◌∷◌, [], ◌≢◌, Err, IsTrue, ◌↔◌, ◌⊎◌, false};
ghost use Rattle.op_text.specs.Spelling.{SpellsOperation};
ghost use Rattle.review_ops.specs.Operation.{Operation};
ghost use Rattle.std.specs.Io.KnownBytes.{Consumes, IsAtEnd};
ghost use Rattle.std.specs.Prelude.{string_bytes};
ghost use Rattle.line_reader.specs.Lines.{line_limit};
ghost use Rattle.gossip_line.specs.Pull.{Awaits, CountsEnds, CountsReading, Greets, IsNoAnswer, IsUnspelled, Pull};
ghost use Rattle.gossip_line.specs.Pull.{PullsRound, ReadsAnswer, SaysOperation, SendsFront, fault_of, front_line};
ghost use Rattle.gossip_line.specs.Pull.{rest_word, unread_fault};
ghost use Rattle.gossip_line.specs.Session.{Moment};

use super::command::{HELLO, after};
use super::fault::LineFault;
use super::send::send;
use byte_ends::{BytesFault, Drain, Source};
use lattice_core::NoMemory;
use line_reader::{LINE_LIMIT, LineReader};
use op_text::{OpTextFault, read_op, write_front};
use replica_core::{Front, Missing};
use review_ops::Op;
use site_port::{Sink, SinkFault};
use std::alloc::Global;

/// How many operations an answer may have.
const ANSWER_LIMIT: usize = 256;

/// How many rounds a pull may have.
const ROUNDS: u32 = 4096;

/// What a pull that ended well did.
#[derive(Clone, Copy, Debug, PartialEq, Eq)]
pub struct Pulled {
    /// How many answers were read whole and handed over.
    pub rounds: u32,
    /// How many operations they had.
    pub taken: u64,
    /// Whether the last one reported that others are left.
    pub more: bool,
}

/// What a round asked with, and what it handed over.
#[derive(Debug, Drop)]
pub struct Handed {
    /// The line of the sink's front.
    pub asked: String,
    pub count: usize,
    pub more: bool,
}

/// Takes from a session what the sink lacks, in rounds: the sink's front is written, an answer is read, and once it is
/// whole its operations are handed over, in their order. After an answer that says that nothing is left, after the
/// second answer to the same front, since a third would be the same, or after 4,096 rounds, `quit` is written and
/// nothing more is read. Refusals: 1 `LongLine`, a line of the answer or that of the sink's front has more than 524,288
/// bytes; 2 `BadVersion`, the first line names another version; 3 `ReadFault`, the source failed; 4 `WriteFault`, the
/// drain failed; 5 `NoMemory`, memory was refused, here or in the sink; 6 `BadAnswer`, a line can't be part of an
/// answer, an operation is invalid, a 257th one came, or the input ended where a line is awaited; 7 `Closed`, the sink
/// has ended; 11 `NotListed` and 12 `FarAhead`, a guarded sink was handed an operation that it doesn't let in. Of an
/// answer that isn't whole nothing is handed over. It costs what the sink costs, and O(n) for n bytes that are read and
/// written.
pub fn pull_run<S: Source, D: Drain, K: Sink>(
    alloc: Global,
    source: &mut S,
    drain: &mut D,
    sink: &mut K,
) -> Result<Pulled, LineFault>
    ensures { Pull K.sinks line_limit 4096
        (record { port = sink.old; left = S.left source.old; taken = D.taken drain.old; unread = S.failed source.old; unwritten = D.failed drain.old })
        (record { port = sink.new; left = S.left source.new; taken = D.taken drain.new; unread = S.failed source.new; unwritten = D.failed drain.new })
        result }
{
    pull_rounds(alloc, LINE_LIMIT, ROUNDS, source, drain, sink)
}

/// Takes from a session what the sink lacks, as `pull_run` does, in at most so many rounds, and by lines of at most so
/// many bytes.
pub fn pull_rounds<S: Source, D: Drain, K: Sink>(
    alloc: Global,
    limit: usize,
    most: u32,
    source: &mut S,
    drain: &mut D,
    sink: &mut K,
) -> Result<Pulled, LineFault>
    requires { 0 < most }
    ensures { Pull K.sinks limit most
        (record { port = sink.old; left = S.left source.old; taken = D.taken drain.old; unread = S.failed source.old; unwritten = D.failed drain.old })
        (record { port = sink.new; left = S.left source.new; taken = D.taken drain.new; unread = S.failed source.new; unwritten = D.failed drain.new })
        result }
{
    let Ok(mut reader) = LineReader::new(alloc, limit) else {
        return Err(LineFault::NoMemory);
    };
    greet(&mut reader, source, drain)?;
    let mut asked = String::new(alloc);
    let mut taken: u64 = 0;
    for round in 0..most {
        let handed = pull_round(alloc, limit, &mut reader, source, drain, sink)?;
        taken += handed.count as u64;
        if is_last(&handed, asked.as_str()) {
            send(drain, "quit\n")?;
            return Ok(Pulled {
                rounds: round + 1,
                taken,
                more: handed.more,
            });
        }
        asked = handed.asked;
    }
    send(drain, "quit\n")?;
    Ok(Pulled {
        rounds: most,
        taken,
        more: true,
    })
}

/// Whether a pull ends with a round, where the one before asked with this line: nothing is left, or this one asked with
/// the same.
fn is_last(handed: &Handed, asked: &str) -> bool
    ensures { IsTrue result ↔ ((handed.now.more ≡ false) ⊎ (string_bytes handed.now.asked ≡ asked.now)) }
{
    !handed.more || handed.asked.as_str() == asked
}

/// Begins a session: sends the version, and awaits that the other side sends it back. Refusals: 1 `LongLine`, its line
/// is longer than the reader's limit; 2 `BadVersion`, it names another version; 3 `ReadFault`; 4 `WriteFault`; 5
/// `NoMemory`; 6 `BadAnswer`, another line or none came.
pub fn greet<S: Source, D: Drain>(
    reader: &mut LineReader,
    source: &mut S,
    drain: &mut D,
) -> Result<(), LineFault>
    ensures greets { (came : List ℕ) × Consumes (S.left source.old) (S.left source.new) came
        × Greets reader.old came (S.left source.new) (D.taken drain.old) (D.taken drain.new) (S.failed source.old)
        (S.failed source.new)
        (D.failed drain.old) (D.failed drain.new) result reader.new }
    ensures limit { reader.new.limit ≡ reader.old.limit }
{
    send(drain, "hello 2\n")?;
    await_line(reader, source)?;
    if reader.line() == HELLO {
        return Ok(());
    }
    match after(reader.line(), b"hello ") {
        Some(_) => Err(LineFault::BadVersion),
        None => Err(LineFault::BadAnswer),
    }
}

/// Pulls one answer, by lines of at most so many bytes, and hands over its operations.
fn pull_round<S: Source, D: Drain, K: Sink>(
    alloc: Global,
    limit: usize,
    reader: &mut LineReader,
    source: &mut S,
    drain: &mut D,
    sink: &mut K,
) -> Result<Handed, LineFault>
    requires { reader.old.limit ≡ limit }
    ensures pulls { PullsRound K.sinks reader.old.limit
        (record { port = sink.old; left = S.left source.old; taken = D.taken drain.old; unread = S.failed source.old; unwritten = D.failed drain.old })
        reader.old.held result
        (record { port = sink.new; left = S.left source.new; taken = D.taken drain.new; unread = S.failed source.new; unwritten = D.failed drain.new })
        reader.new.held }
    ensures limit { reader.new.limit ≡ reader.old.limit }
{
    let front = match sink.front() {
        Ok(front) => front,
        Err(fault) => return Err(declined(fault)),
    };
    let asked = send_front(alloc, limit, drain, &front)?;
    let Missing { ops, more } = read_round(alloc, reader, source)?;
    let count = ops.as_slice().len();
    match sink.take_all(ops) {
        Ok(()) => Ok(Handed { asked, count, more }),
        Err(fault) => Err(declined(fault)),
    }
}

/// The fault of a pull for the fault of its sink.
fn declined(fault: SinkFault) -> LineFault
    ensures { result ≡ fault_of fault }
{
    match fault {
        SinkFault::NoMemory => LineFault::NoMemory,
        SinkFault::Closed => LineFault::Closed,
        SinkFault::NotListed => LineFault::NotListed,
        SinkFault::FarAhead => LineFault::FarAhead,
    }
}

/// Asks a session for the operations that a front lacks, by a line of at most so many bytes before its LF, which is
/// returned. Refusals: 1 `LongLine`, the front needs a longer line, and nothing was sent; 4 `WriteFault`, the drain
/// failed; 5 `NoMemory`, nothing was sent.
pub fn send_front<D: Drain>(
    alloc: Global,
    limit: usize,
    drain: &mut D,
    front: &Front,
) -> Result<String, LineFault>
    ensures sends { SendsFront limit front.now (D.taken drain.old) (D.taken drain.new) (D.failed drain.old)
        (D.failed drain.new) result }
    ensures line { IfOk result (λ line. string_bytes line ≡ front_line front.now) }
    ensures within { OnOk result (length (front_line front.now) ≤ limit + 1) }
{
    let Ok(line) = line_of(alloc, front) else {
        return Err(LineFault::NoMemory);
    };
    if line.as_str().len() > limit.saturating_add(1) {
        return Err(LineFault::LongLine);
    }
    send(drain, line.as_str())?;
    Ok(line)
}

/// The line that asks for what a front lacks.
fn line_of(alloc: Global, front: &Front) -> Result<String, NoMemory>
    ensures { IfOk result (λ line. string_bytes line ≡ front_line front.now) }
{
    let text = write_front(alloc, front)?;
    let mut line = String::new(alloc);
    line.push_str("front ")?;
    line.push_str(text.as_str())?;
    line.push_str("\n")?;
    Ok(line)
}

/// Reads the answer of a session to a front, whole: its operations, at most 256, and whether others are left. Refusals:
/// 1 `LongLine`, a line is longer than the reader's limit; 3 `ReadFault`, the source failed; 5 `NoMemory`; 6
/// `BadAnswer`, a line can't be part of an answer, an operation is invalid, a 257th one came, or the source ended
/// before the answer. It costs O(n) for n bytes.
pub fn read_round<S: Source>(
    alloc: Global,
    reader: &mut LineReader,
    source: &mut S,
) -> Result<Missing, LineFault>
    ensures reads { (came : List ℕ) × Consumes (S.left source.old) (S.left source.new) came
        × ReadsAnswer reader.old came (S.left source.new) result reader.new }
    ensures limit { reader.new.limit ≡ reader.old.limit }
    ensures counted { CountsReading (S.failed source.old) (S.failed source.new) result }
{
    let mut ops = Vec::new(alloc);
    'lines: loop {
        await_line(reader, source)?;
        if let Some(more) = rest_of(reader.line()) {
            return Ok(Missing { ops, more });
        }
        if ops.len() == ANSWER_LIMIT {
            return Err(LineFault::BadAnswer);
        }
        add_operation(&mut ops, alloc, reader.line())?;
    }
}

/// Reads a line, and fails if none comes.
fn await_line<S: Source>(reader: &mut LineReader, source: &mut S) -> Result<(), LineFault>
    ensures awaits { (came : List ℕ) × Consumes (S.left source.old) (S.left source.new) came
        × Awaits reader.old came result reader.new }
    ensures end { result ≡ Err LineFault.BadAnswer → IsAtEnd (S.left source.new) }
    ensures limit { reader.new.limit ≡ reader.old.limit }
    ensures counted { CountsReading (S.failed source.old) (S.failed source.new) result }
{
    match reader.next_line(source) {
        Ok(true) => Ok(()),
        Ok(false) => Err(LineFault::BadAnswer),
        Err(BytesFault::TooLong) => Err(LineFault::LongLine),
        Err(BytesFault::ReadFault) => Err(LineFault::ReadFault),
        Err(BytesFault::NoMemory) => Err(LineFault::NoMemory),
    }
}

/// Whether others are left, if the line is `more` or `done`.
fn rest_of(line: &[u8]) -> Option<bool>
    ensures some { IfSome result (λ more. line.now ≡ rest_word more) }
    ensures none { IfNone result ((more : Bool) → line.now ≢ rest_word more) }
{
    if line == b"more".as_slice() {
        return Some(true);
    }
    if line == b"done".as_slice() {
        return Some(false);
    }
    None
}

/// Adds the operation of a line.
fn add_operation(ops: &mut Vec<Op>, alloc: Global, line: &[u8]) -> Result<(), LineFault>
    ensures ok { OnOk result
        ((op : Operation) × SaysOperation line.now op × (ops.new.items ≡ ops.old.items ++ op ∷ [])) }
    ensures err { IfErr result (IsNoAnswer line.now) }
{
    let Some(text) = after(line, b"op ") else {
        return Err(LineFault::BadAnswer);
    };
    let op = match read_operation(alloc, text) {
        Ok(op) => op,
        Err(fault) => return Err(fault),
    };
    if add(ops, op).is_err() {
        return Err(LineFault::NoMemory);
    }
    Ok(())
}

/// Reads the text of an operation.
fn read_operation(alloc: Global, text: &[u8]) -> Result<Op, LineFault>
    ensures ok { IfOk result (SpellsOperation text.now) }
    ensures err { IfErr result (IsUnspelled text.now) }
{
    match read_op(alloc, text) {
        Ok(op) => Ok(op),
        Err(fault) => Err(unread(&fault)),
    }
}

/// The fault of a pull for an operation that can't be read.
fn unread(fault: &OpTextFault) -> LineFault
    ensures { result ≡ unread_fault fault.now }
{
    match fault {
        OpTextFault::NoMemory => LineFault::NoMemory,
        _ => LineFault::BadAnswer,
    }
}

/// Adds an operation at the end.
fn add(ops: &mut Vec<Op>, op: Op) -> Result<(), NoMemory>
    ensures { OnOk result (ops.new.items ≡ ops.old.items ++ op ∷ []) }
{
    ops.push(op)?;
    Ok(())
}
