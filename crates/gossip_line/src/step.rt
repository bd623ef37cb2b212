//! The steps of a session, which a loop over many sessions uses, too: what a line asks for, and how that is answered.

ghost use Rattle.std.specs.Prelude.{◌≡◌, ◌++◌, Err, MatchBool, Ok, false, true};
ghost use Rattle.gossip_line.specs.Answers.{Sends};
ghost use Rattle.gossip_line.specs.Commands.{BeginsLine, take_word, front_word};
ghost use Rattle.gossip_line.specs.Steps.{IsSaid, IsShown, IsStep, answer_of, call_of, unread_answer};
ghost use Rattle.gossip_line.specs.Texts.{answer_text, long_line, next_of, refusal_line, reply_text};
ghost use Rattle.site_port.specs.Ports.{lacks, looks, reply_by, reports, stamped};

use super::command::{Command, HELLO, after, command_of};
use super::fault::LineFault;
use super::send::{go_on, go_on_bytes, send, send_report, send_stamp, text_of};
use byte_ends::Drain;
use op_text::{OpTextFault, read_body, read_front};
use replica_core::Front;
use report_text::{WriteStateFault, write_state};
use review_ops::{Draft, Stamp};
use site_port::{Port, PortFault};
use std::alloc::Global;

/// What is answered where memory is refused.
const NO_MEMORY: &str = "no 5 NoMemory\n";

/// What a line asks for, once it is parsed.
#[derive(Drop)]
pub enum Step {
    /// An answer that doesn't depend on the site.
    Says(Saying),
    /// To take in a body.
    Takes(Draft),
    /// To look at what the site has.
    Looks(Look),
}

/// An answer that doesn't depend on the site.
#[derive(Clone, Copy, Debug, PartialEq, Eq)]
pub enum Saying {
    /// This protocol version.
    Greeting,
    /// The line names another version, or the first line names none; the session ends.
    BadVersion,
    /// Memory was refused for the line.
    NoMemory,
    /// The line is no command.
    BadCommand,
    /// What follows the command isn't read.
    BadText,
    /// It is noted that a feed has heard from Gerrit.
    Noted,
    /// The session ends well.
    Farewell,
    /// The session's key doesn't allow what the line asks for.
    NotAllowed,
}

/// What is looked at.
#[derive(Drop)]
pub enum Look {
    /// What a front lacks.
    Missing(Front),
    /// Which items are ready.
    Ready,
    /// The state.
    State,
}

/// What a line asks for; the first one has to name the version. It costs O(n) for n bytes.
pub fn step_of(alloc: Global, first: bool, line: &[u8]) -> Step
    ensures { IsStep first line.now result }
{
    if first {
        return Step::Says(greeting(line));
    }
    match command_of(line) {
        Command::Hello => Step::Says(Saying::Greeting),
        Command::OtherVersion => Step::Says(Saying::BadVersion),
        Command::Take(text) => take_step(alloc, text),
        Command::Front(text) => front_step(alloc, text),
        Command::Ready => Step::Looks(Look::Ready),
        Command::State => Step::Looks(Look::State),
        Command::Heard => Step::Says(Saying::Noted),
        Command::Quit => Step::Says(Saying::Farewell),
        Command::Other => Step::Says(Saying::BadCommand),
    }
}

/// What is answered to the first line.
fn greeting(line: &[u8]) -> Saying
    ensures { IsSaid true line.now (answer_of result) }
{
    if line == HELLO {
        return Saying::Greeting;
    }
    Saying::BadVersion
}

/// What a line asks for that begins with `take`.
fn take_step(alloc: Global, text: &[u8]) -> Step
    ensures { IsStep false (take_word ++ text.now) result }
{
    match read_body(alloc, text) {
        Ok(draft) => Step::Takes(draft),
        Err(fault) => Step::Says(unread(&fault)),
    }
}

/// What a line asks for that begins with `front`.
fn front_step(alloc: Global, text: &[u8]) -> Step
    ensures { IsStep false (front_word ++ text.now) result }
{
    match read_front(alloc, text) {
        Ok(front) => Step::Looks(Look::Missing(front)),
        Err(fault) => Step::Says(unread(&fault)),
    }
}

/// What is answered where the text after a command isn't read.
fn unread(fault: &OpTextFault) -> Saying
    ensures { answer_of result ≡ unread_answer fault.now }
{
    match fault {
        OpTextFault::NoMemory => Saying::NoMemory,
        _ => Saying::BadText,
    }
}

/// Whether a line asks to take in a body, well spelled or not. It takes no memory.
pub fn is_take(line: &[u8]) -> bool
    ensures { MatchBool result (BeginsLine take_word line.now) (¬ BeginsLine take_word line.now) }
{
    after(line, b"take ").is_some()
}

/// Answers a line to which this is said, and says whether the session goes on.
pub fn say<D: Drain>(saying: Saying, drain: &mut D) -> Result<bool, LineFault>
    ensures { Sends (answer_text (answer_of saying)) (next_of (answer_of saying)) (D.taken drain.old)
        (D.taken drain.new) (D.failed drain.old) (D.failed drain.new) result }
{
    send(drain, saying.text())?;
    saying.next()
}

impl Saying {
    /// The text of the answer.
    fn text(self) -> &'static str
        ensures { result.now ≡ answer_text (answer_of self) }
    {
        match self {
            Saying::Greeting => "hello 2\n",
            Saying::BadVersion => "no 2 BadVersion\n",
            Saying::NoMemory => NO_MEMORY,
            Saying::BadCommand => "no 6 BadCommand\n",
            Saying::BadText => "no 7 BadText\n",
            Saying::Noted => "noted\n",
            Saying::Farewell => "bye\n",
            Saying::NotAllowed => "no 11 NotAllowed\n",
        }
    }

    /// Whether the session goes on after it, and how it ends where not.
    fn next(self) -> Result<bool, LineFault>
        ensures { result ≡ next_of (answer_of self) }
    {
        match self {
            Saying::BadVersion => Err(LineFault::BadVersion),
            Saying::Farewell => Ok(false),
            _ => Ok(true),
        }
    }
}

/// Answers that a line is too long, which ends the session.
pub fn say_too_long<D: Drain>(drain: &mut D) -> Result<(), LineFault>
    ensures { Sends long_line (Err LineFault.LongLine) (D.taken drain.old) (D.taken drain.new) (D.failed drain.old)
        (D.failed drain.new) result }
{
    send(drain, "no 1 LongLine\n")?;
    Err(LineFault::LongLine)
}

/// Answers a line whose body was taken in, or refused.
pub fn say_taken<D: Drain>(
    taken: Result<Stamp, PortFault>,
    drain: &mut D,
) -> Result<bool, LineFault>
    ensures { Sends (reply_text (reply_by stamped taken)) (Ok true) (D.taken drain.old) (D.taken drain.new)
        (D.failed drain.old) (D.failed drain.new) result }
{
    match taken {
        Ok(stamp) => send_stamp(drain, stamp),
        Err(fault) => go_on(drain, refusal_line(fault)),
    }
}

/// Looks at what a site has, and answers that. It costs what the port's reply costs.
pub fn show<D: Drain, P: Port>(
    alloc: Global,
    look: &Look,
    drain: &mut D,
    port: &mut P,
) -> Result<bool, LineFault>
    ensures { IsShown P.gives port.old (call_of look.now) port.new (D.taken drain.old) (D.taken drain.new)
        (D.failed drain.old) (D.failed drain.new) result }
{
    match look {
        Look::Missing(front) => pass_on(alloc, front, drain, port),
        Look::Ready => report(drain, port),
        Look::State => show_state(drain, port),
    }
}

/// Answers what a front lacks.
fn pass_on<D: Drain, P: Port>(
    alloc: Global,
    front: &Front,
    drain: &mut D,
    port: &mut P,
) -> Result<bool, LineFault>
    ensures { IsShown P.gives port.old (lacks front.now) port.new (D.taken drain.old) (D.taken drain.new)
        (D.failed drain.old) (D.failed drain.new) result }
{
    match port.missing(front) {
        Ok(missing) => match text_of(alloc, &missing) {
            Ok(text) => go_on_bytes(drain, text.as_slice()),
            Err(_) => go_on(drain, NO_MEMORY),
        },
        Err(fault) => go_on(drain, refusal_line(fault)),
    }
}

/// Answers the report.
fn report<D: Drain, P: Port>(drain: &mut D, port: &mut P) -> Result<bool, LineFault>
    ensures { IsShown P.gives port.old reports port.new (D.taken drain.old) (D.taken drain.new)
        (D.failed drain.old) (D.failed drain.new) result }
{
    match port.report() {
        Ok(verdicts) => send_report(drain, &verdicts),
        Err(fault) => go_on(drain, refusal_line(fault)),
    }
}

/// Answers the state text.
fn show_state<D: Drain, P: Port>(drain: &mut D, port: &mut P) -> Result<bool, LineFault>
    ensures { IsShown P.gives port.old looks port.new (D.taken drain.old) (D.taken drain.new)
        (D.failed drain.old) (D.failed drain.new) result }
{
    match port.look() {
        Ok(replica) => match write_state(replica.state(), drain) {
            Ok(()) => Ok(true),
            Err(WriteStateFault::WriteFault) => Err(LineFault::WriteFault),
            Err(WriteStateFault::NoMemory) => go_on(drain, NO_MEMORY),
        },
        Err(fault) => go_on(drain, refusal_line(fault)),
    }
}

/// What is answered where the port refuses.
fn refusal_line(fault: PortFault) -> &'static str
    ensures { result.now ≡ refusal_line fault }
{
    match fault {
        PortFault::ClockSpent => "no 9 ClockSpent\n",
        PortFault::BadBody(_) => "no 8 BadBody\n",
        PortFault::NoMemory => NO_MEMORY,
        PortFault::Closed => "no 10 Closed\n",
    }
}
