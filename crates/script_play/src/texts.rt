//! What is printed of a world and of the events in it.

ghost use Rattle.std.specs.Prelude.{◌≡◌, ◌++◌, string_bytes, codes, IfOk, OnOk};
ghost use Rattle.op_text.specs.Front.{front_text};
ghost use Rattle.replica_core.specs.Front.{Reaches, IsFront};
ghost use Rattle.script_play.specs.Playing.{ShowsFront, ShowsReport, ShowsState, answer_line, bytes_of};

use byte_ends::Ends;
use gate_rules::Gate;
use lattice_core::NoMemory;
use op_text::write_front;
use ready_core::evaluate;
use replica_core::Replica;
use report_text::{write_report, write_state};
use std::alloc::{AllocError, Global};
use world_core::{Reply, WorldFault};

/// What is printed of a site that isn't there.
pub const NO_SITE: &str = "no 1 NoSite\n";

/// What is printed of a site where memory doesn't suffice for what is to be shown.
pub const NO_MEMORY: &str = "no 6 NoMemory\n";

/// What a step prints. Only a text that is made takes memory.
#[derive(Debug, Drop)]
pub enum Text {
    Made(Vec<u8>),
    Fixed(&'static str),
}

impl Text {
    /// The bytes that are printed.
    pub fn as_bytes(&self) -> &[u8]
        ensures { result.now ≡ bytes_of self.now }
    {
        match self {
            Text::Made(bytes) => bytes.as_slice(),
            Text::Fixed(text) => text.as_bytes(),
        }
    }
}

/// The state text of a replica, or that memory doesn't suffice for it.
pub fn state_text(alloc: Global, replica: &Replica) -> Text
    ensures { ShowsState replica.now (bytes_of result) }
{
    let mut text = Ends::new(Vec::new(alloc));
    match write_state(replica.state(), &mut text) {
        Ok(()) => Text::Made(text.into_inner()),
        Err(_) => Text::Fixed(NO_MEMORY),
    }
}

/// The text of a replica's front on a line, or that memory doesn't suffice for it.
pub fn front_line(alloc: Global, replica: &Replica) -> Text
    ensures { ShowsFront replica.now (bytes_of result) }
{
    match written_front(alloc, replica) {
        Ok(line) => Text::Made(line.into_bytes()),
        Err(_) => Text::Fixed(NO_MEMORY),
    }
}

/// The report of a replica under a gate, or that memory doesn't suffice for it.
pub fn report_text(alloc: Global, replica: &Replica, gate: &Gate) -> Text
    ensures { ShowsReport gate.now replica.now (bytes_of result) }
{
    let Ok(verdicts) = evaluate(alloc, replica.state(), gate) else {
        return Text::Fixed(NO_MEMORY);
    };
    let mut text = Ends::new(Vec::new(alloc));
    match write_report(&verdicts, &mut text) {
        Ok(()) => Text::Made(text.into_inner()),
        Err(_) => Text::Fixed(NO_MEMORY),
    }
}

/// The text of a replica's front, and an LF.
fn written_front(alloc: Global, replica: &Replica) -> Result<String, NoMemory>
    ensures { IfOk result
        (λ line. (front : Reaches) × IsFront replica.now front × (string_bytes line ≡ front_text front ++ codes "\n")) }
{
    let front = replica.front()?;
    let mut line = write_front(alloc, &front)?;
    line.push_str("\n")?;
    Ok(line)
}

/// One line for one answer.
pub fn answer_line(alloc: Global, answer: &Result<Reply, WorldFault>) -> Result<String, AllocError>
    ensures { IfOk result (λ line. string_bytes line ≡ answer_line answer.now) }
{
    let mut line = String::new(alloc);
    write_answer(&mut line, answer)?;
    Ok(line)
}

/// Adds the line of an answer.
fn write_answer(text: &mut String, answer: &Result<Reply, WorldFault>) -> Result<(), AllocError>
    ensures { OnOk result (string_bytes text.new ≡ string_bytes text.old ++ answer_line answer.now) }
{
    match answer {
        Ok(Reply::Took(stamp)) => write!(text, "ok {stamp}\n"),
        Ok(
            Reply::Packet {
                number,
                count,
                more,
            },
        ) => {
            let rest = if *more { "more" } else { "done" };
            write!(text, "packet {number} {count} {rest}\n")
        }
        Ok(Reply::Delivered(count)) => write!(text, "took {count}\n"),
        Ok(Reply::Saved) => write!(text, "saved\n"),
        Ok(Reply::Restarted) => write!(text, "restarted\n"),
        Err(fault) => {
            let number = fault.number();
            let name = fault.name();
            write!(text, "no {number} {name}\n")
        }
    }
}
