//! The output buffer of a session: answers that aren't sent yet.

ghost use Rattle.std.specs.Prelude.{◌≡◌, ◌≤◌, ◌++◌, [], List, ℕ, Err, Ok, OnErr, OnOk, drop, length, true};
ghost use Rattle.gossip_line.specs.Steps.{answer_of};
ghost use Rattle.gossip_line.specs.Texts.{answer_text, long_line, next_of, reply_text};
ghost use Rattle.gossip_line.specs.declared.fault.LineFault.{LineFault};
ghost use Rattle.site_port.specs.Ports.{reply_by, stamped};
ghost use Rattle.byte_ends.specs.Ends.{ends_failed, ends_inner};
ghost use Rattle.site_serve.specs.Outboxes.{Adds, IsRefusingMemory};

use byte_ends::Ends;
use gossip_line::{LineFault, Saying, say, say_taken, say_too_long};
use review_ops::Stamp;
use site_port::PortFault;
use std::alloc::{AllocError, Global};
use std::marker::Model;
use std::mem;

/// How many sent bytes are kept at most while fewer wait, and the capacity that is kept when none waits.
const KEPT: usize = 65_536;

/// The bytes of answers that weren't sent yet. Contracts see these bytes.
#[derive(Drop)]
pub(super) struct Outbox {
    answers: Vec<u8>,
    /// How many bytes were sent.
    sent: usize,
}

impl Model for Outbox {
    ghost use Rattle.std.specs.Prelude.{◌≤◌, List, ℕ, drop, vec_len};

    ghost Value = { List ℕ };

    ghost view = { λ outbox. drop outbox.sent outbox.answers.items };

    ghost invariant = { λ outbox. outbox.sent ≤ vec_len outbox.answers };
}

impl Outbox {
    /// Nothing was answered yet.
    pub(super) fn new(alloc: Global) -> Outbox
        ensures { result ≡ [] }
    {
        Outbox {
            answers: Vec::new(alloc),
            sent: 0,
        }
    }

    /// How many bytes wait to be sent.
    pub(super) fn len(&self) -> usize
        ensures { result ≡ length self.now }
    {
        self.answers.len() - self.sent
    }

    /// What waits to be sent.
    pub(super) fn as_slice(&self) -> &[u8]
        ensures { result.now ≡ self.now }
    {
        &self.answers[self.sent..]
    }

    /// Adds an answer that doesn't depend on the site.
    pub(super) fn say(&mut self, alloc: Global, saying: Saying) -> Result<bool, LineFault>
        ensures { Adds (answer_text (answer_of saying)) (next_of (answer_of saying)) self.old self.new result }
    {
        let mut drain = drain_over(&mut self.answers, alloc);
        let said = say(saying, &mut drain);
        self.answers = drain.into_inner();
        refusing_memory(said)
    }

    /// Adds that a line is too long.
    pub(super) fn say_too_long(&mut self, alloc: Global) -> Result<(), LineFault>
        ensures { Adds long_line (Err LineFault.LongLine) self.old self.new result }
    {
        let mut drain = drain_over(&mut self.answers, alloc);
        let said = say_too_long(&mut drain);
        self.answers = drain.into_inner();
        refusing_memory(said)
    }

    /// Adds the answer to a line whose body was taken in, or refused.
    pub(super) fn say_taken(
        &mut self,
        alloc: Global,
        taken: Result<Stamp, PortFault>,
    ) -> Result<bool, LineFault>
        ensures { Adds (reply_text (reply_by stamped taken)) (Ok true) self.old self.new result }
    {
        let mut drain = drain_over(&mut self.answers, alloc);
        let said = say_taken(taken, &mut drain);
        self.answers = drain.into_inner();
        refusing_memory(said)
    }

    /// Adds a text.
    pub(super) fn add(&mut self, text: Vec<u8>) -> Result<(), AllocError>
        ensures ok { OnOk result (self.new ≡ self.old ++ text.items) }
        ensures err { OnErr result (self.new ≡ self.old) }
    {
        if self.answers.len() <= self.sent {
            self.answers = text;
            self.sent = 0;
            return Ok(());
        }
        self.answers.extend_from_slice(text.as_slice())
    }

    /// Notes that so many bytes were sent. It costs O(1) for each of them.
    pub(super) fn note_sent(&mut self, count: usize)
        requires { count ≤ length self.old }
        ensures { self.new ≡ drop count self.old }
    {
        self.sent += count;
        if self.answers.len() <= self.sent {
            self.clear();
        } else if self.sent >= KEPT && self.sent >= self.answers.len() - self.sent {
            self.drop_sent();
        }
    }

    /// Drops the sent bytes.
    fn drop_sent(&mut self)
        ensures { self.new ≡ self.old }
    {
        self.answers.drain(..self.sent);
        self.sent = 0;
    }

    /// Drops everything, and frees the capacity of long answers.
    pub(super) fn clear(&mut self)
        ensures { self.new ≡ [] }
    {
        self.answers.clear();
        self.answers.shrink_to(KEPT);
        self.sent = 0;
    }
}

/// A drain that appends to these bytes, which are moved into it.
fn drain_over(answers: &mut Vec<u8>, alloc: Global) -> Ends<Vec<u8>>
    ensures inner { ends_inner result ≡ answers.old }
    ensures failures { ends_failed result ≡ 0 }
{
    Ends::new(mem::replace(answers, Vec::new(alloc)))
}

/// A failed write to memory is reported as refused memory.
pub(super) fn refusing_memory<T>(said: Result<T, LineFault>) -> Result<T, LineFault>
    ensures { IsRefusingMemory said result }
{
    match said {
        Err(LineFault::WriteFault) => Err(LineFault::NoMemory),
        said => said,
    }
}
