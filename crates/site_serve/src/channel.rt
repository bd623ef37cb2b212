//! The channel between the bytes of a connection and the lines of its session: plain or sealed.

ghost use Rattle.std.specs.Prelude.{◌≡◌, ◌≤◌, ◌++◌, [], Err, IfOk, MatchResult, Ok, OnErr, OnOk, length};
ghost use Rattle.std.specs.Io.KnownBytes.{WriteAppends};
ghost use Rattle.gossip_line.specs.declared.fault.LineFault.TheVariants.{NoMemory};
ghost use Rattle.site_serve.specs.Channels.{IsSent, SealsMore, TakesCame, outgoing_of, seal_fault, seal_result};
ghost use Rattle.site_serve.specs.Channels.{sends_of};
ghost use Rattle.site_serve.specs.declared.channel.ChannelMode.TheVariants.{Locked, Plain, Sealed, Shut};
ghost use Rattle.site_serve.specs.declared.session_fault.SessionFault.TheVariants.{Line};

use super::inbox::Inbox;
use super::outbox::Outbox;
use super::session_fault::SessionFault;
use gossip_line::LineFault;
use memchr::memchr;
use sealed_line::Greeting;
use sealed_link::{Wire, WireFault};
use std::alloc::{AllocError, Global};
use std::io;
use std::io::Write;

/// How many bytes the first line of a sealed connection may have.
const GREETING_LIMIT: usize = 256;

/// How the bytes of a connection become the lines of its session.
#[derive(Drop)]
pub(super) enum ChannelMode {
    /// They are its session's lines.
    Plain,
    /// The connection isn't authenticated yet: its first line has to name a key.
    Locked,
    /// They are its session's lines, sealed.
    Sealed(Wire),
    /// Nothing more is sent.
    Shut,
}

/// The credential in the first line of a connection.
#[derive(Clone, Copy, PartialEq)]
pub(super) enum Credential {
    /// None: the line isn't whole yet, or the channel isn't locked.
    None,
    /// A key.
    Key(Greeting),
    /// A first line that names no key, is too long, or has bytes after it.
    Other,
}

/// The channel of a connection, with its bytes that aren't part of the session.
#[derive(Drop)]
pub(super) struct Channel {
    mode: ChannelMode,
    /// What was read before the connection was admitted.
    greeting: Vec<u8>,
    /// The answer to the first line, which is sent unsealed, before all else.
    first: Outbox,
}

impl Channel {
    /// A channel in this mode, of which nothing was read or sent.
    pub(super) fn new(alloc: Global, mode: ChannelMode) -> Channel
        ensures mode { result.mode ≡ mode }
        ensures first { result.first ≡ [] }
    {
        Channel {
            mode,
            greeting: Vec::new(alloc),
            first: Outbox::new(alloc),
        }
    }

    /// Takes bytes that were read, and adds to the inbox those that are the session's, opened if they are sealed.
    pub(super) fn take(&mut self, came: &[u8], inbox: &mut Inbox) -> Result<(), SessionFault>
        ensures { TakesCame self.old.mode came.now inbox.old inbox.new result self.new.mode }
    {
        match &mut self.mode {
            ChannelMode::Plain => kept(inbox.keep(came)),
            ChannelMode::Locked => kept(self.greeting.extend_from_slice(came)),
            ChannelMode::Sealed(wire) => opened(inbox.keep_opened(wire, came)),
            ChannelMode::Shut => Ok(()),
        }
    }

    /// The credential of the connection, once its first line is whole.
    pub(super) fn credential(&self) -> Credential {
        if !matches!(&self.mode, ChannelMode::Locked) {
            return Credential::None;
        }
        match memchr(b'\n', self.greeting.as_slice()) {
            Some(end) if end + 1 == self.greeting.len() => greeting_of(&self.greeting[..end]),
            None if self.greeting.len() <= GREETING_LIMIT => Credential::None,
            _ => Credential::Other,
        }
    }

    /// Admits the connection, and sends the answer: from now on its lines are sealed.
    pub(super) fn admit(&mut self, answer: Vec<u8>, wire: Wire) -> Result<(), SessionFault>
        ensures mode { self.new.mode ≡ Sealed wire }
        ensures first { OnOk result (self.new.first ≡ self.old.first ++ answer.items) }
    {
        self.mode = ChannelMode::Sealed(wire);
        kept(self.first.add(answer))
    }

    /// Sends the answer that the connection isn't admitted.
    pub(super) fn reject(&mut self, answer: Vec<u8>) -> Result<(), SessionFault>
        ensures mode { self.new.mode ≡ self.old.mode }
        ensures first { OnOk result (self.new.first ≡ self.old.first ++ answer.items) }
    {
        kept(self.first.add(answer))
    }

    /// Seals more of the session's answers, if all sealed bytes are sent.
    pub(super) fn seal(&mut self, outbox: &mut Outbox) -> Result<(), SessionFault>
        ensures more { SealsMore
            (sends_of self.old.mode []) self.old.mode outbox.old self.new.mode outbox.new result }
        ensures first { self.new.first ≡ self.old.first }
    {
        match &mut self.mode {
            ChannelMode::Sealed(wire) if wire.waiting().is_empty() => sealed(wire, outbox),
            _ => Ok(()),
        }
    }

    /// The bytes to send next, given the session's answers.
    pub(super) fn next<'a>(&'a self, outbox: &'a Outbox) -> &'a [u8]
        ensures { result.now ≡ outgoing_of self.now.first self.now.mode outbox.now }
    {
        if self.first.len() > 0 {
            return self.first.as_slice();
        }
        match &self.mode {
            ChannelMode::Plain => outbox.as_slice(),
            ChannelMode::Sealed(wire) => wire.waiting(),
            ChannelMode::Locked | ChannelMode::Shut => &[],
        }
    }

    /// Writes the bytes to send next, as many as the writer takes, and notes that these were sent. Returns how many.
    pub(super) fn send<W: Write>(
        &mut self,
        outbox: &mut Outbox,
        writer: &mut W,
    ) -> io::Result<usize>
        ensures written { WriteAppends (W.contents writer.old) (W.contents writer.new) result
            (outgoing_of self.old.first self.old.mode outbox.old) }
        ensures sent { IfOk result
            (λ count. IsSent count self.old.first self.old.mode outbox.old self.new.first self.new.mode outbox.new) }
        ensures failed { OnErr result ((self.new ≡ self.old) × (outbox.new ≡ outbox.old)) }
    {
        match writer.write(self.next(outbox)) {
            Ok(count) => {
                self.note_sent(outbox, count);
                Ok(count)
            }
            Err(error) => Err(error),
        }
    }

    /// Notes that so many bytes of what is sent next were sent.
    fn note_sent(&mut self, outbox: &mut Outbox, count: usize)
        requires { count ≤ length (outgoing_of self.old.first self.old.mode outbox.old) }
        ensures { IsSent count self.old.first self.old.mode outbox.old self.new.first self.new.mode outbox.new }
    {
        if self.first.len() > 0 {
            self.first.note_sent(count);
            return;
        }
        match &mut self.mode {
            ChannelMode::Plain => outbox.note_sent(count),
            ChannelMode::Sealed(wire) => wire.note_sent(count),
            ChannelMode::Locked | ChannelMode::Shut => {}
        }
    }

    /// Sends nothing more.
    pub(super) fn shut(&mut self)
        ensures { (self.new.mode ≡ Shut) × (self.new.first ≡ []) }
    {
        self.mode = ChannelMode::Shut;
        self.first.clear();
    }

    /// Whether it sends nothing more.
    pub(super) fn is_shut(&self) -> bool {
        matches!(&self.mode, ChannelMode::Shut)
    }

    /// Whether everything is sent, except answers that aren't sealed yet.
    pub(super) fn is_sent(&self) -> bool {
        let is_sealed_sent = match &self.mode {
            ChannelMode::Sealed(wire) => wire.waiting().is_empty(),
            _ => true,
        };
        self.first.len() == 0 && is_sealed_sent
    }
}

/// The credential in a first line.
fn greeting_of(line: &[u8]) -> Credential {
    match Greeting::read(line) {
        Some(greeting) => Credential::Key(greeting),
        None => Credential::Other,
    }
}

/// The session fault of lines that can't be opened.
fn opened(came: Result<(), WireFault>) -> Result<(), SessionFault>
    ensures { result ≡ seal_result came }
{
    match came {
        Ok(()) => Ok(()),
        Err(fault) => Err(fault_of(fault)),
    }
}

/// The session fault of refused memory.
fn kept(added: Result<(), AllocError>) -> Result<(), SessionFault>
    ensures { MatchResult added (λ done. result ≡ Ok done) (λ error. result ≡ Err (Line NoMemory)) }
{
    match added {
        Ok(()) => Ok(()),
        Err(_) => Err(SessionFault::Line(LineFault::NoMemory)),
    }
}

/// The session fault of a wire fault.
fn fault_of(fault: WireFault) -> SessionFault
    ensures { result ≡ seal_fault fault }
{
    match fault {
        WireFault::BadLine | WireFault::LongLine | WireFault::Spent => SessionFault::BadSeal,
        WireFault::NoMemory => SessionFault::Line(LineFault::NoMemory),
    }
}

/// Seals a session's answers, as many bytes as are sent at once.
fn sealed(wire: &mut Wire, outbox: &mut Outbox) -> Result<(), SessionFault>
    requires { length wire.old.waiting ≡ 0 }
    ensures { SealsMore [] (Sealed wire.old) outbox.old (Sealed wire.new) outbox.new result }
{
    match wire.seal(outbox.as_slice()) {
        Ok(count) => {
            outbox.note_sent(count);
            Ok(())
        }
        Err(fault) => Err(fault_of(fault)),
    }
}
