//! A session of a site, as a value: what was read of it, and what waits to be written.

ghost use Rattle.std.specs.Prelude.{◌≡◌, ◌⊎◌, ◌↔◌, ◌<◌, ◌+◌, ◌-◌, [], Bool, Err, IfErr, IfOk, IsTrue, MatchBool, None, Ok, OnOk, Result, Some, drop, if◌then◌else◌, is_some, length, nat_eq, not, true};
ghost use Rattle.key_file.specs.declared.key.Role.TheVariants.{Feed};
ghost use Rattle.std.specs.Arc.{arc_value};
ghost use Rattle.std.specs.Duration.{as_nanos};
ghost use Rattle.std.specs.Option.{option_map, option_or};
ghost use Rattle.gossip_line.specs.Steps.{answer_of};
ghost use Rattle.gossip_line.specs.Texts.{answer_text, long_line, next_of, refusal_line, reply_text};
ghost use Rattle.gossip_line.specs.declared.fault.LineFault.{LineFault};
ghost use Rattle.site_port.specs.Ports.{reply_by, stamped};
ghost use Rattle.site_serve.specs.Answered.{HasRole, IsAdmitted, IsRejected, IsSealedBy, SaysFault, SaysStamp, TakesText, ending_after};
ghost use Rattle.site_serve.specs.Channels.{IsSent, ReadsOn};
ghost use Rattle.site_serve.specs.LookedAtKeys.{due_key, key_by};
ghost use Rattle.site_serve.specs.Outboxes.{Adds, AddsEach};
ghost use Rattle.site_serve.specs.Rights.{HasHadLine, IsSameAccess, IsSameRight, OnlySends};
ghost use Rattle.site_serve.specs.declared.channel.ChannelMode.TheVariants.{Locked, Plain, Shut};
ghost use Rattle.site_serve.specs.declared.session_fault.SessionFault.TheVariants.{Line};

use super::ask::{Answer, Done};
use super::channel::{Channel, ChannelMode, Credential};
use super::inbox::Inbox;
use super::outbox::Outbox;
use super::port::desk_fault;
use super::session_fault::SessionFault;
use gossip_line::{LineFault, Saying};
use key_file::Role;
use memchr::memchr;
use mio::net::TcpStream;
use review_ops::Stamp;
use sealed_line::KeyId;
use sealed_link::{Admitted, Wire};
use site_net::{Awaited, Patience};
use site_port::PortFault;
use site_shared::{BrandedReceipt, Naming};
use std::alloc::{AllocError, Global};
use std::io;
use std::io::{ErrorKind, Read};
use std::net::Shutdown;
use std::sync::Arc;
use std::time::Duration;

/// How many bytes of answers may wait to be written before no more lines are answered.
const WAITING_BYTES: usize = 1_048_576;

/// After how many nanoseconds the key of a session is checked again: a second.
const KEY_NANOS: u128 = 1_000_000_000;

/// How many times as long as another one a session may be silent that has had a body taken in, or refused: by default a
/// day.
const FEEDER_FACTOR: u32 = 288;

/// How many lines a session may have.
const LINES: u64 = 1_000_000;

/// How many writes are made at once at most.
const WRITES: usize = 16;

/// An accepted connection, and whether it has to authenticate by a key.
#[derive(Drop)]
pub(super) struct Connection {
    pub stream: TcpStream,
    pub is_locked: bool,
}

/// Whether the next line of a session may be handled.
#[derive(Clone, Copy, PartialEq)]
enum Flow {
    /// It may.
    Open,
    /// A worker has a task of the session.
    AtWorker,
    /// It asks for a look, which waits until other sessions have read their answers.
    Throttled,
}

/// A session: its connection, what was read and not yet answered, and what was answered and not yet written.
#[derive(Drop)]
pub(super) struct Session<J: Naming> {
    /// Its number, from 1, in the order in which sessions were accepted.
    pub number: u64,
    stream: TcpStream,
    /// The channel between its bytes and its lines.
    channel: Channel,
    /// Whether it may have bodies taken in.
    may_take: bool,
    /// The key that it named to be admitted, and when that was checked last.
    key: Option<KeyId>,
    key_seen: Duration,
    /// What was read of it and isn't handled yet.
    pub inbox: Inbox,
    /// What it was answered and isn't sent yet.
    pub outbox: Outbox,
    /// How many of its lines were handled.
    lines: u64,
    /// The newest receipt that it was answered by.
    receipt: Option<Arc<BrandedReceipt<J>, Global>>,
    /// How many takes wait for their publish.
    waiting: usize,
    /// Whether it has had a body taken in, or refused: then it may be silent for longer.
    has_taken: bool,
    flow: Flow,
    /// Whether it is among those that are looked at in the next turn.
    pub is_listed: bool,
    /// Whether the connection may have more to read.
    may_read: bool,
    /// Whether the other side sends nothing more, so that reading goes on until that end.
    is_closing: bool,
    is_read_out: bool,
    /// How it ends, once all that waits is written.
    pub ending: Option<Result<(), SessionFault>>,
    /// Whether its connection took all that was written at once, and more may wait.
    takes_more: bool,
    awaited: Awaited,
    since: Duration,
    stuck: Duration,
}

impl<J: Naming> Session<J> {
    /// A session of which nothing was read, and which waits until a worker has begun it. If its connection has to
    /// authenticate by a key, its channel is locked until then.
    pub(super) fn new(
        alloc: Global,
        number: u64,
        connection: Connection,
        now: Duration,
    ) -> Session<J>
        ensures may { result.may_take ≡ not connection.is_locked }
        ensures mode { result.channel.mode ≡ (if connection.is_locked then Locked else Plain) }
        ensures right { (result.number ≡ number) × (result.key ≡ None) × (result.key_seen ≡ now) × (result.lines ≡ 0) }
        ensures none { (result.inbox ≡ []) × (result.outbox ≡ []) × (result.waiting ≡ 0) × (result.ending ≡ None) }
    {
        let Connection { stream, is_locked } = connection;
        Session {
            number,
            stream,
            channel: Channel::new(alloc, first_mode(is_locked)),
            may_take: !is_locked,
            key: None,
            key_seen: now,
            inbox: Inbox::new(alloc),
            outbox: Outbox::new(alloc),
            lines: 0,
            receipt: None,
            waiting: 0,
            has_taken: false,
            flow: Flow::AtWorker,
            is_listed: false,
            may_read: true,
            is_closing: false,
            is_read_out: false,
            ending: None,
            takes_more: false,
            awaited: Awaited::FirstLine,
            since: now,
            stuck: now,
        }
    }

    /// Whether another line of it may be answered now.
    pub(super) fn is_open(&self) -> bool {
        self.ending.is_none() && self.flow == Flow::Open && self.outbox.len() <= WAITING_BYTES
    }

    /// Whether nothing of it is left to do.
    pub(super) fn is_over(&self) -> bool {
        self.ending.is_some()
            && self.flow != Flow::AtWorker
            && self.waiting == 0
            && self.outbox.len() == 0
            && self.channel.is_sent()
    }

    /// Whether the next line is its first.
    pub(super) fn is_first(&self) -> bool
        ensures { result ≡ nat_eq self.now.lines 0 }
    {
        self.lines == 0
    }

    /// Whether it has had as many lines as a session may have.
    pub(super) fn has_used_up_lines(&self) -> bool {
        self.lines >= LINES
    }

    /// Adds an answer that doesn't depend on the site.
    pub(super) fn say(&mut self, alloc: Global, saying: Saying)
        ensures says { (result : Result Bool LineFault) × Adds (answer_text (answer_of saying)) (next_of (answer_of saying))
            self.old.outbox self.new.outbox result }
        ensures inbox { self.new.inbox ≡ self.old.inbox }
        ensures waits { self.new.waiting ≡ self.old.waiting }
        ensures access { IsSameAccess self.old self.new }
    {
        let said = self.outbox.say(alloc, saying);
        self.continue_or_end(said);
    }

    /// Answers that a line is too long, and ends.
    pub(super) fn say_too_long(&mut self, alloc: Global)
        ensures says { (result : Result (Unit {0}) LineFault) × Adds long_line (Err LineFault.LongLine) self.old.outbox self.new.outbox
            result }
        ensures inbox { self.new.inbox ≡ self.old.inbox }
        ensures waits { self.new.waiting ≡ self.old.waiting }
        ensures access { IsSameAccess self.old self.new }
    {
        let said = self.outbox.say_too_long(alloc);
        self.continue_or_end(said.map(|()| true));
    }

    /// Answers a line whose body was taken in, or refused.
    fn say_taken(&mut self, alloc: Global, taken: Result<Stamp, PortFault>)
        ensures says { (result : Result Bool LineFault) × Adds (reply_text (reply_by stamped taken)) (Ok true) self.old.outbox
            self.new.outbox result }
        ensures inbox { self.new.inbox ≡ self.old.inbox }
        ensures receipt { self.new.receipt ≡ self.old.receipt }
        ensures waits { self.new.waiting ≡ self.old.waiting }
        ensures access { IsSameAccess self.old self.new }
    {
        let said = self.outbox.say_taken(alloc, taken);
        self.continue_or_end(said);
    }

    /// Takes the desk's answer to a `take`. From then on the session has seen that publish.
    pub(super) fn take_answer(&mut self, alloc: Global, answer: Answer<J>)
        ensures stamp { IfOk answer (λ done. SaysStamp done.stamp self.old.outbox self.new.outbox) }
        ensures fault { IfErr answer (λ fault. SaysFault fault self.old.outbox self.new.outbox) }
        ensures receipt { IfOk answer (λ done. self.new.receipt ≡ Some done.receipt) }
        ensures inbox { self.new.inbox ≡ self.old.inbox }
        ensures waits { self.new.waiting ≡ self.old.waiting - 1 }
        ensures access { IsSameAccess self.old self.new }
    {
        self.waiting = self.waiting.saturating_sub(1);
        match answer {
            Ok(done) => {
                let Done { receipt, stamp } = done;
                self.receipt = Some(receipt);
                self.say_taken(alloc, stamp.ok_or(PortFault::Closed));
            }
            Err(fault) => self.say_taken(alloc, Err(desk_fault(fault))),
        }
    }

    /// Answers each waiting `take` that the site has ended; its body may have been kept or not.
    pub(super) fn refuse_waiting(&mut self, alloc: Global)
        ensures says { AddsEach self.old.waiting (refusal_line PortFault.Closed) self.old.outbox self.new.outbox }
        ensures waits { self.new.waiting ≡ 0 }
        ensures inbox { self.new.inbox ≡ self.old.inbox }
        ensures access { IsSameAccess self.old self.new }
    {
        self.refuse_times(alloc, self.waiting);
        self.waiting = 0;
    }

    /// Adds the answer that the site has ended, this many times.
    #[tactic(auto, using(crate::proofs::Rights::adds_more, crate::proofs::Rights::same_then))]
    fn refuse_times(&mut self, alloc: Global, times: usize)
        ensures says { AddsEach times (refusal_line PortFault.Closed) self.old.outbox self.new.outbox }
        ensures inbox { self.new.inbox ≡ self.old.inbox }
        ensures access { IsSameAccess self.old self.new }
    {
        for _ in 0..times {
            self.say_taken(alloc, Err(PortFault::Closed));
        }
    }

    /// Takes the text of a worker's answer; the session goes on, or ends.
    pub(super) fn take_text(&mut self, text: Vec<u8>, answered: Result<bool, LineFault>)
        ensures says { TakesText text.items answered self.old self.new }
        ensures inbox { self.new.inbox ≡ self.old.inbox }
        ensures waits { self.new.waiting ≡ self.old.waiting }
        ensures access { IsSameAccess self.old self.new }
    {
        self.flow = Flow::Open;
        match self.outbox.add(text) {
            Ok(()) => self.continue_or_end(answered),
            Err(_) => self.end(Err(LineFault::NoMemory)),
        }
    }

    /// Goes on, since its worker is done.
    pub(super) fn resume(&mut self)
        ensures inbox { self.new.inbox ≡ self.old.inbox }
        ensures kept { (self.new.outbox ≡ self.old.outbox) × (self.new.waiting ≡ self.old.waiting) }
        ensures access { IsSameAccess self.old self.new }
    {
        self.flow = Flow::Open;
    }

    /// Waits for a worker.
    pub(super) fn await_worker(&mut self)
        ensures inbox { self.new.inbox ≡ self.old.inbox }
        ensures kept { (self.new.outbox ≡ self.old.outbox) × (self.new.waiting ≡ self.old.waiting) }
        ensures access { IsSameAccess self.old self.new }
    {
        self.flow = Flow::AtWorker;
    }

    /// Waits until other sessions have read their answers.
    pub(super) fn throttle(&mut self)
        ensures inbox { self.new.inbox ≡ self.old.inbox }
        ensures kept { (self.new.outbox ≡ self.old.outbox) × (self.new.waiting ≡ self.old.waiting) }
        ensures access { IsSameAccess self.old self.new }
    {
        self.flow = Flow::Throttled;
    }

    /// Ends the wait for other sessions to read their answers. Returns whether it waited.
    pub(super) fn unthrottle(&mut self) -> bool
        ensures inbox { self.new.inbox ≡ self.old.inbox }
        ensures kept { (self.new.outbox ≡ self.old.outbox) × (self.new.waiting ≡ self.old.waiting) }
        ensures access { IsSameAccess self.old self.new }
    {
        if self.flow != Flow::Throttled {
            return false;
        }
        self.flow = Flow::Open;
        true
    }

    /// Waits for the next publish.
    pub(super) fn await_publish(&mut self)
        ensures inbox { self.new.inbox ≡ self.old.inbox }
        ensures outbox { self.new.outbox ≡ self.old.outbox }
        ensures waits { 0 < self.new.waiting }
        ensures access { IsSameAccess self.old self.new }
    {
        self.waiting = self.waiting.saturating_add(1);
        self.has_taken = true;
    }

    /// Whether it waits for the next publish.
    pub(super) fn is_waiting(&self) -> bool
        ensures { MatchBool result (0 < self.now.waiting) (self.now.waiting ≡ 0) }
    {
        self.waiting > 0
    }

    /// Whether it ends once all that waits is written.
    pub(super) fn is_ending(&self) -> bool {
        self.ending.is_some()
    }

    /// How it ended.
    pub(super) fn ended(&self) -> Result<(), SessionFault> {
        self.ending.unwrap_or(Ok(()))
    }

    /// Notes that its connection may have more to read, and whether the other side sends nothing more after that.
    pub(super) fn note_ready(&mut self, is_closing: bool)
        ensures inbox { self.new.inbox ≡ self.old.inbox }
        ensures kept { (self.new.outbox ≡ self.old.outbox) × (self.new.waiting ≡ self.old.waiting) }
        ensures access { IsSameAccess self.old self.new }
    {
        self.may_read = true;
        self.is_closing |= is_closing;
    }

    /// Skips a line of this size, which was handled.
    pub(super) fn skip_line(&mut self, size: usize)
        requires { size < length self.old.inbox }
        ensures inbox { self.new.inbox ≡ drop (size + 1) self.old.inbox }
        ensures kept { (self.new.outbox ≡ self.old.outbox) × (self.new.waiting ≡ self.old.waiting) }
        ensures had { HasHadLine self.old self.new }
    {
        self.inbox.skip_line(size);
        self.lines = self.lines.saturating_add(1);
    }

    /// Ends, since it has had all its lines.
    pub(super) fn end_used_up(&mut self)
        ensures inbox { self.new.inbox ≡ self.old.inbox }
        ensures kept { (self.new.outbox ≡ self.old.outbox) × (self.new.waiting ≡ self.old.waiting) }
        ensures access { IsSameAccess self.old self.new }
    {
        self.end(Err(LineFault::ReadFault));
    }

    /// Ends once all that waits is written, unless it was to end before.
    pub(super) fn end(&mut self, ending: Result<(), LineFault>)
        ensures inbox { self.new.inbox ≡ self.old.inbox }
        ensures receipt { self.new.receipt ≡ self.old.receipt }
        ensures kept { (self.new.outbox ≡ self.old.outbox) × (self.new.waiting ≡ self.old.waiting) }
        ensures access { IsSameAccess self.old self.new }
        ensures well { OnOk ending (self.new.ending ≡ option_or self.old.ending (Some (Ok tt))) }
        ensures by { IfErr ending (λ fault. self.new.ending ≡ option_or self.old.ending (Some (Err (Line fault)))) }
        ensures ends { is_some self.new.ending ≡ true }
    {
        match ending {
            Ok(()) => self.end_with(Ok(())),
            Err(fault) => self.end_with(Err(SessionFault::Line(fault))),
        }
    }

    /// Ends with this result once all that waits is written, unless it was to end before.
    #[tactic(auto, using(crate::proofs::Rights::ends_so))]
    fn end_with(&mut self, ending: Result<(), SessionFault>)
        ensures inbox { self.new.inbox ≡ self.old.inbox }
        ensures receipt { self.new.receipt ≡ self.old.receipt }
        ensures kept { (self.new.outbox ≡ self.old.outbox) × (self.new.waiting ≡ self.old.waiting) }
        ensures access { IsSameAccess self.old self.new }
        ensures how { self.new.ending ≡ option_or self.old.ending (Some ending) }
        ensures ends { is_some self.new.ending ≡ true }
    {
        self.ending = self.ending.or(Some(ending));
    }

    /// Goes on after an answer, or ends, by the result of the answer.
    fn continue_or_end(&mut self, answered: Result<bool, LineFault>)
        ensures inbox { self.new.inbox ≡ self.old.inbox }
        ensures receipt { self.new.receipt ≡ self.old.receipt }
        ensures kept { (self.new.outbox ≡ self.old.outbox) × (self.new.waiting ≡ self.old.waiting) }
        ensures access { IsSameAccess self.old self.new }
        ensures ends { self.new.ending ≡ ending_after answered self.old.ending }
    {
        match answered {
            Ok(true) => {}
            Ok(false) => self.end(Ok(())),
            Err(fault) => self.end(Err(fault)),
        }
    }

    /// Reads what is there. Returns whether something came.
    #[tactic(auto, using(crate::proofs::Rights::reads_nothing))]
    pub(super) fn read(&mut self, buffer: &mut [u8], now: Duration) -> bool
        ensures kept { (self.new.outbox ≡ self.old.outbox) × (self.new.waiting ≡ self.old.waiting) }
        ensures right { IsSameRight self.old self.new }
        ensures came { ReadsOn self.old.channel.mode self.old.inbox self.new.channel.mode self.new.inbox }
    {
        if self.is_read_out {
            self.end(Ok(()));
            return false;
        }
        if !self.may_read {
            return false;
        }
        match self.stream.read(buffer) {
            Ok(0) => {
                self.is_read_out = true;
                self.end(Ok(()));
                false
            }
            Ok(count) => {
                // Less than was asked for is all that is there, and what comes later is noted. But an end that came
                // with it isn't noted again.
                self.may_read = self.is_closing || count == buffer.len();
                let came = buffer.get(..count).unwrap_or(&[]);
                self.take_in(came, now)
            }
            Err(error) => {
                self.read_nothing(error.kind());
                false
            }
        }
    }

    /// Takes the bytes that came. False if the session ends because of them.
    #[tactic(auto, using(crate::proofs::Rights::reads_came))]
    fn take_in(&mut self, came: &[u8], now: Duration) -> bool
        ensures kept { (self.new.outbox ≡ self.old.outbox) × (self.new.waiting ≡ self.old.waiting) }
        ensures right { IsSameRight self.old self.new }
        ensures came { ReadsOn self.old.channel.mode self.old.inbox self.new.channel.mode self.new.inbox }
    {
        let taken = self.channel.take(came, &mut self.inbox);
        self.note_bytes(came, now);
        match taken {
            Ok(()) => true,
            Err(fault) => {
                self.end_with(Err(fault));
                false
            }
        }
    }

    /// Handles a read without bytes: nothing more can be read for now, or the connection has failed, and the session
    /// ends.
    fn read_nothing(&mut self, kind: ErrorKind)
        ensures inbox { self.new.inbox ≡ self.old.inbox }
        ensures kept { (self.new.outbox ≡ self.old.outbox) × (self.new.waiting ≡ self.old.waiting) }
        ensures access { IsSameAccess self.old self.new }
    {
        match kind {
            ErrorKind::WouldBlock => self.may_read = false,
            ErrorKind::Interrupted => {}
            _ => self.end(Err(LineFault::ReadFault)),
        }
    }

    /// Notes what came: the wait for a line begins anew where one has ended or begun.
    fn note_bytes(&mut self, came: &[u8], now: Duration)
        ensures inbox { self.new.inbox ≡ self.old.inbox }
        ensures kept { (self.new.outbox ≡ self.old.outbox) × (self.new.waiting ≡ self.old.waiting) }
        ensures access { IsSameAccess self.old self.new }
    {
        let next = match came.last() {
            Some(b'\n') => Awaited::NextLine,
            _ => Awaited::RestOfLine,
        };
        if self.awaited == Awaited::NextLine || memchr(b'\n', came).is_some() {
            self.since = now;
            self.awaited = next;
        }
    }

    /// Writes what waits, as much as the connection takes, and not all of it at once where that is much.
    pub(super) fn write(&mut self, now: Duration)
        ensures only { OnlySends self.old self.new }
    {
        self.takes_more = false;
        for _ in 0..WRITES {
            if !self.write_next(now) {
                return;
            }
        }
        self.takes_more = true;
    }

    /// Writes the bytes to send next, as many as the connection takes. Returns whether it may take more now.
    #[tactic(auto, using(crate::proofs::Rights::only_then))]
    fn write_next(&mut self, now: Duration) -> bool
        ensures only { OnlySends self.old self.new }
    {
        self.seal_more();
        if self.channel.next(&self.outbox).is_empty() {
            self.drop_rest();
            self.stuck = now;
            return false;
        }
        match self.send_next() {
            Ok(_count) => {
                self.stuck = now;
                true
            }
            Err(error) => {
                self.write_nothing(error.kind());
                false
            }
        }
    }

    /// Handles a failed write: the connection takes nothing for now, or it has failed, and the session ends.
    #[tactic(auto, using(crate::proofs::Rights::rest_same, crate::proofs::Rights::rest_none))]
    fn write_nothing(&mut self, kind: ErrorKind)
        ensures only { OnlySends self.old self.new }
    {
        match kind {
            ErrorKind::WouldBlock => {}
            ErrorKind::Interrupted => self.takes_more = true,
            _ => self.fail(LineFault::WriteFault),
        }
    }

    /// Gives up a part of an answer for which memory was refused, and which is no line that could be sealed, once it
    /// ends.
    #[tactic(auto, using(crate::proofs::Rights::rest_same, crate::proofs::Rights::rest_none))]
    fn drop_rest(&mut self)
        ensures only { OnlySends self.old self.new }
    {
        if self.ending.is_some() {
            self.outbox.clear();
        }
    }

    /// Seals more of what it was answered, where its lines are sealed.
    #[tactic(auto, using(crate::proofs::Rights::rest_none, crate::proofs::Rights::sealed_rest))]
    fn seal_more(&mut self)
        ensures only { OnlySends self.old self.new }
    {
        if self.channel.is_shut() {
            self.outbox.clear();
            return;
        }
        match self.channel.seal(&mut self.outbox) {
            Ok(()) => {}
            Err(fault) => self.fail_with(fault),
        }
    }

    /// Writes the bytes to send next, as many as the connection takes. Returns how many.
    #[tactic(auto, using(crate::proofs::Rights::rest_same, crate::proofs::Rights::sent_rest))]
    fn send_next(&mut self) -> io::Result<usize>
        ensures sent { IfOk result (λ count. IsSent count self.old.channel.first self.old.channel.mode self.old.outbox
            self.new.channel.first self.new.channel.mode self.new.outbox) }
        ensures only { OnlySends self.old self.new }
    {
        self.channel.send(&mut self.outbox, &mut self.stream)
    }

    /// Ends with a fault, and nothing more is written.
    pub(super) fn fail(&mut self, fault: LineFault)
        ensures none { (self.new.outbox ≡ []) × (self.new.channel.mode ≡ Shut) }
        ensures ends { is_some self.new.ending ≡ true }
        ensures inbox { self.new.inbox ≡ self.old.inbox }
        ensures waits { self.new.waiting ≡ self.old.waiting }
        ensures right { IsSameRight self.old self.new }
    {
        self.fail_with(SessionFault::Line(fault));
    }

    /// Ends with a fault, and nothing more is written.
    fn fail_with(&mut self, fault: SessionFault)
        ensures none { (self.new.outbox ≡ []) × (self.new.channel.mode ≡ Shut) }
        ensures ends { is_some self.new.ending ≡ true }
        ensures inbox { self.new.inbox ≡ self.old.inbox }
        ensures waits { self.new.waiting ≡ self.old.waiting }
        ensures right { IsSameRight self.old self.new }
    {
        self.end_with(Err(fault));
        self.outbox.clear();
        self.channel.shut();
    }

    /// Ends if the other side has timed out.
    pub(super) fn end_if_over(&mut self, patience: Patience, now: Duration)
        ensures none { (self.new.outbox ≡ self.old.outbox) ⊎ (self.new.outbox ≡ []) }
        ensures inbox { self.new.inbox ≡ self.old.inbox }
        ensures waits { self.new.waiting ≡ self.old.waiting }
        ensures right { IsSameRight self.old self.new }
    {
        if self.outbox.len() > 0 || !self.channel.is_sent() {
            self.fail_if_stuck(patience, now);
            return;
        }
        if self.flow != Flow::Open || self.waiting > 0 || self.ending.is_some() {
            return;
        }
        let times = if self.has_taken { FEEDER_FACTOR } else { 1 };
        let idle = patience.idle.map(|idle| idle.saturating_mul(times));
        let patience = Patience { idle, ..patience };
        let waited = now.saturating_sub(self.since);
        if patience.is_over(self.awaited, waited) {
            self.end(Err(LineFault::ReadFault));
        }
    }

    /// Ends if the other side, which takes none of its answers, has timed out.
    fn fail_if_stuck(&mut self, patience: Patience, now: Duration)
        ensures none { (self.new.outbox ≡ self.old.outbox) ⊎ (self.new.outbox ≡ []) }
        ensures inbox { self.new.inbox ≡ self.old.inbox }
        ensures waits { self.new.waiting ≡ self.old.waiting }
        ensures right { IsSameRight self.old self.new }
    {
        let stuck = now.saturating_sub(self.stuck);
        if patience.is_over(Awaited::RestOfLine, stuck) {
            self.fail(LineFault::WriteFault);
        }
    }

    /// Whether there is something to read, to answer or to write now.
    pub(super) fn has_more(&mut self) -> bool {
        self.takes_more || self.is_open() && self.has_lines()
    }

    /// Whether there is something to read or to answer.
    fn has_lines(&mut self) -> bool {
        self.may_read || self.inbox.next_line().is_some() || self.credential() != Credential::None
    }

    /// The credential of the connection.
    pub(super) fn credential(&self) -> Credential {
        self.channel.credential()
    }

    /// Waits for a worker to check this credential.
    pub(super) fn await_check(&mut self, credential: Credential)
        ensures inbox { self.new.inbox ≡ self.old.inbox }
        ensures kept { (self.new.outbox ≡ self.old.outbox) × (self.new.waiting ≡ self.old.waiting) }
        ensures key { self.new.key ≡ key_by credential self.old.key }
        ensures access { IsSameAccess (record self.old { key = self.new.key }) self.new }
    {
        self.key = key_by(credential, self.key);
        self.await_worker();
    }

    /// The session's key, if it is due to be checked before the next line: a second after the last check.
    pub(super) fn due_key(&self, now: Duration) -> Option<KeyId>
        ensures { result ≡ due_key self.now.key (as_nanos self.now.key_seen) (as_nanos now) }
    {
        if KEY_NANOS <= now.saturating_sub(self.key_seen).as_nanos() {
            self.key
        } else {
            None
        }
    }

    /// Takes the present role of its key, and ends if the site has no such key any more.
    pub(super) fn take_role(&mut self, role: Option<Role>, now: Duration)
        ensures role { IsTrue self.new.may_take ↔ role ≡ Some Feed }
        ensures seen { self.new.key_seen ≡ now }
        ensures outbox { self.new.outbox ≡ self.old.outbox }
        ensures ends { role ≡ None → is_some self.new.ending ≡ true }
        ensures has { HasRole role self.old self.new }
        ensures inbox { self.new.inbox ≡ self.old.inbox }
        ensures waits { self.new.waiting ≡ self.old.waiting }
    {
        self.end_without(role);
        self.flow = Flow::Open;
        self.key_seen = now;
        self.may_take = matches!(role, Some(Role::Feed));
    }

    /// Ends if the site has no such key any more.
    fn end_without(&mut self, role: Option<Role>)
        ensures inbox { self.new.inbox ≡ self.old.inbox }
        ensures kept { (self.new.outbox ≡ self.old.outbox) × (self.new.waiting ≡ self.old.waiting) }
        ensures access { IsSameAccess self.old self.new }
        ensures ends { role ≡ None → is_some self.new.ending ≡ true }
    {
        if role.is_none() {
            self.end_with(Err(SessionFault::NoKey));
        }
    }

    /// The connection is admitted by its key: from now on its lines are sealed, and the time-out of a first line begins
    /// again.
    pub(super) fn admit(&mut self, admitted: Admitted, now: Duration)
        ensures role { IsTrue self.new.may_take ↔ admitted.role ≡ Feed }
        ensures kept { (self.new.outbox ≡ self.old.outbox) ⊎ (self.new.outbox ≡ []) }
        ensures seen { self.new.key_seen ≡ now }
        ensures sealed { IsAdmitted admitted.role admitted.wire self.old self.new }
        ensures inbox { self.new.inbox ≡ self.old.inbox }
        ensures waits { self.new.waiting ≡ self.old.waiting }
    {
        let Admitted { role, answer, wire } = admitted;
        self.seal_by(answer, wire);
        self.flow = Flow::Open;
        self.may_take = role == Role::Feed;
        self.key_seen = now;
        self.since = now;
        self.awaited = Awaited::FirstLine;
    }

    /// Sends the answer that it is admitted, and seals its bytes from now on. If memory is refused for that, it ends.
    fn seal_by(&mut self, answer: Vec<u8>, wire: Wire)
        ensures sealed { IsSealedBy wire self.old self.new }
        ensures kept { (self.new.outbox ≡ self.old.outbox) ⊎ (self.new.outbox ≡ []) }
        ensures inbox { self.new.inbox ≡ self.old.inbox }
        ensures waits { self.new.waiting ≡ self.old.waiting }
        ensures right { IsSameRight self.old self.new }
    {
        match self.channel.admit(answer, wire) {
            Ok(()) => {}
            Err(fault) => self.fail_with(fault),
        }
    }

    /// The connection isn't admitted: sends the answer, and ends.
    pub(super) fn reject(&mut self, answer: Vec<u8>)
        ensures kept { (self.new.outbox ≡ self.old.outbox) ⊎ (self.new.outbox ≡ []) }
        ensures out { IsRejected self.old self.new }
        ensures inbox { self.new.inbox ≡ self.old.inbox }
        ensures waits { self.new.waiting ≡ self.old.waiting }
    {
        self.flow = Flow::Open;
        match self.channel.reject(answer) {
            Ok(()) => self.end_with(Err(SessionFault::NoKey)),
            Err(_) => self.fail_with(SessionFault::NoKey),
        }
    }

    /// Whether it may have bodies taken in.
    pub(super) fn may_take(&self) -> bool
        ensures { result ≡ self.now.may_take }
    {
        self.may_take
    }

    /// Its newest receipt once more.
    pub(super) fn receipt_again(&self) -> Result<Option<Arc<BrandedReceipt<J>, Global>>, AllocError>
        ensures { IfOk result (λ again. option_map arc_value again ≡ option_map arc_value self.now.receipt) }
    {
        match &self.receipt {
            Some(receipt) => Ok(Some(Arc::try_clone(receipt)?)),
            None => Ok(None),
        }
    }

    /// Closes the connection.
    pub(super) fn close(&mut self) {
        let _closed = self.stream.shutdown(Shutdown::Both);
    }
}

/// The mode of a new channel: locked until a key admits the connection, or plain.
fn first_mode(is_locked: bool) -> ChannelMode
    ensures { result ≡ (if is_locked then Locked else Plain) }
{
    if is_locked {
        ChannelMode::Locked
    } else {
        ChannelMode::Plain
    }
}

/// The key of a session with this credential, given its key before.
fn key_by(credential: Credential, before: Option<KeyId>) -> Option<KeyId>
    ensures { result ≡ key_by credential before }
{
    match credential {
        Credential::Key(greeting) => Some(greeting.id),
        Credential::None | Credential::Other => before,
    }
}
