//! A session of a site, over a connection.

use super::answer::read_answer;
use super::inlet::Inlet;
use super::intake::{Intake, IntakeFault};
use super::link::{FeedDrain, FeedSource, Link};
use super::pull::go_on;
use super::watch::is_over;
use byte_ends::{BytesFault, write_all};
use event_feed::FeedFault;
use gossip_line::{LineFault, greet, read_round, send_front};
use line_reader::{LINE_LIMIT, LineReader};
use op_text::write_body;
use replica_core::{Front, Missing, Row};
use review_ops::{Body, Stamp};
use site_net::Patience;
use std::alloc::Global;
use std::net::TcpStream;
use std::sync::Wait;
use std::time::{Clock, Duration, Instant};

/// How many milliseconds a site has for an answer.
const PATIENCE_MS: u64 = 60_000;

/// After how many milliseconds a wait for the input checks again whether the session has ended.
const TICK_MS: u64 = 100;

/// After how many such waits the input counts as silent: a second.
const SILENT_TICKS: u32 = 10;

/// How many seconds after a pull it pulls again, however much comes from the input.
const PULL_S: u64 = 1;

/// How many seconds pass at least between two `heard` lines.
const HEARD_S: u64 = 10;

/// An open session with a site, and what was pulled over it.
#[derive(Drop)]
pub struct Session<'a, R: Wait + Clock> {
    rt: &'a R,
    alloc: Global,
    place: Place<'a>,
    source: FeedSource<'a, R>,
    drain: FeedDrain<'a, R>,
    reader: LineReader,
    front: Front,
    /// Whether it pulls again where the input is silent.
    pulls_again: bool,
    /// Whether the record was pulled once.
    is_pulled: bool,
    /// Whether a pull is under way.
    is_behind: bool,
    /// When it pulled last.
    pulled: Option<Instant>,
    /// Whether the site supports `heard`, as far as is known, and when it was sent last.
    notes_heard: bool,
    heard: Option<Instant>,
}

/// Where the input of a session comes from, and the connection that it is held over.
#[derive(Clone, Copy)]
pub struct Place<'a> {
    pub stream: &'a TcpStream,
    pub inlet: &'a Inlet,
}

/// How long a site has for an answer.
pub fn patience() -> Patience {
    Patience {
        limit: Duration::from_millis(PATIENCE_MS),
        idle: None,
    }
}

impl<'a, R: Wait + Clock> Session<'a, R> {
    /// Opens a session over a connection: sends the greeting, and reads the site's.
    pub fn open(
        rt: &'a R,
        alloc: Global,
        link: Link<'a, R>,
        place: Place<'a>,
        pulls_again: bool,
    ) -> Result<Session<'a, R>, FeedFault> {
        let Ok(reader) = LineReader::new(alloc, LINE_LIMIT) else {
            return Err(FeedFault::NoMemory);
        };
        let Link { source, drain } = link;
        let mut session = Session {
            rt,
            alloc,
            place,
            source,
            drain,
            reader,
            front: Front::new(alloc),
            pulls_again,
            is_pulled: false,
            is_behind: false,
            pulled: None,
            notes_heard: true,
            heard: None,
        };
        match session.begin() {
            Ok(()) => Ok(session),
            Err(fault) => Err(fault),
        }
    }

    /// Where its input comes from, and the connection that it is held over.
    pub fn place(&self) -> Place<'a> {
        self.place
    }

    /// Greets the site.
    fn begin(&mut self) -> Result<(), FeedFault> {
        match greet(&mut self.reader, &mut self.source, &mut self.drain) {
            Ok(()) => Ok(()),
            Err(LineFault::NoMemory) => Err(FeedFault::NoMemory),
            Err(_) => Err(FeedFault::Ended),
        }
    }

    /// Sends a line, and awaits this answer.
    pub fn expect(&mut self, line: &str, answer: &[u8]) -> Result<(), FeedFault> {
        match self.ask(line) {
            Ok(()) if self.reader.line() == answer => Ok(()),
            Err(IntakeFault::NoMemory) => Err(FeedFault::NoMemory),
            _ => Err(FeedFault::Ended),
        }
    }

    /// Sends a line, and awaits the first line of its answer.
    fn ask(&mut self, line: &str) -> Result<(), IntakeFault> {
        if write_all(&mut self.drain, line.as_bytes()).is_err() {
            return Err(IntakeFault::Ended);
        }
        match self.reader.next_line(&mut self.source) {
            Ok(true) => Ok(()),
            Err(BytesFault::NoMemory) => Err(IntakeFault::NoMemory),
            _ => Err(IntakeFault::Ended),
        }
    }

    /// Pulls a round: what the front lacks, at most 256 operations, and whether the site has more. The front is raised
    /// to them. If it isn't raised, and more is left, the next round would be the same (more than 256 operations lie
    /// past a gap of the site's record): `NoEnd`.
    fn pull(&mut self) -> Result<Missing, IntakeFault> {
        let round = self.read_round()?;
        let mut goes_on = false;
        for op in &round.ops {
            goes_on |= self.reach(op.stamp())?;
        }
        if round.more && !goes_on {
            return Err(IntakeFault::NoEnd);
        }
        self.pulled = Instant::now(self.rt).ok();
        Ok(round)
    }

    /// Asks for a round, and reads it.
    fn read_round(&mut self) -> Result<Missing, IntakeFault> {
        match send_front(self.alloc, LINE_LIMIT, &mut self.drain, &self.front) {
            Ok(_line) => {}
            // No pull can name where the record ends.
            Err(LineFault::LongLine) => return Err(IntakeFault::NoEnd),
            Err(fault) => return Err(line_fault(fault)),
        }
        read_round(self.alloc, &mut self.reader, &mut self.source).map_err(line_fault)
    }

    /// Raises the front to a stamp, if that is the next one of its row. Returns whether it is.
    fn reach(&mut self, stamp: Stamp) -> Result<bool, IntakeFault> {
        let row = Row {
            site: stamp.site(),
            start: stamp.start(),
        };
        let before = self.front.reach(row);
        match go_on(&mut self.front, stamp) {
            Ok(()) => Ok(self.front.reach(row) > before),
            Err(_) => Err(IntakeFault::NoMemory),
        }
    }

    /// Sends `heard`, unless that was sent less than ten seconds ago. A site of an older version doesn't support it,
    /// and isn't sent it again.
    fn say_heard(&mut self) -> Result<(), IntakeFault> {
        let Ok(now) = Instant::now(self.rt) else {
            return Ok(());
        };
        if !self.notes_heard || !self.place.inlet.has_bytes(self.rt) || self.was_heard(now) {
            return Ok(());
        }
        self.heard = Some(now);
        self.ask("heard\n")?;
        match self.reader.line() {
            b"noted" => Ok(()),
            b"no 6 BadCommand" => {
                self.notes_heard = false;
                Ok(())
            }
            b"no 11 NotAllowed" => Err(IntakeFault::NotAllowed),
            _ => Err(IntakeFault::Ended),
        }
    }

    /// Whether `heard` was sent less than ten seconds ago.
    fn was_heard(&self, now: Instant) -> bool {
        match self.heard {
            Some(heard) => now.duration_since(heard) < Duration::from_secs(HEARD_S),
            None => false,
        }
    }

    /// Whether it pulled last a second ago or longer.
    fn is_pull_due(&self) -> bool {
        match (self.pulled, Instant::now(self.rt)) {
            (Some(pulled), Ok(now)) => now.duration_since(pulled) >= Duration::from_secs(PULL_S),
            _ => false,
        }
    }

    /// Waits until more of the input may be read, or it was silent for a second. Whether it may be read.
    fn await_input(&self) -> Result<bool, IntakeFault> {
        for _ in 0..SILENT_TICKS {
            if self
                .place
                .inlet
                .await_block(self.rt, Duration::from_millis(TICK_MS))
            {
                return Ok(true);
            }
            if is_over(self.place.stream) {
                return Err(IntakeFault::Ended);
            }
        }
        Ok(false)
    }
}

/// The fault of a session for the fault of a pull.
fn line_fault(fault: LineFault) -> IntakeFault {
    match fault {
        LineFault::NoMemory => IntakeFault::NoMemory,
        _ => IntakeFault::Ended,
    }
}

impl<'a, R: Wait + Clock> Intake for Session<'a, R> {
    ghost replies = { λ old deed reply new. Unit {0} };

    ghost answers = { λ old round new. Unit {0} };

    fn take_in(&mut self, body: &Body) -> Result<Stamp, IntakeFault> {
        let Ok(text) = write_body(self.alloc, body) else {
            return Err(IntakeFault::NoMemory);
        };
        let Ok(line) = format!(in self.alloc; "take {text}\n") else {
            return Err(IntakeFault::NoMemory);
        };
        self.ask(line.as_str())?;
        let stamp = read_answer(self.alloc, self.reader.line())?;
        let _goes_on = self.reach(stamp)?;
        Ok(stamp)
    }

    /// First the record, then, before more of the input is read, what came to the site while it was silent, or since the
    /// last pull, where that is a second ago.
    fn next_round(&mut self) -> Result<Missing, IntakeFault> {
        if !self.is_pulled {
            let round = self.pull()?;
            self.is_pulled = !round.more;
            return Ok(round);
        }
        if self.is_behind {
            let Missing { ops, more } = self.pull()?;
            self.is_behind = more;
            return Ok(Missing { ops, more: true });
        }
        let is_ready = self.await_input()?;
        self.say_heard()?;
        self.is_behind = self.pulls_again && (!is_ready || self.is_pull_due());
        Ok(Missing {
            ops: Vec::new(self.alloc),
            more: self.is_behind || !is_ready,
        })
    }
}
