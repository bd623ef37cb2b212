//! The metrics of a site, which its threads note and its page shows.

use std::alloc::{AllocError, Global};
use std::sync::atomic::{AtomicU64, Ordering};
use std::sync::{Mutex, Wait};
use std::time::{Clock, Duration, Instant};

/// The value for "never".
const NEVER: u64 = u64::MAX;

/// How a pull from a peer ended.
#[derive(Clone, Copy, PartialEq)]
pub enum PullOutcome {
    /// Nothing that the peer has was left.
    Complete,
    Failed,
}

/// The metrics of the pulls from a peer. Moments are counted from the beginning of the site.
#[derive(Clone, Copy)]
pub struct PeerMetrics {
    /// How the last pull ended; `Failed` before the first.
    pub outcome: PullOutcome,
    /// Since when pulls end so.
    pub since: Duration,
    /// When a pull was last complete.
    pub last_complete: Option<Duration>,
    /// How many pulls were complete, and how many failed.
    pub pulls: u64,
    pub failures: u64,
}

/// The metrics of a site. Each value is read at a moment of its own.
#[derive(Drop)]
pub struct Metrics {
    begun: Option<Instant>,
    turn_ms: AtomicU64,
    news_ms: AtomicU64,
    publishes: AtomicU64,
    sessions: AtomicU64,
    looking: AtomicU64,
    session_faults: AtomicU64,
    refused_connections: AtomicU64,
    journal_bytes: AtomicU64,
    syncs: AtomicU64,
    heard_ms: AtomicU64,
    peers: Mutex<Vec<PeerMetrics>>,
}

/// The metrics of a journal.
#[derive(Drop)]
pub struct JournalMetrics {
    /// How many bytes it has.
    pub bytes: u64,
    /// How often it was synced.
    pub syncs: u64,
}

impl Metrics {
    /// New metrics for so many peers, which begin now.
    pub fn new<R: Clock>(rt: &R, alloc: Global, count: usize) -> Result<Metrics, AllocError> {
        let mut peers = Vec::with_capacity(alloc, count)?;
        for _ in 0..count {
            peers.push(PeerMetrics {
                outcome: PullOutcome::Failed,
                since: Duration::ZERO,
                last_complete: None,
                pulls: 0,
                failures: 0,
            })?;
        }
        Ok(Metrics {
            begun: Instant::now(rt).ok(),
            turn_ms: AtomicU64::new(0),
            news_ms: AtomicU64::new(NEVER),
            publishes: AtomicU64::new(0),
            sessions: AtomicU64::new(0),
            looking: AtomicU64::new(0),
            session_faults: AtomicU64::new(0),
            refused_connections: AtomicU64::new(0),
            journal_bytes: AtomicU64::new(NEVER),
            syncs: AtomicU64::new(0),
            heard_ms: AtomicU64::new(NEVER),
            peers: Mutex::new(peers),
        })
    }

    /// How long the site has run; nothing where the clock can't be read.
    pub fn now<R: Clock>(&self, rt: &R) -> Option<Duration> {
        let begun = self.begun?;
        begun.elapsed(rt).ok()
    }

    /// Notes a turn of the event loop, with so many sessions open.
    pub fn note_turn(&self, now: Duration, sessions: u64) {
        self.turn_ms.store(millis(now), Ordering::Relaxed);
        self.sessions.store(sessions, Ordering::Relaxed);
    }

    /// Notes a publish of new operations.
    pub fn note_news(&self, now: Duration) {
        self.news_ms.store(millis(now), Ordering::Relaxed);
        self.publishes.fetch_add(1, Ordering::Relaxed);
    }

    /// Notes that a feed reported that Gerrit was heard.
    pub fn note_heard(&self, now: Duration) {
        self.heard_ms.store(millis(now), Ordering::Relaxed);
    }

    /// Notes that a worker begins a look.
    pub fn begin_look(&self) {
        self.looking.fetch_add(1, Ordering::Relaxed);
    }

    /// Notes that a worker has ended a look.
    pub fn end_look(&self) {
        self.looking.fetch_sub(1, Ordering::Relaxed);
    }

    /// Notes that a session ended with a fault.
    pub fn note_fault(&self) {
        self.session_faults.fetch_add(1, Ordering::Relaxed);
    }

    /// Notes that a connection was closed because the limit of connections was reached.
    pub fn note_refused(&self) {
        self.refused_connections.fetch_add(1, Ordering::Relaxed);
    }

    /// Notes how many bytes the journal has, if there is one.
    pub fn note_journal(&self, bytes: Option<u64>) {
        self.journal_bytes
            .store(bytes.unwrap_or(NEVER), Ordering::Relaxed);
    }

    /// Notes that what was held was kept, and how many bytes the journal has, if there is one.
    pub fn note_kept(&self, bytes: Option<u64>) {
        self.note_journal(bytes);
        self.syncs.fetch_add(1, Ordering::Relaxed);
    }

    /// Notes how a pull ended from the peer at this place among all of them.
    pub fn note_pull<R: Wait + Clock>(&self, rt: &R, peer: usize, outcome: PullOutcome) {
        let now = self.now(rt).unwrap_or(Duration::ZERO);
        let mut peers = self.peers.lock(rt);
        if let Some(note) = peers.get_mut(peer) {
            note.note(now, outcome);
        }
    }

    /// How long ago the event loop took a turn.
    pub fn since_turn(&self, now: Duration) -> Duration {
        now.saturating_sub(Duration::from_millis(self.turn_ms.load(Ordering::Relaxed)))
    }

    /// How long ago something new was published, if anything was.
    pub fn since_news(&self, now: Duration) -> Option<Duration> {
        passed_since(self.news_ms.load(Ordering::Relaxed), now)
    }

    /// How long ago a feed reported that Gerrit was heard, if one did.
    pub fn since_heard(&self, now: Duration) -> Option<Duration> {
        passed_since(self.heard_ms.load(Ordering::Relaxed), now)
    }

    /// How many publishes brought something new.
    pub fn publishes(&self) -> u64 {
        self.publishes.load(Ordering::Relaxed)
    }

    /// How many sessions are open.
    pub fn sessions(&self) -> u64 {
        self.sessions.load(Ordering::Relaxed)
    }

    /// How many workers are doing a look.
    pub fn looking(&self) -> u64 {
        self.looking.load(Ordering::Relaxed)
    }

    /// How many sessions ended with a fault.
    pub fn session_faults(&self) -> u64 {
        self.session_faults.load(Ordering::Relaxed)
    }

    /// How many connections were closed because the limit of connections was reached.
    pub fn refused_connections(&self) -> u64 {
        self.refused_connections.load(Ordering::Relaxed)
    }

    /// The metrics of the journal, if there is one.
    pub fn journal(&self) -> Option<JournalMetrics> {
        let bytes = self.journal_bytes.load(Ordering::Relaxed);
        if bytes == NEVER {
            return None;
        }
        Some(JournalMetrics {
            bytes,
            syncs: self.syncs.load(Ordering::Relaxed),
        })
    }

    /// A copy of the metrics of the peers.
    pub fn peers<R: Wait>(&self, rt: &R, alloc: Global) -> Result<Vec<PeerMetrics>, AllocError> {
        let peers = self.peers.lock(rt);
        peers.as_slice().to_vec(alloc)
    }
}

impl PeerMetrics {
    /// Notes how a pull from it ended.
    fn note(&mut self, now: Duration, outcome: PullOutcome) {
        if outcome != self.outcome {
            self.outcome = outcome;
            self.since = now;
        }
        match outcome {
            PullOutcome::Complete => {
                self.last_complete = Some(now);
                self.pulls = self.pulls.saturating_add(1);
            }
            PullOutcome::Failed => self.failures = self.failures.saturating_add(1),
        }
    }
}

/// How long ago a moment was, if there was one.
fn passed_since(moment_ms: u64, now: Duration) -> Option<Duration> {
    if moment_ms == NEVER {
        return None;
    }
    Some(now.saturating_sub(Duration::from_millis(moment_ms)))
}

/// A duration in whole milliseconds, at most 2^64 - 2.
pub fn millis(duration: Duration) -> u64 {
    u64::try_from(duration.as_millis()).unwrap_or(NEVER - 1)
}
