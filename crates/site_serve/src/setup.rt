//! What a site is run with, and how it ends.

ghost use Rattle.std.specs.Prelude.{◌≡◌};
ghost use Rattle.site_serve.specs.Fault.{name_of, number_of};

use super::reloads::Reloads;
use gate_rules::Gate;
use key_files::KeyReader;
use mio::Waker;
use page_server::PageEndpoint;
use replica_core::Replica;
use site_address::PeerAddress;
use std::alloc::Global;
use std::sync::Arc;
use thiserror::Error;

/// What a site prints of its verdicts.
#[derive(Clone, Copy, Debug, PartialEq, Eq)]
pub enum Prints {
    /// The whole report, whenever it changes.
    Report,
    /// What changed from one report to the next.
    Changes,
    /// Nothing.
    Nothing,
}

/// Where a site shows itself to browsers.
#[derive(Drop)]
pub struct PageSetup {
    /// Where browsers connect to.
    pub endpoint: PageEndpoint,
    /// Wakes the thread that serves there.
    pub waker: Waker,
    /// The accepted host names, beside `localhost` and the loopback addresses.
    pub hosts: Vec<String>,
}

/// What a site is run with.
#[derive(Drop)]
pub struct Setup<'a> {
    /// What its reports are made under at first.
    pub gate: Gate,
    /// The gates that are put in force in its place while the site runs.
    pub reloads: Arc<Reloads, Global>,
    /// What it has at first.
    pub replica: Replica,
    /// Its number, from 1.
    pub site: u16,
    /// The start of what it takes in, which must be greater than every start that it has used.
    pub start: u32,
    /// The addresses of its peers.
    pub peers: Vec<PeerAddress<'a>>,
    /// The name of the file of keys that connections are sealed by, if one is named. Without one no connection is
    /// admitted at a port whose connections are sealed, and no peer on another machine is reached.
    pub keys: Option<&'a str>,
    /// The numbers of the sites whose operations it takes from its peers, beside its own; an empty list means all
    /// sites.
    pub sites: Vec<u16>,
    /// How many worker threads answer sessions: 1 to 6; other values are clamped.
    pub workers: usize,
    /// How many milliseconds pass between two rounds of pulls.
    pub pause_ms: u64,
    /// After how many sessions the site ends; 0 means never.
    pub sessions: u64,
    /// How many milliseconds a session that hasn't sent a body may send no whole line; 0 means no limit.
    pub idle_ms: u64,
    /// How many connections may be open at once: 1 to 65,535; other values are clamped.
    pub connections: usize,
    /// What it prints.
    pub prints: Prints,
    /// Where it shows itself to browsers, if it does.
    pub page: Option<PageSetup>,
}

/// What a site that ended leaves.
#[derive(Drop)]
pub struct Served {
    /// All that it had.
    pub replica: Replica,
    /// Whether everything was printed. If not, that was reported on standard error.
    pub written: bool,
    /// Whether it ended because another process runs as this site, under this start or a later one.
    pub is_start_taken: bool,
}

/// Why a site doesn't run, or doesn't run to its end. The numbers that are left out are those of `serve_command`.
#[derive(Clone, Copy, Debug, PartialEq, Eq, Error)]
pub enum ServeFault {
    /// 2: the record has a stamp of the site under this start or a later one.
    #[error("the start was used before")]
    StartUsed,
    /// 3: memory was refused.
    #[error("no memory")]
    NoMemory,
    /// 4: the system refused a thread or a place for one.
    #[error("no place")]
    NoPlace,
    /// 6: what the site took in can't be kept any more.
    #[error("the journal failed")]
    NoJournal,
}

impl ServeFault {
    /// The fault's number.
    pub fn number(&self) -> u8
        ensures { result ≡ number_of self.now }
    {
        match self {
            ServeFault::StartUsed => 2,
            ServeFault::NoMemory => 3,
            ServeFault::NoPlace => 4,
            ServeFault::NoJournal => 6,
        }
    }

    /// The fault's name.
    pub fn name(&self) -> &'static str
        ensures { result.now ≡ name_of self.now }
    {
        match self {
            ServeFault::StartUsed => "StartUsed",
            ServeFault::NoMemory => "NoMemory",
            ServeFault::NoPlace => "NoPlace",
            ServeFault::NoJournal => "NoJournal",
        }
    }
}

/// What a site calls of the program that it runs in: a worker calls these hooks before and after each session, and they
/// may wait; connections are authenticated by the keys that it reads. Sessions are numbered from 1, as they are accepted.
pub trait SessionHooks: KeyReader {
    /// Before a session: its lines are read once this has returned.
    fn before(&self, session: u64);

    /// After a session. It may not be called for a session that the end of the site cut off.
    fn after(&self, session: u64);
}
