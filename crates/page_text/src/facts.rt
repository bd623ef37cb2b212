//! Facts about a running site, beside its record.

/// Facts about a running site at the time of a request. Times are ages, so that a page is a function of these facts and
/// the record.
#[derive(Drop)]
pub struct Facts {
    /// The number of the site.
    pub site: u16,
    /// The start under which it runs.
    pub start: u32,
    /// How long ago what is shown was looked up, in milliseconds.
    pub age_ms: u64,
    /// How long ago the last operation came, in milliseconds, if one came since the start.
    pub news_ms: Option<u64>,
    /// The sites that it pulls from.
    pub peers: Vec<PeerFacts>,
    /// How many sessions are open.
    pub sessions: u64,
    /// How often it published since the start.
    pub publishes: u64,
    /// How many pages were asked for since the start.
    pub requests: u64,
    /// How many requests named a host that isn't its own since the start.
    pub refused_hosts: u64,
    /// How long the last update of the verdicts took, in microseconds.
    pub update_us: u64,
    /// How many threads look at the record for sessions, and how many of them look just now.
    pub workers: u64,
    pub busy_workers: u64,
    /// How many sessions ended with a fault since the start.
    pub session_faults: u64,
    /// How many connections were closed since the start because as many as may be were open.
    pub refused_connections: u64,
    /// What its journal has, where it has one.
    pub journal: Option<JournalFacts>,
    /// How long ago a feed last said that it heard from Gerrit, in milliseconds, if one did since the start.
    pub heard_ms: Option<u64>,
}

/// What a site knows of its journal.
#[derive(Clone, Copy)]
pub struct JournalFacts {
    /// How many bytes it has.
    pub bytes: u64,
    /// How often it was synced since the start.
    pub syncs: u64,
}

/// What a site knows of a site that it pulls from.
#[derive(Drop)]
pub struct PeerFacts {
    /// How the command line names the site: its port, the path of its socket, or `NAME@HOST:PORT`.
    pub peer: String,
    /// Whether the last pull reached it.
    pub is_reachable: bool,
    /// For how long that has been so, in milliseconds.
    pub condition_ms: u64,
    /// How long ago the last whole pull ended, in milliseconds, if one did since the start.
    pub good_ms: Option<u64>,
    /// How many pulls were whole since the start.
    pub pulls: u64,
    /// How many pulls failed since the start.
    pub failures: u64,
}
