//! What a command line may ask for.

use site_address::{HostPort, PeerAddress};

/// What a command line asks for.
#[derive(Drop)]
pub enum Asked<'a> {
    /// To run a command over files.
    Run(Command<'a>),
    /// To run a site.
    Serve(ServeWords<'a>),
    /// To recover a journal.
    Recover(RecoverWords<'a>),
    /// To feed what Gerrit writes.
    Events(EventWords<'a>),
    /// To plan a feed's queries.
    Queries(QueryWords),
    /// To hand items to Zuul.
    Enqueue(EnqueueWords<'a>),
    /// The help text, for the output.
    Help(String),
    /// The program's name and version, for the output.
    Version(String),
    /// The text of a usage error, for standard error.
    Usage(String),
    /// Memory was refused while the command line was parsed.
    NoMemory,
}

/// A command over files, which it reads before it prints its answer.
#[derive(Drop)]
pub enum Command<'a> {
    /// To print the report of a snapshot.
    Ready(ReadyCommand<'a>),
    /// To print the line of an item in the report of a snapshot.
    ReadyItem(ReadyItemCommand<'a>),
    /// To print why an item of a snapshot waits.
    Why(WhyCommand<'a>),
    /// To draw the items of a snapshot with what they wait for.
    Graph(GraphCommand<'a>),
    /// To print one snapshot of two.
    Merge(MergeCommand<'a>),
    /// To print what the footers of a message ask for.
    Footers(FootersCommand<'a>),
    /// To print what a gate file asks for, with warnings.
    Check(CheckCommand<'a>),
    /// To play a script.
    Simulate(SimulateCommand<'a>),
}

/// How an answer is written.
#[derive(Clone, Copy, Debug, PartialEq, Eq)]
pub enum OutputFormat {
    /// As lines of text.
    Text,
    /// As one JSON object.
    Json,
}

/// How much of the verdict on an item is explained.
#[derive(Clone, Copy, Debug, PartialEq, Eq)]
pub enum Detail {
    /// Its cause.
    Cause,
    /// Its cause, and then each condition of the gate, met or broken.
    AllConditions,
}

/// What the warnings of a check are.
#[derive(Clone, Copy, Debug, PartialEq, Eq)]
pub enum Strictness {
    /// A part of the answer.
    Lenient,
    /// A refusal, too, once the answer is printed.
    Strict,
}

/// What the report of a snapshot is printed with.
#[derive(Drop)]
pub struct ReadyCommand<'a> {
    /// The gate file's name.
    pub gate: &'a str,
    /// The snapshot's name.
    pub snapshot: &'a str,
    pub format: OutputFormat,
}

/// What the line of an item is printed with.
#[derive(Drop)]
pub struct ReadyItemCommand<'a> {
    /// The gate file's name.
    pub gate: &'a str,
    /// The snapshot's name.
    pub snapshot: &'a str,
    /// The number of the item's change.
    pub change: u32,
    /// The number of its patch set; without one it is the current patch set.
    pub set: Option<u32>,
    pub format: OutputFormat,
}

/// What an item is explained with.
#[derive(Drop)]
pub struct WhyCommand<'a> {
    /// The gate file's name.
    pub gate: &'a str,
    /// The snapshot's name.
    pub snapshot: &'a str,
    /// The number of the item's change.
    pub change: u32,
    /// The number of its patch set; without one it is the current patch set.
    pub set: Option<u32>,
    pub detail: Detail,
    pub format: OutputFormat,
}

/// What a graph is drawn of.
#[derive(Drop)]
pub struct GraphCommand<'a> {
    /// The gate file's name.
    pub gate: &'a str,
    /// The snapshot's name.
    pub snapshot: &'a str,
    /// The change around whose items the graph is drawn; without one all items are.
    pub around: Option<u32>,
}

/// What is merged.
#[derive(Drop)]
pub struct MergeCommand<'a> {
    /// The name of a snapshot.
    pub first: &'a str,
    /// The name of another one.
    pub second: &'a str,
}

/// What the footers of a message are read with.
#[derive(Drop)]
pub struct FootersCommand<'a> {
    /// The name of the gate file, which has the bases.
    pub gate: &'a str,
    /// The name of the file of the message.
    pub message: &'a str,
    /// The number of the message's own change, or 0.
    pub change: u32,
    pub format: OutputFormat,
}

/// What a gate file is checked with.
#[derive(Drop)]
pub struct CheckCommand<'a> {
    /// The gate file's name.
    pub gate: &'a str,
    /// The name of a snapshot, whose record is looked at, too.
    pub snapshot: Option<&'a str>,
    pub strictness: Strictness,
    pub format: OutputFormat,
}

/// What a script is played with.
#[derive(Drop)]
pub struct SimulateCommand<'a> {
    /// The script's name.
    pub script: &'a str,
    /// The name of the gate file under which reports are made.
    pub gate: Option<&'a str>,
}

/// What a site is run with.
#[derive(Drop)]
pub struct ServeWords<'a> {
    /// The gate file's name.
    pub gate: &'a str,
    /// The addresses of the peers. If one is on another machine, a file of keys is named.
    pub peers: Vec<PeerAddress<'a>>,
    /// The numbers of the sites whose operations it takes from its peers, beside its own; an empty list means all
    /// sites.
    pub sites: Vec<u16>,
    /// The site's number.
    pub site: u16,
    /// The start, from 1 to 4,294,967,294. If it is `None`, a journal is named.
    pub start: Option<u32>,
    /// The port that it listens at, where one is named; 0 for one that is free.
    pub port: Option<u16>,
    /// The paths of the Unix sockets that it listens at.
    pub sockets: Vec<&'a str>,
    /// The hosts and ports that it listens at for sealed connections; there are some only where a file of keys is
    /// named.
    pub hosts: Vec<HostPort<'a>>,
    /// Who may connect to the Unix sockets.
    pub mode: SocketMode,
    /// The name of the file of the keys that it accepts, and that it uses as a client.
    pub keys: Option<&'a str>,
    /// How many worker threads answer sessions, from 1 to 6.
    pub workers: usize,
    /// How many milliseconds pass between two rounds of pulls, from 1 to 600,000.
    pub pause_ms: u64,
    /// After how many sessions it ends; 0 means no limit.
    pub sessions: u64,
    /// How many milliseconds a session that hasn't sent a body may be silent; 0 means no limit.
    pub idle_ms: u64,
    /// How many connections may be open at once, from 1 to 65,535.
    pub connections: usize,
    /// Whether it reads `stop` and `reload` from standard input, and stops at its end.
    pub until_input_ends: bool,
    /// What it prints of its verdicts.
    pub prints: Printing,
    /// Whether its lines on standard error begin with the time.
    pub log_time: bool,
    /// Where it shows itself to browsers, if it does.
    pub http: Option<PageAddress<'a>>,
    /// The accepted host names, beside `localhost` and the loopback addresses.
    pub http_hosts: Vec<String>,
    /// The name of the snapshot to begin with.
    pub load: Option<&'a str>,
    /// The name of the snapshot that is written at the end.
    pub save: Option<&'a str>,
    /// The name of the journal.
    pub journal: Option<&'a str>,
}

/// Who may connect to the Unix sockets of a site.
#[derive(Clone, Copy, Debug, PartialEq, Eq)]
pub enum SocketMode {
    /// Its user alone: mode 600.
    Owner,
    /// Its user and its group: mode 660.
    Group,
}

/// Where a site shows itself to browsers.
#[derive(Clone, Copy, Debug, PartialEq, Eq)]
pub enum PageAddress<'a> {
    /// A port of 127.0.0.1; 0 for one that is free.
    Port(u16),
    /// The path of a Unix socket.
    Path(&'a str),
}

/// What a site prints of its verdicts.
#[derive(Clone, Copy, Debug, PartialEq, Eq)]
pub enum Printing {
    /// The whole report, whenever it changes.
    Report,
    /// What changed from one report to the next.
    Changes,
    /// Nothing.
    Nothing,
}

/// What a journal is recovered with.
#[derive(Drop)]
pub struct RecoverWords<'a> {
    /// The journal's name.
    pub journal: &'a str,
    /// The sites with the starts whose operations are left out.
    pub without: Vec<(u16, u32)>,
    /// The greatest time of an operation that isn't left out; `None` means no limit.
    pub until: Option<u64>,
}

/// What Gerrit's lines are.
#[derive(Clone, Copy, Debug, PartialEq, Eq)]
pub enum Answer {
    /// The stream of events, or rows of queries among it: no answer that has to be whole.
    Stream,
    /// The answer of a query.
    Query,
    /// The answer of a query that has every open change.
    Complete,
}

/// What a feed is run with.
#[derive(Drop)]
pub struct EventWords<'a> {
    /// The address of the site that is fed; without one the lines of a session are printed. One on another machine is
    /// only where a file of keys is named.
    pub to: Option<PeerAddress<'a>>,
    /// The name of the file of keys.
    pub keys: Option<&'a str>,
    /// What the lines are; `Complete` is only where a site is named.
    pub answer: Answer,
    /// The names of the projects whose changes alone are fed; with none here and in the file, those of all.
    pub projects: Vec<String>,
    /// The name of a file of such names.
    pub projects_file: Option<&'a str>,
    /// The name of the gate file by which unknown changes are asked for; only where a site is named.
    pub gate: Option<&'a str>,
}

/// What a feed's queries are planned with.
#[derive(Clone, Copy, Debug, PartialEq, Eq)]
pub struct QueryWords {
    /// How many minutes pass from one query of all changes to the next, from 1 to 10,080.
    pub every: u64,
    /// For how many seconds changes to be queried are gathered, from 0 to 3,600.
    pub gather: u64,
    /// How many seconds pass before a query that failed is asked again, from 0 to 3,600.
    pub pause: u64,
}

/// What items are handed over with.
#[derive(Drop)]
pub struct EnqueueWords<'a> {
    /// The name of the answer of a query.
    pub query: &'a str,
    /// Zuul's tenant, where it is named.
    pub tenant: Option<&'a str>,
    /// The pipeline's name, where it is named.
    pub pipeline: Option<&'a str>,
    /// What is written for an item.
    pub template: &'a str,
    /// The name of a file of the pipeline's projects; without one it has all.
    pub projects: Option<&'a str>,
    /// The name of a file of the items that were handed over before.
    pub handed: Option<&'a str>,
}
