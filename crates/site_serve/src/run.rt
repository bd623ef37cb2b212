//! Runs a site.

ghost use Rattle.std.specs.Prelude.{◌≡◌, ◌∷◌, ◌<◌, ◌≤◌, ◌+◌, ◌*◌, [], true, All, Err, IfOk, IsErr, IsSomeAnd, List};
ghost use Rattle.std.specs.Prelude.{max, min, option_map};
ghost use Rattle.std.specs.Arc.{arc_value};
ghost use Rattle.std.specs.Duration.{as_nanos};
ghost use Rattle.std.specs.List.{list_any};
ghost use Rattle.replica_core.specs.Journal.{all_arrived};
ghost use Rattle.review_ops.specs.Operation.{Operation};
ghost use Rattle.site_serve.specs.Fault.{after_opening};
ghost use Rattle.site_serve.specs.InForce.{gate_in};
ghost use Rattle.site_serve.specs.Openings.{HasKept, HasShown};
ghost use Rattle.site_serve.specs.Options.{RunsWith, idle_nanos};
ghost use Rattle.site_shared.specs.Accounts.{is_used};

use super::ended::{EndedSite, RunOutcome, failed_site, served_of};
use super::errors::Errors;
use super::event_loop::{EventLoop, LISTENERS, LoopParts, WAKE};
use super::gossip::Peer;
use super::group_commit::GroupCommit;
use super::listeners::Listeners;
use super::metrics::Metrics;
use super::news::News;
use super::opening::{Opening, OwnLedger};
use super::reloads::InForce;
use super::reports::Printed;
use super::setup::{PageSetup, ServeFault, Served, SessionHooks, Setup};
use super::site_context::{FirstGates, SiteContext, SiteOptions};
use super::thread_ends::{ThreadEnds, thread_ends_at};
use super::threads::{EndedThreads, LoopInputs, PageAndPeers, ThreadInputs, run_threads};
use byte_ends::Drain;
use gate_rules::Gate;
use mio::{Poll, Waker};
use pull_guard::Guard;
use replica_core::Replica;
use site_ledger::{Keeps, Ledger, NoJournal, Remains};
use site_net::{Listener, Patience, Stop};
use site_shared::{Desk, Naming, OpenFault, Window, open_site};
use std::alloc::{AllocError, Global};
use std::io;
use std::marker::Brand;
use std::net::{Net, TcpListener, TcpStream};
use std::sync::atomic::{AtomicBool, Ordering};
use std::sync::{Arc, Wait};
use std::thread::Threads;
use std::time::{Clock, Duration};

/// How many workers a site has at most.
const MOST_WORKERS: usize = 6;

/// How many windows a site has at most: for its workers, its reports, its pages and its pulls.
const WINDOWS: usize = 64;

/// How many connections may be open at most.
const MOST_CONNECTIONS: usize = 65_535;

/// How many milliseconds a site waits for the other side of a connection.
const PATIENCE_MS: u64 = 30_000;

/// Runs a site without a journal at one port, as `serve_keeping` does.
pub fn serve_run<R, W, E, T>(
    rt: &R,
    alloc: Global,
    listener: TcpListener,
    setup: Setup<'_>,
    stop: &Stop,
    output: W,
    errors: E,
    hooks: &T,
) -> Result<Served, ServeFault>
where
    R: Net<Listener = TcpListener, Stream = TcpStream> + Threads + Wait + Clock + Sync,
    W: Drain + Send + Drop,
    E: Drain + Send + Drop,
    T: SessionHooks + Sync,
    ensures used { list_any (is_used setup.entry.site setup.entry.start) setup.entry.replica ≡ true → IsErr result }
    ensures record { (more : List Operation)
        × IfOk result (λ served. served.replica ≡ all_arrived setup.entry.replica more) }
{
    let Ok(listeners) = one_listener(alloc, listener) else {
        return Err(ServeFault::NoMemory);
    };
    let EndedSite {
        keeper: _,
        origin: _,
        served,
    } = serve_keeping(
        rt, alloc, listeners, setup, stop, output, errors, hooks, NoJournal,
    );
    served
}

/// One port to listen at.
fn one_listener(alloc: Global, listener: TcpListener) -> Result<Vec<Listener>, AllocError> {
    let mut listeners = Vec::new(alloc);
    listeners.push(Listener::Port(listener))?;
    Ok(listeners)
}

/// Runs a site until it is asked to stop, or until all its sessions have ended: its sessions, its pulls and its reports
/// in threads of their own, and its desk in this one. The report of what it has is printed first, then each one that
/// differs from the last, or what changed from one to the next, as the setup has it. What ended with a fault, which
/// peer can't be reached, and that the output failed is written to `errors`. Refusals: 2 `StartUsed`, the replica has a
/// stamp of the site under this start or a later one; 3 `NoMemory`; 4 `NoPlace`, the system refused a thread or a place
/// for one; 6 `NoJournal`, what was taken in couldn't be kept, and was neither shown nor acknowledged. Whatever the
/// site takes in is kept first, then shown, then acknowledged. The keeper has to be one that has some operations, all
/// of which stay: a journal that was just opened is, and `NoJournal`. It is given back: what it had survives in it, and
/// after that all that came to the record.
pub fn serve_keeping<R, W, E, T, K>(
    rt: &R,
    alloc: Global,
    listeners: Vec<Listener>,
    setup: Setup<'_>,
    stop: &Stop,
    output: W,
    errors: E,
    hooks: &T,
    keeper: K,
) -> EndedSite<K>
where
    R: Net<Listener = TcpListener, Stream = TcpStream> + Threads + Wait + Clock + Sync,
    W: Drain + Send + Drop,
    E: Drain + Send + Drop,
    T: SessionHooks + Sync,
    K: Keeps,
    requires { (first : List Operation) × K.holds keeper first }
    ensures used { list_any (is_used setup.entry.site setup.entry.start) setup.entry.replica ≡ true
        → IsErr result.served }

    // Whatever the keeper had survives in what is given back, with `more` after it; and the record is the first one
    // with just `more`.
    ensures keeps { HasKept K.survives (K.holds keeper) setup.entry.replica result.keeper result.served }

    // What was known of the keeper is known of what is given back, so that this says something of it.
    ensures known { K.is_known keeper → K.is_known result.keeper }

    // The desk that stamps what it takes in is one of this site, under this start.
    ensures origin { (result.origin.0 ≡ setup.entry.site) × (result.origin.1 ≡ setup.entry.start) }
{
    let origin = (setup.site, setup.start);
    match prepare(rt, alloc, listeners, setup, stop, errors, hooks) {
        Ok(prepared) => run_prepared(rt, prepared, output, keeper),
        Err(fault) => failed_site(keeper, origin, fault),
    }
}

/// How much a site does at once, and when it ends.
#[derive(Drop)]
struct Limits {
    workers: usize,
    pullers: usize,
    /// How many sessions there are to be; without end where that is 0.
    sessions: u64,
    connections: usize,
}

/// The limits of a site with this setup: at least one worker, one thread that pulls, and one connection, and no more
/// threads than there are windows.
fn limits_of(setup: &Setup<'_>) -> Limits
    ensures limits { (result.workers ≡ min (max setup.now.workers 1) 6)
        × (result.connections ≡ min (max setup.now.connections 1) 65_535) × (result.sessions ≡ setup.now.sessions) }
    ensures windows { result.workers + 2 + result.pullers ≤ 64 }
{
    let workers = setup.workers.max(1).min(MOST_WORKERS);
    Limits {
        workers,
        pullers: setup.peers.len().max(1).min(WINDOWS - 2 - workers),
        sessions: setup.sessions,
        connections: setup.connections.max(1).min(MOST_CONNECTIONS),
    }
}

/// What a site is run with beside its gate, by who needs it.
#[derive(Drop)]
struct SetupParts<'a> {
    replica: Replica,
    page: Option<PageSetup>,
    options: SiteOptions<'a>,
    limits: Limits,
}

/// The gate of a setup, and its other parts.
fn split_setup<'a>(setup: Setup<'a>) -> (Gate, SetupParts<'a>)
    ensures opens { (result.1.replica ≡ setup.entry.replica) × (result.1.options.guard.own ≡ setup.entry.site)
        × (result.1.options.start ≡ setup.entry.start) }
    ensures options { RunsWith setup.entry result.1.options }
    ensures others { (result.0 ≡ setup.entry.gate) × (result.1.page ≡ setup.entry.page)
        × (result.1.limits.sessions ≡ setup.entry.sessions) }
    ensures limits { (result.1.limits.workers ≡ min (max setup.entry.workers 1) 6)
        × (result.1.limits.connections ≡ min (max setup.entry.connections 1) 65_535) }
    ensures windows { result.1.limits.workers + 2 + result.1.limits.pullers ≤ 64 }
{
    let limits = limits_of(&setup);
    let Setup {
        gate,
        reloads,
        replica,
        site,
        start,
        peers,
        keys,
        sites,
        pause_ms,
        idle_ms,
        prints,
        page,
        ..
    } = setup;
    let options = SiteOptions {
        reloads,
        prints,
        guard: Guard { own: site, sites },
        start,
        workers: limits.workers,
        peers,
        keys,
        pause: Duration::from_millis(pause_ms),
        patience: patience_of(idle_ms),
    };
    let parts = SetupParts {
        replica,
        page,
        options,
        limits,
    };
    (gate, parts)
}

/// A site that is ready to be opened, with its record.
#[derive(Drop)]
struct PreparedSite<'a, E: Drain, T: SessionHooks> {
    context: SiteContext<'a, E, T>,
    loop_setup: LoopSetup,
    replica: Replica,
}

/// Prepares a site. Refusals: `NoPlace`, the system refused a poll or a listener; `NoMemory`.
fn prepare<'a, R, E, T>(
    rt: &R,
    alloc: Global,
    listeners: Vec<Listener>,
    setup: Setup<'a>,
    stop: &'a Stop,
    errors: E,
    hooks: &'a T,
) -> Result<PreparedSite<'a, E, T>, ServeFault>
where
    R: Net + Clock,
    E: Drain + Drop,
    T: SessionHooks,
    ensures opens { IfOk result (λ prepared. (prepared.replica ≡ setup.entry.replica)
        × (prepared.context.options.guard.own ≡ setup.entry.site) × (prepared.context.options.start ≡ setup.entry.start)) }
    ensures options { IfOk result (λ prepared. RunsWith setup.entry prepared.context.options) }
    ensures others { IfOk result (λ prepared. (gate_in prepared.context.first ≡ setup.entry.gate)
        × (prepared.loop_setup.page_and_peers.page ≡ setup.entry.page)
        × (prepared.loop_setup.loop_parts.most ≡ setup.entry.sessions)) }
    ensures windows { IfOk result (λ prepared. prepared.loop_setup.limits.workers + 2 + prepared.loop_setup.limits.pullers ≤ 64) }
{
    let (gate, parts) = split_setup(setup);
    let (peers, pullers) = (parts.options.peers.len(), parts.limits.pullers);
    match acquire(rt, alloc, listeners, gate, peers, pullers) {
        Ok(resources) => Ok(prepared_with(alloc, resources, parts, stop, errors, hooks)),
        Err(fault) => Err(fault),
    }
}

/// A prepared site, of these parts.
fn prepared_with<'a, E: Drain, T: SessionHooks>(
    alloc: Global,
    resources: Resources,
    parts: SetupParts<'a>,
    stop: &'a Stop,
    errors: E,
    hooks: &'a T,
) -> PreparedSite<'a, E, T>
    ensures opens { (result.replica ≡ parts.entry.replica)
        × (result.context.options.guard.own ≡ parts.entry.options.guard.own)
        × (result.context.options.start ≡ parts.entry.options.start) }
    ensures options { (result.context.options ≡ parts.entry.options) × (result.context.first ≡ resources.first) }
    ensures limits { result.loop_setup.limits ≡ parts.entry.limits }
    ensures looped { (result.loop_setup.page_and_peers.page ≡ parts.entry.page)
        × (result.loop_setup.page_and_peers.shares ≡ resources.shares)
        × (result.loop_setup.loop_parts.most ≡ parts.entry.limits.sessions)
        × (result.loop_setup.loop_parts.connections ≡ parts.entry.limits.connections)
        × (result.loop_setup.loop_parts.patience ≡ parts.entry.options.patience) }
{
    let Resources {
        poll,
        listeners,
        shares,
        metrics,
        first,
    } = resources;
    let SetupParts {
        replica,
        page,
        options,
        limits,
    } = parts;
    let loop_parts = LoopParts {
        alloc,
        poll,
        listeners,
        patience: options.patience,
        most: limits.sessions,
        connections: limits.connections,
    };
    PreparedSite {
        context: SiteContext {
            alloc,
            options,
            first,
            errors: Errors::new(errors),
            metrics,
            stop,
            hooks,
            is_start_taken: AtomicBool::new(false),
        },
        loop_setup: LoopSetup {
            loop_parts,
            page_and_peers: PageAndPeers { page, shares },
            limits,
        },
        replica,
    }
}

/// What a site acquires before it is opened, which may be refused.
#[derive(Drop)]
struct Resources {
    poll: Poll,
    listeners: Listeners,
    shares: Vec<Vec<Peer>>,
    metrics: Metrics,
    first: InForce,
}

/// Acquires what a site needs that listens there, with this gate, so many peers, and so many threads that pull from
/// them.
fn acquire<R: Net + Clock>(
    rt: &R,
    alloc: Global,
    listeners: Vec<Listener>,
    gate: Gate,
    peers: usize,
    pullers: usize,
) -> Result<Resources, ServeFault>
    ensures { IfOk result (λ resources. gate_in resources.first ≡ gate) }
{
    let Ok((poll, listeners)) = poll_listeners(rt, alloc, listeners) else {
        return Err(ServeFault::NoPlace);
    };
    match shared_parts(rt, alloc, gate, peers, pullers) {
        Ok((shares, metrics, first)) => Ok(Resources {
            poll,
            listeners,
            shares,
            metrics,
            first,
        }),
        Err(_) => Err(ServeFault::NoMemory),
    }
}

/// The shares of the peers, the metrics, and the gate in force.
fn shared_parts<R: Clock>(
    rt: &R,
    alloc: Global,
    gate: Gate,
    peers: usize,
    pullers: usize,
) -> Result<(Vec<Vec<Peer>>, Metrics, InForce), AllocError>
    ensures { IfOk result (λ parts. gate_in parts.2 ≡ gate) }
{
    let first = InForce::first(alloc, gate)?;
    let metrics = Metrics::new(rt, alloc, peers)?;
    let shares = shares_of(alloc, peers, pullers)?;
    Ok((shares, metrics, first))
}

/// Opens a prepared site, and runs it.
fn run_prepared<R, W, E, T, K>(
    rt: &R,
    prepared: PreparedSite<'_, E, T>,
    output: W,
    keeper: K,
) -> EndedSite<K>
where
    R: Net<Listener = TcpListener, Stream = TcpStream> + Threads + Wait + Clock + Sync,
    W: Drain + Send + Drop,
    E: Drain + Send + Drop,
    T: SessionHooks + Sync,
    K: Keeps,
    requires keeper { (first : List Operation) × K.holds keeper first }
    requires windows { prepared.loop_setup.limits.workers + 2 + prepared.loop_setup.limits.pullers ≤ 64 }
    ensures used { list_any (is_used prepared.entry.context.options.guard.own prepared.entry.context.options.start) prepared.entry.replica ≡ true
        → IsErr result.served }
    ensures keeps { HasKept K.survives (K.holds keeper) prepared.entry.replica result.keeper result.served }
    ensures known { K.is_known keeper → K.is_known result.keeper }
    ensures origin { (result.origin.0 ≡ prepared.entry.context.options.guard.own)
        × (result.origin.1 ≡ prepared.entry.context.options.start) }
{
    let PreparedSite {
        context,
        loop_setup,
        replica,
    } = prepared;
    let windows = loop_setup.limits.workers + 2 + loop_setup.limits.pullers;
    let (site, start) = (context.options.guard.own, context.options.start);
    match open_site(rt, site, start, windows, replica) {
        Ok((desk, windows)) => run_opened::<Brand, R, W, E, T, K>(
            rt, &context, loop_setup, desk, windows, output, keeper,
        ),
        Err(fault) => failed_site(keeper, (site, start), open_fault(fault)),
    }
}

/// Peers of which nothing is known yet, in as many shares as there are threads that pull.
fn shares_of(alloc: Global, count: usize, pullers: usize) -> Result<Vec<Vec<Peer>>, AllocError> {
    let mut shares = empty_shares(alloc, pullers)?;
    let mut next = 0;
    for place in 0..count {
        add_peer(shares.as_mut_slice(), next, place)?;
        next = next.wrapping_add(1);
        if next >= pullers {
            next = 0;
        }
    }
    Ok(shares)
}

/// So many shares without a peer.
fn empty_shares(alloc: Global, pullers: usize) -> Result<Vec<Vec<Peer>>, AllocError> {
    let mut shares = Vec::with_capacity(alloc, pullers)?;
    for _ in 0..pullers {
        shares.push(Vec::new(alloc))?;
    }
    Ok(shares)
}

/// Adds the peer at a place to one of the shares.
fn add_peer(shares: &mut [Vec<Peer>], share: usize, place: usize) -> Result<(), AllocError> {
    if let Some(share) = shares.get_mut(share) {
        share.push(Peer::at(place))?;
    }
    Ok(())
}

/// What the event loop and the threads beside it are made of.
#[derive(Drop)]
struct LoopSetup {
    loop_parts: LoopParts,
    page_and_peers: PageAndPeers,
    limits: Limits,
}

/// A poll, and the listeners that it reports.
fn poll_listeners<R: Net>(
    rt: &R,
    alloc: Global,
    listeners: Vec<Listener>,
) -> io::Result<(Poll, Listeners)> {
    let poll = Poll::new(rt)?;
    let listeners = Listeners::new(alloc, &poll, LISTENERS, listeners)?;
    Ok((poll, listeners))
}

/// The time-outs of connections.
fn patience_of(idle_ms: u64) -> Patience
    ensures { (as_nanos result.limit ≡ 30_000 * 1_000_000) × (option_map as_nanos result.idle ≡ idle_nanos idle_ms) }
{
    let idle = if idle_ms > 0 {
        Some(Duration::from_millis(idle_ms))
    } else {
        None
    };
    Patience {
        limit: Duration::from_millis(PATIENCE_MS),
        idle,
    }
}

/// The fault of a site that can't be opened.
fn open_fault(fault: OpenFault) -> ServeFault
    ensures { result ≡ after_opening fault }
{
    match fault {
        OpenFault::NoMemory => ServeFault::NoMemory,
        OpenFault::NoPlace => ServeFault::NoPlace,
        OpenFault::StartUsed => ServeFault::StartUsed,
    }
}

/// Runs a site that was opened, and ends its desk.
fn run_opened<J, R, W, E, T, K>(
    rt: &R,
    context: &SiteContext<'_, E, T>,
    loop_setup: LoopSetup,
    desk: Desk,
    windows: Vec<Window>,
    output: W,
    keeper: K,
) -> EndedSite<K>
where
    J: Opening + Send + Sync,
    R: Net<Listener = TcpListener, Stream = TcpStream> + Threads + Wait + Clock + Sync,
    W: Drain + Send + Drop,
    E: Drain + Send + Drop,
    T: SessionHooks + Sync,
    K: Keeps,
    requires desk { desk.book ≡ J.book }
    requires opened { desk.published ≡ J.journal ∷ [] }
    requires origin { (desk.site ≡ context.now.options.guard.own) × (desk.start ≡ context.now.options.start) }
    requires windows { All (λ window. window.book ≡ J.book) windows.items }
    requires keeper { (first : List Operation) × K.holds keeper first }
    requires had { (first : List Operation) → J.had first → K.holds keeper first }
    requires known { J.known → K.is_known keeper }
    ensures keeps { HasKept K.survives J.had J.journal result.keeper result.served }
    ensures known { J.known → K.is_known result.keeper }
    ensures origin { (result.origin.0 ≡ context.now.options.guard.own)
        × (result.origin.1 ≡ context.now.options.start) }
{
    let origin = (context.options.guard.own, context.options.start);
    let ledger: OwnLedger<J, K> = OwnLedger::new(Ledger::new(desk, keeper));
    match GroupCommit::new(context.alloc, ledger) {
        Ok(mut group) => {
            let outcome = run_group(rt, context, loop_setup, windows, &mut group, output);
            end_site::<J, K>(outcome, group.end(rt), origin)
        }
        Err(ledger) => end_site::<J, K>(Err(ServeFault::NoMemory), ledger.end(rt), origin),
    }
}

/// The ended site with this outcome, and what remains of its ledger.
fn end_site<J: Opening, K: Keeps>(
    outcome: Result<RunOutcome, ServeFault>,
    remains: Remains<K>,
    origin: (u16, u32),
) -> EndedSite<K>
    requires shown { HasShown K.survives J.had J.journal remains.keeper (arc_value remains.shown) }
    requires known { J.known → K.is_known remains.keeper }
    ensures keeps { HasKept K.survives J.had J.journal result.keeper result.served }
    ensures known { J.known → K.is_known result.keeper }
    ensures origin { (result.origin.0 ≡ origin.0) × (result.origin.1 ≡ origin.1) }
{
    let Remains { keeper, shown } = remains;
    EndedSite {
        keeper,
        origin,
        served: served_of(outcome, shown),
    }
}

/// Runs a site that can hold what it is asked.
fn run_group<J, R, W, E, T, K>(
    rt: &R,
    context: &SiteContext<'_, E, T>,
    loop_setup: LoopSetup,
    windows: Vec<Window>,
    group: &mut GroupCommit<J, K>,
    output: W,
) -> Result<RunOutcome, ServeFault>
where
    J: Opening + Send + Sync,
    R: Net<Listener = TcpListener, Stream = TcpStream> + Threads + Wait + Clock + Sync,
    W: Drain + Send + Drop,
    E: Drain + Send + Drop,
    T: SessionHooks + Sync,
    K: Keeps,
    requires { All (λ window. window.book ≡ J.book) windows.items }
{
    match run_parts_of(context, loop_setup, windows) {
        Ok(run_parts) => run_with_parts(rt, context, run_parts, group, output),
        Err(fault) => Err(fault),
    }
}

/// What the threads of a site and its event loop run with.
#[derive(Drop)]
struct RunParts<J: Naming> {
    thread_ends: ThreadEnds<J>,
    news: News<J>,
    first_gates: FirstGates,
    ready_loop: ReadyLoop,
}

/// What the threads of a site run with. Refusals: `NoPlace`, there are fewer windows than threads, or the system
/// refused what wakes the loop; `NoMemory`.
fn run_parts_of<E: Drain, T: SessionHooks, J: Naming>(
    context: &SiteContext<'_, E, T>,
    loop_setup: LoopSetup,
    windows: Vec<Window>,
) -> Result<RunParts<J>, ServeFault>
    requires { All (λ window. window.book ≡ J.book) windows.items }
{
    let thread_ends = thread_ends_of(context.alloc, windows, &loop_setup.limits)?;
    let Ok((news, first_gates)) = news_of(context, loop_setup.limits.workers) else {
        return Err(ServeFault::NoMemory);
    };
    match ready_loop_of(loop_setup) {
        Ok(ready_loop) => Ok(RunParts {
            thread_ends,
            news,
            first_gates,
            ready_loop,
        }),
        Err(fault) => Err(fault),
    }
}

/// The ends of the threads.
fn thread_ends_of<J: Naming>(
    alloc: Global,
    windows: Vec<Window>,
    limits: &Limits,
) -> Result<ThreadEnds<J>, ServeFault>
    requires { All (λ window. window.book ≡ J.book) windows.items }
{
    match thread_ends_at(alloc, windows, limits.workers, limits.connections) {
        Ok(Some(thread_ends)) => Ok(thread_ends),
        Ok(None) => Err(ServeFault::NoPlace),
        Err(_) => Err(ServeFault::NoMemory),
    }
}

/// What brings news to the threads, and the gates that they judge under at first.
fn news_of<E: Drain, T: SessionHooks, J: Naming>(
    context: &SiteContext<'_, E, T>,
    workers: usize,
) -> Result<(News<J>, FirstGates), AllocError> {
    let reloads = Arc::try_clone(&context.options.reloads)?;
    let first_gates = FirstGates::new(context.alloc, &context.first, workers)?;
    Ok((News::new(reloads), first_gates))
}

/// The event loop, what wakes it, and what the threads beside it begin with.
#[derive(Drop)]
struct ReadyLoop {
    waker: Waker,
    event_loop: EventLoop,
    page_and_peers: PageAndPeers,
}

/// The event loop with what wakes it.
fn ready_loop_of(loop_setup: LoopSetup) -> Result<ReadyLoop, ServeFault> {
    match Waker::new(loop_setup.loop_parts.poll.registry(), WAKE) {
        Ok(waker) => with_waker(loop_setup, waker),
        Err(_) => Err(ServeFault::NoPlace),
    }
}

/// The event loop, with this to wake it.
fn with_waker(loop_setup: LoopSetup, waker: Waker) -> Result<ReadyLoop, ServeFault> {
    let LoopSetup {
        loop_parts,
        page_and_peers,
        limits: _,
    } = loop_setup;
    match EventLoop::new(loop_parts) {
        Ok(event_loop) => Ok(ReadyLoop {
            waker,
            event_loop,
            page_and_peers,
        }),
        Err(_) => Err(ServeFault::NoMemory),
    }
}

/// Runs the threads of a site, and its event loop.
fn run_with_parts<J, R, W, E, T, K>(
    rt: &R,
    context: &SiteContext<'_, E, T>,
    run_parts: RunParts<J>,
    group: &mut GroupCommit<J, K>,
    output: W,
) -> Result<RunOutcome, ServeFault>
where
    J: Opening + Send + Sync,
    R: Net<Listener = TcpListener, Stream = TcpStream> + Threads + Wait + Clock + Sync,
    W: Drain + Send + Drop,
    E: Drain + Send + Drop,
    T: SessionHooks + Sync,
    K: Keeps,
{
    let RunParts {
        thread_ends,
        news,
        first_gates,
        ready_loop,
    } = run_parts;
    let ThreadEnds {
        reports,
        pages,
        pullers,
        workers,
        ends,
    } = thread_ends;
    let ReadyLoop {
        waker,
        event_loop,
        page_and_peers,
    } = ready_loop;
    let inputs = ThreadInputs {
        reports,
        output,
        pages,
        pullers,
        workers,
        page_and_peers,
        first_gates,
    };
    let loop_inputs = LoopInputs { event_loop, ends };
    let ended = run_threads(rt, context, &news, &waker, inputs, loop_inputs, group);
    outcome_of(ended, context.is_start_taken.load(Ordering::SeqCst))
}

/// The outcome of a site whose threads ended so. It is a fault if the journal failed, a thread was refused, the last
/// look failed, or memory was refused for the last publish, which shows all that was held.
fn outcome_of<J: Naming>(
    ended: EndedThreads<J>,
    is_start_taken: bool,
) -> Result<RunOutcome, ServeFault>
    ensures outcome { IfOk result (λ outcome. (outcome.is_start_taken ≡ is_start_taken)
        × IsSomeAnd ended.printed (λ printed. outcome.written ≡ printed.written)) }
    ensures kept { IsErr ended.flushed → result ≡ Err ServeFault.NoJournal }
    ensures refused { ended.is_refused ≡ true → IsErr result }
{
    let EndedThreads {
        flushed,
        printed,
        is_refused,
    } = ended;
    let Ok(flushed) = flushed else {
        return Err(ServeFault::NoJournal);
    };
    let Some(printed) = printed else {
        return Err(ServeFault::NoPlace);
    };
    if is_refused {
        return Err(ServeFault::NoPlace);
    }
    let Printed { written, fault } = printed;
    if let Some(fault) = fault {
        return Err(fault);
    }
    if flushed.is_err() {
        return Err(ServeFault::NoMemory);
    }
    Ok(RunOutcome {
        written,
        is_start_taken,
    })
}
