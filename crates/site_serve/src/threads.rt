//! The threads of a site: the loop in this one, and beside it those that print reports, serve pages, pull from peers
//! and answer sessions.

ghost use Rattle.std.specs.Prelude.{◌≡◌};
ghost use Rattle.std.specs.Thread.{IsSend, IsSync};
ghost use Rattle.site_port.specs.Guarding.{guard_in, sink_in};

use super::ask::Puller;
use super::event_loop::{EventLoop, Site, serve_sessions};
use super::gossip::{Peer, Pulling, pull_from_peers};
use super::group_commit::{GroupCommit, NotKept};
use super::jobs::Worker;
use super::news::News;
use super::opening::{Opening, OwnWindow};
use super::pages::{PageContext, show_pages};
use super::port::PullPort;
use super::reloads::InForce;
use super::reports::{Printed, ReportPrinter, print_reports};
use super::requests::Published;
use super::setup::{PageSetup, SessionHooks};
use super::site_context::{FirstGates, SiteContext};
use super::thread_ends::LoopEnds;
use super::workers::{WorkerContext, do_jobs};
use byte_ends::Drain;
use mio::Waker;
use page_server::PageEndpoint;
use site_ledger::Keeps;
use site_net::Patience;
use site_port::{Guarded, Sink};
use site_shared::Naming;
use std::net::{Net, TcpListener, TcpStream};
use std::sync::Wait;
use std::sync::atomic::Ordering;
use std::thread;
use std::thread::{JoinHandle, Scope, Threads};
use std::time::{Clock, Duration};

/// The time-out of a pull for each line of the peer, in milliseconds.
const PULL_PATIENCE_MS: u64 = 10_000;

/// What the threads of the page and of the pulls begin with.
#[derive(Drop)]
pub(super) struct PageAndPeers {
    /// Where the site shows itself to browsers, if it does.
    pub page: Option<PageSetup>,
    /// The peers, in shares.
    pub shares: Vec<Vec<Peer>>,
}

/// What the threads beside the event loop begin with.
#[derive(Drop)]
pub(super) struct ThreadInputs<J: Naming, W: Drop> {
    pub reports: OwnWindow<J>,
    pub output: W,
    pub pages: OwnWindow<J>,
    pub pullers: Vec<Puller<J>>,
    pub workers: Vec<Worker<J>>,
    pub page_and_peers: PageAndPeers,
    pub first_gates: FirstGates,
}

/// What the event loop begins with.
#[derive(Drop)]
pub(super) struct LoopInputs<J: Naming> {
    pub event_loop: EventLoop,
    /// Its ends of the channels to the other threads.
    pub ends: LoopEnds<J>,
}

/// How the threads of a site ended.
#[derive(Drop)]
pub(super) struct EndedThreads<J: Naming> {
    /// The last publish; or that the journal failed.
    pub flushed: Result<Published<J>, NotKept>,
    /// What the printing of reports left; none where it never began.
    pub printed: Option<Printed>,
    /// Whether the system refused a thread.
    pub is_refused: bool,
}

/// Runs the threads of a site, and its loop in this one.
pub(super) fn run_threads<J, R, W, E, T, K>(
    rt: &R,
    context: &SiteContext<'_, E, T>,
    news: &News<J>,
    waker: &Waker,
    inputs: ThreadInputs<J, W>,
    loop_inputs: LoopInputs<J>,
    group: &mut GroupCommit<J, K>,
) -> EndedThreads<J>
where
    J: Opening + Send + Sync,
    R: Net<Listener = TcpListener, Stream = TcpStream> + Threads + Wait + Clock + Sync,
    W: Drain + Send + Drop,
    E: Drain + Send + Drop,
    T: SessionHooks + Sync,
    K: Keeps,
{
    thread::scope(
        thread::scope_env(),
        rt,
        move |scope| -> EndedThreads<J>
            requires { IsSync R.row × IsSend J.row × IsSync J.row × IsSend W.row × IsSend E.row × IsSync T.row }
        {
            let started = start_all(scope, rt, context, news, waker, inputs);
            run_loop(rt, context, news, started, loop_inputs, group)
        },
    )
}

/// The threads that were started beside the loop.
#[derive(Drop)]
struct StartedThreads {
    /// The one that prints the reports.
    reports: Option<JoinHandle<Printed>>,
    /// Wakes the thread that serves browsers.
    page_waker: Option<Waker>,
    /// Whether the system refused one.
    is_refused: bool,
}

/// Starts the threads beside the loop.
fn start_all<'s, 'e, J, R, W, E, T>(
    scope: &Scope<'s, &'e ()>,
    rt: &'s R,
    context: &'s SiteContext<'_, E, T>,
    news: &'s News<J>,
    waker: &'s Waker,
    inputs: ThreadInputs<J, W>,
) -> StartedThreads
where
    J: Naming + Send + Sync + 's,
    R: Net<Listener = TcpListener, Stream = TcpStream> + Wait + Clock + Sync,
    W: Drain + Send + Drop + 's,
    E: Drain + Send + Drop,
    T: SessionHooks + Sync,
{
    let ThreadInputs {
        reports,
        output,
        pages,
        pullers,
        workers,
        page_and_peers,
        first_gates,
    } = inputs;
    let PageAndPeers { page, shares } = page_and_peers;
    let (endpoint, page_waker) = page_parts(page);
    let reports = start_reports(
        scope,
        rt,
        context,
        first_gates.reports,
        news,
        reports,
        output,
    );
    let has_page = start_page(scope, rt, context, first_gates.pages, endpoint, pages);
    let has_pullers = start_pulls(scope, rt, context, waker, shares, pullers);
    let has_workers = start_workers(scope, rt, context, waker, workers, first_gates.workers);
    StartedThreads {
        reports,
        page_waker,
        is_refused: !(has_page && has_pullers && has_workers),
    }
}

/// Starts the thread that prints reports. None if the system refused it.
fn start_reports<'s, 'e, J, R, W, E, T>(
    scope: &Scope<'s, &'e ()>,
    rt: &'s R,
    context: &'s SiteContext<'_, E, T>,
    first: InForce,
    news: &'s News<J>,
    window: OwnWindow<J>,
    output: W,
) -> Option<JoinHandle<Printed>>
where
    J: Naming + Send + Sync + 's,
    R: Wait + Clock + Sync,
    W: Drain + Send + Drop + 's,
    E: Drain + Send + Drop,
    T: SessionHooks + Sync,
{
    let started = scope.spawn(move || run_reports(rt, context, first, news, window, output));
    match started {
        Ok(reports) => Some(reports),
        Err(_) => None,
    }
}

/// Starts the thread that serves browsers, if the site listens for them. Returns false if the system refused it.
fn start_page<'s, 'e, J, R, E, T>(
    scope: &Scope<'s, &'e ()>,
    rt: &'s R,
    context: &'s SiteContext<'_, E, T>,
    first: InForce,
    endpoint: Option<(PageEndpoint, Vec<String>)>,
    window: OwnWindow<J>,
) -> bool
where
    J: Naming + Send + Sync + 's,
    R: Wait + Clock + Sync,
    E: Drain + Send + Drop,
    T: SessionHooks + Sync,
{
    match endpoint {
        Some(endpoint) => scope
            .spawn(move || run_pages(rt, context, first, endpoint, window))
            .is_ok(),
        None => true,
    }
}

/// Starts a thread for each share of the peers, which pulls from them. Returns false if the system refused one.
fn start_pulls<'s, 'e, J, R, E, T>(
    scope: &Scope<'s, &'e ()>,
    rt: &'s R,
    context: &'s SiteContext<'_, E, T>,
    waker: &'s Waker,
    shares: Vec<Vec<Peer>>,
    pullers: Vec<Puller<J>>,
) -> bool
where
    J: Naming + Send + Sync + 's,
    R: Net<Listener = TcpListener, Stream = TcpStream> + Wait + Clock + Sync,
    E: Drain + Send + Drop,
    T: SessionHooks + Sync,
{
    let mut are_started = true;
    for (peers, puller) in shares.into_iter().zip(pullers) {
        let started = scope.spawn(move || run_puller(rt, context, waker, peers, puller));
        are_started &= started.is_ok();
    }
    are_started
}

/// Starts a worker thread for each gate. Returns false if the system refused one.
fn start_workers<'s, 'e, J, R, E, T>(
    scope: &Scope<'s, &'e ()>,
    rt: &'s R,
    context: &'s SiteContext<'_, E, T>,
    waker: &'s Waker,
    workers: Vec<Worker<J>>,
    first_gates: Vec<InForce>,
) -> bool
where
    J: Naming + Send + Sync + 's,
    R: Wait + Sync,
    E: Drain + Send + Drop,
    T: SessionHooks + Sync,
{
    let mut are_started = true;
    for (worker, first) in workers.into_iter().zip(first_gates) {
        let worker = scope.spawn(move || run_worker(rt, context, first, waker, worker));
        are_started &= worker.is_ok();
    }
    are_started
}

/// Runs the loop, and then has the other threads end.
fn run_loop<J, R, E, T, K>(
    rt: &R,
    context: &SiteContext<'_, E, T>,
    news: &News<J>,
    started: StartedThreads,
    loop_inputs: LoopInputs<J>,
    group: &mut GroupCommit<J, K>,
) -> EndedThreads<J>
where
    J: Opening,
    R: Threads + Wait + Clock,
    E: Drain,
    T: SessionHooks,
    K: Keeps,
{
    stop_where(rt, context, started.is_refused);
    let site = Site {
        metrics: &context.metrics,
        news,
        errors: &context.errors,
        stop: context.stop,
    };
    let LoopInputs { event_loop, ends } = loop_inputs;
    let flushed = serve_sessions(rt, site, event_loop, ends, group);
    end_all(rt, context, news, started, flushed)
}

/// Has the threads beside the loop end, and waits for the one that prints the reports.
fn end_all<J, R, E, T>(
    rt: &R,
    context: &SiteContext<'_, E, T>,
    news: &News<J>,
    started: StartedThreads,
    flushed: Result<Published<J>, NotKept>,
) -> EndedThreads<J>
where
    J: Naming,
    R: Threads + Wait,
    E: Drain,
    T: SessionHooks,
{
    let StartedThreads {
        reports,
        page_waker,
        is_refused,
    } = started;
    context.stop.ask(rt);
    wake(&page_waker);
    close(rt, news, &flushed);
    EndedThreads {
        flushed,
        printed: joined(rt, reports),
        is_refused,
    }
}

/// Asks the site to stop if a thread was refused.
fn stop_where<R: Wait, E: Drain, T: SessionHooks>(
    rt: &R,
    context: &SiteContext<'_, E, T>,
    is_refused: bool,
) {
    if is_refused {
        context.stop.ask(rt);
    }
}

/// Wakes the thread that serves browsers.
fn wake(page_waker: &Option<Waker>) {
    if let Some(page_waker) = page_waker {
        let _woken = page_waker.wake();
    }
}

/// What the printing of reports left.
fn joined<R: Threads + Wait>(rt: &R, reports: Option<JoinHandle<Printed>>) -> Option<Printed> {
    match reports {
        Some(reports) => Some(reports.join(rt)),
        None => None,
    }
}

/// Prints the reports of the site.
fn run_reports<R: Wait + Clock, W: Drain + Drop, E: Drain, T: SessionHooks, J: Naming>(
    rt: &R,
    context: &SiteContext<'_, E, T>,
    first: InForce,
    news: &News<J>,
    window: OwnWindow<J>,
    output: W,
) -> Printed {
    let printer = ReportPrinter::new(
        context.alloc,
        context.gate_follower(first),
        context.options.prints,
        window,
        output,
    );
    print_reports(rt, printer, news, &context.errors)
}

/// Where browsers connect to, with the names by which they may call this machine, and what wakes the thread that serves
/// there.
fn page_parts(page: Option<PageSetup>) -> (Option<(PageEndpoint, Vec<String>)>, Option<Waker>) {
    match page {
        Some(
            PageSetup {
                endpoint,
                waker,
                hosts,
            },
        ) => (Some((endpoint, hosts)), Some(waker)),
        None => (None, None),
    }
}

/// Serves the pages of the site.
fn run_pages<R, E, T, J>(
    rt: &R,
    context: &SiteContext<'_, E, T>,
    first: InForce,
    endpoint: (PageEndpoint, Vec<String>),
    window: OwnWindow<J>,
)
where
    R: Wait + Clock,
    E: Drain,
    T: SessionHooks,
    J: Naming,
{
    let (endpoint, hosts) = endpoint;
    let page_context = PageContext {
        rt,
        alloc: context.alloc,
        metrics: &context.metrics,
        site: context.options.guard.own,
        start: context.options.start,
        workers: context.options.workers,
        peers: context.options.peers.as_slice(),
    };
    let follower = context.gate_follower(first);
    show_pages(
        page_context,
        follower,
        endpoint,
        hosts.as_slice(),
        context.stop,
        window,
    );
}

/// Pulls from a share of the peers, and notes whether another process takes in as this site.
fn run_puller<R, E, T, J>(
    rt: &R,
    context: &SiteContext<'_, E, T>,
    waker: &Waker,
    peers: Vec<Peer>,
    puller: Puller<J>,
)
where
    R: Wait + Clock + Net<Stream = TcpStream>,
    E: Drain,
    T: SessionHooks,
    J: Naming,
{
    let port = PullPort::new(rt, context.alloc, waker, puller);
    if is_start_taken_after(rt, context, peers, port) {
        context.is_start_taken.store(true, Ordering::SeqCst);
    }
}

/// Pulls from a share of the peers through a port. Returns whether another process takes in as this site.
fn is_start_taken_after<R, E, T, J>(
    rt: &R,
    context: &SiteContext<'_, E, T>,
    peers: Vec<Peer>,
    port: PullPort<'_, R, J>,
) -> bool
where
    R: Wait + Clock + Net<Stream = TcpStream>,
    E: Drain,
    T: SessionHooks,
    J: Naming,
{
    let pulling = pulling_of(context);
    let mut port = behind_guard(context, port);
    pull_from_peers(rt, &pulling, peers, &context.errors, &mut port);
    port.sink().is_start_taken()
}

/// A sink behind the guard of the site.
fn behind_guard<'g, E: Drain, T: SessionHooks, K: Sink>(
    context: &'g SiteContext<'_, E, T>,
    sink: K,
) -> Guarded<'g, K>
    ensures { (guard_in result ≡ context.now.options.guard) × (sink_in result ≡ sink) }
{
    Guarded::new(&context.options.guard, sink)
}

/// The settings of pulls.
fn pulling_of<'a, E: Drain, T: SessionHooks>(context: &'a SiteContext<'_, E, T>) -> Pulling<'a, T> {
    Pulling {
        alloc: context.alloc,
        addresses: context.options.peers.as_slice(),
        admission: context.admission(),
        pause: context.options.pause,
        patience: Patience {
            limit: Duration::from_millis(PULL_PATIENCE_MS),
            idle: Some(Duration::from_millis(PULL_PATIENCE_MS)),
        },
        stop: context.stop,
        metrics: &context.metrics,
    }
}

/// Runs a worker.
fn run_worker<R, E, T, J>(
    rt: &R,
    context: &SiteContext<'_, E, T>,
    first: InForce,
    waker: &Waker,
    worker: Worker<J>,
)
where
    R: Wait,
    E: Drain,
    T: SessionHooks,
    J: Naming,
{
    let worker_context = worker_context_of(rt, context);
    do_jobs(&worker_context, context.gate_follower(first), worker, waker);
}

/// What a worker shares with the other threads.
fn worker_context_of<'a, R, E: Drain, T: SessionHooks>(
    rt: &'a R,
    context: &'a SiteContext<'_, E, T>,
) -> WorkerContext<'a, R, E, T> {
    WorkerContext {
        rt,
        alloc: context.alloc,
        admission: context.admission(),
        metrics: &context.metrics,
        errors: &context.errors,
        hooks: context.hooks,
    }
}

/// Brings the news of the last publish, and then closes the news.
fn close<R: Wait, J: Naming>(rt: &R, news: &News<J>, flushed: &Result<Published<J>, NotKept>) {
    if let Ok(Ok(receipt)) = flushed {
        news.bring(rt, receipt);
    }
    news.close(rt);
}
