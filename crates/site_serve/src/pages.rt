//! Shows a site to browsers, through a window of its own.

ghost use Rattle.std.specs.Prelude.{◌≡◌, IfOk, IfSome};
ghost use Rattle.std.specs.Option.{ForSome};
ghost use Rattle.site_serve.specs.InForce.{followed_gate};
ghost use Rattle.site_serve.specs.Pages.{IsPageOf, ShowsMoment};
ghost use Rattle.site_shared.specs.Accounts.{GoesOn};
ghost use Rattle.page_routes.specs.declared.page.Status.TheVariants.{Unavailable};

use super::gate_follower::GateFollower;
use super::kept_verdicts::up_to_date_watch;
use super::metrics::{JournalMetrics, Metrics, PeerMetrics, PullOutcome, millis};
use super::opening::{OwnWatch, OwnWindow};
use gate_rules::Gate;
use page_routes::{Kind, Page, Route, Status};
use page_server::{PageEndpoint, Pages, serve_pages};
use page_text::{Facts, JournalFacts, PeerFacts, page_of, same_page};
use ready_core::Verdicts;
use replica_core::Replica;
use site_address::PeerAddress;
use site_net::Stop;
use site_shared::{Naming, RefreshFault, Viewer, WindowFault};
use std::alloc::{AllocError, Global};
use std::sync::Wait;
use std::time::{Clock, Duration, Instant};
use std::{io, thread};

/// For how many milliseconds the desk may take no turn before the site isn't well.
const ASLEEP_MS: u64 = 1_000;

/// How many times as long as a page took to make its thread looks at nothing before the next one, if anything was
/// published since. A publish may have to wait for a window that is looked through, so that pages hold up takes for a
/// tenth of the time.
const REST: u32 = 9;

/// The longest such rest in milliseconds.
const LONGEST_REST_MS: u64 = 1_000;

/// What pages are made from, beside the record.
#[derive(Drop)]
pub(super) struct PageContext<'a, R> {
    pub rt: &'a R,
    pub alloc: Global,
    pub metrics: &'a Metrics,
    pub site: u16,
    pub start: u32,
    /// How many workers there are.
    pub workers: usize,
    /// The addresses of the peers, in the order of their metrics.
    pub peers: &'a [PeerAddress<'a>],
}

/// Shows a site to browsers, each page under the gate that is in force when it is made, to this machine and to hosts of
/// these names, until the stop is asked. Where memory is refused for that nothing is shown.
pub(super) fn show_pages<R: Wait + Clock, J: Naming>(
    context: PageContext<'_, R>,
    follower: GateFollower<'_>,
    endpoint: PageEndpoint,
    hosts: &[String],
    stop: &Stop,
    window: OwnWindow<J>,
) {
    let (rt, alloc) = (context.rt, context.alloc);
    let pages = SitePages {
        context,
        follower,
        window,
        kept: None,
        next: Duration::ZERO,
        publishes: 0,
        requests: 0,
        refused_hosts: 0,
        update_us: 0,
    };
    let _unserved = serve_pages(rt, alloc, endpoint, hosts, stop, pages);
}

/// Makes the pages of a site.
#[derive(Drop)]
struct SitePages<'a, R: Wait + Clock, J: Naming> {
    context: PageContext<'a, R>,
    follower: GateFollower<'a>,
    window: OwnWindow<J>,
    kept: Option<OwnWatch<J>>,
    /// When the next look may begin, from the beginning of the site, unless nothing was published since the last one.
    next: Duration,
    /// How many publishes there were when the last look ended.
    publishes: u64,
    requests: u64,
    refused_hosts: u64,
    update_us: u64,
    ghost same_gate: { ForSome kept (λ watch. watch.watch.gate ≡ followed_gate follower) },
}

impl<R: Wait + Clock, J: Naming> Pages for SitePages<'_, R, J> {
    ghost use Rattle.site_serve.specs.InForce.{followed_gate};
    ghost use Rattle.site_serve.specs.Pages.{ShowsSite};

    ghost pages = { λ old route page new. GoesOn old.window.window new.window.window
        × ShowsSite (followed_gate new.follower) new.window.window.seen route page };

    ghost moves = { λ old new. GoesOn old.window.window new.window.window };

    fn page(&mut self, route: &Route) -> Result<Page, AllocError> {
        self.requests = self.requests.saturating_add(1);
        if matches!(route, Route::Health) && self.is_asleep() {
            let page = unwell(self.context.alloc, "the desk takes no turn\n")?;
            return Ok(page);
        }
        if let Some(same) = same_page(self.context.alloc, route)? {
            return Ok(same);
        }
        let now = self.awaited();
        let facts = self.facts(now)?;
        let shown = self.show(route, &facts);
        self.next = next_look(self.context.rt, self.context.metrics, now);
        self.publishes = self.context.metrics.publishes();
        let page = shown?;
        Ok(page)
    }

    fn refused_host(&mut self) {
        self.refused_hosts = self.refused_hosts.saturating_add(1);
    }
}

impl<R: Wait + Clock, J: Naming> SitePages<'_, R, J> {
    /// The page of what the window sees, under the gate that is in force now.
    fn show(&mut self, route: &Route, facts: &Facts) -> Result<Page, AllocError>
        ensures later { GoesOn self.old.window.window self.new.window.window }
        ensures page { IfOk result
            (λ page. ShowsMoment (followed_gate self.new.follower) facts.now self.new.window.window.seen route.now page) }
    {
        self.follower.follow(self.context.rt, &mut self.kept);
        let begun = Instant::now(self.context.rt);
        match up_to_date_watch(
            self.follower.in_force.gate(),
            &mut self.window,
            self.kept.take(),
        ) {
            Ok(watch) => {
                self.update_us = micros_since(self.context.rt, begun, self.update_us);
                self.show_watched(route, facts, watch)
            }
            Err(fault) => no_page(self.context.alloc, fault),
        }
    }

    /// The page of what the window sees, by a watch that is kept from now on.
    fn show_watched(
        &mut self,
        route: &Route,
        facts: &Facts,
        watch: OwnWatch<J>,
    ) -> Result<Page, AllocError>
        requires { watch.watch.gate ≡ followed_gate self.old.follower }
        ensures later { GoesOn self.old.window.window self.new.window.window }
        ensures page { IfOk result
            (λ page. ShowsMoment (followed_gate self.new.follower) facts.now self.new.window.window.seen route.now page) }
    {
        let mut watch = watch;
        let mut viewing = Viewing {
            alloc: self.context.alloc,
            route,
            gate: self.follower.in_force.gate(),
            facts,
            page: None,
        };
        let shown = self.window.show(&mut watch, &mut viewing);
        self.kept = Some(watch);
        match shown {
            Ok(()) => viewing.page.ok_or(AllocError),
            Err(RefreshFault::NoMemory) => Err(AllocError),
            Err(RefreshFault::Stranger | RefreshFault::Closed) => {
                no_page(self.context.alloc, WindowFault::Closed)
            }
        }
    }

    /// How long the site has run, once the next look may begin.
    fn awaited(&self) -> Duration {
        let PageContext { rt, metrics, .. } = &self.context;
        let now = metrics.now(*rt).unwrap_or(self.next);
        if now >= self.next || metrics.publishes() == self.publishes {
            return now;
        }
        thread::sleep(*rt, self.next.saturating_sub(now));
        self.next
    }

    /// Whether the desk has taken no turn for a second.
    fn is_asleep(&self) -> bool {
        let PageContext { rt, metrics, .. } = &self.context;
        match metrics.now(*rt) {
            Some(now) => metrics.since_turn(now) > Duration::from_millis(ASLEEP_MS),
            None => false,
        }
    }

    /// What is known of the site beside its record.
    fn facts(&self, now: Duration) -> Result<Facts, AllocError> {
        let peers = self.peers(now)?;
        let metrics = self.context.metrics;
        Ok(Facts {
            site: self.context.site,
            start: self.context.start,
            age_ms: 0,
            news_ms: since(metrics.since_news(now)),
            peers,
            sessions: metrics.sessions(),
            workers: self.context.workers as u64,
            busy_workers: metrics.looking(),
            session_faults: metrics.session_faults(),
            refused_connections: metrics.refused_connections(),
            journal: journal_facts(metrics.journal()),
            heard_ms: since(metrics.since_heard(now)),
            publishes: metrics.publishes(),
            requests: self.requests,
            refused_hosts: self.refused_hosts,
            update_us: self.update_us,
        })
    }

    /// What is known of the peers.
    fn peers(&self, now: Duration) -> Result<Vec<PeerFacts>, AllocError> {
        let alloc = self.context.alloc;
        let notes = self.context.metrics.peers(self.context.rt, alloc)?;
        peers_of(alloc, self.context.peers, notes.as_slice(), now)
    }
}

/// A look at a record, and the page that is made of it.
#[derive(Drop)]
struct Viewing<'a> {
    alloc: Global,
    route: &'a Route,
    gate: &'a Gate,
    facts: &'a Facts,
    page: Option<Page>,
}

impl Viewer for Viewing<'_> {
    ghost judged_by = { λ viewing. viewing.gate.now };

    ghost views = { λ old journal judged new.
        IfSome new.page (IsPageOf old.gate.now old.facts.now journal judged old.route.now) };

    fn view(&mut self, replica: &Replica, verdicts: &Verdicts) {
        let page = page_of(
            self.alloc, self.route, self.gate, replica, verdicts, self.facts,
        );
        self.page = match page {
            Ok(page) => Some(page),
            Err(_) => None,
        };
    }
}

/// When the next look may begin after one that was begun then.
fn next_look<R: Clock>(rt: &R, metrics: &Metrics, begun: Duration) -> Duration {
    let now = metrics.now(rt).unwrap_or(begun);
    let rest = now
        .saturating_sub(begun)
        .saturating_mul(REST)
        .min(Duration::from_millis(LONGEST_REST_MS));
    now.saturating_add(rest)
}

/// How many microseconds have passed since then; the other number where the clock can't be read.
fn micros_since<R: Clock>(rt: &R, begun: io::Result<Instant>, other: u64) -> u64 {
    match begun.and_then(|begun| begun.elapsed(rt)) {
        Ok(passed) => u64::try_from(passed.as_micros()).unwrap_or(u64::MAX),
        Err(_) => other,
    }
}

/// What is answered where the window shows nothing.
fn no_page(alloc: Global, fault: WindowFault) -> Result<Page, AllocError>
    ensures { IfOk result (λ page. page.status ≡ Unavailable) }
{
    match fault {
        WindowFault::NoMemory => Err(AllocError),
        WindowFault::Closed => unwell(alloc, "the site has ended\n"),
    }
}

/// A page that says why the site can't show itself.
fn unwell(alloc: Global, why: &str) -> Result<Page, AllocError>
    ensures { IfOk result (λ page. page.status ≡ Unavailable) }
{
    let body = String::from_str(alloc, why)?;
    Ok(Page {
        status: Status::Unavailable,
        kind: Kind::Plain,
        body: body.into_bytes(),
    })
}

/// What is known of the peers now.
fn peers_of(
    alloc: Global,
    addresses: &[PeerAddress<'_>],
    notes: &[PeerMetrics],
    now: Duration,
) -> Result<Vec<PeerFacts>, AllocError> {
    let mut peers = Vec::with_capacity(alloc, notes.len())?;
    for (address, note) in addresses.iter().zip(notes) {
        let peer = text_of(alloc, *address)?;
        peers.push(peer_facts(peer, note, now))?;
    }
    Ok(peers)
}

/// The address of a peer.
fn text_of(alloc: Global, address: PeerAddress<'_>) -> Result<String, AllocError> {
    let mut text = String::new(alloc);
    address.write(&mut text)?;
    Ok(text)
}

/// What is known of a peer with this address now.
fn peer_facts(peer: String, note: &PeerMetrics, now: Duration) -> PeerFacts {
    let last_complete = note.last_complete.map(|then| now.saturating_sub(then));
    PeerFacts {
        peer,
        is_reachable: note.outcome == PullOutcome::Complete,
        condition_ms: millis(now.saturating_sub(note.since)),
        good_ms: since(last_complete),
        pulls: note.pulls,
        failures: note.failures,
    }
}

/// What is known of the journal, if there is one.
fn journal_facts(note: Option<JournalMetrics>) -> Option<JournalFacts> {
    let JournalMetrics { bytes, syncs } = note?;
    Some(JournalFacts { bytes, syncs })
}

/// How long ago something was in milliseconds, if it was.
fn since(passed: Option<Duration>) -> Option<u64> {
    match passed {
        Some(passed) => Some(millis(passed)),
        None => None,
    }
}
