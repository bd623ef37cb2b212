//! A feed of a site over a connection.

use super::holding::{AnswerFeed, feed_answer};
use super::inlet::{Inlet, start_reading};
use super::inlet_reader::InletReader;
use super::link::{FedSite, linked, reached};
use super::listing::{Listing, complete_site};
use super::noted::Noted;
use super::pull::pull_all;
use super::session::{Place, Session};
use super::site_feed::{SiteFeed, feed_site};
use super::watch::is_over;
use byte_ends::{Drain, Ends, Source};
use event_feed::{FeedFault, send};
use footer_text::Bases;
use gerrit_events::Projects;
use site_net::Stop;
use state_core::State;
use std::alloc::Global;
use std::net::{Net, TcpStream};
use std::random::RandomSource;
use std::sync::{Arc, Wait};
use std::thread::Threads;
use std::time::Clock;

/// What a feed of a site reads.
#[derive(Clone, Copy, Debug, PartialEq, Eq)]
pub enum Feeds {
    /// Events, as long as they come.
    Stream,
    /// The answer of a query.
    Query,
    /// The answer to a query that lists every open change.
    Complete,
}

/// Which site is fed, and how.
#[derive(Drop)]
pub struct FeedOrder<'a> {
    /// The site.
    pub site: FedSite<'a>,
    pub feeds: Feeds,
    /// Whose changes are fed.
    pub projects: Projects,
    /// The bases under which footers name changes, so that unknown ones are queried; `None` without a gate file.
    pub bases: Option<Bases>,
}

/// What a feed reads, and where a thread of its own leaves it.
#[derive(Drop)]
struct Reading<I> {
    input: I,
    inlet: Arc<Inlet, Global>,
}

/// Feeds the lines of an input to a site, as `feed_site`, `feed_answer` and `complete_site` do, over a connection that
/// is sealed where the site is on another machine. Its record is pulled first, of which the state is kept, and then
/// `pulled N` is written to the output: the record has N operations. Only then the input is read, by a thread of its
/// own. The whole feed is one session, which ends with `quit` and `bye`. A feed of a stream pulls again over it, from
/// its front, whenever its input was silent for a second, or the last pull was a second ago. If the session ends, so
/// does the feed within a tenth of a second, even while the input is silent. Refusals, beside those of `feed_site`,
/// `feed_answer` and `complete_site`: 7 `NoSite`, no site answers at the address; 8 `Ended`, also where the system gives
/// no random bytes for sealing; 10 `NoKey`, the site has no such key; 11 `NotProved`, what answers didn't prove that it
/// has it; 12 `NotAllowed`, the key may only read; 13 `NoEnd`, more than 256 operations lie past a gap of the site's
/// record.
pub fn feed_to<R, I, O, E>(
    rt: R,
    alloc: Global,
    order: FeedOrder<'_>,
    input: I,
    output: &mut O,
    errors: &mut E,
) -> Result<(), FeedFault>
where
    R: Net<Stream = TcpStream> + Threads + Wait + Clock + RandomSource + Copy + Send + 'static,
    I: Source + Send + Drop + 'static,
    O: Drain,
    E: Drain,
{
    match reached(&rt, &order.site) {
        Some(stream) => feed_over(rt, alloc, order, &stream, input, output, errors),
        None => Err(FeedFault::NoSite),
    }
}

/// Feeds a site over a connection, with an inlet for the input, which is closed in the end.
fn feed_over<R, I, O, E>(
    rt: R,
    alloc: Global,
    order: FeedOrder<'_>,
    stream: &TcpStream,
    input: I,
    output: &mut O,
    errors: &mut E,
) -> Result<(), FeedFault>
where
    R: Threads + Wait + Clock + RandomSource + Copy + Send + 'static,
    I: Source + Send + Drop + 'static,
    O: Drain,
    E: Drain,
{
    let Ok(inlet) = Arc::new(alloc, Inlet::new()) else {
        return Err(FeedFault::NoMemory);
    };
    let Ok(theirs) = Arc::try_clone(&inlet) else {
        return Err(FeedFault::NoMemory);
    };
    let reading = Reading {
        input,
        inlet: theirs,
    };
    let place = Place {
        stream,
        inlet: &inlet,
    };
    let ended = feed_session(rt, alloc, order, place, reading, output, errors);
    inlet.close(&rt);
    ended
}

/// Feeds a site over a session that is opened on a connection.
fn feed_session<R, I, O, E>(
    rt: R,
    alloc: Global,
    order: FeedOrder<'_>,
    place: Place<'_>,
    reading: Reading<I>,
    output: &mut O,
    errors: &mut E,
) -> Result<(), FeedFault>
where
    R: Threads + Wait + Clock + RandomSource + Copy + Send + 'static,
    I: Source + Send + Drop + 'static,
    O: Drain,
    E: Drain,
{
    let stop = Stop::new();
    let link = match linked(&rt, alloc, &order.site, place.stream, &stop) {
        Ok(link) => link,
        Err(fault) => return Err(fault),
    };
    let pulls_again = order.feeds == Feeds::Stream;
    match Session::open(&rt, alloc, link, place, pulls_again) {
        Ok(session) => feed_pulled(rt, alloc, order, session, reading, output, errors),
        Err(fault) => Err(fault),
    }
}

/// Feeds a site whose session is open: pulls its record, and then reads the input.
fn feed_pulled<R, I, O, E>(
    rt: R,
    alloc: Global,
    order: FeedOrder<'_>,
    session: Session<'_, R>,
    reading: Reading<I>,
    output: &mut O,
    errors: &mut E,
) -> Result<(), FeedFault>
where
    R: Threads + Wait + Clock + Copy + Send + 'static,
    I: Source + Send + Drop + 'static,
    O: Drain,
    E: Drain,
{
    let mut session = session;
    let mut state = State::new(alloc);
    match begin(rt, alloc, &mut session, &mut state, reading, output) {
        Ok(()) => {
            let feed = SiteFeed {
                alloc,
                bases: order.bases,
                state,
                site: session,
                output,
                errors,
            };
            run(&rt, alloc, order.feeds, &order.projects, feed)
        }
        Err(fault) => Err(fault),
    }
}

/// Pulls the record of a site into a state, says so, and has the input read from then on.
fn begin<R, I, O>(
    rt: R,
    alloc: Global,
    session: &mut Session<'_, R>,
    state: &mut State,
    reading: Reading<I>,
    output: &mut O,
) -> Result<(), FeedFault>
where
    R: Threads + Wait + Clock + Copy + Send + 'static,
    I: Source + Send + Drop + 'static,
    O: Drain,
{
    let count = match pull_all(session, state) {
        Ok(count) => count,
        Err(fault) => return Err(fault),
    };
    match say_pulled(alloc, count, output) {
        Ok(()) => start(rt, alloc, reading),
        Err(fault) => Err(fault),
    }
}

/// Has the input read.
fn start<R, I>(rt: R, alloc: Global, reading: Reading<I>) -> Result<(), FeedFault>
where
    R: Threads + Wait + Copy + Send + 'static,
    I: Source + Send + Drop + 'static,
{
    if start_reading(rt, alloc, reading.input, reading.inlet) {
        Ok(())
    } else {
        Err(FeedFault::ReadFault)
    }
}

/// Says that a record of so many operations is pulled.
fn say_pulled<O: Drain>(alloc: Global, count: u64, output: &mut O) -> Result<(), FeedFault> {
    match format!(in alloc; "pulled {count}\n") {
        Ok(line) => send(output, line.as_str()),
        Err(_) => Err(FeedFault::NoMemory),
    }
}

/// Runs a feed over a session, and ends that. A read that failed as the session ended is no fault of the input.
fn run<R: Wait + Clock, O: Drain + Drop, E: Drain + Drop>(
    rt: &R,
    alloc: Global,
    feeds: Feeds,
    projects: &Projects,
    feed: SiteFeed<Session<'_, R>, O, E>,
) -> Result<(), FeedFault> {
    let place = feed.site.place();
    let mut source = Ends::new(InletReader::new(rt, alloc, place.inlet, place.stream));
    let mut listing = Listing {
        feed: AnswerFeed::new(feed),
        noted: Noted::new(alloc),
    };
    let fed = match feeds {
        Feeds::Stream => feed_site(alloc, projects, &mut source, &mut listing.feed.feed),
        Feeds::Query => feed_answer(alloc, projects, &mut source, &mut listing.feed),
        Feeds::Complete => complete_site(alloc, projects, &mut source, &mut listing),
    };
    match fed {
        Ok(()) => listing.feed.feed.site.expect("quit\n", b"bye"),
        Err(FeedFault::ReadFault) if is_over(place.stream) => Err(FeedFault::Ended),
        Err(fault) => Err(fault),
    }
}
