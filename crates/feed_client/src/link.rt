//! The connection to the site that is fed.

ghost use Rattle.std.specs.Prelude.{◌≡◌};
ghost use Rattle.feed_client.specs.Dialing.{ending_of_dial};

use super::answer_reader::AnswerReader;
use super::session::patience;
use byte_ends::Ends;
use event_feed::FeedFault;
use sealed_ends::{LinkDrain, LinkSource};
use sealed_link::{DialFault, dialed};
use site_address::{Address, HostPort};
use site_net::{PatientWriter, Stop, connected, connected_to_host};
use std::alloc::Global;
use std::net::{Net, TcpStream};
use std::random::RandomSource;
use std::sync::Wait;
use std::time::Clock;

/// Which site is fed.
#[derive(Drop)]
pub enum FedSite<'a> {
    /// The one that answers at an address of this machine.
    Here(Address<'a>),
    /// The one that answers at a port of a host, over a connection that is sealed.
    There {
        at: HostPort<'a>,
        /// The secret of the key by which it is dialed.
        secret: [u8; 32],
    },
}

/// Where the site's answers come from.
pub type FeedSource<'a, R> = LinkSource<Ends<AnswerReader<'a, R>>>;

/// Where what the site is asked goes to.
pub type FeedDrain<'a, R> = LinkDrain<Ends<PatientWriter<'a, R>>>;

/// Both ends of a connection to the site.
#[derive(Drop)]
pub struct Link<'a, R: Wait + Clock> {
    pub source: FeedSource<'a, R>,
    pub drain: FeedDrain<'a, R>,
}

/// A connection to the site, before anything is said; nothing where none answers.
pub fn reached<R: Net<Stream = TcpStream>>(rt: &R, site: &FedSite<'_>) -> Option<TcpStream> {
    let stream = match site {
        FedSite::Here(address) => connected(rt, *address, patience()),
        FedSite::There { at, .. } => connected_to_host(rt, *at, patience()),
    };
    stream.ok()
}

/// The ends of a connection, sealed where the site is on another machine.
pub fn linked<'a, R: Wait + Clock + RandomSource>(
    rt: &'a R,
    alloc: Global,
    site: &FedSite<'_>,
    stream: &'a TcpStream,
    stop: &'a Stop,
) -> Result<Link<'a, R>, FeedFault> {
    let Ok(writer) = PatientWriter::new(rt, stream, patience()) else {
        return Err(FeedFault::Ended);
    };
    let source = Ends::new(AnswerReader::new(rt, stream, stop));
    let drain = Ends::new(writer);
    match site {
        FedSite::Here(_) => Ok(Link {
            source: LinkSource::Plain(source),
            drain: LinkDrain::Plain(drain),
        }),
        FedSite::There { secret, .. } => sealed(rt, alloc, secret, source, drain),
    }
}

/// The ends of a connection that is sealed by a secret, as one that comes in from no site.
fn sealed<'a, R: Wait + Clock + RandomSource>(
    rt: &'a R,
    alloc: Global,
    secret: &[u8; 32],
    source: Ends<AnswerReader<'a, R>>,
    drain: Ends<PatientWriter<'a, R>>,
) -> Result<Link<'a, R>, FeedFault> {
    let mut nonce = [0; 16];
    if rt.fill_bytes(&mut nonce).is_err() {
        return Err(FeedFault::Ended);
    }
    match dialed(alloc, secret, 0, nonce, source, drain) {
        Ok((source, drain)) => Ok(Link { source, drain }),
        Err(fault) => Err(ending_of_dial(fault)),
    }
}

/// The fault of a feed for a failed handshake.
fn ending_of_dial(fault: DialFault) -> FeedFault
    ensures { result ≡ ending_of_dial fault }
{
    match fault {
        DialFault::ReadFault | DialFault::WriteFault | DialFault::BadAnswer => FeedFault::Ended,
        DialFault::NoKey => FeedFault::NoKey,
        DialFault::NotProved => FeedFault::NotProved,
        DialFault::NoMemory => FeedFault::NoMemory,
    }
}
