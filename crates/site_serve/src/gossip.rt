//! Pulls from peers, round after round.

use super::admission::Admission;
use super::errors::Errors;
use super::laws::sites_that_pulled_print_the_same;
use super::metrics::{Metrics, PullOutcome};
use super::port::PullPort;
use byte_ends::{Drain, Ends, Source};
use gossip_line::{LineFault, pull_run};
use key_file::KeyFault;
use key_files::KeyReader;
use sealed_ends::{LinkDrain, LinkSource};
use sealed_link::{DialFault, dialed};
use site_address::PeerAddress;
use site_net::{Patience, PatientReader, PatientWriter, Stop, connected, connected_to_host};
use site_port::Guarded;
use site_shared::Naming;
use std::alloc::Global;
use std::io;
use std::net::{Net, TcpStream};
use std::sync::Wait;
use std::time::{Clock, Duration};

/// A peer, and how the last pull from it ended.
#[derive(Drop)]
pub struct Peer {
    /// Its place among the addresses of all peers.
    pub place: usize,
    pub condition: Condition,
}

impl Peer {
    /// A peer that wasn't pulled from yet.
    pub fn at(place: usize) -> Peer {
        Peer {
            place,
            condition: Condition::Well,
        }
    }
}

/// How a pull from a peer ended.
#[derive(Clone, Copy, PartialEq)]
pub enum Condition {
    Well,
    Unreachable,
    Failed(LineFault),
    /// It reported that more is left, and handed over nothing new.
    Endless,
    /// The handshake with it failed.
    Undialed(DialFault),
    /// The key for the peer can't be used.
    Unkeyed(KeyFault),
}

/// The settings of pulls.
#[derive(Drop)]
pub struct Pulling<'a, T: KeyReader> {
    pub alloc: Global,
    /// The addresses of all peers.
    pub addresses: &'a [PeerAddress<'a>],
    /// The keys for peers on other machines.
    pub admission: Admission<'a, T>,
    /// How long to rest between two rounds.
    pub pause: Duration,
    pub patience: Patience,
    pub stop: &'a Stop,
    pub metrics: &'a Metrics,
}

/// The longest pause in seconds between two rounds of pulls from peers that can't be pulled from.
const LONGEST_PAUSE_S: u64 = 60;

/// Pulls from each peer in turn, with a rest after each round, until the site stops: a pause, which doubles with each
/// round in which no pull was complete, up to a minute. It asks for the stop if another process takes in as this site.
/// The law about complete pulls is `sites_that_pulled_print_the_same`.
pub fn pull_from_peers<R, E, T, J>(
    rt: &R,
    pulling: &Pulling<'_, T>,
    peers: Vec<Peer>,
    errors: &Errors<E>,
    port: &mut Guarded<'_, PullPort<'_, R, J>>,
)
where
    R: Wait + Clock + Net<Stream = TcpStream>,
    E: Drain,
    T: KeyReader,
    J: Naming,
{
    sites_that_pulled_print_the_same();
    let mut peers = peers;
    let mut rest = pulling.pause;
    for _ in rt.forever() {
        if pull_round(rt, pulling, peers.as_mut_slice(), errors, port) {
            rest = pulling.pause;
        } else {
            rest = longer(rest, pulling.pause);
        }
        pulling.stop.rest(rt, rest);
        if pulling.stop.is_asked() {
            return;
        }
    }
    unreachable!()
}

/// Twice the rest, but no longer than a minute, unless the pause is.
fn longer(rest: Duration, pause: Duration) -> Duration {
    let longest = Duration::from_secs(LONGEST_PAUSE_S).max(pause);
    rest.saturating_mul(2).min(longest)
}

/// Pulls from each peer once, unless the site stops. Returns whether a pull was complete.
fn pull_round<R, E, T, J>(
    rt: &R,
    pulling: &Pulling<'_, T>,
    peers: &mut [Peer],
    errors: &Errors<E>,
    port: &mut Guarded<'_, PullPort<'_, R, J>>,
) -> bool
where
    R: Wait + Clock + Net<Stream = TcpStream>,
    E: Drain,
    T: KeyReader,
    J: Naming,
{
    let mut is_any_complete = false;
    for peer in peers {
        let Some(address) = pulling.addresses.get(peer.place) else {
            return is_any_complete;
        };
        let condition = pull_from(rt, pulling, *address, port);
        let outcome = outcome_of(condition);
        is_any_complete |= outcome == PullOutcome::Complete;
        pulling.metrics.note_pull(rt, peer.place, outcome);
        if port.sink().is_start_taken() {
            pulling.stop.ask(rt);
        }
        if pulling.stop.is_asked() {
            return is_any_complete;
        }
        if condition != peer.condition {
            peer.condition = condition;
            report_condition(rt, pulling.alloc, *address, condition, errors);
        }
    }
    is_any_complete
}

/// The outcome of a pull that ended so.
fn outcome_of(condition: Condition) -> PullOutcome {
    match condition {
        Condition::Well => PullOutcome::Complete,
        _ => PullOutcome::Failed,
    }
}

/// Reports the condition of a peer: a failure, or that it is reachable again.
fn report_condition<E: Drain>(
    rt: &impl Wait,
    alloc: Global,
    peer: PeerAddress<'_>,
    condition: Condition,
    errors: &Errors<E>,
) {
    match condition {
        Condition::Well => errors.report_recovered(rt, alloc, peer),
        Condition::Unreachable => errors.report_unreachable(rt, alloc, peer),
        Condition::Failed(fault) => errors.report_pull_fault(rt, alloc, fault, peer),
        Condition::Endless => errors.report_endless_pull(rt, alloc, peer),
        Condition::Undialed(fault) => errors.report_dial_fault(rt, alloc, fault, peer),
        Condition::Unkeyed(fault) => errors.report_peer_key_fault(rt, alloc, fault, peer),
    }
}

/// Pulls from one peer, and returns how that ended.
fn pull_from<R, T, J>(
    rt: &R,
    pulling: &Pulling<'_, T>,
    peer: PeerAddress<'_>,
    port: &mut Guarded<'_, PullPort<'_, R, J>>,
) -> Condition
where
    R: Wait + Clock + Net<Stream = TcpStream>,
    T: KeyReader,
    J: Naming,
{
    let Ok(stream) = reached(rt, peer, pulling.patience) else {
        return Condition::Unreachable;
    };
    match ends_of(rt, pulling.stop, pulling.patience, &stream) {
        Ok((source, drain)) => pull_over(pulling, peer, source, drain, port),
        Err(_) => Condition::Unreachable,
    }
}

/// A connection to a peer.
fn reached<R: Net<Stream = TcpStream>>(
    rt: &R,
    peer: PeerAddress<'_>,
    patience: Patience,
) -> io::Result<TcpStream> {
    match peer {
        PeerAddress::Here(address) => connected(rt, address, patience),
        PeerAddress::There { key: _, at } => connected_to_host(rt, at, patience),
    }
}

/// The ends of a connection.
fn ends_of<'s, R: Wait + Clock>(
    rt: &'s R,
    stop: &'s Stop,
    patience: Patience,
    stream: &'s TcpStream,
) -> io::Result<(Ends<PatientReader<'s, R>>, Ends<PatientWriter<'s, R>>)> {
    let reader = PatientReader::new(rt, stream, stop, patience)?;
    let writer = PatientWriter::new(rt, stream, patience)?;
    Ok((Ends::new(reader), Ends::new(writer)))
}

/// Pulls over the ends of a connection, which are sealed where the peer is on another machine.
fn pull_over<R, T, J, S, D>(
    pulling: &Pulling<'_, T>,
    peer: PeerAddress<'_>,
    source: S,
    drain: D,
    port: &mut Guarded<'_, PullPort<'_, R, J>>,
) -> Condition
where
    R: Wait,
    T: KeyReader,
    J: Naming,
    S: Source + Drop,
    D: Drain + Drop,
{
    let PeerAddress::There { key, at: _ } = peer else {
        let (mut source, mut drain) = (source, drain);
        return pulled(pulling, &mut source, &mut drain, port);
    };
    match dialed_by(pulling, key, source, drain) {
        Ok((mut source, mut drain)) => pulled(pulling, &mut source, &mut drain, port),
        Err(condition) => condition,
    }
}

/// The ends of a sealed connection that is opened with the key of this name.
fn dialed_by<T: KeyReader, S: Source + Drop, D: Drain + Drop>(
    pulling: &Pulling<'_, T>,
    key: &str,
    source: S,
    drain: D,
) -> Result<(LinkSource<S>, LinkDrain<D>), Condition> {
    match pulling.admission.secret(key) {
        Ok(secret) => dialed_with(pulling, &secret, source, drain),
        Err(fault) => Err(Condition::Unkeyed(fault)),
    }
}

/// The ends of a sealed connection that is opened with this secret.
fn dialed_with<T: KeyReader, S: Source + Drop, D: Drain + Drop>(
    pulling: &Pulling<'_, T>,
    secret: &[u8; 32],
    source: S,
    drain: D,
) -> Result<(LinkSource<S>, LinkDrain<D>), Condition> {
    let nonce = match pulling.admission.reader.nonce() {
        Ok(nonce) => nonce,
        Err(fault) => return Err(Condition::Unkeyed(fault)),
    };
    let site = pulling.admission.site;
    match dialed(pulling.alloc, secret, site, nonce, source, drain) {
        Ok(ends) => Ok(ends),
        Err(fault) => Err(Condition::Undialed(fault)),
    }
}

/// Pulls over the two ends of a connection, and returns how that ended.
fn pulled<R: Wait, T: KeyReader, J: Naming, S: Source, D: Drain>(
    pulling: &Pulling<'_, T>,
    source: &mut S,
    drain: &mut D,
    port: &mut Guarded<'_, PullPort<'_, R, J>>,
) -> Condition {
    let before = port.sink().brought();
    match pull_run(pulling.alloc, source, drain, port) {
        Ok(pulled) if pulled.more && port.sink().brought() == before => Condition::Endless,
        Ok(_) => Condition::Well,
        Err(fault) => Condition::Failed(fault),
    }
}
