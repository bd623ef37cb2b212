//! What the arguments of `serve` say.

ghost use Rattle.std.specs.Prelude.{◌≡◌, IfNone, IfOk, IfSome, MatchBool, codes};
ghost use Rattle.command_tree.specs.Rows.{rows_in};
ghost use Rattle.command_line.specs.Asking.{AreOptions, GivesMode, GivesPrinting, HasStart, ArgumentsSay, serve};
ghost use Rattle.command_line.specs.Values.{Finds, GivesHosts, GivesPaths};
ghost use Rattle.command_line.specs.declared.asked.ServeWords.{ServeWords};

use super::addresses::{any_page_in, hosts_in, lacks_keys, names_a_peer_twice, paths_in, peers_in};
use super::asked::{Asked, Printing, ServeWords, SocketMode};
use super::feeds::names_in;
use super::numbers::{any_long_in, any_short_in, number_in, short_in, shorts_in};
use command_tree::{CONNECTIONS, IDLE, PAUSE, PORT, SESSIONS, SITE, SITES, START, Values, WORKERS};
use site_address::{HostPort, PeerAddress};
use std::alloc::{AllocError, Global};

/// `serve GATE [PEER].. --site N [option]..`
pub fn serve_in<'a>(alloc: Global, values: &Values<'a>) -> Result<Option<Asked<'a>>, AllocError>
    ensures { IfOk result (Finds (ArgumentsSay serve (rows_in values.now))) }
{
    let Some(peers) = peers_in(alloc, values, "PEER")? else {
        return Ok(None);
    };
    let Some(places) = places_in(alloc, values)? else {
        return Ok(None);
    };
    let Some(sites) = shorts_in(alloc, values, SITES)? else {
        return Ok(None);
    };
    if lacks_start(values) || lacks_keys(values) || names_a_peer_twice(values) {
        return Ok(None);
    }
    let http_hosts = names_in(alloc, values, "http-host")?;
    match serving_in(values, peers, places, sites, http_hosts) {
        Some(words) => Ok(Some(Asked::Serve(words))),
        None => Ok(None),
    }
}

/// Where a site listens, but for the loopback.
#[derive(Drop)]
struct Places<'a> {
    sockets: Vec<&'a str>,
    hosts: Vec<HostPort<'a>>,
}

/// Where a site listens, but for the loopback; none where a word names no such place.
fn places_in<'a>(alloc: Global, values: &Values<'a>) -> Result<Option<Places<'a>>, AllocError>
    ensures { IfOk result (Finds (λ places. GivesPaths (rows_in values.now) (codes "listen") places.sockets.items
        × GivesHosts (rows_in values.now) (codes "listen") places.hosts.items)) }
{
    let Some(hosts) = hosts_in(alloc, values, "listen")? else {
        return Ok(None);
    };
    match paths_in(alloc, values, "listen") {
        Ok(sockets) => Ok(Some(Places { sockets, hosts })),
        Err(error) => Err(error),
    }
}

/// What a site with these peers is run with, which listens at these places and takes in operations of these sites, and
/// which browsers may call by these names.
fn serving_in<'a>(
    values: &Values<'a>,
    peers: Vec<PeerAddress<'a>>,
    places: Places<'a>,
    sites: Vec<u16>,
    http_hosts: Vec<String>,
) -> Option<ServeWords<'a>>
    ensures some { IfSome result (λ words. AreOptions (rows_in values.now) words × (words.peers ≡ peers.entry)
        × (words.sockets ≡ places.entry.sockets) × (words.hosts ≡ places.entry.hosts) × (words.sites ≡ sites) × (words.http_hosts ≡ http_hosts)) }
    ensures none { IfNone result ((words : ServeWords) → ¬ AreOptions (rows_in values.now) words) }
{
    let Places { sockets, hosts } = places;
    Some(ServeWords {
        gate: values.text("GATE")?,
        peers,
        sites,
        site: short_in(values, SITE)?,
        start: any_long_in(values, START)?,
        port: any_short_in(values, PORT)?,
        sockets,
        hosts,
        mode: mode_in(values)?,
        keys: values.text("keys"),
        workers: number_in(values, WORKERS)? as usize,
        pause_ms: number_in(values, PAUSE)?,
        sessions: number_in(values, SESSIONS)?,
        idle_ms: number_in(values, IDLE)?,
        connections: number_in(values, CONNECTIONS)? as usize,
        until_input_ends: values.flag("until-input-ends"),
        prints: printing_in(values)?,
        log_time: values.flag("log-time"),
        http: any_page_in(values, "http")?,
        http_hosts,
        load: values.text("load"),
        save: values.text("save"),
        journal: values.text("journal"),
    })
}

/// What a site prints; none where the word says nothing of it.
pub fn printing_in(values: &Values<'_>) -> Option<Printing>
    ensures { Finds (GivesPrinting (rows_in values.now)) result }
{
    match values.text("print")? {
        "report" => Some(Printing::Report),
        "changes" => Some(Printing::Changes),
        "none" => Some(Printing::Nothing),
        _ => None,
    }
}

/// Who may connect to a site's sockets; none where the word says nothing of it.
pub fn mode_in(values: &Values<'_>) -> Option<SocketMode>
    ensures { Finds (GivesMode (rows_in values.now)) result }
{
    match values.text("mode")? {
        "600" => Some(SocketMode::Owner),
        "660" => Some(SocketMode::Group),
        _ => None,
    }
}

/// Whether neither a start nor a journal is named.
pub fn lacks_start(values: &Values<'_>) -> bool
    ensures { MatchBool result (¬ HasStart (rows_in values.now)) (HasStart (rows_in values.now)) }
{
    values.text("start").is_none() && values.text("journal").is_none()
}
