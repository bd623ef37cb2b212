//! The metrics of the peers of a site.

ghost use Rattle.std.specs.Prelude.{◌≡◌, ◌++◌, flat_map};
ghost use Rattle.markup_text.specs.Growing.{Adds};
ghost use Rattle.page_text.specs.Metrics.{figure_text, flag, peer_age_text, peers_text};
ghost use Rattle.page_text.specs.Samples.{family};

use super::facts::PeerFacts;
use super::lines::Lines;
use super::samples::{add_family, add_peer, add_peer_milliseconds};

/// The metrics of each peer.
#[derive(Clone, Copy)]
pub enum Figure {
    /// 1 where the last pull reached it, else 0.
    Reached,
    /// How long ago the last whole pull ended, if one did.
    Age,
    /// How many pulls were whole.
    Pulls,
    /// How many pulls failed.
    Failures,
}

/// Adds the metrics of the peers, each named as on the command line.
pub fn add_peers(text: &mut Lines, peers: &[PeerFacts])
    ensures { Adds (peers_text peers.now) text.old text.new }
{
    add_figures(
        text,
        "reviewgate_peer_up",
        "gauge",
        "Whether the last pull reached the peer.",
        peers,
        Figure::Reached,
    );
    add_figures(
        text,
        "reviewgate_peer_last_pull_age_seconds",
        "gauge",
        "Seconds since the last whole pull ended.",
        peers,
        Figure::Age,
    );
    add_figures(
        text,
        "reviewgate_peer_pulls_total",
        "counter",
        "Whole pulls since the start.",
        peers,
        Figure::Pulls,
    );
    add_figures(
        text,
        "reviewgate_peer_pull_failures_total",
        "counter",
        "Pulls that failed since the start.",
        peers,
        Figure::Failures,
    );
}

/// Adds a metric with a sample of each peer.
fn add_figures<'a>(
    text: &mut Lines,
    name: &'a str,
    kind: &'a str,
    help: &'a str,
    peers: &[PeerFacts],
    figure: Figure,
)
    ensures { Adds (family name.now kind.now help.now ++ flat_map (figure_text name.now figure) peers.now) text.old
        text.new }
{
    add_family(text, name, kind, help);
    add_samples(text, name, peers, figure);
}

/// Adds a sample of each peer.
fn add_samples(text: &mut Lines, name: &str, peers: &[PeerFacts], figure: Figure)
    ensures { Adds (flat_map (figure_text name.now figure) peers.now) text.old text.new }
{
    for peer in peers {
        add_sample(text, name, peer, figure);
    }
}

/// Adds the sample of a peer, where there is one.
fn add_sample(text: &mut Lines, name: &str, peer: &PeerFacts, figure: Figure)
    ensures { Adds (figure_text name.now figure peer.now) text.old text.new }
{
    let named = peer.peer.as_str();
    match figure {
        Figure::Reached => add_peer(text, name, named, flag(peer.is_reachable)),
        Figure::Age => add_peer_age(text, name, named, peer.good_ms),
        Figure::Pulls => add_peer(text, name, named, peer.pulls),
        Figure::Failures => add_peer(text, name, named, peer.failures),
    }
}

/// 1 where it holds.
fn flag(holds: bool) -> u64
    ensures { result ≡ flag holds }
{
    if holds { 1 } else { 0 }
}

/// Adds how long ago something was of a peer, where it was.
fn add_peer_age(text: &mut Lines, name: &str, peer: &str, age_ms: Option<u64>)
    ensures { Adds (peer_age_text name.now peer.now age_ms) text.old text.new }
{
    match age_ms {
        Some(age_ms) => add_peer_milliseconds(text, name, peer, age_ms),
        None => {}
    }
}
