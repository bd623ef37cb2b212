//! The status of a site as JSON, and the server-sent events about changes.

ghost use Rattle.std.specs.Prelude.{◌≡◌, ◌∷◌, ◌++◌, IfOk, codes, flat_map, length};
ghost use Rattle.json.specs.Print.{print};
ghost use Rattle.json.specs.Token.{begin_object};
ghost use Rattle.json_line.specs.Tokens.{numbered_tokens};
ghost use Rattle.page_text.specs.Answer.{event_text};
ghost use Rattle.page_text.specs.Sheets.{NotesTokens};
ghost use Rattle.page_text.specs.Site.{ages_tokens, counts_tokens, journal_tokens, peer_tokens, peers_tokens};
ghost use Rattle.page_text.specs.Site.{site_tokens};
ghost use Rattle.page_text.specs.Site.{work_tokens};

use super::counts::{Counted, count_of};
use super::facts::{Facts, JournalFacts, PeerFacts};
use super::lines::{Lines, Part};
use super::sheet::{Mark, Sheet};
use lattice_core::NoMemory;
use ready_core::Verdicts;
use replica_core::Replica;
use std::alloc::Global;

/// The JSON text of a site's status. It costs O(n) for n bytes of it and items that are left out.
pub fn status_text(
    alloc: Global,
    replica: &Replica,
    verdicts: &Verdicts,
    facts: &Facts,
) -> Result<Vec<u8>, NoMemory>
    ensures { IfOk result (λ text. text.items ≡ print (site_tokens (length replica.now) verdicts.now facts.now)) }
{
    let mut out = Sheet::new(alloc);
    put_status(&mut out, replica, verdicts, facts);
    let text = out.end()?;
    Ok(text)
}

/// Adds the object of a site's status.
fn put_status(out: &mut Sheet, replica: &Replica, verdicts: &Verdicts, facts: &Facts)
    ensures { NotesTokens (site_tokens (length replica.now) verdicts.now facts.now) out.old out.new }
{
    put_site(out, facts.site, facts.start);
    put_counts(out, replica, verdicts);
    put_ages(out, facts);
    put_peers(out, facts.peers.as_slice());
    put_work(out, facts);
    put_journal(out, facts.journal);
    out.add(&[Mark::Key("heard_ms"), Mark::NumberIf(facts.heard_ms)]);
    out.add(&[Mark::Close]);
}

/// Begins the object with the site and its start.
fn put_site(out: &mut Sheet, site: u16, start: u32)
    ensures { NotesTokens
        (begin_object ∷ (numbered_tokens (codes "site") site ++ numbered_tokens (codes "start") start))
        out.old out.new }
{
    out.add(&[
        Mark::Open,
        Mark::Key("site"),
        Mark::Number(u64::from(site)),
        Mark::Key("start"),
        Mark::Number(u64::from(start)),
    ]);
}

/// Adds how many operations, ready items, other items and open ones of these there are.
fn put_counts(out: &mut Sheet, replica: &Replica, verdicts: &Verdicts)
    ensures { NotesTokens (counts_tokens (length replica.now) verdicts.now) out.old out.new }
{
    out.add(&[
        Mark::Key("operations"),
        Mark::Number(replica.len() as u64),
        Mark::Key("ready"),
        Mark::Number(verdicts.ready().len() as u64),
        Mark::Key("out"),
        Mark::Number(verdicts.out().len() as u64),
        Mark::Key("open_out"),
        Mark::Number(count_of(verdicts.out(), Counted::Open) as u64),
    ]);
}

/// Adds how old what is shown is, when something new came, and how many sessions are open.
fn put_ages(out: &mut Sheet, facts: &Facts)
    ensures { NotesTokens (ages_tokens facts.now) out.old out.new }
{
    out.add(&[
        Mark::Key("age_ms"),
        Mark::Number(facts.age_ms),
        Mark::Key("news_ms"),
        Mark::NumberIf(facts.news_ms),
        Mark::Key("sessions"),
        Mark::Number(facts.sessions),
    ]);
}

/// Adds the list of the peers.
fn put_peers(out: &mut Sheet, peers: &[PeerFacts])
    ensures { NotesTokens (peers_tokens peers.now) out.old out.new }
{
    out.add(&[Mark::Key("peers"), Mark::OpenList]);
    add_peers(out, peers);
    out.add(&[Mark::CloseList]);
}

/// Adds an object for each peer.
fn add_peers(out: &mut Sheet, peers: &[PeerFacts])
    ensures { NotesTokens (flat_map peer_tokens peers.now) out.old out.new }
{
    for peer in peers {
        add_peer(out, peer);
    }
}

/// Adds the object of a peer.
fn add_peer(out: &mut Sheet, peer: &PeerFacts)
    ensures { NotesTokens (peer_tokens peer.now) out.old out.new }
{
    out.add(&[
        Mark::Open,
        Mark::Key("peer"),
        Mark::Text(peer.peer.as_str()),
        Mark::Key("reachable"),
        Mark::Flag(peer.is_reachable),
        Mark::Key("condition_ms"),
        Mark::Number(peer.condition_ms),
        Mark::Key("good_ms"),
        Mark::NumberIf(peer.good_ms),
        Mark::Key("pulls"),
        Mark::Number(peer.pulls),
        Mark::Key("failures"),
        Mark::Number(peer.failures),
        Mark::Close,
    ]);
}

/// Adds what its threads do, and what went wrong since the start.
fn put_work(out: &mut Sheet, facts: &Facts)
    ensures { NotesTokens (work_tokens facts.now) out.old out.new }
{
    out.add(&[
        Mark::Key("workers"),
        Mark::Number(facts.workers),
        Mark::Key("busy_workers"),
        Mark::Number(facts.busy_workers),
        Mark::Key("session_faults"),
        Mark::Number(facts.session_faults),
        Mark::Key("refused_connections"),
        Mark::Number(facts.refused_connections),
    ]);
}

/// Adds the object of the journal, or `null` where there is none.
fn put_journal(out: &mut Sheet, journal: Option<JournalFacts>)
    ensures { NotesTokens (journal_tokens journal) out.old out.new }
{
    match journal {
        Some(journal) => out.add(&[
            Mark::Key("journal"),
            Mark::Open,
            Mark::Key("bytes"),
            Mark::Number(journal.bytes),
            Mark::Key("syncs"),
            Mark::Number(journal.syncs),
            Mark::Close,
        ]),
        None => out.add(&[Mark::Key("journal"), Mark::NumberIf(None)]),
    }
}

/// The event of how many items are ready, how many aren't, and how many operations there are. A browser asks for the
/// next one after 2 seconds.
pub fn events_text(
    alloc: Global,
    replica: &Replica,
    verdicts: &Verdicts,
) -> Result<Vec<u8>, NoMemory>
    ensures { IfOk result (λ text. text.items
        ≡ event_text (length verdicts.now.ready) (length verdicts.now.out) (length replica.now)) }
{
    let ready = verdicts.ready().len();
    let out = verdicts.out().len();
    let operations = replica.len();
    let mut text = Lines::new(alloc);
    text.add(&[
        Part::Text("retry: 2000\ndata: {\"ready\":"),
        Part::Number(ready as u64),
        Part::Text(",\"out\":"),
        Part::Number(out as u64),
        Part::Text(",\"operations\":"),
        Part::Number(operations as u64),
        Part::Text("}\n\n"),
    ]);
    let bytes = text.end()?;
    Ok(bytes)
}
