//! The records that the tests of pages use, and requests for their pages.

ghost use Rattle.state_core.specs.State.{state_of};
ghost use Rattle.ready_core.specs.Verdicts.{AreVerdicts};

use super::drawings::{are_reached, are_so_many_reached, are_waiting};
use super::lists::are_chosen_by;
use deeds::{Deed, op_of};
use gate_rules::Gate;
use page_routes::{Kind, Page, Reason, Route, Shown, Status};
use page_text::{Facts, JournalFacts, PeerFacts, page_of};
use ready_core::{Verdicts, evaluate};
use replica_core::Replica;
use std::alloc::{AllocError, Global};

/// A gate that wants two approvals on the current patch set of an open change.
const GATE: &str = r#"{"bases":["https://r/"],
"reject":{"gerrit":{"approval":{"Code-Review":[-2]},"status":"HELD"}},
"require":{"gerrit":{"status":["NEW","MERGED"],"open":true,"current-patchset":true,
"approval":[{"Workflow":1},{"username":"zuul","Verified":[1,2]}]}}}"#;

/// A gate that wants nothing.
const OPEN_GATE: &str = r#"{"bases":["https://r/"]}"#;

/// The path of a peer's socket, as no one would name it.
const PEER: &str = "/run/\"a\\<b>&\n'";

/// Change 101 is ready, 102 waits for 103, whose subject is hostile and which waits for a vote, and 104 is abandoned.
static RECORD: [(u32, Deed); 10] = [
    (
        101,
        Deed::PatchSet(1, "Fix the door\n\nIt squeaks.\n", None),
    ),
    (101, Deed::Vote(1, "Workflow", "ann", 1)),
    (101, Deed::Vote(1, "Verified", "zuul", 2)),
    (
        102,
        Deed::PatchSet(1, "Open\n\nDepends-On: https://r/103\n", Some(101)),
    ),
    (102, Deed::Vote(1, "Workflow", "ann", 1)),
    (102, Deed::Vote(1, "Verified", "zuul", 2)),
    (
        103,
        Deed::PatchSet(2, "<script>alert(\"x\")&'\u{202e}abc\n", None),
    ),
    (103, Deed::Vote(2, "Workflow", "b<b", 1)),
    (104, Deed::PatchSet(2, "Gone", None)),
    (104, Deed::Abandon),
];

/// What was done in that record, as a list.
fn given() -> &'static [(u32, Deed)] {
    &RECORD
}

/// A subject of four hundred letters and one more.
const LONG: &str = concat!(
    "aaaaaaaaaaaaaaaaaaaaaaaaaaaaaaaaaaaaaaaaaaaaaaaaaaaaaaaaaaaaaaaaaaaaaaaaaaaaaaaaaaaaaaaaaaaaaaaaaaaa",
    "aaaaaaaaaaaaaaaaaaaaaaaaaaaaaaaaaaaaaaaaaaaaaaaaaaaaaaaaaaaaaaaaaaaaaaaaaaaaaaaaaaaaaaaaaaaaaaaaaaaa",
    "aaaaaaaaaaaaaaaaaaaaaaaaaaaaaaaaaaaaaaaaaaaaaaaaaaaaaaaaaaaaaaaaaaaaaaaaaaaaaaaaaaaaaaaaaaaaaaaaaaaa",
    "aaaaaaaaaaaaaaaaaaaaaaaaaaaaaaaaaaaaaaaaaaaaaaaaaaaaaaaaaaaaaaaaaaaaaaaaaaaaaaaaaaaaaaaaaaaaaaaaaaaa",
    "B",
);

/// Changes with subjects of several kinds.
static SUBJECTS: [(u32, Deed); 7] = [
    (1, Deed::PatchSet(1, LONG, None)),
    (2, Deed::PatchSet(1, "aaab", None)),
    (3, Deed::PatchSet(1, "abABabac", None)),
    (4, Deed::PatchSet(1, "Open the DOOR", None)),
    (5, Deed::PatchSet(1, "Ärger mit der Tür", None)),
    (6, Deed::PatchSet(1, "Short\n\nand hidden words\n", None)),
    (17, Deed::PatchSet(1, "Paint it", None)),
];

/// Those changes, as a list.
fn subjects() -> &'static [(u32, Deed)] {
    &SUBJECTS
}

/// A record.
#[derive(Clone, Copy)]
pub enum Record {
    /// The first one, under the gate that wants two approvals.
    Given,
    /// The changes with subjects of several kinds, under the gate that wants nothing.
    Subjects,
    /// One in which each change from 1 on has a parent with the next number, up to the last one, which is given with
    /// its parent, under the gate that wants nothing.
    Chain(u32, u32),
    /// Such a chain, of whose last parent nothing is known but that it has merged.
    MergedEnd(u32, u32),
    /// Such a chain, of whose last parent nothing is known but a vote.
    VotedEnd(u32, u32),
}

/// The replica of a record.
fn replica(alloc: Global, record: Record) -> Option<Replica> {
    let mut replica = Replica::new(alloc);
    match take_record(alloc, &mut replica, record) {
        Some(()) => Some(replica),
        None => None,
    }
}

/// Takes a record in.
fn take_record(alloc: Global, replica: &mut Replica, record: Record) -> Option<()> {
    match record {
        Record::Given => take_deeds(alloc, replica, given()),
        Record::Subjects => take_deeds(alloc, replica, subjects()),
        Record::Chain(last, parent) => take_chain(alloc, replica, last, parent),
        Record::MergedEnd(last, parent) => {
            take_ended(alloc, replica, last, parent, Deed::Merged)
        }
        Record::VotedEnd(last, parent) => {
            let vote = Deed::Vote(1, "Workflow", "ann", 1);
            take_ended(alloc, replica, last, parent, vote)
        }
    }
}

/// Takes in what was done to changes.
fn take_deeds(alloc: Global, replica: &mut Replica, deeds: &[(u32, Deed)]) -> Option<()> {
    let mut time = 0u64;
    for (change, deed) in deeds {
        time = time.saturating_add(1);
        take(alloc, replica, time, *change, *deed)?;
    }
    Some(())
}

/// Takes in changes that are a chain.
fn take_chain(alloc: Global, replica: &mut Replica, last: u32, parent: u32) -> Option<()> {
    for change in 1..=last {
        let parent = if change == last { parent } else { change + 1 };
        let deed = Deed::PatchSet(1, "Fix", Some(parent));
        take(alloc, replica, u64::from(change), change, deed)?;
    }
    Some(())
}

/// Takes in changes that are a chain, and what is done to the parent of the last one.
fn take_ended(
    alloc: Global,
    replica: &mut Replica,
    last: u32,
    parent: u32,
    deed: Deed,
) -> Option<()> {
    take_chain(alloc, replica, last, parent)?;
    let time = u64::from(last).saturating_add(1);
    take(alloc, replica, time, parent, deed)
}

/// Takes in what is done to a change at a time.
fn take(alloc: Global, replica: &mut Replica, time: u64, change: u32, deed: Deed) -> Option<()> {
    let op = op_of(alloc, time, change, deed)?;
    match replica.take(op) {
        Ok(_) => Some(()),
        Err(_) => None,
    }
}

/// The gate of a record.
fn gate(alloc: Global, record: Record) -> Option<Gate> {
    let text = match record {
        Record::Given => GATE,
        Record::Subjects | Record::Chain(_, _) | Record::MergedEnd(_, _) | Record::VotedEnd(_, _) =>
            OPEN_GATE,
    };
    Gate::read(alloc, text.as_bytes()).ok()
}

/// What the site knows of a peer that can't be reached, at a socket whose path has markup.
fn peer(alloc: Global) -> Result<PeerFacts, AllocError> {
    Ok(PeerFacts {
        peer: String::from_str(alloc, PEER)?,
        is_reachable: false,
        condition_ms: 200_000,
        good_ms: Some(12_005),
        pulls: 7,
        failures: 2,
    })
}

/// The site's only peer.
fn peers(alloc: Global) -> Result<Vec<PeerFacts>, AllocError> {
    let peer = peer(alloc)?;
    let mut peers = Vec::new(alloc);
    match peers.push(peer) {
        Ok(()) => Ok(peers),
        Err(error) => Err(error.into()),
    }
}

/// What the site knows of itself, with these peers.
fn facts(peers: Vec<PeerFacts>) -> Facts {
    Facts {
        site: 1,
        start: 5,
        age_ms: 1_500,
        news_ms: Some(61_000),
        peers,
        sessions: 3,
        publishes: 4,
        requests: 9,
        refused_hosts: 1,
        update_us: 1_234,
        workers: 6,
        busy_workers: 2,
        session_faults: 8,
        refused_connections: 11,
        journal: Some(JournalFacts {
            bytes: 123_456,
            syncs: 42,
        }),
        heard_ms: Some(7_050),
    }
}

/// What is answered to a route over a record.
fn answer(alloc: Global, record: Record, route: &Route) -> Option<Page> {
    match gate(alloc, record) {
        Some(gate) => answer_under(alloc, record, route, &gate),
        None => None,
    }
}

/// What is answered under a gate.
fn answer_under(alloc: Global, record: Record, route: &Route, gate: &Gate) -> Option<Page> {
    match replica(alloc, record) {
        Some(replica) => answer_over(alloc, route, gate, &replica),
        None => None,
    }
}

/// What is answered over a replica.
fn answer_over(alloc: Global, route: &Route, gate: &Gate, replica: &Replica) -> Option<Page> {
    match evaluate(alloc, replica.state(), gate) {
        Ok(verdicts) => answer_on(alloc, route, gate, replica, &verdicts),
        Err(_) => None,
    }
}

/// What is answered with these verdicts.
fn answer_on(
    alloc: Global,
    route: &Route,
    gate: &Gate,
    replica: &Replica,
    verdicts: &Verdicts,
) -> Option<Page>
    requires { AreVerdicts gate.now (state_of replica.now) verdicts.now }
{
    match peers(alloc) {
        Ok(peers) => page_of(alloc, route, gate, replica, verdicts, &facts(peers)).ok(),
        Err(_) => None,
    }
}

/// Whether the answer to a route over the given record has this status and kind, and a text that is made of these
/// parts.
pub fn shows(alloc: Global, route: Route, status: Status, kind: Kind, parts: &[&str]) -> bool {
    match answer(alloc, Record::Given, &route) {
        Some(page) => is_as(&page, status, kind, parts),
        None => false,
    }
}

/// Whether the answer to a route over a record has this part.
pub fn has_part(alloc: Global, record: Record, route: Route, part: &str) -> bool {
    match answer(alloc, record, &route) {
        Some(page) => has(page.body, part),
        None => false,
    }
}

/// Whether a page has this part.
fn has(page: Vec<u8>, part: &str) -> bool {
    match String::from_utf8(page) {
        Ok(text) => text.contains(part),
        Err(_) => false,
    }
}

/// What is asked of a record and its verdicts.
#[derive(Clone, Copy)]
pub enum Question {
    /// Whether a choice has these changes: the kind of items, the reason, the words, and the numbers.
    Chooses(Shown, Option<Reason>, Option<&'static str>, &'static str),
    /// Whether these changes are reached from the first patch set of the first of them.
    Reaches(&'static [u32]),
    /// Whether so many changes are reached from the first patch set of change 1.
    Counts(usize),
    /// Whether so many items wait for a change, and the first of them is of this change.
    Waits(u32, usize, u32),
}

/// Whether it is so of a record.
pub fn is_so(alloc: Global, record: Record, question: Question) -> bool {
    match gate(alloc, record) {
        Some(gate) => is_so_under(alloc, record, question, &gate),
        None => false,
    }
}

/// Whether it is so under a gate.
fn is_so_under(alloc: Global, record: Record, question: Question, gate: &Gate) -> bool {
    match replica(alloc, record) {
        Some(replica) => is_so_over(alloc, question, gate, &replica),
        None => false,
    }
}

/// Whether it is so of a replica.
fn is_so_over(alloc: Global, question: Question, gate: &Gate, replica: &Replica) -> bool {
    match evaluate(alloc, replica.state(), gate) {
        Ok(verdicts) => is_so_on(alloc, question, gate, replica, &verdicts),
        Err(_) => false,
    }
}

/// Whether it is so with these verdicts.
fn is_so_on(
    alloc: Global,
    question: Question,
    gate: &Gate,
    replica: &Replica,
    verdicts: &Verdicts,
) -> bool {
    let state = replica.state();
    match question {
        Question::Chooses(shown, reason, words, changes) => {
            are_chosen_by(alloc, state, verdicts, (shown, reason, words), changes)
        }
        Question::Reaches(changes) => are_reached(alloc, gate, state, changes),
        Question::Counts(count) => are_so_many_reached(alloc, gate, state, count),
        Question::Waits(change, count, first) => {
            are_waiting(alloc, verdicts.out(), change, (count, first))
        }
    }
}

/// Whether a page has this status and kind, and a text that is made of these parts.
fn is_as(page: &Page, status: Status, kind: Kind, parts: &[&str]) -> bool {
    page.status == status && page.kind == kind && is_made_of(page.body.as_slice(), parts)
}

/// Whether a text is made of these parts.
pub fn is_made_of(text: &[u8], parts: &[&str]) -> bool {
    let mut left = text;
    for part in parts {
        match left.strip_prefix(part.as_bytes()) {
            Some(rest) => left = rest,
            None => return false,
        }
    }
    left.is_empty()
}
