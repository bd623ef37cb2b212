//! The metrics of the present activity of a site: its threads, its journal, and what its feeds hear.

ghost use Rattle.markup_text.specs.Growing.{Adds};
ghost use Rattle.page_text.specs.Metrics.{heard_age_text, heard_text, journal_figures, now_text, one_journal_text};
ghost use Rattle.page_text.specs.Metrics.{work_text};

use super::facts::{Facts, JournalFacts};
use super::lines::Lines;
use super::samples::{add_counter, add_family, add_gauge, add_milliseconds};

/// Adds the metrics of the present activity of a site.
pub fn add_now(text: &mut Lines, facts: &Facts)
    ensures { Adds (now_text facts.now) text.old text.new }
{
    add_work(text, facts);
    add_journal(text, facts.journal);
    add_heard(text, facts.heard_ms);
}

/// Adds how many workers there are and how many are busy, and how much has failed since the start.
fn add_work(text: &mut Lines, facts: &Facts)
    ensures { Adds (work_text facts.now.workers facts.now.busy_workers facts.now.session_faults
        facts.now.refused_connections) text.old text.new }
{
    add_gauge(
        text,
        "reviewgate_workers",
        "Threads that look at the record for sessions.",
        facts.workers,
    );
    add_gauge(
        text,
        "reviewgate_busy_workers",
        "Threads that look at the record for sessions just now.",
        facts.busy_workers,
    );
    add_counter(
        text,
        "reviewgate_session_faults_total",
        "Sessions that ended with a fault since the start.",
        facts.session_faults,
    );
    add_counter(
        text,
        "reviewgate_refused_connections_total",
        "Connections that were closed since the start because as many as may be were open.",
        facts.refused_connections,
    );
}

/// Adds what the journal has, where there is one.
fn add_journal(text: &mut Lines, journal: Option<JournalFacts>)
    ensures { Adds (journal_figures journal) text.old text.new }
{
    match journal {
        Some(journal) => add_one_journal(text, journal.bytes, journal.syncs),
        None => {}
    }
}

/// Adds what a journal has.
fn add_one_journal(text: &mut Lines, bytes: u64, syncs: u64)
    ensures { Adds (one_journal_text bytes syncs) text.old text.new }
{
    add_gauge(
        text,
        "reviewgate_journal_bytes",
        "Bytes of the journal.",
        bytes,
    );
    add_counter(
        text,
        "reviewgate_journal_syncs_total",
        "Syncs of the journal since the start.",
        syncs,
    );
}

/// Adds how long ago a feed last said that it heard from Gerrit, where one did.
fn add_heard(text: &mut Lines, heard_ms: Option<u64>)
    ensures { Adds (heard_text heard_ms) text.old text.new }
{
    match heard_ms {
        Some(heard_ms) => add_heard_age(text, heard_ms),
        None => {}
    }
}

/// Adds how long ago a feed last said that it heard from Gerrit.
fn add_heard_age(text: &mut Lines, heard_ms: u64)
    ensures { Adds (heard_age_text heard_ms) text.old text.new }
{
    let name = "reviewgate_gerrit_heard_age_seconds";
    add_family(
        text,
        name,
        "gauge",
        "Seconds since a feed last said that it heard from Gerrit.",
    );
    add_milliseconds(text, name, heard_ms);
}
