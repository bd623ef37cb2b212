//! The metrics of a site, in the text format of Prometheus.

ghost use Rattle.std.specs.Prelude.{IfOk, flat_map, length};
ghost use Rattle.markup_text.specs.Growing.{Adds};
ghost use Rattle.state_core.specs.State.{state_of};
ghost use Rattle.page_text.specs.Metrics.{AreMetrics, HasStarts, age_text, all_held_text, status_counts_text, figures_text};
ghost use Rattle.page_text.specs.Metrics.{held_text, info_text, labels_text, record_text, served_text, site_text};
ghost use Rattle.page_text.specs.Metrics.{status_text, update_text};

use super::counts::{Counted, count_of};
use super::facts::Facts;
use super::held::{Held, all_held, held_words};
use super::lines::{Lines, Part};
use super::metrics_peers::add_peers;
use super::metrics_work::add_now;
use super::samples::{
    add_counter, add_family, add_gauge, add_labelled, add_microseconds, add_milliseconds,
};
use super::statuses::status_count;
use change_core::Status;
use gate_rules::Gate;
use lattice_core::NoMemory;
use ready_core::{Left, Verdicts};
use replica_core::Replica;
use state_core::State;
use std::alloc::Global;

/// The text of the metrics: of the record, of what holds up items, of the site, of its peers, of what it served, of its
/// threads, of its journal, and of its feeds. It costs O(n k + s log s) for n items, k approvals of the gate and s
/// starts of sites.
pub fn metrics_text(
    alloc: Global,
    gate: &Gate,
    replica: &Replica,
    verdicts: &Verdicts,
    facts: &Facts,
) -> Result<Vec<u8>, NoMemory>
    ensures { IfOk result (λ text. AreMetrics gate.now replica.now verdicts.now facts.now text.items) }
{
    let starts = starts_of(replica)?;
    let mut text = Lines::new(alloc);
    add_figures(alloc, &mut text, gate, replica, starts, verdicts, facts);
    add_now(&mut text, facts);
    let bytes = text.end()?;
    Ok(bytes)
}

/// How many starts of sites the record's front has.
fn starts_of(replica: &Replica) -> Result<u64, NoMemory>
    ensures { IfOk result (HasStarts replica.now) }
{
    let front = replica.front()?;
    Ok(front.rows().len() as u64)
}

/// Adds the metrics of the record, of what holds up items, of the site, of its peers, and of what it served.
fn add_figures(
    alloc: Global,
    text: &mut Lines,
    gate: &Gate,
    replica: &Replica,
    starts: u64,
    verdicts: &Verdicts,
    facts: &Facts,
)
    ensures { Adds (figures_text gate.now (state_of replica.now) (length replica.now) starts verdicts.now facts.now)
        text.old text.new }
{
    add_record(text, replica, starts, verdicts);
    add_held(alloc, text, gate, verdicts.out());
    add_site(text, facts);
    add_peers(text, facts.peers.as_slice());
    add_served(text, facts);
    add_update(text, facts.update_us);
}

/// Adds the metrics of the record.
fn add_record(text: &mut Lines, replica: &Replica, starts: u64, verdicts: &Verdicts)
    ensures { Adds (record_text (length replica.now) starts (state_of replica.now) (length verdicts.now.ready)) text.old
        text.new }
{
    add_gauge(
        text,
        "reviewgate_operations",
        "Operations of the record.",
        replica.len() as u64,
    );
    add_gauge(
        text,
        "reviewgate_starts",
        "Starts of sites that a pull into the record names.",
        starts,
    );
    add_changes(text, replica.state());
    add_gauge(
        text,
        "reviewgate_ready_items",
        "Items that may enter the pipeline.",
        verdicts.ready().len() as u64,
    );
}

/// Adds how many changes have each status.
fn add_changes(text: &mut Lines, state: &State)
    ensures { Adds (status_counts_text state.now) text.old text.new }
{
    add_family(
        text,
        "reviewgate_changes",
        "gauge",
        "Changes of the record by status.",
    );
    add_status(text, state, Status::New);
    add_status(text, state, Status::Abandoned);
    add_status(text, state, Status::Merged);
}

/// Adds how many changes have a status.
fn add_status(text: &mut Lines, state: &State, status: Status)
    ensures { Adds (status_text state.now status) text.old text.new }
{
    let count = status_count(state, status) as u64;
    add_labelled(text, "reviewgate_changes", "status", status.name(), count);
}

/// Adds how many items each cause holds up.
fn add_held(alloc: Global, text: &mut Lines, gate: &Gate, out: &[Left])
    ensures { Adds (all_held_text gate.now out.now) text.old text.new }
{
    add_family(
        text,
        "reviewgate_held_items",
        "gauge",
        "Items that are held up by an approval, a cycle, an unknown change or a dependency, by reason.",
    );
    match all_held(alloc, gate) {
        Ok(all) => add_all_held(alloc, text, out, all.as_slice()),
        Err(_) => text.refuse(),
    }
}

/// Adds how many items are held by each of these.
fn add_all_held(alloc: Global, text: &mut Lines, out: &[Left], all: &[Held])
    ensures { Adds (flat_map (held_text out.now) all.now) text.old text.new }
{
    for held in all {
        add_held_by(alloc, text, out, *held);
    }
}

/// Adds how many items this cause holds up.
fn add_held_by(alloc: Global, text: &mut Lines, out: &[Left], held: Held)
    ensures { Adds (held_text out.now held) text.old text.new }
{
    match held_words(alloc, held) {
        Ok(words) => add_labelled(
            text,
            "reviewgate_held_items",
            "reason",
            words.as_str(),
            count_of(out, Counted::By(held)) as u64,
        ),
        Err(_) => text.refuse(),
    }
}

/// Adds what the site is, and when the last operation came.
fn add_site(text: &mut Lines, facts: &Facts)
    ensures { Adds (site_text facts.now.site facts.now.start facts.now.news_ms) text.old text.new }
{
    add_info(text, facts.site, facts.start);
    let name = "reviewgate_last_operation_age_seconds";
    add_family(
        text,
        name,
        "gauge",
        "Seconds since the last operation came.",
    );
    add_age(text, name, facts.news_ms);
}

/// Adds what the site is.
fn add_info(text: &mut Lines, site: u16, start: u32)
    ensures { Adds (info_text site start) text.old text.new }
{
    let name = "reviewgate_site_info";
    add_family(text, name, "gauge", "The site and its start.");
    add_labels(text, name, site, start);
}

/// Adds the info sample of the site, with the constant value 1.
fn add_labels(text: &mut Lines, name: &str, site: u16, start: u32)
    ensures { Adds (labels_text name.now site start) text.old text.new }
{
    text.add(&[
        Part::Text(name),
        Part::Text("{site=\""),
        Part::Number(u64::from(site)),
        Part::Text("\",start=\""),
        Part::Number(u64::from(start)),
        Part::Text("\"} 1\n"),
    ]);
}

/// Adds how long ago something was, where it was.
fn add_age(text: &mut Lines, name: &str, age_ms: Option<u64>)
    ensures { Adds (age_text name.now age_ms) text.old text.new }
{
    match age_ms {
        Some(age_ms) => add_milliseconds(text, name, age_ms),
        None => {}
    }
}

/// Adds what the site served.
fn add_served(text: &mut Lines, facts: &Facts)
    ensures { Adds (served_text facts.now.sessions facts.now.publishes facts.now.requests facts.now.refused_hosts)
        text.old text.new }
{
    add_gauge(
        text,
        "reviewgate_open_sessions",
        "Sessions that are open.",
        facts.sessions,
    );
    add_counter(
        text,
        "reviewgate_publishes_total",
        "Publishes since the start.",
        facts.publishes,
    );
    add_counter(
        text,
        "reviewgate_page_requests_total",
        "Requests of pages since the start.",
        facts.requests,
    );
    add_counter(
        text,
        "reviewgate_refused_hosts_total",
        "Requests that named a host that is not the site's own since the start.",
        facts.refused_hosts,
    );
}

/// Adds how long the last update of the verdicts took.
fn add_update(text: &mut Lines, update_us: u64)
    ensures { Adds (update_text update_us) text.old text.new }
{
    let name = "reviewgate_update_duration_seconds";
    add_family(
        text,
        name,
        "gauge",
        "Seconds that the last update of the verdicts took.",
    );
    add_microseconds(text, name, update_us);
}
