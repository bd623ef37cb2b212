//! The answers in JSON and other data formats, as whole texts.

use super::record::{Record, has_part, shows};
use page_routes::{Choice, Kind, Place, Route, Shown, Status};
use page_text::{SCRIPT, STYLE, same_page};
use std::test::Fail;

/// How the site is.
const STATUS: &str =
    r#"{"site":1,"start":5,"operations":10,"ready":1,"out":3,"open_out":2,"age_ms":1500,"news_ms":61000,"sessions":3,"peers":[{"peer":"/run/\"a\\<b>&\n'","reachable":false,"condition_ms":200000,"good_ms":12005,"pulls":7,"failures":2}],"workers":6,"busy_workers":2,"session_faults":8,"refused_connections":11,"journal":{"bytes":123456,"syncs":42},"heard_ms":7050}"#;

/// A problem.
const PROBLEM: &str = r#"{"type":"about:blank","title":"Not Found","status":404}"#;

#[test]
fn the_status_has_the_sites_figures(rt: HostRuntime) {
    let is_shown = shows(
        rt.alloc(),
        Route::Status,
        Status::Found,
        Kind::Json,
        &[STATUS],
    );
    assert!(rt; is_shown);
}

/// All items.
const ITEMS: &str =
    "{\"total\":4,\"page\":1,\"items\":[{\"change\":101,\"set\":1,\"subject\":\"Fix the door\",\"ready\":true,\"place\":1},{\"change\":102,\"set\":1,\"subject\":\"Open\",\"ready\":false,\"refusal\":\"dependency 103\"},{\"change\":103,\"set\":2,\"subject\":\"<script>alert(\\\"x\\\")&'\u{202e}abc\",\"ready\":false,\"refusal\":\"require approval 2\"},{\"change\":104,\"set\":2,\"subject\":\"Gone\",\"ready\":false,\"refusal\":\"require open\"}]}";

#[test]
fn items_are_rows_with_their_refusals(rt: HostRuntime) {
    let route = Route::Items(Choice {
        shown: Shown::All,
        reason: None,
        words: None,
        page: 1,
    });
    let is_shown = shows(rt.alloc(), route, Status::Found, Kind::Json, &[ITEMS]);
    assert!(rt; is_shown);
}

/// The change that waits for another one.
const WAITING: &str =
    "{\"change\":102,\"set\":1,\"status\":\"NEW\",\"current\":1,\"patchsets\":[{\"set\":1,\"subject\":\"Open\"}],\"votes\":[{\"label\":\"verified\",\"voter\":\"zuul\",\"value\":2},{\"label\":\"workflow\",\"voter\":\"ann\",\"value\":1}],\"why\":[{\"change\":102,\"set\":1,\"subject\":\"Open\",\"ready\":false,\"refusal\":\"dependency 103\"},{\"change\":103,\"set\":2,\"subject\":\"<script>alert(\\\"x\\\")&'\u{202e}abc\",\"ready\":false,\"refusal\":\"require approval 2\"}],\"conditions\":[{\"condition\":\"require open\",\"met\":true},{\"condition\":\"require current-patchset\",\"met\":true},{\"condition\":\"require status\",\"met\":true},{\"condition\":\"require approval 1\",\"met\":true},{\"condition\":\"require approval 2\",\"met\":true},{\"condition\":\"reject status\",\"met\":true},{\"condition\":\"reject approval 1\",\"met\":true}],\"depends_on\":[101,103],\"waiting\":[]}";

#[test]
fn a_change_has_the_items_down_to_the_cause(rt: HostRuntime) {
    let route = Route::ChangeData(Place {
        change: 102,
        set: None,
    });
    let is_shown = shows(rt.alloc(), route, Status::Found, Kind::Json, &[WAITING]);
    assert!(rt; is_shown);
}

/// The items from the first of three that wait for each other down to the cause.
const CHAIN: &str =
    r#","why":[{"change":1,"set":1,"subject":"Fix","ready":false,"refusal":"dependency 2"},{"change":2,"set":1,"subject":"Fix","ready":false,"refusal":"dependency 3"},{"change":3,"set":1,"subject":"Fix","ready":false,"refusal":"unknown 9"}],"#;

#[test]
fn a_change_has_the_whole_chain(rt: HostRuntime) {
    let route = Route::ChangeData(Place {
        change: 1,
        set: None,
    });
    let is_shown = has_part(rt.alloc(), Record::Chain(3, 9), route, CHAIN);
    assert!(rt; is_shown);
}

#[test]
fn an_unknown_change_is_a_problem(rt: HostRuntime) {
    let route = Route::ChangeData(Place {
        change: 101,
        set: Some(2),
    });
    let is_shown = shows(
        rt.alloc(),
        route,
        Status::NotFound,
        Kind::Problem,
        &[PROBLEM],
    );
    assert!(rt; is_shown);
}

/// The event.
const EVENT: &str = r#"retry: 2000
data: {"ready":1,"out":3,"operations":10}

"#;

#[test]
fn the_event_has_the_numbers_of_items(rt: HostRuntime) {
    let is_shown = shows(
        rt.alloc(),
        Route::Events,
        Status::Found,
        Kind::Events,
        &[EVENT],
    );
    assert!(rt; is_shown);
}

/// The metrics.
const METRICS: &str = r#"# HELP reviewgate_operations Operations of the record.
# TYPE reviewgate_operations gauge
reviewgate_operations 10
# HELP reviewgate_starts Starts of sites that a pull into the record names.
# TYPE reviewgate_starts gauge
reviewgate_starts 1
# HELP reviewgate_changes Changes of the record by status.
# TYPE reviewgate_changes gauge
reviewgate_changes{status="NEW"} 3
reviewgate_changes{status="ABANDONED"} 1
reviewgate_changes{status="MERGED"} 0
# HELP reviewgate_ready_items Items that may enter the pipeline.
# TYPE reviewgate_ready_items gauge
reviewgate_ready_items 1
# HELP reviewgate_held_items Items that are held up by an approval, a cycle, an unknown change or a dependency, by reason.
# TYPE reviewgate_held_items gauge
reviewgate_held_items{reason="require approval 1"} 0
reviewgate_held_items{reason="require approval 2"} 1
reviewgate_held_items{reason="reject approval 1"} 0
reviewgate_held_items{reason="cycle"} 0
reviewgate_held_items{reason="unknown"} 0
reviewgate_held_items{reason="dependency"} 1
# HELP reviewgate_site_info The site and its start.
# TYPE reviewgate_site_info gauge
reviewgate_site_info{site="1",start="5"} 1
# HELP reviewgate_last_operation_age_seconds Seconds since the last operation came.
# TYPE reviewgate_last_operation_age_seconds gauge
reviewgate_last_operation_age_seconds 61.000
# HELP reviewgate_peer_up Whether the last pull reached the peer.
# TYPE reviewgate_peer_up gauge
reviewgate_peer_up{peer="/run/\"a\\<b>&\n'"} 0
# HELP reviewgate_peer_last_pull_age_seconds Seconds since the last whole pull ended.
# TYPE reviewgate_peer_last_pull_age_seconds gauge
reviewgate_peer_last_pull_age_seconds{peer="/run/\"a\\<b>&\n'"} 12.005
# HELP reviewgate_peer_pulls_total Whole pulls since the start.
# TYPE reviewgate_peer_pulls_total counter
reviewgate_peer_pulls_total{peer="/run/\"a\\<b>&\n'"} 7
# HELP reviewgate_peer_pull_failures_total Pulls that failed since the start.
# TYPE reviewgate_peer_pull_failures_total counter
reviewgate_peer_pull_failures_total{peer="/run/\"a\\<b>&\n'"} 2
# HELP reviewgate_open_sessions Sessions that are open.
# TYPE reviewgate_open_sessions gauge
reviewgate_open_sessions 3
# HELP reviewgate_publishes_total Publishes since the start.
# TYPE reviewgate_publishes_total counter
reviewgate_publishes_total 4
# HELP reviewgate_page_requests_total Requests of pages since the start.
# TYPE reviewgate_page_requests_total counter
reviewgate_page_requests_total 9
# HELP reviewgate_refused_hosts_total Requests that named a host that is not the site's own since the start.
# TYPE reviewgate_refused_hosts_total counter
reviewgate_refused_hosts_total 1
# HELP reviewgate_update_duration_seconds Seconds that the last update of the verdicts took.
# TYPE reviewgate_update_duration_seconds gauge
reviewgate_update_duration_seconds 0.001234
# HELP reviewgate_workers Threads that look at the record for sessions.
# TYPE reviewgate_workers gauge
reviewgate_workers 6
# HELP reviewgate_busy_workers Threads that look at the record for sessions just now.
# TYPE reviewgate_busy_workers gauge
reviewgate_busy_workers 2
# HELP reviewgate_session_faults_total Sessions that ended with a fault since the start.
# TYPE reviewgate_session_faults_total counter
reviewgate_session_faults_total 8
# HELP reviewgate_refused_connections_total Connections that were closed since the start because as many as may be were open.
# TYPE reviewgate_refused_connections_total counter
reviewgate_refused_connections_total 11
# HELP reviewgate_journal_bytes Bytes of the journal.
# TYPE reviewgate_journal_bytes gauge
reviewgate_journal_bytes 123456
# HELP reviewgate_journal_syncs_total Syncs of the journal since the start.
# TYPE reviewgate_journal_syncs_total counter
reviewgate_journal_syncs_total 42
# HELP reviewgate_gerrit_heard_age_seconds Seconds since a feed last said that it heard from Gerrit.
# TYPE reviewgate_gerrit_heard_age_seconds gauge
reviewgate_gerrit_heard_age_seconds 7.050
"#;

#[test]
fn metrics_have_their_lines(rt: HostRuntime) {
    let is_shown = shows(
        rt.alloc(),
        Route::Metrics,
        Status::Found,
        Kind::Metrics,
        &[METRICS],
    );
    assert!(rt; is_shown);
}

#[test]
fn what_never_changes_is_answered(rt: HostRuntime) {
    let is_well = shows(
        rt.alloc(),
        Route::Health,
        Status::Found,
        Kind::Plain,
        &["ok\n"],
    );
    let has_style = shows(
        rt.alloc(),
        Route::Style,
        Status::Found,
        Kind::Style,
        &[STYLE],
    );
    let has_script = shows(
        rt.alloc(),
        Route::Script,
        Status::Found,
        Kind::Script,
        &[SCRIPT],
    );
    assert!(rt; is_well);
    assert!(rt; has_style);
    assert!(rt; has_script);
}

/// Without a record the style has its page, and the metrics have none.
#[test]
fn what_never_changes_needs_no_record(rt: HostRuntime) -> Result<(), Fail> {
    let alloc = rt.alloc();
    let style = same_page(alloc, &Route::Style)?;
    let figures = same_page(alloc, &Route::Metrics)?;
    assert!(rt; style.is_some_and(|page| page.body.as_slice() == STYLE.as_bytes()));
    assert!(rt; figures.is_none());
    Ok(())
}
