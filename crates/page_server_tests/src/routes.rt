//! Which target leads to which route.

use page_routes::{Route, route_of};
use std::alloc::{AllocError, Global};

/// A path, a query, and the route that they ask for.
type Row = (&'static str, &'static str, &'static str);

/// How many of these rows, from the first on, are as they say.
fn right(alloc: Global, rows: &[Row]) -> usize {
    let mut count = 0usize;
    for row in rows {
        if !is_right(alloc, *row) {
            return count;
        }
        count = count.saturating_add(1);
    }
    count
}

/// Whether a path and a query, which is left out where it is empty, ask for this route.
fn is_right(alloc: Global, row: Row) -> bool {
    let (path, query, route) = row;
    match asked_by(alloc, path, query) {
        Ok(text) => text.as_str() == route,
        Err(_) => false,
    }
}

/// What a path and a query, which is left out where it is empty, ask for.
fn asked_by(alloc: Global, path: &str, query: &str) -> Result<String, AllocError> {
    let query = if query.is_empty() { None } else { Some(query) };
    text_of(alloc, route_of(alloc, path, query)?)
}

/// A route in a programmer's words.
fn text_of(alloc: Global, route: Option<Route>) -> Result<String, AllocError> {
    match route {
        Some(route) => format!(in alloc; "{route:?}"),
        None => String::from_str(alloc, "none"),
    }
}

/// Targets and what they ask for.
static ROWS: [Row; 48] = [
    // Paths without a place or a choice.
    ("/api/v1/status", "", "Status"),
    ("/api/v1/events", "", "Events"),
    ("/metrics", "", "Metrics"),
    ("/healthz", "", "Health"),
    ("/healthz", "page=0", "Health"),
    ("/style.css", "", "Style"),
    ("/script.js", "", "Script"),
    ("/healthz/", "", "none"),
    ("/Healthz", "", "none"),
    ("", "", "none"),
    ("*", "", "none"),
    ("/api/v1", "", "none"),
    ("/api/v1/status/", "", "none"),
    ("//", "", "none"),
    ("/index.html", "", "none"),
    ("/%2e", "", "none"),
    // Paths with a place.
    (
        "/change/103",
        "",
        "Change(Place { change: 103, set: None })",
    ),
    (
        "/change/103,1",
        "",
        "Change(Place { change: 103, set: Some(1) })",
    ),
    (
        "/change/0,0",
        "x=y",
        "Change(Place { change: 0, set: Some(0) })",
    ),
    (
        "/api/v1/changes/4294967295,4294967295",
        "",
        "ChangeData(Place { change: 4294967295, set: Some(4294967295) })",
    ),
    (
        "/api/v1/changes/7",
        "",
        "ChangeData(Place { change: 7, set: None })",
    ),
    ("/change/4294967296", "", "none"),
    ("/change/1,4294967296", "", "none"),
    ("/change/", "", "none"),
    ("/change/0103", "", "none"),
    ("/change/+1", "", "none"),
    ("/change/-1", "", "none"),
    ("/change/1,", "", "none"),
    ("/change/,1", "", "none"),
    ("/change/1,2,3", "", "none"),
    ("/change/1,02", "", "none"),
    ("/change/1 ", "", "none"),
    ("/changes/1", "", "none"),
    // Queries with a choice.
    (
        "/",
        "",
        "List(Choice { shown: Open, reason: None, words: None, page: 1 })",
    ),
    (
        "/",
        "show=&reason=&q=&page=",
        "List(Choice { shown: Open, reason: None, words: None, page: 1 })",
    ),
    (
        "/api/v1/items",
        "show=ready&page=12",
        "Items(Choice { shown: Ready, reason: None, words: None, page: 12 })",
    ),
    (
        "/",
        "page=2&page=0&reason=dependency&show=all&q=fix+%22a%26b%22&other=1",
        "List(Choice { shown: All, reason: Some(Dependency), words: Some(\"fix \\\"a&b\\\"\"), page: 2 })",
    ),
    (
        "/",
        "%73how=open&q=%C3%A4%FF",
        "List(Choice { shown: Open, reason: None, words: Some(\"\u{e4}\u{fffd}\"), page: 1 })",
    ),
    (
        "/",
        "reason=require",
        "List(Choice { shown: Open, reason: Some(Require), words: None, page: 1 })",
    ),
    (
        "/api/v1/items",
        "reason=reject",
        "Items(Choice { shown: Open, reason: Some(Reject), words: None, page: 1 })",
    ),
    (
        "/",
        "reason=cycle",
        "List(Choice { shown: Open, reason: Some(Cycle), words: None, page: 1 })",
    ),
    (
        "/",
        "reason=unknown",
        "List(Choice { shown: Open, reason: Some(Unknown), words: None, page: 1 })",
    ),
    ("/", "show=Open", "none"),
    ("/", "reason=none", "none"),
    ("/", "page=0", "none"),
    ("/", "page=01", "none"),
    ("/", "page=4294967296", "none"),
    ("/api/v1/items", "show=closed", "none"),
];

/// Targets and what they ask for, as a list.
fn rows() -> &'static [Row] {
    &ROWS
}

#[test]
fn targets_ask_for_routes(rt: HostRuntime) {
    let count = right(rt.alloc(), rows());
    assert_eq!(rt; count, 48);
}

/// A query with so many bytes of words.
fn words(alloc: Global, count: usize) -> Result<String, AllocError> {
    let mut query = String::from_str(alloc, "q=")?;
    for _ in 0..count {
        query.push('w')?;
    }
    Ok(query)
}

/// Whether so many bytes of words may be searched for, where memory is given.
fn may_be_searched(alloc: Global, count: usize) -> Option<bool> {
    let query = words(alloc, count).ok()?;
    match route_of(alloc, "/", Some(query.as_str())) {
        Ok(route) => Some(route.is_some()),
        Err(_) => None,
    }
}

#[test]
fn words_have_a_limit(rt: HostRuntime) {
    let longest = may_be_searched(rt.alloc(), 200);
    let longer = may_be_searched(rt.alloc(), 201);
    assert!(rt; longest == Some(true) && longer == Some(false));
}
