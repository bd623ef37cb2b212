//! The pages in HTML, as whole texts.

use super::record::{Record, has_part, shows};
use page_routes::{Choice, Kind, Place, Route, Shown, Status};
use std::alloc::Global;

/// What each page has before its title, between that and its own part, and after that.
const BEFORE_TITLE: &str = r#"<!DOCTYPE html>
<html lang="en">
<head>
<meta charset="utf-8">
<meta name="viewport" content="width=device-width, initial-scale=1">
<title>"#;

const AFTER_TITLE: &str = r#"</title>
<link rel="icon" href="/icon.svg">
<link rel="stylesheet" href="/style.css">
<script src="/script.js" defer></script>
</head>
<body>
<header><p><a href="/">reviewgate</a>, site 1</p></header>
<main>
"#;

const END: &str = "</main>\n</body>\n</html>\n";

/// Whether what is asked for is shown as a page with this status, this title and this part of its own.
fn is_page(alloc: Global, route: Route, status: Status, title: &str, main: &str) -> bool {
    let parts = [BEFORE_TITLE, title, AFTER_TITLE, main, END];
    shows(alloc, route, status, Kind::Html, &parts)
}

/// What differs from list to list: the words that are searched for, the kinds of items, how the caption begins, the
/// rows, and the links to other pages.
#[derive(Clone, Copy)]
struct List {
    words: &'static str,
    kinds: &'static str,
    caption: &'static str,
    rows: &'static str,
    links: &'static str,
}

/// What each list has before, between and after these.
const FORM: &str = r#"<h1>Items</h1>
<form action="/" method="get" role="search">
<p><label for="q">Subject or number</label><input id="q" name="q" type="search" maxlength="200" value=""#;

const KINDS: &str = r#""></p>
<p><label for="show">Items</label><select id="show" name="show">
"#;

const NEWS: &str = r#"</select></p>
<p><label for="reason">Why they wait</label><select id="reason" name="reason">
<option value="">any reason</option>
<option>require</option>
<option>reject</option>
<option>cycle</option>
<option>unknown</option>
<option>dependency</option>
</select></p>
<p><button type="submit">Show</button></p>
</form>
<div id="live">
<p><strong class="ready">1</strong> may enter, <strong class="waits">2</strong> open ones may not.</p>
<p>As it was 1 s ago.</p>
<p>The last operation came 1 min ago.</p>
<p>A feed last heard from Gerrit 7 s ago.</p>
<p class="waits">The peer /run/&quot;a\&lt;b&gt;&amp;\u{A}&#39; has not been reached for 3 min.</p>
<h2>Why open items wait</h2>
<ul>
<li><a href="/?reason=require">require</a>: 1</li>
<li><a href="/?reason=reject">reject</a>: 0</li>
<li><a href="/?reason=cycle">cycle</a>: 0</li>
<li><a href="/?reason=unknown">unknown</a>: 0</li>
<li><a href="/?reason=dependency">dependency</a>: 1</li>
</ul>
<table>
<caption>"#;

const HEAD: &str = r#" items in all</caption>
<thead><tr><th scope="col">Place</th><th scope="col">Item</th><th scope="col">Subject</th>
<th scope="col">Why it waits</th><th scope="col">Cause</th></tr></thead>
<tbody>
"#;

const LINKS: &str = "</tbody>\n</table>\n<nav aria-label=\"Pages\">\n";

/// Whether what is asked for is shown as this list.
fn is_list(alloc: Global, choice: Choice, list: List) -> bool {
    let parts = [
        BEFORE_TITLE,
        "Items",
        AFTER_TITLE,
        FORM,
        list.words,
        KINDS,
        list.kinds,
        NEWS,
        list.caption,
        HEAD,
        list.rows,
        LINKS,
        list.links,
        "</nav>\n</div>\n",
        END,
    ];
    shows(
        alloc,
        Route::List(choice),
        Status::Found,
        Kind::Html,
        &parts,
    )
}

/// The list of the open items.
const LIST: List = List {
    words: "",
    kinds: "<option selected>open</option>\n<option>ready</option>\n<option>all</option>\n",
    caption: "Page 1 of 1, 3",
    rows: r#"<tr><td>1</td><th scope="row"><a href="/change/101,1">101,1</a></th><td>Fix the door</td><td class="ready">ready</td><td></td></tr>
<tr><td></td><th scope="row"><a href="/change/102,1">102,1</a></th><td>Open</td><td class="waits">dependency 103</td><td><a href="/change/103,2">103,2</a> require approval 2</td></tr>
<tr><td></td><th scope="row"><a href="/change/103,2">103,2</a></th><td>&lt;script&gt;alert(&quot;x&quot;)&amp;&#39;\u{202E}abc</td><td class="waits">require approval 2: verified 1 or 2 by zuul</td><td></td></tr>
"#,
    links: "",
};

#[test]
fn the_list_shows_open_items_and_why_they_wait(rt: HostRuntime) {
    let open = Choice {
        shown: Shown::Open,
        reason: None,
        words: None,
        page: 1,
    };
    let is_shown = is_list(rt.alloc(), open, LIST);
    assert!(rt; is_shown);
}

/// The row of the first of three items that wait for each other: its cause is the last one.
const CHAINED: &str =
    r#"<td class="waits">dependency 2</td><td><a href="/change/3,1">3,1</a> unknown 9</td>"#;

#[test]
fn the_cause_is_at_the_end_of_the_chain(rt: HostRuntime) {
    let open = Choice {
        shown: Shown::Open,
        reason: None,
        words: None,
        page: 1,
    };
    let is_shown = has_part(rt.alloc(), Record::Chain(3, 9), Route::List(open), CHAINED);
    assert!(rt; is_shown);
}

/// The second page of a list that has one.
const SECOND: List = List {
    words: "A&quot;b",
    kinds: "<option>open</option>\n<option>ready</option>\n<option selected>all</option>\n",
    caption: "Page 2 of 1, 0",
    rows: "",
    links: r#"<a href="/?show=all&amp;page=1&amp;q=A%22b" rel="prev">Previous page</a>
"#,
};

/// Whether a list in which these words are searched for is shown as that.
fn is_second(alloc: Global, words: &str) -> bool {
    match String::from_str(alloc, words) {
        Ok(words) => is_list(alloc, second_of(words), SECOND),
        Err(_) => false,
    }
}

/// The second page of all items that have these words.
fn second_of(words: String) -> Choice {
    Choice {
        shown: Shown::All,
        reason: None,
        words: Some(words),
        page: 2,
    }
}

#[test]
fn what_is_searched_for_stays_in_the_form_and_in_links(rt: HostRuntime) {
    let is_shown = is_second(rt.alloc(), "A\"b");
    assert!(rt; is_shown);
}

/// The own part of the page of an item that waits for another one.
const WAITING: &str = r#"<h1>Change 102, patch set 1</h1>
<p>Open</p>
<div id="live">
<h2>Why it waits</h2>
<ol>
<li class="waits"><a href="/change/102,1">102,1</a> dependency 103</li>
<li class="waits"><a href="/change/103,2">103,2</a> require approval 2</li>
</ol>
<p>The gate has there: require verified 1 or 2 by zuul.</p>
<h2>What the gate asks</h2>
<ul>
<li class="ready">met: require open</li>
<li class="ready">met: require the current patch set</li>
<li class="ready">met: require status NEW or MERGED</li>
<li class="ready">met: require workflow 1</li>
<li class="ready">met: require verified 1 or 2 by zuul</li>
<li class="ready">met: reject status HELD</li>
<li class="ready">met: reject code-review -2</li>
</ul>
<p>The status of the change is NEW.</p>
<table>
<caption>Votes on the current patch set, 1</caption>
<thead><tr><th scope="col">Label</th><th scope="col">Voter</th><th scope="col">Value</th></tr></thead>
<tbody>
<tr><td>verified</td><td>zuul</td><td>2</td></tr>
<tr><td>workflow</td><td>ann</td><td>1</td></tr>
</tbody>
</table>
<h2>Patch sets</h2>
<ul>
<li><a href="/change/102,1">102,1</a>: Open</li>
</ul>
<h2>Depends on</h2>
<ul>
<li><a href="/change/101">101</a> NEW</li>
<li><a href="/change/103">103</a> NEW</li>
</ul>
<h2>Drawing</h2>
<div class="drawing" role="region" aria-labelledby="drawn" tabindex="0">
<svg role="img" aria-labelledby="drawn" width="360" height="88" viewBox="0 0 360 88">
<title id="drawn">What waits for the item, and what it waits for</title>
<line x1="160" y1="24" x2="200" y2="24"/>
<line x1="160" y1="24" x2="200" y2="64"/>
<a href="/change/102,1"><rect class="waits" x="10" y="10" width="150" height="28" rx="4"/><text x="18" y="29">102,1 waits</text></a>
<a href="/change/101,1"><rect class="ready" x="200" y="10" width="150" height="28" rx="4"/><text x="208" y="29">101,1 ready</text></a>
<a href="/change/103,2"><rect class="waits" x="200" y="50" width="150" height="28" rx="4"/><text x="208" y="69">103,2 waits</text></a>
</svg>
</div>
</div>
"#;

/// The hostile subject, as a page has it, with its item before; and the own part of the page of that item.
const HOSTILE_TITLE: &str =
    r#"Change 103,2: &lt;script&gt;alert(&quot;x&quot;)&amp;&#39;\u{202E}abc"#;

const HOSTILE: &str = r#"<h1>Change 103, patch set 2</h1>
<p>&lt;script&gt;alert(&quot;x&quot;)&amp;&#39;\u{202E}abc</p>
<div id="live">
<h2>Why it waits</h2>
<ol>
<li class="waits"><a href="/change/103,2">103,2</a> require approval 2</li>
</ol>
<p>The gate has there: require verified 1 or 2 by zuul.</p>
<h2>What the gate asks</h2>
<ul>
<li class="ready">met: require open</li>
<li class="ready">met: require the current patch set</li>
<li class="ready">met: require status NEW or MERGED</li>
<li class="ready">met: require workflow 1</li>
<li class="waits">not met: require verified 1 or 2 by zuul</li>
<li class="ready">met: reject status HELD</li>
<li class="ready">met: reject code-review -2</li>
</ul>
<p>The status of the change is NEW.</p>
<table>
<caption>Votes on the current patch set, 2</caption>
<thead><tr><th scope="col">Label</th><th scope="col">Voter</th><th scope="col">Value</th></tr></thead>
<tbody>
<tr><td>workflow</td><td>b&lt;b</td><td>1</td></tr>
</tbody>
</table>
<h2>Patch sets</h2>
<ul>
<li><a href="/change/103,2">103,2</a>: &lt;script&gt;alert(&quot;x&quot;)&amp;&#39;\u{202E}abc</li>
</ul>
<h2>Depends on</h2>
<ul>
</ul>
<h2>What waits for it</h2>
<ul>
<li><a href="/change/102,1">102,1</a></li>
</ul>
<h2>Drawing</h2>
<div class="drawing" role="region" aria-labelledby="drawn" tabindex="0">
<svg role="img" aria-labelledby="drawn" width="360" height="48" viewBox="0 0 360 48">
<title id="drawn">What waits for the item, and what it waits for</title>
<line x1="160" y1="24" x2="200" y2="24"/>
<a href="/change/102,1"><rect class="waits" x="10" y="10" width="150" height="28" rx="4"/><text x="18" y="29">102,1 waits</text></a>
<a href="/change/103,2"><rect class="waits" x="200" y="10" width="150" height="28" rx="4"/><text x="208" y="29">103,2 waits</text></a>
</svg>
</div>
</div>
"#;

/// The own part of what is answered of a change that isn't known.
const UNKNOWN: &str = r#"<h1>Not found</h1>
<p>The record has no change 9 with a patch set 2.</p>
"#;

/// A patch set of a change, or its current one.
fn change_route(change: u32, set: Option<u32>) -> Route {
    Route::Change(Place { change, set })
}

#[test]
fn a_change_shows_what_it_waits_for(rt: HostRuntime) {
    let current = change_route(102, None);
    let is_shown = is_page(
        rt.alloc(),
        current,
        Status::Found,
        "Change 102,1: Open",
        WAITING,
    );
    assert!(rt; is_shown);
}

/// The items from the first of three that wait for each other down to the cause.
const CHAIN: &str = r#"<ol>
<li class="waits"><a href="/change/1,1">1,1</a> dependency 2</li>
<li class="waits"><a href="/change/2,1">2,1</a> dependency 3</li>
<li class="waits"><a href="/change/3,1">3,1</a> unknown 9</li>
</ol>
"#;

#[test]
fn a_change_shows_the_whole_chain(rt: HostRuntime) {
    let first = change_route(1, None);
    let is_shown = has_part(rt.alloc(), Record::Chain(3, 9), first, CHAIN);
    assert!(rt; is_shown);
}

#[test]
fn a_hostile_subject_is_a_text(rt: HostRuntime) {
    let named = change_route(103, Some(2));
    let is_shown = is_page(rt.alloc(), named, Status::Found, HOSTILE_TITLE, HOSTILE);
    assert!(rt; is_shown);
}

#[test]
fn an_unknown_change_is_not_found(rt: HostRuntime) {
    let unknown = change_route(9, Some(2));
    let is_shown = is_page(rt.alloc(), unknown, Status::NotFound, "Not found", UNKNOWN);
    assert!(rt; is_shown);
}
