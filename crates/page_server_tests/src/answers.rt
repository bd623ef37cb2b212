//! Requests and their responses, over bytes in memory.

use super::shelf::Shelf;
use http_server::{Connection, State};
use page_server::{PageService, Refusal, is_own, limits};
use std::alloc::Global;
use std::hash::RandomState;
use std::random::RandomSource;
use std::{io, slice};

/// What a connection is answered, and what it left.
#[derive(Drop)]
struct Reply {
    text: Vec<u8>,
    is_open: bool,
    taken: u64,
    refused: u64,
}

/// What a connection is answered that sends these bytes, to a server that answers for `gate.example.org` as well.
fn reply_to<R: RandomSource>(rt: &R, alloc: Global, sent: &[u8]) -> io::Result<Reply> {
    let keys = RandomState::new(rt)?;
    let host = String::from_str(alloc, "gate.example.org")?;
    reply_with(alloc, keys, slice::from_ref(&host), sent)
}

/// What a connection is answered that sends these bytes, to a server that answers for these hosts as well.
fn reply_with(
    alloc: Global,
    keys: RandomState,
    hosts: &[String],
    sent: &[u8],
) -> io::Result<Reply> {
    let mut service = PageService {
        alloc,
        hosts,
        date: None,
        made: 0,
        pages: Shelf::new(alloc),
    };
    reply_by(alloc, keys, &mut service, sent)
}

/// What a connection to a service is answered that sends these bytes.
fn reply_by(
    alloc: Global,
    keys: RandomState,
    service: &mut PageService<'_, Shelf>,
    sent: &[u8],
) -> io::Result<Reply> {
    let mut connection = Connection::new(alloc, keys, limits());
    reply_over(alloc, &mut connection, service, sent)
}

/// What a connection is answered that sends these bytes, and what it leaves.
fn reply_over(
    alloc: Global,
    connection: &mut Connection,
    service: &mut PageService<'_, Shelf>,
    sent: &[u8],
) -> io::Result<Reply> {
    let text = read_all(alloc, connection, service, sent)?;
    Ok(Reply {
        text,
        is_open: connection.state() == State::Open,
        taken: service.pages.taken,
        refused: service.pages.refused,
    })
}

/// Has a connection read all that is sent, and takes what is answered.
fn read_all(
    alloc: Global,
    connection: &mut Connection,
    service: &mut PageService<'_, Shelf>,
    sent: &[u8],
) -> io::Result<Vec<u8>> {
    let mut left = sent;
    for _ in 0..sent.len() {
        if left.is_empty() || !connection.wants_read() {
            break;
        }
        connection.read_from(&mut left)?;
        connection.advance(service);
    }
    take_all(alloc, connection, service)
}

/// Takes what is answered.
fn take_all(
    alloc: Global,
    connection: &mut Connection,
    service: &mut PageService<'_, Shelf>,
) -> io::Result<Vec<u8>> {
    let mut text = Vec::new(alloc);
    for _ in 0..1_000 {
        if !connection.wants_write() {
            break;
        }
        connection.write_to(&mut text)?;
        connection.advance(service);
    }
    Ok(text)
}

/// The fields that each page has after the one that says whether a browser may keep it.
const GUARDS: &str = "x-content-type-options: nosniff\r\nreferrer-policy: no-referrer\r\n\
    cross-origin-resource-policy: same-origin\r\ncontent-security-policy: default-src 'none'; style-src 'self'; \
    script-src 'self'; connect-src 'self'; img-src 'self'; form-action 'self'; base-uri 'none'; \
    frame-ancestors 'none'\r\n";

/// The fields before these, of texts of these kinds that may not be kept, and of the style, which may.
const PLAIN: &str = "content-type: text/plain; charset=utf-8\r\ncache-control: no-store\r\n";

const HTML: &str = "content-type: text/html; charset=utf-8\r\ncache-control: no-store\r\n";

const PROBLEM: &str = "content-type: application/problem+json\r\ncache-control: no-store\r\n";

const STYLE: &str = "content-type: text/css; charset=utf-8\r\ncache-control: no-cache\r\n";

const KEPT: &str = "cache-control: no-cache\r\n";

/// What a connection is sent; the line of the status, the fields of the kind and what comes after the fields that each
/// page has, which it is answered; and how many pages were taken and hosts refused then.
#[derive(Clone, Copy)]
struct Row {
    sent: &'static str,
    status: &'static str,
    kind: &'static str,
    rest: &'static str,
    taken: u64,
    refused: u64,
}

/// Whether a text is made of these parts.
fn is_made_of(text: &[u8], parts: &[&str]) -> bool {
    let mut left = text;
    for part in parts {
        match left.strip_prefix(part.as_bytes()) {
            Some(rest) => left = rest,
            None => return false,
        }
    }
    left.is_empty()
}

/// Whether a connection is answered as a row says.
fn is_as(reply: &Reply, row: Row) -> bool {
    let are_counted = reply.taken == row.taken && reply.refused == row.refused;
    are_counted
        && is_made_of(
            reply.text.as_slice(),
            &[row.status, row.kind, GUARDS, row.rest],
        )
}

/// Whether what a row sends is answered as it says.
fn is_right<R: RandomSource>(rt: &R, alloc: Global, row: Row) -> bool {
    match reply_to(rt, alloc, row.sent.as_bytes()) {
        Ok(reply) => is_as(&reply, row),
        Err(_) => false,
    }
}

/// How many rows, from the first on, are as they say.
fn right<R: RandomSource>(rt: &R, alloc: Global, rows: &[Row]) -> usize {
    let mut count = 0usize;
    for row in rows {
        if !is_right(rt, alloc, *row) {
            return count;
        }
        count = count.saturating_add(1);
    }
    count
}

/// What a request of another host is answered.
const MISDIRECTED: &str = "content-length: 24\r\n\r\n421 Misdirected Request\n";

/// What a request with another method is answered.
const NOT_ALLOWED: &str = "allow: GET, HEAD\r\ncontent-length: 23\r\n\r\n405 Method Not Allowed\n";

/// What a request of the style is answered, with its entity tag, the SHA-256 of `abc` (FIPS 180-4, the first example):
/// by who hasn't kept it, and by who has.
const WHOLE_STYLE: &str =
    "etag: \"ba7816bf8f01cfea414140de5dae2223b00361a396177a9cb410ff61f20015ad\"\r\ncontent-length: 3\r\n\r\nabc";

const NOT_MODIFIED: &str =
    "etag: \"ba7816bf8f01cfea414140de5dae2223b00361a396177a9cb410ff61f20015ad\"\r\n\r\n";

/// What is sent and answered.
static ROWS: [Row; 22] = [
    // Requests of pages, of this machine by each of its names and by the one that was given.
    Row {
        sent: "GET /healthz HTTP/1.1\r\nHost: localhost\r\n\r\n",
        status: "HTTP/1.1 200 OK\r\n",
        kind: PLAIN,
        rest: "content-length: 3\r\n\r\nok\n",
        taken: 1,
        refused: 0,
    },
    Row {
        sent: "HEAD /healthz HTTP/1.1\r\nHost: [::1]:8080\r\n\r\n",
        status: "HTTP/1.1 200 OK\r\n",
        kind: PLAIN,
        rest: "content-length: 3\r\n\r\n",
        taken: 1,
        refused: 0,
    },
    Row {
        sent: "GET http://127.0.0.1:80/healthz HTTP/1.1\r\nHost: GATE.example.org:80\r\n\r\n",
        status: "HTTP/1.1 200 OK\r\n",
        kind: PLAIN,
        rest: "content-length: 3\r\n\r\nok\n",
        taken: 1,
        refused: 0,
    },
    Row {
        sent: "GET /change/7 HTTP/1.1\r\nHost: localhost\r\n\r\n",
        status: "HTTP/1.1 404 Not Found\r\n",
        kind: HTML,
        rest: "content-length: 13\r\n\r\n<p>no change\n",
        taken: 1,
        refused: 0,
    },
    Row {
        sent: "GET /api/v1/status HTTP/1.1\r\nHost: localhost\r\n\r\n",
        status: "HTTP/1.1 503 Service Unavailable\r\n",
        kind: PROBLEM,
        rest: "content-length: 3\r\n\r\n{}\n",
        taken: 1,
        refused: 0,
    },
    Row {
        sent: "GET / HTTP/1.1\r\nHost: localhost\r\n\r\n",
        status: "HTTP/1.1 503 Service Unavailable\r\n",
        kind: PLAIN,
        rest: "content-length: 24\r\n\r\n503 Service Unavailable\n",
        taken: 0,
        refused: 0,
    },
    // Requests of other hosts.
    Row {
        sent: "GET /healthz HTTP/1.1\r\nHost: evil.example.org\r\n\r\n",
        status: "HTTP/1.1 421 Misdirected Request\r\n",
        kind: PLAIN,
        rest: MISDIRECTED,
        taken: 0,
        refused: 1,
    },
    Row {
        sent: "GET /api/v1/items HTTP/1.1\r\nHost: localhost.example.org\r\n\r\n",
        status: "HTTP/1.1 421 Misdirected Request\r\n",
        kind: PROBLEM,
        rest: "content-length: 66\r\n\r\n{\"type\":\"about:blank\",\"title\":\"Misdirected Request\",\"status\":421}\n",
        taken: 0,
        refused: 1,
    },
    Row {
        sent: "GET http://evil.example.org/healthz HTTP/1.1\r\nHost: localhost\r\n\r\n",
        status: "HTTP/1.1 421 Misdirected Request\r\n",
        kind: PLAIN,
        rest: MISDIRECTED,
        taken: 0,
        refused: 1,
    },
    // A request of HTTP/1.0 without a host.
    Row {
        sent: "GET /healthz HTTP/1.0\r\n\r\n",
        status: "HTTP/1.0 400 Bad Request\r\n",
        kind: PLAIN,
        rest: "content-length: 16\r\nconnection: close\r\n\r\n400 Bad Request\n",
        taken: 0,
        refused: 0,
    },
    // Requests with other methods, and of what isn't there.
    Row {
        sent: "POST /healthz HTTP/1.1\r\nHost: localhost\r\n\r\n",
        status: "HTTP/1.1 405 Method Not Allowed\r\n",
        kind: PLAIN,
        rest: NOT_ALLOWED,
        taken: 0,
        refused: 0,
    },
    Row {
        sent: "DELETE /api/v1/changes/1 HTTP/1.1\r\nHost: localhost\r\n\r\n",
        status: "HTTP/1.1 405 Method Not Allowed\r\n",
        kind: PROBLEM,
        rest: "allow: GET, HEAD\r\ncontent-length: 65\r\n\r\n{\"type\":\"about:blank\",\"title\":\"Method Not Allowed\",\"status\":405}\n",
        taken: 0,
        refused: 0,
    },
    Row {
        sent: "GET /favicon.ico HTTP/1.1\r\nHost: localhost\r\n\r\n",
        status: "HTTP/1.1 404 Not Found\r\n",
        kind: PLAIN,
        rest: "content-length: 14\r\n\r\n404 Not Found\n",
        taken: 0,
        refused: 0,
    },
    Row {
        sent: "GET /api/v1/items?page=0 HTTP/1.1\r\nHost: localhost\r\n\r\n",
        status: "HTTP/1.1 404 Not Found\r\n",
        kind: PROBLEM,
        rest: "content-length: 56\r\n\r\n{\"type\":\"about:blank\",\"title\":\"Not Found\",\"status\":404}\n",
        taken: 0,
        refused: 0,
    },
    // A request that brings a body, which is passed over.
    Row {
        sent: "POST /healthz HTTP/1.1\r\nHost: localhost\r\nContent-Length: 2\r\n\r\nhi",
        status: "HTTP/1.1 405 Method Not Allowed\r\n",
        kind: PLAIN,
        rest: NOT_ALLOWED,
        taken: 0,
        refused: 0,
    },
    // Requests of the style, which stays the same, by who hasn't kept it.
    Row {
        sent: "GET /style.css HTTP/1.1\r\nHost: localhost\r\n\r\n",
        status: "HTTP/1.1 200 OK\r\n",
        kind: STYLE,
        rest: WHOLE_STYLE,
        taken: 1,
        refused: 0,
    },
    // And by who names its entity tag, or any, and so has kept it.
    Row {
        sent: "GET /style.css HTTP/1.1\r\nHost: localhost\r\n\
            If-None-Match: \"ba7816bf8f01cfea414140de5dae2223b00361a396177a9cb410ff61f20015ad\"\r\n\r\n",
        status: "HTTP/1.1 304 Not Modified\r\n",
        kind: KEPT,
        rest: NOT_MODIFIED,
        taken: 1,
        refused: 0,
    },
    Row {
        sent: "GET /style.css HTTP/1.1\r\nHost: localhost\r\n\
            If-None-Match: W/\"ba7816bf8f01cfea414140de5dae2223b00361a396177a9cb410ff61f20015ad\"\r\n\r\n",
        status: "HTTP/1.1 304 Not Modified\r\n",
        kind: KEPT,
        rest: NOT_MODIFIED,
        taken: 1,
        refused: 0,
    },
    Row {
        sent: "GET /style.css HTTP/1.1\r\nHost: localhost\r\nIf-None-Match: *\r\n\r\n",
        status: "HTTP/1.1 304 Not Modified\r\n",
        kind: KEPT,
        rest: NOT_MODIFIED,
        taken: 1,
        refused: 0,
    },
    Row {
        sent: "GET /style.css HTTP/1.1\r\nHost: localhost\r\n\
            If-None-Match: \"a\", W/\"b\"\r\n\
            If-None-Match: \"c\",\"ba7816bf8f01cfea414140de5dae2223b00361a396177a9cb410ff61f20015ad\"\r\n\r\n",
        status: "HTTP/1.1 304 Not Modified\r\n",
        kind: KEPT,
        rest: NOT_MODIFIED,
        taken: 1,
        refused: 0,
    },
    // And by who names others: it with its last digit cut off, and without its marks.
    Row {
        sent: "GET /style.css HTTP/1.1\r\nHost: localhost\r\n\
            If-None-Match: \"a\", \"ba7816bf8f01cfea414140de5dae2223b00361a396177a9cb410ff61f20015a\"\r\n\r\n",
        status: "HTTP/1.1 200 OK\r\n",
        kind: STYLE,
        rest: WHOLE_STYLE,
        taken: 1,
        refused: 0,
    },
    Row {
        sent: "GET /style.css HTTP/1.1\r\nHost: localhost\r\n\
            If-None-Match: ba7816bf8f01cfea414140de5dae2223b00361a396177a9cb410ff61f20015ad\r\n\r\n",
        status: "HTTP/1.1 200 OK\r\n",
        kind: STYLE,
        rest: WHOLE_STYLE,
        taken: 1,
        refused: 0,
    },
];

/// What is sent and answered, as a list.
fn rows() -> &'static [Row] {
    &ROWS
}

#[test]
fn requests_are_answered(rt: HostRuntime) {
    let count = right(&rt, rt.alloc(), rows());
    assert_eq!(rt; count, 22);
}

/// A request with a head of so many bytes in one field.
fn long_head(alloc: Global, count: usize) -> io::Result<Vec<u8>> {
    let mut sent = Vec::from_slice(alloc, b"GET /healthz HTTP/1.1\r\nHost: localhost\r\nX: ")?;
    for _ in 0..count {
        sent.push(b'x')?;
    }
    sent.extend_from_slice(b"\r\n\r\n")?;
    Ok(sent)
}

/// Whether bytes are answered so, and the connection is open or closed then.
fn begins<R: RandomSource>(rt: &R, alloc: Global, sent: &[u8], text: &str, is_open: bool) -> bool {
    match reply_to(rt, alloc, sent) {
        Ok(reply) => reply.text.starts_with(text.as_bytes()) && reply.is_open == is_open,
        Err(_) => false,
    }
}

/// Whether such a head is answered so.
fn long_begins<R: RandomSource>(
    rt: &R,
    alloc: Global,
    count: usize,
    text: &str,
    is_open: bool,
) -> bool {
    match long_head(alloc, count) {
        Ok(sent) => begins(rt, alloc, sent.as_slice(), text, is_open),
        Err(_) => false,
    }
}

/// Whether each head and body within the limits is taken, and each other one refused.
fn are_limited<R: RandomSource>(rt: &R, alloc: Global) -> bool {
    let body = b"POST / HTTP/1.1\r\nHost: localhost\r\nContent-Length: 1025\r\n\r\n".as_slice();
    let is_taken = long_begins(rt, alloc, 8_000, "HTTP/1.1 200 OK\r\n", true);
    let is_refused = long_begins(rt, alloc, 8_200, "HTTP/1.1 431 ", false);
    let is_too_large = begins(rt, alloc, body, "HTTP/1.1 413 ", false);
    let is_unread = begins(rt, alloc, b"hello 2\n\n", "HTTP/1.1 400 ", false);
    is_taken && is_refused && is_too_large && is_unread
}

#[test]
fn heads_and_bodies_have_limits(rt: HostRuntime) {
    let are_limited = are_limited(&rt, rt.alloc());
    assert!(rt; are_limited);
}

/// Three requests that are sent at once, of which the last one ends the connection.
const THREE: &str = "GET /healthz HTTP/1.1\r\nHost: localhost\r\n\r\n\
    HEAD /change/7 HTTP/1.1\r\nHost: localhost\r\n\r\n\
    GET /healthz HTTP/1.1\r\nHost: localhost\r\nConnection: close\r\n\r\n";

/// Whether all three are answered so.
fn are_answered(reply: &Reply) -> bool {
    let is_last = reply.text.ends_with(b"\r\nconnection: close\r\n\r\nok\n");
    reply.taken == 3 && !reply.is_open && is_last
}

/// Whether three requests at once are answered so.
fn are_all_answered<R: RandomSource>(rt: &R, alloc: Global) -> bool {
    match reply_to(rt, alloc, THREE.as_bytes()) {
        Ok(reply) => are_answered(&reply),
        Err(_) => false,
    }
}

#[test]
fn requests_may_come_at_once(rt: HostRuntime) {
    let are_answered = are_all_answered(&rt, rt.alloc());
    assert!(rt; are_answered);
}

/// Whether these values of `Host` are of this machine or of this host, and these are not.
fn are_told_apart(hosts: &[String]) -> bool {
    let are_own = is_own(hosts, b"Gate.Example.org:8443") && is_own(hosts, b"127.0.0.1");
    let is_other = is_own(hosts, b"127.0.0.1.example.org") || is_own(hosts, b"localhost:80x");
    are_own && !is_other
}

/// Whether a server's host is distinguished from others.
fn is_told_apart(alloc: Global) -> bool {
    match String::from_str(alloc, "gate.example.org") {
        Ok(host) => are_told_apart(slice::from_ref(&host)),
        Err(_) => false,
    }
}

#[test]
fn own_hosts(rt: HostRuntime) {
    let is_told_apart = is_told_apart(rt.alloc());
    assert!(rt; is_told_apart);
}

#[test]
fn a_refusal_has_its_text(rt: HostRuntime) {
    assert_eq!(rt;
        Refusal::OtherHost.text(false),
        b"421 Misdirected Request\n".as_slice()
    );
}
