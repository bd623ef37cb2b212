//! What the arguments of `serve` ask for.

use command_line::{Asked, PageAddress, Printing, ServeWords, SocketMode, read_words};
use site_address::{Address, HostPort, PeerAddress, address_of, host_port_of, peer_of};
use std::alloc::Global;
use std::process::Abort;
use std::test::Fail;

/// The site that words ask for.
fn serving_of<'a>(alloc: Global, words: &'a [&'a str]) -> Option<ServeWords<'a>> {
    match read_words(alloc, words) {
        Asked::Serve(serving) => Some(serving),
        _ => None,
    }
}

/// The name of the gate file, the site's number and its start.
fn site_of<'a>(serving: &ServeWords<'a>) -> (&'a str, u16, Option<u32>) {
    (serving.gate, serving.site, serving.start)
}

/// The port, the numbers of workers and of connections, and the pause between two rounds of pulls.
fn numbers_of(serving: &ServeWords<'_>) -> (Option<u16>, usize, usize, u64) {
    (
        serving.port,
        serving.workers,
        serving.connections,
        serving.pause_ms,
    )
}

/// After how many sessions the site ends, after how many silent milliseconds a session does, whether the site ends with
/// its input, what it prints, and whether its lines have the time.
fn ends_of(serving: &ServeWords<'_>) -> (u64, u64, bool, Printing, bool) {
    (
        serving.sessions,
        serving.idle_ms,
        serving.until_input_ends,
        serving.prints,
        serving.log_time,
    )
}

/// The names of the snapshots and the journal.
fn files_of<'a>(serving: &ServeWords<'a>) -> (Option<&'a str>, Option<&'a str>, Option<&'a str>) {
    (serving.load, serving.save, serving.journal)
}

/// The words ask for a site that is run so.
fn assert_serves(rt: &impl Abort, serving: &ServeWords<'_>, wanted: &ServeWords<'_>) {
    assert_eq!(rt; site_of(serving), site_of(wanted));
    assert_eq!(rt; numbers_of(serving), numbers_of(wanted));
    assert_eq!(rt; ends_of(serving), ends_of(wanted));
    assert_eq!(rt; files_of(serving), files_of(wanted));
    assert_eq!(rt; serving.peers.as_slice(), wanted.peers.as_slice());
    assert_eq!(rt; serving.sockets.as_slice(), wanted.sockets.as_slice());
    assert_eq!(rt; serving.hosts.as_slice(), wanted.hosts.as_slice());
    assert_eq!(rt; (serving.mode, serving.keys), (wanted.mode, wanted.keys));
    assert_eq!(rt; serving.sites.as_slice(), wanted.sites.as_slice());
    assert_eq!(rt; serving.http, wanted.http);
    assert_eq!(rt; serving.http_hosts.as_slice(), wanted.http_hosts.as_slice());
}

/// A site with what options are left out for.
fn with_defaults(alloc: Global) -> ServeWords<'static> {
    ServeWords {
        gate: "gate.json",
        peers: Vec::new(alloc),
        sites: Vec::new(alloc),
        site: 1,
        start: Some(7),
        port: None,
        sockets: Vec::new(alloc),
        hosts: Vec::new(alloc),
        mode: SocketMode::Owner,
        keys: None,
        workers: 2,
        pause_ms: 1000,
        sessions: 0,
        idle_ms: 300_000,
        connections: 1024,
        until_input_ends: false,
        prints: Printing::Report,
        log_time: false,
        http: None,
        http_hosts: Vec::new(alloc),
        load: None,
        save: None,
        journal: None,
    }
}

#[test]
fn options_have_defaults(rt: HostRuntime) -> Result<(), Fail> {
    let words = ["serve", "gate.json", "--site", "1", "--start", "7"];
    let serving = serving_of(rt.alloc(), words.as_slice()).ok_or("a site")?;
    assert_serves(&rt, &serving, &with_defaults(rt.alloc()));
    Ok(())
}

/// Words with each option.
const ALL: [&str; 53] = [
    "serve",
    "-",
    "8001",
    "/run/b.socket",
    "site-2@gate.example.org:8101",
    "--site",
    "65535",
    "--start",
    "4294967294",
    "--port",
    "8000",
    "--listen",
    "/run/a.socket",
    "--listen",
    "0.0.0.0:0",
    "--listen",
    "./a",
    "--listen",
    "[::]:65535",
    "--mode",
    "660",
    "--keys",
    "d",
    "--sites",
    "65535",
    "--sites",
    "1",
    "--workers",
    "6",
    "--pause",
    "600000",
    "--sessions",
    "3",
    "--idle",
    "5",
    "--connections",
    "9",
    "--print",
    "changes",
    "--http",
    "/run/page.socket",
    "--http-host",
    "gate.example.org",
    "--http-host",
    "gate",
    "--load",
    "a",
    "--save",
    "b",
    "--journal",
    "c",
    "--until-input-ends",
    "--log-time",
];

/// The site that they ask for.
fn with_all<'a>(
    peers: Vec<PeerAddress<'a>>,
    sockets: Vec<&'a str>,
    hosts: Vec<HostPort<'a>>,
    sites: Vec<u16>,
    http_hosts: Vec<String>,
) -> ServeWords<'a> {
    ServeWords {
        gate: "-",
        peers,
        sites,
        site: 65535,
        start: Some(4_294_967_294),
        port: Some(8_000),
        sockets,
        hosts,
        mode: SocketMode::Group,
        keys: Some("d"),
        workers: 6,
        pause_ms: 600_000,
        sessions: 3,
        idle_ms: 5,
        connections: 9,
        until_input_ends: true,
        prints: Printing::Changes,
        log_time: true,
        http: Some(PageAddress::Path("/run/page.socket")),
        http_hosts,
        load: Some("a"),
        save: Some("b"),
        journal: Some("c"),
    }
}

#[test]
fn all_options_are_read(rt: HostRuntime) -> Result<(), Fail> {
    let peers = [
        PeerAddress::Here(Address::Port(8_001)),
        PeerAddress::Here(Address::Path("/run/b.socket")),
        there("site-2", "gate.example.org", 8_101),
    ]
    .to_vec(rt.alloc())?;
    let sockets = ["/run/a.socket", "./a"].to_vec(rt.alloc())?;
    let hosts = [at("0.0.0.0", 0), at("::", 65_535)].to_vec(rt.alloc())?;
    let mut names = Vec::new(rt.alloc());
    names.push(String::from_str(rt.alloc(), "gate.example.org")?)?;
    names.push(String::from_str(rt.alloc(), "gate")?)?;
    let wanted = with_all(peers, sockets, hosts, [65535, 1].to_vec(rt.alloc())?, names);
    let serving = serving_of(rt.alloc(), ALL.as_slice()).ok_or("a site")?;
    assert_serves(&rt, &serving, &wanted);
    Ok(())
}

/// The least and the greatest number of each option that has limits.
const LIMITS: [(&str, &str, u64); 15] = [
    ("--site", "1", 1),
    ("--site", "65535", 65_535),
    ("--start", "1", 1),
    ("--start", "4294967294", 4_294_967_294),
    ("--port", "0", 0),
    ("--port", "65535", 65_535),
    ("--workers", "1", 1),
    ("--workers", "6", 6),
    ("--pause", "1", 1),
    ("--pause", "600000", 600_000),
    ("--sessions", "0", 0),
    (
        "--sessions",
        "18446744073709551615",
        18_446_744_073_709_551_615,
    ),
    ("--idle", "18446744073709551615", 18_446_744_073_709_551_615),
    ("--connections", "1", 1),
    ("--connections", "65535", 65_535),
];

/// The numbers of a site, in the order of the options above.
fn number_of(serving: &ServeWords<'_>, option: &str) -> u64 {
    match option {
        "--site" => u64::from(serving.site),
        "--start" => u64::from(serving.start.unwrap_or(0)),
        "--port" => u64::from(serving.port.unwrap_or(7)),
        "--workers" => serving.workers as u64,
        "--pause" => serving.pause_ms,
        "--sessions" => serving.sessions,
        "--connections" => serving.connections as u64,
        _ => serving.idle_ms,
    }
}

#[test]
fn limits_are_within_the_ranges(rt: HostRuntime) -> Result<(), Fail> {
    for (option, number, wanted) in LIMITS {
        // `--site` has to be there, once.
        let other = if option == "--site" {
            "--port"
        } else {
            "--site"
        };
        let words = ["serve", "g", other, "1", option, number, "--journal", "j"];
        let serving = serving_of(rt.alloc(), words.as_slice()).ok_or("a site")?;
        assert_eq!(rt; number_of(&serving, option), wanted);
    }
    Ok(())
}

#[test]
fn a_journal_has_the_starts_before(rt: HostRuntime) -> Result<(), Fail> {
    let words = ["serve", "g", "--site=1", "--journal=j"];
    let serving = serving_of(rt.alloc(), words.as_slice()).ok_or("a site")?;
    assert_eq!(rt; serving.start, None);
    assert_eq!(rt; serving.journal, Some("j"));
    Ok(())
}

#[test]
fn addresses_of_peers_follow_the_gate(rt: HostRuntime) -> Result<(), Fail> {
    let words = [
        "serve", "--site", "1", "--start", "1", "g", "1", "./65535", "65535",
    ];
    let serving = serving_of(rt.alloc(), words.as_slice()).ok_or("a site")?;
    let wanted = [
        PeerAddress::Here(Address::Port(1)),
        PeerAddress::Here(Address::Path("./65535")),
        PeerAddress::Here(Address::Port(65_535)),
    ];
    assert_eq!(rt; serving.peers.as_slice(), wanted.as_slice());
    Ok(())
}

/// A word is the address of a site, and written as one.
#[test]
fn words_with_a_slash_are_paths(rt: HostRuntime) -> Result<(), Fail> {
    for (word, wanted) in [
        ("1", Some(Address::Port(1))),
        ("+65535", Some(Address::Port(65_535))),
        ("/", Some(Address::Path("/"))),
        ("a/b", Some(Address::Path("a/b"))),
        ("0", None),
        ("65536", None),
        ("-1", None),
        ("a", None),
        ("", None),
        ("8101 ", None),
    ] {
        assert_eq!(rt; address_of(word), wanted, "{word}");
    }
    let mut text = String::new(rt.alloc());
    Address::Port(8_101).write(&mut text)?;
    Address::Path("/run/s").write(&mut text)?;
    assert_eq!(rt; text.as_str(), "8101/run/s");
    Ok(())
}

/// A host and a port.
fn at(host: &str, port: u16) -> HostPort<'_> {
    HostPort { host, port }
}

/// An address on another machine.
fn there<'a>(key: &'a str, host: &'a str, port: u16) -> PeerAddress<'a> {
    PeerAddress::There {
        key,
        at: at(host, port),
    }
}

/// A word names a host and a port, and is written as one.
#[test]
fn words_name_hosts_and_ports(rt: HostRuntime) -> Result<(), Fail> {
    for (word, wanted) in [
        ("gate.example.org:8101", Some(at("gate.example.org", 8_101))),
        ("10.0.0.2:0", Some(at("10.0.0.2", 0))),
        ("a_b-c:+65535", Some(at("a_b-c", 65_535))),
        ("[::1]:8101", Some(at("::1", 8_101))),
        ("[::ffff:10.0.0.2]:1", Some(at("::ffff:10.0.0.2", 1))),
        ("[Fe80:]:007", Some(at("Fe80:", 7))),
        ("", None),
        (":", None),
        (":1", None),
        ("a", None),
        ("a:", None),
        ("a:65536", None),
        ("a:-1", None),
        ("a:b:1", None),
        ("::1:8101", None),
        ("a b:1", None),
        ("a/b:1", None),
        ("[::1]", None),
        ("[::1]8101", None),
        ("[::1]:", None),
        ("[::g]:1", None),
        ("[]:1", None),
        ("[a]:1", None),
        ("[[::1]:1", None),
        ("[::1]]:1", None),
        ("[::1%2]:1", None),
    ] {
        assert_eq!(rt; host_port_of(word), wanted, "{word}");
    }
    let mut text = String::new(rt.alloc());
    at("gate.example.org", 8_101).write(&mut text)?;
    at("::1", 0).write(&mut text)?;
    assert_eq!(rt; text.as_str(), "gate.example.org:8101[::1]:0");
    Ok(())
}

/// A name of a key of 64 letters, and one more.
const LONG: &str = "abcdefghijklmnopqrstuvwxyzabcdefghijklmnopqrstuvwxyz0123456789-.@h:1";

const LONGER: &str = "abcdefghijklmnopqrstuvwxyzabcdefghijklmnopqrstuvwxyz0123456789-._@h:1";

/// A word names a peer, and is written as one.
#[test]
fn words_name_peers(rt: HostRuntime) -> Result<(), Fail> {
    for (word, wanted) in [
        ("8101", Some(PeerAddress::Here(Address::Port(8_101)))),
        ("./8101", Some(PeerAddress::Here(Address::Path("./8101")))),
        ("a@b:1/", Some(PeerAddress::Here(Address::Path("a@b:1/")))),
        ("a@b:1", Some(there("a", "b", 1))),
        ("site-2@[::1]:65535", Some(there("site-2", "::1", 65_535))),
        ("a@b:0", None),
        ("a@b", None),
        ("@b:1", None),
        ("a@@b:1", None),
        ("a b@c:1", None),
        ("b:1", None),
        ("8101@", None),
        ("0", None),
        (LONGER, None),
    ] {
        assert_eq!(rt; peer_of(word), wanted, "{word}");
    }
    assert!(rt; peer_of(LONG).is_some());
    let mut text = String::new(rt.alloc());
    PeerAddress::Here(Address::Port(1)).write(&mut text)?;
    there("/site-2", "::1", 65_535).write(&mut text)?;
    assert_eq!(rt; text.as_str(), "1/site-2@[::1]:65535");
    Ok(())
}

/// Whether a site shows itself there by this word; or, where nothing is wanted, the word says nothing of it.
fn shows_at(alloc: Global, word: &str, wanted: Option<PageAddress<'_>>) -> bool {
    let words = ["serve", "g", "--site=1", "--start=1", "--http", word];
    match serving_of(alloc, words.as_slice()) {
        Some(serving) => wanted.is_some() && serving.http == wanted,
        None => wanted.is_none(),
    }
}

#[test]
fn each_word_says_where_a_site_shows_itself(rt: HostRuntime) {
    for (word, wanted) in [
        ("0", Some(PageAddress::Port(0))),
        ("+8180", Some(PageAddress::Port(8_180))),
        ("65535", Some(PageAddress::Port(65_535))),
        ("/", Some(PageAddress::Path("/"))),
        ("./8180", Some(PageAddress::Path("./8180"))),
        ("a:1/b", Some(PageAddress::Path("a:1/b"))),
        ("65536", None),
        ("8180 ", None),
        ("localhost:8180", None),
        ("", None),
    ] {
        assert!(rt; shows_at(rt.alloc(), word, wanted), "{word}");
    }
}
