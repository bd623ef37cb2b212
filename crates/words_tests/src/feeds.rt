//! What the arguments of `events` ask for.

use command_line::{Answer, Asked, EventWords, read_words};
use site_address::{Address, HostPort, PeerAddress};
use std::alloc::Global;
use std::test::Fail;

/// The feed that words ask for.
fn feed_of<'a>(alloc: Global, words: &'a [&'a str]) -> Option<EventWords<'a>> {
    match read_words(alloc, words) {
        Asked::Events(words) => Some(words),
        _ => None,
    }
}

#[test]
fn a_feed_goes_to_an_address_or_to_the_output(rt: HostRuntime) -> Result<(), Fail> {
    let cases: [(&[&str], Option<Address<'_>>); 6] = [
        (&["events"], None),
        (&["events", "--to", "1"], Some(Address::Port(1))),
        (&["events", "--to=65535"], Some(Address::Port(65_535))),
        (&["events", "--to", "08101"], Some(Address::Port(8_101))),
        (&["events", "--to", "/run/s"], Some(Address::Path("/run/s"))),
        (&["events", "--to=./8101"], Some(Address::Path("./8101"))),
    ];
    for (words, address) in cases {
        let feed = feed_of(rt.alloc(), words).ok_or("a feed")?;
        assert_eq!(rt; feed.to, address.map(PeerAddress::Here));
        assert_eq!(rt; feed.keys, None);
        assert_eq!(rt; feed.answer, Answer::Stream);
        assert!(rt; feed.projects.is_empty());
        assert_eq!(rt; (feed.projects_file, feed.gate), (None, None));
    }
    Ok(())
}

#[test]
fn a_feed_goes_to_another_machine_by_a_key(rt: HostRuntime) -> Result<(), Fail> {
    let words = ["events", "--keys", "keys", "--to", "a@b:8101"];
    let feed = feed_of(rt.alloc(), words.as_slice()).ok_or("a feed")?;
    let at = HostPort {
        host: "b",
        port: 8_101,
    };
    assert_eq!(rt; feed.to, Some(PeerAddress::There { key: "a", at }));
    assert_eq!(rt; feed.keys, Some("keys"));
    Ok(())
}

#[test]
fn an_answer_is_that_of_a_query_or_has_every_open_change(rt: HostRuntime) -> Result<(), Fail> {
    let cases: [(&[&str], Answer); 3] = [
        (&["events", "--query"], Answer::Query),
        (&["events", "--to", "1", "--query"], Answer::Query),
        (&["events", "--complete", "--to", "1"], Answer::Complete),
    ];
    for (words, answer) in cases {
        let feed = feed_of(rt.alloc(), words).ok_or("a feed")?;
        assert_eq!(rt; feed.answer, answer);
    }
    Ok(())
}

#[test]
fn projects_are_named_in_their_order(rt: HostRuntime) -> Result<(), Fail> {
    let words = [
        "events",
        "--project",
        "zuul/zuul",
        "--to=1",
        "--gate=g",
        "--project=zuul/nodepool",
        "--projects",
        "-",
    ];
    let feed = feed_of(rt.alloc(), words.as_slice()).ok_or("a feed")?;
    let mut names = feed.projects.iter();
    assert_eq!(rt; names.next().ok_or("a name")?.as_str(), "zuul/zuul");
    assert_eq!(rt; names.next().ok_or("a name")?.as_str(), "zuul/nodepool");
    assert!(rt; names.next().is_none());
    assert_eq!(rt; (feed.projects_file, feed.gate), (Some("-"), Some("g")));
    Ok(())
}
