//! Feeds of sites that answer by a script, in this process.

use super::asserts::assert_found;
use byte_ends::{Broken, Drain, Ends};
use event_feed::FeedFault;
use feed_client::{
    AnswerFeed, Intake, IntakeFault, Listing, Noted, Refusal, SiteFeed, complete_site, feed_answer,
    feed_site, read_answer,
};
use footer_text::Bases;
use gerrit_events::Projects;
use op_text::{read_op, write_body};
use replica_core::Missing;
use review_ops::{Body, Op, Stamp};
use state_core::State;
use std::alloc::Global;
use std::process::Abort;
use std::test::Fail;

/// A patch set, a vote beside a withdrawn one that never was, a bad line, a merge, and an abandon of another change.
const EVENTS: &str = concat!(
    r#"{"type":"patchset-created","change":{"number":7,"commitMessage":"m"},"#,
    r#""patchSet":{"number":1,"revision":"a1"}}"#,
    "\n",
    r#"{"type":"comment-added","change":{"number":7},"patchSet":{"number":1},"#,
    r#""author":{"username":"zuul"},"approvals":[{"type":"Verified","value":"1"},"#,
    r#"{"type":"Code-Review","value":"0","oldValue":"2"}]}"#,
    "\n",
    r#"{"type":"change-me"#,
    "\n",
    r#"{"type":"change-merged","change":{"number":7}}"#,
    "\n",
    r#"{"type":"change-abandoned","change":{"number":8}}"#,
    "\n",
);

/// What is offered of them.
const BODIES: &str = concat!(
    r#"{"change":7,"message":"m","op":"patchset","set":1}"#,
    "\n",
    r#"{"change":7,"label":"verified","op":"vote","set":1,"value":1,"voter":"zuul"}"#,
    "\n",
    r#"{"change":7,"op":"merged"}"#,
    "\n",
    r#"{"change":8,"op":"abandon"}"#,
    "\n",
);

const BAD_LINE: &str = "reviewgate: events 1 BadEvent 3 line\n";

/// A site that notes what it is offered, answers one of its offers so, and tells of some operations before the first
/// line.
#[derive(Drop)]
struct Scripted {
    alloc: Global,
    offered: String,
    count: u64,
    /// The number of that offer, from 1, and its answer.
    special: (u64, Result<Stamp, IntakeFault>),
    /// What came to it beside.
    news: Vec<Op>,
}

impl Scripted {
    fn new(alloc: Global, number: u64, answer: Result<Stamp, IntakeFault>) -> Scripted {
        Scripted {
            alloc,
            offered: String::new(alloc),
            count: 0,
            special: (number, answer),
            news: Vec::new(alloc),
        }
    }

    fn note(&mut self, body: &Body) -> Option<Stamp> {
        let text = write_body(self.alloc, body).ok()?;
        self.offered.push_str(text.as_str()).ok()?;
        self.offered.push_str("\n").ok()?;
        self.count = self.count.wrapping_add(1);
        Stamp::new(self.count, 1, 1, self.count)
    }
}

impl Intake for Scripted {
    ghost replies = { λ old deed reply new. Unit {0} };

    ghost answers = { λ old round new. Unit {0} };

    fn take_in(&mut self, body: &Body) -> Result<Stamp, IntakeFault> {
        let Some(stamp) = self.note(body) else {
            return Err(IntakeFault::NoMemory);
        };
        if self.count == self.special.0 {
            return self.special.1;
        }
        Ok(stamp)
    }

    /// Two rounds, of which the first has one operation.
    fn next_round(&mut self) -> Result<Missing, IntakeFault> {
        let mut ops = Vec::new(self.alloc);
        if let Some(op) = self.news.pop()
            && ops.push(op).is_err()
        {
            return Err(IntakeFault::NoMemory);
        }
        let more = !ops.is_empty();
        Ok(Missing { ops, more })
    }
}

/// A feed of a site, whose outputs are texts.
type TestFeed = SiteFeed<Scripted, Ends<Vec<u8>>, Ends<Vec<u8>>>;

/// A feed of a site with this script that knows nothing yet.
fn feed_of(alloc: Global, number: u64, answer: Result<Stamp, IntakeFault>) -> TestFeed {
    SiteFeed {
        alloc,
        bases: None,
        state: State::new(alloc),
        site: Scripted::new(alloc, number, answer),
        output: Ends::new(Vec::new(alloc)),
        errors: Ends::new(Vec::new(alloc)),
    }
}

/// A feed of a site that takes in all.
fn taking_feed(alloc: Global) -> TestFeed {
    feed_of(alloc, 0, Err(IntakeFault::Ended))
}

/// What is wanted of a feed: what is asked for, what is reported, and how it ends.
#[derive(Clone, Copy)]
struct Wanted {
    asks: &'static str,
    reports: &'static str,
    ended: Result<(), FeedFault>,
}

/// Asserts what is asked for and reported by a feed that ended so, and forgets both.
fn assert_ended(
    rt: &(impl Abort + AllocGlobal),
    feed: &mut TestFeed,
    ended: Result<(), FeedFault>,
    wanted: Wanted,
) {
    assert_found(rt, ended, wanted.ended);
    assert_found(rt, feed.output.get_ref().as_slice(), wanted.asks.as_bytes());
    assert_found(
        rt,
        feed.errors.get_ref().as_slice(),
        wanted.reports.as_bytes(),
    );
    feed.output = Ends::new(Vec::new(rt.alloc()));
    feed.errors = Ends::new(Vec::new(rt.alloc()));
}

/// Feeds lines to a site, and asserts what is asked for and reported and how the feed ends.
fn assert_feed(rt: &(impl Abort + AllocGlobal), feed: &mut TestFeed, lines: &str, wanted: Wanted) {
    let mut source = Ends::new(lines.as_bytes());
    let ended = feed_site(rt.alloc(), &Projects::all(), &mut source, feed);
    assert_ended(rt, feed, ended, wanted);
}

#[test]
fn what_is_new_is_sent_once(rt: HostRuntime) {
    let mut feed = taking_feed(rt.alloc());
    let wanted = Wanted {
        asks: "ask 7\n",
        reports: BAD_LINE,
        ended: Ok(()),
    };
    assert_feed(&rt, &mut feed, EVENTS, wanted);
    assert_found(&rt, feed.site.offered.as_str(), BODIES);
    let again = Wanted { asks: "", ..wanted };
    assert_feed(&rt, &mut feed, EVENTS, again);
    assert_found(&rt, feed.site.count, 4);
}

#[test]
fn what_the_site_refuses_is_reported(rt: HostRuntime) {
    let refused = Err(IntakeFault::Refused(Refusal::BadBody));
    let mut feed = feed_of(rt.alloc(), 2, refused);
    let wanted = Wanted {
        asks: "ask 7\n",
        reports: "reviewgate: events 6 Refused 2 8 BadBody\nreviewgate: events 1 BadEvent 3 line\n",
        ended: Ok(()),
    };
    assert_feed(&rt, &mut feed, EVENTS, wanted);
    assert_found(&rt, feed.site.count, 4);
    let again = Wanted {
        asks: "",
        reports: BAD_LINE,
        ended: Ok(()),
    };
    assert_feed(&rt, &mut feed, EVENTS, again);
    assert_found(&rt, feed.site.count, 5);
}

#[test]
fn a_feed_ends_where_no_answer_comes(rt: HostRuntime) {
    for (lost, fault) in [
        (IntakeFault::Ended, FeedFault::Ended),
        (IntakeFault::NoMemory, FeedFault::NoMemory),
    ] {
        let mut feed = feed_of(rt.alloc(), 2, Err(lost));
        let wanted = Wanted {
            asks: "ask 7\n",
            reports: "",
            ended: Err(fault),
        };
        assert_feed(&rt, &mut feed, EVENTS, wanted);
        assert_found(&rt, feed.site.count, 2);
    }
}

#[test]
fn a_feed_ends_where_events_were_dropped(rt: HostRuntime) {
    let mut feed = taking_feed(rt.alloc());
    let lines = "{\"type\":\"stats\"}\n{\"type\":\"dropped-output\"}\n{}\n";
    let wanted = Wanted {
        asks: "",
        reports: "reviewgate: events 2 Dropped 2\n",
        ended: Err(FeedFault::Dropped),
    };
    assert_feed(&rt, &mut feed, lines, wanted);
    let rest = Wanted {
        asks: "",
        reports: "reviewgate: events 1 BadEvent 1 line\n",
        ended: Ok(()),
    };
    assert_feed(&rt, &mut feed, "{", rest);
    assert_found(&rt, feed.site.count, 0);
}

/// A merged change, that is abandoned and restored afterwards.
const AFTER_ITS_MERGE: &str = concat!(
    r#"{"type":"change-merged","change":{"number":7}}"#,
    "\n",
    r#"{"type":"change-abandoned","change":{"number":7}}"#,
    "\n",
    r#"{"type":"change-restored","change":{"number":7}}"#,
    "\n",
);

#[test]
fn a_merged_change_is_neither_abandoned_nor_restored(rt: HostRuntime) {
    let mut feed = taking_feed(rt.alloc());
    let wanted = Wanted {
        asks: "",
        reports: "reviewgate: events 1 BadEvent 2 status\nreviewgate: events 1 BadEvent 3 status\n",
        ended: Ok(()),
    };
    assert_feed(&rt, &mut feed, AFTER_ITS_MERGE, wanted);
    assert_found(
        &rt,
        feed.site.offered.as_str(),
        "{\"change\":7,\"op\":\"merged\"}\n",
    );
}

/// A merge that another client brought.
const NEWS: &[u8] = br#"{"change":7,"op":"merged","seq":9,"site":2,"start":2,"time":9}"#;

#[test]
fn what_others_bring_is_not_sent(rt: HostRuntime) -> Result<(), Fail> {
    let mut feed = taking_feed(rt.alloc());
    feed.site.news.push(read_op(rt.alloc(), NEWS)?)?;
    let wanted = Wanted {
        asks: "",
        reports: "",
        ended: Ok(()),
    };
    let line = "{\"type\":\"change-merged\",\"change\":{\"number\":7}}\n";
    assert_feed(&rt, &mut feed, line, wanted);
    assert_found(&rt, feed.site.count, 0);
    Ok(())
}

/// A new patch set on a parent that nothing is known of, which needs another change beside one that it names by
/// something else.
const NEEDY: &str = concat!(
    r#"{"number":9,"status":"NEW","commitMessage":"m\n\nDepends-On: https://r/4\nDepends-On: https://s/5\n","#,
    r#""currentPatchSet":{"number":1},"dependsOn":[{"number":3}]}"#,
    "\n",
    r#"{"type":"stats","rowCount":1}"#,
    "\n",
);

#[test]
fn what_is_unknown_is_asked_for(rt: HostRuntime) -> Result<(), Fail> {
    let mut feed = taking_feed(rt.alloc());
    feed.bases = Some(Bases::new(rt.alloc(), &["https://r/"])?);
    let wanted = Wanted {
        asks: "need 3\nneed 4\n",
        reports: "",
        ended: Ok(()),
    };
    assert_feed(&rt, &mut feed, NEEDY, wanted);
    Ok(())
}

/// Feeds the answer of a query that lists every open change, to a feed whose record has change 9 as new. Asserts what is
/// asked for and reported, how that ends and how many bodies were offered.
fn assert_completed(rt: &(impl Abort + AllocGlobal), lines: &str, wanted: Wanted, count: u64) {
    let alloc = rt.alloc();
    let mut feed = taking_feed(alloc);
    let known = Wanted {
        asks: "need 3\n",
        reports: "",
        ended: Ok(()),
    };
    assert_feed(rt, &mut feed, NEEDY, known);
    let before = feed.site.count;
    let mut listing = Listing {
        feed: AnswerFeed::new(feed),
        noted: Noted::new(alloc),
    };
    let mut source = Ends::new(lines.as_bytes());
    let ended = complete_site(alloc, &Projects::all(), &mut source, &mut listing);
    let answer = listing.feed;
    let mut feed = answer.feed;
    assert_ended(rt, &mut feed, ended, wanted);
    assert_found(rt, feed.site.count.wrapping_sub(before), count);
}

/// Change 9 is asked for and abandoned where a whole answer doesn't list it, and each line of the answer was read.
#[test]
fn what_an_answer_lacks_is_abandoned(rt: HostRuntime) {
    for (lines, asks, count) in [
        ("{\"type\":\"stats\"}\n", "ask 9\n", 1u64),
        (NEEDY, "need 3\n", 0),
    ] {
        let wanted = Wanted {
            asks,
            reports: "",
            ended: Ok(()),
        };
        assert_completed(&rt, lines, wanted, count);
    }
}

/// Where an answer isn't whole, or a line of it wasn't read, nothing is asked for or abandoned.
#[test]
fn an_answer_that_is_not_whole_abandons_nothing(rt: HostRuntime) {
    for (lines, reports) in [
        ("", ""),
        ("{\"type\":\"stats\",\"moreChanges\":true}\n", ""),
        (
            "{}\n{\"type\":\"stats\"}\n",
            "reviewgate: events 1 BadEvent 1 number\n",
        ),
        (
            "[]\n{\"type\":\"stats\"}\n",
            "reviewgate: events 1 BadEvent 1 line\n",
        ),
    ] {
        let wanted = Wanted {
            asks: "",
            reports,
            ended: Err(FeedFault::Incomplete),
        };
        assert_completed(&rt, lines, wanted, 0);
    }
}

/// The row of a change with an approval, and that of another one with a veto, and a line that can't be read between
/// them.
const ROWS: &str = concat!(
    r#"{"number":9,"status":"NEW","commitMessage":"m","currentPatchSet":{"number":1,"approvals":[{"type":"Verified","value":"1","by":{"username":"zuul"}}]}}"#,
    "\n{\n",
    r#"{"number":4,"status":"NEW","commitMessage":"m","currentPatchSet":{"number":1,"approvals":[{"type":"Code-Review","value":"-2","by":{"username":"bob"}}]}}"#,
    "\n",
);

/// What is offered of them at once.
const VETO: &str =
    "{\"change\":4,\"label\":\"code-review\",\"op\":\"vote\",\"set\":1,\"value\":-2,\"voter\":\"bob\"}\n";

/// What is offered once the answer is whole.
const REST: &str = concat!(
    r#"{"change":9,"message":"m","op":"patchset","set":1}"#,
    "\n",
    r#"{"change":9,"label":"verified","op":"vote","set":1,"value":1,"voter":"zuul"}"#,
    "\n",
    r#"{"change":4,"message":"m","op":"patchset","set":1}"#,
    "\n",
);

/// Feeds the answer to a query, and asserts what is offered, that its second line is reported, and how that ends.
fn assert_answered(
    rt: &(impl Abort + AllocGlobal),
    lines: &str,
    offered: &str,
    ended: Result<(), FeedFault>,
) {
    let mut answer = AnswerFeed::new(taking_feed(rt.alloc()));
    let mut source = Ends::new(lines.as_bytes());
    let found = feed_answer(rt.alloc(), &Projects::all(), &mut source, &mut answer);
    let wanted = Wanted {
        asks: "",
        reports: "reviewgate: events 1 BadEvent 2 line\n",
        ended,
    };
    let mut feed = answer.feed;
    assert_ended(rt, &mut feed, found, wanted);
    assert_found(rt, feed.site.offered.as_str(), offered);
}

/// What lowers an item is offered as it comes, and the rest once the answer is whole.
#[test]
fn an_answer_raises_nothing_before_it_is_whole(rt: HostRuntime) -> Result<(), Fail> {
    assert_answered(&rt, ROWS, VETO, Err(FeedFault::Incomplete));
    let mut cut = String::from_str(rt.alloc(), ROWS)?;
    cut.push_str("{\"type\":\"error\",\"message\":\"m\"}\n")?;
    assert_answered(&rt, cut.as_str(), VETO, Err(FeedFault::Incomplete));
    let mut whole = String::from_str(rt.alloc(), ROWS)?;
    whole.push_str("{\"type\":\"stats\"}\n")?;
    let mut all = String::from_str(rt.alloc(), VETO)?;
    all.push_str(REST)?;
    assert_answered(&rt, whole.as_str(), all.as_str(), Ok(()));
    Ok(())
}

/// How a feed of the events ends from a source that fails at its first call, or to outputs of which one does.
fn ended_with<O: Drain + Drop, E: Drain + Drop>(
    alloc: Global,
    fails: bool,
    output: O,
    errors: E,
) -> Result<(), FeedFault> {
    let mut feed = SiteFeed {
        alloc,
        bases: None,
        state: State::new(alloc),
        site: Scripted::new(alloc, 0, Err(IntakeFault::Ended)),
        output,
        errors,
    };
    let call = if fails { 1 } else { 99 };
    let mut source = Broken::at_call(Ends::new(EVENTS.as_bytes()), call);
    feed_site(alloc, &Projects::all(), &mut source, &mut feed)
}

#[test]
fn ends_that_fail_end_the_feed(rt: HostRuntime) {
    let alloc = rt.alloc();
    let text = || Ends::new(Vec::<u8>::new(alloc));
    let broken = || Broken::at_call(Ends::new(Vec::<u8>::new(alloc)), 1);
    assert_found(
        &rt,
        ended_with(alloc, true, text(), text()),
        Err(FeedFault::ReadFault),
    );
    assert_found(
        &rt,
        ended_with(alloc, false, broken(), text()),
        Err(FeedFault::WriteFault),
    );
    assert_found(
        &rt,
        ended_with(alloc, false, text(), broken()),
        Err(FeedFault::WriteFault),
    );
}

/// What the session of a site may answer, beside the greatest stamp, and how each is read.
const ANSWERS: [(&str, IntakeFault); 16] = [
    ("no 5 NoMemory", IntakeFault::Refused(Refusal::NoMemory)),
    ("no 7 BadText", IntakeFault::Refused(Refusal::BadText)),
    ("no 8 BadBody", IntakeFault::Refused(Refusal::BadBody)),
    ("no 9 ClockSpent", IntakeFault::Refused(Refusal::ClockSpent)),
    ("no 10 Closed", IntakeFault::Refused(Refusal::Closed)),
    ("no 11 NotAllowed", IntakeFault::NotAllowed),
    ("no 11 NotAllowed ", IntakeFault::Ended),
    ("", IntakeFault::Ended),
    ("ok", IntakeFault::Ended),
    ("ok 1,2,3", IntakeFault::Ended),
    ("ok 1,2,3,0", IntakeFault::Ended),
    ("ok 01,2,3,4", IntakeFault::Ended),
    ("ok +1,2,3,4", IntakeFault::Ended),
    ("ok 1,2,3,4,5", IntakeFault::Ended),
    ("no 11 Else", IntakeFault::Ended),
    ("bye", IntakeFault::Ended),
];

#[test]
fn answers_are_read(rt: HostRuntime) -> Result<(), Fail> {
    let stamp = Stamp::new(18446744073709551615, 65535, 4294967295, 1).ok_or("stamp")?;
    let line = b"ok 18446744073709551615,65535,4294967295,1";
    assert_found(&rt, read_answer(rt.alloc(), line), Ok(stamp));
    for (line, fault) in ANSWERS {
        assert_found(&rt, read_answer(rt.alloc(), line.as_bytes()), Err(fault));
    }
    Ok(())
}
