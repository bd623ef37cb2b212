//! Feeds over texts, worked out by hand.

use super::asserts::assert_found;
use super::found::MEMORY;
use byte_ends::{Broken, Drain, Ends, Source};
use event_feed::{EventWriter, FeedFault, Input, Progress, Taker, events_run, feed_most};
use gerrit_events::{ParsedLine, Part, Projects};
use std::alloc::{AllocError, Global};
use std::process::Abort;

/// Lines of a source, what is written for them to the two outputs, and how the feed ends.
#[derive(Clone, Copy)]
struct Row {
    lines: &'static str,
    output: &'static str,
    errors: &'static str,
    fault: Option<FeedFault>,
}

/// What a feed wrote to its two outputs, and how it ended.
#[derive(Drop)]
struct Fed {
    output: Vec<u8>,
    errors: Vec<u8>,
    fault: Option<FeedFault>,
}

/// A writer to two outputs.
fn writer_to<D: Drain, E: Drain>(alloc: Global, output: D, errors: E) -> EventWriter<D, E> {
    EventWriter {
        alloc,
        output,
        errors,
    }
}

/// A writer to two texts.
fn writer(alloc: Global) -> EventWriter<Ends<Vec<u8>>, Ends<Vec<u8>>> {
    writer_to(
        alloc,
        Ends::new(Vec::new(alloc)),
        Ends::new(Vec::new(alloc)),
    )
}

/// What a writer has written, where its feed ended so.
fn fed_by(writer: EventWriter<Ends<Vec<u8>>, Ends<Vec<u8>>>, ended: Result<(), FeedFault>) -> Fed {
    let EventWriter { output, errors, .. } = writer;
    Fed {
        output: output.into_inner(),
        errors: errors.into_inner(),
        fault: ended.err(),
    }
}

/// What the feed of an input of these lines writes.
fn fed_input(alloc: Global, input: Input, projects: &Projects, lines: &[u8]) -> Fed {
    let mut writer = writer(alloc);
    let ended = events_run(alloc, input, projects, &mut Ends::new(lines), &mut writer);
    fed_by(writer, ended)
}

/// What the feed of a stream of these lines writes.
fn fed_lines(alloc: Global, lines: &[u8]) -> Fed {
    fed_input(alloc, Input::Stream, &Projects::all(), lines)
}

/// A feed wrote what stands in the row.
fn assert_fed(rt: &impl Abort, fed: &Fed, row: &Row) {
    let found = (fed.fault, fed.output.as_slice(), fed.errors.as_slice());
    let wanted = (row.fault, row.output.as_bytes(), row.errors.as_bytes());
    assert_found(rt, found, wanted);
}

/// Feeds, to their end and up to an event that was dropped.
const FEEDS: &[Row] = &[
    Row {
        lines: "",
        output: "hello 2\n",
        errors: "",
        fault: None,
    },
    Row {
        lines: concat!(
            r#"{"type":"patchset-created","change":{"number":7,"commitMessage":"m"},"#,
            r#""patchSet":{"number":1,"revision":"a1"}}"#,
            "\r\n",
            r#"{"type":"comment-added","change":{"number":7},"patchSet":{"number":1},"#,
            r#""author":{"username":"zuul"},"approvals":[{"type":"Verified","value":"1"},"#,
            r#"{"type":"Verified","value":"one"},{"type":"Code-Review","value":"0","oldValue":"2"}]}"#,
            "\n\n",
            r#"{"type":"change-merged","change":{"number":7}}"#,
            "\n",
            r#"{"type":"change-me"#,
        ),
        output: concat!(
            "hello 2\n",
            r#"take {"change":7,"message":"m","op":"patchset","set":1}"#,
            "\n",
            r#"take {"change":7,"label":"verified","op":"vote","set":1,"value":1,"voter":"zuul"}"#,
            "\n",
            r#"take {"change":7,"label":"code-review","op":"withdraw","set":1,"voter":"zuul"}"#,
            "\n",
            r#"take {"change":7,"op":"merged"}"#,
            "\n",
        ),
        errors: concat!(
            "reviewgate: events 1 BadEvent 2 value\n",
            "reviewgate: events 1 BadEvent 3 line\n",
            "reviewgate: events 1 BadEvent 5 line\n",
        ),
        fault: None,
    },
    Row {
        lines: concat!(
            r#"{"type":"change-restored","change":{"number":7}}"#,
            "\n",
            r#"{"type":"dropped-output"}"#,
            "\n",
            r#"{"type":"change-merged","change":{"number":7}}"#,
            "\n",
        ),
        output: "hello 2\ntake {\"change\":7,\"op\":\"restore\"}\n",
        errors: "reviewgate: events 2 Dropped 2\n",
        fault: Some(FeedFault::Dropped),
    },
];

#[test]
fn each_line_is_fed(rt: HostRuntime) {
    for row in FEEDS {
        assert_fed(&rt, &fed_lines(rt.alloc(), row.lines.as_bytes()), row);
    }
}

/// What the feed of these lines writes where a line has at most 30 bytes and a feed three lines.
fn fed_limited(alloc: Global, lines: &[u8]) -> Fed {
    let mut writer = writer(alloc);
    let mut source = Ends::new(lines);
    let projects = Projects::all();
    let ended = feed_most(
        alloc,
        Input::Stream,
        &projects,
        30,
        3,
        &mut source,
        &mut writer,
    );
    fed_by(writer, ended)
}

/// Feeds with lines that are too long, or too many.
const LIMITED: &[Row] = &[
    Row {
        lines: "{\"type\":\"stats\",\"rowCount\":1234}\n{\"type\":\"stats\",\"rowCount\":1}\n",
        output: "",
        errors: "reviewgate: events 1 BadEvent 1 line\n",
        fault: None,
    },
    Row {
        lines: "{\"type\":\"stats\",\"rowCount\":1234}",
        output: "",
        errors: "reviewgate: events 1 BadEvent 1 line\n",
        fault: None,
    },
    Row {
        lines: "{\"type\":\"dropped-output\"}\n",
        output: "",
        errors: "reviewgate: events 2 Dropped 1\n",
        fault: Some(FeedFault::Dropped),
    },
    Row {
        lines: "{\"type\":\"a\"}\n{\"type\":\"b\"}\n{\"type\":\"c\"}\n",
        output: "",
        errors: "",
        fault: Some(FeedFault::ReadFault),
    },
];

#[test]
fn long_lines_are_passed_over(rt: HostRuntime) {
    for row in LIMITED {
        assert_fed(&rt, &fed_limited(rt.alloc(), row.lines.as_bytes()), row);
    }
}

/// A line that brings nothing, behind so many blanks.
fn behind_blanks(alloc: Global, blanks: usize) -> Result<Vec<u8>, AllocError> {
    let mut line = vec![in alloc; b' '; blanks]?;
    line.extend_from_slice(b"{\"type\":\"stats\"}\n")?;
    Ok(line)
}

/// How a feed of one line behind so many blanks ended, and what it reported.
fn reported(alloc: Global, blanks: usize) -> Option<(Option<FeedFault>, Vec<u8>)> {
    let line = behind_blanks(alloc, blanks).ok()?;
    let fed = fed_lines(alloc, line.as_slice());
    Some((fed.fault, fed.errors))
}

/// A feed of one line behind so many blanks comes to its end, and reports this.
fn assert_reported(rt: &impl Abort, alloc: Global, blanks: usize, wanted: &str) {
    let (fault, errors) = reported(alloc, blanks).expect(rt, MEMORY);
    assert_found(rt, (fault, errors.as_slice()), (None, wanted.as_bytes()));
}

#[test]
fn a_line_of_two_mebibytes_is_read(rt: HostRuntime) {
    assert_reported(&rt, rt.alloc(), 2_097_152, "");
}

/// A line that merges a change, and one that is no event.
const TWO_LINES: &[u8] = b"{\"type\":\"change-merged\",\"change\":{\"number\":7}}\n{}\n";

/// A line of statistics that ends an answer, one after which more is left, a row of a merged change, and an error.
const ENDS: &str = "{\"type\":\"stats\",\"rowCount\":1}\n";

const MORE: &str = "{\"type\":\"stats\",\"rowCount\":1,\"moreChanges\":true}\n";

const MERGED: &str = concat!(
    r#"{"project":"p","number":5,"status":"MERGED","commitMessage":"m","currentPatchSet":{"number":1}}"#,
    "\n",
);

const ERROR: &str = "{\"type\":\"error\",\"message\":\"timeout\"}\n";

const EVENT: &str = "{\"type\":\"ref-updated\"}\n";

/// The parts of an input, one after the other, and how the feed of a stream of them ends, and of an answer.
#[derive(Clone, Copy)]
struct Parts {
    lines: &'static [&'static str],
    stream: Option<FeedFault>,
    answer: Option<FeedFault>,
}

/// An answer has to come to its end where it is awaited or has begun.
const ANSWERS: &[Parts] = &[
    Parts {
        lines: &[],
        stream: None,
        answer: Some(FeedFault::Incomplete),
    },
    Parts {
        lines: &[ENDS],
        stream: None,
        answer: None,
    },
    Parts {
        lines: &[EVENT],
        stream: None,
        answer: Some(FeedFault::Incomplete),
    },
    Parts {
        lines: &[MERGED, ENDS, EVENT],
        stream: None,
        answer: None,
    },
    Parts {
        lines: &[MERGED],
        stream: Some(FeedFault::Incomplete),
        answer: Some(FeedFault::Incomplete),
    },
    Parts {
        lines: &[MERGED, MORE],
        stream: Some(FeedFault::Incomplete),
        answer: Some(FeedFault::Incomplete),
    },
    Parts {
        lines: &[MERGED, MORE, MERGED, ENDS],
        stream: None,
        answer: None,
    },
    Parts {
        lines: &[MERGED, ENDS, MERGED],
        stream: Some(FeedFault::Incomplete),
        answer: Some(FeedFault::Incomplete),
    },
    Parts {
        lines: &[ENDS, "{\"type\":\"stats\"}"],
        stream: None,
        answer: None,
    },
    Parts {
        lines: &[ERROR],
        stream: Some(FeedFault::Incomplete),
        answer: Some(FeedFault::Incomplete),
    },
];

/// Lines one after the other.
fn joined(alloc: Global, lines: &[&str]) -> Option<String> {
    let mut text = String::new(alloc);
    for line in lines {
        text.push_str(line).ok()?;
    }
    Some(text)
}

/// How the feed of a stream of these lines ends, and of an answer, and whether both write the same.
fn ended_both(alloc: Global, lines: &[u8]) -> (Option<FeedFault>, Option<FeedFault>, bool) {
    let stream = fed_lines(alloc, lines);
    let answer = fed_input(alloc, Input::Answer, &Projects::all(), lines);
    let is_same = answer.output.as_slice() == stream.output.as_slice();
    (stream.fault, answer.fault, is_same)
}

/// The same of these lines, one after the other.
fn ended_joined(
    alloc: Global,
    lines: &[&str],
) -> Option<(Option<FeedFault>, Option<FeedFault>, bool)> {
    let text = joined(alloc, lines)?;
    Some(ended_both(alloc, text.as_bytes()))
}

#[test]
fn an_answer_has_to_be_whole(rt: HostRuntime) {
    for parts in ANSWERS {
        let wanted = (parts.stream, parts.answer, true);
        assert_found(&rt, ended_joined(rt.alloc(), parts.lines), Some(wanted));
    }
}

/// What is written where an error ends the feed.
const UP_TO_AN_ERROR: Row = Row {
    lines: "",
    output: concat!(
        "hello 2\n",
        "take {\"change\":5,\"op\":\"merged\"}\n",
        "take {\"change\":5,\"message\":\"m\",\"op\":\"patchset\",\"set\":1}\n",
    ),
    errors: "",
    fault: Some(FeedFault::Incomplete),
};

/// An error ends the feed at once: what comes after it isn't read.
#[test]
fn an_error_ends_the_feed(rt: HostRuntime) {
    let lines = joined(rt.alloc(), &[MERGED, ERROR, MERGED, "{", ENDS]).expect(&rt, MEMORY);
    assert_fed(
        &rt,
        &fed_lines(rt.alloc(), lines.as_bytes()),
        &UP_TO_AN_ERROR,
    );
}

/// How many bytes the feed of an answer writes where one project is fed, and how it ends.
fn fed_for(alloc: Global, name: &str) -> Option<(usize, Option<FeedFault>)> {
    let name = String::from_str(alloc, name).ok()?;
    let projects = Projects::named(vec![in alloc; name].ok()?);
    let fed = fed_input(alloc, Input::Answer, &projects, MERGED.as_bytes());
    Some((fed.output.len(), fed.fault))
}

/// Of changes of other projects nothing is written, but their rows are rows.
#[test]
fn the_named_projects_are_fed(rt: HostRuntime) {
    for (name, length) in [("p", 96usize), ("q", 8)] {
        let wanted = (length, Some(FeedFault::Incomplete));
        assert_found(&rt, fed_for(rt.alloc(), name), Some(wanted));
    }
}

/// What was handed to a taker, as far as the tests look.
#[derive(Drop)]
struct Counting {
    rests: u64,
    lines: u64,
    /// At which rest or line it fails.
    last_rest: u64,
    last_line: u64,
}

impl Taker for Counting {
    ghost rests = { λ old result new. Unit {0} };

    ghost takes = { λ old number parsed result new. Unit {0} };

    fn rest(&mut self) -> Result<(), FeedFault> {
        self.rests = self.rests.wrapping_add(1);
        if self.rests == self.last_rest {
            return Err(FeedFault::Ended);
        }
        Ok(())
    }

    fn take(&mut self, number: u64, _parsed: ParsedLine) -> Result<(), FeedFault> {
        self.lines = number;
        if number == self.last_line {
            return Err(FeedFault::NoSite);
        }
        Ok(())
    }
}

/// How often a taker rested and which line it was handed last, and how the feed of these lines ended.
fn counted<S: Source>(
    alloc: Global,
    source: &mut S,
    last_rest: u64,
    last_line: u64,
) -> (u64, u64, Option<FeedFault>) {
    let mut taker = Counting {
        rests: 0,
        lines: 0,
        last_rest,
        last_line,
    };
    let projects = Projects::all();
    let ended = feed_most(alloc, Input::Stream, &projects, 100, 9, source, &mut taker);
    (taker.rests, taker.lines, ended.err())
}

/// A taker rests where no whole line is held: before the three lines that come at once, and before the end.
#[test]
fn a_taker_rests_before_more_is_read(rt: HostRuntime) {
    let alloc = rt.alloc();
    for (last_rest, last_line, wanted) in [
        (0u64, 0u64, (2u64, 3u64, None)),
        (1, 0, (1, 0, Some(FeedFault::Ended))),
        (2, 0, (2, 3, Some(FeedFault::Ended))),
        (0, 2, (1, 2, Some(FeedFault::NoSite))),
    ] {
        let mut source = Ends::new(
            b"{\"type\":\"a\"}\n{\"type\":\"b\"}\n{\"type\":\"c\"}\n".as_slice(),
        );
        assert_found(
            &rt,
            counted(alloc, &mut source, last_rest, last_line),
            wanted,
        );
    }
}

/// The progress of an answer after each part of one.
#[test]
fn rows_open_an_answer_and_statistics_end_it(rt: HostRuntime) {
    let mut progress = Progress::Unbegun;
    for (part, wanted) in [
        (Part::Nothing, Progress::Unbegun),
        (Part::Event(Some(1)), Progress::Unbegun),
        (Part::Row(None), Progress::Open),
        (Part::Event(None), Progress::Open),
        (Part::Stats { more: false }, Progress::Whole),
        (Part::Nothing, Progress::Whole),
        (Part::Stats { more: true }, Progress::Open),
        (Part::Stats { more: false }, Progress::Whole),
        (Part::Row(Some(1)), Progress::Open),
    ] {
        progress = progress.after(part);
        assert_found(&rt, progress, wanted);
    }
}

/// What the feed of the two lines writes where its output fails at this call.
fn fed_to_failing_output(alloc: Global, call: u64) -> Fed {
    let output = Broken::at_call(Ends::new(Vec::new(alloc)), call);
    let mut writer = writer_to(alloc, output, Ends::new(Vec::new(alloc)));
    let mut source = Ends::new(TWO_LINES);
    let ended = events_run(
        alloc,
        Input::Stream,
        &Projects::all(),
        &mut source,
        &mut writer,
    );
    let EventWriter { output, errors, .. } = writer;
    Fed {
        output: output.into_inner().into_inner(),
        errors: errors.into_inner(),
        fault: ended.err(),
    }
}

/// A feed's output failed when it had taken so many bytes, and nothing was reported.
fn assert_output_failed(rt: &impl Abort, fed: &Fed, length: usize) {
    let found = (fed.fault, fed.output.len(), fed.errors.len());
    assert_found(rt, found, (Some(FeedFault::WriteFault), length, 0));
}

#[test]
fn a_failing_end_ends_the_feed(rt: HostRuntime) {
    for (call, length) in [(1, 0usize), (2, 8)] {
        assert_output_failed(&rt, &fed_to_failing_output(rt.alloc(), call), length);
    }
}

/// How the feed of the two lines ends where its reports fail at the first call.
fn fault_of_failing_errors(alloc: Global) -> Option<FeedFault> {
    let errors = Broken::at_call(Ends::new(Vec::new(alloc)), 1);
    let mut writer = writer_to(alloc, Ends::new(Vec::new(alloc)), errors);
    let mut source = Ends::new(TWO_LINES);
    let ended = events_run(
        alloc,
        Input::Stream,
        &Projects::all(),
        &mut source,
        &mut writer,
    );
    ended.err()
}

#[test]
fn failing_reports_end_the_feed(rt: HostRuntime) {
    assert_found(
        &rt,
        fault_of_failing_errors(rt.alloc()),
        Some(FeedFault::WriteFault),
    );
}

/// What the feed of the two lines writes where its source fails before this byte.
fn fed_from_failing_source(alloc: Global, byte: u64) -> Fed {
    let mut source = Broken::before_byte(Ends::new(TWO_LINES), byte);
    let mut writer = writer(alloc);
    let ended = events_run(
        alloc,
        Input::Stream,
        &Projects::all(),
        &mut source,
        &mut writer,
    );
    fed_by(writer, ended)
}

#[test]
fn a_failing_source_ends_the_feed(rt: HostRuntime) {
    let fed = fed_from_failing_source(rt.alloc(), 50);
    let found = (fed.fault, fed.output.as_slice());
    let output = b"hello 2\ntake {\"change\":7,\"op\":\"merged\"}\n".as_slice();
    assert_found(&rt, found, (Some(FeedFault::ReadFault), output));
}

#[test]
fn faults_have_numbers_and_names(rt: HostRuntime) {
    for (fault, number, name) in [
        (FeedFault::Dropped, 2, "Dropped"),
        (FeedFault::ReadFault, 3, "ReadFault"),
        (FeedFault::WriteFault, 4, "WriteFault"),
        (FeedFault::NoMemory, 5, "NoMemory"),
        (FeedFault::NoSite, 7, "NoSite"),
        (FeedFault::Ended, 8, "Ended"),
        (FeedFault::Incomplete, 9, "Incomplete"),
    ] {
        assert_found(&rt, (fault.number(), fault.name()), (number, name));
    }
}
