//! Inputs, outputs and files that fail.

use super::one_file::{BrokenFile, OneFile};
use super::program::{Reported, assert_reported, reported_by};
use byte_ends::{Broken, Ends};
use std::alloc::Global;

/// A snapshot of two operations.
const BOTH: &str =
    "reviewgate 2\n{\"change\":5,\"op\":\"merged\",\"seq\":1,\"site\":1,\"start\":1,\"time\":1}\n{\"change\":6,\"op\":\"merged\",\"seq\":2,\"site\":1,\"start\":1,\"time\":2}\nend 2\n";

const UNREAD: &str = "reviewgate: snapshot 7 ReadFault\n";

const UNWRITTEN: &str = "reviewgate: output 1 WriteFault\n";

/// A file named `kept` with this text.
fn kept_file(alloc: Global, kept: &str) -> OneFile<'_> {
    OneFile {
        name: "kept",
        text: kept.as_bytes(),
        alloc,
        failures: 0,
    }
}

/// What merging the input and itself under another name reports, where the ends break.
fn broken_merge(alloc: Global, reads: u64, writes: u64) -> Reported {
    let words = ["merge", "-", "kept"];
    reported_by(
        alloc,
        words.as_slice(),
        &mut Broken::before_byte(Ends::new(BOTH.as_bytes()), reads),
        &mut Broken::before_byte(Ends::new(Vec::new(alloc)), writes),
        &mut kept_file(alloc, BOTH),
    )
}

#[test]
fn broken_ends_are_reported(rt: HostRuntime) {
    let alloc = rt.alloc();
    let length = BOTH.len() as u64;
    for byte in 1..=length {
        assert_reported(&rt, &broken_merge(alloc, byte, length + 1), UNREAD, 1);
        assert_reported(&rt, &broken_merge(alloc, length + 2, byte), UNWRITTEN, 1);
    }
    assert_reported(&rt, &broken_merge(alloc, length + 2, length + 1), "", 0);
}

/// A snapshot with a line that is none.
const BAD: &str = "reviewgate 2\n{\nend 1\n";

/// How merging the input and a file is refused, where a read of either fails before this byte.
fn broken_after(alloc: Global, text: &str, input: u64, file: u64) -> Reported {
    let words = ["merge", "-", "kept"];
    reported_by(
        alloc,
        words.as_slice(),
        &mut Broken::before_byte(Ends::new(text.as_bytes()), input),
        &mut Ends::new(Vec::new(alloc)),
        &mut BrokenFile {
            text: BAD.as_bytes(),
            byte: file,
            failures: 0,
        },
    )
}

// A line that is refused doesn't hide that a read fails after it, of the input or of a file.
#[test]
fn a_failure_after_a_bad_line_is_reported(rt: HostRuntime) {
    let alloc = rt.alloc();
    for byte in 15..=22u64 {
        assert_reported(&rt, &broken_after(alloc, BAD, byte, 99), UNREAD, 1);
        let unread = "reviewgate: snapshot 7 ReadFault kept\n";
        assert_reported(&rt, &broken_after(alloc, BOTH, 999, byte), unread, 1);
    }
    let line = "reviewgate: snapshot 2 BadLine 2 NotJson kept\n";
    assert_reported(&rt, &broken_after(alloc, BOTH, 999, 99), line, 1);
}

/// A gate file with one base.
const GATE: &str = "{\"bases\":[\"https://review.example.org/\"]}";

/// A commit message with a footer.
const MESSAGE: &str = "Fix it\n\nDepends-On: https://review.example.org/12\n";

/// A script that prints a state.
const SCRIPT: &str = "sites 1\nstate 1\n";

/// What words report of an input and a file named `kept`, to an output that fails at its first call.
fn unwritten(alloc: Global, words: &[&str], input: &str, kept: &str) -> Reported {
    reported_by(
        alloc,
        words,
        &mut Ends::new(input.as_bytes()),
        &mut Broken::at_call(Ends::new(Vec::new(alloc)), 1),
        &mut kept_file(alloc, kept),
    )
}

#[test]
fn a_broken_output_is_reported(rt: HostRuntime) {
    let cases: [(&[&str], &str, &str); 3] = [
        (&["footers", "-", "kept"], GATE, MESSAGE),
        (&["ready", "kept", "-"], "reviewgate 2\nend 0\n", GATE),
        (&["simulate", "-"], SCRIPT, ""),
    ];
    for (words, input, kept) in cases {
        let reported = unwritten(rt.alloc(), words, input, kept);
        assert_reported(&rt, &reported, UNWRITTEN, 1);
    }
}

/// What a script on an input that fails before its third byte reports.
fn unread_script(alloc: Global) -> Reported {
    let words = ["simulate", "-"];
    reported_by(
        alloc,
        words.as_slice(),
        &mut Broken::before_byte(Ends::new(SCRIPT.as_bytes()), 3),
        &mut Ends::new(Vec::new(alloc)),
        &mut kept_file(alloc, ""),
    )
}

#[test]
fn a_broken_script_is_reported(rt: HostRuntime) {
    let reported = unread_script(rt.alloc());
    assert_reported(&rt, &reported, "reviewgate: file 7 ReadFault\n", 1);
}
