//! That each command is answered where no memory is refused, over memory. What it answers is in `plays`.

use super::asserts::assert_found;
use super::one_file::{OneFile, OneSite};
use super::program::{Printed, printed_by};
use byte_ends::Ends;
use std::alloc::Global;

/// A gate that wants a vote of zuul.
const GATE: &str =
    r#"{"bases":["https://r/"],"require":{"gerrit":{"approval":{"username":"zuul","Verified":1}}}}"#;

/// A record of a change that nobody voted on.
const RECORD: &str = r#"reviewgate 2
{"change":101,"message":"m","op":"patchset","seq":1,"set":1,"site":1,"start":1,"time":1}
end 1
"#;

/// A script that reports.
const SCRIPT: &str = "sites 1\nready 1\n";

/// A commit message.
const MESSAGE: &str = "Fix\n\nDepends-On: https://r/12\nDepends-On: x\n";

/// What the program prints for words over this input and the gate file.
fn printed_for(alloc: Global, words: &[&str], input: &str) -> Printed {
    let mut files = OneFile {
        name: "gate",
        text: GATE.as_bytes(),
        alloc,
        failures: 0,
    };
    printed_by(alloc, words, &mut Ends::new(input.as_bytes()), &mut files)
}

/// Whether anything is on standard output and on standard error, and the exit status.
fn is_printed(printed: &Printed) -> (bool, bool, u8) {
    (!printed.0.is_empty(), !printed.1.is_empty(), printed.2)
}

#[test]
fn each_command_is_answered(rt: HostRuntime) {
    let cases: [(&[&str], &str, u8); 14] = [
        (&["ready", "gate", "-"], RECORD, 0),
        (&["ready", "gate", "-", "--json"], RECORD, 0),
        (&["ready", "gate", "-", "--item", "101"], RECORD, 3),
        (
            &["ready", "gate", "-", "--item", "101", "--json"],
            RECORD,
            3,
        ),
        (&["why", "gate", "-", "101", "--all"], RECORD, 0),
        (&["why", "gate", "-", "101", "--all", "--json"], RECORD, 0),
        (&["graph", "gate", "-"], RECORD, 0),
        (&["graph", "gate", "-", "--around", "101"], RECORD, 0),
        (&["footers", "gate", "-"], MESSAGE, 0),
        (&["footers", "gate", "-", "--json"], MESSAGE, 0),
        (&["check", "gate", "-"], RECORD, 0),
        (&["check", "gate", "-", "--json"], RECORD, 0),
        (&["simulate", "-", "gate"], SCRIPT, 0),
        (&["--help"], "", 0),
    ];
    for (words, input, status) in cases {
        let printed = printed_for(rt.alloc(), words, input);
        assert_found(
            &rt,
            (words, is_printed(&printed)),
            (words, (true, false, status)),
        );
    }
}

// A refusal, and a usage error.
#[test]
fn what_is_refused_is_said(rt: HostRuntime) {
    let cases: [(&[&str], u8); 2] = [(&["ready", "gate", "-"], 1), (&["serve"], 2)];
    for (words, status) in cases {
        let printed = printed_for(rt.alloc(), words, "");
        assert_found(
            &rt,
            (words, is_printed(&printed)),
            (words, (false, true, status)),
        );
    }
}

#[test]
fn a_site_over_memory_is_asked(rt: HostRuntime) {
    let mut site = OneSite {
        port: 8101,
        record: RECORD.as_bytes(),
        failures: 0,
    };
    let words = ["ready", "-", "@8101"];
    let printed = printed_by(
        rt.alloc(),
        words.as_slice(),
        &mut Ends::new(GATE.as_bytes()),
        &mut site,
    );
    assert_found(&rt, is_printed(&printed), (true, false, 0));
}
