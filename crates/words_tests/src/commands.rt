//! That each command line is read, and what the arguments of `recover` ask for. What others ask for is in `plays`.

use command_line::{Asked, read_words};
use std::alloc::Global;
use std::test::Fail;

/// What words ask for, by its kind.
fn kind_of(alloc: Global, words: &[&str]) -> &'static str {
    match read_words(alloc, words) {
        Asked::Run(_) => "run",
        Asked::Serve(_) => "serve",
        Asked::Recover(_) => "recover",
        Asked::Events(_) => "events",
        Asked::Queries(_) => "queries",
        Asked::Enqueue(_) => "enqueue",
        Asked::Help(_) => "help",
        Asked::Version(_) => "version",
        Asked::Usage(_) => "usage",
        Asked::NoMemory => "memory",
    }
}

#[test]
fn each_command_line_is_read(rt: HostRuntime) {
    let cases: [(&[&str], &str); 16] = [
        (&["ready", "g", "s"], "run"),
        (&["ready", "g", "s", "--item", "1"], "run"),
        (&["why", "g", "s", "1"], "run"),
        (&["graph", "g", "s"], "run"),
        (&["merge", "a", "b"], "run"),
        (&["footers", "g", "m"], "run"),
        (&["check", "g"], "run"),
        (&["simulate", "s"], "run"),
        (&["serve", "g", "--site=1", "--start=1"], "serve"),
        (&["recover", "j"], "recover"),
        (&["events"], "events"),
        (&["queries"], "queries"),
        (&["enqueue", "q"], "enqueue"),
        (&["--help"], "help"),
        (&["--version"], "version"),
        (&["ready"], "usage"),
    ];
    for (words, kind) in cases {
        assert_eq!(rt; kind_of(rt.alloc(), words), kind);
    }
}

/// The journal that words ask to recover, what they leave out, and the greatest time that they keep.
type Recovery<'a> = (&'a str, Vec<(u16, u32)>, Option<u64>);

/// What words ask to recover.
fn recovery_of<'a>(alloc: Global, words: &'a [&'a str]) -> Option<Recovery<'a>> {
    match read_words(alloc, words) {
        Asked::Recover(words) => Some((words.journal, words.without, words.until)),
        _ => None,
    }
}

#[test]
fn what_is_left_out_is_named_by_site_and_start(rt: HostRuntime) -> Result<(), Fail> {
    let words = [
        "recover",
        "--without",
        "2,4294967295",
        "j",
        "--without=65535,0",
        "--until",
        "18446744073709551615",
    ];
    let (name, rows, until) = recovery_of(rt.alloc(), words.as_slice()).ok_or("a recovery")?;
    assert_eq!(rt; (name, until), ("j", Some(u64::MAX)));
    assert_eq!(rt;
        rows.as_slice(),
        [(2, 4_294_967_295), (65_535, 0)].as_slice()
    );
    let words = ["recover", "j", "--until", "0"];
    let (name, rows, until) = recovery_of(rt.alloc(), words.as_slice()).ok_or("a recovery")?;
    assert_eq!(rt; (name, rows.len(), until), ("j", 0, Some(0)));
    Ok(())
}
