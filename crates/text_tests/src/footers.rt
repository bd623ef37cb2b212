//! Messages and their footers, worked out by hand.

use super::asserts::assert_found;
use super::found::MEMORY;
use footer_text::{Bases, BasesFault, Footers, depends, footers_are_unique};
use std::alloc::{AllocError, Global};
use std::process::Abort;

const REVIEW: &str = "https://review.example.org/";

// The lines of a message: the third ends in a carriage return, the fifth in two blanks, and the
// sixth is indented.
const MESSAGE: &str = "Fix it\n\n\
    DEPENDS-ON:https://review.example.org/#/c/12/3/\r\n\
    Depends-On: https://review.example.org/c/a/b/+/12\n\
    depends-on:   https://review.example.org/12  \n\
    \x20 Depends-On: https://review.example.org/13\n\
    Depends-On: https://other.example.org/14\n\
    Depends-On: https://review.example.org/4294967296\n\
    Depends-On: https://review.example.org/9\n";

/// The footers of the message of a change under these bases.
fn footers_of<'m>(
    alloc: Global,
    bases: &[&str],
    change: u32,
    message: &'m str,
) -> Option<Footers<'m>> {
    let bases = Bases::new(alloc, bases).ok()?;
    depends(alloc, &bases, change, message).ok()
}

/// A message of a change, the bases that read it, and what its footers say.
struct Row {
    bases: &'static [&'static str],
    change: u32,
    message: &'static str,
    needs: &'static [u32],
    ignored: &'static [&'static str],
}

/// The footers of each row's message say what stands beside it.
fn assert_rows(rt: &impl Abort, alloc: Global, rows: &[Row]) {
    for row in rows {
        let found = footers_of(alloc, row.bases, row.change, row.message).expect(rt, MEMORY);
        assert_footers(rt, &found, row);
    }
}

/// The footers are those of the row.
fn assert_footers(rt: &impl Abort, found: &Footers<'_>, row: &Row) {
    let found = (found.needs.as_slice(), found.ignored.as_slice());
    assert_found(rt, found, (row.needs, row.ignored));
}

/// The message as that of change 9, which its last line names, and as that of a change with no number.
const NINE_LINES: &[Row] = &[
    Row {
        bases: &[REVIEW],
        change: 9,
        message: MESSAGE,
        needs: &[12],
        ignored: &[
            "https://other.example.org/14",
            "https://review.example.org/4294967296",
            "https://review.example.org/9",
        ],
    },
    Row {
        bases: &[REVIEW],
        change: 0,
        message: MESSAGE,
        needs: &[9, 12],
        ignored: &[
            "https://other.example.org/14",
            "https://review.example.org/4294967296",
        ],
    },
];

#[test]
fn nine_lines(rt: HostRuntime) {
    footers_are_unique();
    assert_rows(&rt, rt.alloc(), NINE_LINES);
}

/// What one line names under three bases; 0 where its value is ignored, and nothing where it is no footer.
fn named(alloc: Global, line: &str) -> Option<Option<u32>> {
    let found = footers_of(alloc, &["https://r/", "https://r/c/", "ssh://r/"], 7, line)?;
    Some(first_named(&found))
}

/// The first change that the footers need, where they ignore nothing, and 0 where they ignore something alone.
fn first_named(found: &Footers<'_>) -> Option<u32> {
    match (found.needs.first(), found.ignored.first()) {
        (Some(change), None) => Some(*change),
        (None, Some(_)) => Some(0),
        _ => None,
    }
}

/// A line, with the change that it names.
type Named = (&'static str, Option<u32>);

/// Each line names what stands beside it.
fn assert_named(rt: &impl Abort, alloc: Global, rows: &[Named]) {
    for (line, change) in rows {
        assert_found(rt, (*line, named(alloc, line)), (*line, Some(*change)));
    }
}

/// Values of a footer, with the change that each names.
const VALUES: &[Named] = &[
    ("Depends-On: https://r/12", Some(12)),
    ("Depends-On: https://r/4294967295", Some(4294967295)),
    ("Depends-On: https://r/4294967296", Some(0)),
    ("Depends-On: https://r/9999999999", Some(0)),
    ("Depends-On: https://r/0000000012", Some(12)),
    ("Depends-On: https://r/00000000012", Some(0)),
    ("Depends-On: https://r/0", Some(0)),
    ("Depends-On: https://r/+12", Some(0)),
    ("Depends-On: https://r/", Some(0)),
    ("Depends-On: https://r/7", Some(0)),
    ("Depends-On: https://r/12/", Some(12)),
    ("Depends-On: https://r/12/3", Some(12)),
    ("Depends-On: https://r/12/3/", Some(12)),
    ("Depends-On: https://r/12/3/4", Some(0)),
    ("Depends-On: https://r/12//", Some(0)),
    ("Depends-On: https://r/12/x", Some(0)),
    ("Depends-On: https://r/12/12345678901", Some(0)),
    ("Depends-On: https://r/12?x", Some(0)),
    ("Depends-On: https://r/#/c/12", Some(12)),
    ("Depends-On: https://r/#/c/12/3", Some(12)),
    ("Depends-On: https://r/#/c/a/+/12", Some(0)),
    ("Depends-On: https://r/c/a/b/+/12", Some(12)),
    ("Depends-On: https://r/c/a/+/b/+/12/3", Some(12)),
    ("Depends-On: https://r/c/+/+/12", Some(12)),
    ("Depends-On: https://r/c//+/12", Some(0)),
    ("Depends-On: https://r/c/a/+/12/+/", Some(0)),
    ("Depends-On: https://r/c/a+/12", Some(0)),
    ("Depends-On: ssh://r/12", Some(12)),
];

#[test]
fn values(rt: HostRuntime) {
    assert_named(&rt, rt.alloc(), VALUES);
}

/// Lines, with the change that each names. The second base reads `https://r/c/12` too, and the first doesn't; the first
/// counts where both read.
const LINES: &[Named] = &[
    ("Depends-On: https://r/c/12", Some(12)),
    ("DEPENDS-ON:\thttps://r/12\t\r", Some(12)),
    ("depends-on:https://r/12", Some(12)),
    ("dEPENDS-oN: \r\t https://r/12", Some(12)),
    (" Depends-On: https://r/12", None),
    ("\tDepends-On: https://r/12", None),
    ("Depends-On : https://r/12", None),
    ("Depends-On https://r/12", None),
    ("XDepends-On: https://r/12", None),
    ("Depends-On:", Some(0)),
    ("Depends-On: \r", Some(0)),
    ("Depends-On: https://r/12 and more", Some(0)),
    ("Depends-On: https://r/12\u{a0}", Some(0)),
    ("D\u{e9}pends-On: https://r/12", None),
    ("x\n\nDepends-On: https://r/12", Some(12)),
    ("Depends-On: https://r/12\n\n", Some(12)),
    ("", None),
];

#[test]
fn lines(rt: HostRuntime) {
    assert_named(&rt, rt.alloc(), LINES);
}

/// Messages that two bases read. Where the first names the message's own change, the second isn't asked.
const TWO_BASES: &[Row] = &[
    Row {
        bases: &["https://r/", "https://r/c/5/+/"],
        change: 0,
        message: "Depends-On: https://r/c/5/+/12",
        needs: &[12],
        ignored: &[],
    },
    Row {
        bases: &["https://r/", "https://r/1/"],
        change: 0,
        message: "Depends-On: https://r/1/2",
        needs: &[1],
        ignored: &[],
    },
    Row {
        bases: &["https://r/1/", "https://r/"],
        change: 0,
        message: "Depends-On: https://r/1/2",
        needs: &[2],
        ignored: &[],
    },
    Row {
        bases: &["https://r/1/", "https://r/"],
        change: 2,
        message: "Depends-On: https://r/1/2",
        needs: &[],
        ignored: &["https://r/1/2"],
    },
];

// The first base that reads a value counts, in the order in which the bases come.
#[test]
fn first_base(rt: HostRuntime) {
    assert_rows(&rt, rt.alloc(), TWO_BASES);
}

/// Adds a footer of 32 bytes, for a number of nine digits.
fn push_footer(alloc: Global, message: &mut String, number: u32) -> Result<(), AllocError> {
    let footer = format!(in alloc; "Depends-On: https://r/{number}\n")?;
    message.push_str(footer.as_str())
}

/// A message of 2048 footers, each number twice, and the numbers fall.
fn long_message(alloc: Global) -> Result<String, AllocError> {
    let mut message = String::new(alloc);
    for n in 0..2048u32 {
        push_footer(alloc, &mut message, 999_999_999 - n / 2)?;
    }
    Ok(message)
}

/// How many changes the footers of a message need, which is the first, and how many values they ignore.
fn counts(alloc: Global, message: &str) -> Option<(usize, Option<u32>, usize)> {
    let found = footers_of(alloc, &["https://r/"], 0, message)?;
    let first = found.needs.first().copied();
    Some((found.needs.len(), first, found.ignored.len()))
}

#[test]
fn many_footers(rt: HostRuntime) {
    let message = long_message(rt.alloc()).ok().expect(&rt, MEMORY);
    assert_found(&rt, message.len(), 65_536);
    let wanted = (1024, Some(999_998_976), 0);
    assert_found(&rt, counts(rt.alloc(), message.as_str()), Some(wanted));
}

/// Why these texts are no bases.
fn fault(alloc: Global, texts: &[&str]) -> Option<BasesFault> {
    Bases::new(alloc, texts).err()
}

/// A base of 255 letters and this end.
fn long_base(alloc: Global, end: &str) -> Result<String, AllocError> {
    let mut text = String::new(alloc);
    for _ in 0..255 {
        text.push('x')?;
    }
    text.push_str(end)?;
    Ok(text)
}

/// Why a base of 255 letters and this end is none behind another one.
fn long_fault(alloc: Global, end: &str) -> Option<Option<BasesFault>> {
    let text = long_base(alloc, end).ok()?;
    Some(fault(alloc, &["/", text.as_str()]))
}

// A base of 256 bytes, and one of 257.
#[test]
fn long_bases(rt: HostRuntime) {
    let faults = (long_fault(rt.alloc(), "/"), long_fault(rt.alloc(), "//"));
    let wanted = (Some(None), Some(Some(BasesFault::BadBase(1))));
    assert_found(&rt, faults, wanted);
}

/// How many bases there are, also by going over them, and whether the second one is `x/` and there is no fourth one.
fn counted(bases: &Bases) -> (usize, usize, bool, bool) {
    let is_second = bases.get(1) == Some("x/");
    (
        bases.len(),
        bases.iter().count(),
        is_second,
        bases.get(3).is_none(),
    )
}

/// Whether the copy of the bases has this one at this place.
fn is_copied(bases: &Bases, place: usize, wanted: &str) -> Option<bool> {
    let copy = bases.copy().ok()?;
    Some(copy.get(place) == Some(wanted))
}

#[test]
fn bases(rt: HostRuntime) {
    let bases = Bases::new(rt.alloc(), &[GOOD, "x/", "/"])
        .ok()
        .expect(&rt, MEMORY);
    assert_found(&rt, counted(&bases), (3, 3, true, true));
    assert_found(&rt, is_copied(&bases, 2, "/"), Some(true));
}

const GOOD: &str = "https://r/";

/// Texts, with why they are no bases.
const FAULTS: &[(&[&str], Option<BasesFault>)] = &[
    (&[], Some(BasesFault::BadBase(0))),
    (&[GOOD, "", "x"], Some(BasesFault::BadBase(1))),
    (&["https://r"], Some(BasesFault::BadBase(0))),
    (&[GOOD, "a b/"], Some(BasesFault::BadBase(1))),
    (&[GOOD, "\u{e9}/"], Some(BasesFault::BadBase(1))),
    (&[GOOD, GOOD, GOOD, GOOD, GOOD, GOOD, GOOD, GOOD], None),
    (
        &[GOOD, GOOD, GOOD, GOOD, GOOD, GOOD, GOOD, GOOD, GOOD],
        Some(BasesFault::BadBase(8)),
    ),
    (
        &[GOOD, GOOD, GOOD, GOOD, GOOD, GOOD, GOOD, "x", GOOD],
        Some(BasesFault::BadBase(7)),
    ),
];

#[test]
fn texts_that_are_no_bases(rt: HostRuntime) {
    for (texts, wanted) in FAULTS {
        assert_found(&rt, fault(rt.alloc(), texts), *wanted);
    }
}

#[test]
fn faults_have_numbers_and_names(rt: HostRuntime) {
    for (fault, number, name) in [
        (BasesFault::BadBase(8), 1u8, "BadBase"),
        (BasesFault::NoMemory, 2, "NoMemory"),
    ] {
        assert_found(&rt, (fault.number(), fault.name()), (number, name));
    }
}
