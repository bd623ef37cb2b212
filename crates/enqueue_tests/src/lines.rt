//! Lines that a site prints.

use enqueue_lines::{SiteLine, read_item, read_line};
use state_core::Item;
use std::test::Fail;

/// An item.
const ITEM: Item = Item {
    change: 101,
    set: 2,
};

/// Lines, and what they say.
const LINES: &[(&str, Option<SiteLine>)] = &[
    ("ready 101,2", Some(SiteLine::Ready(ITEM))),
    ("+ready 101,2", Some(SiteLine::NowReady(ITEM))),
    ("-ready 101,2", Some(SiteLine::NotReady(ITEM))),
    (
        "end 18446744073709551615 0",
        Some(SiteLine::End(u64::MAX, 0)),
    ),
    ("out 101,2 require approval 1", Some(SiteLine::Nothing)),
    ("gone 101,2", Some(SiteLine::Nothing)),
    ("listening 8101", Some(SiteLine::Nothing)),
    ("", None),
    ("out", None),
    ("ready 101", None),
    ("ready 101,02", None),
    ("ready +101,2", None),
    ("ready 101,2 ", None),
    ("ready 4294967296,2", None),
    ("Ready 101,2", None),
    ("end 1", None),
    ("end 18446744073709551616 0", None),
];

#[test]
fn lines_are_read(rt: HostRuntime) -> Result<(), Fail> {
    for (line, wanted) in LINES {
        let parsed = read_line(rt.alloc(), line.as_bytes())?;
        assert_eq!(rt; parsed, *wanted, "{line}");
    }
    let no_text = read_line(rt.alloc(), b"ready \xff1,2".as_slice())?;
    assert_eq!(rt; no_text, None);
    let item = read_item(rt.alloc(), b"101,2".as_slice())?;
    assert_eq!(rt; item, Some(ITEM));
    Ok(())
}
