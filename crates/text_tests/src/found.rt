//! Assertions of texts that are there where memory suffices for them.

use super::asserts::assert_found;
use std::process::Abort;

/// What a test lacks where memory is refused that it counts on.
pub(super) const MEMORY: &str = "memory";

/// There is a text, and it is this one.
pub(super) fn assert_text(rt: &impl Abort, found: Option<String>, wanted: &str) {
    assert_found(rt, found.as_deref(), Some(wanted));
}

/// There are bytes, and they are these.
pub(super) fn assert_bytes(rt: &impl Abort, found: Option<Vec<u8>>, wanted: &[u8]) {
    assert_found(rt, found.as_deref(), Some(wanted));
}

/// There is a text for what is read, and it is this one.
pub(super) fn assert_answer(rt: &impl Abort, read: &str, found: Option<String>, wanted: &str) {
    assert_found(rt, (read, found.as_deref()), (read, Some(wanted)));
}
