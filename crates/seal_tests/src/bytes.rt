//! Bytes for the other tests.

use std::alloc::{AllocError, Global};

/// So many times one byte.
pub(super) fn times(alloc: Global, byte: u8, count: usize) -> Result<Vec<u8>, AllocError> {
    vec![in alloc; byte; count]
}

/// A key, filled up with zeros as RFC 2104 does.
pub(super) fn key_of(bytes: &[u8]) -> [u8; 32] {
    let mut key = [0; 32];
    for (to, from) in key.iter_mut().zip(bytes) {
        *to = *from;
    }
    key
}

/// A line without its line end.
pub(super) fn without_end(line: &[u8]) -> &[u8] {
    match line.split_last() {
        Some((b'\n', front)) => front,
        _ => line,
    }
}
