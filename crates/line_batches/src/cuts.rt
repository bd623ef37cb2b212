//! Where bytes are cut into lines.

ghost use Rattle.std.specs.Prelude.{◌≤◌, length};

use memchr::{memchr, memrchr};

/// The place behind the first LF, or the end.
pub fn past_first_lf(bytes: &[u8]) -> usize
    ensures { result ≤ length bytes.now }
{
    match memchr(b'\n', bytes) {
        Some(at) => at + 1,
        None => bytes.len(),
    }
}

/// The place behind the last LF, or the beginning.
pub fn past_last_lf(bytes: &[u8]) -> usize
    ensures { result ≤ length bytes.now }
{
    match memrchr(b'\n', bytes) {
        Some(at) => at + 1,
        None => 0,
    }
}
