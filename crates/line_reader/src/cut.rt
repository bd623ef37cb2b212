//! Where bytes are cut into lines.

ghost use Rattle.std.specs.Prelude.{MatchOption};
ghost use Rattle.line_reader.specs.Lines.{HasFirstLf, HasNoLf};

use memchr::memchr;

/// The place of the first LF. It takes no memory.
pub fn first_lf(bytes: &[u8]) -> Option<usize>
    ensures { MatchOption result (HasNoLf bytes.now) (HasFirstLf bytes.now) }
{
    memchr(b'\n', bytes)
}
