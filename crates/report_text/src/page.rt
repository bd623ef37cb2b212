//! A page of text on the stack, on which lines wait to be written.

ghost use Rattle.std.specs.Prelude.{◌≡◌, ◌++◌, ◌+◌, ◌≤◌, [], codes, decimal, OnOk, OnErr};
ghost use Rattle.std.specs.Io.KnownBytes.{Appends};
ghost use Rattle.arrayvec.specs.ArrayString.{array_string_len};
ghost use Rattle.byte_ends.specs.Failures.{CountsFailure};
ghost use Rattle.report_text.specs.Pages.{HasRoom, IsCut, PassesPage};

use arrayvec::ArrayString;
use byte_ends::{Drain, Failed, write_all};
use itoa::Buffer;

/// How many bytes a page holds.
const PAGE: usize = 4096;

/// A page is written when less than this is left of it: no line of a report has more bytes.
const LINE: usize = 96;

/// Text that waits to be written. It takes no memory beside itself.
pub type Page = ArrayString<PAGE>;

/// Writes a number on the page.
pub fn add_number(page: &mut Page, number: u64)
    requires { HasRoom page.old 20 }
    ensures text { page.new.bytes ≡ page.old.bytes ++ decimal number }
    ensures grown { array_string_len page.new ≤ array_string_len page.old + 20 }
{
    let mut buffer = Buffer::new();
    page.push_str(buffer.format(number));
}

/// Sends the page to the drain where it may not hold one more line, of at most 96 bytes. It costs O(n) for n bytes of
/// the page, as `send`.
pub fn make_room<D: Drain>(page: &mut Page, drain: &mut D) -> Result<(), Failed>
    ensures ok { OnOk result (PassesPage (D.taken drain.old) page.old.bytes (D.taken drain.new) page.new.bytes []) }
    ensures room { OnOk result (HasRoom page.new 96) }
    ensures err { OnErr result (IsCut (D.taken drain.old) (D.taken drain.new) page.old.bytes) }
    ensures counted { CountsFailure (D.failed drain.old) (D.failed drain.new) result }
{
    if page.remaining_capacity() >= LINE {
        return Ok(());
    }
    send(page, drain)
}

/// Sends the page to the drain, and empties it.
pub fn send<D: Drain>(page: &mut Page, drain: &mut D) -> Result<(), Failed>
    ensures ok { OnOk result (Appends (D.taken drain.old) (D.taken drain.new) page.old.bytes) }
    ensures empty { OnOk result (page.new.bytes ≡ []) }
    ensures err { OnErr result (IsCut (D.taken drain.old) (D.taken drain.new) page.old.bytes) }
    ensures counted { CountsFailure (D.failed drain.old) (D.failed drain.new) result }
{
    write_all(drain, page.as_str().as_bytes())?;
    page.clear();
    Ok(())
}
