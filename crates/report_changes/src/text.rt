//! The text of a group of lines.

ghost use Rattle.std.specs.Prelude.{◌≡◌, ◌++◌, ◌+◌, IsErrOf, MatchResult, OnErr, OnOk, codes, flat_map, length};
ghost use Rattle.std.specs.Io.KnownBytes.{Appends};
ghost use Rattle.byte_ends.specs.Failures.{CountsFailure};
ghost use Rattle.byte_ends.specs.Lines.{as_line};
ghost use Rattle.report_text.specs.Pages.{HasRoom, IsCut, PassesPage};
ghost use Rattle.report_text.specs.Report.{end_line, item_text};
ghost use Rattle.report_changes.specs.Fault.{CountsChangesFault};
ghost use Rattle.report_changes.specs.Lines.{changes_text, group_text, line_text};

use super::fault::WriteChangesFault;
use super::lines::{Line, lines_of};
use super::listed::Listed;
use byte_ends::{Drain, Failed};
use report_text::{Page, add_end, add_item, add_out, make_room, send};
use state_core::Item;
use std::alloc::Global;

/// Writes what changed from what was listed to what is listed now, as a group of lines with an end line; nothing where
/// nothing changed. Refusals: `WriteFault`, the drain failed, and has taken what of the text went before; `NoMemory`,
/// nothing was written. It costs O(n log n) for n items.
pub fn write_changes<D: Drain>(
    alloc: Global,
    old: &Listed,
    new: &Listed,
    drain: &mut D,
) -> Result<(), WriteChangesFault>
    ensures ok { OnOk result (Appends (D.taken drain.old) (D.taken drain.new) (changes_text old.now new.now)) }
    // Some prefix of the text was taken, not all.
    ensures cut { IsErrOf result WriteChangesFault.WriteFault
        → IsCut (D.taken drain.old) (D.taken drain.new) (changes_text old.now new.now) }
    ensures unwritten { IsErrOf result WriteChangesFault.NoMemory → D.taken drain.new ≡ D.taken drain.old }
    ensures counted { MatchResult result
        (λ _. D.failed drain.new ≡ D.failed drain.old)
        (CountsChangesFault (D.failed drain.old) (D.failed drain.new)) }
{
    let Ok(lines) = lines_of(alloc, old, new) else {
        return Err(WriteChangesFault::NoMemory);
    };
    match write_group(lines.as_slice(), new.ready().len(), new.out().len(), drain) {
        Ok(()) => Ok(()),
        Err(_) => Err(WriteChangesFault::WriteFault),
    }
}

/// Writes a group: its lines, and the end line with how many items are ready and left out then; nothing where there is
/// no line. It fails as the drain does, which has taken what of the text went before. It takes no memory. It costs O(n)
/// for n lines.
pub fn write_group<D: Drain>(
    lines: &[Line],
    ready: usize,
    out: usize,
    drain: &mut D,
) -> Result<(), Failed>
    ensures ok { OnOk result (Appends (D.taken drain.old) (D.taken drain.new) (group_text lines.now ready out)) }
    ensures cut { OnErr result (IsCut (D.taken drain.old) (D.taken drain.new) (group_text lines.now ready out)) }
    ensures counted { CountsFailure (D.failed drain.old) (D.failed drain.new) result }
{
    if lines.is_empty() {
        return Ok(());
    }
    write_some(lines, ready, out, drain)
}

/// Writes lines and the end line.
fn write_some<D: Drain>(
    lines: &[Line],
    ready: usize,
    out: usize,
    drain: &mut D,
) -> Result<(), Failed>
    ensures ok { OnOk result (Appends (D.taken drain.old) (D.taken drain.new)
        (flat_map line_text lines.now ++ end_line ready out)) }
    ensures cut { OnErr result (IsCut (D.taken drain.old) (D.taken drain.new)
        (flat_map line_text lines.now ++ end_line ready out)) }
    ensures counted { CountsFailure (D.failed drain.old) (D.failed drain.new) result }
{
    let mut page = Page::new();
    write_lines(lines, &mut page, drain)?;
    make_room(&mut page, drain)?;
    add_end(&mut page, ready, out);
    send(&mut page, drain)?;
    Ok(())
}

/// Writes lines over a page.
fn write_lines<D: Drain>(lines: &[Line], page: &mut Page, drain: &mut D) -> Result<(), Failed>
    ensures ok { OnOk result (PassesPage (D.taken drain.old) page.old.bytes (D.taken drain.new) page.new.bytes
        (flat_map line_text lines.now)) }
    ensures err { OnErr result (IsCut (D.taken drain.old) (D.taken drain.new)
        (page.old.bytes ++ flat_map line_text lines.now)) }
    ensures counted { CountsFailure (D.failed drain.old) (D.failed drain.new) result }
{
    for line in lines {
        make_room(page, drain)?;
        add_line(page, *line);
    }
    Ok(())
}

/// Adds a line.
fn add_line(page: &mut Page, line: Line)
    requires { HasRoom page.old 96 }
    ensures { page.new.bytes ≡ page.old.bytes ++ line_text line }
{
    match line {
        Line::NotReady(item) => add_named(page, "-ready ", item),
        Line::Ready(item) => add_named(page, "+ready ", item),
        Line::Out(left) => add_out(page, &left),
        Line::Gone(item) => add_named(page, "gone ", item),
    }
}

/// Adds the line of an item, after what is said of it.
fn add_named(page: &mut Page, word: &str, item: Item)
    requires { HasRoom page.old (length word.now + 42) }
    ensures { page.new.bytes ≡ page.old.bytes ++ as_line (word.now ++ item_text item) }
{
    page.push_str(word);
    add_item(page, item);
    page.push_str("\n");
}
