//! The text of a report.

ghost use Rattle.std.specs.Prelude.{◌≡◌, ◌++◌, ◌+◌, ◌≤◌, codes, length, decimal, flat_map, OnOk, OnErr};
ghost use Rattle.gate_rules.specs.Words.{clause_text};
ghost use Rattle.ready_core.specs.Words.{refusal_text};
ghost use Rattle.std.specs.Io.KnownBytes.{Appends};
ghost use Rattle.arrayvec.specs.ArrayString.{array_string_len};
ghost use Rattle.byte_ends.specs.Failures.{CountsFailure};
ghost use Rattle.report_text.specs.Pages.{HasRoom, IsCut, PassesPage};
ghost use Rattle.report_text.specs.Report.{item_text, ready_line, out_line, end_line, report_of};

use super::fault::WriteReportFault;
use super::page::{Page, add_number, make_room, send};
use byte_ends::{Drain, Failed};
use gate_rules::{Clause, Condition};
use ready_core::{Left, Refusal, Verdicts};
use state_core::Item;

/// Writes the report: a line for each item that is ready, a line for each other item with its refusal, both in the
/// order of the verdicts, and the end line. Refusal: 1 `WriteFault`, the drain failed, and has taken what of the text
/// went before. It takes no memory. It costs O(n) for a text of n bytes, which goes to the drain in pages of at most
/// 4,096 bytes.
pub fn write_report<D: Drain>(verdicts: &Verdicts, drain: &mut D) -> Result<(), WriteReportFault>
    ensures ok { OnOk result (Appends (D.taken drain.old) (D.taken drain.new) (report_of verdicts.now)) }
    // Some prefix of the text was taken, not all.
    ensures cut { OnErr result (IsCut (D.taken drain.old) (D.taken drain.new) (report_of verdicts.now)) }
    ensures counted { CountsFailure (D.failed drain.old) (D.failed drain.new) result }
{
    let ready = verdicts.ready();
    let out = verdicts.out();
    let mut page = Page::new();
    write_ready(ready, &mut page, drain)?;
    write_out(out, &mut page, drain)?;
    make_room(&mut page, drain)?;
    add_end(&mut page, ready.len(), out.len());
    send(&mut page, drain)?;
    Ok(())
}

/// Writes the lines of the items that are ready.
pub fn write_ready<D: Drain>(items: &[Item], page: &mut Page, drain: &mut D) -> Result<(), Failed>
    ensures ok { OnOk result (PassesPage (D.taken drain.old) page.old.bytes (D.taken drain.new) page.new.bytes
        (flat_map ready_line items.now)) }
    ensures err { OnErr result (IsCut (D.taken drain.old) (D.taken drain.new)
        (page.old.bytes ++ flat_map ready_line items.now)) }
    ensures counted { CountsFailure (D.failed drain.old) (D.failed drain.new) result }
{
    for item in items {
        make_room(page, drain)?;
        add_ready(page, *item);
    }
    Ok(())
}

/// Writes the lines of the items that are left out.
fn write_out<D: Drain>(out: &[Left], page: &mut Page, drain: &mut D) -> Result<(), Failed>
    ensures ok { OnOk result (PassesPage (D.taken drain.old) page.old.bytes (D.taken drain.new) page.new.bytes
        (flat_map out_line out.now)) }
    ensures err { OnErr result (IsCut (D.taken drain.old) (D.taken drain.new)
        (page.old.bytes ++ flat_map out_line out.now)) }
    ensures counted { CountsFailure (D.failed drain.old) (D.failed drain.new) result }
{
    for left in out {
        make_room(page, drain)?;
        add_out(page, left);
    }
    Ok(())
}

/// Adds the line of an item that is ready.
pub fn add_ready(page: &mut Page, item: Item)
    requires { HasRoom page.old 96 }
    ensures { page.new.bytes ≡ page.old.bytes ++ ready_line item }
{
    page.push_str("ready ");
    add_item(page, item);
    page.push_str("\n");
}

/// Adds the line of an item that is left out, in O(1).
pub fn add_out(page: &mut Page, left: &Left)
    requires { HasRoom page.old 96 }
    ensures { page.new.bytes ≡ page.old.bytes ++ out_line left.now }
{
    page.push_str("out ");
    add_item(page, left.item);
    page.push_str(" ");
    add_refusal(page, left.refusal);
    page.push_str("\n");
}

/// Adds the end line, with how many lines of each kind there are, in O(1).
pub fn add_end(page: &mut Page, ready: usize, out: usize)
    requires { HasRoom page.old 96 }
    ensures { page.new.bytes ≡ page.old.bytes ++ end_line ready out }
{
    page.push_str("end ");
    add_number(page, ready as u64);
    page.push_str(" ");
    add_number(page, out as u64);
    page.push_str("\n");
}

/// Adds an item, as `101,2`, of at most 41 bytes, in O(1).
pub fn add_item(page: &mut Page, item: Item)
    requires { HasRoom page.old 41 }
    ensures text { page.new.bytes ≡ page.old.bytes ++ item_text item }
    ensures grown { array_string_len page.new ≤ array_string_len page.old + 41 }
{
    add_number(page, u64::from(item.change));
    page.push_str(",");
    add_number(page, u64::from(item.set));
}

/// Adds why an item is left out.
fn add_refusal(page: &mut Page, refusal: Refusal)
    requires { HasRoom page.old 45 }
    ensures text { page.new.bytes ≡ page.old.bytes ++ refusal_text refusal }
    ensures grown { array_string_len page.new ≤ array_string_len page.old + 45 }
{
    match refusal {
        Refusal::Own(condition) => add_condition(page, condition),
        Refusal::Cycle => page.push_str(refusal.word()),
        Refusal::Unknown(change) => add_named(page, refusal.word(), u64::from(change)),
        Refusal::Dependency(change) => add_named(page, refusal.word(), u64::from(change)),
    }
}

/// Adds a condition, as `require approval 2`.
fn add_condition(page: &mut Page, condition: Condition)
    requires { HasRoom page.old 45 }
    ensures text { page.new.bytes ≡ page.old.bytes ++ refusal_text (Refusal.Own condition) }
    ensures grown { array_string_len page.new ≤ array_string_len page.old + 45 }
{
    page.push_str(condition.side.name());
    page.push_str(" ");
    add_clause(page, condition.clause);
}

/// Adds a clause: its key in a gate file, and for an approval which one it is, from 1.
fn add_clause(page: &mut Page, clause: Clause)
    requires { HasRoom page.old 37 }
    ensures text { page.new.bytes ≡ page.old.bytes ++ clause_text clause }
    ensures grown { array_string_len page.new ≤ array_string_len page.old + 37 }
{
    match clause.place() {
        Some(number) => add_named(page, clause.key(), number as u64),
        None => page.push_str(clause.key()),
    }
}

/// Adds a number after what names it.
fn add_named(page: &mut Page, name: &str, number: u64)
    requires { HasRoom page.old (length name.now + 21) }
    ensures text { page.new.bytes ≡ page.old.bytes ++ (name.now ++ codes " " ++ decimal number) }
    ensures grown { array_string_len page.new ≤ array_string_len page.old + length name.now + 21 }
{
    page.push_str(name);
    page.push_str(" ");
    add_number(page, number);
}
