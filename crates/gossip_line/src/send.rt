//! Writes the texts of answers.

ghost use Rattle.std.specs.Prelude.{◌≡◌, ◌++◌, ◌+◌, ◌≤◌, Ok, IfOk, OnOk, decimal, true};
ghost use Rattle.arrayvec.specs.ArrayString.{array_string_len};
ghost use Rattle.gossip_line.specs.Answers.{Sends};
ghost use Rattle.gossip_line.specs.Texts.{lacked_text, operation_line, stamp_line};
ghost use Rattle.report_text.specs.Report.{report_of};

use super::fault::LineFault;
use arrayvec::ArrayString;
use byte_ends::{Drain, write_all};
use itoa::Buffer;
use lattice_core::NoMemory;
use op_text::write_op;
use ready_core::Verdicts;
use replica_core::Missing;
use report_text::write_report;
use review_ops::{Op, Stamp};
use std::alloc::Global;

/// How many bytes the line of a stamp may have.
const STAMP_LINE: usize = 96;

/// Writes a text.
pub fn send<D: Drain>(drain: &mut D, text: &str) -> Result<(), LineFault>
    ensures { Sends text.now (Ok tt) (D.taken drain.old) (D.taken drain.new) (D.failed drain.old)
        (D.failed drain.new) result }
{
    match write_all(drain, text.as_bytes()) {
        Ok(()) => Ok(()),
        Err(_) => Err(LineFault::WriteFault),
    }
}

/// Writes a text, after which the session goes on.
pub fn go_on<D: Drain>(drain: &mut D, text: &str) -> Result<bool, LineFault>
    ensures { Sends text.now (Ok true) (D.taken drain.old) (D.taken drain.new) (D.failed drain.old)
        (D.failed drain.new) result }
{
    go_on_bytes(drain, text.as_bytes())
}

/// Writes the bytes of a text, after which the session goes on.
pub fn go_on_bytes<D: Drain>(drain: &mut D, text: &[u8]) -> Result<bool, LineFault>
    ensures { Sends text.now (Ok true) (D.taken drain.old) (D.taken drain.new) (D.failed drain.old)
        (D.failed drain.new) result }
{
    match write_all(drain, text) {
        Ok(()) => Ok(true),
        Err(_) => Err(LineFault::WriteFault),
    }
}

/// Writes the line of a stamp. It takes no memory.
pub fn send_stamp<D: Drain>(drain: &mut D, stamp: Stamp) -> Result<bool, LineFault>
    ensures { Sends (stamp_line stamp) (Ok true) (D.taken drain.old) (D.taken drain.new) (D.failed drain.old)
        (D.failed drain.new) result }
{
    let mut line = ArrayString::new();
    line.push_str("ok ");
    add_number(&mut line, stamp.time());
    line.push_str(",");
    add_number(&mut line, u64::from(stamp.site()));
    line.push_str(",");
    add_number(&mut line, u64::from(stamp.start()));
    line.push_str(",");
    add_number(&mut line, stamp.seq());
    line.push_str("\n");
    go_on(drain, line.as_str())
}

/// Adds a number to the line of a stamp.
fn add_number(line: &mut ArrayString<STAMP_LINE>, number: u64)
    requires { array_string_len line.old + 20 ≤ 96 }
    ensures text { line.new.bytes ≡ line.old.bytes ++ decimal number }
    ensures grown { array_string_len line.new ≤ array_string_len line.old + 20 }
{
    let mut buffer = Buffer::new();
    line.push_str(buffer.format(number));
}

/// Writes a report. It takes no memory.
pub fn send_report<D: Drain>(drain: &mut D, verdicts: &Verdicts) -> Result<bool, LineFault>
    ensures { Sends (report_of verdicts.now) (Ok true) (D.taken drain.old) (D.taken drain.new) (D.failed drain.old)
        (D.failed drain.new) result }
{
    match write_report(verdicts, drain) {
        Ok(()) => Ok(true),
        Err(_) => Err(LineFault::WriteFault),
    }
}

/// The text of operations that a front lacks: a line for each, and whether others are left.
pub fn text_of(alloc: Global, missing: &Missing) -> Result<Vec<u8>, NoMemory>
    ensures { IfOk result (λ text. text.items ≡ lacked_text missing.now.ops.items missing.now.more) }
{
    let mut text = Vec::new(alloc);
    for op in &missing.ops {
        add_operation(&mut text, alloc, op)?;
    }
    let rest = if missing.more { b"more\n" } else { b"done\n" };
    text.extend_from_slice(rest.as_slice())?;
    Ok(text)
}

/// Adds the line of an operation.
fn add_operation(text: &mut Vec<u8>, alloc: Global, op: &Op) -> Result<(), NoMemory>
    ensures { OnOk result (text.new.items ≡ text.old.items ++ operation_line op.now) }
{
    let written = write_op(alloc, op)?;
    text.extend_from_slice(b"op ")?;
    text.extend_from_slice(written.as_bytes())?;
    text.push(b'\n')?;
    Ok(())
}
