//! Items as JSON.

ghost use Rattle.std.specs.Prelude.{◌≡◌, IfOk, OnOk};
ghost use Rattle.json_line.specs.Tokens.{AddsTokens, json_line};
ghost use Rattle.report_json.specs.Report.{item_tokens, out_item_tokens, out_tokens, ready_item_tokens, ready_tokens};
ghost use Rattle.report_json.specs.Report.{refusal_tokens, verdict_members};

use json::Writer;
use json_line::{close_object, line_of, open_object, put_flag, put_number, put_text};
use lattice_core::NoMemory;
use ready_core::{Left, Refusal};
use state_core::Item;
use std::alloc::Global;
use why_text::refusal_words;

/// The line of an item that is ready: an object with its change and its patch set, and that it is ready.
pub fn ready_item_line(alloc: Global, item: Item) -> Result<Vec<u8>, NoMemory>
    ensures { IfOk result (λ line. line.items ≡ json_line (ready_item_tokens item)) }
{
    let mut out = Writer::new(Vec::new(alloc));
    open_object(&mut out)?;
    put_place(&mut out, item)?;
    put_flag(&mut out, "ready", true)?;
    close_object(&mut out)?;
    line_of(out)
}

/// The line of an item that is left out: an object with its change and its patch set, that it isn't ready, and why.
pub fn out_item_line(alloc: Global, left: &Left) -> Result<Vec<u8>, NoMemory>
    ensures { IfOk result (λ line. line.items ≡ json_line (out_item_tokens left.now)) }
{
    let mut out = Writer::new(Vec::new(alloc));
    open_object(&mut out)?;
    put_verdict(alloc, &mut out, left)?;
    close_object(&mut out)?;
    line_of(out)
}

/// Adds the object of an item that is ready in a report.
pub(super) fn add_ready(out: &mut Writer<Global>, item: Item) -> Result<(), NoMemory>
    ensures { OnOk result (AddsTokens out.old out.new (ready_tokens item)) }
{
    open_object(out)?;
    put_place(out, item)?;
    close_object(out)?;
    Ok(())
}

/// Adds the object of an item that is left out in a report.
pub(super) fn add_out(alloc: Global, out: &mut Writer<Global>, left: &Left) -> Result<(), NoMemory>
    ensures { OnOk result (AddsTokens out.old out.new (out_tokens left.now)) }
{
    open_object(out)?;
    put_place(out, left.item)?;
    put_refusal(alloc, out, left.refusal)?;
    close_object(out)?;
    Ok(())
}

/// Adds an item that is left out: its change and its patch set, that it isn't ready, and why.
pub(super) fn put_verdict(
    alloc: Global,
    out: &mut Writer<Global>,
    left: &Left,
) -> Result<(), NoMemory>
    ensures { OnOk result (AddsTokens out.old out.new (verdict_members left.now)) }
{
    put_place(out, left.item)?;
    put_flag(out, "ready", false)?;
    put_refusal(alloc, out, left.refusal)?;
    Ok(())
}

/// Adds an item's change and patch set.
pub(super) fn put_place(out: &mut Writer<Global>, item: Item) -> Result<(), NoMemory>
    ensures { OnOk result (AddsTokens out.old out.new (item_tokens item)) }
{
    put_number(out, "change", u64::from(item.change))?;
    put_number(out, "set", u64::from(item.set))?;
    Ok(())
}

/// Adds why an item is left out.
pub(super) fn put_refusal(
    alloc: Global,
    out: &mut Writer<Global>,
    refusal: Refusal,
) -> Result<(), NoMemory>
    ensures { OnOk result (AddsTokens out.old out.new (refusal_tokens refusal)) }
{
    let words = refusal_words(alloc, refusal)?;
    put_text(out, "refusal", words.as_str())?;
    Ok(())
}
