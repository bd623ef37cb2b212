//! A report as JSON.

ghost use Rattle.std.specs.Prelude.{◌≡◌, IfOk, OnOk, codes, flat_map};
ghost use Rattle.json_line.specs.Tokens.{AddsTokens, json_line, listed_tokens};
ghost use Rattle.report_json.specs.Report.{out_tokens, ready_tokens, report_tokens};

use super::items::{add_out, add_ready};
use json::Writer;
use json_line::{close_list, close_object, line_of, open_list, open_object};
use lattice_core::NoMemory;
use ready_core::{Left, Verdicts};
use state_core::Item;
use std::alloc::Global;

/// The line of a report: one object with a list of the items that are ready, and one of the others, each with its
/// refusal, both in the order of the verdicts. It costs O(n) for n bytes of it.
pub fn report_line(alloc: Global, verdicts: &Verdicts) -> Result<Vec<u8>, NoMemory>
    ensures { IfOk result (λ line. line.items ≡ json_line (report_tokens verdicts.now)) }
{
    let mut out = Writer::new(Vec::new(alloc));
    open_object(&mut out)?;
    put_ready(&mut out, verdicts.ready())?;
    put_out(alloc, &mut out, verdicts.out())?;
    close_object(&mut out)?;
    line_of(out)
}

/// Adds the list of the items that are ready.
fn put_ready(out: &mut Writer<Global>, items: &[Item]) -> Result<(), NoMemory>
    ensures { OnOk result
        (AddsTokens out.old out.new (listed_tokens (codes "ready") (flat_map ready_tokens items.now))) }
{
    open_list(out, "ready")?;
    add_all_ready(out, items)?;
    close_list(out)?;
    Ok(())
}

/// Adds an object for each item that is ready.
pub(super) fn add_all_ready(out: &mut Writer<Global>, items: &[Item]) -> Result<(), NoMemory>
    ensures { OnOk result (AddsTokens out.old out.new (flat_map ready_tokens items.now)) }
{
    for item in items {
        add_ready(out, *item)?;
    }
    Ok(())
}

/// Adds the list of the items that are left out.
fn put_out(alloc: Global, out: &mut Writer<Global>, left: &[Left]) -> Result<(), NoMemory>
    ensures { OnOk result (AddsTokens out.old out.new (listed_tokens (codes "out") (flat_map out_tokens left.now))) }
{
    open_list(out, "out")?;
    add_all_out(alloc, out, left)?;
    close_list(out)?;
    Ok(())
}

/// Adds an object for each item that is left out.
pub(super) fn add_all_out(
    alloc: Global,
    out: &mut Writer<Global>,
    left: &[Left],
) -> Result<(), NoMemory>
    ensures { OnOk result (AddsTokens out.old out.new (flat_map out_tokens left.now)) }
{
    for one in left {
        add_out(alloc, out, one)?;
    }
    Ok(())
}
