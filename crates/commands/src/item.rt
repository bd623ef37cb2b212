//! Prints the line of an item of a snapshot in the report under a gate.

ghost use Rattle.std.specs.Prelude.{◌≡◌, ◌⊎◌, ◌++◌, Contains, IfErr, IfOk, true};
ghost use Rattle.std.specs.List.Sorted.{IsStrictlySortedBy};
ghost use Rattle.ready_core.specs.Verdicts.{items_out};
ghost use Rattle.report_text.specs.Pages.{HasRoom};
ghost use Rattle.report_text.specs.Report.{out_line, ready_line};
ghost use Rattle.state_core.specs.Items.{item_cmp};
ghost use Rattle.state_core.specs.declared.item.Item.{Item};
ghost use Rattle.why_text.specs.Asked.{IsItemAsked};
ghost use Rattle.commands.specs.Answers.{EndsItem, IsItemPrinted, IsLeftSo, IsStanding, StandsSo, out_as, ready_as};
ghost use Rattle.commands.specs.Ending.{Ends, Finishes};

use super::record::state_from;
use command_line::{Command, OutputFormat, ReadyItemCommand};
use console::{Console, Refusal, read_gate, read_record};
use gate_rules::Gate;
use lattice_core::NoMemory;
use ready_core::{Left, Verdicts, evaluate, place_out};
use replica_core::Gathering;
use report_json::{out_item_line, ready_item_line};
use report_text::{Page, add_item, add_out};
use state_core::{Item, State};
use std::alloc::Global;
use std::mem::ManuallyDrop;
use why_text::item_asked;

/// The verdict on an item, and its line.
#[derive(Drop)]
struct Standing {
    line: Vec<u8>,
    is_ready: bool,
}

/// Prints the line of an item in the report of a snapshot under a gate. Refusals: those of the gate file, then of the
/// snapshot; `NoItem`, the item isn't known; `Memory`, memory was refused once both were read; `Output`; `Waits`, the
/// item isn't ready, and the line that says why was printed. It costs what reading both costs, and what `evaluate`
/// does.
pub fn ready_item<'n, C: Console>(
    alloc: Global,
    command: &ReadyItemCommand<'n>,
    console: &mut C,
) -> Result<(), Refusal<'n>>
    ensures { Ends (Command.ReadyItem command.now) (C.state console.old) (C.state console.new) result }
{
    let rules = read_gate(alloc, command.gate, console)?;
    let gathering = read_record(Gathering::new(alloc), command.snapshot, console)?;
    let state = state_from(console, gathering)?;
    let printed = print_item(alloc, &rules, &state, command, console);
    // The program ends now, and the record's memory goes with it.
    let _kept = ManuallyDrop::new(state);
    printed
}

/// Prints the line of the item that is asked for.
fn print_item<C: Console>(
    alloc: Global,
    rules: &Gate,
    state: &State,
    command: &ReadyItemCommand<'_>,
    console: &mut C,
) -> Result<(), Refusal<'static>>
    ensures { Finishes (IsItemPrinted command.now rules.now state.now) (C.state console.old) (C.state console.new) result }
{
    let standing = match standing_of(alloc, rules, state, command) {
        Ok(standing) => standing,
        Err(refusal) => return Err(refusal),
    };
    let ended = end_of(standing.is_ready);
    console.print(standing.line.as_slice())?;
    ended
}

/// How the command ends of an item that is ready, or waits.
fn end_of(is_ready: bool) -> Result<(), Refusal<'static>>
    ensures { EndsItem is_ready result }
{
    if is_ready {
        Ok(())
    } else {
        Err(Refusal::Waits)
    }
}

/// The verdict on the item that is asked for.
fn standing_of(
    alloc: Global,
    rules: &Gate,
    state: &State,
    command: &ReadyItemCommand<'_>,
) -> Result<Standing, Refusal<'static>>
    ensures standing { IfOk result
        (λ standing. IsStanding command.now standing.is_ready rules.now state.now standing.line.items) }
    ensures refused { IfErr result (λ refusal. ((refusal ≡ Refusal.NoItem command.now.change command.now.set)
        × ((item : Item) → ¬ IsItemAsked state.now command.now.change command.now.set item))
        ⊎ (refusal ≡ Refusal.Memory)) }
{
    let Some(item) = item_asked(state, command.change, command.set) else {
        return Err(Refusal::NoItem(command.change, command.set));
    };
    let Ok(verdicts) = evaluate(alloc, state, rules) else {
        return Err(Refusal::Memory);
    };
    match standing_in(alloc, &verdicts, item, command.format) {
        Ok(standing) => Ok(standing),
        Err(_) => Err(Refusal::Memory),
    }
}

/// The verdict on an item among verdicts in which it is ready or left out.
fn standing_in(
    alloc: Global,
    verdicts: &Verdicts,
    item: Item,
    format: OutputFormat,
) -> Result<Standing, NoMemory>
    requires sorted { IsStrictlySortedBy item_cmp (items_out verdicts.now.out) }
    requires there { ¬ Contains verdicts.now.ready item → Contains (items_out verdicts.now.out) item }
    ensures { IfOk result (λ standing. StandsSo format verdicts.now item standing.is_ready standing.line.items) }
{
    if verdicts.ready().contains(&item) {
        return ready_so(alloc, item, format);
    }
    left_in(alloc, verdicts.out(), item, format)
}

/// The verdict on an item that is ready.
fn ready_so(alloc: Global, item: Item, format: OutputFormat) -> Result<Standing, NoMemory>
    ensures { IfOk result
        (λ standing. (standing.is_ready ≡ true) × (standing.line.items ≡ ready_as format item)) }
{
    let line = ready_answer(alloc, item, format)?;
    Ok(Standing {
        line,
        is_ready: true,
    })
}

/// What is printed of an item that is ready.
fn ready_answer(alloc: Global, item: Item, format: OutputFormat) -> Result<Vec<u8>, NoMemory>
    ensures { IfOk result (λ line. line.items ≡ ready_as format item) }
{
    match format {
        OutputFormat::Json => ready_item_line(alloc, item),
        OutputFormat::Text => ready_text(alloc, item),
    }
}

/// The line of an item that is ready.
fn ready_text(alloc: Global, item: Item) -> Result<Vec<u8>, NoMemory>
    ensures { IfOk result (λ line. line.items ≡ ready_line item) }
{
    let mut page = Page::new();
    add_ready(&mut page, item);
    bytes_of(alloc, &page)
}

/// Adds the line of an item that is ready.
fn add_ready(page: &mut Page, item: Item)
    requires { HasRoom page.old 96 }
    ensures { page.new.bytes ≡ page.old.bytes ++ ready_line item }
{
    page.push_str("ready ");
    add_item(page, item);
    page.push_str("\n");
}

/// The bytes of a page.
fn bytes_of(alloc: Global, page: &Page) -> Result<Vec<u8>, NoMemory>
    ensures { IfOk result (λ bytes. bytes.items ≡ page.now.bytes) }
{
    let mut bytes = Vec::new(alloc);
    bytes.extend_from_slice(page.as_str().as_bytes())?;
    Ok(bytes)
}

/// The verdict on an item that is left out.
fn left_in(
    alloc: Global,
    out: &[Left],
    item: Item,
    format: OutputFormat,
) -> Result<Standing, NoMemory>
    requires sorted { IsStrictlySortedBy item_cmp (items_out out.now) }
    requires there { Contains (items_out out.now) item }
    ensures { IfOk result (λ standing. IsLeftSo format out.now item standing.is_ready standing.line.items) }
{
    let Some(place) = place_out(out, item) else {
        unreachable!()
    };
    let line = out_answer(alloc, &out[place], format)?;
    Ok(Standing {
        line,
        is_ready: false,
    })
}

/// What is printed of an item that is left out.
fn out_answer(alloc: Global, left: &Left, format: OutputFormat) -> Result<Vec<u8>, NoMemory>
    ensures { IfOk result (λ line. line.items ≡ out_as format left.now) }
{
    match format {
        OutputFormat::Json => out_item_line(alloc, left),
        OutputFormat::Text => out_text(alloc, left),
    }
}

/// The line of an item that is left out.
fn out_text(alloc: Global, left: &Left) -> Result<Vec<u8>, NoMemory>
    ensures { IfOk result (λ line. line.items ≡ out_line left.now) }
{
    let mut page = Page::new();
    add_out(&mut page, left);
    bytes_of(alloc, &page)
}
