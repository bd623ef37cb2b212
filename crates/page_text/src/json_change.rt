//! A change, as JSON.

ghost use Rattle.std.specs.Prelude.{Contains, IfOk};
ghost use Rattle.state_core.specs.Items.{IsItem};
ghost use Rattle.ready_core.specs.Verdicts.{AreVerdicts};
ghost use Rattle.page_text.specs.Rows.{all_rows};
ghost use Rattle.page_text.specs.Waiting.{EndsInWaiting, waiting_for};

use super::chain::walk_from;
use super::conditions::put_conditions;
use super::json_items::add_row;
use super::needs::needs_of;
use super::rows::Row;
use super::sheet::{Mark, Sheet};
use super::subject::first_line;
use super::verdict::verdict_on;
use super::waiting::{put_waiting, waiting_for};
use change_core::{Approval, ChangeState};
use gate_rules::Gate;
use lattice_core::NoMemory;
use ready_core::{Left, Verdicts};
use state_core::{Item, State};
use std::alloc::Global;

/// The JSON text of an item of the record: its change's status and current patch set, the patch sets, the votes on the
/// current one, the items from this one down to the cause, each condition of the gate with whether the item meets it,
/// the changes that the item depends on, and the items that wait for its change.
pub fn change_text(
    alloc: Global,
    item: Item,
    gate: &Gate,
    state: &State,
    verdicts: &Verdicts,
) -> Result<Vec<u8>, NoMemory>
    requires judged { AreVerdicts gate.now state.now verdicts.now }
    requires there { IsItem state.now item }
    ensures { IfOk result (λ text. EndsInWaiting (waiting_for item.change verdicts.now.out) text.items) }
{
    let mut out = Sheet::new(alloc);
    begin_change(alloc, &mut out, item, gate, state, verdicts);
    end_change(alloc, out, verdicts, item.change)
}

/// Begins the object of an item: all but the items that wait for its change.
fn begin_change(
    alloc: Global,
    out: &mut Sheet,
    item: Item,
    gate: &Gate,
    state: &State,
    verdicts: &Verdicts,
)
    requires judged { AreVerdicts gate.now state.now verdicts.now }
    requires there { IsItem state.now item }
{
    out.add(&[
        Mark::Open,
        Mark::Key("change"),
        Mark::Number(u64::from(item.change)),
        Mark::Key("set"),
        Mark::Number(u64::from(item.set)),
    ]);
    if let Some(change) = state.change(item.change) {
        add_change(out, change);
    }
    add_steps(alloc, out, gate, state, verdicts, item);
    put_conditions(alloc, out, gate, state, item);
    add_needs(alloc, out, gate, state, item);
}

/// The text that ends with the items that wait for a change.
fn end_change(
    alloc: Global,
    out: Sheet,
    verdicts: &Verdicts,
    change: u32,
) -> Result<Vec<u8>, NoMemory>
    ensures { IfOk result (λ text. EndsInWaiting (waiting_for change verdicts.now.out) text.items) }
{
    let mut out = out;
    let waiting = waiting_for(alloc, verdicts.out(), change)?;
    put_waiting(alloc, &mut out, waiting.as_slice());
    out.add(&[Mark::Close]);
    let text = out.end()?;
    Ok(text)
}

/// Adds the status of a change, its patch sets and its votes.
fn add_change(out: &mut Sheet, change: &ChangeState) {
    let current = match change.current() {
        Some(set) => Mark::Number(u64::from(set)),
        None => Mark::NumberIf(None),
    };
    out.add(&[
        Mark::Key("status"),
        Mark::Text(change.status().name()),
        Mark::Key("current"),
        current,
    ]);
    add_sets(out, change);
    add_votes(out, change);
}

/// Adds a list with an object for each patch set.
fn add_sets(out: &mut Sheet, change: &ChangeState) {
    out.add(&[Mark::Key("patchsets"), Mark::OpenList]);
    for (set, register) in change.sets() {
        add_set(out, *set, first_line(register.value().message.as_str()));
    }
    out.add(&[Mark::CloseList]);
}

/// Adds the object of a patch set.
fn add_set(out: &mut Sheet, set: u32, subject: &str) {
    out.add(&[
        Mark::Open,
        Mark::Key("set"),
        Mark::Number(u64::from(set)),
        Mark::Key("subject"),
        Mark::Text(subject),
        Mark::Close,
    ]);
}

/// Adds the list of the votes on the current patch set.
fn add_votes(out: &mut Sheet, change: &ChangeState) {
    out.add(&[Mark::Key("votes"), Mark::OpenList]);
    if let Some(current) = change.current() {
        add_approvals(out, change, current);
    }
    out.add(&[Mark::CloseList]);
}

/// Adds an object for each approval of a patch set.
fn add_approvals(out: &mut Sheet, change: &ChangeState, set: u32) {
    for approval in change.approvals(set) {
        add_approval(out, approval);
    }
}

/// Adds the object of an approval.
fn add_approval(out: &mut Sheet, approval: Approval<'_>) {
    out.add(&[
        Mark::Open,
        Mark::Key("label"),
        Mark::Text(approval.label),
        Mark::Key("voter"),
        Mark::Text(approval.voter),
        Mark::Key("value"),
        Mark::Signed(i64::from(approval.value)),
        Mark::Close,
    ]);
}

/// Adds a list of the item and of those that it waits for, down to the cause.
fn add_steps(
    alloc: Global,
    out: &mut Sheet,
    gate: &Gate,
    state: &State,
    verdicts: &Verdicts,
    item: Item,
)
    requires { AreVerdicts gate.now state.now verdicts.now }
{
    out.add(&[Mark::Key("why"), Mark::OpenList]);
    match verdict_on(verdicts, item) {
        None => {}
        Some(Row::Waits(left)) => add_walk(alloc, out, gate, state, verdicts, left),
        Some(row) => add_row(alloc, out, state, row),
    }
    out.add(&[Mark::CloseList]);
}

/// Adds an object for each item of the walk from one that waits.
fn add_walk(
    alloc: Global,
    out: &mut Sheet,
    gate: &Gate,
    state: &State,
    verdicts: &Verdicts,
    left: Left,
)
    requires judged { AreVerdicts gate.now state.now verdicts.now }
    requires there { Contains (all_rows verdicts.now) (Row.Waits left) }
{
    match walk_from(alloc, gate, state, verdicts, left) {
        Ok(steps) => add_all(alloc, out, state, steps.as_slice()),
        Err(_) => out.refuse(),
    }
}

/// Adds an object for each of these items, which wait.
fn add_all(alloc: Global, out: &mut Sheet, state: &State, steps: &[Left]) {
    for step in steps {
        add_row(alloc, out, state, Row::Waits(*step));
    }
}

/// Adds a list of the changes that the item depends on.
fn add_needs(alloc: Global, out: &mut Sheet, gate: &Gate, state: &State, item: Item) {
    match needs_of(alloc, gate, state, item) {
        Ok(needs) => add_changes(out, needs.as_slice()),
        Err(_) => out.refuse(),
    }
}

/// Adds the list of these changes.
fn add_changes(out: &mut Sheet, needs: &[u32]) {
    out.add(&[Mark::Key("depends_on"), Mark::OpenList]);
    for need in needs {
        out.add(&[Mark::Number(u64::from(*need))]);
    }
    out.add(&[Mark::CloseList]);
}
