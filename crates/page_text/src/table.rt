//! The table of a list.

ghost use Rattle.std.specs.Prelude.{◌≡◌, Contains, IfSome};
ghost use Rattle.std.specs.List.{All};
ghost use Rattle.gate_rules.specs.Rules.{GateRules};
ghost use Rattle.markup_text.specs.Growing.{Adds, Grows};
ghost use Rattle.ready_core.specs.Verdicts.{AreVerdicts, Judged};
ghost use Rattle.page_text.specs.Rows.{all_rows};
ghost use Rattle.page_text.specs.Table.{AddsCause, AddsEnd, AddsRow, AddsRows, AddsTable, EndsRow, about_html};
ghost use Rattle.page_text.specs.Table.{pages_of, reason_html, table_begins, why_html};

use super::chain::cause_of;
use super::links::{add_item_link, add_left, add_refusal_words};
use super::rows::{ROWS, Row, rows_of};
use super::subject::subject_of;
use super::words::add_wanted;
use gate_rules::{Condition, Gate};
use markup_text::{Markup, Piece};
use ready_core::{Left, Refusal, Verdicts};
use state_core::{Item, State};
use std::alloc::Global;

/// How the table begins after its caption.
const HEAD: &str = r#" items in all</caption>
<thead><tr><th scope="col">Place</th><th scope="col">Item</th><th scope="col">Subject</th>
<th scope="col">Why it waits</th><th scope="col">Cause</th></tr></thead>
<tbody>
"#;

/// Adds the table of a page of these rows.
pub fn add_table(
    alloc: Global,
    page: &mut Markup,
    gate: &Gate,
    state: &State,
    verdicts: &Verdicts,
    rows: &[Row],
    number: u32,
)
    requires judged { AreVerdicts gate.now state.now verdicts.now }
    requires there { All (Contains (all_rows verdicts.now)) rows.now }
    ensures { Grows (AddsTable gate.now state.now verdicts.now number rows.now) page.old page.new }
{
    add_head(page, number, rows.len());
    add_rows(alloc, page, gate, state, verdicts, rows_of(rows, number));
    page.add(&[Piece::Markup("</tbody>\n</table>\n")]);
}

/// Adds the caption and the head of the table.
fn add_head(page: &mut Markup, number: u32, rows: usize)
    ensures { Adds (table_begins number rows) page.old page.new }
{
    page.add(&[
        Piece::Markup("<table>\n<caption>Page "),
        Piece::Number(u64::from(number.max(1))),
        Piece::Markup(" of "),
        Piece::Number(pages_of(rows)),
        Piece::Markup(", "),
        Piece::Number(rows as u64),
        Piece::Markup(HEAD),
    ]);
}

/// How many pages so many rows have, at least one.
pub fn pages_of(rows: usize) -> u64
    ensures { result ≡ pages_of rows }
{
    (rows.saturating_sub(1) / ROWS) as u64 + 1
}

/// Adds rows.
fn add_rows(
    alloc: Global,
    page: &mut Markup,
    gate: &Gate,
    state: &State,
    verdicts: &Verdicts,
    rows: &[Row],
)
    requires judged { AreVerdicts gate.now state.now verdicts.now }
    requires there { All (Contains (all_rows verdicts.now)) rows.now }
    ensures { Grows (AddsRows gate.now state.now verdicts.now rows.now) page.old page.new }
{
    for row in rows {
        add_row(alloc, page, gate, state, verdicts, *row);
    }
}

/// Adds a row.
fn add_row(
    alloc: Global,
    page: &mut Markup,
    gate: &Gate,
    state: &State,
    verdicts: &Verdicts,
    row: Row,
)
    requires judged { AreVerdicts gate.now state.now verdicts.now }
    requires there { Contains (all_rows verdicts.now) row }
    ensures { Grows (AddsRow gate.now state.now verdicts.now row) page.old page.new }
{
    match row {
        Row::Enters(item, place) => add_ready(page, state, item, place),
        Row::Waits(left) => add_waiting(alloc, page, gate, state, verdicts, left),
    }
}

/// Adds the row of an item that is ready.
fn add_ready(page: &mut Markup, state: &State, item: Item, place: usize)
    ensures { (gate : GateRules) → (verdicts : Judged)
        → Grows (AddsRow gate state.now verdicts (Row.Enters item place)) page.old page.new }
{
    page.add(&[
        Piece::Markup("<tr><td>"),
        Piece::Number(place as u64),
        Piece::Markup("</td>"),
    ]);
    add_about(page, state, item);
    page.add(&[Piece::Markup("<td class=\"ready\">ready</td><td></td></tr>\n")]);
}

/// Adds the row of an item that waits.
fn add_waiting(
    alloc: Global,
    page: &mut Markup,
    gate: &Gate,
    state: &State,
    verdicts: &Verdicts,
    left: Left,
)
    requires judged { AreVerdicts gate.now state.now verdicts.now }
    requires there { Contains (all_rows verdicts.now) (Row.Waits left) }
    ensures { Grows (AddsRow gate.now state.now verdicts.now (Row.Waits left)) page.old page.new }
{
    let cells = waiting_cells(alloc, gate, state, verdicts, left);
    page.add(&[Piece::Markup("<tr><td></td>")]);
    add_about(page, state, left.item);
    page.append(&cells);
}

/// Adds the cells of an item and its subject.
fn add_about(page: &mut Markup, state: &State, item: Item)
    ensures { Adds (about_html state.now item) page.old page.new }
{
    page.add(&[Piece::Markup("<th scope=\"row\">")]);
    add_item_link(page, item);
    page.add(&[
        Piece::Markup("</th><td>"),
        Piece::Text(subject_of(state, item)),
        Piece::Markup("</td>"),
    ]);
}

/// The cells of why an item waits, and of its cause, if it waits for another one.
fn waiting_cells(
    alloc: Global,
    gate: &Gate,
    state: &State,
    verdicts: &Verdicts,
    left: Left,
) -> Markup
    requires judged { AreVerdicts gate.now state.now verdicts.now }
    requires there { Contains (all_rows verdicts.now) (Row.Waits left) }
    ensures { IfSome result (EndsRow gate.now state.now verdicts.now (Row.Waits left)) }
{
    let mut cells = Markup::new(alloc);
    add_why(alloc, &mut cells, gate, left.refusal);
    cells.add(&[Piece::Markup("<td>")]);
    add_cause(alloc, &mut cells, gate, state, verdicts, left);
    cells.add(&[Piece::Markup("</td></tr>\n")]);
    cells
}

/// Adds the cause of an item, if it waits for another one.
fn add_cause(
    alloc: Global,
    cells: &mut Markup,
    gate: &Gate,
    state: &State,
    verdicts: &Verdicts,
    left: Left,
)
    requires judged { AreVerdicts gate.now state.now verdicts.now }
    requires there { Contains (all_rows verdicts.now) (Row.Waits left) }
    ensures { Grows (AddsCause state.now verdicts.now left) cells.old cells.new }
{
    match left.refusal {
        Refusal::Dependency(_) => add_end(alloc, cells, gate, state, verdicts, left),
        Refusal::Own(_) => {}
        Refusal::Cycle => {}
        Refusal::Unknown(_) => {}
    }
}

/// Adds the item at the end of the chain from an item that waits.
fn add_end(
    alloc: Global,
    cells: &mut Markup,
    gate: &Gate,
    state: &State,
    verdicts: &Verdicts,
    left: Left,
)
    requires judged { AreVerdicts gate.now state.now verdicts.now }
    requires there { Contains (all_rows verdicts.now) (Row.Waits left) }
    ensures { Grows (AddsEnd state.now verdicts.now left.item) cells.old cells.new }
{
    match cause_of(alloc, gate, state, verdicts, left) {
        Ok(cause) => add_left(alloc, cells, cause),
        Err(_) => cells.refuse(),
    }
}

/// Adds the cell of a refusal, with what the gate asks there.
fn add_why(alloc: Global, cells: &mut Markup, gate: &Gate, refusal: Refusal)
    ensures { Adds (why_html gate.now refusal) cells.old cells.new }
{
    cells.add(&[Piece::Markup("<td class=\"waits\">")]);
    add_reason(alloc, cells, gate, refusal);
    cells.add(&[Piece::Markup("</td>")]);
}

/// Adds a refusal, with what the gate asks there.
fn add_reason(alloc: Global, cells: &mut Markup, gate: &Gate, refusal: Refusal)
    ensures { Adds (reason_html gate.now refusal) cells.old cells.new }
{
    match refusal {
        Refusal::Own(condition) => add_condition(alloc, cells, gate, condition),
        Refusal::Cycle => add_refusal_words(alloc, cells, Refusal::Cycle),
        Refusal::Unknown(change) => add_refusal_words(alloc, cells, Refusal::Unknown(change)),
        Refusal::Dependency(change) => add_refusal_words(alloc, cells, Refusal::Dependency(change)),
    }
}

/// Adds a condition, with what the gate asks there.
fn add_condition(alloc: Global, cells: &mut Markup, gate: &Gate, condition: Condition)
    ensures { Adds (reason_html gate.now (Refusal.Own condition)) cells.old cells.new }
{
    add_refusal_words(alloc, cells, Refusal::Own(condition));
    cells.add(&[Piece::Markup(": ")]);
    add_wanted(cells, gate, condition);
}
