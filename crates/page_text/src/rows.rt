//! The rows of a list of items: which items are asked for, and which of them are on a page.

ghost use Rattle.std.specs.Prelude.{◌≡◌, ◌++◌, ◌∷◌, [], IfOk, OnOk, decimal, filter, map, take};
ghost use Rattle.std.specs.Char.{to_ascii_lowercase};
ghost use Rattle.page_text.specs.Rows.{chosen_rows, entering, has_reason, has_words, is_asked, is_by, is_for, is_found};
ghost use Rattle.page_text.specs.Rows.{is_shown, row_item, rows_on, words_searched, waits_for};
ghost use Rattle.page_text.specs.Search.{contains};

use super::search::Search;
use super::subject::subject_of;
use gate_rules::Side;
use itoa::Buffer;
use page_routes::{Choice, Reason, Shown};
use ready_core::{Left, Refusal, Verdicts};
use report_changes::is_over;
use state_core::{Item, State};
use std::alloc::{AllocError, Global};

/// How many rows a page has at most.
pub const ROWS: usize = 100;

/// A row of a list: an item, and what is said of it.
#[derive(Clone, Copy)]
pub enum Row {
    /// The item is ready, at this place in gate order, from 1.
    Enters(Item, usize),
    /// The item waits.
    Waits(Left),
}

impl Row {
    /// The item of a row.
    pub fn item(self) -> Item
        ensures { result ≡ row_item self }
    {
        match self {
            Row::Enters(item, _) => item,
            Row::Waits(left) => left.item,
        }
    }
}

/// The rows of the items that are asked for, on all pages: the ready ones in gate order, then the others in item order.
/// It costs O(n log n) for n items, and where words are searched for O(m) more for words and subjects of m
/// bytes in all.
pub fn chosen_rows(
    alloc: Global,
    state: &State,
    verdicts: &Verdicts,
    choice: &Choice,
) -> Result<Vec<Row>, AllocError>
    ensures { IfOk result (λ rows. rows.items ≡ chosen_rows state.now choice.now verdicts.now) }
{
    let mut search = search_of(alloc, choice)?;
    let mut rows = Vec::new(alloc);
    add_ready(&mut rows, state, choice, &mut search, verdicts.ready())?;
    add_out(&mut rows, state, choice, &mut search, verdicts.out())?;
    Ok(rows)
}

/// The search for the words that are searched for, if some are.
fn search_of(alloc: Global, choice: &Choice) -> Result<Option<Search>, AllocError>
    ensures { IfOk result (λ search. search ≡ words_searched choice.now.words) }
{
    match &choice.words {
        Some(words) => Ok(Some(Search::new(alloc, words.as_bytes())?)),
        None => Ok(None),
    }
}

/// Those of the rows that are on a page, from 1; page 0 is the first one, too. A page has 100 rows, the last one those
/// that are left, and a page after that none. It costs O(1).
pub fn rows_of(rows: &[Row], page: u32) -> &[Row]
    ensures { result.now ≡ rows_on page rows.now }
{
    let first = page.saturating_sub(1) as usize * ROWS;
    if rows.len() <= first {
        return &[];
    }
    first_rows(&rows[first..])
}

/// The first rows, as many as a page has.
fn first_rows(rows: &[Row]) -> &[Row]
    ensures { result.now ≡ take ROWS rows.now }
{
    if rows.len() <= ROWS {
        return rows;
    }
    &rows[..ROWS]
}

/// Adds the rows of those ready items that are asked for.
fn add_ready(
    rows: &mut Vec<Row>,
    state: &State,
    choice: &Choice,
    search: &mut Option<Search>,
    items: &[Item],
) -> Result<(), AllocError>
    requires { search.old ≡ words_searched choice.now.words }
    ensures rows { OnOk result (rows.new.items
        ≡ rows.old.items ++ filter (is_asked state.now choice.now) (entering 1 items.now)) }
    ensures search { search.new ≡ search.old }
{
    for (place, item) in items.iter().enumerate() {
        add_if_asked(rows, state, choice, search, Row::Enters(*item, place + 1))?;
    }
    Ok(())
}

/// Adds the rows of those other items that are asked for.
fn add_out(
    rows: &mut Vec<Row>,
    state: &State,
    choice: &Choice,
    search: &mut Option<Search>,
    out: &[Left],
) -> Result<(), AllocError>
    requires { search.old ≡ words_searched choice.now.words }
    ensures { OnOk result (rows.new.items
        ≡ rows.old.items ++ filter (is_asked state.now choice.now) (map Row.Waits out.now)) }
{
    for left in out {
        add_if_asked(rows, state, choice, search, Row::Waits(*left))?;
    }
    Ok(())
}

/// Adds a row if it is asked for.
fn add_if_asked(
    rows: &mut Vec<Row>,
    state: &State,
    choice: &Choice,
    search: &mut Option<Search>,
    row: Row,
) -> Result<(), AllocError>
    requires { search.old ≡ words_searched choice.now.words }
    ensures rows { OnOk result (rows.new.items
        ≡ rows.old.items ++ filter (is_asked state.now choice.now) (row ∷ [])) }
    ensures search { search.new ≡ search.old }
{
    if is_asked(state, choice, search, row)? {
        rows.push(row)?;
    }
    Ok(())
}

/// Whether the row of an item is asked for.
fn is_asked(
    state: &State,
    choice: &Choice,
    search: &mut Option<Search>,
    row: Row,
) -> Result<bool, AllocError>
    requires { search.old ≡ words_searched choice.now.words }
    ensures asked { IfOk result (λ asked. asked ≡ is_asked state.now choice.now row) }
    ensures search { search.new ≡ search.old }
{
    if !is_shown(choice.shown, row) || !has_reason(choice.reason, row) {
        return Ok(false);
    }
    has_words(state, search, row.item())
}

/// Whether an item is of the kind that is asked for.
fn is_shown(shown: Shown, row: Row) -> bool
    ensures { result ≡ is_shown shown row }
{
    match row {
        Row::Enters(_, _) => true,
        Row::Waits(left) => is_left_shown(shown, left),
    }
}

/// Whether an item that waits is of the kind that is asked for.
fn is_left_shown(shown: Shown, left: Left) -> bool
    ensures { result ≡ is_shown shown (Row.Waits left) }
{
    match shown {
        Shown::Open => !is_over(left.refusal),
        Shown::Ready => false,
        Shown::All => true,
    }
}

/// Whether an item waits for the reason that is asked for, if one is.
fn has_reason(reason: Option<Reason>, row: Row) -> bool
    ensures { result ≡ has_reason reason row }
{
    match reason {
        Some(reason) => waits_for(reason, row),
        None => true,
    }
}

/// Whether an item waits, and for this reason.
fn waits_for(reason: Reason, row: Row) -> bool
    ensures { result ≡ waits_for reason row }
{
    match row {
        Row::Enters(_, _) => false,
        Row::Waits(left) => is_for(reason, left.refusal),
    }
}

/// Whether a refusal is for this reason.
pub fn is_for(reason: Reason, refusal: Refusal) -> bool
    ensures { result ≡ is_for reason refusal }
{
    match refusal {
        Refusal::Own(condition) => is_by(reason, condition.side),
        Refusal::Cycle => matches!(reason, Reason::Cycle),
        Refusal::Unknown(_) => matches!(reason, Reason::Unknown),
        Refusal::Dependency(_) => matches!(reason, Reason::Dependency),
    }
}

/// Whether a condition of this side is such a reason.
fn is_by(reason: Reason, side: Side) -> bool
    ensures { result ≡ is_by reason side }
{
    match side {
        Side::Require => matches!(reason, Reason::Require),
        Side::Reject => matches!(reason, Reason::Reject),
    }
}

/// Whether an item's subject or change number contains the words that are searched for, if some are.
fn has_words(state: &State, search: &mut Option<Search>, item: Item) -> Result<bool, AllocError>
    ensures has { IfOk result (λ has. has ≡ has_words state.now search.old item) }
    ensures search { search.new ≡ search.old }
{
    match search {
        Some(search) => is_found(state, search, item),
        None => Ok(true),
    }
}

/// Whether an item's subject or change number contains the words that are searched for.
fn is_found(state: &State, search: &mut Search, item: Item) -> Result<bool, AllocError>
    ensures found { IfOk result (λ found. found ≡ is_found state.now search.old item) }
    ensures search { search.new ≡ search.old }
{
    if search.finds(subject_of(state, item).as_bytes())? {
        return Ok(true);
    }
    has_digits(search, item.change)
}

/// Whether a number in decimal contains the words that are searched for.
fn has_digits(search: &mut Search, number: u32) -> Result<bool, AllocError>
    ensures has { IfOk result (λ has. has ≡ contains search.old (map to_ascii_lowercase (decimal number))) }
    ensures search { search.new ≡ search.old }
{
    let mut buffer = Buffer::new();
    search.finds(buffer.format(number).as_bytes())
}
