//! A list of items, as JSON.

ghost use Rattle.std.specs.Prelude.{◌≡◌, IfOk, flat_map};
ghost use Rattle.json.specs.Print.{print};
ghost use Rattle.page_text.specs.Items.{about_tokens, items_tokens, list_tokens, row_tokens, why_tokens, words_tokens};
ghost use Rattle.page_text.specs.Rows.{chosen_rows};
ghost use Rattle.page_text.specs.Sheets.{NotesTokens};

use super::rows::{Row, chosen_rows, rows_of};
use super::sheet::{Mark, Sheet};
use super::subject::subject_of;
use lattice_core::NoMemory;
use page_routes::Choice;
use ready_core::{Left, Refusal, Verdicts};
use state_core::{Item, State};
use std::alloc::Global;
use why_text::refusal_words;

/// The JSON text of a list: how many items are asked for, on all pages, the number of the page, and an object for each
/// item on it.
pub fn items_text(
    alloc: Global,
    choice: &Choice,
    state: &State,
    verdicts: &Verdicts,
) -> Result<Vec<u8>, NoMemory>
    ensures { IfOk result (λ text. text.items
        ≡ print (items_tokens state.now choice.now.page (chosen_rows state.now choice.now verdicts.now))) }
{
    let chosen = chosen_rows(alloc, state, verdicts, choice)?;
    let mut out = Sheet::new(alloc);
    add_items(alloc, &mut out, state, choice.page, chosen.as_slice());
    let text = out.end()?;
    Ok(text)
}

/// Adds the object of a list.
fn add_items(alloc: Global, out: &mut Sheet, state: &State, page: u32, chosen: &[Row])
    ensures { NotesTokens (items_tokens state.now page chosen.now) out.old out.new }
{
    out.add(&[
        Mark::Open,
        Mark::Key("total"),
        Mark::Number(chosen.len() as u64),
        Mark::Key("page"),
        Mark::Number(u64::from(page)),
    ]);
    add_list(alloc, out, state, rows_of(chosen, page));
    out.add(&[Mark::Close]);
}

/// Adds the list of the rows.
fn add_list(alloc: Global, out: &mut Sheet, state: &State, rows: &[Row])
    ensures { NotesTokens (list_tokens state.now rows.now) out.old out.new }
{
    out.add(&[Mark::Key("items"), Mark::OpenList]);
    add_rows(alloc, out, state, rows);
    out.add(&[Mark::CloseList]);
}

/// Adds an object for each row.
fn add_rows(alloc: Global, out: &mut Sheet, state: &State, rows: &[Row])
    ensures { NotesTokens (flat_map (row_tokens state.now) rows.now) out.old out.new }
{
    for row in rows {
        add_row(alloc, out, state, *row);
    }
}

/// Adds the object of a row.
pub fn add_row(alloc: Global, out: &mut Sheet, state: &State, row: Row)
    ensures { NotesTokens (row_tokens state.now row) out.old out.new }
{
    match row {
        Row::Enters(item, place) => add_ready(out, state, item, place),
        Row::Waits(left) => add_left(alloc, out, state, left),
    }
}

/// Adds the object of an item that is ready.
fn add_ready(out: &mut Sheet, state: &State, item: Item, place: usize)
    ensures { NotesTokens (row_tokens state.now (Row.Enters item place)) out.old out.new }
{
    add_about(out, state, item);
    out.add(&[
        Mark::Key("ready"),
        Mark::Flag(true),
        Mark::Key("place"),
        Mark::Number(place as u64),
        Mark::Close,
    ]);
}

/// Adds the object of an item that waits.
fn add_left(alloc: Global, out: &mut Sheet, state: &State, left: Left)
    ensures { NotesTokens (row_tokens state.now (Row.Waits left)) out.old out.new }
{
    add_about(out, state, left.item);
    add_why(alloc, out, left.refusal);
}

/// Ends the object of an item that waits, with its refusal.
fn add_why(alloc: Global, out: &mut Sheet, refusal: Refusal)
    ensures { NotesTokens (why_tokens refusal) out.old out.new }
{
    match refusal_words(alloc, refusal) {
        Ok(words) => add_words(out, words.as_str()),
        Err(_) => out.refuse(),
    }
}

/// Ends the object of an item that waits, with these words of its refusal.
fn add_words(out: &mut Sheet, words: &str)
    ensures { NotesTokens (words_tokens words.now) out.old out.new }
{
    out.add(&[
        Mark::Key("ready"),
        Mark::Flag(false),
        Mark::Key("refusal"),
        Mark::Text(words),
        Mark::Close,
    ]);
}

/// Begins the object of an item with what is said of each.
fn add_about(out: &mut Sheet, state: &State, item: Item)
    ensures { NotesTokens (about_tokens state.now item) out.old out.new }
{
    out.add(&[
        Mark::Open,
        Mark::Key("change"),
        Mark::Number(u64::from(item.change)),
        Mark::Key("set"),
        Mark::Number(u64::from(item.set)),
        Mark::Key("subject"),
        Mark::Text(subject_of(state, item)),
    ]);
}
