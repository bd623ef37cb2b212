//! The items that wait for a change.

ghost use Rattle.std.specs.Prelude.{◌≡◌, ◌++◌, ◌∷◌, [], IfOk, OnOk, filter, flat_map, map, string_bytes};
ghost use Rattle.json.specs.Token.{string};
ghost use Rattle.report_text.specs.Report.{item_text};
ghost use Rattle.page_text.specs.Sheets.{NotesTokens};
ghost use Rattle.page_text.specs.Waiting.{names_change, waiting_for, waiting_tokens};

use super::links::add_item_link;
use super::sheet::{Mark, Sheet};
use super::template::fill;
use lattice_core::NoMemory;
use markup_text::{Markup, Piece};
use ready_core::{Left, Refusal};
use state_core::Item;
use std::alloc::Global;

/// How many of the items that wait for a change are on its page at most.
const SHOWN: usize = 100;

/// The items that wait for a change directly, in item order: those whose verdict names it. It costs O(n) for n items
/// that are left out.
pub fn waiting_for(alloc: Global, out: &[Left], change: u32) -> Result<Vec<Item>, NoMemory>
    ensures { IfOk result (λ items. items.items ≡ waiting_for change out.now) }
{
    let mut items = Vec::new(alloc);
    for left in out {
        add_if_waiting(&mut items, *left, change)?;
    }
    Ok(items)
}

/// Adds the item of a verdict that names the change.
fn add_if_waiting(items: &mut Vec<Item>, left: Left, change: u32) -> Result<(), NoMemory>
    ensures { OnOk result (items.new.items ≡ items.old.items ++ waiting_for change (left ∷ [])) }
{
    if names(left.refusal, change) {
        items.push(left.item)?;
    }
    Ok(())
}

/// Whether a refusal names a change.
fn names(refusal: Refusal, change: u32) -> bool
    ensures { result ≡ names_change change refusal }
{
    match refusal {
        Refusal::Unknown(number) | Refusal::Dependency(number) => number == change,
        Refusal::Own(_) | Refusal::Cycle => false,
    }
}

/// Adds the list of these items, as `101,2`.
pub fn put_waiting(alloc: Global, out: &mut Sheet, items: &[Item])
    ensures { NotesTokens (waiting_tokens items.now) out.old out.new }
{
    out.add(&[Mark::Key("waiting"), Mark::OpenList]);
    put_items(alloc, out, items);
    out.add(&[Mark::CloseList]);
}

/// Adds items.
fn put_items(alloc: Global, out: &mut Sheet, items: &[Item])
    ensures { NotesTokens (flat_map (λ item. string (item_text item) ∷ []) items.now) out.old out.new }
{
    for item in items {
        put_item(alloc, out, *item);
    }
}

/// Adds an item.
fn put_item(alloc: Global, out: &mut Sheet, item: Item)
    ensures { NotesTokens (string (item_text item) ∷ []) out.old out.new }
{
    match item_text(alloc, item) {
        Ok(text) => put_text(out, text.as_str()),
        Err(_) => out.refuse(),
    }
}

/// Adds a text.
fn put_text(out: &mut Sheet, text: &str)
    ensures { NotesTokens (string text.now ∷ []) out.old out.new }
{
    out.add(&[Mark::Text(text)]);
}

/// An item, as `101,2`.
fn item_text(alloc: Global, item: Item) -> Result<String, NoMemory>
    ensures { IfOk result (λ text. string_bytes text ≡ item_text item) }
{
    let Item { change, set } = item;
    Ok(format!(in alloc; "{change},{set}")?)
}

/// Adds these items to the page of the change that they wait for, at most 100, and how many more there are.
pub fn add_waiting(page: &mut Markup, items: &[Item]) {
    if items.is_empty() {
        return;
    }
    page.add(&[Piece::Markup("<h2>What waits for it</h2>\n<ul>\n")]);
    add_shown(page, items);
    page.add(&[Piece::Markup("</ul>\n")]);
    add_more(page, items.len().saturating_sub(SHOWN));
}

/// Adds those of the items that are shown.
fn add_shown(page: &mut Markup, items: &[Item]) {
    for item in items.iter().take(SHOWN) {
        add_one(page, *item);
    }
}

/// Adds an item to the list.
fn add_one(page: &mut Markup, item: Item) {
    page.add(&[Piece::Markup("<li>")]);
    add_item_link(page, item);
    page.add(&[Piece::Markup("</li>\n")]);
}

/// Adds how many more items there are, if there are any.
fn add_more(page: &mut Markup, more: usize) {
    if more == 0 {
        return;
    }
    fill(page, "<p>And {} more.</p>\n", &[Piece::Number(more as u64)]);
}
