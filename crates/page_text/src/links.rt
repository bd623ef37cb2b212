//! Links from one page to another.

ghost use Rattle.markup_text.specs.Growing.{Adds};
ghost use Rattle.markup_text.specs.Html.{html_of};
ghost use Rattle.ready_core.specs.Words.{refusal_text};
ghost use Rattle.page_text.specs.Rowless.{AddsRowless};
ghost use Rattle.page_text.specs.Table.{left_html, link_html};

use super::names::{reason_name, shown_name};
use super::template::fill;
use markup_text::{Markup, Piece};
use page_routes::{Choice, Reason};
use ready_core::{Left, Refusal};
use state_core::Item;
use std::alloc::Global;
use why_text::refusal_words;

/// Adds an item, as `101,2`, with a link to its page.
pub fn add_item_link(page: &mut Markup, item: Item)
    ensures { Adds (link_html item) page.old page.new }
{
    let change = Piece::Number(u64::from(item.change));
    let set = Piece::Number(u64::from(item.set));
    let comma = Piece::Markup(",");
    page.add(&[
        Piece::Markup("<a href=\"/change/"),
        change,
        comma,
        set,
        Piece::Markup("\">"),
        change,
        comma,
        set,
        Piece::Markup("</a>"),
    ]);
}

/// Adds an item that is left out, with a link to its page, and its refusal.
pub fn add_left(alloc: Global, page: &mut Markup, left: Left)
    ensures { Adds (left_html left) page.old page.new }
{
    add_item_link(page, left.item);
    page.add(&[Piece::Markup(" ")]);
    add_refusal_words(alloc, page, left.refusal);
}

/// Adds a refusal in the words of a report.
pub fn add_refusal_words(alloc: Global, page: &mut Markup, refusal: Refusal)
    ensures { Adds (html_of (refusal_text refusal)) page.old page.new }
{
    match refusal_words(alloc, refusal) {
        Ok(words) => page.add(&[Piece::Text(words.as_str())]),
        Err(_) => page.refuse(),
    }
}

/// Adds the address of a page of a list.
pub fn add_address(page: &mut Markup, choice: &Choice, number: u64)
    ensures { AddsRowless page.old page.new }
{
    fill(
        page,
        "/?show={}&amp;page={}",
        &[
            Piece::Markup(shown_name(choice.shown)),
            Piece::Number(number),
        ],
    );
    add_reason(page, choice.reason);
    add_words(page, choice);
}

/// Adds the reason that is asked for, if one is.
fn add_reason(page: &mut Markup, reason: Option<Reason>)
    ensures { AddsRowless page.old page.new }
{
    if let Some(reason) = reason {
        fill(
            page,
            "&amp;reason={}",
            &[Piece::Markup(reason_name(reason))],
        );
    }
}

/// Adds the words that are searched for, if some are.
fn add_words(page: &mut Markup, choice: &Choice)
    ensures { AddsRowless page.old page.new }
{
    if let Some(words) = &choice.words {
        fill(page, "&amp;q={}", &[Piece::Query(words.as_str())]);
    }
}
