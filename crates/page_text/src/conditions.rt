//! Each condition of the gate, as an item meets or breaks it.

ghost use Rattle.state_core.specs.Items.{IsItem};

use super::sheet::{Mark, Sheet};
use super::template::fill;
use super::words::add_wanted;
use gate_rules::{Gate, Tried};
use markup_text::{Markup, Piece};
use ready_core::Refusal;
use state_core::{Item, State};
use std::alloc::Global;
use why_text::refusal_words;

/// Adds each condition of the gate to the page of an item, in the order in which it is judged.
pub fn add_conditions(alloc: Global, page: &mut Markup, gate: &Gate, state: &State, item: Item)
    requires { IsItem state.now item }
{
    match gate.conditions(alloc, state, item) {
        Ok(tried) => add_tried(page, gate, tried.as_slice()),
        Err(_) => page.refuse(),
    }
}

/// Adds the list of these conditions.
fn add_tried(page: &mut Markup, gate: &Gate, tried: &[Tried]) {
    page.add(&[Piece::Markup("<h2>What the gate asks</h2>\n<ul>\n")]);
    for one in tried {
        add_condition(page, gate, *one);
    }
    page.add(&[Piece::Markup("</ul>\n")]);
}

/// Adds a condition, and whether it is met.
fn add_condition(page: &mut Markup, gate: &Gate, tried: Tried) {
    fill(
        page,
        template_of(tried.is_broken),
        &[Piece::Markup(tried.condition.side.name())],
    );
    add_wanted(page, gate, tried.condition);
    page.add(&[Piece::Markup("</li>\n")]);
}

/// What comes before a condition.
fn template_of(is_broken: bool) -> &'static str {
    if is_broken {
        "<li class=\"waits\">not met: {} "
    } else {
        "<li class=\"ready\">met: {} "
    }
}

/// Adds a list of the conditions of the gate to the data of an item, in the order in which it is judged.
pub fn put_conditions(alloc: Global, out: &mut Sheet, gate: &Gate, state: &State, item: Item)
    requires { IsItem state.now item }
{
    match gate.conditions(alloc, state, item) {
        Ok(tried) => put_tried(alloc, out, tried.as_slice()),
        Err(_) => out.refuse(),
    }
}

/// Adds the list of these conditions.
fn put_tried(alloc: Global, out: &mut Sheet, tried: &[Tried]) {
    out.add(&[Mark::Key("conditions"), Mark::OpenList]);
    for one in tried {
        put_condition(alloc, out, *one);
    }
    out.add(&[Mark::CloseList]);
}

/// Adds the object of a condition.
fn put_condition(alloc: Global, out: &mut Sheet, tried: Tried) {
    match refusal_words(alloc, Refusal::Own(tried.condition)) {
        Ok(words) => out.add(&[
            Mark::Open,
            Mark::Key("condition"),
            Mark::Text(words.as_str()),
            Mark::Key("met"),
            Mark::Flag(!tried.is_broken),
            Mark::Close,
        ]),
        Err(_) => out.refuse(),
    }
}
