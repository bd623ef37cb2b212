//! What is reached from an item, what waits for it, and drawings with many nodes or a cycle.

use super::record::{Question, Record, has_part, is_so};
use gate_rules::Gate;
use page_routes::{Place, Route};
use page_text::{reached_from, waiting_for};
use ready_core::Left;
use state_core::{Item, State};
use std::alloc::Global;

/// The changes that are reached from the first patch set of a change.
fn reached_by(alloc: Global, gate: &Gate, state: &State, change: u32) -> Option<Vec<u32>> {
    let item = Item { change, set: 1 };
    reached_from(alloc, gate, state, item).ok()
}

/// Whether these changes are reached from the first patch set of the first of them.
pub fn are_reached(alloc: Global, gate: &Gate, state: &State, changes: &[u32]) -> bool {
    let first = match changes.first() {
        Some(change) => *change,
        None => 0,
    };
    match reached_by(alloc, gate, state, first) {
        Some(reached) => reached.as_slice() == changes,
        None => false,
    }
}

/// Whether so many changes are reached from the first patch set of change 1.
pub fn are_so_many_reached(alloc: Global, gate: &Gate, state: &State, count: usize) -> bool {
    match reached_by(alloc, gate, state, 1) {
        Some(reached) => reached.len() == count,
        None => false,
    }
}

/// Whether so many items wait for a change, and the first of them is of this change, or 0 where none waits.
pub fn are_waiting(alloc: Global, out: &[Left], change: u32, wanted: (usize, u32)) -> bool {
    match waiting_for(alloc, out, change) {
        Ok(waiting) => begins_so(waiting.as_slice(), wanted),
        Err(_) => false,
    }
}

/// Whether there are so many items, and the first of them is of this change, or 0 where there is none.
fn begins_so(items: &[Item], wanted: (usize, u32)) -> bool {
    let first = match items.first() {
        Some(item) => item.change,
        None => 0,
    };
    (items.len(), first) == wanted
}

#[test]
fn what_is_named_is_reached_and_what_waits_is_found(rt: HostRuntime) {
    let reaches = Question::Reaches(&[102, 101, 103]);
    let are_reached = is_so(rt.alloc(), Record::Given, reaches);
    let one_waits = is_so(rt.alloc(), Record::Given, Question::Waits(103, 1, 102));
    let none_waits = is_so(rt.alloc(), Record::Given, Question::Waits(101, 0, 0));
    assert!(rt; are_reached && one_waits && none_waits);
}

/// Whether so many changes are reached from change 1 of a record that is a chain.
fn are_counted(alloc: Global, last: u32, parent: u32, count: usize) -> bool {
    is_so(alloc, Record::Chain(last, parent), Question::Counts(count))
}

#[test]
fn cycles_end_and_long_chains_are_cut(rt: HostRuntime) {
    let is_cycle_whole = are_counted(rt.alloc(), 3, 1, 3);
    let is_unknown_there = are_counted(rt.alloc(), 3, 9, 4);
    let is_chain_cut = are_counted(rt.alloc(), 70, 1, 61);
    assert!(rt; is_cycle_whole && is_unknown_there && is_chain_cut);
}

/// Whether the page of a change has this part.
fn is_on_page(alloc: Global, record: Record, change: u32, part: &str) -> bool {
    let place = Place { change, set: None };
    has_part(alloc, record, Route::Change(place), part)
}

/// Whether the page of change 1 of a record that is a chain has this part.
fn is_drawn(alloc: Global, last: u32, parent: u32, part: &str) -> bool {
    is_on_page(alloc, Record::Chain(last, parent), 1, part)
}

/// Of a change without a patch set the drawing and the list say alike whether it is merged or unknown.
#[test]
fn a_change_without_a_patch_set_is_merged_or_unknown(rt: HostRuntime) {
    for (record, drawn, listed) in [
        (
            Record::MergedEnd(3, 9),
            ">9 merged</text>",
            "9</a> MERGED</li>",
        ),
        (
            Record::VotedEnd(3, 9),
            ">9 unknown</text>",
            "9</a> unknown</li>",
        ),
    ] {
        let is_drawn = is_on_page(rt.alloc(), record, 1, drawn);
        let is_listed = is_on_page(rt.alloc(), record, 3, listed);
        assert!(rt; is_drawn && is_listed);
    }
}

#[test]
fn a_drawing_has_sixty_nodes_at_most(rt: HostRuntime) {
    let unknown = "<text x=\"588\" y=\"29\">9 unknown</text>";
    let more = "<p>More than 60 changes would be drawn";
    let is_unknown_drawn = is_drawn(rt.alloc(), 3, 9, unknown);
    let are_sixty_drawn = is_drawn(rt.alloc(), 60, 1, "<svg ");
    let is_more_said = is_drawn(rt.alloc(), 61, 1, more);
    assert!(rt; is_unknown_drawn && are_sixty_drawn && is_more_said);
}
