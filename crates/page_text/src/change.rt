//! The HTML page of a change.

ghost use Rattle.std.specs.Prelude.{Contains, IfOk, IfSome};
ghost use Rattle.std.specs.List.Sorted.{IsStrictlySortedBy};
ghost use Rattle.state_core.specs.Items.{IsItem, item_cmp};
ghost use Rattle.ready_core.specs.Verdicts.{AreVerdicts, items_out};
ghost use Rattle.page_text.specs.Rows.{all_rows};
ghost use Rattle.page_text.specs.Titles.{IsTitled, item_title};

use super::chain::walk_from;
use super::conditions::add_conditions;
use super::drawing::add_drawing;
use super::facts::Facts;
use super::frame::{begin, end};
use super::links::{add_item_link, add_left};
use super::needs::needs_of;
use super::rows::Row;
use super::subject::{first_line, subject_of};
use super::template::fill;
use super::verdict::verdict_on;
use super::waiting::{add_waiting, waiting_for};
use super::words::add_wanted;
use change_core::{Approval, ChangeState};
use gate_rules::Gate;
use lattice_core::NoMemory;
use markup_text::{Markup, Piece};
use ready_core::{Left, Refusal, Verdicts};
use state_core::{Item, State};
use std::alloc::Global;

/// How the part of a page that is an item's own begins.
const ITEM_HEAD: &str = r#"<h1>Change {}, patch set {}</h1>
<p>{}</p>
<div id="live">
"#;

/// What comes before the rows of votes.
const VOTES_HEAD: &str = r#"<table>
<caption>Votes on the current patch set, {}</caption>
<thead><tr><th scope="col">Label</th><th scope="col">Voter</th><th scope="col">Value</th></tr></thead>
<tbody>
"#;

/// The page of an item of the record: its verdict, and what is known of its change.
pub fn change_page(
    alloc: Global,
    item: Item,
    gate: &Gate,
    state: &State,
    verdicts: &Verdicts,
    facts: &Facts,
) -> Result<Vec<u8>, NoMemory>
    requires judged { AreVerdicts gate.now state.now verdicts.now }
    requires there { IsItem state.now item }
    ensures { IfOk result (λ text. IsTitled (item_title state.now item) text.items) }
{
    let main = main_of(alloc, item, gate, state, verdicts);
    titled_page(alloc, state, item, facts.site, &main)
}

/// The page of an item with this part of its own.
fn titled_page(
    alloc: Global,
    state: &State,
    item: Item,
    site: u16,
    main: &Markup,
) -> Result<Vec<u8>, NoMemory>
    ensures { IfOk result (λ text. IsTitled (item_title state.now item) text.items) }
{
    let mut page = begin_titled(alloc, state, item, site);
    page.append(main);
    let text = end(page)?;
    Ok(text)
}

/// The page of an item up to where its own part begins.
fn begin_titled(alloc: Global, state: &State, item: Item, site: u16) -> Markup
    ensures { IfSome result (IsTitled (item_title state.now item)) }
{
    begin(
        alloc,
        &[
            Piece::Markup("Change "),
            Piece::Number(u64::from(item.change)),
            Piece::Markup(","),
            Piece::Number(u64::from(item.set)),
            Piece::Markup(": "),
            Piece::Text(subject_of(state, item)),
        ],
        site,
    )
}

/// The part of the page that is the item's own.
fn main_of(alloc: Global, item: Item, gate: &Gate, state: &State, verdicts: &Verdicts) -> Markup
    requires judged { AreVerdicts gate.now state.now verdicts.now }
    requires there { IsItem state.now item }
{
    let mut page = Markup::new(alloc);
    add_head(&mut page, state, item);
    add_verdict(alloc, &mut page, gate, state, verdicts, item);
    add_conditions(alloc, &mut page, gate, state, item);
    if let Some(change) = state.change(item.change) {
        add_change(&mut page, item.change, change);
    }
    add_needs_of(alloc, &mut page, gate, state, item);
    add_around(alloc, &mut page, gate, state, verdicts, item);
    page.add(&[Piece::Markup("</div>\n")]);
    page
}

/// Adds what waits for the item, and the drawing of that and of what it waits for.
fn add_around(
    alloc: Global,
    page: &mut Markup,
    gate: &Gate,
    state: &State,
    verdicts: &Verdicts,
    item: Item,
)
    requires { IsStrictlySortedBy item_cmp (items_out verdicts.now.out) }
{
    match waiting_for(alloc, verdicts.out(), item.change) {
        Ok(waiting) => add_those_around(
            alloc,
            page,
            gate,
            state,
            verdicts,
            item,
            waiting.as_slice(),
        ),
        Err(_) => page.refuse(),
    }
}

/// Adds these items, which wait for the item, and the drawing.
fn add_those_around(
    alloc: Global,
    page: &mut Markup,
    gate: &Gate,
    state: &State,
    verdicts: &Verdicts,
    item: Item,
    waiting: &[Item],
)
    requires { IsStrictlySortedBy item_cmp (items_out verdicts.now.out) }
{
    add_waiting(page, waiting);
    add_drawing(alloc, page, gate, state, verdicts, item, waiting);
}

/// Adds the item and its subject.
fn add_head(page: &mut Markup, state: &State, item: Item) {
    let change = Piece::Number(u64::from(item.change));
    let set = Piece::Number(u64::from(item.set));
    let subject = Piece::Text(subject_of(state, item));
    fill(page, ITEM_HEAD, &[change, set, subject]);
}

/// Adds whether the item may enter, and if not, why.
fn add_verdict(
    alloc: Global,
    page: &mut Markup,
    gate: &Gate,
    state: &State,
    verdicts: &Verdicts,
    item: Item,
)
    requires { AreVerdicts gate.now state.now verdicts.now }
{
    match verdict_on(verdicts, item) {
        None => {}
        Some(Row::Enters(_, place)) => add_ready(page, place),
        Some(Row::Waits(left)) => add_walk(alloc, page, gate, state, verdicts, left),
    }
}

/// Adds why the item waits.
fn add_walk(
    alloc: Global,
    page: &mut Markup,
    gate: &Gate,
    state: &State,
    verdicts: &Verdicts,
    left: Left,
)
    requires judged { AreVerdicts gate.now state.now verdicts.now }
    requires there { Contains (all_rows verdicts.now) (Row.Waits left) }
{
    match walk_from(alloc, gate, state, verdicts, left) {
        Ok(steps) => add_steps(alloc, page, gate, steps.as_slice()),
        Err(_) => page.refuse(),
    }
}

/// Adds that the item is ready.
fn add_ready(page: &mut Markup, place: usize) {
    fill(
        page,
        "<p class=\"ready\">It is ready, at place {} in gate order.</p>\n",
        &[Piece::Number(place as u64)],
    );
}

/// Adds the items that wait for each other, down to the cause, and what the gate asks there.
fn add_steps(alloc: Global, page: &mut Markup, gate: &Gate, steps: &[Left]) {
    page.add(&[Piece::Markup("<h2>Why it waits</h2>\n<ol>\n")]);
    for step in steps {
        add_step(alloc, page, *step);
    }
    page.add(&[Piece::Markup("</ol>\n")]);
    match steps.last() {
        Some(cause) => add_cause(page, gate, cause.refusal),
        None => {}
    }
}

/// Adds an item that is left out to the list of those that wait for each other.
fn add_step(alloc: Global, page: &mut Markup, step: Left) {
    page.add(&[Piece::Markup("<li class=\"waits\">")]);
    add_left(alloc, page, step);
    page.add(&[Piece::Markup("</li>\n")]);
}

/// Adds what the gate asks at the place of a condition that is broken.
fn add_cause(page: &mut Markup, gate: &Gate, refusal: Refusal) {
    let Refusal::Own(condition) = refusal else {
        return;
    };
    fill(
        page,
        "<p>The gate has there: {} ",
        &[Piece::Markup(condition.side.name())],
    );
    add_wanted(page, gate, condition);
    page.add(&[Piece::Markup(".</p>\n")]);
}

/// Adds what is known of a change: its status, its votes and its patch sets.
fn add_change(page: &mut Markup, number: u32, change: &ChangeState) {
    fill(
        page,
        "<p>The status of the change is {}.</p>\n",
        &[Piece::Markup(change.status().name())],
    );
    if let Some(current) = change.current() {
        add_votes(page, change, current);
    }
    add_sets(page, number, change);
}

/// Adds the approvals of the current patch set.
fn add_votes(page: &mut Markup, change: &ChangeState, current: u32) {
    fill(page, VOTES_HEAD, &[Piece::Number(u64::from(current))]);
    for approval in change.approvals(current) {
        add_vote(page, approval);
    }
    page.add(&[Piece::Markup("</tbody>\n</table>\n")]);
}

/// Adds the row of an approval.
fn add_vote(page: &mut Markup, approval: Approval<'_>) {
    fill(
        page,
        "<tr><td>{}</td><td>{}</td><td>{}</td></tr>\n",
        &[
            Piece::Text(approval.label),
            Piece::Text(approval.voter),
            Piece::Signed(i64::from(approval.value)),
        ],
    );
}

/// Adds the patch sets of a change with their subjects.
fn add_sets(page: &mut Markup, number: u32, change: &ChangeState) {
    page.add(&[Piece::Markup("<h2>Patch sets</h2>\n<ul>\n")]);
    for (set, register) in change.sets() {
        let subject = first_line(register.value().message.as_str());
        let item = Item {
            change: number,
            set: *set,
        };
        add_set(page, item, subject);
    }
    page.add(&[Piece::Markup("</ul>\n")]);
}

/// Adds a patch set with its subject.
fn add_set(page: &mut Markup, item: Item, subject: &str) {
    page.add(&[Piece::Markup("<li>")]);
    add_item_link(page, item);
    fill(page, ": {}</li>\n", &[Piece::Text(subject)]);
}

/// Adds the changes that the item names as its dependencies.
fn add_needs_of(alloc: Global, page: &mut Markup, gate: &Gate, state: &State, item: Item) {
    match needs_of(alloc, gate, state, item) {
        Ok(needs) => add_needs(page, state, needs.as_slice()),
        Err(_) => page.refuse(),
    }
}

/// Adds changes that are named, with their statuses.
fn add_needs(page: &mut Markup, state: &State, needs: &[u32]) {
    page.add(&[Piece::Markup("<h2>Depends on</h2>\n<ul>\n")]);
    for need in needs {
        add_need(page, *need, status_of(state, *need));
    }
    page.add(&[Piece::Markup("</ul>\n")]);
}

/// Adds a change that is named, with its status.
fn add_need(page: &mut Markup, need: u32, status: &'static str) {
    let number = Piece::Number(u64::from(need));
    fill(
        page,
        "<li><a href=\"/change/{}\">{}</a> {}</li>\n",
        &[number, number, Piece::Markup(status)],
    );
}

/// The status of a change in a word. One that isn't merged and of which no patch set is known is unknown, as a verdict
/// says, whatever else the record has of it.
fn status_of(state: &State, number: u32) -> &'static str {
    if !state.is_known(number) && !state.is_merged(number) {
        return "unknown";
    }
    match state.change(number) {
        Some(change) => change.status().name(),
        None => "unknown",
    }
}
