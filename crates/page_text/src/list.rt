//! The HTML page of the list of items.

ghost use Rattle.std.specs.Prelude.{IfOk, IfSome};
ghost use Rattle.state_core.specs.State.{state_of};
ghost use Rattle.ready_core.specs.Verdicts.{AreVerdicts};
ghost use Rattle.page_text.specs.Rowless.{AddsRowless, IsRowless};
ghost use Rattle.page_text.specs.Rows.{chosen_rows};
ghost use Rattle.page_text.specs.Table.{HasTable};

use super::counts::{Counted, count_of};
use super::durations::in_unit;
use super::facts::{Facts, PeerFacts};
use super::form::add_form;
use super::frame::{begin, end};
use super::links::add_address;
use super::names::{REASONS, reason_name};
use super::rows::chosen_rows;
use super::table::{add_table, pages_of};
use super::template::fill;
use gate_rules::Gate;
use lattice_core::NoMemory;
use markup_text::{Markup, Piece};
use page_routes::Choice;
use ready_core::Verdicts;
use replica_core::Replica;
use state_core::State;
use std::alloc::Global;

/// How many items may enter, and how many open ones may not.
const COUNTS: &str = r#"<div id="live">
<p><strong class="ready">{}</strong> may enter, <strong class="waits">{}</strong> open ones may not.</p>
"#;

/// The page of a list: what the site knows of itself, a form, the reasons with their numbers, and a table of the rows
/// that are asked for.
pub fn list_page(
    alloc: Global,
    choice: &Choice,
    gate: &Gate,
    replica: &Replica,
    verdicts: &Verdicts,
    facts: &Facts,
) -> Result<Vec<u8>, NoMemory>
    requires { AreVerdicts gate.now (state_of replica.now) verdicts.now }
    ensures { IfOk result (λ text. HasTable gate.now (state_of replica.now) verdicts.now choice.now.page
        (chosen_rows (state_of replica.now) choice.now verdicts.now) text.items) }
{
    let chosen = chosen_rows(alloc, replica.state(), verdicts, choice)?;
    let mut page = top_of(alloc, choice, verdicts, facts);
    let rows = chosen.as_slice();
    add_table(
        alloc,
        &mut page,
        gate,
        replica.state(),
        verdicts,
        rows,
        choice.page,
    );
    add_bottom(&mut page, choice, rows.len());
    let text = end(page)?;
    Ok(text)
}

/// What comes before the table.
fn top_of(alloc: Global, choice: &Choice, verdicts: &Verdicts, facts: &Facts) -> Markup
    ensures { IfSome result IsRowless }
{
    let mut page = begin(alloc, &[Piece::Markup("Items")], facts.site);
    page.add(&[Piece::Markup("<h1>Items</h1>\n")]);
    add_form(&mut page, choice);
    add_counts(&mut page, verdicts);
    add_ago(&mut page, "<p>As it was {}{} ago.</p>\n", facts.age_ms);
    add_news(&mut page, facts.news_ms);
    add_heard(&mut page, facts.heard_ms);
    add_peers(&mut page, facts.peers.as_slice());
    add_reasons(&mut page, verdicts);
    page
}

/// Adds how many items may enter, and how many open ones may not.
fn add_counts(page: &mut Markup, verdicts: &Verdicts)
    ensures { AddsRowless page.old page.new }
{
    fill(
        page,
        COUNTS,
        &[
            Piece::Number(verdicts.ready().len() as u64),
            Piece::Number(count_of(verdicts.out(), Counted::Open) as u64),
        ],
    );
}

/// Adds how long ago something was, in the two places of a template.
fn add_ago(page: &mut Markup, template: &'static str, age_ms: u64)
    requires { IsRowless template.now }
    ensures { AddsRowless page.old page.new }
{
    let (number, unit) = in_unit(age_ms);
    fill(
        page,
        template,
        &[Piece::Number(number), Piece::Markup(unit)],
    );
}

/// Adds when the last operation came.
fn add_news(page: &mut Markup, news_ms: Option<u64>)
    ensures { AddsRowless page.old page.new }
{
    match news_ms {
        Some(news_ms) => add_ago(page, "<p>The last operation came {}{} ago.</p>\n", news_ms),
        None => fill(page, "<p>No operation came since the start.</p>\n", &[]),
    }
}

/// Adds when a feed last heard from Gerrit, where one did.
fn add_heard(page: &mut Markup, heard_ms: Option<u64>)
    ensures { AddsRowless page.old page.new }
{
    if let Some(heard_ms) = heard_ms {
        add_ago(
            page,
            "<p>A feed last heard from Gerrit {}{} ago.</p>\n",
            heard_ms,
        );
    }
}

/// Adds the peers that can't be reached.
fn add_peers(page: &mut Markup, peers: &[PeerFacts])
    ensures { AddsRowless page.old page.new }
{
    for peer in peers {
        if !peer.is_reachable {
            add_peer(page, peer);
        }
    }
}

/// Adds a peer that can't be reached.
fn add_peer(page: &mut Markup, peer: &PeerFacts)
    ensures { AddsRowless page.old page.new }
{
    let (number, unit) = in_unit(peer.condition_ms);
    fill(
        page,
        "<p class=\"waits\">The peer {} has not been reached for {}{}.</p>\n",
        &[
            Piece::Text(peer.peer.as_str()),
            Piece::Number(number),
            Piece::Markup(unit),
        ],
    );
}

/// Adds the reasons for which open items wait, with their numbers.
fn add_reasons(page: &mut Markup, verdicts: &Verdicts)
    ensures { AddsRowless page.old page.new }
{
    page.add(&[Piece::Markup("<h2>Why open items wait</h2>\n<ul>\n")]);
    for reason in REASONS {
        let count = count_of(verdicts.out(), Counted::For(reason));
        add_reason(page, reason_name(reason), count as u64);
    }
    page.add(&[Piece::Markup("</ul>\n")]);
}

/// Adds a reason with its number.
fn add_reason(page: &mut Markup, name: &'static str, count: u64)
    requires { IsRowless name.now }
    ensures { AddsRowless page.old page.new }
{
    let name = Piece::Markup(name);
    fill(
        page,
        "<li><a href=\"/?reason={}\">{}</a>: {}</li>\n",
        &[name, name, Piece::Number(count)],
    );
}

/// Adds links to the page before and to the one after, where there are any.
fn add_bottom(page: &mut Markup, choice: &Choice, rows: usize)
    ensures { AddsRowless page.old page.new }
{
    let number = u64::from(choice.page.max(1));
    page.add(&[Piece::Markup("<nav aria-label=\"Pages\">\n")]);
    add_previous(page, choice, number);
    add_next(page, choice, number, pages_of(rows));
    page.add(&[Piece::Markup("</nav>\n</div>\n")]);
}

/// Adds a link to the page before this one, unless this is the first.
fn add_previous(page: &mut Markup, choice: &Choice, number: u64)
    ensures { AddsRowless page.old page.new }
{
    if number > 1 {
        add_link(page, choice, "prev\">Previous page", number - 1);
    }
}

/// Adds a link to the page after this one, unless this is the last.
fn add_next(page: &mut Markup, choice: &Choice, number: u64, pages: u64)
    ensures { AddsRowless page.old page.new }
{
    if number < pages {
        add_link(page, choice, "next\">Next page", number + 1);
    }
}

/// Adds a link to another page of the list.
fn add_link(page: &mut Markup, choice: &Choice, words: &'static str, number: u64)
    requires { IsRowless words.now }
    ensures { AddsRowless page.old page.new }
{
    page.add(&[Piece::Markup("<a href=\"")]);
    add_address(page, choice, number);
    fill(page, "\" rel=\"{}</a>\n", &[Piece::Markup(words)]);
}
