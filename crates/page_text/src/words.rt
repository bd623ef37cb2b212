//! The words of what a gate asks.

ghost use Rattle.std.specs.Prelude.{◌≡◌, ◌-◌, ◌++◌, map, option_map, slice_get, string_bytes};
ghost use Rattle.markup_text.specs.Growing.{Adds};
ghost use Rattle.page_text.specs.Wanted.{any_html, approval_html, current_phrase, label_html, labels_html, open_phrase};
ghost use Rattle.page_text.specs.Wanted.{pattern_html, status_html, statuses_html, values_html, voter_html};
ghost use Rattle.page_text.specs.Wanted.{wanted_html};

use gate_rules::{Clause, Clauses, Condition, Gate, LabelValues, Pattern};
use markup_text::{Markup, Piece};

/// Adds what the gate asks at the place of a condition.
pub fn add_wanted(page: &mut Markup, gate: &Gate, condition: Condition)
    ensures { Adds (wanted_html gate.now condition) page.old page.new }
{
    let clauses = gate.clauses(condition.side);
    match condition.clause {
        Clause::OpenState => page.add(&[Piece::Markup(open_words(clauses.asks_open()))]),
        Clause::CurrentSet => page.add(&[Piece::Markup(current_words(clauses.asks_current()))]),
        Clause::StatusIn => add_status(page, clauses),
        Clause::Approval(number) => add_approval(page, clauses.approvals(), number),
    }
}

/// What `open` asks.
fn open_words(asked: Option<bool>) -> &'static str
    ensures { result.now ≡ open_phrase asked }
{
    match asked {
        Some(false) => "not open",
        Some(true) | None => "open",
    }
}

/// What `current-patchset` asks.
fn current_words(asked: Option<bool>) -> &'static str
    ensures { result.now ≡ current_phrase asked }
{
    match asked {
        Some(false) => "not the current patch set",
        Some(true) | None => "the current patch set",
    }
}

/// Adds what `status` asks.
fn add_status(page: &mut Markup, clauses: &Clauses)
    ensures { Adds (status_html clauses.now.status) page.old page.new }
{
    page.add(&[Piece::Markup("status")]);
    match clauses.statuses() {
        Some(texts) => add_statuses(page, texts),
        None => {}
    }
}

/// Adds the statuses of which one is asked for.
fn add_statuses(page: &mut Markup, texts: &[String])
    ensures { Adds (statuses_html (map string_bytes texts.now)) page.old page.new }
{
    let mut before = " ";
    for text in texts {
        page.add(&[Piece::Markup(before), Piece::Text(text.as_str())]);
        before = " or ";
    }
}

/// Adds what the approval of this number asks, from 1.
fn add_approval(page: &mut Markup, patterns: &[Pattern], number: usize)
    ensures { Adds (approval_html (slice_get patterns.now (number - 1))) page.old page.new }
{
    match patterns.get(number.saturating_sub(1)) {
        Some(pattern) => add_pattern(page, pattern),
        None => {}
    }
}

/// Adds what a vote must be.
fn add_pattern(page: &mut Markup, pattern: &Pattern)
    ensures { Adds (pattern_html pattern.now) page.old page.new }
{
    add_any(page, pattern.labels());
    add_labels(page, pattern.labels());
    add_voter(page, pattern.username())
}

/// Adds that any vote is taken, where no label is asked for.
fn add_any(page: &mut Markup, labels: &[LabelValues])
    ensures { Adds (any_html labels.now) page.old page.new }
{
    if labels.is_empty() {
        page.add(&[Piece::Markup("any vote")]);
    }
}

/// Adds the labels that are asked for.
fn add_labels(page: &mut Markup, labels: &[LabelValues])
    ensures { Adds (labels_html labels.now) page.old page.new }
{
    let mut before = "";
    for rule in labels {
        page.add(&[Piece::Markup(before)]);
        add_label(page, rule);
        before = " and ";
    }
}

/// Adds a label with its values.
fn add_label(page: &mut Markup, rule: &LabelValues)
    ensures { Adds (label_html rule.now) page.old page.new }
{
    page.add(&[Piece::Text(rule.label())]);
    add_values(page, rule.values());
}

/// Adds the values of a label.
fn add_values(page: &mut Markup, values: &[i8])
    ensures { Adds (values_html values.now) page.old page.new }
{
    let mut before = " ";
    for value in values {
        page.add(&[Piece::Markup(before), Piece::Signed(i64::from(*value))]);
        before = " or ";
    }
}

/// Adds who must vote, if somebody is named.
fn add_voter(page: &mut Markup, voter: Option<&str>)
    ensures { Adds (voter_html (option_map (λ name. name.now) voter.entry)) page.old page.new }
{
    match voter {
        Some(name) => page.add(&[Piece::Markup(" by "), Piece::Text(name)]),
        None => {}
    }
}
