//! Which conditions of a gate no item can meet beside the gate's others, and which approvals reject nothing.

ghost use Rattle.std.specs.Prelude.{◌≡◌, [], map, string_bytes, unwrap_or};
ghost use Rattle.std.specs.Str.{bytes_eq};
ghost use Rattle.gate_rules.specs.Own.{compared, names, some};
ghost use Rattle.gate_rules.specs.Reading.{each};
ghost use Rattle.gate_rules.specs.declared.condition.Clause.TheVariants.{OpenState, StatusIn};
ghost use Rattle.gate_check.specs.Meeting.{asks_status, comes_out, is_as_wide, is_current_never_met, is_never_met};
ghost use Rattle.gate_check.specs.Meeting.{is_open_never_met, is_status_never_met, lets_in, lets_none_in};
ghost use Rattle.gate_check.specs.Meeting.{is_no_vote, rejects_any_label, rejects_each, rejects_nothing};
ghost use Rattle.gate_check.specs.Meeting.{rejects_votes, same_answer, shuts_out, standing_with, takes_no_vote};

use change_core::{Approval, Status};
use gate_rules::{Clauses, Gate, LabelValues, Pattern, Side};

/// Whether a side asks for `open`, and no change is let in for what is asked of the status.
pub fn is_open_never_met(gate: &Gate, side: Side) -> bool
    ensures { result ≡ is_open_never_met gate.now side }
{
    gate.clauses(side).asks_open().is_some() && shuts_out(gate, side)
}

/// Whether a side requires `current-patchset`, and it can't be met.
pub fn is_current_never_met(gate: &Gate, side: Side) -> bool
    ensures { result ≡ is_current_never_met gate.now side }
{
    match side {
        Side::Require => {
            let required = gate.clauses(Side::Require).asks_current();
            same_answer(required, gate.clauses(Side::Reject).asks_current())
        }
        Side::Reject => false,
    }
}

/// Whether a side asks for `status`, and no change is let in for what is asked of it.
pub fn is_status_never_met(gate: &Gate, side: Side) -> bool
    ensures { result ≡ is_status_never_met gate.now side }
{
    gate.clauses(side).statuses().is_some() && shuts_out(gate, side)
}

/// Whether no change is let in, and this is said of the side: of what is rejected only if nothing is required.
fn shuts_out(gate: &Gate, side: Side) -> bool
    ensures { result ≡ shuts_out gate.now side }
{
    match side {
        Side::Require => lets_none_in(gate),
        Side::Reject => !asks_status(gate.clauses(Side::Require)) && lets_none_in(gate),
    }
}

/// Whether a side asks something of the status.
fn asks_status(clauses: &Clauses) -> bool
    ensures { result ≡ asks_status clauses.now }
{
    clauses.asks_open().is_some() || clauses.statuses().is_some()
}

/// Whether the conditions on a change's status let no change in.
fn lets_none_in(gate: &Gate) -> bool
    ensures { result ≡ lets_none_in gate.now }
{
    !(lets_in(gate, Status::New)
        || lets_in(gate, Status::Abandoned)
        || lets_in(gate, Status::Merged))
}

/// Whether they let a change of this status in.
fn lets_in(gate: &Gate, status: Status) -> bool
    ensures { result ≡ lets_in gate.now status }
{
    let require = gate.clauses(Side::Require);
    let reject = gate.clauses(Side::Reject);
    comes_out(true, open_is(require, status))
        && comes_out(true, status_among(require, status))
        && comes_out(false, open_is(reject, status))
        && comes_out(false, status_among(reject, status))
}

/// Whether a change of this status is open as is asked, where it is.
fn open_is(clauses: &Clauses, status: Status) -> Option<bool>
    ensures { result ≡ compared clauses.now (standing_with status) OpenState }
{
    let asked = clauses.asks_open()?;
    Some((status == Status::New) == asked)
}

/// Whether the status is among those that are asked, where they are.
fn status_among(clauses: &Clauses, status: Status) -> Option<bool>
    ensures { result ≡ compared clauses.now (standing_with status) StatusIn }
{
    let texts = clauses.statuses()?;
    Some(is_among(texts, status.name()))
}

/// Whether a status is one of the texts.
fn is_among(texts: &[String], status: &str) -> bool
    ensures { result ≡ some (bytes_eq status.now) (map string_bytes texts.now) }
{
    for text in texts {
        if status == text.as_str() {
            return true;
        }
    }
    false
}

/// Whether what is compared, where it is, comes out as wanted.
fn comes_out(wanted: bool, compared: Option<bool>) -> bool
    ensures { result ≡ comes_out wanted compared }
{
    match compared {
        Some(so) => so == wanted,
        None => true,
    }
}

/// Whether the same is required and rejected.
fn same_answer(required: Option<bool>, rejected: Option<bool>) -> bool
    ensures { result ≡ same_answer required rejected }
{
    match (required, rejected) {
        (Some(required), Some(rejected)) => required == rejected,
        _ => false,
    }
}

/// Whether a pattern of a side is required and can't be met: every vote that it takes is rejected.
pub fn is_never_met(gate: &Gate, side: Side, pattern: &Pattern) -> bool
    ensures { result ≡ is_never_met gate.now side pattern.now }
{
    match side {
        Side::Require => rejects_each(gate.clauses(Side::Reject).approvals(), pattern),
        Side::Reject => false,
    }
}

/// Whether every vote that the pattern takes is taken by one that is rejected. One with two labels takes no vote.
fn rejects_each(rejected: &[Pattern], pattern: &Pattern) -> bool
    ensures { result ≡ rejects_each rejected.now pattern.now pattern.now.labels }
{
    let labels = pattern.labels();
    if labels.is_empty() {
        return rejects_any_label(rejected, pattern);
    }
    labels.len() > 1 || rejects_values(rejected, pattern, &labels[0])
}

/// Whether the votes of this label and each of its values that the pattern takes are rejected.
fn rejects_values(rejected: &[Pattern], pattern: &Pattern, rule: &LabelValues) -> bool
    ensures { result ≡ each (rejects_votes rejected.now pattern.now rule.now.label) rule.now.values }
{
    for value in rule.values() {
        if !rejects_votes(rejected, pattern, rule.label(), *value) {
            return false;
        }
    }
    true
}

/// Whether the votes of this label and value that the pattern takes are rejected. A vote of 0 is none.
fn rejects_votes(rejected: &[Pattern], pattern: &Pattern, label: &str, value: i8) -> bool
    ensures { result ≡ rejects_votes rejected.now pattern.now label.now value }
{
    if value == 0 {
        return true;
    }
    let vote = Approval {
        label,
        voter: pattern.username().unwrap_or(""),
        value,
    };
    for other in rejected {
        if is_as_wide(other, pattern) && other.matches(&vote) {
            return true;
        }
    }
    false
}

/// Whether all votes that the pattern takes are rejected, of whatever label they are.
fn rejects_any_label(rejected: &[Pattern], pattern: &Pattern) -> bool
    ensures { result ≡ rejects_any_label rejected.now pattern.now }
{
    for other in rejected {
        if is_as_wide(other, pattern) && takes_voter(other, pattern) && other.labels().is_empty() {
            return true;
        }
    }
    false
}

/// Whether the other one takes every voter whom the pattern takes, if it takes the one who is named.
fn is_as_wide(other: &Pattern, pattern: &Pattern) -> bool
    ensures { result ≡ is_as_wide other.now pattern.now }
{
    other.username().is_none() || pattern.username().is_some()
}

/// Whether the other one takes the voter whom the pattern names, or whom it takes where it names none.
fn takes_voter(other: &Pattern, pattern: &Pattern) -> bool
    ensures { result ≡ names other.now.username (unwrap_or pattern.now.username []) }
{
    match other.username() {
        Some(username) => username == pattern.username().unwrap_or(""),
        None => true,
    }
}

/// Whether a pattern of a side is rejected and takes no vote, so that it rejects nothing.
pub fn rejects_nothing(side: Side, pattern: &Pattern) -> bool
    ensures { result ≡ rejects_nothing side pattern.now }
{
    match side {
        Side::Require => false,
        Side::Reject => takes_no_vote(pattern.labels()),
    }
}

/// Whether a pattern with these labels takes no vote: it has two of them, or one that has no value but 0.
fn takes_no_vote(labels: &[LabelValues]) -> bool
    ensures { result ≡ takes_no_vote labels.now }
{
    if labels.is_empty() {
        return false;
    }
    labels.len() > 1 || has_no_vote(labels[0].values())
}

/// Whether there is no value but 0, which is no vote.
fn has_no_vote(values: &[i8]) -> bool
    ensures { result ≡ each is_no_vote values.now }
{
    for value in values {
        if *value != 0 {
            return false;
        }
    }
    true
}
