//! A line for each condition of a gate.

ghost use Rattle.std.specs.Prelude.{◌≡◌, ◌++◌, IfOk, OnOk, map, string_bytes};
ghost use Rattle.gate_check.specs.Asking.{pattern_line, approval_lines, condition_line, condition_lines, current_lines};
ghost use Rattle.gate_check.specs.Asking.{by_place, open_lines, side_lines, status_lines};

use super::place::{approval_key, place_of};
use super::words::{current_words, open_words, pattern_words, status_words};
use gate_rules::{Gate, Pattern, Side};
use lattice_core::NoMemory;
use std::alloc::Global;

/// A line for each condition: what is required, then what is rejected.
pub fn condition_lines(alloc: Global, gate: &Gate) -> Result<Vec<String>, NoMemory>
    ensures { IfOk result (λ lines. map string_bytes lines.items ≡ condition_lines gate.now) }
{
    let mut lines = Vec::new(alloc);
    add_side(alloc, gate, Side::Require, &mut lines)?;
    add_side(alloc, gate, Side::Reject, &mut lines)?;
    Ok(lines)
}

/// Adds the lines of a side.
fn add_side(alloc: Global, gate: &Gate, side: Side, lines: &mut Vec<String>) -> Result<(), NoMemory>
    ensures { OnOk result (map string_bytes lines.new.items
        ≡ map string_bytes lines.old.items ++ side_lines gate.now side) }
{
    add_open(alloc, gate, side, lines)?;
    add_current(alloc, gate, side, lines)?;
    add_status(alloc, gate, side, lines)?;
    add_approvals(alloc, gate, side, gate.clauses(side).approvals(), lines)
}

/// Adds the line of `open`, where it is asked.
fn add_open(alloc: Global, gate: &Gate, side: Side, lines: &mut Vec<String>) -> Result<(), NoMemory>
    ensures { OnOk result (map string_bytes lines.new.items
        ≡ map string_bytes lines.old.items ++ open_lines gate.now side) }
{
    let Some(asked) = gate.clauses(side).asks_open() else {
        return Ok(());
    };
    lines.push(line(alloc, gate, side, "open", open_words(asked))?)?;
    Ok(())
}

/// Adds the line of `current-patchset`, where it is asked.
fn add_current(
    alloc: Global,
    gate: &Gate,
    side: Side,
    lines: &mut Vec<String>,
) -> Result<(), NoMemory>
    ensures { OnOk result (map string_bytes lines.new.items
        ≡ map string_bytes lines.old.items ++ current_lines gate.now side) }
{
    let Some(asked) = gate.clauses(side).asks_current() else {
        return Ok(());
    };
    lines.push(line(alloc, gate, side, "current-patchset", current_words(asked))?)?;
    Ok(())
}

/// Adds the line of `status`, where it is asked.
fn add_status(
    alloc: Global,
    gate: &Gate,
    side: Side,
    lines: &mut Vec<String>,
) -> Result<(), NoMemory>
    ensures { OnOk result (map string_bytes lines.new.items
        ≡ map string_bytes lines.old.items ++ status_lines gate.now side) }
{
    let Some(texts) = gate.clauses(side).statuses() else {
        return Ok(());
    };
    let words = status_words(alloc, texts)?;
    lines.push(line(alloc, gate, side, "status", words.as_str())?)?;
    Ok(())
}

/// Adds the lines of approvals.
fn add_approvals(
    alloc: Global,
    gate: &Gate,
    side: Side,
    approvals: &[Pattern],
    lines: &mut Vec<String>,
) -> Result<(), NoMemory>
    ensures { OnOk result (map string_bytes lines.new.items
        ≡ map string_bytes lines.old.items ++ by_place (approval_lines gate.now side) 0 approvals.now) }
{
    for place in 0..approvals.len() {
        lines.push(approval_line(alloc, gate, side, place, &approvals[place])?)?;
    }
    Ok(())
}

/// The line of an approval.
fn approval_line(
    alloc: Global,
    gate: &Gate,
    side: Side,
    place: usize,
    pattern: &Pattern,
) -> Result<String, NoMemory>
    ensures { IfOk result (λ line. string_bytes line ≡ pattern_line gate.now side place pattern.now) }
{
    let key = approval_key(alloc, place)?;
    let words = pattern_words(alloc, pattern)?;
    line(alloc, gate, side, key.as_str(), words.as_str())
}

/// The line of a condition.
fn line(alloc: Global, gate: &Gate, side: Side, key: &str, words: &str) -> Result<String, NoMemory>
    ensures { IfOk result (λ line. string_bytes line ≡ condition_line gate.now side key.now words.now) }
{
    let place = place_of(alloc, gate, side, key)?;
    let side = side.name();
    Ok(format!(in alloc; "{side} {place} {words}")?)
}
