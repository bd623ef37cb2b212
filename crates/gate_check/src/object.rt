//! What a check says, as JSON.

ghost use Rattle.std.specs.Prelude.{◌≡◌, ◌++◌, IfOk, OnOk, codes, flat_map, map, option_map, string_bytes};
ghost use Rattle.json_line.specs.Tokens.{AddsTokens, json_line, listed_tokens, object_of, texts_listed};
ghost use Rattle.gate_check.specs.Checked.{IsCheck, check_line, warning_tokens};

use super::asking::condition_lines;
use super::checking::evidence_in;
use super::finding::findings_of;
use super::found::Finding;
use super::laws::{
    status_names_are_those_of_changes, the_nearest_name_is_found, voters_are_those_who_can_vote,
    what_is_never_met_lets_nothing_in, what_rejects_nothing_is_never_broken,
};
use gate_rules::Gate;
use json::Writer;
use json_line::{close_list, close_object, line_of, open_list, open_object, put_texts};
use lattice_core::NoMemory;
use state_core::State;
use std::alloc::Global;

/// What a check says of a gate as JSON: its line, and how many warnings that has.
#[derive(Drop)]
pub struct CheckedLine {
    pub line: Vec<u8>,
    pub warnings: usize,
}

/// Checks a gate as `check_gate` does, and says the same as JSON: one object with a list of the lines of the conditions
/// and one of the warnings, each an object. The costs are those of `check_gate`.
pub fn check_line(
    alloc: Global,
    gate: &Gate,
    state: Option<&State>,
) -> Result<CheckedLine, NoMemory>
    ensures { IfOk result (λ check. IsCheck check_line gate.now (option_map (λ known. known.now) state.entry)
        check.line.items check.warnings) }
{
    what_is_never_met_lets_nothing_in();
    what_rejects_nothing_is_never_broken();
    status_names_are_those_of_changes();
    the_nearest_name_is_found();
    voters_are_those_who_can_vote();
    let evidence = evidence_in(alloc, gate, state)?;
    let conditions = condition_lines(alloc, gate)?;
    let found = findings_of(alloc, gate, &evidence)?;
    let line = line_with(alloc, conditions.as_slice(), found.as_slice())?;
    let warnings = found.as_slice().len();
    Ok(CheckedLine { line, warnings })
}

/// The line of these lines and warnings.
fn line_with(alloc: Global, conditions: &[String], found: &[Finding]) -> Result<Vec<u8>, NoMemory>
    ensures { IfOk result (λ line. line.items ≡ json_line (object_of
        (texts_listed (codes "conditions") (map string_bytes conditions.now)
        ++ listed_tokens (codes "warnings") (flat_map warning_tokens found.now)))) }
{
    let mut out = Writer::new(Vec::new(alloc));
    open_object(&mut out)?;
    put_texts(&mut out, "conditions", conditions)?;
    put_warnings(&mut out, found)?;
    close_object(&mut out)?;
    line_of(out)
}

/// Adds the list of warnings.
fn put_warnings(out: &mut Writer<Global>, found: &[Finding]) -> Result<(), NoMemory>
    ensures { OnOk result
        (AddsTokens out.old out.new (listed_tokens (codes "warnings") (flat_map warning_tokens found.now))) }
{
    open_list(out, "warnings")?;
    add_all(out, found)?;
    close_list(out)?;
    Ok(())
}

/// Adds the objects of warnings.
fn add_all(out: &mut Writer<Global>, found: &[Finding]) -> Result<(), NoMemory>
    ensures { OnOk result (AddsTokens out.old out.new (flat_map warning_tokens found.now)) }
{
    for finding in found {
        finding.put(out)?;
    }
    Ok(())
}
