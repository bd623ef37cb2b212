//! The text of a check.

ghost use Rattle.std.specs.Prelude.{◌≡◌, ◌++◌, IfOk, OnOk, flat_map, length, map, option_map, string_bytes};
ghost use Rattle.byte_ends.specs.Lines.{as_line};
ghost use Rattle.gate_check.specs.Checked.{IsCheck, as_warning, check_text, checked_line};
ghost use Rattle.gate_check.specs.Evidence.{IsEvidenceIfAny};
ghost use Rattle.gate_check.specs.Shown.{evidence_shown};

use super::asking::condition_lines;
use super::evidence::Evidence;
use super::finding::findings_of;
use super::found::Finding;
use super::laws::{
    status_names_are_those_of_changes, the_nearest_name_is_found, voters_are_those_who_can_vote,
    what_is_never_met_lets_nothing_in, what_rejects_nothing_is_never_broken,
};
use gate_rules::Gate;
use lattice_core::NoMemory;
use state_core::State;
use std::alloc::Global;

/// What a check says of a gate: its text, and how many warnings that has.
#[derive(Drop)]
pub struct Checked {
    pub text: String,
    pub warnings: usize,
}

/// Checks a gate: a line for each of its conditions, with the side, the place in the gate file and what is asked, in
/// the order in which items are judged by them; a line for each warning, in that order, then those of bases, and last
/// those of footers, in byte order; and `end` with how many there are of both. Where the state of a record is given,
/// labels, voters and bases are looked for there, of a label or a voter that it lacks the nearest is named, and its
/// footers that begin with a base and yet name no change. The warnings are 1 `Pattern`, 2 `UnknownLabel`, 3
/// `UnknownVoter`, 4 `NeverMet`, 5 `UnusedBase`, 6 `NoVoter`, 7 `IgnoredFooter`, 8 `RejectsNothing` and 9 `NoStatus`.
/// It costs O(b + p q + v log n + m) for b bytes of text, p values of patterns that are required, q patterns that are
/// rejected, v votes of n labels and voters and m bytes of messages for each base, for each unknown name O(c d) for its
/// c characters and d of all names, and O(f log f) for the f footers that it names.
pub fn check_gate(alloc: Global, gate: &Gate, state: Option<&State>) -> Result<Checked, NoMemory>
    ensures { IfOk result (λ check. IsCheck check_text gate.now (option_map (λ known. known.now) state.entry)
        (string_bytes check.text) check.warnings) }
{
    what_is_never_met_lets_nothing_in();
    what_rejects_nothing_is_never_broken();
    status_names_are_those_of_changes();
    the_nearest_name_is_found();
    voters_are_those_who_can_vote();
    let evidence = evidence_in(alloc, gate, state)?;
    let conditions = condition_lines(alloc, gate)?;
    let found = findings_of(alloc, gate, &evidence)?;
    let checked = text_with(alloc, conditions.as_slice(), found.as_slice())?;
    Ok(checked)
}

/// The text of these lines and warnings.
fn text_with(alloc: Global, conditions: &[String], found: &[Finding]) -> Result<Checked, NoMemory>
    ensures text { IfOk result (λ check. string_bytes check.text
        ≡ flat_map as_line (map string_bytes conditions.now) ++ flat_map as_warning found.now
        ++ as_line (checked_line (length conditions.now) (length found.now))) }
    ensures warnings { IfOk result (λ check. check.warnings ≡ length found.now) }
{
    let mut text = String::new(alloc);
    add_lines(&mut text, conditions)?;
    add_warnings(alloc, &mut text, found)?;
    let asked = conditions.len();
    let warnings = found.len();
    write!(text, "end {asked} {warnings}\n")?;
    Ok(Checked { text, warnings })
}

/// What the record of a state shows, where one is given.
pub(super) fn evidence_in(
    alloc: Global,
    gate: &Gate,
    state: Option<&State>,
) -> Result<Option<Evidence>, NoMemory>
    ensures { IfOk result (λ evidence. IsEvidenceIfAny gate.now (option_map (λ known. known.now) state.entry)
        (option_map evidence_shown evidence)) }
{
    match state {
        Some(state) => Ok(Some(Evidence::of(alloc, gate, state)?)),
        None => Ok(None),
    }
}

/// Adds lines to a text.
fn add_lines(text: &mut String, lines: &[String]) -> Result<(), NoMemory>
    ensures { OnOk result (string_bytes text.new
        ≡ string_bytes text.old ++ flat_map as_line (map string_bytes lines.now)) }
{
    for line in lines {
        text.push_str(line.as_str())?;
        text.push_str("\n")?;
    }
    Ok(())
}

/// Adds the lines of warnings to a text.
fn add_warnings(alloc: Global, text: &mut String, found: &[Finding]) -> Result<(), NoMemory>
    ensures { OnOk result (string_bytes text.new ≡ string_bytes text.old ++ flat_map as_warning found.now) }
{
    for finding in found {
        let line = finding.line(alloc)?;
        text.push_str(line.as_str())?;
        text.push_str("\n")?;
    }
    Ok(())
}
