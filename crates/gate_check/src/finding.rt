//! The warnings of a gate.

ghost use Rattle.std.specs.Prelude.{◌≡◌, ◌∷◌, ◌++◌, [], IfOk, OnOk, flat_map, map, nat_eq, option_map, string_bytes};
ghost use Rattle.gate_rules.specs.Own.{some};
ghost use Rattle.gate_check.specs.Asking.{by_place};
ghost use Rattle.gate_check.specs.Evidence.{names_shown_by};
ghost use Rattle.gate_check.specs.Shown.{evidence_shown, names_shown};
ghost use Rattle.gate_check.specs.Warnings.{approval_warnings, base_place, base_warning, base_warnings};
ghost use Rattle.gate_check.specs.Warnings.{can_vote, condition_warnings, first_warnings, footer_warning};
ghost use Rattle.gate_check.specs.Warnings.{footer_warnings, is_sign, key_warnings, label_warning, nobody_warnings};
ghost use Rattle.gate_check.specs.Warnings.{of_place, pattern_warnings, side_warnings, unknown_name};
ghost use Rattle.gate_check.specs.Warnings.{unknown_warnings, username_warnings, vote_warnings, voter_warnings};
ghost use Rattle.gate_check.specs.Warnings.{asked_statuses, is_status_name, status_warning, warned, warnings_at};
ghost use Rattle.gate_check.specs.Warnings.{warnings_of};

use super::evidence::Evidence;
use super::found::Finding;
use super::meeting::{
    is_current_never_met, is_never_met, is_open_never_met, is_status_never_met, rejects_nothing,
};
use super::names::{Names, has};
use super::nearest::nearest;
use super::place::{approval_key, place_of};
use super::warning::Warning;
use gate_rules::{Gate, LabelValues, Pattern, Side};
use lattice_core::NoMemory;
use review_ops::is_voter;
use std::alloc::Global;
use std::collections::BTreeSet;

/// The warnings of a gate: condition by condition, then those of its bases, and then those of footers; where it is given
/// what a record shows, of that, too.
pub fn findings_of(
    alloc: Global,
    gate: &Gate,
    evidence: &Option<Evidence>,
) -> Result<Vec<Finding>, NoMemory>
    ensures { IfOk result (λ found. found.items
        ≡ warnings_of gate.now (option_map evidence_shown evidence.now)) }
{
    let mut found = Vec::new(alloc);
    add_conditions(alloc, gate, names_in(evidence), &mut found)?;
    add_unused(alloc, gate, evidence, &mut found)?;
    add_ignored(alloc, evidence, &mut found)?;
    Ok(found)
}

/// The names of a record, where one is given.
fn names_in(evidence: &Option<Evidence>) -> Option<&Names>
    ensures { option_map (λ known. names_shown known.now) result
        ≡ names_shown_by (option_map evidence_shown evidence.now) }
{
    match evidence {
        Some(evidence) => Some(evidence.names()),
        None => None,
    }
}

/// Adds those of the conditions.
fn add_conditions(
    alloc: Global,
    gate: &Gate,
    names: Option<&Names>,
    found: &mut Vec<Finding>,
) -> Result<(), NoMemory>
    ensures { OnOk result (found.new.items ≡ found.old.items
        ++ condition_warnings gate.now (option_map (λ known. names_shown known.now) names.entry)) }
{
    add_side(alloc, gate, names, Side::Require, found)?;
    add_side(alloc, gate, names, Side::Reject, found)?;
    Ok(())
}

/// Adds those of a side's conditions.
fn add_side(
    alloc: Global,
    gate: &Gate,
    names: Option<&Names>,
    side: Side,
    found: &mut Vec<Finding>,
) -> Result<(), NoMemory>
    ensures { OnOk result (found.new.items ≡ found.old.items
        ++ side_warnings gate.now (option_map (λ known. names_shown known.now) names.entry) side) }
{
    add_first(alloc, gate, side, found)?;
    add_statuses(alloc, gate, side, found)?;
    let approvals = gate.clauses(side).approvals();
    add_approvals(alloc, gate, names, side, approvals, found)?;
    Ok(())
}

/// Adds those of a side's conditions before the approvals.
fn add_first(
    alloc: Global,
    gate: &Gate,
    side: Side,
    found: &mut Vec<Finding>,
) -> Result<(), NoMemory>
    ensures { OnOk result (found.new.items ≡ found.old.items ++ first_warnings gate.now side) }
{
    let is_open = is_open_never_met(gate, side);
    add_key(alloc, gate, side, "open", is_open, found)?;
    let is_current = is_current_never_met(gate, side);
    add_key(alloc, gate, side, "current-patchset", is_current, found)?;
    let is_status = is_status_never_met(gate, side);
    add_key(alloc, gate, side, "status", is_status, found)
}

/// Adds those of the statuses that a side asks for.
fn add_statuses(
    alloc: Global,
    gate: &Gate,
    side: Side,
    found: &mut Vec<Finding>,
) -> Result<(), NoMemory>
    ensures { OnOk result (found.new.items ≡ found.old.items ++ asked_statuses gate.now side) }
{
    let Some(names) = gate.clauses(side).statuses() else {
        return Ok(());
    };
    let place = place_of(alloc, gate, side, "status")?;
    add_status_names(alloc, place.as_str(), names, found)
}

/// Adds those of the names of statuses that are asked for at a place.
fn add_status_names(
    alloc: Global,
    place: &str,
    names: &[String],
    found: &mut Vec<Finding>,
) -> Result<(), NoMemory>
    ensures { OnOk result (found.new.items
        ≡ found.old.items ++ flat_map (status_warning place.now) (map string_bytes names.now)) }
{
    for name in names {
        add_status_name(alloc, place, name.as_str(), found)?;
    }
    Ok(())
}

/// Adds that no change has a status of this name, if it is so.
fn add_status_name(
    alloc: Global,
    place: &str,
    name: &str,
    found: &mut Vec<Finding>,
) -> Result<(), NoMemory>
    ensures { OnOk result (found.new.items ≡ found.old.items ++ status_warning place.now name.now) }
{
    if !is_status_name(name) {
        found.push(Finding::new(alloc, Warning::NoStatus, place, Some(name), None)?)?;
    }
    Ok(())
}

/// Whether a status of changes has this name.
fn is_status_name(name: &str) -> bool
    ensures { result ≡ is_status_name name.now }
{
    name == "NEW" || name == "MERGED" || name == "ABANDONED"
}

/// Adds that what a side asks under a key is never met, if it is so.
fn add_key(
    alloc: Global,
    gate: &Gate,
    side: Side,
    key: &str,
    is_so: bool,
    found: &mut Vec<Finding>,
) -> Result<(), NoMemory>
    ensures { OnOk result (found.new.items ≡ found.old.items ++ key_warnings gate.now side key.now is_so) }
{
    let place = place_of(alloc, gate, side, key)?;
    add_if(alloc, is_so, Warning::NeverMet, place.as_str(), found)
}

/// Adds a warning of a place alone, if it is so.
fn add_if(
    alloc: Global,
    is_so: bool,
    warning: Warning,
    place: &str,
    found: &mut Vec<Finding>,
) -> Result<(), NoMemory>
    ensures { OnOk result (found.new.items ≡ found.old.items ++ warned is_so (of_place warning place.now)) }
{
    if is_so {
        found.push(Finding::new(alloc, warning, place, None, None)?)?;
    }
    Ok(())
}

/// Adds those of a side's approvals.
fn add_approvals(
    alloc: Global,
    gate: &Gate,
    names: Option<&Names>,
    side: Side,
    approvals: &[Pattern],
    found: &mut Vec<Finding>,
) -> Result<(), NoMemory>
    ensures { OnOk result (found.new.items ≡ found.old.items
        ++ by_place (approval_warnings gate.now (option_map (λ known. names_shown known.now) names.entry) side) 0
        approvals.now) }
{
    for number in 0..approvals.len() {
        add_approval(alloc, gate, names, side, number, &approvals[number], found)?;
    }
    Ok(())
}

/// Adds those of an approval.
fn add_approval(
    alloc: Global,
    gate: &Gate,
    names: Option<&Names>,
    side: Side,
    number: usize,
    pattern: &Pattern,
    found: &mut Vec<Finding>,
) -> Result<(), NoMemory>
    ensures { OnOk result (found.new.items ≡ found.old.items
        ++ approval_warnings gate.now (option_map (λ known. names_shown known.now) names.entry) side number pattern.now) }
{
    let key = approval_key(alloc, number)?;
    let place = place_of(alloc, gate, side, key.as_str())?;
    add_at(alloc, gate, names, side, place.as_str(), pattern, found)
}

/// Adds those of an approval at a place.
fn add_at(
    alloc: Global,
    gate: &Gate,
    names: Option<&Names>,
    side: Side,
    place: &str,
    pattern: &Pattern,
    found: &mut Vec<Finding>,
) -> Result<(), NoMemory>
    ensures { OnOk result (found.new.items ≡ found.old.items
        ++ warnings_at gate.now (option_map (λ known. names_shown known.now) names.entry) side place.now pattern.now) }
{
    add_username(alloc, place, pattern.username(), found)?;
    add_unknown(alloc, place, names, pattern, found)?;
    add_accepted(alloc, gate, side, place, pattern, found)
}

/// Adds those of the votes that an approval at a place accepts.
fn add_accepted(
    alloc: Global,
    gate: &Gate,
    side: Side,
    place: &str,
    pattern: &Pattern,
    found: &mut Vec<Finding>,
) -> Result<(), NoMemory>
    ensures { OnOk result (found.new.items
        ≡ found.old.items ++ vote_warnings gate.now side place.now pattern.now) }
{
    let is_never_met = is_never_met(gate, side, pattern);
    add_if(alloc, is_never_met, Warning::NeverMet, place, found)?;
    let rejects_nothing = rejects_nothing(side, pattern);
    add_if(
        alloc,
        rejects_nothing,
        Warning::RejectsNothing,
        place,
        found,
    )
}

/// Adds those of a username, whatever a record has.
fn add_username(
    alloc: Global,
    place: &str,
    username: Option<&str>,
    found: &mut Vec<Finding>,
) -> Result<(), NoMemory>
    ensures { OnOk result (found.new.items
        ≡ found.old.items ++ username_warnings place.now (option_map (λ name. name.now) username.entry)) }
{
    add_pattern(alloc, place, username, found)?;
    add_nobody(alloc, place, username, found)
}

/// Adds that nobody can have a username, if it is so.
fn add_nobody(
    alloc: Global,
    place: &str,
    username: Option<&str>,
    found: &mut Vec<Finding>,
) -> Result<(), NoMemory>
    ensures { OnOk result (found.new.items
        ≡ found.old.items ++ nobody_warnings place.now (option_map (λ name. name.now) username.entry)) }
{
    let Some(voter) = username else {
        return Ok(());
    };
    if !can_vote(voter) {
        found.push(Finding::new(alloc, Warning::NoVoter, place, Some(voter), None)?)?;
    }
    Ok(())
}

/// Whether somebody can have a username.
fn can_vote(username: &str) -> bool
    ensures { result ≡ can_vote username.now }
{
    is_voter(username)
}

/// Adds that a username looks like a regular expression, if it does.
fn add_pattern(
    alloc: Global,
    place: &str,
    username: Option<&str>,
    found: &mut Vec<Finding>,
) -> Result<(), NoMemory>
    ensures { OnOk result (found.new.items
        ≡ found.old.items ++ pattern_warnings place.now (option_map (λ name. name.now) username.entry)) }
{
    let Some(voter) = username else {
        return Ok(());
    };
    if has_sign(voter.as_bytes()) {
        found.push(Finding::new(alloc, Warning::Pattern, place, Some(voter), None)?)?;
    }
    Ok(())
}

/// Whether a username has a character that a regular expression would have.
fn has_sign(username: &[u8]) -> bool
    ensures { result ≡ some is_sign username.now }
{
    for byte in username {
        if is_sign(*byte) {
            return true;
        }
    }
    false
}

/// Whether a byte is such a character.
fn is_sign(byte: u8) -> bool
    ensures { result ≡ is_sign byte }
{
    has_byte(b"^$*+?()[]{}|\\", byte)
}

/// Whether a byte is among these.
fn has_byte(bytes: &[u8], byte: u8) -> bool
    ensures { result ≡ some (nat_eq byte) bytes.now }
{
    for other in bytes {
        if byte == *other {
            return true;
        }
    }
    false
}

/// Adds which names of a pattern the record lacks.
fn add_unknown(
    alloc: Global,
    place: &str,
    names: Option<&Names>,
    pattern: &Pattern,
    found: &mut Vec<Finding>,
) -> Result<(), NoMemory>
    ensures { OnOk result (found.new.items ≡ found.old.items
        ++ unknown_warnings place.now (option_map (λ known. names_shown known.now) names.entry) pattern.now) }
{
    let Some(names) = names else {
        return Ok(());
    };
    add_labels(alloc, place, names, pattern.labels(), found)?;
    add_voter(alloc, place, names, pattern.username(), found)
}

/// Adds which labels the record lacks.
fn add_labels(
    alloc: Global,
    place: &str,
    names: &Names,
    labels: &[LabelValues],
    found: &mut Vec<Finding>,
) -> Result<(), NoMemory>
    ensures { OnOk result (found.new.items
        ≡ found.old.items ++ flat_map (label_warning place.now (names_shown names.now)) labels.now) }
{
    for rule in labels {
        add_label(alloc, place, names, rule, found)?;
    }
    Ok(())
}

/// Adds that the record lacks a label, if it does.
fn add_label(
    alloc: Global,
    place: &str,
    names: &Names,
    rule: &LabelValues,
    found: &mut Vec<Finding>,
) -> Result<(), NoMemory>
    ensures { OnOk result (found.new.items
        ≡ found.old.items ++ label_warning place.now (names_shown names.now) rule.now) }
{
    let labels = names.labels();
    add_name(
        alloc,
        Warning::UnknownLabel,
        place,
        labels,
        rule.label(),
        found,
    )
}

/// Adds that the record lacks the voter, if it does.
fn add_voter(
    alloc: Global,
    place: &str,
    names: &Names,
    username: Option<&str>,
    found: &mut Vec<Finding>,
) -> Result<(), NoMemory>
    ensures { OnOk result (found.new.items ≡ found.old.items
        ++ voter_warnings place.now (names_shown names.now) (option_map (λ name. name.now) username.entry)) }
{
    let Some(voter) = username else {
        return Ok(());
    };
    let voters = names.voters();
    add_name(alloc, Warning::UnknownVoter, place, voters, voter, found)
}

/// Adds that a name isn't among these, if it isn't, with the nearest of them.
fn add_name(
    alloc: Global,
    warning: Warning,
    place: &str,
    names: &BTreeSet<String>,
    name: &str,
    found: &mut Vec<Finding>,
) -> Result<(), NoMemory>
    ensures { OnOk result (found.new.items
        ≡ found.old.items ++ unknown_name warning place.now (map string_bytes names.now.keys) name.now) }
{
    if has(names, name) {
        return Ok(());
    }
    let near = nearest(alloc, name, names)?;
    found.push(Finding::new(alloc, warning, place, Some(name), near)?)?;
    Ok(())
}

/// Adds those of the bases, where it is given what a record shows.
fn add_unused(
    alloc: Global,
    gate: &Gate,
    evidence: &Option<Evidence>,
    found: &mut Vec<Finding>,
) -> Result<(), NoMemory>
    ensures { OnOk result (found.new.items ≡ found.old.items
        ++ base_warnings gate.now (option_map evidence_shown evidence.now)) }
{
    let Some(evidence) = evidence else {
        return Ok(());
    };
    add_bases(alloc, gate, evidence.unused(), found)
}

/// Adds those of the bases that are unused.
fn add_bases(
    alloc: Global,
    gate: &Gate,
    unused: &[bool],
    found: &mut Vec<Finding>,
) -> Result<(), NoMemory>
    ensures { OnOk result (found.new.items ≡ found.old.items ++ by_place (base_warning gate.now) 0 unused.now) }
{
    for place in 0..unused.len() {
        add_base(alloc, gate, place, unused[place], found)?;
    }
    Ok(())
}

/// Adds that a base is unused, if it is so.
fn add_base(
    alloc: Global,
    gate: &Gate,
    place: usize,
    is_so: bool,
    found: &mut Vec<Finding>,
) -> Result<(), NoMemory>
    ensures { OnOk result (found.new.items ≡ found.old.items ++ base_warning gate.now place is_so) }
{
    if is_so {
        let base = gate.bases().get(place);
        let place = base_place(alloc, place)?;
        found.push(Finding::new(alloc, Warning::UnusedBase, place.as_str(), base, None)?)?;
    }
    Ok(())
}

/// Adds those of footers, where it is given what a record shows.
fn add_ignored(
    alloc: Global,
    evidence: &Option<Evidence>,
    found: &mut Vec<Finding>,
) -> Result<(), NoMemory>
    ensures { OnOk result (found.new.items ≡ found.old.items
        ++ footer_warnings (option_map evidence_shown evidence.now)) }
{
    let Some(evidence) = evidence else {
        return Ok(());
    };
    add_footers(alloc, evidence.ignored(), found)
}

/// Adds that footers with these values are ignored.
fn add_footers(
    alloc: Global,
    values: &BTreeSet<String>,
    found: &mut Vec<Finding>,
) -> Result<(), NoMemory>
    ensures { OnOk result (found.new.items
        ≡ found.old.items ++ map footer_warning (map string_bytes values.now.keys)) }
{
    for value in values {
        add_footer(alloc, value.as_str(), found)?;
    }
    Ok(())
}

/// Adds that a footer with this value is ignored.
fn add_footer(alloc: Global, value: &str, found: &mut Vec<Finding>) -> Result<(), NoMemory>
    ensures { OnOk result (found.new.items ≡ found.old.items ++ footer_warning value.now ∷ []) }
{
    let warning = Warning::IgnoredFooter;
    found.push(Finding::new(alloc, warning, "/bases", Some(value), None)?)?;
    Ok(())
}

/// The place of a base in a gate file, as a JSON pointer.
fn base_place(alloc: Global, place: usize) -> Result<String, NoMemory>
    ensures { IfOk result (λ pointer. string_bytes pointer ≡ base_place place) }
{
    Ok(format!(in alloc; "/bases/{place}")?)
}
