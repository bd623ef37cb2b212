//! What a gate file has at the place of a condition.

ghost use Rattle.std.specs.Prelude.{◌≡◌, IfOk, None, map, option_map, string_bytes, true};
ghost use Rattle.serde_json.specs.View.{view, members_view};
ghost use Rattle.serde_json.specs.Written.{compact_text};
ghost use Rattle.gate_rules.specs.Spelling.{IsObject, SpellsGate};
ghost use Rattle.gate_rules.specs.Walk.{gate_fault};
ghost use Rattle.gate_rules.specs.Wanted.{IsWantedText, clause_value, conditions_at, element_of_number, wanted_value};

use super::condition::{Clause, Condition, Side};
use super::gate::Gate;
use super::value::{found, listed, object_at};
use super::walk::connection_of;
use lattice_core::NoMemory;
use serde_json::{Map, Value};
use std::alloc::Global;

/// What the gate file that a gate was read from has at the place of a condition, as compact JSON, if it has something.
/// It costs O(n log n) for n bytes of the file.
pub fn wanted_text(
    alloc: Global,
    gate: &Gate,
    file: &[u8],
    condition: Condition,
) -> Result<Option<String>, NoMemory>
    requires { SpellsGate file.now gate.now }
    ensures { IfOk result (λ text. IsWantedText file.now condition (option_map string_bytes text)) }
{
    let _read_from = gate;
    let members = members_of(alloc, file)?;
    json_at(alloc, &members, condition)
}

/// The compact JSON of what a gate file has at the place of a condition.
fn json_at(
    alloc: Global,
    members: &Map<String, Value>,
    condition: Condition,
) -> Result<Option<String>, NoMemory>
    requires { gate_fault true (members_view members.now.entries) ≡ None }
    ensures { IfOk result (λ text. option_map string_bytes text
        ≡ option_map compact_text (wanted_value condition (members_view members.now.entries))) }
{
    let Some(value) = wanted(members, condition) else {
        return Ok(None);
    };
    Ok(Some(value.to_string(alloc)?))
}

/// The members of the object that a gate file is.
fn members_of(alloc: Global, file: &[u8]) -> Result<Map<String, Value>, NoMemory>
    ensures { IfOk result (λ members. IsObject file.now (members_view members.entries)) }
{
    let Ok(value) = Value::from_slice(alloc, file) else {
        return Err(NoMemory);
    };
    match value {
        Value::Object(members) => Ok(members),
        _other => Err(NoMemory),
    }
}

/// What the gate file has at the place of a condition, if it has something.
fn wanted<'a>(members: &'a Map<String, Value>, condition: Condition) -> Option<&'a Value>
    ensures { option_map (λ value. view value.now) result ≡ wanted_value condition (members_view members.now.entries) }
{
    clause_in(conditions_in(members, condition.side)?, condition.clause)
}

/// The conditions of a side.
fn conditions_in(members: &Map<String, Value>, side: Side) -> Option<&Map<String, Value>>
    ensures { option_map (λ object. members_view object.now.entries) result
        ≡ conditions_at side (members_view members.now.entries) }
{
    object_at(object_at(members, side.name())?, connection_of(members))
}

/// What conditions have at the place of a clause.
fn clause_in<'a>(conditions: &'a Map<String, Value>, clause: Clause) -> Option<&'a Value>
    ensures { option_map (λ value. view value.now) result ≡ clause_value clause (members_view conditions.now.entries) }
{
    match clause {
        Clause::Approval(number) => numbered(listed(found(conditions, clause.key())?), number),
        Clause::OpenState => found(conditions, clause.key()),
        Clause::CurrentSet => found(conditions, clause.key()),
        Clause::StatusIn => found(conditions, clause.key()),
    }
}

/// The value of a number in a list, from 1.
fn numbered(values: &[Value], number: usize) -> Option<&Value>
    ensures { option_map (λ value. view value.now) result ≡ element_of_number (map view values.now) number }
{
    if number == 0 || values.len() < number {
        return None;
    }
    Some(&values[number - 1])
}
