//! The first fault of a gate file, in the order of its text.

ghost use Rattle.std.specs.Prelude.{◌≡◌, ℕ, List, Option, map, option_map};
ghost use Rattle.serde_json.specs.Data.{Data};
ghost use Rattle.serde_json.specs.View.{view, members_view};
ghost use Rattle.gate_rules.specs.Reading.{connection_of};
ghost use Rattle.gate_rules.specs.Walk.{Fault, first_fault, first_in_list, good_or_bad, object_fault, approval_fault};
ghost use Rattle.gate_rules.specs.Walk.{condition_fault, side_fault, gate_value, gate_key, gate_fault};

use super::keys::{ApprovalKey, ConditionKey, GateKey};
use super::value::{are_texts, are_votes, listed, text_at};
use serde_json::{Map, Value};

/// What is wrong with a member of a JSON object.
#[derive(Clone, Copy, Debug, PartialEq, Eq)]
pub enum Flaw {
    Unknown,
    Bad,
    Unsupported,
}

/// The rules for the members of one kind of JSON object.
pub trait Judge {
    ghost judged: { Self → List ℕ → Data → Option Fault };

    /// The first fault at a member, and the key that it names.
    fn judge<'a>(&self, key: &'a str, value: &'a Value) -> Option<(Flaw, &'a str)>
        ensures { option_map (λ fault. (fault.0, fault.1.now)) result
            ≡ judged self.now key.now (view value.now) };
}

/// The members of an approval.
#[derive(Clone, Copy)]
pub struct Approval;

/// The conditions of a side.
#[derive(Clone, Copy)]
pub struct Conditions;

/// The one member of a side, which the connection names.
#[derive(Clone, Copy)]
pub struct SideOf<'c> {
    pub connection: &'c str,
}

/// The members of a gate.
#[derive(Clone, Copy)]
pub struct GateOf<'c> {
    pub connection: &'c str,
    pub has_bases: bool,
}

/// The first fault of an object's members.
fn first_fault<'a, J: Judge>(judge: &J, members: &'a Map<String, Value>) -> Option<(Flaw, &'a str)>
    ensures { option_map (λ fault. (fault.0, fault.1.now)) result
        ≡ first_fault (J.judged judge.now) (members_view members.now.entries) }
{
    for (key, value) in members.iter() {
        let fault = judge.judge(key.as_str(), value);
        if fault.is_some() {
            return fault;
        }
    }
    None
}

/// The first fault of a value that must be an object.
fn object_fault<'a, J: Judge>(judge: &J, key: &'a str, value: &'a Value) -> Option<(Flaw, &'a str)>
    ensures { option_map (λ fault. (fault.0, fault.1.now)) result
        ≡ object_fault (J.judged judge.now) key.now (view value.now) }
{
    match value.as_object() {
        Some(members) => first_fault(judge, members),
        None => Some((Flaw::Bad, key)),
    }
}

/// The first fault of approvals.
fn approvals_fault<'a>(key: &'a str, values: &'a [Value]) -> Option<(Flaw, &'a str)>
    ensures { option_map (λ fault. (fault.0, fault.1.now)) result
        ≡ first_in_list (object_fault approval_fault key.now) (map view values.now) }
{
    for value in values {
        let fault = object_fault(&Approval, key, value);
        if fault.is_some() {
            return fault;
        }
    }
    None
}

/// The flaw `Bad` with the key, unless the value is good.
fn good_or_bad(good: bool, key: &str) -> Option<(Flaw, &str)>
    ensures { option_map (λ fault. (fault.0, fault.1.now)) result ≡ good_or_bad good key.now }
{
    if good {
        return None;
    }
    Some((Flaw::Bad, key))
}

impl Judge for Approval {
    ghost judged = { λ _. approval_fault };

    fn judge<'a>(&self, key: &'a str, value: &'a Value) -> Option<(Flaw, &'a str)> {
        match ApprovalKey::of(key) {
            ApprovalKey::Username => good_or_bad(value.is_string(), key),
            ApprovalKey::Label => good_or_bad(are_votes(listed(value)), key),
            ApprovalKey::Unsupported => Some((Flaw::Unsupported, key)),
            ApprovalKey::Unknown => Some((Flaw::Unknown, key)),
        }
    }
}

impl Judge for Conditions {
    ghost judged = { λ _. condition_fault };

    fn judge<'a>(&self, key: &'a str, value: &'a Value) -> Option<(Flaw, &'a str)> {
        match ConditionKey::of(key) {
            ConditionKey::Flag => good_or_bad(value.is_boolean(), key),
            ConditionKey::Status => good_or_bad(are_texts(listed(value)), key),
            ConditionKey::Approval => approvals_fault(key, listed(value)),
            ConditionKey::Unsupported => Some((Flaw::Unsupported, key)),
            ConditionKey::Unknown => Some((Flaw::Unknown, key)),
        }
    }
}

impl<'c> Judge for SideOf<'c> {
    ghost judged = { λ side. side_fault side.connection.now };

    fn judge<'a>(&self, key: &'a str, value: &'a Value) -> Option<(Flaw, &'a str)> {
        if key == self.connection {
            return object_fault(&Conditions, key, value);
        }
        Some((Flaw::Unsupported, key))
    }
}

impl<'c> Judge for GateOf<'c> {
    ghost judged = { λ gate key d. gate_value gate.connection.now gate.has_bases (gate_key key) key d };

    fn judge<'a>(&self, key: &'a str, value: &'a Value) -> Option<(Flaw, &'a str)> {
        match GateKey::of(key) {
            GateKey::Cycles => good_or_bad(value.is_boolean(), key),
            GateKey::Bases => good_or_bad(self.has_bases, key),
            GateKey::Connection => good_or_bad(value.is_string(), key),
            GateKey::Side => {
                let side = SideOf {
                    connection: self.connection,
                };
                object_fault(&side, key, value)
            }
            GateKey::Unknown => Some((Flaw::Unknown, key)),
        }
    }
}

/// The connection that a gate names, or `gerrit`.
pub fn connection_of(members: &Map<String, Value>) -> &str
    ensures { result.now ≡ connection_of (members_view members.now.entries) }
{
    text_at(members, "connection").unwrap_or("gerrit")
}

/// The first fault of a gate, where `has_bases` says whether its bases are good.
pub fn gate_fault(members: &Map<String, Value>, has_bases: bool) -> Option<(Flaw, &str)>
    ensures { option_map (λ fault. (fault.0, fault.1.now)) result
        ≡ gate_fault has_bases (members_view members.now.entries) }
{
    let gate = GateOf {
        connection: connection_of(members),
        has_bases,
    };
    let fault = first_fault(&gate, members);
    if fault.is_some() {
        return fault;
    }
    good_or_bad(has_bases, "bases")
}
