//! Makes a gate of the text of a gate file.

ghost use Rattle.std.specs.Prelude.{◌≡◌, ◌↔◌, ◌⊎◌, ℕ, List, Some, IfOk, IfErr, IsSome, IsNone, IsTrue, IsUtf8, MatchOption};
ghost use Rattle.std.specs.Prelude.{None, codes, map, option_map, string_bytes};
ghost use Rattle.std.specs.Char.{to_ascii_lowercase};
ghost use Rattle.serde_json.specs.Data.{Members, no_members};
ghost use Rattle.serde_json.specs.Errors.{IsMemory};
ghost use Rattle.serde_json.specs.Find.{get_member};
ghost use Rattle.serde_json.specs.Read.{read};
ghost use Rattle.serde_json.specs.View.{view, members_view};
ghost use Rattle.gate_rules.specs.Reading.{HasBases, listed, texts_of, votes_of, labels_of, pattern_of, patterns_of};
ghost use Rattle.gate_rules.specs.Reading.{conditions_of, listed_or_none, side_of, gate_of};
ghost use Rattle.gate_rules.specs.BadItems.{IsBadItem};
ghost use Rattle.gate_rules.specs.Spelling.{IsBadBase, IsObject, SpellsGate, IsRefusalOf, IsUnread, NamesFault, NamesItem};
ghost use Rattle.gate_rules.specs.declared.bad_base.BadBase.{BadBase as Bad};
ghost use Rattle.gate_rules.specs.declared.walk.Flaw.TheVariants as flaws;

use super::bad_base::bad_base;
use super::fault::GateFault;
use super::gate::{Clauses, Gate, LabelValues, Pattern};
use super::place::{blanks, offset_of, place_at};
use super::value::{are_texts, flag_at, found, listed, object_at, text_at, vote_in};
use super::walk::{Flaw, connection_of, gate_fault};
use footer_text::{Bases, BasesFault};
use lattice_core::NoMemory;
use serde_json::{Error, Map, Value};
use std::alloc::Global;
use std::str;

/// The gate that a text spells, or its first fault.
pub fn read_gate(alloc: Global, bytes: &[u8]) -> Result<Gate, GateFault>
    ensures spelled { IfOk result (SpellsGate bytes.now) }
    ensures refused { IfErr result (IsRefusalOf bytes.now) }
    ensures item { IfErr result (λ fault. (bad : Bad) → IsBadBase bytes.now bad → NamesItem fault bad) }
{
    let members = object_of(alloc, bytes)?;
    let bases = bases_of(alloc, &members)?;
    if let Some((flaw, key)) = gate_fault(&members, bases.is_some()) {
        return Err(blamed(alloc, &members, flaw, key));
    }
    match bases {
        Some(bases) => Ok(gate_of(alloc, &members, bases)?),
        None => Err(blamed(alloc, &members, Flaw::Bad, "bases")),
    }
}

/// The members of the JSON object that the bytes are.
fn object_of(alloc: Global, bytes: &[u8]) -> Result<Map<String, Value>, GateFault>
    ensures ok { IfOk result (λ members. IsObject bytes.now (members_view members.entries)) }
    ensures err { IfErr result (IsRefusalOf bytes.now) }
    ensures unread { IfErr result IsUnread }
{
    let value = value_of(alloc, bytes)?;
    match value {
        Value::Object(members) => Ok(members),
        _other => Err(no_object(bytes)),
    }
}

/// The refusal of JSON that is no object.
fn no_object(bytes: &[u8]) -> GateFault
    requires utf8 { IsUtf8 bytes.now }
    requires none { (members : Members) → ¬ IsObject bytes.now members }
    ensures refusal { IsRefusalOf bytes.now result }
    ensures unread { IsUnread result }
{
    GateFault::NotJson(place_at(bytes, blanks(bytes)))
}

/// The JSON value that the bytes are.
fn value_of(alloc: Global, bytes: &[u8]) -> Result<Value, GateFault>
    ensures ok { IfOk result (λ value. IsUtf8 bytes.now × (read bytes.now ≡ Some (view value))) }
    ensures err { IfErr result (IsRefusalOf bytes.now) }
    ensures unread { IfErr result IsUnread }
{
    let text = match str::from_utf8(bytes) {
        Ok(text) => text,
        Err(error) => return Err(GateFault::NotJson(place_at(bytes, error.valid_up_to()))),
    };
    match Value::from_str(alloc, text) {
        Ok(value) => Ok(value),
        Err(error) => Err(not_json(bytes, &error)),
    }
}

/// The refusal of a text that is no JSON, or at which memory was refused.
fn not_json(bytes: &[u8], error: &Error) -> GateFault
    requires utf8 { IsUtf8 bytes.now }
    requires none { ¬ IsMemory error.now → read bytes.now ≡ None }
    ensures refusal { IsRefusalOf bytes.now result }
    ensures unread { IsUnread result }
{
    if error.is_memory() {
        return GateFault::NoMemory;
    }
    GateFault::NotJson(place_at(bytes, offset_of(bytes, error)))
}

/// The refusal that names a key and, if the key is `bases`, the item that is refused.
fn blamed(alloc: Global, members: &Map<String, Value>, flaw: Flaw, key: &str) -> GateFault
    ensures key { NamesFault result (flaw, key.now) }
    ensures bad { (bad : Bad) → result ≡ GateFault.BadBases bad → IsBadItem (members_view members.now.entries) bad }
    ensures item { (bad : Bad) → flaw ≡ flaws.Bad → key.now ≡ codes "bases"
        → IsBadItem (members_view members.now.entries) bad → NamesItem result bad }
{
    if !is_of_bases(flaw, key) {
        return named(alloc, flaw, key);
    }
    match bad_base(members) {
        Some(bad) => GateFault::BadBases(bad),
        None => named(alloc, flaw, key),
    }
}

/// Whether a fault is a bad value of the bases.
fn is_of_bases(flaw: Flaw, key: &str) -> bool
    ensures { IsTrue result ↔ ((flaw ≡ flaws.Bad) × (key.now ≡ codes "bases")) }
{
    flaw == Flaw::Bad && key == "bases"
}

/// The refusal that names a key.
fn named(alloc: Global, flaw: Flaw, key: &str) -> GateFault
    ensures key { NamesFault result (flaw, key.now) }
    ensures bare { (bad : Bad) → ¬ (result ≡ GateFault.BadBases bad) }
{
    let Ok(key) = String::from_str(alloc, key) else {
        return GateFault::NoMemory;
    };
    match flaw {
        Flaw::Unknown => GateFault::UnknownKey(key),
        Flaw::Bad => GateFault::BadValue(key),
        Flaw::Unsupported => GateFault::Unsupported(key),
    }
}

/// The bases of a gate, where they are good.
fn bases_of(alloc: Global, members: &Map<String, Value>) -> Result<Option<Bases>, NoMemory>
    ensures { IfOk result (λ found. MatchOption found
        ((bases : List (List ℕ)) → ¬ HasBases (members_view members.now.entries) bases)
        (HasBases (members_view members.now.entries))) }
{
    let Some(value) = found(members, "bases") else {
        return Ok(None);
    };
    let Some(items) = value.as_array() else {
        return Ok(None);
    };
    if !are_texts(items.as_slice()) {
        return Ok(None);
    }
    let texts = lent_texts(alloc, items.as_slice())?;
    match Bases::new(alloc, texts.as_slice()) {
        Ok(bases) => Ok(Some(bases)),
        Err(BasesFault::BadBase(_)) => Ok(None),
        Err(BasesFault::NoMemory) => Err(NoMemory),
    }
}

/// The texts among values, borrowed.
fn lent_texts<'a>(alloc: Global, values: &'a [Value]) -> Result<Vec<&'a str>, NoMemory>
    ensures { IfOk result
        (λ texts. map (λ text. text.now) texts.items ≡ texts_of (map view values.now)) }
{
    let mut texts = Vec::new(alloc);
    for value in values {
        let Some(text) = value.as_str() else {
            continue;
        };
        texts.push(text)?;
    }
    Ok(texts)
}

/// The texts among values.
fn texts_of(alloc: Global, values: &[Value]) -> Result<Vec<String>, NoMemory>
    ensures { IfOk result
        (λ texts. map string_bytes texts.items ≡ texts_of (map view values.now)) }
{
    let mut texts = Vec::new(alloc);
    for value in values {
        let Some(text) = value.as_str() else {
            continue;
        };
        texts.push(String::from_str(alloc, text)?)?;
    }
    Ok(texts)
}

/// The numbers among values.
fn votes_of(alloc: Global, values: &[Value]) -> Result<Vec<i8>, NoMemory>
    ensures { IfOk result (λ votes. votes.items ≡ votes_of (map view values.now)) }
{
    let mut votes = Vec::new(alloc);
    for value in values {
        let Some(vote) = vote_in(value) else {
            continue;
        };
        votes.push(vote)?;
    }
    Ok(votes)
}

/// The label of a key, in lower case, with the values under it.
fn label_of(alloc: Global, key: &str, value: &Value) -> Result<LabelValues, NoMemory>
    ensures { IfOk result
        (λ rule. rule
        ≡ record { label = map to_ascii_lowercase key.now; values = votes_of (listed (view value.now)) }) }
{
    let mut label = String::from_str(alloc, key)?;
    label.make_ascii_lowercase();
    let values = votes_of(alloc, listed(value))?;
    Ok(LabelValues::new(label, values))
}

/// The labels of an approval.
fn labels_of(alloc: Global, members: &Map<String, Value>) -> Result<Vec<LabelValues>, NoMemory>
    ensures { IfOk result (λ labels. labels.items ≡ labels_of (members_view members.now.entries)) }
{
    let mut labels = Vec::new(alloc);
    for (key, value) in members.iter() {
        if key.as_str() == "username" {
            continue;
        }
        labels.push(label_of(alloc, key.as_str(), value)?)?;
    }
    Ok(labels)
}

/// The pattern of an approval.
fn pattern_of(alloc: Global, members: &Map<String, Value>) -> Result<Pattern, NoMemory>
    ensures { IfOk result (λ pattern. pattern ≡ pattern_of (members_view members.now.entries)) }
{
    let username = match text_at(members, "username") {
        Some(text) => Some(String::from_str(alloc, text)?),
        None => None,
    };
    let labels = labels_of(alloc, members)?;
    Ok(Pattern::new(username, labels))
}

/// The patterns among values.
fn patterns_of(alloc: Global, values: &[Value]) -> Result<Vec<Pattern>, NoMemory>
    ensures { IfOk result (λ patterns. patterns.items ≡ patterns_of (map view values.now)) }
{
    let mut patterns = Vec::new(alloc);
    for value in values {
        let Some(members) = value.as_object() else {
            continue;
        };
        patterns.push(pattern_of(alloc, members)?)?;
    }
    Ok(patterns)
}

/// The texts of the condition `status`, where it is there.
fn status_of(alloc: Global, members: &Map<String, Value>) -> Result<Option<Vec<String>>, NoMemory>
    ensures { IfOk result
        (λ status. option_map (λ texts. map string_bytes texts.items) status
        ≡ (conditions_of (members_view members.now.entries)).status) }
{
    match found(members, "status") {
        Some(value) => Ok(Some(texts_of(alloc, listed(value))?)),
        None => Ok(None),
    }
}

/// The patterns of the condition `approval`.
fn approvals_of(alloc: Global, members: &Map<String, Value>) -> Result<Vec<Pattern>, NoMemory>
    ensures { IfOk result
        (λ patterns. patterns.items ≡ (conditions_of (members_view members.now.entries)).approvals) }
{
    match found(members, "approval") {
        Some(value) => patterns_of(alloc, listed(value)),
        None => Ok(Vec::new(alloc)),
    }
}

/// The conditions that a side lists.
fn conditions_of(alloc: Global, members: &Map<String, Value>) -> Result<Clauses, NoMemory>
    ensures { IfOk result (λ clauses. clauses ≡ conditions_of (members_view members.now.entries)) }
{
    let status = status_of(alloc, members)?;
    let approvals = approvals_of(alloc, members)?;
    let is_open = flag_at(members, "open");
    let is_current = flag_at(members, "current-patchset");
    Ok(Clauses::new(is_open, is_current, status, approvals))
}

/// The conditions of a side of the gate.
fn side_of(alloc: Global, members: &Map<String, Value>, key: &str) -> Result<Clauses, NoMemory>
    ensures { IfOk result
        (λ clauses. clauses ≡ side_of key.now (members_view members.now.entries)) }
{
    let Some(side) = object_at(members, key) else {
        return Ok(Clauses::new(None, None, None, Vec::new(alloc)));
    };
    let Some(conditions) = object_at(side, connection_of(members)) else {
        return Ok(Clauses::new(None, None, None, Vec::new(alloc)));
    };
    conditions_of(alloc, conditions)
}

/// The gate that members set, with its bases.
fn gate_of(alloc: Global, members: &Map<String, Value>, bases: Bases) -> Result<Gate, NoMemory>
    ensures { IfOk result (λ gate. gate ≡ gate_of (members_view members.now.entries) bases) }
{
    let connection = String::from_str(alloc, connection_of(members))?;
    let cycles = flag_at(members, "allow-circular-dependencies").unwrap_or(false);
    let require = side_of(alloc, members, "require")?;
    let reject = side_of(alloc, members, "reject")?;
    Ok(Gate::new(bases, connection, cycles, require, reject))
}
