//! Whether a JSON object has the members that a text needs.

ghost use Rattle.std.specs.Prelude.{◌≡◌, ◌≢◌, ◌⊎◌, IfOk, IfErr, IfSome, IfNone, IsSome, true, false, option_map};
ghost use Rattle.std.specs.Ordering.{nat_cmp};
ghost use Rattle.std.specs.Cmp.Lexicographic.{slice_cmp};
ghost use Rattle.serde_json.specs.Errors.{IsMemory};
ghost use Rattle.serde_json.specs.Find.{get_member};
ghost use Rattle.serde_json.specs.View.{view, members_view};
ghost use Rattle.op_text.specs.Field.{key_of};
ghost use Rattle.op_text.specs.Shape.{IsOperationObject, IsFieldKey, IsNamedKey, IsFirstBadKey, HasShape, NamesKind, NamesKey};
ghost use Rattle.op_text.specs.Shape.{IsShapeFault, fits, text_at};
ghost use Rattle.op_text.specs.Spelling.{IsRefusalOf};

use super::fault::OpTextFault;
use super::field::{Field, Form, Kind, obeys};
use serde_json::{Error, Map, Value};
use std::alloc::Global;
use std::cmp::Ordering;

/// The members of the JSON object that the bytes are.
pub fn object_of(alloc: Global, bytes: &[u8]) -> Result<Map<String, Value>, OpTextFault>
    ensures ok { IfOk result (λ members. IsOperationObject bytes.now (members_view members.entries)) }
    ensures err { IfErr result (IsRefusalOf Form.Body bytes.now) }
    ensures json { IfErr result (IsRefusalOf Form.Operation bytes.now) }
{
    let value = match Value::from_slice(alloc, bytes) {
        Ok(value) => value,
        Err(error) => return Err(unread(&error)),
    };
    match value {
        Value::Object(members) => Ok(members),
        _other => Err(OpTextFault::NotJson),
    }
}

/// Why a JSON text isn't read.
pub fn unread(error: &Error) -> OpTextFault
    ensures json { (result ≡ OpTextFault.NotJson) ⊎ (result ≡ OpTextFault.NoMemory) }
    ensures refused { result ≡ OpTextFault.NotJson → ¬ IsMemory error.now }
{
    if error.is_memory() {
        OpTextFault::NoMemory
    } else {
        OpTextFault::NotJson
    }
}

/// The value under a key.
pub fn found<'a>(members: &'a Map<String, Value>, key: &str) -> Option<&'a Value>
    ensures { option_map (λ value. view value.now) result
        ≡ get_member key.now (members_view members.now.entries) }
{
    members.get(key)
}

/// The first field, by its key, that isn't as the form and the kind want it.
pub fn first_misfit(members: &Map<String, Value>, form: Form, kind: Kind) -> Option<Field>
    ensures none { IfNone result
        ((field : _) → fits form kind (members_view members.now.entries) field ≡ true) }
    ensures misfit { IfSome result
        (λ field. fits form kind (members_view members.now.entries) field ≡ false) }
    ensures first { IfSome result
        (λ field. (other : _) → slice_cmp nat_cmp (key_of other) (key_of field) ≡ Ordering.Less
        → fits form kind (members_view members.now.entries) other ≡ true) }
{
    for field in Field::ALL {
        if !fits(members, form, kind, field) {
            return Some(field);
        }
    }
    None
}

/// Whether a field is as the form and the kind want it.
fn fits(members: &Map<String, Value>, form: Form, kind: Kind, field: Field) -> bool
    ensures { result ≡ fits form kind (members_view members.now.entries) field }
{
    let rule = field.rule(form, kind);
    obeys(rule, field, found(members, field.key()))
}

/// The first key that is no field's.
pub fn first_stranger(members: &Map<String, Value>) -> Option<&str>
    ensures none { IfNone result
        ((key : _) → IsSome (get_member key (members_view members.now.entries)) → IsFieldKey key) }
    ensures stranger { IfSome result (λ key. ¬ IsFieldKey key.now) }
    ensures present { IfSome result
        (λ key. IsSome (get_member key.now (members_view members.now.entries))) }
    ensures first { IfSome result
        (λ key. (other : _) → slice_cmp nat_cmp other key.now ≡ Ordering.Less
        → IsSome (get_member other (members_view members.now.entries)) → IsFieldKey other) }
{
    for key in members.keys() {
        if Field::named(key.as_str()).is_none() {
            return Some(key.as_str());
        }
    }
    None
}

/// The first key that is missing, not expected or not accepted.
fn first_bad_key(members: &Map<String, Value>, form: Form, kind: Kind) -> Option<&str>
    ensures none { IfNone result (HasShape form kind (members_view members.now.entries)) }
    ensures first { IfSome result
        (λ key. IsFirstBadKey form kind (members_view members.now.entries) key.now) }
{
    let Some(field) = first_misfit(members, form, kind) else {
        return first_stranger(members);
    };
    let key = field.key();
    let Some(stranger) = first_stranger(members) else {
        return Some(key);
    };
    if stranger < key {
        return Some(stranger);
    }
    Some(key)
}

/// The refusal that names a key.
pub fn bad_shape(alloc: Global, key: &str) -> OpTextFault
    ensures { NamesKey result key.now }
{
    match String::from_str(alloc, key) {
        Ok(named) => OpTextFault::BadShape(named),
        Err(_) => OpTextFault::NoMemory,
    }
}

/// The kind that the members name.
fn named_kind(members: &Map<String, Value>) -> Option<Kind>
    ensures none { IfNone result
        ((kind : _) → ¬ NamesKind (members_view members.now.entries) kind) }
    ensures some { IfSome result (NamesKind (members_view members.now.entries)) }
{
    let name = found(members, Field::Op.key()).and_then(Value::as_str)?;
    Kind::named(name)
}

/// The kind of the body that the members spell, or why they spell none.
pub fn shaped(alloc: Global, members: &Map<String, Value>, form: Form) -> Result<Kind, OpTextFault>
    ensures kind { IfOk result (NamesKind (members_view members.now.entries)) }
    ensures shape { IfOk result
        (λ kind. HasShape form kind (members_view members.now.entries)) }
    ensures err { IfErr result (IsShapeFault form (members_view members.now.entries)) }
{
    let Some(kind) = named_kind(members) else {
        return Err(bad_shape(alloc, Field::Op.key()));
    };
    match first_bad_key(members, form, kind) {
        None => Ok(kind),
        Some(key) => Err(bad_shape(alloc, key)),
    }
}
