//! Trees of JSON, whose texts are those of the line where they have no escapes.

ghost use Rattle.std.specs.Prelude.{◌≡◌, Some, None, IfOk, MatchOption, is_some, option_and_then, option_map};
ghost use Rattle.json.specs.Find.{as_array, as_object};
ghost use Rattle.json.specs.Value.{items_view, members_view, value_view};
ghost use Rattle.serde_json.specs.Find.{as_bool, as_i64, as_number, as_str, get};
ghost use Rattle.serde_json.specs.Read.{read};
ghost use Rattle.gerrit_events.specs.Trees.{data_in, has_values, items_have_values, members_have_values};

use super::number::{has_value, whole_of};
use json::{Error, Reader, Scratch, Value};
use lattice_core::NoMemory;
use std::alloc::Global;

/// How deep lists and objects may nest.
const MAX_DEPTH: usize = 127;

/// The value that a text is, where it is one. `room` is kept from read to read.
pub fn value_of<'a>(
    alloc: Global,
    room: &'a mut Scratch,
    text: &'a str,
) -> Result<Option<Value<'a>>, NoMemory>
    ensures { IfOk result (λ found. MatchOption found (read text.now ≡ None)
        (λ value. read text.now ≡ Some (data_in value))) }
{
    let mut reader = Reader::new(text, room)?;
    let value = match Value::read(alloc, &mut reader, MAX_DEPTH) {
        Ok(value) => value,
        Err(Error::Invalid) => return Ok(None),
        Err(_) => return Err(NoMemory),
    };
    if reader.next().is_some() {
        return Ok(None);
    }
    if has_values(&value) {
        Ok(Some(value))
    } else {
        Ok(None)
    }
}

/// Whether each number has a value.
#[cycle(values)]
fn has_values(value: &Value<'_>) -> bool
    ensures { result ≡ has_values (value_view value.now) }
{
    match value {
        Value::Number(text) => has_value(text),
        Value::Array(items) => items_have_values(items),
        Value::Object(members) => members_have_values(members),
        Value::Null | Value::Bool(_) | Value::String(_) => true,
    }
}

/// Whether each item of a list has a value.
#[cycle(values)]
fn items_have_values(items: &Vec<Value<'_>>) -> bool
    ensures { result ≡ items_have_values (items_view items.now.items) }
{
    for item in items {
        if !has_values(item) {
            return false;
        }
    }
    true
}

/// Whether each member of an object has a value.
#[cycle(values)]
fn members_have_values(members: &Vec<(&str, Value<'_>)>) -> bool
    ensures { result ≡ members_have_values (members_view members.now.items) }
{
    for member in members {
        if !has_values(&member.1) {
            return false;
        }
    }
    true
}

/// The value under a key, where the value is an object that has it.
pub fn member<'v, 'a>(value: &'v Value<'a>, key: &str) -> Option<&'v Value<'a>>
    ensures { option_map (λ found. data_in found.now) result ≡ get key.now (data_in value.now) }
{
    value.get(key)
}

/// The text that a value is.
pub fn text<'a>(value: &Value<'a>) -> Option<&'a str>
    ensures { option_map (λ text. text.now) result ≡ as_str (data_in value.now) }
{
    value.as_str()
}

/// The truth value that a value is.
pub fn truth(value: &Value<'_>) -> Option<bool>
    ensures { result ≡ as_bool (data_in value.now) }
{
    value.as_bool()
}

/// The whole number that a value is, where it fits 64 bits.
pub fn whole(value: &Value<'_>) -> Option<i64>
    ensures { result ≡ option_and_then as_i64 (as_number (data_in value.now)) }
{
    match value.as_number() {
        None => None,
        Some(text) => whole_of(text),
    }
}

/// The items of a list.
pub fn items<'v, 'a>(value: &'v Value<'a>) -> Option<&'v [Value<'a>]>
    ensures { option_map (λ items. items_view items.now) result ≡ as_array (value_view value.now) }
{
    if let Value::Array(items) = value {
        Some(items.as_slice())
    } else {
        None
    }
}

/// Whether a value is an object.
pub fn is_object(value: &Value<'_>) -> bool
    ensures { result ≡ is_some (as_object (value_view value.now)) }
{
    if let Value::Object(_) = value {
        true
    } else {
        false
    }
}
