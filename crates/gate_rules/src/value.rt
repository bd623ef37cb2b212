//! What values of a gate file are.

ghost use Rattle.std.specs.Prelude.{◌≡◌, map, option_map};
ghost use Rattle.serde_json.specs.Find.{get_member};
ghost use Rattle.serde_json.specs.View.{view, members_view};
ghost use Rattle.gate_rules.specs.Reading.{listed, each, is_text, is_flag, is_vote, vote_in, text_under, flag_under};
ghost use Rattle.gate_rules.specs.Reading.{object_under};

use serde_json::{Map, Value};
use std::slice;

/// The values of a list, or the one value that is no list.
pub fn listed(value: &Value) -> &[Value]
    ensures { map view result.now ≡ listed (view value.now) }
{
    match value.as_array() {
        Some(items) => items.as_slice(),
        None => slice::from_ref(value),
    }
}

/// The whole number from -128 to 127 that a value is.
pub fn vote_in(value: &Value) -> Option<i8>
    ensures { result ≡ vote_in (view value.now) }
{
    let number = value.as_i64()?;
    if number < -128 || 127 < number {
        return None;
    }
    Some(number as i8)
}

/// Whether each value is a text.
pub fn are_texts(values: &[Value]) -> bool
    ensures { result ≡ each is_text (map view values.now) }
{
    for value in values {
        if !value.is_string() {
            return false;
        }
    }
    true
}

/// Whether each value is a whole number from -128 to 127.
pub fn are_votes(values: &[Value]) -> bool
    ensures { result ≡ each is_vote (map view values.now) }
{
    for value in values {
        if vote_in(value).is_none() {
            return false;
        }
    }
    true
}

/// The value under a key.
pub fn found<'a>(members: &'a Map<String, Value>, key: &str) -> Option<&'a Value>
    ensures { option_map (λ value. view value.now) result
        ≡ get_member key.now (members_view members.now.entries) }
{
    members.get(key)
}

/// The text under a key, where one is.
pub fn text_at<'a>(members: &'a Map<String, Value>, key: &str) -> Option<&'a str>
    ensures { option_map (λ text. text.now) result
        ≡ text_under key.now (members_view members.now.entries) }
{
    found(members, key)?.as_str()
}

/// The flag under a key, where one is.
pub fn flag_at(members: &Map<String, Value>, key: &str) -> Option<bool>
    ensures { result ≡ flag_under key.now (members_view members.now.entries) }
{
    found(members, key)?.as_bool()
}

/// The object under a key, where one is.
pub fn object_at<'a>(members: &'a Map<String, Value>, key: &str) -> Option<&'a Map<String, Value>>
    ensures { option_map (λ object. members_view object.now.entries) result
        ≡ object_under key.now (members_view members.now.entries) }
{
    found(members, key)?.as_object()
}
