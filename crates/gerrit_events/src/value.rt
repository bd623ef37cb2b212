//! What values of Gerrit's JSON say.

ghost use Rattle.std.specs.Prelude.{◌≡◌, [], ℤ, FitsSigned, IfOk, map, option_and_then, option_map};
ghost use Rattle.std.specs.Prelude.{string_bytes};
ghost use Rattle.std.specs.Int.{w64};
ghost use Rattle.gerrit_events.specs.Trees.{data_in};
ghost use Rattle.gerrit_events.specs.Values.{under, text_in, listed_values, alone_or_items, whole_in, whole_within};
ghost use Rattle.gerrit_events.specs.Values.{within};
ghost use Rattle.gerrit_events.specs.Values.{number_value, vote_value, user_in};

use super::tree::{items, member, text, whole};
use json::Value;
use std::alloc::{AllocError, Global};
use std::slice;

/// What has this key, where it is an object that has it.
pub fn under<'v, 'a>(key: &str, found: Option<&'v Value<'a>>) -> Option<&'v Value<'a>>
    ensures { option_map (λ value. data_in value.now) result
        ≡ under key.now (option_map (λ value. data_in value.now) found.entry) }
{
    member(found?, key)
}

/// The text that a value is.
pub fn text_in<'a>(found: Option<&Value<'a>>) -> Option<&'a str>
    ensures { option_map (λ text. text.now) result
        ≡ text_in (option_map (λ value. data_in value.now) found.entry) }
{
    text(found?)
}

/// The items of a list; another value is a list of itself, and nothing has no items.
pub fn listed<'v, 'a>(found: Option<&'v Value<'a>>) -> &'v [Value<'a>]
    ensures { map data_in result.now ≡ listed_values (option_map (λ value. data_in value.now) found.entry) }
{
    let Some(value) = found else {
        return no_items();
    };
    alone_or_items(value)
}

/// No item.
fn no_items<'v, 'a>() -> &'v [Value<'a>]
    ensures { result.now ≡ [] }
{
    &[]
}

/// The items of a list, or the value alone where it is no list.
fn alone_or_items<'v, 'a>(value: &'v Value<'a>) -> &'v [Value<'a>]
    ensures { map data_in result.now ≡ alone_or_items (data_in value.now) }
{
    let Some(items) = items(value) else {
        return slice::from_ref(value);
    };
    items
}

/// The whole number within these bounds that a value says, as a number or as its text.
fn whole_within(low: i64, high: i64, found: Option<&Value<'_>>) -> Option<i64>
    ensures { result ≡ whole_within low high (option_map (λ value. data_in value.now) found.entry) }
{
    let whole = whole_in(found?)?;
    if low <= whole && whole <= high {
        Some(whole)
    } else {
        None
    }
}

/// The whole number that a value says, where it fits.
fn whole_in(value: &Value<'_>) -> Option<i64>
    ensures { (low high : ℤ) → FitsSigned w64 low → FitsSigned w64 high
        → option_and_then (within low high) result ≡ option_and_then (within low high) (whole_in (data_in value.now)) }
{
    match text(value) {
        Some(text) => text.parse::<i64>().ok(),
        None => whole(value),
    }
}

/// The number of a change or of a patch set.
pub fn number_in(found: Option<&Value<'_>>) -> Option<u32>
    ensures { result ≡ number_value (option_map (λ value. data_in value.now) found.entry) }
{
    let whole = whole_within(1, 4294967295, found)?;
    Some(whole as u32)
}

/// The value of a vote.
pub fn value_in(found: Option<&Value<'_>>) -> Option<i8>
    ensures { result ≡ vote_value (option_map (λ value. data_in value.now) found.entry) }
{
    let whole = whole_within(-128, 127, found)?;
    Some(whole as i8)
}

/// The voter that an account is: its username, or else its email in angle brackets.
pub fn user_in(alloc: Global, account: Option<&Value<'_>>) -> Result<Option<String>, AllocError>
    ensures { IfOk result (λ user. option_map string_bytes user
        ≡ user_in (option_map (λ value. data_in value.now) account.entry)) }
{
    if let Some(name) = text_in(under("username", account)) {
        let user = String::from_str(alloc, name)?;
        return Ok(Some(user));
    }
    let Some(email) = text_in(under("email", account)) else {
        return Ok(None);
    };
    let user = format!(in alloc; "<{email}>")?;
    Ok(Some(user))
}
