//! The values of a query.

ghost use Rattle.std.specs.Prelude.{◌≡◌, IfOk, string_bytes};
ghost use Rattle.std.specs.Cow.{cow_str_bytes};
ghost use Rattle.std.specs.Option.{option_copied};
ghost use Rattle.std.specs.Str.{bytes_eq};
ghost use Rattle.form_urlencoded.specs.Form.{raw_pairs};
ghost use Rattle.page_routes.specs.Form.{query_given, form_text, form_value};

use super::number::is_text;
use form_urlencoded::{decode, raw_pairs};
use std::alloc::{AllocError, Global};
use std::borrow::CowStr;

/// The value of a name in a query; an empty text where there is none. Of a name that is there more than once the first
/// value counts. It costs O(n) for n bytes.
pub(crate) fn given(alloc: Global, name: &str, query: Option<&str>) -> Result<String, AllocError>
    ensures { IfOk result (λ value. string_bytes value ≡ query_given name.now (option_copied query.entry)) }
{
    match query {
        None => Ok(String::new(alloc)),
        Some(query) => value_in(alloc, name, query.as_bytes()),
    }
}

/// The value of a name in the text of a query.
fn value_in(alloc: Global, name: &str, query: &[u8]) -> Result<String, AllocError>
    ensures { IfOk result (λ value. string_bytes value ≡ form_value name.now (raw_pairs query.now)) }
{
    for (key, value) in raw_pairs(query) {
        if is_name(alloc, key, name)? {
            return text_of(alloc, value);
        }
    }
    Ok(String::new(alloc))
}

/// Whether an encoded name decodes to a name.
fn is_name(alloc: Global, key: &[u8], name: &str) -> Result<bool, AllocError>
    ensures { IfOk result (λ same. same ≡ bytes_eq (form_text key.now) name.now) }
{
    let key = text_of(alloc, key)?;
    Ok(key.as_str() == name)
}

/// The decoded text of a name or a value.
fn text_of(alloc: Global, bytes: &[u8]) -> Result<String, AllocError>
    ensures { IfOk result (λ text. string_bytes text ≡ form_text bytes.now) }
{
    match decode(alloc, bytes)? {
        CowStr::Borrowed(text) => String::from_str(alloc, text),
        CowStr::Owned(text) => Ok(text),
    }
}
