//! Lists of texts and of numbers in a JSON object, as they are written.

ghost use Rattle.std.specs.Prelude.{◌≡◌, ◌∷◌, [], OnOk, flat_map, map, string_bytes};
ghost use Rattle.json_line.specs.Tokens.{AddsTokens, number_item, numbers_listed, text_item, texts_listed};

use super::members::{close_list, open_list};
use json::Writer;
use lattice_core::NoMemory;
use std::alloc::Global;

/// Adds a list of texts under a key.
pub fn put_texts(out: &mut Writer<Global>, name: &str, texts: &[String]) -> Result<(), NoMemory>
    ensures { OnOk result (AddsTokens out.old out.new (texts_listed name.now (map string_bytes texts.now))) }
{
    open_list(out, name)?;
    add_texts(out, texts)?;
    close_list(out)?;
    Ok(())
}

/// Adds the items of a list of texts.
fn add_texts(out: &mut Writer<Global>, texts: &[String]) -> Result<(), NoMemory>
    ensures { OnOk result (AddsTokens out.old out.new (flat_map (λ text. text_item (string_bytes text)) texts.now)) }
{
    for text in texts {
        add_text(out, text.as_str())?;
    }
    Ok(())
}

/// Adds an item of a list of texts.
fn add_text(out: &mut Writer<Global>, text: &str) -> Result<(), NoMemory>
    ensures { OnOk result (AddsTokens out.old out.new (text_item text.now)) }
{
    out.string(text)?;
    Ok(())
}

/// Adds a list of lent texts under a key.
pub fn put_words(out: &mut Writer<Global>, name: &str, words: &[&str]) -> Result<(), NoMemory>
    ensures { OnOk result (AddsTokens out.old out.new (texts_listed name.now (map (λ word. word.now) words.now))) }
{
    open_list(out, name)?;
    add_words(out, words)?;
    close_list(out)?;
    Ok(())
}

/// Adds the items of a list of lent texts.
fn add_words(out: &mut Writer<Global>, words: &[&str]) -> Result<(), NoMemory>
    ensures { OnOk result (AddsTokens out.old out.new (flat_map (λ word. text_item word.now) words.now)) }
{
    for word in words {
        add_text(out, word)?;
    }
    Ok(())
}

/// Adds a list of numbers under a key.
pub fn put_numbers(out: &mut Writer<Global>, name: &str, values: &[u32]) -> Result<(), NoMemory>
    ensures { OnOk result (AddsTokens out.old out.new (numbers_listed name.now values.now)) }
{
    open_list(out, name)?;
    add_numbers(out, values)?;
    close_list(out)?;
    Ok(())
}

/// Adds the items of a list of numbers.
fn add_numbers(out: &mut Writer<Global>, values: &[u32]) -> Result<(), NoMemory>
    ensures { OnOk result (AddsTokens out.old out.new (flat_map number_item values.now)) }
{
    for value in values {
        add_number(out, u64::from(*value))?;
    }
    Ok(())
}

/// Adds an item of a list of numbers.
fn add_number(out: &mut Writer<Global>, value: u64) -> Result<(), NoMemory>
    ensures { OnOk result (AddsTokens out.old out.new (number_item value)) }
{
    out.u64(value)?;
    Ok(())
}
