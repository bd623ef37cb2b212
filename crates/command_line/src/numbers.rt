//! The values of arguments that are numbers or items.

ghost use Rattle.std.specs.Prelude.{◌≡◌, ◌<◌, ◌≤◌, ◌^◌, IfOk, IfSome, ℕ, List, MatchOption, map, option_map};
ghost use Rattle.std.specs.List.{AllZip};
ghost use Rattle.command_tree.specs.Rows.{rows_in};
ghost use Rattle.command_line.specs.Values.{Finds, GivesAny, GivesAnyItem, GivesItem, GivesItemAt, GivesNumber};
ghost use Rattle.command_line.specs.Values.{GivesNumbers, GivesRows, ItemIsNamed, NamesRow, Writes};

use command_tree::{Number, Values};
use std::alloc::{AllocError, Global};

/// The number of an argument.
pub fn number_in(values: &Values<'_>, number: Number) -> Option<u64>
    ensures found { Finds (GivesNumber (rows_in values.now) number.name.now number.least number.most) result }
    ensures within { IfSome result (λ given. given ≤ number.most) }
{
    number_within(values.text(number.name)?, number.least, number.most)
}

/// The number that a text writes, if it is within a range.
fn number_within(text: &str, least: u64, most: u64) -> Option<u64>
    ensures found { Finds (Writes least most text.now) result }
    ensures within { IfSome result (λ number. number ≤ most) }
{
    let Ok(number) = text.parse::<u64>() else {
        return None;
    };
    if number < least || most < number {
        return None;
    }
    Some(number)
}

/// The number of an argument that has at most 16 bits.
pub fn short_in(values: &Values<'_>, number: Number) -> Option<u16>
    requires { number.most < 2 ^ 16 }
    ensures { Finds (GivesNumber (rows_in values.now) number.name.now number.least number.most) result }
{
    let short = number_in(values, number)?;
    Some(short as u16)
}

/// The number of an argument that has at most 32 bits.
pub fn long_in(values: &Values<'_>, number: Number) -> Option<u32>
    requires { number.most < 2 ^ 32 }
    ensures { Finds (GivesNumber (rows_in values.now) number.name.now number.least number.most) result }
{
    let long = number_in(values, number)?;
    Some(long as u32)
}

/// The number of an option that has at most 16 bits, where it isn't left out.
pub fn any_short_in(values: &Values<'_>, number: Number) -> Option<Option<u16>>
    requires { number.most < 2 ^ 16 }
    ensures { Finds (GivesAny (rows_in values.now) number.name.now number.least number.most) result }
{
    if values.text(number.name).is_none() {
        return Some(None);
    }
    let short = short_in(values, number)?;
    Some(Some(short))
}

/// The number of an option that has at most 32 bits, where it isn't left out.
pub fn any_long_in(values: &Values<'_>, number: Number) -> Option<Option<u32>>
    requires { number.most < 2 ^ 32 }
    ensures { Finds (GivesAny (rows_in values.now) number.name.now number.least number.most) result }
{
    if values.text(number.name).is_none() {
        return Some(None);
    }
    let long = long_in(values, number)?;
    Some(Some(long))
}

/// The number of an option, where it isn't left out.
pub fn any_in(values: &Values<'_>, number: Number) -> Option<Option<u64>>
    ensures { Finds (GivesAny (rows_in values.now) number.name.now number.least number.most) result }
{
    if values.text(number.name).is_none() {
        return Some(None);
    }
    let given = number_in(values, number)?;
    Some(Some(given))
}

/// The numbers of an argument that has as many as there are, each of at most 16 bits; none where a word is no such
/// number.
pub fn shorts_in(
    alloc: Global,
    values: &Values<'_>,
    number: Number,
) -> Result<Option<Vec<u16>>, AllocError>
    requires { number.most < 2 ^ 16 }
    ensures { IfOk result (λ read. Finds
        (GivesNumbers (rows_in values.now) number.name.now number.least number.most)
        (option_map (λ shorts. shorts.items) read)) }
{
    match values.texts(number.name) {
        None => Ok(Some(Vec::new(alloc))),
        Some(texts) => shorts_of(alloc, texts, number),
    }
}

/// The numbers that texts write; none where one of them writes none.
fn shorts_of(alloc: Global, texts: &[&str], number: Number) -> Result<Option<Vec<u16>>, AllocError>
    requires { number.most < 2 ^ 16 }
    ensures { IfOk result (λ read. Finds
        (AllZip (Writes number.least number.most) (map (λ text. text.now) texts.now))
        (option_map (λ shorts. shorts.items) read)) }
{
    let mut shorts = Vec::new(alloc);
    for text in texts {
        let Some(short) = number_within(text, number.least, number.most) else {
            return Ok(None);
        };
        shorts.push(short as u16)?;
    }
    Ok(Some(shorts))
}

/// The sites with their starts that an option names, which may be there more than once; none where a word names none.
pub fn rows_of_sites(
    alloc: Global,
    values: &Values<'_>,
    option: &str,
) -> Result<Option<Vec<(u16, u32)>>, AllocError>
    ensures { IfOk result
        (λ read. Finds (GivesRows (rows_in values.now) option.now) (option_map (λ rows. rows.items) read)) }
{
    match values.texts(option) {
        None => Ok(Some(Vec::new(alloc))),
        Some(texts) => rows_of(alloc, texts),
    }
}

/// The sites with their starts that texts name; none where one of them names none.
fn rows_of(alloc: Global, texts: &[&str]) -> Result<Option<Vec<(u16, u32)>>, AllocError>
    ensures { IfOk result
        (λ read. Finds (AllZip NamesRow (map (λ text. text.now) texts.now)) (option_map (λ rows. rows.items) read)) }
{
    let mut rows = Vec::new(alloc);
    for text in texts {
        let Some(row) = row_of(text) else {
            return Ok(None);
        };
        rows.push(row)?;
    }
    Ok(Some(rows))
}

/// The site with a start that a text names.
fn row_of(text: &str) -> Option<(u16, u32)>
    ensures { Finds (NamesRow text.now) result }
{
    let (site, start) = text.split_once(',')?;
    let site = number_within(site, 0, 65_535)?;
    let start = long_of(start)?;
    Some((site as u16, start))
}

/// The item that `CHANGE[,SET]` names.
pub fn item_in(values: &Values<'_>) -> Option<(u32, Option<u32>)>
    ensures { Finds (λ item. GivesItem (rows_in values.now) item.0 item.1) result }
{
    item_at(values, "CHANGE[,SET]")
}

/// The item that `--item` names, where it isn't left out.
pub fn any_item_in(values: &Values<'_>) -> Option<Option<(u32, Option<u32>)>>
    ensures { Finds (GivesAnyItem (rows_in values.now)) result }
{
    if values.text("item").is_none() {
        return Some(None);
    }
    let item = item_at(values, "item")?;
    Some(Some(item))
}

/// The item that an argument names.
fn item_at(values: &Values<'_>, argument: &str) -> Option<(u32, Option<u32>)>
    ensures { Finds (λ item. GivesItemAt (rows_in values.now) argument.now item.0 item.1) result }
{
    item_of(values.text(argument)?)
}

/// The item that a text names.
fn item_of(text: &str) -> Option<(u32, Option<u32>)>
    ensures { Finds (λ item. ItemIsNamed text.now item.0 item.1) result }
{
    let Some((change, set)) = text.split_once(',') else {
        let change = long_of(text)?;
        return Some((change, None));
    };
    let change = long_of(change)?;
    let set = long_of(set)?;
    Some((change, Some(set)))
}

/// The number of 32 bits that a text writes.
fn long_of(text: &str) -> Option<u32>
    ensures { Finds (Writes 0 4294967295 text.now) result }
{
    text.parse::<u32>().ok()
}
