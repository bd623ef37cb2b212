//! Reads and writes the text of a front.

ghost use Rattle.std.specs.Prelude.{◌≡◌, List, IfOk, IfErr, IfSome, IfNone, MatchResult, string_bytes};
ghost use Rattle.serde_json.specs.View.{view, items_view};
ghost use Rattle.replica_core.specs.Front.{Reaches};
ghost use Rattle.op_text.specs.Front.{Entry, IsEntry, IsList, SpellsEntries, SayFront, SpellsFront, IsFrontRefusal};
ghost use Rattle.op_text.specs.Front.{entry_data, front_text};

use super::fault::OpTextFault;
use super::shape::{bad_shape, unread};
use lattice_core::NoMemory;
use replica_core::{Front, Reach, Row};
use serde_json::Value;
use std::alloc::Global;

/// Reads the text of a front. Entries may come in any order, and more than once: of those with the same site and start
/// the greatest number counts, and 0 is as none. What the text spells is read, unless memory runs out. Refusals: 1
/// `NotJson`, the bytes aren't UTF-8 or aren't the text of one JSON list; 2 `BadShape` with the key `front`, an item
/// isn't a list of three numbers in their ranges; 4 `NoMemory`. It costs O(n + e log r) for n bytes, e entries and r
/// rows.
pub fn read_front(alloc: Global, bytes: &[u8]) -> Result<Front, OpTextFault>
    ensures spelled { IfOk result (λ front. SpellsFront bytes.now front) }
    ensures refused { IfErr result (IsFrontRefusal bytes.now) }

    // What is spelled is read.
    ensures only { (front : Reaches) → SpellsFront bytes.now front
        → MatchResult result (λ read. read ≡ front) (λ fault. fault ≡ OpTextFault.NoMemory) }
{
    let entries = read_entries(alloc, bytes)?;
    front_of(alloc, entries)
}

/// The text of a front: a list of its rows in their order, which `read_front` reads back as the front. It costs O(n)
/// for n bytes of it.
pub fn write_front(alloc: Global, front: &Front) -> Result<String, NoMemory>
    ensures text { IfOk result (λ text. string_bytes text ≡ front_text front.now) }
    ensures spells { IfOk result (λ text. SpellsFront (string_bytes text) front.now) }
{
    let mut items = Vec::new(alloc);
    for (row, reach) in front.rows() {
        items.push(entry_value(alloc, row, reach)?)?;
    }
    let value = Value::from(items);
    let text = value.to_string(alloc)?;
    let _checked = text.as_str();
    Ok(text)
}

/// The value of a row and how far it is reached.
fn entry_value(alloc: Global, row: &Row, reach: &Reach) -> Result<Value, NoMemory>
    ensures data { IfOk result (λ value. view value ≡ entry_data (row.now.site, row.now.start, reach.now)) }
    ensures spells { IfOk result (λ value. IsEntry (view value) (row.now.site, row.now.start, reach.now)) }
{
    let mut items = Vec::with_capacity(alloc, 3)?;
    items.push(Value::from(row.site))?;
    items.push(Value::from(row.start))?;
    items.push(Value::from(reach.seq()))?;
    Ok(Value::Array(items))
}

/// The front that the entries say.
fn front_of(alloc: Global, entries: Vec<(u16, u32, u64)>) -> Result<Front, OpTextFault>
    ensures says { IfOk result (SayFront entries.items) }
    ensures err { IfErr result (λ fault. fault ≡ OpTextFault.NoMemory) }
{
    let mut front = Front::new(alloc);
    for (site, start, count) in entries {
        front.raise(Row { site, start }, count)?;
    }
    Ok(front)
}

/// Reads the entries of a front's text as they are: the site, the start of the site, and a number.
fn read_entries(alloc: Global, bytes: &[u8]) -> Result<Vec<(u16, u32, u64)>, OpTextFault>
    ensures spelled { IfOk result (λ entries. SpellsEntries bytes.now entries.items) }
    ensures refused { IfErr result (IsFrontRefusal bytes.now) }
{
    let values = list_of(alloc, bytes)?;
    let mut entries = Vec::with_capacity(alloc, values.len())?;
    for value in &values {
        let Some(entry) = entry_of(value) else {
            return Err(bad_shape(alloc, "front"));
        };
        entries.push(entry)?;
    }
    Ok(entries)
}

/// The items of the JSON list that the bytes are.
fn list_of(alloc: Global, bytes: &[u8]) -> Result<Vec<Value>, OpTextFault>
    ensures ok { IfOk result (λ values. IsList bytes.now (items_view values.items)) }
    ensures err { IfErr result (IsFrontRefusal bytes.now) }
{
    let value = match Value::from_slice(alloc, bytes) {
        Ok(value) => value,
        Err(error) => return Err(unread(&error)),
    };
    match value {
        Value::Array(values) => Ok(values),
        _other => Err(OpTextFault::NotJson),
    }
}

/// The entry that a value is.
fn entry_of(value: &Value) -> Option<(u16, u32, u64)>
    ensures some { IfSome result (IsEntry (view value.now)) }
    ensures none { IfNone result ((entry : Entry) → ¬ IsEntry (view value.now) entry) }
{
    let values = value.as_array()?.as_slice();
    if values.len() != 3 {
        return None;
    }
    let site = u16::try_from(values[0].as_u64()?).ok()?;
    let start = u32::try_from(values[1].as_u64()?).ok()?;
    let count = values[2].as_u64()?;
    Some((site, start, count))
}
