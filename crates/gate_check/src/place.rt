//! The places of conditions in a gate file.

ghost use Rattle.std.specs.Prelude.{◌≡◌, ◌++◌, IfOk, OnOk, flat_map, string_bytes};
ghost use Rattle.std.specs.Str.{chars};
ghost use Rattle.gate_check.specs.Asking.{approval_pointer, pointer_escaped, pointer_of};

use gate_rules::{Gate, Side};
use lattice_core::NoMemory;
use std::alloc::Global;

/// The place of a key among the conditions of a side, as a JSON pointer (RFC 6901).
pub fn place_of(alloc: Global, gate: &Gate, side: Side, key: &str) -> Result<String, NoMemory>
    ensures { IfOk result (λ place. string_bytes place ≡ pointer_of gate.now side key.now) }
{
    let connection = escaped(alloc, gate.connection())?;
    let side = side.name();
    Ok(format!(in alloc; "/{side}/{connection}/{key}")?)
}

/// The key of an approval, by its place in the list of approvals.
pub fn approval_key(alloc: Global, place: usize) -> Result<String, NoMemory>
    ensures { IfOk result (λ key. string_bytes key ≡ approval_pointer place) }
{
    Ok(format!(in alloc; "approval/{place}")?)
}

/// The name of a connection in a JSON pointer.
fn escaped(alloc: Global, connection: &str) -> Result<String, NoMemory>
    ensures { IfOk result (λ name. string_bytes name ≡ flat_map pointer_escaped (chars connection.now)) }
{
    let mut name = String::new(alloc);
    for letter in connection.chars() {
        add_letter(&mut name, letter)?;
    }
    Ok(name)
}

/// Adds a character of such a name.
fn add_letter(name: &mut String, letter: char) -> Result<(), NoMemory>
    ensures { OnOk result (string_bytes name.new ≡ string_bytes name.old ++ pointer_escaped letter) }
{
    if letter == '~' {
        name.push_str("~0")?;
    } else if letter == '/' {
        name.push_str("~1")?;
    } else {
        name.push(letter)?;
    }
    Ok(())
}
