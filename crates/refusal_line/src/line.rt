//! The line of a refusal.

ghost use Rattle.std.specs.Prelude.{◌≡◌, ◌++◌, IfOk, OnOk, codes, string_bytes};
ghost use Rattle.refusal_line.specs.Line.{line_of, named_number};
ghost use Rattle.refusal_line.specs.declared.part.Part.TheVariants.{Memory};

use super::part::Part;
use std::alloc::{AllocError, Global};

/// The line that says which part refused, the number of its fault, and the words of that: its name, and its details
/// after blanks. An LF in the words breaks the line. In O(n) for their length.
pub fn refusal_line(
    alloc: Global,
    part: Part,
    number: u8,
    words: &str,
) -> Result<String, AllocError>
    ensures { IfOk result (λ line. string_bytes line ≡ line_of part number words.now) }
{
    let mut line = String::from_str(alloc, "reviewgate: ")?;
    write_part(&mut line, part.name(), number)?;
    line.push_str(words)?;
    line.push_str("\n")?;
    Ok(line)
}

/// Writes a part's name and a number, with a blank after each.
fn write_part(line: &mut String, name: &str, number: u8) -> Result<(), AllocError>
    ensures { OnOk result (string_bytes line.new ≡ string_bytes line.old ++ named_number name.now number) }
{
    write!(line, "{name} {number} ")
}

/// The line of refused memory, which is a constant.
pub fn memory_line() -> &'static str
    ensures { result.now ≡ line_of Memory 1 (codes "NoMemory") }
{
    "reviewgate: memory 1 NoMemory\n"
}
