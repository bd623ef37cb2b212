//! The line of a refusal of keys.

ghost use Rattle.std.specs.Prelude.{◌≡◌, ◌++◌, IfOk, codes, decimal, string_bytes};
ghost use Rattle.key_file.specs.Files.{number_of};
ghost use Rattle.key_files.specs.Lines.{words_of};
ghost use Rattle.refusal_line.specs.Line.{line_of};
ghost use Rattle.refusal_line.specs.declared.part.Part.TheVariants.{Keys};

use key_file::KeyFault;
use refusal_line::{Part, refusal_line};
use std::alloc::{AllocError, Global};

/// The line `reviewgate: keys NUMBER NAME ABOUT` of a fault of keys, with the name of the file or of who has no key
/// there; a bad line's number comes before that.
pub fn keys_line(alloc: Global, fault: KeyFault, about: &str) -> Result<String, AllocError>
    ensures { IfOk result (λ line. string_bytes line ≡ line_of Keys (number_of fault) (words_of fault about.now)) }
{
    let words = words_of(alloc, fault, about)?;
    refusal_line(alloc, Part::Keys, fault.number(), words.as_str())
}

/// The words of a fault of keys.
fn words_of(alloc: Global, fault: KeyFault, about: &str) -> Result<String, AllocError>
    ensures { IfOk result (λ words. string_bytes words ≡ words_of fault about.now) }
{
    let name = fault.name();
    match fault {
        KeyFault::BadLine(line) => words_with(alloc, name, line, about),
        _ => format!(in alloc; "{name} {about}"),
    }
}

/// A name, a number and what both are about, with blanks between them.
fn words_with(alloc: Global, name: &str, number: u64, about: &str) -> Result<String, AllocError>
    ensures { IfOk result (λ words. string_bytes words ≡ name.now ++ codes " " ++ decimal number ++ codes " " ++ about.now) }
{
    let mut words = format!(in alloc; "{name} {number} ")?;
    words.push_str(about)?;
    Ok(words)
}
