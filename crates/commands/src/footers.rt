//! Prints what the footers of a message say under a gate.

ghost use Rattle.std.specs.Prelude.{◌≡◌, ℕ, List, IfOk, flat_map, map};
ghost use Rattle.footer_text.specs.Footers.{AreFooters};
ghost use Rattle.json_line.specs.Tokens.{json_line};
ghost use Rattle.commands.specs.Answers.{footers_as, footers_text, footers_tokens, ignored_line, need_line};
ghost use Rattle.commands.specs.Ending.{Ends};

use command_line::{Command, FootersCommand, OutputFormat};
use console::{Console, Refusal, read_gate, read_message};
use footer_text::{Bases, depends};
use gate_rules::Gate;
use json::Writer;
use json_line::{close_object, line_of, open_object, put_numbers, put_texts, put_words};
use lattice_core::NoMemory;
use std::alloc::Global;

/// Prints what the footers of a message of the change say, 0 where it has no number: `need N` for each other change
/// that they name, `ignored VALUE` for each other value, and `end` with the counts of both; or the same as one JSON
/// object, with the bases of the gate. Refusals: those of the gate file, then of the message; `Memory`, memory was
/// refused once both were read; `Output`. It costs O(bytes of both).
pub fn footers<'n, C: Console>(
    alloc: Global,
    command: &FootersCommand<'n>,
    console: &mut C,
) -> Result<(), Refusal<'n>>
    ensures { Ends (Command.Footers command.now) (C.state console.old) (C.state console.new) result }
{
    let rules = read_gate(alloc, command.gate, console)?;
    let message = read_message(alloc, command.message, console)?;
    let Ok(text) = text_under(alloc, &rules, message.as_str(), command) else {
        return Err(Refusal::Memory);
    };
    console.print(text.as_slice())
}

/// What is printed of a message under a gate.
fn text_under(
    alloc: Global,
    gate: &Gate,
    message: &str,
    command: &FootersCommand<'_>,
) -> Result<Vec<u8>, NoMemory>
    ensures { IfOk result (λ text. (needs : List ℕ) × (ignored : List (List ℕ))
        × AreFooters gate.now.bases command.now.change message.now needs ignored
        × (text.items ≡ footers_as command.now.format gate.now.bases needs ignored)) }
{
    let bases = gate.bases();
    let found = depends(alloc, bases, command.change, message)?;
    footers_as(
        alloc,
        bases,
        found.needs.as_slice(),
        found.ignored.as_slice(),
        command.format,
    )
}

/// What is printed of the changes and the other values of footers under these bases.
fn footers_as(
    alloc: Global,
    bases: &Bases,
    needs: &[u32],
    ignored: &[&str],
    format: OutputFormat,
) -> Result<Vec<u8>, NoMemory>
    ensures { IfOk result (λ text. text.items
        ≡ footers_as format bases.now needs.now (map (λ value. value.now) ignored.now)) }
{
    match format {
        OutputFormat::Json => footers_line(alloc, bases, needs, ignored),
        OutputFormat::Text => footers_text(alloc, needs, ignored),
    }
}

/// The line of both and of the bases.
fn footers_line(
    alloc: Global,
    bases: &Bases,
    needs: &[u32],
    ignored: &[&str],
) -> Result<Vec<u8>, NoMemory>
    ensures { IfOk result (λ text. text.items
        ≡ json_line (footers_tokens bases.now needs.now (map (λ value. value.now) ignored.now))) }
{
    let mut out = Writer::new(Vec::new(alloc));
    open_object(&mut out)?;
    put_numbers(&mut out, "needs", needs)?;
    put_words(&mut out, "ignored", ignored)?;
    put_texts(&mut out, "bases", bases.iter().as_slice())?;
    close_object(&mut out)?;
    line_of(out)
}

/// The lines of both, and their counts.
fn footers_text(alloc: Global, needs: &[u32], ignored: &[&str]) -> Result<Vec<u8>, NoMemory>
    ensures { IfOk result
        (λ text. text.items ≡ footers_text needs.now (map (λ value. value.now) ignored.now)) }
{
    let mut text = need_lines(alloc, needs)?;
    let lines = ignored_lines(alloc, ignored)?;
    text.extend_from_slice(lines.as_slice())?;
    let count = needs.len();
    let others = ignored.len();
    let end = format!(in alloc; "end {count} {others}\n")?;
    text.extend_from_slice(end.as_bytes())?;
    Ok(text)
}

/// A line for each change that is needed.
fn need_lines(alloc: Global, needs: &[u32]) -> Result<Vec<u8>, NoMemory>
    ensures { IfOk result (λ text. text.items ≡ flat_map need_line needs.now) }
{
    let mut text = Vec::new(alloc);
    for change in needs {
        let line = format!(in alloc; "need {change}\n")?;
        text.extend_from_slice(line.as_bytes())?;
    }
    Ok(text)
}

/// A line for each value that names no other change.
fn ignored_lines(alloc: Global, ignored: &[&str]) -> Result<Vec<u8>, NoMemory>
    ensures { IfOk result (λ text. text.items ≡ flat_map ignored_line (map (λ value. value.now) ignored.now)) }
{
    let mut text = Vec::new(alloc);
    for value in ignored {
        text.extend_from_slice(b"ignored ")?;
        text.extend_from_slice(value.as_bytes())?;
        text.push(b'\n')?;
    }
    Ok(text)
}
