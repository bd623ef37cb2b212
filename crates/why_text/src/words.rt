//! The words of items and refusals.

ghost use Rattle.std.specs.Prelude.{◌≡◌, ◌++◌, IfOk, OnOk, codes, string_bytes, decimal};
ghost use Rattle.gate_rules.specs.Words.{clause_text};
ghost use Rattle.ready_core.specs.Words.{refusal_text};
ghost use Rattle.report_text.specs.Report.{item_text};

use gate_rules::{Clause, Condition};
use lattice_core::NoMemory;
use ready_core::Refusal;
use state_core::Item;
use std::alloc::Global;

/// Adds an item to a text, as `101,2`.
pub fn add_item(text: &mut String, item: Item) -> Result<(), NoMemory>
    ensures { OnOk result (string_bytes text.new ≡ string_bytes text.old ++ item_text item) }
{
    let Item { change, set } = item;
    write!(text, "{change},{set}")?;
    Ok(())
}

/// Why an item is left out, in the words of a report, as `require approval 2`.
pub fn refusal_words(alloc: Global, refusal: Refusal) -> Result<String, NoMemory>
    ensures { IfOk result (λ words. string_bytes words ≡ refusal_text refusal) }
{
    let mut words = String::new(alloc);
    add_refusal(&mut words, refusal)?;
    Ok(words)
}

/// Adds to a text why an item is left out, in the words of a report.
pub fn add_refusal(text: &mut String, refusal: Refusal) -> Result<(), NoMemory>
    ensures { OnOk result (string_bytes text.new ≡ string_bytes text.old ++ refusal_text refusal) }
{
    match refusal {
        Refusal::Own(condition) => add_condition(text, condition),
        Refusal::Cycle => add_word(text, refusal.word()),
        Refusal::Unknown(change) => add_named(text, refusal.word(), u64::from(change)),
        Refusal::Dependency(change) => add_named(text, refusal.word(), u64::from(change)),
    }
}

/// Adds a condition, as `require approval 2`.
fn add_condition(text: &mut String, condition: Condition) -> Result<(), NoMemory>
    ensures { OnOk result (string_bytes text.new ≡ string_bytes text.old ++ refusal_text (Refusal.Own condition)) }
{
    text.push_str(condition.side.name())?;
    text.push_str(" ")?;
    add_clause(text, condition.clause)
}

/// Adds a clause: its key in a gate file, and for an approval which one it is, from 1.
fn add_clause(text: &mut String, clause: Clause) -> Result<(), NoMemory>
    ensures { OnOk result (string_bytes text.new ≡ string_bytes text.old ++ clause_text clause) }
{
    match clause.place() {
        Some(number) => add_named(text, clause.key(), number as u64),
        None => add_word(text, clause.key()),
    }
}

/// Adds a word.
fn add_word(text: &mut String, word: &str) -> Result<(), NoMemory>
    ensures { OnOk result (string_bytes text.new ≡ string_bytes text.old ++ word.now) }
{
    text.push_str(word)?;
    Ok(())
}

/// Adds a number after what names it.
fn add_named(text: &mut String, name: &str, number: u64) -> Result<(), NoMemory>
    ensures { OnOk result (string_bytes text.new ≡ string_bytes text.old ++ (name.now ++ codes " " ++ decimal number)) }
{
    write!(text, "{name} {number}")?;
    Ok(())
}
