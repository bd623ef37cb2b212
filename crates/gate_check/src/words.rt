//! What the conditions of a gate ask, in words.

ghost use Rattle.std.specs.Prelude.{◌≡◌, ◌++◌, IfOk, OnOk, map, option_map, string_bytes};
ghost use Rattle.std.specs.Fmt.{signed_decimal};
ghost use Rattle.json.specs.Print.{quoted};
ghost use Rattle.gate_check.specs.Asking.{current_words, joined_by, label_words, open_words, pattern_words};
ghost use Rattle.gate_check.specs.Asking.{status_words};
ghost use Rattle.gate_check.specs.Asking.{voter_words};

use gate_rules::{LabelValues, Pattern};
use json::Writer;
use lattice_core::NoMemory;
use std::alloc::Global;

/// What `open` asks.
pub fn open_words(asked: bool) -> &'static str
    ensures { result.now ≡ open_words asked }
{
    if asked { "open" } else { "not open" }
}

/// What `current-patchset` asks.
pub fn current_words(asked: bool) -> &'static str
    ensures { result.now ≡ current_words asked }
{
    if asked {
        "current patch set"
    } else {
        "not the current patch set"
    }
}

/// What `status` asks.
pub fn status_words(alloc: Global, texts: &[String]) -> Result<String, NoMemory>
    ensures { IfOk result (λ words. string_bytes words ≡ status_words (map string_bytes texts.now)) }
{
    let mut quoted = Vec::new(alloc);
    for text in texts {
        quoted.push(json_text(alloc, text.as_str())?)?;
    }
    let listed = joined(alloc, quoted.as_slice(), "none", " or ")?;
    Ok(format!(in alloc; "status {listed}")?)
}

/// What an approval asks.
pub fn pattern_words(alloc: Global, pattern: &Pattern) -> Result<String, NoMemory>
    ensures { IfOk result (λ words. string_bytes words ≡ pattern_words pattern.now) }
{
    let mut labels = Vec::new(alloc);
    for label in pattern.labels() {
        labels.push(label_words(alloc, label)?)?;
    }
    let listed = joined(alloc, labels.as_slice(), "any vote", " and ")?;
    let voter = voter_words(alloc, pattern.username())?;
    Ok(format!(in alloc; "{listed}{voter}")?)
}

/// What a label of an approval asks.
fn label_words(alloc: Global, label: &LabelValues) -> Result<String, NoMemory>
    ensures { IfOk result (λ words. string_bytes words ≡ label_words label.now) }
{
    let mut values = Vec::new(alloc);
    for value in label.values() {
        values.push(format!(in alloc; "{value}")?)?;
    }
    let listed = joined(alloc, values.as_slice(), "none", " or ")?;
    let name = label.label();
    Ok(format!(in alloc; "{name} {listed}")?)
}

/// What names the voter, where one is named.
fn voter_words(alloc: Global, voter: Option<&str>) -> Result<String, NoMemory>
    ensures { IfOk result (λ words. string_bytes words ≡ voter_words (option_map (λ name. name.now) voter.entry)) }
{
    let Some(voter) = voter else {
        return Ok(String::new(alloc));
    };
    let quoted = json_text(alloc, voter)?;
    Ok(format!(in alloc; " by {quoted}")?)
}

/// The texts with the separator between each two, or `none` where there are none.
fn joined(alloc: Global, texts: &[String], none: &str, separator: &str) -> Result<String, NoMemory>
    ensures { IfOk result
        (λ text. string_bytes text ≡ joined_by none.now separator.now (map string_bytes texts.now)) }
{
    if texts.is_empty() {
        return Ok(String::from_str(alloc, none)?);
    }
    Ok(texts.join(alloc, separator)?)
}

/// The JSON text of a text.
pub fn json_text(alloc: Global, plain: &str) -> Result<String, NoMemory>
    ensures { IfOk result (λ text. string_bytes text ≡ quoted plain.now) }
{
    let mut out = Writer::new(Vec::with_capacity(alloc, plain.len())?);
    out.string(plain)?;
    Ok(String::from_utf8(out.into_inner()).unwrap())
}
