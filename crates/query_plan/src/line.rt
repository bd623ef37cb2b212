//! What a line says to a plan.

ghost use Rattle.std.specs.Prelude.{◌≡◌, ◌<◌, ◌^◌, ◌++◌, ◌∷◌, ℕ, List, [], IfOk, MatchOption, OnOk, Some, codes};
ghost use Rattle.std.specs.Prelude.{decimal};
ghost use Rattle.std.specs.Prelude.{IsSomeAnd, string_bytes};
ghost use Rattle.query_plan.specs.Line.{LacksBlank, LineFits, WordFits, plan_line_text, word_alone, word_rest};
ghost use Rattle.query_plan.specs.Line.{word_text};

use std::alloc::{AllocError, Global};
use std::str;

/// A line: what happened, and when, in seconds.
#[derive(Clone, Copy, Debug, PartialEq, Eq)]
pub struct Line {
    pub time: u64,
    pub word: Word,
}

/// What happened.
#[derive(Clone, Copy, Debug, PartialEq, Eq)]
pub enum Word {
    /// `ask N`: a feed read an event of this change.
    Ask(u32),
    /// `need N`: a feed needs this change because of another one.
    Need(u32),
    /// `all`: all changes are to be queried.
    All,
    /// `next`: the next query is wanted.
    Next,
    /// `listed N`: the answer lists this change.
    Listed(u32),
    /// `whole`: the answer was whole.
    Whole,
    /// `refused`: Gerrit answered by an error, or not whole.
    Refused,
    /// `late`: Gerrit took too long.
    Late,
    /// `lost`: no answer came.
    Lost,
}

/// What a line says, without its line end; none where it says nothing. It costs O(n) for n bytes.
pub fn read_line(alloc: Global, text: &[u8]) -> Result<Option<Line>, AllocError>
    ensures { IfOk result (λ read. MatchOption read
        ((line : Line) → LineFits line → ¬ (text.now ≡ plan_line_text line)) (λ line. text.now ≡ plan_line_text line)) }
{
    match likely_line(text) {
        None => Ok(None),
        Some(line) => confirmed(alloc, text, line),
    }
}

/// A line, where this is its text.
fn confirmed(alloc: Global, text: &[u8], line: Line) -> Result<Option<Line>, AllocError>
    ensures { IfOk result (λ read. MatchOption read
        (¬ (text.now ≡ plan_line_text line)) (λ other. (other ≡ line) × (text.now ≡ plan_line_text other))) }
{
    let written = text_of(alloc, line)?;
    if written.as_bytes() == text {
        Ok(Some(line))
    } else {
        Ok(None)
    }
}

/// The text of a line.
fn text_of(alloc: Global, line: Line) -> Result<String, AllocError>
    ensures { IfOk result (λ text. string_bytes text ≡ plan_line_text line) }
{
    let mut text = String::new(alloc);
    add_number(&mut text, line.time)?;
    text.push_str(" ")?;
    add_word(&mut text, line.word)?;
    Ok(text)
}

/// Adds a number in decimal.
fn add_number(text: &mut String, number: u64) -> Result<(), AllocError>
    ensures { OnOk result (string_bytes text.new ≡ string_bytes text.old ++ decimal number) }
{
    write!(text, "{number}")
}

/// Adds a word, with its change.
fn add_word(text: &mut String, word: Word) -> Result<(), AllocError>
    ensures { OnOk result (string_bytes text.new ≡ string_bytes text.old ++ word_text word) }
{
    match word {
        Word::Ask(change) => write!(text, "ask {change}"),
        Word::Need(change) => write!(text, "need {change}"),
        Word::All => text.push_str("all"),
        Word::Next => text.push_str("next"),
        Word::Listed(change) => write!(text, "listed {change}"),
        Word::Whole => text.push_str("whole"),
        Word::Refused => text.push_str("refused"),
        Word::Late => text.push_str("late"),
        Word::Lost => text.push_str("lost"),
    }
}

/// What a line says, where its text is that of what it says.
fn likely_line(text: &[u8]) -> Option<Line>
    ensures { (line : Line) → LineFits line → text.now ≡ plan_line_text line → result ≡ Some line }
{
    match str::from_utf8(text) {
        Ok(text) => likely_text(text),
        Err(_) => None,
    }
}

/// What a text says, where it is that of what it says.
fn likely_text(text: &str) -> Option<Line>
    ensures { (line : Line) → LineFits line → text.now ≡ plan_line_text line → result ≡ Some line }
{
    let (time, rest) = cut_at_blank(text)?;
    let time = long_number(time)?;
    let word = likely_word(rest)?;
    Some(Line { time, word })
}

/// What follows the time, where its text is that of what it says.
fn likely_word(text: &str) -> Option<Word>
    ensures { (word : Word) → WordFits word → text.now ≡ word_text word → result ≡ Some word }
{
    let (first, rest) = first_and_rest(text);
    word_of(first, rest)
}

/// The word that begins so, where this is what follows it.
fn word_of(first: &str, rest: &str) -> Option<Word>
    ensures { (word : Word) → WordFits word → first.now ≡ word_alone word → rest.now ≡ word_rest word
        → result ≡ Some word }
{
    match first {
        "ask" => Some(Word::Ask(short_number(rest)?)),
        "need" => Some(Word::Need(short_number(rest)?)),
        "all" => Some(Word::All),
        "next" => Some(Word::Next),
        "listed" => Some(Word::Listed(short_number(rest)?)),
        "whole" => Some(Word::Whole),
        "refused" => Some(Word::Refused),
        "late" => Some(Word::Late),
        "lost" => Some(Word::Lost),
        _ => None,
    }
}

/// What comes before the first blank of a text, and what comes after it; the whole text where it has none.
fn first_and_rest(text: &str) -> (&str, &str)
    ensures cut { (front rest : List ℕ) → LacksBlank front → text.entry.now ≡ front ++ 32 ∷ rest
        → (result.0.now ≡ front) × (result.1.now ≡ rest) }
    ensures whole { LacksBlank text.entry.now → (result.0.now ≡ text.entry.now) × (result.1.now ≡ []) }
{
    match text.split_once(' ') {
        Some(parts) => parts,
        None => (text, ""),
    }
}

/// What comes before the first blank of a text, and what comes after it.
fn cut_at_blank(text: &str) -> Option<(&str, &str)>
    ensures { (front rest : List ℕ) → LacksBlank front → text.entry.now ≡ front ++ 32 ∷ rest
        → IsSomeAnd result (λ parts. (parts.0.now ≡ front) × (parts.1.now ≡ rest)) }
{
    text.split_once(' ')
}

/// The number of 32 bits that digits write.
fn short_number(digits: &str) -> Option<u32>
    ensures { (number : ℕ) → number < 2 ^ 32 → digits.now ≡ decimal number → result ≡ Some number }
{
    digits.parse::<u32>().ok()
}

/// The number of 64 bits that digits write.
fn long_number(digits: &str) -> Option<u64>
    ensures { (number : ℕ) → number < 2 ^ 64 → digits.now ≡ decimal number → result ≡ Some number }
{
    digits.parse::<u64>().ok()
}
