//! What a line that a site prints says of which items are ready.

ghost use Rattle.std.specs.Prelude.{◌≡◌, ◌<◌, ◌^◌, ◌++◌, ℕ, IfOk, IfSome, MatchBool, MatchOption, OnOk, Some, codes};
ghost use Rattle.std.specs.Prelude.{◌∷◌, IsSomeAnd, List, decimal, string_bytes};
ghost use Rattle.enqueue_lines.specs.Texts.{LacksByte};
ghost use Rattle.enqueue_lines.specs.Lines.{BeginsPassed, IsPassedLine, NumbersFit, IsShortItem, LineSays, counts_text};
ghost use Rattle.enqueue_lines.specs.Lines.{rest_of};
ghost use Rattle.enqueue_lines.specs.Lines.{site_line_text, site_line_word};
ghost use Rattle.enqueue_lines.specs.declared.site_line.SiteLine.{SiteLine};
ghost use Rattle.report_text.specs.Report.{item_text};
ghost use Rattle.state_core.specs.declared.item.Item.{Item};

use state_core::Item;
use std::alloc::{AllocError, Global};
use std::str;

/// What a line that a site prints says of which items are ready.
#[derive(Clone, Copy, Debug, PartialEq, Eq)]
pub enum SiteLine {
    /// `ready N,P`: the item is ready.
    Ready(Item),
    /// `+ready N,P`: the item is ready, and wasn't.
    NowReady(Item),
    /// `-ready N,P`: the item was ready, and isn't any more.
    NotReady(Item),
    /// `end R O`: these were all lines; so many items are ready, and so many are left out.
    End(u64, u64),
    /// `out ..`, `gone ..` or `listening ..`: nothing of which items are ready.
    Nothing,
}

/// What a line says, without its line end; none where it is none that a site prints. Of a line `out ..`, `gone ..` or
/// `listening ..` the first word is looked at alone. It costs O(n) for n bytes.
pub fn read_line(alloc: Global, line: &[u8]) -> Result<Option<SiteLine>, AllocError>
    ensures { IfOk result (λ read. MatchOption read
        ((parsed : SiteLine) → NumbersFit parsed → ¬ LineSays line.now parsed) (LineSays line.now)) }
{
    if is_passed_over(line) {
        return Ok(Some(SiteLine::Nothing));
    }
    match likely_line(line) {
        None => Ok(None),
        Some(parsed) => confirmed(alloc, line, parsed),
    }
}

/// What a line says, where it says this.
fn confirmed(alloc: Global, line: &[u8], parsed: SiteLine) -> Result<Option<SiteLine>, AllocError>
    requires { ¬ (parsed ≡ SiteLine.Nothing) }
    ensures { IfOk result (λ read. MatchOption read
        (¬ LineSays line.now parsed) (λ other. (other ≡ parsed) × LineSays line.now other)) }
{
    let written = text_of(alloc, parsed)?;
    if written.as_bytes() == line {
        Ok(Some(parsed))
    } else {
        Ok(None)
    }
}

/// The text of a line, without its line end.
fn text_of(alloc: Global, parsed: SiteLine) -> Result<String, AllocError>
    requires { ¬ (parsed ≡ SiteLine.Nothing) }
    ensures { IfOk result (λ text. string_bytes text ≡ site_line_text parsed) }
{
    match parsed {
        SiteLine::Ready(item) => item_line(alloc, "ready ", item),
        SiteLine::NowReady(item) => item_line(alloc, "+ready ", item),
        SiteLine::NotReady(item) => item_line(alloc, "-ready ", item),
        SiteLine::End(ready, out) => end_line(alloc, ready, out),
        SiteLine::Nothing => unreachable!(),
    }
}

/// A word and an item.
fn item_line(alloc: Global, word: &str, item: Item) -> Result<String, AllocError>
    ensures { IfOk result (λ text. string_bytes text ≡ word.now ++ item_text item) }
{
    let mut text = String::from_str(alloc, word)?;
    add_item(&mut text, item)?;
    Ok(text)
}

/// The end of a group.
fn end_line(alloc: Global, ready: u64, out: u64) -> Result<String, AllocError>
    ensures { IfOk result (λ text. string_bytes text ≡ codes "end " ++ counts_text ready out) }
{
    let mut text = String::from_str(alloc, "end ")?;
    add_counts(&mut text, ready, out)?;
    Ok(text)
}

/// Adds an item, as `101,2`.
pub fn add_item(text: &mut String, item: Item) -> Result<(), AllocError>
    ensures { OnOk result (string_bytes text.new ≡ string_bytes text.old ++ item_text item) }
{
    let change = item.change;
    let set = item.set;
    write!(text, "{change},{set}")
}

/// Adds how many items are ready, and how many are left out.
fn add_counts(text: &mut String, ready: u64, out: u64) -> Result<(), AllocError>
    ensures { OnOk result (string_bytes text.new ≡ string_bytes text.old ++ counts_text ready out) }
{
    write!(text, "{ready} {out}")
}

/// Whether a line says nothing of which items are ready.
fn is_passed_over(line: &[u8]) -> bool
    ensures { MatchBool result (IsPassedLine line.now) (¬ IsPassedLine line.now) }
{
    begins(line, b"out ") || begins(line, b"gone ") || begins(line, b"listening ")
}

/// Whether a line begins with this.
fn begins(line: &[u8], word: &[u8]) -> bool
    ensures { MatchBool result (BeginsPassed word.now line.now) (¬ BeginsPassed word.now line.now) }
{
    line.starts_with(word)
}

/// What a line says, where its text is that of what it says.
fn likely_line(line: &[u8]) -> Option<SiteLine>
    ensures likely { (parsed : SiteLine) → NumbersFit parsed → ¬ (parsed ≡ SiteLine.Nothing) → line.now ≡ site_line_text parsed
        → result ≡ Some parsed }
    ensures something { IfSome result (λ parsed. ¬ (parsed ≡ SiteLine.Nothing)) }
{
    let Ok(text) = str::from_utf8(line) else {
        return None;
    };
    let (word, rest) = cut_at_blank(text)?;
    words_read(word, rest)
}

/// What a word and what follows it say.
fn words_read(word: &str, rest: &str) -> Option<SiteLine>
    ensures likely { (parsed : SiteLine) → NumbersFit parsed → word.now ≡ site_line_word parsed → rest.now ≡ rest_of parsed
        → ¬ (parsed ≡ SiteLine.Nothing) → result ≡ Some parsed }
    ensures something { IfSome result (λ parsed. ¬ (parsed ≡ SiteLine.Nothing)) }
{
    match word {
        "ready" => Some(SiteLine::Ready(likely_item(rest)?)),
        "+ready" => Some(SiteLine::NowReady(likely_item(rest)?)),
        "-ready" => Some(SiteLine::NotReady(likely_item(rest)?)),
        "end" => {
            let (ready, out) = likely_end(rest)?;
            Some(SiteLine::End(ready, out))
        }
        _ => None,
    }
}

/// The item that a text is, where it is one's.
fn likely_item(text: &str) -> Option<Item>
    ensures { (item : Item) → IsShortItem item → text.now ≡ item_text item → result ≡ Some item }
{
    let (change, set) = cut_at_comma(text)?;
    let change = short_number(change)?;
    let set = short_number(set)?;
    Some(Item { change, set })
}

/// The two counts that a text is, where it is theirs.
fn likely_end(text: &str) -> Option<(u64, u64)>
    ensures { (ready out : ℕ) → ready < 2 ^ 64 → out < 2 ^ 64 → text.now ≡ counts_text ready out
        → result ≡ Some (ready, out) }
{
    let (ready, out) = cut_at_blank(text)?;
    let ready = long_number(ready)?;
    let out = long_number(out)?;
    Some((ready, out))
}

/// The item that a text is, as `101,2`; none where it is none's. It costs O(n) for n bytes.
pub fn read_item(alloc: Global, text: &[u8]) -> Result<Option<Item>, AllocError>
    ensures { IfOk result (λ read. MatchOption read
        ((item : Item) → IsShortItem item → ¬ (text.now ≡ item_text item)) (λ item. text.now ≡ item_text item)) }
{
    let Ok(written) = str::from_utf8(text) else {
        return Ok(None);
    };
    match likely_item(written) {
        None => Ok(None),
        Some(item) => confirmed_item(alloc, text, item),
    }
}

/// An item, where this is its text.
fn confirmed_item(alloc: Global, text: &[u8], item: Item) -> Result<Option<Item>, AllocError>
    ensures { IfOk result (λ read. MatchOption read
        (¬ (text.now ≡ item_text item)) (λ other. (other ≡ item) × (text.now ≡ item_text item))) }
{
    let written = item_line(alloc, "", item)?;
    if written.as_bytes() == text {
        Ok(Some(item))
    } else {
        Ok(None)
    }
}

/// What comes before the first blank of a text, and what comes after it.
fn cut_at_blank(text: &str) -> Option<(&str, &str)>
    ensures { (front rest : List ℕ) → LacksByte 32 front → text.entry.now ≡ front ++ 32 ∷ rest
        → IsSomeAnd result (λ parts. (parts.0.now ≡ front) × (parts.1.now ≡ rest)) }
{
    text.split_once(' ')
}

/// What comes before the first comma of a text, and what comes after it.
fn cut_at_comma(text: &str) -> Option<(&str, &str)>
    ensures { (front rest : List ℕ) → LacksByte 44 front → text.entry.now ≡ front ++ 44 ∷ rest
        → IsSomeAnd result (λ parts. (parts.0.now ≡ front) × (parts.1.now ≡ rest)) }
{
    text.split_once(',')
}

/// The number of 32 bits that digits write.
fn short_number(digits: &str) -> Option<u32>
    ensures { (number : ℕ) → number < 2 ^ 32 → digits.now ≡ decimal number → result ≡ Some number }
{
    digits.parse::<u32>().ok()
}

/// The number of 64 bits that digits write.
fn long_number(digits: &str) -> Option<u64>
    ensures { (number : ℕ) → number < 2 ^ 64 → digits.now ≡ decimal number → result ≡ Some number }
{
    digits.parse::<u64>().ok()
}
