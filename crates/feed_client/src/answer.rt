//! Parses the answer of a session to a body.

ghost use Rattle.std.specs.Prelude.{◌≡◌, ◌++◌, ◌∷◌, ◌<◌, ◌^◌, ℕ, List, IfOk, IfSome, IsNone, IsSomeAnd, MatchOption};
ghost use Rattle.std.specs.Prelude.{Some};
ghost use Rattle.std.specs.Fmt.{decimal};
ghost use Rattle.feed_client.specs.Refusals.{IsTakeAnswer, IsRefusalText, text_of};
ghost use Rattle.feed_client.specs.declared.intake.Refusal.{Refusal as Named};
ghost use Rattle.review_ops.specs.Timestamp.{IsNumbered, Timestamp, timestamp_text};

use super::intake::{IntakeFault, Refusal};
use lattice_core::NoMemory;
use review_ops::Stamp;
use std::alloc::Global;

/// All refusals that a body may meet.
const REFUSALS: [Refusal; 5] = [
    Refusal::NoMemory,
    Refusal::BadText,
    Refusal::BadBody,
    Refusal::ClockSpent,
    Refusal::Closed,
];

/// The answer to a body, after `no `, if the key of the connection may only read.
const NOT_ALLOWED: &[u8] = b"11 NotAllowed";

/// What a line answers: `ok STAMP`, or the refusal of `no NUMBER NAME`. Refusals: `Refused`, with what the site refused
/// it for; `NotAllowed`, the key of the connection may only read; `Ended`, the line is no answer; `NoMemory`, memory
/// was refused for reading the stamp.
pub fn read_answer(alloc: Global, line: &[u8]) -> Result<Stamp, IntakeFault>
    ensures { IsTakeAnswer line.now result }
{
    if let Some(text) = after(line, b"ok ") {
        return match read_stamp(alloc, text) {
            Ok(Some(stamp)) => Ok(stamp),
            Ok(None) => Err(IntakeFault::Ended),
            Err(_) => Err(IntakeFault::NoMemory),
        };
    }
    match after(line, b"no ") {
        Some(text) => Err(read_refusal(text)),
        None => Err(IntakeFault::Ended),
    }
}

/// What follows a word in a line.
fn after<'a>(line: &'a [u8], word: &[u8]) -> Option<&'a [u8]>
    ensures some { IfSome result (λ text. line.entry.now ≡ word.now ++ text.now) }
    ensures none { IsNone result → (text : List ℕ) → ¬ (line.entry.now ≡ word.now ++ text) }
{
    if line.len() < word.len() {
        return None;
    }
    let (front, text) = line.split_at(word.len());
    if front == word { Some(text) } else { None }
}

/// What a text after `no` says.
fn read_refusal(text: &[u8]) -> IntakeFault
    ensures { IsRefusalText text.now result }
{
    if text == NOT_ALLOWED {
        return IntakeFault::NotAllowed;
    }
    match refusal_of(text) {
        Some(refusal) => IntakeFault::Refused(refusal),
        None => IntakeFault::Ended,
    }
}

/// The refusal that a text names.
fn refusal_of(text: &[u8]) -> Option<Refusal>
    ensures { MatchOption result ((refusal : Named) → ¬ (text.now ≡ text_of refusal))
        (λ refusal. text.now ≡ text_of refusal) }
{
    for refusal in REFUSALS {
        if text == refusal.text().as_bytes() {
            return Some(refusal);
        }
    }
    None
}

/// The stamp that a text is, where it is one: four numbers in decimal, with commas between them, as a session writes
/// them.
fn read_stamp(alloc: Global, text: &[u8]) -> Result<Option<Stamp>, NoMemory>
    ensures { IfOk result (λ read. MatchOption read
        ((stamp : Timestamp) → IsNumbered stamp → ¬ (text.now ≡ timestamp_text stamp))
        (λ stamp. text.now ≡ timestamp_text stamp)) }
{
    let Some(stamp) = numbers_of(text) else {
        return Ok(None);
    };
    let written = format!(in alloc; "{stamp}")?;
    if written.as_bytes() == text {
        Ok(Some(stamp))
    } else {
        Ok(None)
    }
}

/// The stamp of four numbers, with commas between them.
fn numbers_of(text: &[u8]) -> Option<Stamp>
    ensures { (stamp : Timestamp) → IsNumbered stamp → text.now ≡ timestamp_text stamp → result ≡ Some stamp }
{
    let Ok(text) = str::from_utf8(text) else {
        return None;
    };
    let (time, text) = first_number(text)?;
    let (site, text) = first_number(text)?;
    let (start, text) = first_number(text)?;
    let seq = text.parse::<u64>().ok()?;
    Stamp::new(
        time,
        u16::try_from(site).ok()?,
        u32::try_from(start).ok()?,
        seq,
    )
}

/// The number before the first comma, and what follows that.
fn first_number(text: &str) -> Option<(u64, &str)>
    ensures { (number : ℕ) (rest : List ℕ) → number < 2 ^ 64 → text.now ≡ decimal number ++ 44 ∷ rest
        → IsSomeAnd result (λ read. (read.0 ≡ number) × (read.1.now ≡ rest)) }
{
    let (digits, rest) = text.split_once(',')?;
    Some((digits.parse::<u64>().ok()?, rest))
}
