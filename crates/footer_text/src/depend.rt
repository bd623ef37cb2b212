//! What the footers of a commit message depend on.

ghost use Rattle.std.specs.Prelude.{◌≡◌, ◌≢◌, ◌<◌, ℕ, ◌++◌, ◌∷◌, List, [], map, codes, length, IfOk, MatchOption, OnOk};
ghost use Rattle.footer_text.specs.Lines.{IsFooter, lines_of};
ghost use Rattle.footer_text.specs.Readings.{IsNumberAndTail, ReadsAs, NamesChange};
ghost use Rattle.footer_text.specs.Footers.{AreFooters, AreCollected};

use super::bases::Bases;
use super::footer::footer_value;
use lattice_core::NoMemory;
use memchr::memchr;
use std::alloc::{Allocator, Global};

/// What the footers of a message say.
#[derive(Debug, Drop)]
pub struct Footers<'m, A: Allocator = Global> {
    /// The other changes that they name, increasing, each once.
    pub needs: Vec<u32, A>,
    /// The values that name no change, or the message's own, as they are in the message, in the
    /// order of its lines.
    pub ignored: Vec<&'m str, A>,
}

/// The footers of the message of a change, 0 where it has no number. A value that names that change makes no
/// dependency. It costs O(n) for each base and a message of n bytes, and O(m log m) for m needs, which are sorted.
pub fn depends<'m, A: Allocator + Copy>(
    alloc: A,
    bases: &Bases<A>,
    change: u32,
    message: &'m str,
) -> Result<Footers<'m, A>, NoMemory>
    ensures { IfOk result (λ found. AreFooters bases.now change message.now found.needs.items
        (map (λ value. value.now) found.ignored.items)) }
{
    let mut found = Footers {
        needs: Vec::new(alloc),
        ignored: Vec::new(alloc),
    };
    let mut rest = Some(message);
    while let Some(text) = rest {
        let (line, after) = first_line(text);
        add_line(bases, change, line, &mut found)?;
        rest = after;
    }
    found.needs.sort_unstable();
    found.needs.dedup();
    Ok(found)
}

/// The first line of a text, and what follows its LF; nothing follows where it has none. It costs O(n) for a line of n
/// bytes, and takes no memory.
pub fn first_line(text: &str) -> (&str, Option<&str>)
    ensures { MatchOption result.1 (lines_of text.now ≡ result.0.now ∷ [])
        (λ rest. (lines_of text.now ≡ result.0.now ∷ lines_of rest.now) × (length rest.now < length text.now)) }
{
    match memchr(b'\n', text.as_bytes()) {
        Some(end) => (&text[..end], Some(&text[end + 1..])),
        None => (text, None),
    }
}

/// Adds what a line names to what the lines before it named, with the needs in their order.
fn add_line<'m, A: Allocator + Copy>(
    bases: &Bases<A>,
    own: u32,
    line: &'m str,
    found: &mut Footers<'m, A>,
) -> Result<(), NoMemory>
    ensures { OnOk result ((lines : List (List ℕ))
        → AreCollected bases.now own lines found.old.needs.items
        (map (λ value. value.now) found.old.ignored.items)
        → AreCollected bases.now own (lines ++ line.now ∷ []) found.new.needs.items
        (map (λ value. value.now) found.new.ignored.items)) }
{
    let Some(value) = footer_value(line) else {
        return Ok(());
    };
    match bases.named_change(value) {
        Some(change) if change != own => found.needs.push(change)?,
        _ => found.ignored.push(value)?,
    }
    Ok(())
}

/// A line has one footer's value at most; a value names one change at most under one base, where
/// the last `/+/` ends the project, and under several; and so a message has one list of needs and
/// one of ignored values.
pub fn footers_are_unique()
    ensures line { (line v w : List ℕ) → IsFooter line v → IsFooter line w → v ≡ w }
    ensures project { (number : List ℕ) (change : ℕ) (before after : List ℕ)
        → IsNumberAndTail number change → number ≢ before ++ (codes "/+/" ++ after) }
    ensures base { (base value : List ℕ) (j k : ℕ)
        → ReadsAs base value j → ReadsAs base value k → j ≡ k }
    ensures bases { (bases : List (List ℕ)) (value : List ℕ) (j k : ℕ)
        → NamesChange bases value j → NamesChange bases value k → j ≡ k }
    ensures message { (bases : List (List ℕ)) (own : ℕ) (message xs ys : List ℕ)
        (vs ws : List (List ℕ))
        → AreFooters bases own message xs vs → AreFooters bases own message ys ws
        → (xs ≡ ys) × (vs ≡ ws) }
{}
