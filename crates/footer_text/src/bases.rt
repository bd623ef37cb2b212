//! What may precede a change's number in a footer.

ghost use Rattle.std.specs.Prelude.{◌≡◌, ℕ, ◌↔◌, List, length, map, string_bytes, slice_get, IsTrue, IfOk, MatchOption};
ghost use Rattle.std.specs.Prelude.{option_map};
ghost use Rattle.std.specs.List.{All};
ghost use Rattle.std.specs.Slice.Iter.{iter_rest};
ghost use Rattle.footer_text.specs.Readings.{NamesChange};
ghost use Rattle.footer_text.specs.Bases.{IsGraphic, IsBase, AreBases, IsFirstBad, IsBasesAnswer, bases_fault_number};
ghost use Rattle.footer_text.specs.Bases.{bases_fault_name};

use super::reading::read_value;
use lattice_core::NoMemory;
use std::alloc::{Allocator, Global};
use std::marker::Model;
use std::slice::Iter;
use thiserror::Error;

/// Why texts are no bases.
#[derive(Clone, Copy, Debug, PartialEq, Eq, Error)]
pub enum BasesFault {
    /// The text at this place, from 0, is the first that isn't a base, or a ninth; or there is
    /// none.
    #[error("bad base at {0}")]
    BadBase(usize),
    #[error("no memory")]
    NoMemory,
}

impl BasesFault {
    /// The fault's number.
    pub fn number(&self) -> u8
        ensures { result ≡ bases_fault_number self.now }
    {
        match self {
            BasesFault::BadBase(_) => 1,
            BasesFault::NoMemory => 2,
        }
    }

    /// The fault's name.
    pub fn name(&self) -> &'static str
        ensures { result.now ≡ bases_fault_name self.now }
    {
        match self {
            BasesFault::BadBase(_) => "BadBase",
            BasesFault::NoMemory => "NoMemory",
        }
    }
}

/// How many bases there may be.
pub const MOST_BASES: usize = 8;

/// How many bytes a base may have.
pub(crate) const LONGEST_BASE: usize = 256;

/// What may precede a change's number in a footer's value: one to eight texts, each of 1 to
/// 256 bytes from 0x21 to 0x7E, the last of which is `/`. They are tried in their order.
#[derive(Debug, Drop)]
pub struct Bases<A: Allocator = Global> {
    texts: Vec<String<A>, A>,
}

impl<A: Allocator> Model for Bases<A> {
    ghost Value = { List (List ℕ) };

    ghost view = { λ bases. map string_bytes bases.texts.items };

    ghost invariant = { λ bases. AreBases (map string_bytes bases.texts.items) };
}

impl<A: Allocator + Copy> Bases<A> {
    /// Copies the texts. It costs O(n) for n bytes. Where they are no bases, the answer is BadBase (1) with the place
    /// of the first bad one, and no memory was asked for. NoMemory is 2.
    pub fn new(alloc: A, texts: &[&str]) -> Result<Bases<A>, BasesFault>
        ensures { IsBasesAnswer (map (λ text. text.now) texts.now) result }
    {
        if let Some(place) = first_bad(texts) {
            return Err(BasesFault::BadBase(place));
        }
        let mut kept = Vec::new(alloc);
        for text in texts {
            let Ok(text) = String::from_str(alloc, text) else {
                return Err(BasesFault::NoMemory);
            };
            if kept.push(text).is_err() {
                return Err(BasesFault::NoMemory);
            }
        }
        Ok(Bases { texts: kept })
    }

    /// How many there are, 1 to 8. Takes no memory, as `get` and `iter`.
    pub fn len(&self) -> usize
        ensures length { result ≡ length self.now }
        ensures bases { AreBases self.now }
    {
        self.texts.len()
    }

    /// The base at this place, from 0.
    pub fn get(&self, place: usize) -> Option<&str>
        ensures { option_map (λ text. text.now) result ≡ slice_get self.now place }
    {
        Some(self.texts.get(place)?.as_str())
    }

    /// The bases in their order.
    pub fn iter(&self) -> Iter<'_, String<A>>
        ensures { map string_bytes (iter_rest result) ≡ self.now }
    {
        self.texts.iter()
    }

    /// The change that the value of a footer names under the first base under which it names one. It costs O(n) for
    /// each base and a value of n bytes, and takes no memory.
    pub fn named_change(&self, value: &str) -> Option<u32>
        ensures { MatchOption result ((change : ℕ) → ¬ (NamesChange self.now value.now change))
            (NamesChange self.now value.now) }
    {
        let texts = self.texts.as_slice();
        for base in texts {
            if let Some(change) = read_value(base.as_str(), value) {
                return Some(change);
            }
        }
        None
    }

    /// Equal bases. It costs O(n) for n bytes.
    pub fn copy(&self) -> Result<Bases<A>, NoMemory>
        ensures { IfOk result (λ copy. copy ≡ self.now) }
    {
        let texts = self.texts.clone()?;
        Ok(Bases { texts })
    }
}

/// The place of the first text that isn't a base, or of a ninth. Of no texts it is 0.
fn first_bad(texts: &[&str]) -> Option<usize>
    ensures { MatchOption result (AreBases (map (λ text. text.now) texts.now))
        (IsFirstBad (map (λ text. text.now) texts.now)) }
{
    if texts.is_empty() {
        return Some(0);
    }
    for (place, text) in texts.iter().enumerate() {
        if place >= MOST_BASES || !is_base(text) {
            return Some(place);
        }
    }
    None
}

/// Whether a text is a base.
pub(crate) fn is_base(text: &str) -> bool
    ensures { IsTrue result ↔ IsBase text.now }
{
    text.len() <= LONGEST_BASE && text.ends_with('/') && is_graphic(text.as_bytes())
}

/// Whether each byte is from 0x21 to 0x7E.
pub(crate) fn is_graphic(bytes: &[u8]) -> bool
    ensures { IsTrue result ↔ All IsGraphic bytes.now }
{
    bytes.iter().all(|b| b.is_ascii_graphic())
}
