//! Why a text is no base.

ghost use Rattle.std.specs.Prelude.{◌≡◌, ℕ, List, MatchOption};
ghost use Rattle.footer_text.specs.Bases.{IsBase};
ghost use Rattle.footer_text.specs.Flaws.{HasFlaw, flaw_name};
ghost use Rattle.footer_text.specs.declared.flaw.BaseFlaw.{BaseFlaw as Flaw};

use super::bases::{LONGEST_BASE, is_base, is_graphic};

/// Why a text is no base. Of several the first one counts.
#[derive(Clone, Copy, Debug, PartialEq, Eq)]
pub enum BaseFlaw {
    /// It has no byte.
    Empty,
    /// It has more than 256 bytes.
    TooLong,
    /// A byte isn't from 0x21 to 0x7E.
    BadByte,
    /// Its last byte isn't `/`.
    NoSlash,
}

impl BaseFlaw {
    /// The flaw's name in reports.
    pub fn name(self) -> &'static str
        ensures { result.now ≡ flaw_name self }
    {
        match self {
            BaseFlaw::Empty => "Empty",
            BaseFlaw::TooLong => "TooLong",
            BaseFlaw::BadByte => "BadByte",
            BaseFlaw::NoSlash => "NoSlash",
        }
    }
}

/// Why a text is no base, where it is none. It costs O(n) for n bytes, and takes no memory.
pub fn base_flaw(text: &str) -> Option<BaseFlaw>
    ensures { MatchOption result (IsBase text.now) (HasFlaw text.now) }
{
    if is_base(text) {
        return None;
    }
    Some(flaw_in(text))
}

/// Why a text that is no base is none.
fn flaw_in(text: &str) -> BaseFlaw
    requires { ¬ IsBase text.now }
    ensures { HasFlaw text.now result }
{
    if text.is_empty() {
        return BaseFlaw::Empty;
    }
    if text.len() > LONGEST_BASE {
        return BaseFlaw::TooLong;
    }
    if !is_graphic(text.as_bytes()) {
        return BaseFlaw::BadByte;
    }
    BaseFlaw::NoSlash
}

/// A base has no flaw, and another text has one alone.
pub fn bases_have_no_flaw()
    ensures none { (text : List ℕ) (flaw : Flaw) → IsBase text → ¬ HasFlaw text flaw }
    ensures one { (text : List ℕ) (flaw other : Flaw) → HasFlaw text flaw → HasFlaw text other → flaw ≡ other }
{}
