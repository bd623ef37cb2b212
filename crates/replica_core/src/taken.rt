//! What calls that take operations, or ask for a stamp, return.

ghost use Rattle.std.specs.Prelude.{◌≡◌, codes};

use thiserror::Error;

/// Whether an operation was new to a replica, or known already.
#[derive(Clone, Copy, Debug, PartialEq, Eq)]
pub enum Taken {
    New,
    Known,
}

/// No stamp is left: the greatest time or sequence number is in use.
#[derive(Clone, Copy, Debug, PartialEq, Eq, Error)]
#[error("no stamp is left")]
pub struct ClockSpent;

impl ClockSpent {
    /// The fault's number.
    pub fn number(&self) -> u8
        ensures { result ≡ 1 }
    {
        1
    }

    /// The fault's name.
    pub fn name(&self) -> &'static str
        ensures { result.now ≡ codes "ClockSpent" }
    {
        "ClockSpent"
    }
}

/// Memory was refused after the first `taken` operations of an absorbed journal, in the order of operations.
#[derive(Clone, Copy, Debug, PartialEq, Eq, Error)]
#[error("no memory after {taken} operations")]
pub struct Partly {
    /// How many operations were taken.
    pub taken: usize,
}

impl Partly {
    /// The fault's number.
    pub fn number(&self) -> u8
        ensures { result ≡ 1 }
    {
        1
    }

    /// The fault's name.
    pub fn name(&self) -> &'static str
        ensures { result.now ≡ codes "Partly" }
    {
        "Partly"
    }
}
