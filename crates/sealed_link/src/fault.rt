//! Why a sealed connection doesn't begin, or can't go on.

use sealed_line::SealFault;
use thiserror::Error;

/// Why a sealed connection can't be dialed.
#[derive(Clone, Copy, Debug, PartialEq, Eq, Error)]
pub enum DialFault {
    /// The source failed.
    #[error("the source failed")]
    ReadFault,
    /// The drain failed.
    #[error("the drain failed")]
    WriteFault,
    /// What came is no line of who answers: another line, one with more than 256 bytes, or the end before its line end.
    #[error("the answer is none")]
    BadAnswer,
    /// Who answers has no key of that name: `no 12 NoKey`.
    #[error("the site has no such key")]
    NoKey,
    /// The proof isn't that of this secret over both first lines.
    #[error("the site didn't prove that it has the key")]
    NotProved,
    /// Memory was refused.
    #[error("no memory")]
    NoMemory,
}

/// Why a sealed connection can't go on.
#[derive(Clone, Copy, Debug, PartialEq, Eq, Error)]
pub enum WireFault {
    /// A line isn't sealed as the next one has to be.
    #[error("the seal is broken")]
    BadLine,
    /// A line has more than 699,096 bytes as it came, or more than 524,288 as it is to be sealed.
    #[error("the line is too long")]
    LongLine,
    /// 2^64 - 1 lines were sealed, or opened: no count is left.
    #[error("no count is left")]
    Spent,
    /// Memory was refused.
    #[error("no memory")]
    NoMemory,
}

impl WireFault {
    ghost use Rattle.std.specs.Prelude.{◌≡◌};
    ghost use Rattle.sealed_link.specs.Faults.{wire_fault};

    /// Why a line isn't sealed or opened.
    pub(super) fn of(fault: SealFault) -> WireFault
        ensures { result ≡ wire_fault fault }
    {
        match fault {
            SealFault::BadSeal => WireFault::BadLine,
            SealFault::LongLine => WireFault::LongLine,
            SealFault::Spent => WireFault::Spent,
            SealFault::NoMemory => WireFault::NoMemory,
        }
    }
}
