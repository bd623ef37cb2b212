//! Why a sealed source isn't read.

use sealed_line::SealFault;
use thiserror::Error;

/// Why a sealed source isn't read.
#[derive(Clone, Copy, Debug, PartialEq, Eq, Error)]
pub enum OpenFault {
    /// The source within failed.
    #[error("the source failed")]
    ReadFault,
    /// A line isn't sealed as the next one has to be.
    #[error("the seal is broken")]
    BadLine,
    /// The source ended before a line's end.
    #[error("a line is cut off")]
    CutLine,
    /// A line has more than 699,096 bytes and didn't end.
    #[error("the line is too long")]
    LongLine,
    /// 2^64 - 1 lines were opened: no count is left.
    #[error("no count is left")]
    Spent,
    /// Memory was refused.
    #[error("no memory")]
    NoMemory,
}

impl OpenFault {
    ghost use Rattle.std.specs.Prelude.{◌≡◌};
    ghost use Rattle.sealed_ends.specs.Unread.{open_fault};

    /// Why a line isn't opened.
    pub(super) fn of(fault: SealFault) -> OpenFault
        ensures { result ≡ open_fault fault }
    {
        match fault {
            SealFault::BadSeal => OpenFault::BadLine,
            SealFault::LongLine => OpenFault::LongLine,
            SealFault::Spent => OpenFault::Spent,
            SealFault::NoMemory => OpenFault::NoMemory,
        }
    }
}
