//! Why a line isn't sealed or opened.

use thiserror::Error;

/// Why a line isn't sealed or opened.
#[derive(Clone, Copy, Debug, PartialEq, Eq, Error)]
pub enum SealFault {
    /// The line isn't what a text is sealed to here: it was changed, added, or repeated, or one before it was dropped.
    #[error("the seal is broken")]
    BadSeal,
    /// The text has more than 524,288 bytes.
    #[error("the line is too long")]
    LongLine,
    /// 2^64 - 1 lines were sealed: no count is left.
    #[error("no count is left")]
    Spent,
    /// Memory was refused.
    #[error("no memory")]
    NoMemory,
}
