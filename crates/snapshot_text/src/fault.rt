//! Why a snapshot isn't read or written.

ghost use Rattle.std.specs.Prelude.{◌≡◌, ◌++◌, OnOk, string_bytes};
ghost use Rattle.snapshot_text.specs.Fault.{number_of, name_of, words_of, write_number_of, write_name_of};
ghost use Rattle.snapshot_text.specs.declared.fault.WriteSnapFault.TheVariants.{WriteFault as WriteFailed};
ghost use Rattle.snapshot_text.specs.declared.fault.WriteSnapFault.TheVariants.{NoMemory as OutOfMemory};

use byte_ends::Failed;
use lattice_core::NoMemory;
use op_text::OpTextFault;
use std::alloc::AllocError;
use thiserror::Error;

/// Why a snapshot isn't read. Of the faults in a text the first in line order counts.
#[derive(Debug, Drop, Error)]
pub enum SnapFault {
    /// 1: there is no first line, or it is neither `reviewgate 1` nor `reviewgate 2`.
    #[error("bad header")]
    BadHeader,
    /// 2: the line of this number, counted from 1, is no end line and isn't read as an operation. Its cause is never
    /// `OpTextFault::NoMemory`.
    #[error("bad line {0}: {1}")]
    BadLine(u64, OpTextFault),
    /// 3: there is no end line.
    #[error("no end line")]
    NoEnd,
    /// 4: the end line's number isn't that of the operation lines before it, repeats counted.
    #[error("bad count")]
    BadCount,
    /// 5: a line comes after the end line, perhaps an empty one.
    #[error("a line after the end")]
    AfterEnd,
    /// 6: there are more bytes than the limit.
    #[error("more bytes than the limit")]
    TooLong,
    /// 7: the source failed.
    #[error("the source failed")]
    ReadFault,
    /// 8: memory was refused.
    #[error("no memory")]
    NoMemory,
}

/// Why a snapshot isn't written.
#[derive(Clone, Copy, Debug, PartialEq, Eq, Error)]
pub enum WriteSnapFault {
    /// 1: the drain failed.
    #[error("the drain failed")]
    WriteFault,
    /// 2: memory was refused.
    #[error("no memory")]
    NoMemory,
}

impl SnapFault {
    /// The fault's number in reports.
    pub fn number(&self) -> u8
        ensures { result ≡ number_of self.now }
    {
        match self {
            SnapFault::BadHeader => 1,
            SnapFault::BadLine(_, _) => 2,
            SnapFault::NoEnd => 3,
            SnapFault::BadCount => 4,
            SnapFault::AfterEnd => 5,
            SnapFault::TooLong => 6,
            SnapFault::ReadFault => 7,
            SnapFault::NoMemory => 8,
        }
    }

    /// The fault's name in reports, without the line and the cause.
    pub fn name(&self) -> &'static str
        ensures { result.now ≡ name_of self.now }
    {
        match self {
            SnapFault::BadHeader => "BadHeader",
            SnapFault::BadLine(_, _) => "BadLine",
            SnapFault::NoEnd => "NoEnd",
            SnapFault::BadCount => "BadCount",
            SnapFault::AfterEnd => "AfterEnd",
            SnapFault::TooLong => "TooLong",
            SnapFault::ReadFault => "ReadFault",
            SnapFault::NoMemory => "NoMemory",
        }
    }

    /// Writes the fault's words in reports: its name, and of a bad line its number and the words of the cause. In O(n)
    /// for their length.
    pub fn write_words(&self, text: &mut String) -> Result<(), AllocError>
        ensures { OnOk result (string_bytes text.new ≡ string_bytes text.old ++ words_of self.now) }
    {
        match self {
            SnapFault::BadLine(line, cause) => {
                write!(text, "BadLine {line} ")?;
                cause.write_words(text)
            }
            _ => text.push_str(self.name()),
        }
    }
}

impl WriteSnapFault {
    /// The fault's number in reports.
    pub fn number(&self) -> u8
        ensures { result ≡ write_number_of self.now }
    {
        match self {
            WriteSnapFault::WriteFault => 1,
            WriteSnapFault::NoMemory => 2,
        }
    }

    /// The fault's name in reports.
    pub fn name(&self) -> &'static str
        ensures { result.now ≡ write_name_of self.now }
    {
        match self {
            WriteSnapFault::WriteFault => "WriteFault",
            WriteSnapFault::NoMemory => "NoMemory",
        }
    }
}

impl From<Failed> for WriteSnapFault {
    ghost from_gives = { λ _ fault. fault ≡ WriteFailed };

    fn from(_failed: Failed) -> WriteSnapFault {
        WriteSnapFault::WriteFault
    }
}

impl From<NoMemory> for WriteSnapFault {
    ghost from_gives = { λ _ fault. fault ≡ OutOfMemory };

    fn from(_refused: NoMemory) -> WriteSnapFault {
        WriteSnapFault::NoMemory
    }
}
