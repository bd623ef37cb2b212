//! Why a journal isn't read or written.

ghost use Rattle.std.specs.Prelude.{◌≡◌, ◌++◌, OnOk, string_bytes};
ghost use Rattle.site_journal.specs.Fault.{cause_words, name_of, number_of, words_of};
ghost use Rattle.site_journal.specs.declared.fault.JournalFault.TheVariants.{Failed as TapeFailed};
ghost use Rattle.site_journal.specs.declared.fault.JournalFault.TheVariants.{NoMemory as OutOfMemory};
ghost use Rattle.site_journal.specs.declared.fault.KeepFault.TheVariants.{NoMemory as NoneKept};

use byte_ends::Failed;
use lattice_core::NoMemory;
use op_text::OpTextFault;
use std::alloc::{AllocError, AllocFailed};
use thiserror::Error;

/// Why a line of a journal isn't read.
#[derive(Debug, Drop, Error)]
pub enum LineCause {
    /// It has more than 524,288 bytes.
    #[error("more bytes than a line has")]
    TooLong,
    /// It isn't the text of an operation. The cause is never `OpTextFault::NoMemory`.
    #[error("{0}")]
    Text(OpTextFault),
}

/// Why a journal isn't read. Of the faults in a text the first in line order counts.
#[derive(Debug, Drop, Error)]
pub enum JournalFault {
    /// 1: the first line isn't `reviewgate 2`.
    #[error("bad header")]
    BadHeader,
    /// 2: the line of this number, counted from 1, isn't read.
    #[error("bad line {0}: {1}")]
    BadLine(u64, LineCause),
    /// 3: there are more than 2^64 - 131,072 bytes.
    #[error("more bytes than a journal has")]
    TooLong,
    /// 4: a call of the tape, or of what is read, failed.
    #[error("the tape failed")]
    Failed,
    /// 5: memory was refused.
    #[error("no memory")]
    NoMemory,
}

/// Why operations aren't kept.
#[derive(Clone, Copy, Debug, PartialEq, Eq, Error)]
pub enum KeepFault {
    /// Memory was refused. Nothing was written.
    #[error("no memory")]
    NoMemory,
    /// The text of an operation has more than 524,288 bytes, or the journal would have more than any file. Nothing was
    /// written.
    #[error("more bytes than a line has")]
    TooLong,
    /// The tape failed in this call.
    #[error("the tape failed")]
    Failed,
    /// The tape failed before in such a way that nothing more is kept.
    #[error("the tape failed before")]
    Spoiled,
}

impl LineCause {
    /// Writes the cause's words in reports. In O(n) for their length.
    pub fn write_words(&self, text: &mut String) -> Result<(), AllocError>
        ensures { OnOk result (string_bytes text.new ≡ string_bytes text.old ++ cause_words self.now) }
    {
        match self {
            LineCause::TooLong => text.push_str("TooLong"),
            LineCause::Text(cause) => cause.write_words(text),
        }
    }
}

impl JournalFault {
    /// The fault's number in reports.
    pub fn number(&self) -> u8
        ensures { result ≡ number_of self.now }
    {
        match self {
            JournalFault::BadHeader => 1,
            JournalFault::BadLine(_, _) => 2,
            JournalFault::TooLong => 3,
            JournalFault::Failed => 4,
            JournalFault::NoMemory => 5,
        }
    }

    /// The fault's name in reports, without the line and the cause.
    pub fn name(&self) -> &'static str
        ensures { result.now ≡ name_of self.now }
    {
        match self {
            JournalFault::BadHeader => "BadHeader",
            JournalFault::BadLine(_, _) => "BadLine",
            JournalFault::TooLong => "TooLong",
            JournalFault::Failed => "Failed",
            JournalFault::NoMemory => "NoMemory",
        }
    }

    /// Writes the fault's words in reports: its name, and of a bad line its number and the words of the cause. In O(n)
    /// for their length.
    pub fn write_words(&self, text: &mut String) -> Result<(), AllocError>
        ensures { OnOk result (string_bytes text.new ≡ string_bytes text.old ++ words_of self.now) }
    {
        match self {
            JournalFault::BadLine(line, cause) => {
                write!(text, "BadLine {line} ")?;
                cause.write_words(text)
            }
            _ => text.push_str(self.name()),
        }
    }
}

impl From<Failed> for JournalFault {
    ghost from_gives = { λ _ fault. fault ≡ TapeFailed };

    fn from(_failed: Failed) -> JournalFault {
        JournalFault::Failed
    }
}

impl From<NoMemory> for JournalFault {
    ghost from_gives = { λ _ fault. fault ≡ OutOfMemory };

    fn from(_refused: NoMemory) -> JournalFault {
        JournalFault::NoMemory
    }
}

impl From<AllocError> for JournalFault {
    ghost from_gives = { λ _ fault. fault ≡ OutOfMemory };

    fn from(_refused: AllocError) -> JournalFault {
        JournalFault::NoMemory
    }
}

impl From<NoMemory> for KeepFault {
    ghost from_gives = { λ _ fault. fault ≡ NoneKept };

    fn from(_refused: NoMemory) -> KeepFault {
        KeepFault::NoMemory
    }
}

impl From<AllocError> for KeepFault {
    ghost from_gives = { λ _ fault. fault ≡ NoneKept };

    fn from(_refused: AllocError) -> KeepFault {
        KeepFault::NoMemory
    }
}

impl<T: Drop> From<AllocFailed<T>> for KeepFault {
    ghost from_gives = { λ _ fault. fault ≡ NoneKept };

    fn from(_refused: AllocFailed<T>) -> KeepFault {
        KeepFault::NoMemory
    }
}
