//! Why bytes aren't read or written.

ghost use Rattle.std.specs.Prelude.{◌≡◌, codes};
ghost use Rattle.byte_ends.specs.ReadAll.{name_of, number_of};

use thiserror::Error;

/// A read or a write failed.
#[derive(Clone, Copy, Debug, PartialEq, Eq, Error)]
#[error("the end failed")]
pub struct Failed;

impl Failed {
    /// The fault's number.
    pub fn number(&self) -> u8
        ensures { result ≡ 1 }
    {
        1
    }

    /// The fault's name.
    pub fn name(&self) -> &'static str
        ensures { result.now ≡ codes "Failed" }
    {
        "Failed"
    }
}

/// Why the bytes of a source, or of a file, aren't handed out.
#[derive(Clone, Copy, Debug, PartialEq, Eq, Error)]
pub enum BytesFault {
    /// 6: there are more bytes than the limit.
    #[error("more bytes than the limit")]
    TooLong,
    /// 7: the source failed, or the file can't be opened.
    #[error("the source failed")]
    ReadFault,
    /// 8: memory was refused.
    #[error("no memory")]
    NoMemory,
}

impl BytesFault {
    /// The fault's number.
    pub fn number(&self) -> u8
        ensures { result ≡ number_of self.now }
    {
        match self {
            BytesFault::TooLong => 6,
            BytesFault::ReadFault => 7,
            BytesFault::NoMemory => 8,
        }
    }

    /// The fault's name.
    pub fn name(&self) -> &'static str
        ensures { result.now ≡ name_of self.now }
    {
        match self {
            BytesFault::TooLong => "TooLong",
            BytesFault::ReadFault => "ReadFault",
            BytesFault::NoMemory => "NoMemory",
        }
    }
}
