//! Why keys aren't read, or none is found.

use thiserror::Error;

/// Why keys aren't read, or none is found.
#[derive(Clone, Copy, Debug, PartialEq, Eq, Error)]
pub enum KeyFault {
    /// 1: the file can be read or written by others than its user.
    #[error("the file is open to others")]
    Open,
    /// 2: this line, counted from 1, is no key.
    #[error("line {0} is no key")]
    BadLine(u64),
    /// 3: no key has the name.
    #[error("no key has the name")]
    NoKey,
    /// 4: the file can't be opened or read.
    #[error("the file can't be read")]
    ReadFault,
    /// 5: memory was refused.
    #[error("no memory")]
    NoMemory,
}

impl KeyFault {
    ghost use Rattle.std.specs.Prelude.{◌≡◌};
    ghost use Rattle.key_file.specs.Files.{name_of, number_of};

    /// The fault's number, of the part `keys`.
    pub fn number(&self) -> u8
        ensures { result ≡ number_of self.now }
    {
        match self {
            KeyFault::Open => 1,
            KeyFault::BadLine(_) => 2,
            KeyFault::NoKey => 3,
            KeyFault::ReadFault => 4,
            KeyFault::NoMemory => 5,
        }
    }

    /// The fault's name.
    pub fn name(&self) -> &'static str
        ensures { result.now ≡ name_of self.now }
    {
        match self {
            KeyFault::Open => "Open",
            KeyFault::BadLine(_) => "BadLine",
            KeyFault::NoKey => "NoKey",
            KeyFault::ReadFault => "ReadFault",
            KeyFault::NoMemory => "NoMemory",
        }
    }
}
