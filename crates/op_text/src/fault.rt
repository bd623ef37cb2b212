//! Why the text of an operation, a body or a front isn't read.

ghost use Rattle.std.specs.Prelude.{◌≡◌, ◌++◌, OnOk, string_bytes};
ghost use Rattle.op_text.specs.Fault.{number_of, name_of, words_of};
ghost use Rattle.op_text.specs.declared.fault.OpTextFault.TheVariants.{NoMemory as OutOfMemory};

use lattice_core::NoMemory;
use review_ops::BodyFault;
use std::alloc::{AllocError, AllocFailed};
use thiserror::Error;

/// Why a text isn't read.
#[derive(Debug, Drop, Error)]
pub enum OpTextFault {
    /// 1: the bytes aren't UTF-8, or aren't the text of one JSON object (for a front: of one JSON list).
    #[error("no JSON object")]
    NotJson,
    /// 2: the key is missing, isn't expected, or has a value that isn't accepted.
    #[error("bad key {0:?}")]
    BadShape(String),
    /// 3: the body that the text spells isn't good.
    #[error("bad body: {0}")]
    BadBody(BodyFault),
    /// 4: memory was refused.
    #[error("no memory")]
    NoMemory,
}

impl OpTextFault {
    /// The fault's number in reports.
    pub fn number(&self) -> u8
        ensures { result ≡ number_of self.now }
    {
        match self {
            OpTextFault::NotJson => 1,
            OpTextFault::BadShape(_) => 2,
            OpTextFault::BadBody(_) => 3,
            OpTextFault::NoMemory => 4,
        }
    }

    /// The fault's name in reports, without the key or the cause.
    pub fn name(&self) -> &'static str
        ensures { result.now ≡ name_of self.now }
    {
        match self {
            OpTextFault::NotJson => "NotJson",
            OpTextFault::BadShape(_) => "BadShape",
            OpTextFault::BadBody(_) => "BadBody",
            OpTextFault::NoMemory => "NoMemory",
        }
    }

    /// Writes the fault's words in reports: its name, and the key that isn't as it should be or the name of the body's
    /// fault. In O(n) for their length.
    pub fn write_words(&self, text: &mut String) -> Result<(), AllocError>
        ensures { OnOk result (string_bytes text.new ≡ string_bytes text.old ++ words_of self.now) }
    {
        match self {
            OpTextFault::BadShape(key) => write!(text, "BadShape {key}"),
            OpTextFault::BadBody(fault) => {
                let name = fault.name();
                write!(text, "BadBody {name}")
            }
            OpTextFault::NotJson | OpTextFault::NoMemory => text.push_str(self.name()),
        }
    }
}

impl From<NoMemory> for OpTextFault {
    ghost from_gives = { λ _ fault. fault ≡ OutOfMemory };

    fn from(_refused: NoMemory) -> OpTextFault {
        OpTextFault::NoMemory
    }
}

impl From<AllocError> for OpTextFault {
    ghost from_gives = { λ _ fault. fault ≡ OutOfMemory };

    fn from(_refused: AllocError) -> OpTextFault {
        OpTextFault::NoMemory
    }
}

impl<T: Drop> From<AllocFailed<T>> for OpTextFault {
    ghost from_gives = { λ _ fault. fault ≡ OutOfMemory };

    fn from(_refused: AllocFailed<T>) -> OpTextFault {
        OpTextFault::NoMemory
    }
}
