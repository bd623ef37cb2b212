//! Why a script isn't read or played to its end.

ghost use Rattle.std.specs.Prelude.{◌≡◌, ◌++◌, OnOk, string_bytes};
ghost use Rattle.script_text.specs.Fault.{number_of, name_of, words_of};

use std::alloc::AllocError;
use thiserror::Error;

/// Why a script isn't played to its end.
#[derive(Clone, Copy, Debug, PartialEq, Eq, Error)]
pub enum ScriptFault {
    /// Its first line isn't `sites N` with N from 1 to 64.
    #[error("the first line has to be `sites N`, with N from 1 to 64")]
    BadSites,
    /// The line of this number says nothing that can be played.
    #[error("line {0} can't be played")]
    BadLine(u64),
    /// The sites or the lines couldn't be held.
    #[error("no memory")]
    NoMemory,
}

impl ScriptFault {
    /// The number that is printed.
    pub fn number(&self) -> u8
        ensures { result ≡ number_of self.now }
    {
        match self {
            ScriptFault::BadSites => 1,
            ScriptFault::BadLine(_) => 2,
            ScriptFault::NoMemory => 3,
        }
    }

    /// The name that is printed.
    pub fn name(&self) -> &'static str
        ensures { result.now ≡ name_of self.now }
    {
        match self {
            ScriptFault::BadSites => "BadSites",
            ScriptFault::BadLine(_) => "BadLine",
            ScriptFault::NoMemory => "NoMemory",
        }
    }

    /// Writes the fault's words in reports: its name, and the number of a bad line. In O(n) for their length.
    pub fn write_words(&self, text: &mut String) -> Result<(), AllocError>
        ensures { OnOk result (string_bytes text.new ≡ string_bytes text.old ++ words_of self.now) }
    {
        match self {
            ScriptFault::BadLine(line) => write!(text, "BadLine {line}"),
            ScriptFault::BadSites | ScriptFault::NoMemory => text.push_str(self.name()),
        }
    }
}
