//! What ends the program of a site beside the site itself.

ghost use Rattle.std.specs.Prelude.{◌≡◌};
ghost use Rattle.serve_command.specs.Fault.{name_of, number_of};

use thiserror::Error;

/// Why the program of a site doesn't run it, or doesn't end well: what its port and its files refuse, and a start that
/// isn't its own any more. The numbers that are left out are those of `ServeFault`.
#[derive(Clone, Copy, Debug, PartialEq, Eq, Error)]
pub enum ProgramFault {
    /// 1: the port can't be listened at.
    #[error("the port can't be listened at")]
    NoBind,
    /// 5: what the site has couldn't be saved.
    #[error("the record couldn't be saved")]
    NoSave,
    /// 7: another process has the journal.
    #[error("the journal is locked")]
    Locked,
    /// 8: another process runs as this site under this start or a later one.
    #[error("another process runs under this site's number and start")]
    StartTaken,
}

impl ProgramFault {
    /// The fault's number.
    pub fn number(&self) -> u8
        ensures { result ≡ number_of self.now }
    {
        match self {
            ProgramFault::NoBind => 1,
            ProgramFault::NoSave => 5,
            ProgramFault::Locked => 7,
            ProgramFault::StartTaken => 8,
        }
    }

    /// The fault's name.
    pub fn name(&self) -> &'static str
        ensures { result.now ≡ name_of self.now }
    {
        match self {
            ProgramFault::NoBind => "NoBind",
            ProgramFault::NoSave => "NoSave",
            ProgramFault::Locked => "Locked",
            ProgramFault::StartTaken => "StartTaken",
        }
    }
}
