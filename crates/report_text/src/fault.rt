//! Why a report or a state text isn't written.

ghost use Rattle.std.specs.Prelude.{◌≡◌};
ghost use Rattle.report_text.specs.Fault.{report_number_of, report_name_of, state_number_of, state_name_of};

use byte_ends::Failed;
use thiserror::Error;

/// Why a report isn't written.
#[derive(Clone, Copy, Debug, PartialEq, Eq, Error)]
pub enum WriteReportFault {
    /// 1: the drain failed.
    #[error("the drain failed")]
    WriteFault,
}

/// Why a state text isn't written.
#[derive(Clone, Copy, Debug, PartialEq, Eq, Error)]
pub enum WriteStateFault {
    /// 1: the drain failed.
    #[error("the drain failed")]
    WriteFault,
    /// 2: memory was refused.
    #[error("no memory")]
    NoMemory,
}

impl WriteReportFault {
    /// The fault's number in reports.
    pub fn number(&self) -> u8
        ensures { result ≡ report_number_of self.now }
    {
        match self {
            WriteReportFault::WriteFault => 1,
        }
    }

    /// The fault's name in reports.
    pub fn name(&self) -> &'static str
        ensures { result.now ≡ report_name_of self.now }
    {
        match self {
            WriteReportFault::WriteFault => "WriteFault",
        }
    }
}

impl WriteStateFault {
    /// The fault's number in reports.
    pub fn number(&self) -> u8
        ensures { result ≡ state_number_of self.now }
    {
        match self {
            WriteStateFault::WriteFault => 1,
            WriteStateFault::NoMemory => 2,
        }
    }

    /// The fault's name in reports.
    pub fn name(&self) -> &'static str
        ensures { result.now ≡ state_name_of self.now }
    {
        match self {
            WriteStateFault::WriteFault => "WriteFault",
            WriteStateFault::NoMemory => "NoMemory",
        }
    }
}

impl From<Failed> for WriteReportFault {
    fn from(_failed: Failed) -> WriteReportFault {
        WriteReportFault::WriteFault
    }
}
