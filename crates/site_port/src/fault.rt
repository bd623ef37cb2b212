//! The faults of ports and sinks.

ghost use Rattle.std.specs.Prelude.{◌≡◌};
ghost use Rattle.site_port.specs.Fault.{port_number_of, port_name_of, sink_number_of, sink_name_of};

use review_ops::BodyFault;
use thiserror::Error;

/// Why a port refuses a call.
#[derive(Clone, Copy, Debug, PartialEq, Eq, Error)]
pub enum PortFault {
    /// 1: no stamp is left.
    #[error("no stamp is left")]
    ClockSpent,
    /// 2: the body is refused.
    #[error("bad body: {0}")]
    BadBody(BodyFault),
    /// 3: memory was refused.
    #[error("no memory")]
    NoMemory,
    /// 4: the site has ended.
    #[error("the site has ended")]
    Closed,
}

/// Why a sink doesn't take what it is handed, or say how far it goes. The numbers are those of `PortFault`, and those
/// of `pull_guard::Bar`.
#[derive(Clone, Copy, Debug, PartialEq, Eq, Error)]
pub enum SinkFault {
    /// 3: memory was refused.
    #[error("no memory")]
    NoMemory,
    /// 4: the site has ended.
    #[error("the site has ended")]
    Closed,
    /// 11: an operation is of a site that isn't listed.
    #[error("an operation of a site that isn't listed")]
    NotListed,
    /// 12: an operation has a time or a start that is far ahead of the record.
    #[error("an operation that is far ahead")]
    FarAhead,
}

impl PortFault {
    /// The fault's number.
    pub fn number(&self) -> u8
        ensures { result ≡ port_number_of self.now }
    {
        match self {
            PortFault::ClockSpent => 1,
            PortFault::BadBody(_) => 2,
            PortFault::NoMemory => 3,
            PortFault::Closed => 4,
        }
    }

    /// The fault's name.
    pub fn name(&self) -> &'static str
        ensures { result.now ≡ port_name_of self.now }
    {
        match self {
            PortFault::ClockSpent => "ClockSpent",
            PortFault::BadBody(_) => "BadBody",
            PortFault::NoMemory => "NoMemory",
            PortFault::Closed => "Closed",
        }
    }
}

impl SinkFault {
    /// The fault's number.
    pub fn number(&self) -> u8
        ensures { result ≡ sink_number_of self.now }
    {
        match self {
            SinkFault::NoMemory => 3,
            SinkFault::Closed => 4,
            SinkFault::NotListed => 11,
            SinkFault::FarAhead => 12,
        }
    }

    /// The fault's name.
    pub fn name(&self) -> &'static str
        ensures { result.now ≡ sink_name_of self.now }
    {
        match self {
            SinkFault::NoMemory => "NoMemory",
            SinkFault::Closed => "Closed",
            SinkFault::NotListed => "NotListed",
            SinkFault::FarAhead => "FarAhead",
        }
    }
}
