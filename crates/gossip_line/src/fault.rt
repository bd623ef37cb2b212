//! How sessions and pulls fail.

ghost use Rattle.std.specs.Prelude.{◌≡◌};
ghost use Rattle.gossip_line.specs.Fault.{number_of, name_of};

use thiserror::Error;

/// Why a session or a pull ended early. The last four occur in pulls only. 8 to 10 are left out: `serve` and `events`
/// use them beside these.
#[derive(Clone, Copy, Debug, PartialEq, Eq, Error)]
pub enum LineFault {
    /// 1: a line is longer than 524,288 bytes.
    #[error("a line is too long")]
    LongLine,
    /// 2: the other side uses another version, or doesn't name one first.
    #[error("another version is spoken")]
    BadVersion,
    /// 3: the source failed, or a session has read as many lines as one may have.
    #[error("the source failed")]
    ReadFault,
    /// 4: the drain failed.
    #[error("the drain failed")]
    WriteFault,
    /// 5: memory was refused.
    #[error("no memory")]
    NoMemory,
    /// 6: the answer is not one of a session, or it is cut.
    #[error("a bad answer")]
    BadAnswer,
    /// 7: the sink has ended.
    #[error("the sink has ended")]
    Closed,
    /// 11: an operation is of a site that isn't listed.
    #[error("an operation of a site that isn't listed")]
    NotListed,
    /// 12: an operation has a time or a start that is far ahead of the record.
    #[error("an operation that is far ahead")]
    FarAhead,
}

impl LineFault {
    /// The fault's number.
    pub fn number(&self) -> u8
        ensures { result ≡ number_of self.now }
    {
        match self {
            LineFault::LongLine => 1,
            LineFault::BadVersion => 2,
            LineFault::ReadFault => 3,
            LineFault::WriteFault => 4,
            LineFault::NoMemory => 5,
            LineFault::BadAnswer => 6,
            LineFault::Closed => 7,
            LineFault::NotListed => 11,
            LineFault::FarAhead => 12,
        }
    }

    /// The fault's name.
    pub fn name(&self) -> &'static str
        ensures { result.now ≡ name_of self.now }
    {
        match self {
            LineFault::LongLine => "LongLine",
            LineFault::BadVersion => "BadVersion",
            LineFault::ReadFault => "ReadFault",
            LineFault::WriteFault => "WriteFault",
            LineFault::NoMemory => "NoMemory",
            LineFault::BadAnswer => "BadAnswer",
            LineFault::Closed => "Closed",
            LineFault::NotListed => "NotListed",
            LineFault::FarAhead => "FarAhead",
        }
    }
}
