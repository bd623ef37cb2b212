//! How a feed ends early.

ghost use Rattle.std.specs.Prelude.{◌≡◌};
ghost use Rattle.event_feed.specs.Fault.{number_of, name_of};

use thiserror::Error;

/// Why a feed ended before its source did, or with a source that was cut short.
#[derive(Clone, Copy, Debug, PartialEq, Eq, Error)]
pub enum FeedFault {
    /// 2: Gerrit dropped events, which have to be read again.
    #[error("events were dropped")]
    Dropped,
    /// 3: the source failed, or gave more lines than can be counted.
    #[error("the source failed")]
    ReadFault,
    /// 4: one of the outputs failed.
    #[error("an output failed")]
    WriteFault,
    /// 5: memory was refused.
    #[error("no memory")]
    NoMemory,
    /// 7: no site answers at the address.
    #[error("no site answers at the address")]
    NoSite,
    /// 8: the connection to the site ended, or something came over it that is no answer.
    #[error("the session of the site ended")]
    Ended,
    /// 9: the answer of a query is cut short, or is an error.
    #[error("the answer of a query isn't whole")]
    Incomplete,
    /// 10: the site has no such key.
    #[error("the site has no such key")]
    NoKey,
    /// 11: what answers at the address didn't prove that it has the key.
    #[error("the site didn't prove that it has the key")]
    NotProved,
    /// 12: the key has the role `read`, so that the site refuses bodies.
    #[error("the key may only read")]
    NotAllowed,
    /// 13: the site reports that more of its record is left, but sends nothing new: the pull doesn't end.
    #[error("the pull of the site's record has no end")]
    NoEnd,
}

impl FeedFault {
    /// The fault's number.
    pub fn number(&self) -> u8
        ensures { result ≡ number_of self.now }
    {
        match self {
            FeedFault::Dropped => 2,
            FeedFault::ReadFault => 3,
            FeedFault::WriteFault => 4,
            FeedFault::NoMemory => 5,
            FeedFault::NoSite => 7,
            FeedFault::Ended => 8,
            FeedFault::Incomplete => 9,
            FeedFault::NoKey => 10,
            FeedFault::NotProved => 11,
            FeedFault::NotAllowed => 12,
            FeedFault::NoEnd => 13,
        }
    }

    /// The fault's name.
    pub fn name(&self) -> &'static str
        ensures { result.now ≡ name_of self.now }
    {
        match self {
            FeedFault::Dropped => "Dropped",
            FeedFault::ReadFault => "ReadFault",
            FeedFault::WriteFault => "WriteFault",
            FeedFault::NoMemory => "NoMemory",
            FeedFault::NoSite => "NoSite",
            FeedFault::Ended => "Ended",
            FeedFault::Incomplete => "Incomplete",
            FeedFault::NoKey => "NoKey",
            FeedFault::NotProved => "NotProved",
            FeedFault::NotAllowed => "NotAllowed",
            FeedFault::NoEnd => "NoEnd",
        }
    }
}
