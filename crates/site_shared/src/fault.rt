//! Why a running site doesn't do what it is asked for.

ghost use Rattle.std.specs.Prelude.{◌≡◌, codes};
ghost use Rattle.site_shared.specs.Fault.{desk_name_of, desk_number_of, open_name_of, open_number_of, refresh_name_of};
ghost use Rattle.site_shared.specs.Fault.{refresh_number_of, window_name_of, window_number_of};

use review_ops::BodyFault;
use thiserror::Error;

/// Why a site isn't opened.
#[derive(Clone, Copy, Debug, PartialEq, Eq, Error)]
pub enum OpenFault {
    /// 1: memory was refused.
    #[error("no memory")]
    NoMemory,
    /// 2: no place was found for a window.
    #[error("no place for a window")]
    NoPlace,
    /// 3: the replica holds a stamp of this site under this start or a later one.
    #[error("the start was used before")]
    StartUsed,
}

/// Why a desk doesn't take in, or doesn't publish.
#[derive(Clone, Copy, Debug, PartialEq, Eq, Error)]
pub enum DeskFault {
    /// 1: no stamp is left.
    #[error("no stamp is left")]
    ClockSpent,
    /// 2: the body is refused.
    #[error("bad body: {0}")]
    BadBody(BodyFault),
    /// 3: memory was refused. So many operations of the call, its first ones, are held, and are published first by the
    /// next call that publishes.
    #[error("no memory, {0} operations are held")]
    NoMemory(usize),
}

/// Why a window doesn't answer.
#[derive(Clone, Copy, Debug, PartialEq, Eq, Error)]
pub enum WindowFault {
    /// 2: memory was refused. The window may have seen more than before.
    #[error("no memory")]
    NoMemory,
    /// 3: the desk has ended.
    #[error("the site has ended")]
    Closed,
}

/// Why a watch isn't brought up to date.
#[derive(Clone, Copy, Debug, PartialEq, Eq, Error)]
pub enum RefreshFault {
    /// 1: the watch is one of another site, or of another start. Nothing changes.
    #[error("a watch of another site or start")]
    Stranger,
    /// 2: memory was refused. The watch has no verdicts, and the window may have seen more than before.
    #[error("no memory")]
    NoMemory,
    /// 3: the desk has ended. Nothing changes.
    #[error("the site has ended")]
    Closed,
}

/// The receipt is one of another site, or of another start.
#[derive(Clone, Copy, Debug, PartialEq, Eq, Error)]
#[error("a receipt of another site or start")]
pub struct Stranger;

impl OpenFault {
    /// The fault's number.
    pub fn number(&self) -> u8
        ensures { result ≡ open_number_of self.now }
    {
        match self {
            OpenFault::NoMemory => 1,
            OpenFault::NoPlace => 2,
            OpenFault::StartUsed => 3,
        }
    }

    /// The fault's name.
    pub fn name(&self) -> &'static str
        ensures { result.now ≡ open_name_of self.now }
    {
        match self {
            OpenFault::NoMemory => "NoMemory",
            OpenFault::NoPlace => "NoPlace",
            OpenFault::StartUsed => "StartUsed",
        }
    }
}

impl DeskFault {
    /// The fault's number.
    pub fn number(&self) -> u8
        ensures { result ≡ desk_number_of self.now }
    {
        match self {
            DeskFault::ClockSpent => 1,
            DeskFault::BadBody(_) => 2,
            DeskFault::NoMemory(_) => 3,
        }
    }

    /// The fault's name.
    pub fn name(&self) -> &'static str
        ensures { result.now ≡ desk_name_of self.now }
    {
        match self {
            DeskFault::ClockSpent => "ClockSpent",
            DeskFault::BadBody(_) => "BadBody",
            DeskFault::NoMemory(_) => "NoMemory",
        }
    }
}

impl WindowFault {
    /// The fault's number.
    pub fn number(&self) -> u8
        ensures { result ≡ window_number_of self.now }
    {
        match self {
            WindowFault::NoMemory => 2,
            WindowFault::Closed => 3,
        }
    }

    /// The fault's name.
    pub fn name(&self) -> &'static str
        ensures { result.now ≡ window_name_of self.now }
    {
        match self {
            WindowFault::NoMemory => "NoMemory",
            WindowFault::Closed => "Closed",
        }
    }
}

impl RefreshFault {
    /// The fault's number.
    pub fn number(&self) -> u8
        ensures { result ≡ refresh_number_of self.now }
    {
        match self {
            RefreshFault::Stranger => 1,
            RefreshFault::NoMemory => 2,
            RefreshFault::Closed => 3,
        }
    }

    /// The fault's name.
    pub fn name(&self) -> &'static str
        ensures { result.now ≡ refresh_name_of self.now }
    {
        match self {
            RefreshFault::Stranger => "Stranger",
            RefreshFault::NoMemory => "NoMemory",
            RefreshFault::Closed => "Closed",
        }
    }
}

impl Stranger {
    /// The fault's number.
    pub fn number(&self) -> u8
        ensures { result ≡ 1 }
    {
        1
    }

    /// The fault's name.
    pub fn name(&self) -> &'static str
        ensures { result.now ≡ codes "Stranger" }
    {
        "Stranger"
    }
}
