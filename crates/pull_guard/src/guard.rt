//! The guard of a record.

ghost use Rattle.std.specs.Prelude.{◌≡◌, ◌↔◌, IfErr, IsTrue, OnOk};
ghost use Rattle.pull_guard.specs.Fault.{name_of, number_of};
ghost use Rattle.pull_guard.specs.Guards.{AreAllowed, AreBarred, IsAllowed, IsBarred, IsListed};

use review_ops::{Op, Stamp};
use thiserror::Error;

/// How far the time of an operation may be above the greatest one of the record: no real clock gets so far between two
/// pulls, since each operation raises it by one.
pub const FURTHEST: u64 = 1_099_511_627_776;

/// The greatest start under which a site begins.
pub const LAST_START: u32 = 4_294_967_294;

/// What a site lets in: operations of its own number, and those of the listed sites, or of all sites where none is
/// listed.
#[derive(Debug, Drop)]
pub struct Guard {
    /// The number of the site itself.
    pub own: u16,
    /// The numbers of the sites whose operations are accepted; an empty list means all sites.
    pub sites: Vec<u16>,
}

/// Why operations aren't let in. The numbers are those of a pull's refusals.
#[derive(Clone, Copy, Debug, PartialEq, Eq, Error)]
pub enum Bar {
    /// 11: an operation is of a site that isn't listed.
    #[error("an operation of a site that isn't listed")]
    NotListed,
    /// 12: an operation has a time or a start that is far ahead of the record.
    #[error("an operation that is far ahead")]
    FarAhead,
}

impl Guard {
    /// Lets operations in, where the greatest time of the record is `latest`, only if each of them is allowed: of a
    /// listed site, with a time of at most `latest` and 2^40, and with a start of at most 4,294,967,294. Else the first
    /// one that isn't says why: 11 `NotListed` before 12 `FarAhead`. It takes no memory, and costs O(m) for each
    /// operation, for m listed sites.
    pub fn admit(&self, latest: u64, ops: &[Op]) -> Result<(), Bar>
        ensures all { OnOk result (AreAllowed self.now latest ops.now) }
        ensures first { IfErr result (AreBarred self.now latest ops.now) }
    {
        for op in ops {
            self.judge(latest, op.stamp())?;
        }
        Ok(())
    }

    /// Judges an operation of this stamp.
    fn judge(&self, latest: u64, stamp: Stamp) -> Result<(), Bar>
        ensures ok { OnOk result (IsAllowed self.now latest stamp) }
        ensures err { IfErr result (IsBarred self.now latest stamp) }
    {
        if !self.lists(stamp.site()) {
            return Err(Bar::NotListed);
        }
        if stamp.time().saturating_sub(latest) > FURTHEST || stamp.start() > LAST_START {
            return Err(Bar::FarAhead);
        }
        Ok(())
    }

    /// Whether operations of this site are let in.
    fn lists(&self, site: u16) -> bool
        ensures { IsTrue result ↔ IsListed self.now site }
    {
        site == self.own || self.sites.is_empty() || self.sites.as_slice().contains(&site)
    }
}

impl Bar {
    /// The number of the refusal.
    pub fn number(&self) -> u8
        ensures { result ≡ number_of self.now }
    {
        match self {
            Bar::NotListed => 11,
            Bar::FarAhead => 12,
        }
    }

    /// The name of the refusal.
    pub fn name(&self) -> &'static str
        ensures { result.now ≡ name_of self.now }
    {
        match self {
            Bar::NotListed => "NotListed",
            Bar::FarAhead => "FarAhead",
        }
    }
}
