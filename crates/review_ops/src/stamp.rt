//! When and where an operation was made.

ghost use Rattle.std.specs.Prelude.{◌≡◌, ◌≤◌, ◌↔◌, IsNone, IfSome, IfOk, Some, refl};
ghost use Rattle.lattice_core.specs.Keep.{IsExactOrder};
ghost use Rattle.review_ops.specs.Timestamp.{Timestamp, timestamp_cmp, timestamp_text, timestamps_exact, IsNumbered};

use lattice_core::{Keep, NoMemory};
use std::fmt;
use std::marker::Model;

/// When and where an operation was made: the site's clock, the site, the site's run, and the operation's place in
/// that run, counted from 1. Stamps are ordered field by field.
#[derive(Clone, Copy, Debug, PartialEq, Eq, PartialOrd, Ord)]
pub struct Stamp {
    time: u64,
    site: u16,
    start: u32,
    seq: u64,
}

impl Model for Stamp {
    ghost use Rattle.std.specs.Prelude.{◌≤◌};
    ghost use Rattle.review_ops.specs.Timestamp.{Timestamp};

    ghost Value = { Timestamp };

    ghost view = { λ s. record { time = s.time; site = s.site; start = s.start; seq = s.seq } };

    ghost invariant = { λ s. 1 ≤ s.seq };

    ghost inverse = { λ t. record { time = t.time; site = t.site; start = t.start; seq = t.seq } };
}

impl Stamp {
    /// The stamp of these four numbers, or `None` where `seq` is 0.
    pub fn new(time: u64, site: u16, start: u32, seq: u64) -> Option<Stamp>
        ensures none { IsNone result ↔ (seq ≡ 0) }
        ensures some { IfSome result
            (λ stamp. stamp ≡ record { time = time; site = site; start = start; seq = seq }) }
    {
        if seq == 0 {
            return None;
        }
        Some(Stamp {
            time,
            site,
            start,
            seq,
        })
    }

    /// The site's clock, which each of its operations raises.
    pub fn time(self) -> u64
        ensures { result ≡ self.time }
    {
        self.time
    }

    /// The site's number.
    pub fn site(self) -> u16
        ensures { result ≡ self.site }
    {
        self.site
    }

    /// The number of the site's run.
    pub fn start(self) -> u32
        ensures { result ≡ self.start }
    {
        self.start
    }

    /// The operation's place in the run, from 1 on.
    pub fn seq(self) -> u64
        ensures value { result ≡ self.seq }
        ensures counted { 1 ≤ result }
        ensures numbered { IsNumbered self }
    {
        self.seq
    }
}

impl fmt::Display for Stamp {
    ghost output = { λ stamp. Some (timestamp_text stamp) };

    fn fmt<W: fmt::Write>(&self, f: &mut fmt::Formatter<W>) -> fmt::Result {
        let time = self.time;
        let site = self.site;
        let start = self.start;
        let seq = self.seq;
        write!(f, "{time},{site},{start},{seq}")
    }
}

impl Keep for Stamp {
    ghost Shape = { Timestamp };

    ghost shape = { λ stamp. stamp };

    ghost order = { timestamp_cmp };

    ghost compares = { λ a b. refl };

    ghost ordered = { timestamps_exact };

    fn copy(&self) -> Result<Stamp, NoMemory>
        ensures { result ≡ Ok self.now }
    {
        Ok(*self)
    }
}
