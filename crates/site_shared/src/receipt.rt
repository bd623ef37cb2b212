//! What a desk answers for a publish.

ghost use Rattle.std.specs.Prelude.{◌≡◌};

use crate::sight::Sight;
use review_ops::Stamp;
use std::marker::Model;

/// The publishes of an opening, up to one of them. A window that learns it sees no less from then on. Contracts see the
/// list. Threads may share it.
#[derive(Drop)]
pub struct Receipt {
    sight: Sight,
    site: u16,
    start: u32,
    stamp: Option<Stamp>,
}

impl Model for Receipt {
    ghost use Rattle.site_shared.specs.Accounts.{Extent};

    ghost Value = { Extent };

    ghost view = { λ r. record { book = r.sight.seen.book; published = r.sight.seen.log; site = r.site; start = r.start; stamp = r.stamp } };
}

impl Receipt {
    /// A receipt for what the sight has seen, of the site under the start, with the stamp of what was taken in.
    pub(crate) fn new(sight: Sight, site: u16, start: u32, stamp: Option<Stamp>) -> Receipt
        ensures { result
            ≡ record { book = sight.seen.book; published = sight.seen.log; site = site; start = start; stamp = stamp } }
    {
        Receipt {
            sight,
            site,
            start,
            stamp,
        }
    }

    /// The stamp of what was taken in; none where nothing was stamped. Takes no memory.
    pub fn stamp(&self) -> Option<Stamp>
        ensures { result ≡ self.now.stamp }
    {
        self.stamp
    }

    /// The site and the start of its opening.
    pub fn origin(&self) -> (u16, u32)
        ensures { result ≡ (self.now.site, self.now.start) }
    {
        (self.site, self.start)
    }

    /// How far it reaches.
    pub(crate) fn sight(&self) -> &Sight
        ensures { (result.now.seen.book ≡ self.now.book) × (result.now.seen.log ≡ self.now.published) }
    {
        &self.sight
    }
}
