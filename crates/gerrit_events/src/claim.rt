//! The claims of a line, before they are checked.

ghost use Rattle.std.specs.Prelude.{◌≡◌};
ghost use Rattle.review_ops.specs.Draft.{deed_of};
ghost use Rattle.gerrit_events.specs.Claims.{drafts, shows, lists, refuses, bad};
ghost use Rattle.gerrit_events.specs.Listings.{listing_shown};
ghost use Rattle.gerrit_events.specs.Reading.{IsSettled};

use super::fault::{EventFault, EventKey, key_of};
use super::finding::Finding;
use super::listing::Listing;
use review_ops::{Body, Draft};
use std::marker::Model;

/// What a claim is.
#[derive(Drop)]
pub enum Claimed {
    Draft(Draft),
    Shown(Draft),
    Listing(Listing),
    Fault(EventFault),
}

/// A claim of a line: a draft, valid or not, a patch set or a listing of votes that it shows, or a loss.
#[derive(Drop)]
pub struct Claim {
    claimed: Claimed,
}

impl Model for Claim {
    ghost use Rattle.gerrit_events.specs.Claims.{Claim};
    ghost use Rattle.gerrit_events.specs.ClaimShown.{claim_shown};

    ghost Value = { Claim };

    ghost view = { λ claim. claim_shown claim.claimed };
}

impl Claim {
    /// A body.
    pub fn drafts(draft: Draft) -> Claim
        ensures { result ≡ drafts (deed_of draft) }
    {
        Claim {
            claimed: Claimed::Draft(draft),
        }
    }

    /// A patch set that an event shows, or that it shows no vote.
    pub fn shows(draft: Draft) -> Claim
        ensures { result ≡ shows (deed_of draft) }
    {
        Claim {
            claimed: Claimed::Shown(draft),
        }
    }

    /// All votes of a patch set.
    pub fn lists(listing: Listing) -> Claim
        ensures { result ≡ lists (listing_shown listing) }
    {
        Claim {
            claimed: Claimed::Listing(listing),
        }
    }

    /// Something that is lost.
    pub fn refuses(fault: EventFault) -> Claim
        ensures { result ≡ refuses fault }
    {
        Claim {
            claimed: Claimed::Fault(fault),
        }
    }

    /// A loss because of the value under a key.
    pub fn bad(key: EventKey) -> Claim
        ensures { result ≡ bad key }
    {
        Claim::refuses(EventFault::BadEvent(key))
    }

    /// The finding: the checked body, or the loss of an invalid draft.
    pub fn settled(self) -> Finding
        ensures { IsSettled self result }
    {
        let Claim { claimed } = self;
        match claimed {
            Claimed::Draft(draft) => settled_draft(draft),
            Claimed::Shown(draft) => settled_shown(draft),
            Claimed::Listing(listing) => Finding::Lists(listing),
            Claimed::Fault(fault) => Finding::Refuses(fault),
        }
    }
}

/// The finding of a draft: its body, or the loss of an invalid one.
fn settled_draft(draft: Draft) -> Finding
    ensures { IsSettled (drafts (deed_of draft)) result }
{
    match Body::checked(draft) {
        Ok(body) => Finding::Brings(body),
        Err(fault) => Finding::Refuses(EventFault::BadEvent(key_of(fault))),
    }
}

/// The finding of what is shown: its body, or the loss of an invalid one.
fn settled_shown(draft: Draft) -> Finding
    ensures { IsSettled (shows (deed_of draft)) result }
{
    match Body::checked(draft) {
        Ok(body) => Finding::Shows(body),
        Err(fault) => Finding::Refuses(EventFault::BadEvent(key_of(fault))),
    }
}
